//! Events as text.
use disk_model::Fill;
use sim_rules::{Ending, Event};
use std::alloc::{AllocError, Global};

fn fill_text(alloc: Global, fill: &Fill) -> Result<String, AllocError> {
    match fill {
        Fill::Old => String::from_str(alloc, "Old"),
        Fill::New => String::from_str(alloc, "New"),
        Fill::Byte(byte) => format!(in alloc; "Byte {byte}"),
        Fill::Chosen { .. } => String::from_str(alloc, "Chosen"),
    }
}

fn ending_text(alloc: Global, ending: &Ending) -> Result<String, AllocError> {
    match ending {
        Ending::Done => String::from_str(alloc, "Done"),
        Ending::Fails(fill) => {
            let fill = fill_text(alloc, fill)?;
            format!(in alloc; "Fails {fill}")
        }
    }
}

pub(crate) fn event_text(alloc: Global, event: &Event) -> Result<String, AllocError> {
    match event {
        Event::Old => String::from_str(alloc, "Old"),
        Event::Open { stripes, fails_at } => {
            let count = stripes.get();
            format!(in alloc; "Open {count} {fails_at:?}")
        }
        Event::Change { worker, command } => format!(in alloc; "Change {worker} {command:?}"),
        Event::Read { worker, read } => format!(in alloc; "Read {worker} {read:?}"),
        Event::Step { worker } => format!(in alloc; "Step {worker}"),
        Event::Release { worker } => format!(in alloc; "Release {worker}"),
        Event::Sweep => String::from_str(alloc, "Sweep"),
        Event::KeeperStep => String::from_str(alloc, "KeeperStep"),
        Event::Stage { most } => format!(in alloc; "Stage {most}"),
        Event::Device { side, ending } => {
            let ending = ending_text(alloc, ending)?;
            format!(in alloc; "Device {side:?} {ending}")
        }
        Event::Publish => String::from_str(alloc, "Publish"),
        Event::Fail => String::from_str(alloc, "Fail"),
        Event::Begin => String::from_str(alloc, "Begin"),
        Event::Capture { stripe } => format!(in alloc; "Capture {stripe}"),
        Event::Seal => String::from_str(alloc, "Seal"),
        Event::Stop { within, fill } => {
            let fill = fill_text(alloc, fill)?;
            format!(in alloc; "Stop {within:?} {fill}")
        }
        Event::Leave => String::from_str(alloc, "Leave"),
    }
}
