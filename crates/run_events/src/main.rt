//! Plays the events that stand in files, one a line, each file on a new store. It prints what came of
//! each behind its number. `tests/search` compares this with a second reading of the rules.
#![tactic(auto)]

mod device_calls;
mod events;
mod fills;
mod outcomes;

use crate::events::events_in;
use crate::outcomes::outcomes_text;
use schedule_sim::run;
use sim_script::ScriptError;
use std::alloc::Global;
use std::io::Print;
use std::process::ExitCode;
use std::{env, fs, io};

/// The exit status for a line that can't be read.
const MISUSED: u8 = 2;

/// What came of the events that are written so.
fn told(alloc: Global, text: &str) -> Result<String, ScriptError> {
    let events = events_in(alloc, text)?;
    let trace = run(alloc, events.as_slice())?;
    Ok(outcomes_text(alloc, trace.outcomes.as_slice())?)
}

fn main(rt: HostRuntime) -> io::Result<ExitCode> {
    for file in env::args(&rt)?.skip(1) {
        let text = fs::read_to_string(&rt, file.as_str())?;
        match told(rt.alloc(), text.as_str()) {
            Ok(told) => print!(rt; "{told}")?,
            Err(failure) => {
                eprintln!(rt; "{failure}")?;
                return Ok(ExitCode::from(MISUSED));
            }
        }
    }
    Ok(ExitCode::SUCCESS)
}
