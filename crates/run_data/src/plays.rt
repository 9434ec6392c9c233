//! What comes last of schedules that are played.
use crate::scripts::script_of;
use disk_model::Fill;
use schedule_sim::run;
use sim_rules::{End, Event, Outcome};
use sim_script::{Script, ScriptError};
use std::alloc::{AllocError, Global};

/// A change of `a` to 5, whose batch is written and synced; its gate isn't opened.
const BEFORE_THE_GATE: &str = "open 16\nstart 0 put a i5\ngo 0\nsweep\nstage 10\nlog ok\nlog ok\n";

fn end_text(alloc: Global, end: &End) -> Result<String, AllocError> {
    match end {
        End::Replied { position, reply } => format!(in alloc; "Replied {position} {reply:?}"),
        End::NotYet => String::from_str(alloc, "NotYet"),
        End::Refused(refusal) => format!(in alloc; "{refusal:?}"),
        _ => String::from_str(alloc, "another end"),
    }
}

fn outcome_text(alloc: Global, outcome: &Outcome) -> Result<String, AllocError> {
    match outcome {
        Outcome::Old => String::from_str(alloc, "Old"),
        Outcome::Opened {
            prefix,
            entries,
            ..
        } => {
            let count = entries.len();
            format!(in alloc; "Opened {prefix} {count}")
        }
        Outcome::Refused(refusal) | Outcome::NotOpened { refusal, .. } => {
            format!(in alloc; "Refused {refusal:?}")
        }
        Outcome::Stepped { made, end } => {
            let end = end_text(alloc, end)?;
            format!(in alloc; "{made:?} {end}")
        }
        _ => String::from_str(alloc, "another outcome"),
    }
}

/// The last outcome that isn't skipped.
fn last_of(outcomes: &[Outcome]) -> Option<&Outcome> {
    let mut last = None;
    for outcome in outcomes {
        if !matches!(outcome, Outcome::Skipped) {
            last = Some(outcome);
        }
    }
    last
}

fn last_told(alloc: Global, events: &[Event]) -> Result<String, AllocError> {
    let trace = run(alloc, events)?;
    match last_of(trace.outcomes.as_slice()) {
        Some(outcome) => outcome_text(alloc, outcome),
        None => String::from_str(alloc, "nothing"),
    }
}

pub(crate) fn play_told(alloc: Global, text: &str) -> Result<String, ScriptError> {
    let script = script_of(alloc, text)?;
    Ok(last_told(alloc, script.events.as_slice())?)
}

fn behind_the_gate(alloc: Global, text: &str) -> Result<Script, ScriptError> {
    let text = format!(in alloc; "{BEFORE_THE_GATE}{text}")?;
    script_of(alloc, text.as_str())
}

pub(crate) fn gate_told(alloc: Global, text: &str) -> Result<String, ScriptError> {
    let script = behind_the_gate(alloc, text)?;
    Ok(last_told(alloc, script.events.as_slice())?)
}

/// The bytes of these numbers, between single spaces.
fn bytes_of(alloc: Global, numbers: &str) -> Result<Vec<u8>, ScriptError> {
    let mut bytes = Vec::new(alloc);
    for number in numbers.split(' ') {
        if let Ok(byte) = number.parse::<u8>() {
            bytes.push(byte)?;
        }
    }
    Ok(bytes)
}

/// The event; a stop leaves these bytes, and behind them what a read gives.
fn with_bytes(alloc: Global, event: Event, bytes: &[u8]) -> Result<Event, AllocError> {
    match event {
        Event::Stop { within, .. } => {
            let bytes = bytes.to_vec(alloc)?;
            let lens = [0; 4];
            let fill = Fill::Chosen { bytes, lens };
            Ok(Event::Stop { within, fill })
        }
        _ => Ok(event),
    }
}

pub(crate) fn chosen_told(alloc: Global, input: &str) -> Result<String, ScriptError> {
    let (words, text) = input.split_once('|').unwrap_or(("", input));
    let bytes = bytes_of(alloc, words)?;
    let Script { events, spans: _ } = behind_the_gate(alloc, text)?;
    let mut chosen = Vec::new(alloc);
    for event in events {
        chosen.push(with_bytes(alloc, event, bytes.as_slice())?)?;
    }
    Ok(last_told(alloc, chosen.as_slice())?)
}
