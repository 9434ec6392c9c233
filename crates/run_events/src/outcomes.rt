//! What came of events as text, in full.
use crate::device_calls::device_call_text;
use call_text::value_word;
use map_types::Refusal;
use sim_rules::{DeviceCall, End, Made, MapEntry, Outcome};
use sim_script::{Form, Span, text_of};
use std::alloc::{AllocError, Global};

/// A line of one event.
const SINGLE: Span = Span {
    form: Form::Single,
    events: 1,
};

/// A step, with its stripe or with what it found.
fn made_text(alloc: Global, made: Made) -> Result<String, AllocError> {
    match made {
        Made::Took(stripe) => format!(in alloc; "TAKE {stripe}"),
        Made::FoundHeld(stripe) => format!(in alloc; "TAKE {stripe} held"),
        Made::Gave(stripe) => format!(in alloc; "GIVE {stripe}"),
        Made::Drew(ticket) => format!(in alloc; "TICKET {ticket}"),
        Made::Looked(count) => format!(in alloc; "LOOK {count}"),
        Made::Saw(count) => format!(in alloc; "SEE {count}"),
        Made::FoundAlive(true) => String::from_str(alloc, "ALIVE yes"),
        Made::FoundAlive(false) => String::from_str(alloc, "ALIVE no"),
    }
}

/// A step, and the end of its walk if it was the last.
fn step_text(alloc: Global, made: Made, end: &End, short: &str) -> Result<String, AllocError> {
    let made = made_text(alloc, made)?;
    match end {
        End::Goes => Ok(made),
        _ => format!(in alloc; "{made}, {short}"),
    }
}

/// The entries, each behind a space.
fn entries_text(alloc: Global, entries: &[MapEntry]) -> Result<String, AllocError> {
    let mut text = String::new(alloc);
    for entry in entries {
        let key = entry.key.as_str();
        let word = value_word(alloc, &Some(entry.value.clone()?))?;
        write!(text, " {key}={word}")?;
    }
    Ok(text)
}

/// A device call, and how it ended.
fn ended_text(alloc: Global, call: &DeviceCall, end: &str) -> Result<String, AllocError> {
    let call = device_call_text(alloc, call)?;
    format!(in alloc; "{call}, {end}")
}

/// What came of an event, of which a script prints `short`.
fn outcome_text(alloc: Global, outcome: &Outcome, short: &str) -> Result<String, AllocError> {
    match outcome {
        Outcome::Opened {
            calls,
            prefix,
            entries,
        } => {
            let entries = entries_text(alloc, entries.as_slice())?;
            format!(in alloc; "open {calls} calls {prefix}{entries}")
        }
        Outcome::NotOpened {
            calls,
            refusal: Refusal::Failed,
        } => format!(in alloc; "not opened {calls} calls"),
        Outcome::Stepped { made, end } => step_text(alloc, *made, end, short),
        Outcome::Logged { call, phase } => {
            let phase = format!(in alloc; "{phase:?}")?;
            ended_text(alloc, call, phase.as_str())
        }
        Outcome::Checkpointed { call, phase } => {
            let phase = format!(in alloc; "{phase:?}")?;
            ended_text(alloc, call, phase.as_str())
        }
        Outcome::CallFailed { call } => ended_text(alloc, call, "failed"),
        Outcome::Stopped { within: Some(call) } => ended_text(alloc, call, "stop"),
        _ => String::from_str(alloc, short),
    }
}

/// A line for each outcome: its number, and what came of the event.
pub(crate) fn outcomes_text(alloc: Global, outcomes: &[Outcome]) -> Result<String, AllocError> {
    let spans = vec![in alloc; SINGLE; outcomes.len()]?;
    let short = text_of(alloc, spans.as_slice(), outcomes)?;
    let mut text = String::new(alloc);
    for (outcome, line) in outcomes.iter().zip(short.as_str().split('\n')) {
        let (number, short) = line.split_once(' ').unwrap_or((line, ""));
        let full = outcome_text(alloc, outcome, short)?;
        writeln!(text, "{number} {full}")?;
    }
    Ok(text)
}
