//! The lines of events: those of scripts, each of which is its first event alone, and a few more.
use crate::fills::chosen_fill;
use disk_model::Fill;
use sim_rules::{Ending, Event};
use sim_script::{BadLine, Form, Line, LineError, ScriptError, parse};
use std::alloc::Global;

/// A line that scripts don't have: the next step of a sweep or a capture.
const KEEPER_STEP: &str = "keep";

/// The first event of a line of a script. A `go` makes several steps, and so isn't one event.
fn script_event(alloc: Global, line: &str) -> Result<Event, LineError> {
    let mut lines = match parse(alloc, line) {
        Ok(lines) => lines,
        Err(ScriptError::Bad { fault, .. }) => return Err(LineError::Bad(fault)),
        Err(ScriptError::NoMemory) => return Err(LineError::NoMemory),
    };
    let Some(Line { form, event }) = lines.pop() else {
        return Err(LineError::Bad(BadLine::Unknown));
    };
    if matches!(form, Form::Go { .. }) {
        return Err(LineError::Bad(BadLine::Unknown));
    }
    Ok(event)
}

/// The event, of another worker.
fn with_worker(event: Event, worker: usize) -> Event {
    match event {
        Event::Change { command, .. } => Event::Change { worker, command },
        Event::Read { read, .. } => Event::Read { worker, read },
        Event::Step { .. } => Event::Step { worker },
        Event::Release { .. } => Event::Release { worker },
        _ => event,
    }
}

/// The event of a line whose worker is above those of scripts. It is read as if of worker 0.
fn of_greater_worker(alloc: Global, line: &str) -> Result<Event, LineError> {
    let (verb, rest) = line.split_once(' ').unwrap_or((line, ""));
    let (number, text) = match rest.split_once(' ') {
        Some((number, call)) => (number, format!(in alloc; "{verb} 0 {call}")?),
        None => (rest, format!(in alloc; "{verb} 0")?),
    };
    match number.parse::<usize>() {
        Ok(worker) => Ok(with_worker(script_event(alloc, text.as_str())?, worker)),
        Err(_) => Err(LineError::Bad(BadLine::Number)),
    }
}

/// The event, with another fill.
fn with_fill(event: Event, fill: Fill) -> Event {
    match event {
        Event::Stop { within, .. } => Event::Stop { within, fill },
        Event::Device { side, .. } => {
            let ending = Ending::Fails(fill);
            Event::Device { side, ending }
        }
        _ => event,
    }
}

/// The event of a line whose last word is a fill of chosen bytes. It is read as if with `new`.
fn of_chosen_fill(alloc: Global, line: &str) -> Result<Event, LineError> {
    let words: Vec<&str> = line.split(' ').collect(alloc)?;
    let (text, word) = match words.as_slice() {
        [verb, word] => (format!(in alloc; "{verb} new")?, *word),
        [verb, second, word] => (format!(in alloc; "{verb} {second} new")?, *word),
        _ => return Err(LineError::Bad(BadLine::Fill)),
    };
    let fill = chosen_fill(alloc, word)?;
    Ok(with_fill(script_event(alloc, text.as_str())?, fill))
}

/// The event of a line.
fn event_of(alloc: Global, line: &str) -> Result<Event, LineError> {
    if line == KEEPER_STEP {
        return Ok(Event::KeeperStep);
    }
    match script_event(alloc, line) {
        Err(LineError::Bad(BadLine::Worker)) => of_greater_worker(alloc, line),
        Err(LineError::Bad(BadLine::Fill)) => of_chosen_fill(alloc, line),
        read => read,
    }
}

/// The events that are written so, one a line. Empty lines are passed over, and not counted.
pub(crate) fn events_in(alloc: Global, text: &str) -> Result<Vec<Event>, ScriptError> {
    let mut events = Vec::new(alloc);
    for text in text.split('\n') {
        if text.is_empty() {
            continue;
        }
        match event_of(alloc, text) {
            Ok(event) => events.push(event)?,
            Err(LineError::Bad(fault)) => {
                let line = events.len().saturating_add(1);
                return Err(ScriptError::Bad { line, fault });
            }
            Err(LineError::NoMemory) => return Err(ScriptError::NoMemory),
        }
    }
    Ok(events)
}
