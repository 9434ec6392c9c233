//! What comes of scripts that aren't played.
use crate::events::event_text;
use map_types::Refusal;
use sim_rules::{End, Event, Made, Outcome};
use sim_script::{Script, ScriptError, parse, text_of};
use std::alloc::{AllocError, Global};

/// What is told, or the fault of the script.
pub(crate) fn or_fault(
    alloc: Global,
    told: Result<String, ScriptError>,
) -> Result<String, AllocError> {
    match told {
        Ok(text) => Ok(text),
        Err(fault) => format!(in alloc; "{fault:?}"),
    }
}

/// Adds a piece of what is told.
fn add(told: &mut String, piece: &str) -> Result<(), AllocError> {
    if !told.is_empty() {
        told.push_str("; ")?;
    }
    told.push_str(piece)
}

pub(crate) fn lines_told(alloc: Global, text: &str) -> Result<String, ScriptError> {
    let lines = parse(alloc, text)?;
    let mut told = String::new(alloc);
    for line in lines.as_slice() {
        let form = line.form;
        let event = event_text(alloc, &line.event)?;
        let piece = format!(in alloc; "{form:?}: {event}")?;
        add(&mut told, piece.as_str())?;
    }
    Ok(told)
}

pub(crate) fn script_of(alloc: Global, text: &str) -> Result<Script, ScriptError> {
    let lines = parse(alloc, text)?;
    Ok(Script::of(alloc, lines)?)
}

pub(crate) fn spans_told(alloc: Global, text: &str) -> Result<String, ScriptError> {
    let script = script_of(alloc, text)?;
    let mut told = String::new(alloc);
    for span in script.spans.as_slice() {
        let piece = span.events.to_string(alloc)?;
        add(&mut told, piece.as_str())?;
    }
    Ok(told)
}

fn add_events(told: &mut String, alloc: Global, events: &[Event]) -> Result<(), AllocError> {
    for event in events {
        let piece = event_text(alloc, event)?;
        add(told, piece.as_str())?;
    }
    Ok(())
}

pub(crate) fn events_told(alloc: Global, text: &str) -> Result<String, ScriptError> {
    let script = script_of(alloc, text)?;
    let mut told = String::new(alloc);
    add_events(&mut told, alloc, script.events.as_slice())?;
    Ok(told)
}

fn stepped(end: End) -> Outcome {
    let made = Made::Gave(0);
    Outcome::Stepped { made, end }
}

/// The outcome of a letter.
fn outcome_of(letter: char) -> Outcome {
    match letter {
        's' => Outcome::Started,
        'g' => stepped(End::Goes),
        'h' => stepped(End::Held(1)),
        'n' => stepped(End::NotYet),
        'l' => Outcome::Left,
        '-' => Outcome::Skipped,
        _ => Outcome::Refused(Refusal::WrongPhase),
    }
}

fn outcomes_of(alloc: Global, letters: &str) -> Result<Vec<Outcome>, ScriptError> {
    let mut outcomes = Vec::new(alloc);
    for letter in letters.chars() {
        outcomes.push(outcome_of(letter))?;
    }
    Ok(outcomes)
}

/// Whether steps are taken back by the outcomes, row by row; and the events that are left.
pub(crate) fn taken_back_told(alloc: Global, input: &str) -> Result<String, ScriptError> {
    let (text, rows) = input.split_once('|').unwrap_or((input, ""));
    let mut script = script_of(alloc, text)?;
    let mut told = String::new(alloc);
    for row in rows.split('|') {
        let outcomes = outcomes_of(alloc, row)?;
        let piece = if script.take_back_steps(outcomes.as_slice()) {
            "taken"
        } else {
            "kept"
        };
        add(&mut told, piece)?;
    }
    add_events(&mut told, alloc, script.events.as_slice())?;
    Ok(told)
}

/// What the outcomes print.
pub(crate) fn telling_told(alloc: Global, input: &str) -> Result<String, ScriptError> {
    let (text, letters) = input.split_once('|').unwrap_or((input, ""));
    let script = script_of(alloc, text)?;
    let outcomes = outcomes_of(alloc, letters)?;
    Ok(text_of(alloc, script.spans.as_slice(), outcomes.as_slice())?)
}
