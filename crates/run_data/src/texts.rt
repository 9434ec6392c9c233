//! The cases: in each line a kind, an input in quotes, ` => `, and what is to come of it.
//! A line feed is written `\n` there, a carriage return `\r`.
use crate::{plays, scripts, words};
use std::alloc::{AllocError, Global};

/// What an input is.
#[derive(Clone, Copy)]
enum Kind {
    /// The word of a value.
    Value,
    /// The word of a value, or of absent.
    Argument,
    /// The word of a value, which is printed again.
    Word,
    /// How many bytes a text has.
    LongText,
    /// A call, its words between single spaces.
    Call,
    /// A call, its words between slashes.
    Words,
    /// A call of no words at all.
    NoWords,
    /// How many bytes the key of a call has.
    LongKey,
    /// A script, of which the lines are told.
    Script,
    /// A script, of which it is told how many events each line has.
    Spans,
    /// A script, of which the events are told.
    Events,
    /// A script, and outcomes by which steps are taken back.
    TakenBack,
    /// A script, and outcomes of which it is told what they print.
    Telling,
    /// A script that is played.
    Play,
    /// A script that is played behind a batch whose gate isn't opened.
    Gate,
    /// Bytes that a stop leaves, and such a script.
    Chosen,
}

impl Kind {
    fn named(name: &str) -> Option<Kind> {
        match name {
            "value" => Some(Kind::Value),
            "argument" => Some(Kind::Argument),
            "word" => Some(Kind::Word),
            "long-text" => Some(Kind::LongText),
            "call" => Some(Kind::Call),
            "words" => Some(Kind::Words),
            "no-words" => Some(Kind::NoWords),
            "long-key" => Some(Kind::LongKey),
            "script" => Some(Kind::Script),
            "spans" => Some(Kind::Spans),
            "events" => Some(Kind::Events),
            "taken-back" => Some(Kind::TakenBack),
            "telling" => Some(Kind::Telling),
            "play" => Some(Kind::Play),
            "gate" => Some(Kind::Gate),
            "chosen" => Some(Kind::Chosen),
            _ => None,
        }
    }
}

fn told(alloc: Global, kind: Kind, input: &str) -> Result<String, AllocError> {
    match kind {
        Kind::Value => words::value_told(alloc, input),
        Kind::Argument => words::argument_told(alloc, input),
        Kind::Word => words::word_told(alloc, input),
        Kind::LongText => words::long_text_told(alloc, input),
        Kind::Call => words::call_told(alloc, input, ' '),
        Kind::Words => words::call_told(alloc, input, '/'),
        Kind::NoWords => words::asked_told(alloc, &[]),
        Kind::LongKey => words::long_key_told(alloc, input),
        Kind::Script => scripts::or_fault(alloc, scripts::lines_told(alloc, input)),
        Kind::Spans => scripts::or_fault(alloc, scripts::spans_told(alloc, input)),
        Kind::Events => scripts::or_fault(alloc, scripts::events_told(alloc, input)),
        Kind::TakenBack => scripts::or_fault(alloc, scripts::taken_back_told(alloc, input)),
        Kind::Telling => scripts::or_fault(alloc, scripts::telling_told(alloc, input)),
        Kind::Play => scripts::or_fault(alloc, plays::play_told(alloc, input)),
        Kind::Gate => scripts::or_fault(alloc, plays::gate_told(alloc, input)),
        Kind::Chosen => scripts::or_fault(alloc, plays::chosen_told(alloc, input)),
    }
}

/// The text that is written so in a case.
fn read(alloc: Global, text: &str) -> Result<String, AllocError> {
    let text = text.replace(alloc, "\\n", "\n")?;
    text.as_str().replace(alloc, "\\r", "\r")
}

/// How the text is written in a case.
fn written(alloc: Global, text: &str) -> Result<String, AllocError> {
    let text = text.replace(alloc, "\n", "\\n")?;
    text.as_str().replace(alloc, "\r", "\\r")
}

/// What comes of the input that is written so.
fn played(alloc: Global, kind: Kind, input: &str) -> Result<String, AllocError> {
    let input = read(alloc, input)?;
    let told = told(alloc, kind, input.as_str())?;
    written(alloc, told.as_str())
}

#[derive(Clone, Copy)]
struct Case<'a> {
    kind: Kind,
    input: &'a str,
    wanted: &'a str,
}

fn case_of(line: &str) -> Option<Case<'_>> {
    let (name, rest) = line.split_once(" \"")?;
    let kind = Kind::named(name)?;
    let (input, wanted) = rest.split_once("\" => ")?;
    Some(Case {
        kind,
        input,
        wanted,
    })
}

/// Nothing if the case came out as it should; else the case, and what came.
fn complaint(alloc: Global, line: &str) -> Result<String, AllocError> {
    let Some(case) = case_of(line) else {
        return format!(in alloc; "{line} is no case\n");
    };
    let found = played(alloc, case.kind, case.input)?;
    if found.as_str() == case.wanted {
        Ok(String::new(alloc))
    } else {
        format!(in alloc; "{line} came out as {found}\n")
    }
}

/// The cases that didn't come out as they should, and how many did. Empty lines are passed over.
pub(crate) fn report(alloc: Global, text: &str) -> Result<String, AllocError> {
    let mut complaints = String::new(alloc);
    let mut count = 0u64;
    for line in text.lines() {
        if line.is_empty() {
            continue;
        }
        let complaint = complaint(alloc, line)?;
        if complaint.is_empty() {
            count = count.saturating_add(1);
        }
        complaints.push_str(complaint.as_str())?;
    }
    format!(in alloc; "{complaints}{count} cases came out as they should\n")
}
