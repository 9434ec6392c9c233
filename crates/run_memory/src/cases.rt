//! The line of a case: `CALL STRIPES | CHANGE | CHANGE > CALLED > CALLED`. The changes make the
//! state; each text behind a `>` is called on it, between the marks.
use call_text::stripes_named;
use java_hash::StripeCount;
use map_types::Refusal;
use std::alloc::{AllocError, Global};

/// A case.
#[derive(Drop)]
pub(crate) struct Case<'a> {
    /// What is called.
    pub word: &'a str,
    /// For how many stripes.
    pub stripes: StripeCount,
    /// The changes that make the state.
    pub state: Vec<&'a str>,
    /// What is called on it.
    pub called: Vec<&'a str>,
}

/// The text before the first sign, and those between the others.
fn texts_behind<'a>(
    alloc: Global,
    text: &'a str,
    sign: &str,
) -> Result<(&'a str, Vec<&'a str>), AllocError> {
    match text.split_once(sign) {
        Some((front, rest)) => Ok((front, rest.split(sign).collect(alloc)?)),
        None => Ok((text, Vec::new(alloc))),
    }
}

/// The case of a line.
pub(crate) fn case_of<'a>(alloc: Global, line: &'a str) -> Result<Case<'a>, Refusal> {
    let (front, called) = texts_behind(alloc, line, " > ")?;
    let (head, state) = texts_behind(alloc, front, " | ")?;
    let (word, count) = head.split_once(' ').unwrap_or((head, ""));
    match stripes_named(count) {
        Some(stripes) => Ok(Case {
            word,
            stripes,
            state,
            called,
        }),
        None => Err(Refusal::WrongPhase),
    }
}
