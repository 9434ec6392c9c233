//! What comes of the words of calls.
use call_text::{CallError, argument_of, parse_call, value_of, value_word};
use std::alloc::{AllocError, Global};

pub(crate) fn value_told(alloc: Global, word: &str) -> Result<String, AllocError> {
    let value = value_of(alloc, word);
    format!(in alloc; "{value:?}")
}

pub(crate) fn argument_told(alloc: Global, word: &str) -> Result<String, AllocError> {
    let argument = argument_of(alloc, word);
    format!(in alloc; "{argument:?}")
}

pub(crate) fn word_told(alloc: Global, word: &str) -> Result<String, AllocError> {
    match argument_of(alloc, word) {
        Ok(value) => value_word(alloc, &value),
        Err(error) => format!(in alloc; "{error:?}"),
    }
}

/// Whether something was read, or the error.
fn reading_told<T: Drop>(alloc: Global, read: Result<T, CallError>) -> Result<String, AllocError> {
    match read {
        Ok(_) => String::from_str(alloc, "read"),
        Err(error) => format!(in alloc; "{error:?}"),
    }
}

fn length_of(text: &str) -> usize {
    usize::from(text.parse::<u16>().unwrap_or(0))
}

pub(crate) fn long_text_told(alloc: Global, length: &str) -> Result<String, AllocError> {
    let text = "x".repeat(alloc, length_of(length))?;
    let word = format!(in alloc; "t{text}")?;
    reading_told(alloc, value_of(alloc, word.as_str()))
}

pub(crate) fn asked_told(alloc: Global, words: &[&str]) -> Result<String, AllocError> {
    let asked = parse_call(alloc, words);
    format!(in alloc; "{asked:?}")
}

pub(crate) fn call_told(alloc: Global, line: &str, separator: char) -> Result<String, AllocError> {
    let words: Vec<&str> = line.split(separator).collect(alloc)?;
    asked_told(alloc, words.as_slice())
}

pub(crate) fn long_key_told(alloc: Global, length: &str) -> Result<String, AllocError> {
    let key = "k".repeat(alloc, length_of(length))?;
    reading_told(alloc, parse_call(alloc, &["get", key.as_str()]))
}
