//! The words of values: `i` and a number, `t` and a text, `_` for absent.
ghost use Rattle.std.specs.Prelude.{◌≡◌, IfOk, string_bytes};
ghost use Rattle.call_text.specs.Values.{argument_of, int_of, lettered, number_of, text_of, value_of, value_word, Gives};

use crate::bad_word::{BadWord, CallError};
use map_types::{Refusal, Value};
use std::alloc::{AllocError, Global};

/// The number of a decimal, as Rust reads an `i64`.
fn number_of(word: &str) -> Option<i64>
    ensures { result ≡ number_of word.now }
{
    word.parse::<i64>().ok()
}

/// The value of a number.
fn int_of(digits: &str) -> Result<Value, CallError>
    ensures { Gives (λ value. value) result (int_of digits.now) }
{
    match number_of(digits) {
        Some(number) => Ok(Value::Int(number)),
        None => Err(CallError::Bad(BadWord::Value)),
    }
}

/// The value of a text.
fn text_of(alloc: Global, text: &str) -> Result<Value, CallError>
    ensures { Gives (λ value. value) result (text_of text.now) }
{
    match Value::text(alloc, text) {
        Ok(value) => Ok(value),
        Err(Refusal::ValueTooLong) => Err(CallError::Bad(BadWord::TextTooLong)),
        Err(_) => Err(CallError::NoMemory),
    }
}

/// The value behind its letter.
fn lettered(alloc: Global, word: &str) -> Result<Value, CallError>
    ensures { Gives (λ value. value) result (lettered word.now) }
{
    if let Some(digits) = word.strip_prefix('i') {
        return int_of(digits);
    }
    match word.strip_prefix('t') {
        Some(text) => text_of(alloc, text),
        None => Err(CallError::Bad(BadWord::Value)),
    }
}

/// The value of a word, or absent.
#[tactic(auto, unfolding(crate::specs::Values::argument_of))]
pub fn argument_of(alloc: Global, word: &str) -> Result<Option<Value>, CallError>
    ensures { Gives (λ found. found) result (argument_of word.now) }
{
    if word == "_" {
        return Ok(None);
    }
    Ok(Some(lettered(alloc, word)?))
}

/// The value of a word, which may not be absent.
#[tactic(auto, unfolding(crate::specs::Values::value_of))]
pub fn value_of(alloc: Global, word: &str) -> Result<Value, CallError>
    ensures { Gives (λ value. value) result (value_of word.now) }
{
    match argument_of(alloc, word)? {
        Some(value) => Ok(value),
        None => Err(CallError::Bad(BadWord::Absent)),
    }
}

/// The word of a value, or of absent.
pub fn value_word(alloc: Global, value: &Option<Value>) -> Result<String, AllocError>
    ensures { IfOk result (λ word. string_bytes word ≡ value_word value.now) }
{
    match value {
        None => String::from_str(alloc, "_"),
        Some(Value::Int(number)) => format!(in alloc; "i{number}"),
        Some(Value::Text(text)) => {
            let text = text.as_str();
            format!(in alloc; "t{text}")
        }
    }
}
