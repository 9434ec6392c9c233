//! The lines of an input, each with the words of a call.
ghost use Rattle.std.specs.Prelude.{◌≡◌, map, IfOk};
ghost use Rattle.call_text.specs.Whole.{parse_words};
ghost use Rattle.cmd_call.specs.Lines.{asked_by, asked_in, words_of};

use crate::client::request_of;
use call_text::{BadWord, CallError, parse_words};
use std::alloc::{AllocError, Global};
use thiserror::Error;
use wire_frames::Request;

/// The byte that ends a line.
pub(crate) const LINE_END: u8 = b'\n';

/// Why a line is no call.
#[derive(Clone, Copy, Debug, Error)]
pub enum BadLine {
    /// It isn't UTF-8.
    #[error("a line is UTF-8")]
    NotText,
    /// One of its words is bad.
    #[error("{0}")]
    Word(BadWord),
}

/// The words of a line, between spaces. Several spaces stand for one.
fn words_of<'a>(alloc: Global, line: &'a str) -> Result<Vec<&'a str>, AllocError>
    ensures { IfOk result (λ words. map (λ word. word.now) words.items ≡ words_of line.now) }
{
    line.split(' ')
        .filter(|word| !word.is_empty())
        .collect(alloc)
}

/// The request of these words.
fn asked_by(alloc: Global, words: &[&str]) -> Result<Result<Request, BadLine>, AllocError>
    ensures { IfOk result
        (λ asked. asked ≡ asked_by (parse_words (map (λ word. word.now) words.now))) }
{
    match parse_words(alloc, words) {
        Ok(called) => Ok(Ok(request_of(called))),
        Err(CallError::Bad(word)) => Ok(Err(BadLine::Word(word))),
        Err(CallError::NoMemory) => Err(AllocError),
    }
}

/// The request that a line asks for.
pub(crate) fn asked_in(alloc: Global, line: &[u8]) -> Result<Result<Request, BadLine>, AllocError>
    ensures { IfOk result (λ asked. asked ≡ asked_in line.now) }
{
    match str::from_utf8(line) {
        Ok(text) => {
            let words = words_of(alloc, text)?;
            asked_by(alloc, words.as_slice())
        }
        Err(_) => Ok(Err(BadLine::NotText)),
    }
}
