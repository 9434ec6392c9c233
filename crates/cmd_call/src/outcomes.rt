//! What came of a line, and what is printed of it.
ghost use Rattle.std.specs.Prelude.{◌≡◌, ◌++◌, OnOk, codes, string_bytes};
ghost use Rattle.cmd_call.specs.Lines.{first_of, status_of};
ghost use Rattle.cmd_call.specs.Rounds.{TellsNext};

use crate::lines::BadLine;
use call_text::{DONE, MISUSED, REFUSED, reply_text};
use map_types::{Refusal, Reply};
use std::alloc::{AllocError, Global};

/// What came of a line.
#[derive(Drop)]
pub enum Outcome {
    /// The server's reply, or its refusal.
    Answered(Result<Reply, Refusal>),
    /// It is no call, and nothing was asked.
    Misused(BadLine),
    /// The server can't be reached, or gave no whole reply.
    NoReply,
}

/// The exit status that goes with an outcome.
pub(crate) fn status_of(outcome: &Outcome) -> u8
    ensures { result ≡ status_of outcome.now }
{
    match outcome {
        Outcome::Answered(Ok(_)) => DONE,
        Outcome::Answered(Err(_)) | Outcome::NoReply => REFUSED,
        Outcome::Misused(_) => MISUSED,
    }
}

/// The first status that isn't that of success.
pub(crate) fn first_of(first: u8, next: u8) -> u8
    ensures { result ≡ first_of first next }
{
    if first == DONE { next } else { first }
}

/// Puts two texts and the end of a line at the end.
fn put_texts(text: &mut String, first: &str, second: &str) -> Result<(), AllocError>
    ensures { OnOk result (string_bytes text.new
        ≡ string_bytes text.old ++ (first.now ++ second.now ++ codes "\n")) }
{
    text.push_str(first)?;
    text.push_str(second)?;
    text.push_str("\n")
}

/// Puts the line of an outcome at the end.
pub(crate) fn put_line(
    alloc: Global,
    outcome: &Outcome,
    text: &mut String,
) -> Result<(), AllocError>
    ensures { OnOk result (TellsNext outcome.now (string_bytes text.old) (string_bytes text.new)) }
{
    match outcome {
        Outcome::Answered(Ok(reply)) => {
            let reply = reply_text(alloc, reply)?;
            put_texts(text, "", reply.as_str())
        }
        Outcome::Answered(Err(refusal)) => {
            let name = format!(in alloc; "{refusal}")?;
            put_texts(text, "refused ", name.as_str())
        }
        Outcome::Misused(fault) => {
            let cause = format!(in alloc; "{fault}")?;
            put_texts(text, "misuse ", cause.as_str())
        }
        Outcome::NoReply => put_texts(text, "", "no reply"),
    }
}
