//! The texts of replies and refusals.
ghost use Rattle.std.specs.Prelude.{IfOk, string_bytes};
ghost use Rattle.call_text.specs.Answers.{IsReplyText};

use crate::values::value_word;
use map_types::{Refusal, Reply};
use std::alloc::{AllocError, Global};

/// The text of a reply: `was` or `now` and a value, `did` and `yes` or `no`, `fault` and its number
/// and name.
pub fn reply_text(alloc: Global, reply: &Reply) -> Result<String, AllocError>
    ensures { IfOk result (λ text. IsReplyText reply.now (string_bytes text)) }
{
    match reply {
        Reply::Was(value) => {
            let word = value_word(alloc, value)?;
            format!(in alloc; "was {word}")
        }
        Reply::Now(value) => {
            let word = value_word(alloc, value)?;
            format!(in alloc; "now {word}")
        }
        Reply::Did(true) => String::from_str(alloc, "did yes"),
        Reply::Did(false) => String::from_str(alloc, "did no"),
        Reply::Fault(fault) => format!(in alloc; "fault {fault}"),
    }
}

/// The text of a refusal: `refused`, its number and name, and the stripe, or the file and the
/// offset, that it names.
pub fn refusal_text(alloc: Global, refusal: Refusal) -> Result<String, AllocError> {
    format!(in alloc; "refused {refusal}")
}
