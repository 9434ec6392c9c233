//! How the program ends: its exit status, and what it says on standard error.
ghost use Rattle.std.specs.Prelude.{◌≡◌};
ghost use Rattle.call_text.specs.Printing.{Prints, PrintsAtMost};

use crate::answers::refusal_text;
use log::{Log, error};
use map_types::Refusal;
use std::alloc::Global;
use std::io;
use std::io::{ErrorKind, Write};
use wire_frames::write_whole;

/// The exit status if all went well.
pub const DONE: u8 = 0;

/// The exit status for a refusal, and if a file or a stream fails.
pub const REFUSED: u8 = 1;

/// The exit status for a command line that isn't known.
pub const MISUSED: u8 = 2;

/// Writes a text, if it can be written.
pub fn say<W: Write>(writer: &mut W, text: &str)
    ensures { PrintsAtMost text.now (W.contents writer.old) (W.contents writer.new) }
{
    let _ = write_whole(writer, text.as_bytes());
}

/// Says on `error` what was refused.
pub fn refuse<E: Write>(alloc: Global, refusal: Refusal, error: &mut E) -> u8
    ensures { result ≡ 1 }
{
    match refusal_text(alloc, refusal) {
        Ok(text) => say(error, text.as_str()),
        Err(_) => say(error, "refused 7 NoMemory"),
    }
    say(error, "\n");
    REFUSED
}

/// Says on `error` that a file or a stream failed.
pub fn break_off<E: Write>(error: &mut E) -> u8
    ensures { result ≡ 1 }
{
    say(error, "unreadable\n");
    REFUSED
}

/// Says on `error` that a stream failed. A record before it has the cause.
pub fn stream_failed<L: Log, E: Write>(rt: &L, stream: &str, cause: &io::Error, error: &mut E) -> u8
    ensures { result ≡ 1 }
{
    error!(rt; "{stream} failed: {cause}");
    break_off(error)
}

/// Says why a directory or a file can't be opened: no memory was found, another process has its lock, or it
/// can't be read.
pub fn cannot_open<E: Write>(alloc: Global, failure: &io::Error, error: &mut E) -> u8
    ensures { result ≡ 1 }
{
    match failure.kind() {
        ErrorKind::OutOfMemory => refuse(alloc, Refusal::NoMemory, error),
        ErrorKind::WouldBlock => {
            say(error, "in use by another process\n");
            REFUSED
        }
        _ => break_off(error),
    }
}

/// Prints the text. If the output fails, a record has the cause.
pub fn print<L: Log, W: Write, E: Write>(rt: &L, text: &str, output: &mut W, error: &mut E) -> u8
    ensures { Prints text.now (W.contents output.old) (W.contents output.new) result }
{
    match write_whole(output, text.as_bytes()) {
        Ok(()) => DONE,
        Err(cause) => stream_failed(rt, "standard output", &cause, error),
    }
}
