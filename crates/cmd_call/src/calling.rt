//! The calls that the words of `dchm call` ask for: one, or one for each line of the input.
ghost use Rattle.std.specs.Prelude.{◌≡◌, map};
ghost use Rattle.cmd_call.specs.Calling.{CallsLines, MakesCalls, asks_lines};

use crate::client::call;
use crate::input::answer_input;
use crate::places::{PlaceWords, server_named};
use crate::rounds::Stop;
use crate::servers::Servers;
use call_text::{MISUSED, refuse, say, stream_failed};
use log::Log;
use map_types::Refusal;
use std::alloc::Global;
use std::io::{Read, Write};

/// Says on `error` why lines weren't read on. If a stream failed, a record has the cause.
fn stop<L: Log, E: Write>(rt: &L, alloc: Global, why: Stop, error: &mut E) -> u8
    ensures { result ≡ 1 }
{
    match why {
        Stop::NoMemory => refuse(alloc, Refusal::NoMemory, error),
        Stop::Input(cause) => stream_failed(rt, "standard input", &cause, error),
        Stop::Output(cause) => stream_failed(rt, "standard output", &cause, error),
    }
}

/// Makes a call of the server that `at` names for each line of the input, and prints a
/// line for each on `output`, in the same order: the reply; `refused` and the refusal; `misuse` and
/// what is wrong with the line, which isn't sent; or `no reply`. Up to 64 lines in hand are asked
/// together, over one connection. Once that is lost, each further call has no reply. It is given up if
/// it can't be had in the time that `at` names, or if that passes while requests are sent, or while
/// one reply is waited for.
///
/// The status is that of the first line that isn't a reply: 2 for misuse, and else 1. It is 0 if all
/// are replies. If memory, the input or the output fails, it is 1, and `error` says which; a record
/// has the cause.
pub fn call_lines<L: Log, M: Servers, I: Read, W: Write, E: Write>(
    rt: &L,
    machine: &M,
    alloc: Global,
    at: &PlaceWords<'_>,
    input: &mut I,
    output: &mut W,
    error: &mut E,
) -> u8
    ensures { CallsLines M.Reader.fails M.Reader.remaining M.Writer.contents M.is_connected
        M.is_unreachable at.now (I.remaining input.old) (I.remaining input.new)
        (W.contents output.old) (W.contents output.new) result }
{
    let server = match server_named(at) {
        Ok(server) => server,
        Err(text) => {
            say(error, text);
            return MISUSED;
        }
    };
    let mut ends = machine.connect_to(server).ok();
    match answer_input(alloc, &mut ends, input, output) {
        Ok(status) => status,
        Err(why) => stop(rt, alloc, why, error),
    }
}

/// Whether the words ask for the lines of the input.
fn asks_lines(words: &[&str]) -> bool
    ensures { result ≡ asks_lines (map (λ word. word.now) words.now) }
{
    match words {
        [word] => *word == "-",
        _ => false,
    }
}

/// Makes the call of these words; with `-` alone, those of the lines of the input.
pub fn make_calls<L: Log, M: Servers, I: Read, W: Write, E: Write>(
    rt: &L,
    machine: &M,
    alloc: Global,
    at: &PlaceWords<'_>,
    words: &[&str],
    input: &mut I,
    output: &mut W,
    error: &mut E,
) -> u8
    ensures { MakesCalls M.Reader.fails M.Reader.remaining M.Writer.contents M.is_connected
        M.is_unreachable at.now (map (λ word. word.now) words.now)
        (I.remaining input.old) (I.remaining input.new)
        (W.contents output.old) (W.contents output.new) result }
{
    if asks_lines(words) {
        call_lines(rt, machine, alloc, at, input, output, error)
    } else {
        call(rt, machine, alloc, at, words, output, error)
    }
}
