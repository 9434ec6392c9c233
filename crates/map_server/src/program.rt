//! All of the program but `main`: what the words ask for is done.
ghost use Rattle.std.specs.Prelude.{◌≡◌, map, string_bytes};
ghost use Rattle.clap.specs.Values.{kind_of};
ghost use Rattle.map_server.specs.CommandLine.{Advises};
ghost use Rattle.map_server.specs.Descriptors.{AreTaken};
ghost use Rattle.map_server.specs.Program.{Ran, Serves};
ghost use Rattle.socket_file.specs.Binding.{Binds};

use crate::descriptors::{Descriptors, StandardStreams};
use crate::host::Host;
use crate::order::{Order, order_of};
use crate::simulation::sim;
use call_text::{DONE, MISUSED, break_off, refuse, say};
use clap::Error;
use clap::error::ErrorKind;
use cmd_call::{Servers, make_calls};
use cmd_directory::{Directories, check, init};
use cmd_mem::Memory;
use cmd_serve::serve;
use connections::{ConnectionError, serve_connection};
use disk_model::MemDisk;
use map_types::Refusal;
use socket_file::SocketFiles;
use std::alloc::Global;
use std::io::{Read, Write};
use std::os::unix::net::UnixListener;
use std::sync::Wait;

/// Says on `error` why a connection broke off.
fn report<E: Write>(alloc: Global, failure: &ConnectionError, error: &mut E) -> u8
    ensures { result ≡ 1 }
{
    match failure {
        ConnectionError::NoMemory => refuse(alloc, Refusal::NoMemory, error),
        ConnectionError::Reader(_) | ConnectionError::Writer(_) => break_off(error),
    }
}

/// Says how to call the program: on `error` with status 2, or with status 0 on `output` if the
/// words ask for help.
fn advise<W: Write, E: Write>(alloc: Global, advice: &Error, output: &mut W, error: &mut E) -> u8
    ensures { Advises (kind_of advice.now) (W.contents output.old) (W.contents output.new) result }
{
    if advice.kind() == ErrorKind::OutOfMemory {
        return refuse(alloc, Refusal::NoMemory, error);
    }
    let Ok(text) = format!(in alloc; "{advice}") else {
        return refuse(alloc, Refusal::NoMemory, error);
    };
    if advice.use_stderr() {
        say(error, text.as_str());
        return MISUSED;
    }
    say(output, text.as_str());
    DONE
}

/// Serves an empty map in memory on the streams.
fn mem<T: Wait, R: Read, W: Write, E: Write>(
    rt: &T,
    alloc: Global,
    input: &mut R,
    output: &mut W,
    error: &mut E,
) -> u8
    ensures { Serves (R.remaining input.old) (R.remaining input.new) (W.contents output.old)
        (W.contents output.new) result }
{
    let mut memory = match Memory::new(rt, alloc, MemDisk::new(alloc)) {
        Ok(memory) => memory,
        Err((_disk, refusal)) => return refuse(alloc, refusal, error),
    };
    match serve_connection(alloc, input, output, &mut memory) {
        Ok(()) => DONE,
        Err(failure) => report(alloc, &failure, error),
    }
}

/// The program over its words, the program's name first, and its streams: the exit status. No file that
/// it opens gets the number of a standard stream.
///
/// `mem` answers the request frames of `input` on `output`. The status is 0 if all went well. It is
/// 1 with `unreadable` on `error` if the input or the output fails. It is 1 with `refused` and the
/// refusal on `error` if the map can't be begun or no memory is found to read. It is 2 with a text
/// on how to call the program on `error` for words that aren't known.
///
/// `serve` serves the map of a directory at a port of this machine, at a Unix socket, or at both,
/// and ends only by being ended. Once it listens it prints `listening` and the port, or the path,
/// on `output`. The status is 2 with a text on `error` if one of its words isn't allowed, and 1 if
/// it can't open the directory, listen, or start its threads.
///
/// `call` makes one call of a server, and prints its reply on `output`. With `-` in place of a
/// method it makes one for each line of `input`, and prints a line for each. A server that doesn't
/// answer in time gives no reply.
///
/// `sim` plays the script of a file, and prints on `output` a line for each of its lines. The
/// status is 1 with `unreadable` on `error` if the file can't be read. It is 2 with what is wrong
/// on `error` if the file isn't UTF-8 or has a bad line; then nothing is played.
pub fn dchm<
    T: Host,
    M: Descriptors + Directories + Servers + SocketFiles<Listener = UnixListener>,
    R: Read,
    W: Write,
    E: Write,
>(
    rt: &T,
    machine: &M,
    _streams: &StandardStreams<M>,
    alloc: Global,
    words: &[String],
    input: &mut R,
    output: &mut W,
    error: &mut E,
) -> u8
    requires taken { AreTaken M.is_taken _streams.now.held.items }
    ensures { Ran M.Opened.states M.Opened.failures M.Opened.honest M.is_opened M.is_created
        M.is_refused M.Reader.fails M.Reader.remaining M.Writer.contents M.is_connected
        M.is_unreachable (Binds M.was_free M.is_private M.is_bound M.has_mode M.is_renamed)
        (map string_bytes words.now) (R.remaining input.old) (R.remaining input.new)
        (W.contents output.old) (W.contents output.new) result }
{
    match order_of(alloc, words) {
        Ok(Order::Mem) => mem(rt, alloc, input, output, error),
        Ok(Order::Init { directory, stripes }) => {
            init(rt, machine, alloc, directory, stripes, output, error)
        }
        Ok(Order::Check { directory }) => check(rt, machine, alloc, directory, output, error),
        Ok(Order::Serve(words)) => serve(rt, machine, alloc, &words, output, error),
        Ok(Order::Call { at, words }) => {
            make_calls(
                rt,
                machine,
                alloc,
                &at,
                words.as_slice(),
                input,
                output,
                error,
            )
        }
        Ok(Order::Sim { file }) => sim(rt, alloc, file, output, error),
        Err(advice) => advise(alloc, &advice, output, error),
    }
}
