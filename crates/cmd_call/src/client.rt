//! A call of a server: its request is sent, and its reply is printed.
ghost use Rattle.std.specs.Prelude.{◌≡◌, IfNone, IfOk, IfSome, map, string_bytes};
ghost use Rattle.call_text.specs.Whole.{parse_words};
ghost use Rattle.cmd_call.specs.Client.{AsksServer, CallsAt, CallsServer, Exchanges, IsReplyLine, PrintsReply, keyed_request, request_of};

use crate::places::{PlaceWords, server_named};
use crate::servers::{Server, Servers};
use call_text::{
    Asked, BadWord, CallError, Called, MISUSED, REFUSED, parse_words, print, refuse, reply_text,
    say,
};
use log::Log;
use map_types::{Refusal, Reply};
use std::alloc::{AllocError, Global};
use std::io::{Read, Write};
use wire_frames::{Bulk, ReplyError, Request, read_reply, request_frame, write_whole};

/// Why a request has no answer.
#[derive(Clone, Copy)]
enum Unanswered {
    /// The server can't be reached, or gave no whole reply.
    NoReply,
    /// No memory was found for the request or for the reply.
    NoMemory,
}

/// Sends the request, and reads the answer to it.
fn exchange<R: Read, W: Write>(
    alloc: Global,
    reader: &mut R,
    writer: &mut W,
    request: &Request,
) -> Result<Result<Reply, Refusal>, Unanswered>
    ensures { Exchanges (R.remaining reader.old) (R.remaining reader.new) (W.contents writer.old)
        (W.contents writer.new) request.now result }
{
    let Ok(frame) = request_frame(alloc, request) else {
        return Err(Unanswered::NoMemory);
    };
    if write_whole(writer, &frame).is_err() {
        return Err(Unanswered::NoReply);
    }
    match read_reply(alloc, reader) {
        Ok(answer) => Ok(answer),
        Err(ReplyError::NoMemory) => Err(Unanswered::NoMemory),
        Err(_) => Err(Unanswered::NoReply),
    }
}

/// A reply as a line of text.
fn line_of(alloc: Global, reply: &Reply) -> Result<String, AllocError>
    ensures { IfOk result (λ line. IsReplyLine reply.now (string_bytes line)) }
{
    let mut line = reply_text(alloc, reply)?;
    line.push_str("\n")?;
    Ok(line)
}

/// Prints a reply.
fn show<L: Log, W: Write, E: Write>(
    rt: &L,
    alloc: Global,
    reply: &Reply,
    output: &mut W,
    error: &mut E,
) -> u8
    ensures { PrintsReply reply.now (W.contents output.old) (W.contents output.new) result }
{
    match line_of(alloc, reply) {
        Ok(line) => print(rt, line.as_str(), output, error),
        Err(_) => refuse(alloc, Refusal::NoMemory, error),
    }
}

/// Says on `error` why there is no answer.
fn give_up<E: Write>(alloc: Global, failure: Unanswered, error: &mut E) -> u8
    ensures { result ≡ 1 }
{
    match failure {
        Unanswered::NoMemory => refuse(alloc, Refusal::NoMemory, error),
        Unanswered::NoReply => {
            say(error, "no reply\n");
            REFUSED
        }
    }
}

/// Sends the request to a server, and prints its reply. If the output fails, a record has the cause.
pub fn ask<L: Log, R: Read, W: Write, O: Write, E: Write>(
    rt: &L,
    alloc: Global,
    reader: &mut R,
    writer: &mut W,
    request: &Request,
    output: &mut O,
    error: &mut E,
) -> u8
    ensures { AsksServer (R.remaining reader.old) (R.remaining reader.new) (W.contents writer.old)
        (W.contents writer.new) (O.contents output.old) (O.contents output.new) request.now result }
{
    match exchange(alloc, reader, writer, request) {
        Ok(Ok(reply)) => show(rt, alloc, &reply, output, error),
        Ok(Err(refusal)) => refuse(alloc, refusal, error),
        Err(failure) => give_up(alloc, failure, error),
    }
}

/// The request of a call of a key.
fn keyed_request(asked: Asked) -> Request
    ensures { result ≡ keyed_request asked }
{
    match asked {
        Asked::Change(command) => Request::Change(command),
        Asked::Read(read) => Request::Read(read),
    }
}

/// The request that the words ask for.
pub(crate) fn request_of(called: Called) -> Request
    ensures { result ≡ request_of called }
{
    match called {
        Called::Keyed(asked) => keyed_request(asked),
        Called::Count => Request::Bulk(Bulk::Count),
        Called::Reduce(func, threshold) => Request::Bulk(Bulk::Reduce(func, threshold)),
        Called::Search(threshold, value) => Request::Bulk(Bulk::Search(threshold, value)),
    }
}

/// Says on `error` what is wrong with a word of a call.
fn misuse<E: Write>(alloc: Global, word: BadWord, error: &mut E) -> u8
    ensures { result ≡ 2 }
{
    match format!(in alloc; "{word}\n") {
        Ok(text) => say(error, text.as_str()),
        Err(_) => say(error, "no such call\n"),
    }
    MISUSED
}

/// Sends the request to the server, and prints its reply.
fn ask_at<L: Log, M: Servers, W: Write, E: Write>(
    rt: &L,
    machine: &M,
    alloc: Global,
    server: Server<'_>,
    request: &Request,
    output: &mut W,
    error: &mut E,
) -> u8
    ensures { CallsAt M.Reader.remaining M.Writer.contents M.is_connected M.is_unreachable
        server.entry request.now (W.contents output.old) (W.contents output.new) result }
{
    match machine.connect_to(server) {
        Ok((mut reader, mut writer)) => {
            ask(rt, alloc, &mut reader, &mut writer, request, output, error)
        }
        Err(_) => give_up(alloc, Unanswered::NoReply, error),
    }
}

/// Sends what the words ask for to the server that `at` names, and prints its reply. If the time that
/// `at` names passes before the whole reply has come, there is none.
pub fn call<L: Log, M: Servers, W: Write, E: Write>(
    rt: &L,
    machine: &M,
    alloc: Global,
    at: &PlaceWords<'_>,
    words: &[&str],
    output: &mut W,
    error: &mut E,
) -> u8
    ensures { CallsServer M.Reader.remaining M.Writer.contents M.is_connected M.is_unreachable
        at.now (parse_words (map (λ word. word.now) words.now)) (W.contents output.old)
        (W.contents output.new) result }
{
    let request = match parse_words(alloc, words) {
        Ok(called) => Some(request_of(called)),
        Err(CallError::Bad(word)) => return misuse(alloc, word, error),
        Err(CallError::NoMemory) => None,
    };
    let server = match server_named(at) {
        Ok(server) => server,
        Err(text) => {
            drop(request);
            say(error, text);
            return MISUSED;
        }
    };
    let Some(request) = request else {
        return refuse(alloc, Refusal::NoMemory, error);
    };
    let status = ask_at(rt, machine, alloc, server, &request, output, error);
    drop(request);
    status
}
