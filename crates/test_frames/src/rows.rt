//! The order in which the calls of a row are begun and finished, and what is written together.
use crate::checks::assert_same;
use crate::steps::{PUT, frames};
use connections::{Calls, serve_connection};
use map_types::{Refusal, Reply, Value};
use std::alloc::Global;
use std::io;
use std::io::Write;
use wire_frames::Request;

/// Calls that write down what is done with them, and answer each with the same value.
#[derive(Drop)]
struct Noted<'a> {
    value: &'a Value,
    done: String,
}

impl Calls for Noted<'_> {
    /// whether the request is of the whole map
    type Held = bool;

    ghost began = { λ _ _ _ _. Unit {0} };

    ghost finished = { λ _ _ _ _. Unit {0} };

    ghost gave_up = { λ _ _ _. Unit {0} };

    ghost owns = { λ _ _. Unit {0} };

    fn begin(&mut self, request: Request) -> Result<bool, Refusal> {
        let is_whole = matches!(request, Request::Bulk(_));
        drop(request);
        self.done.push_str(if is_whole {
            "begins whole, "
        } else {
            "begins, "
        })?;
        Ok(is_whole)
    }

    fn may_finish(&self, _is_whole: &bool) -> bool {
        true
    }

    fn finish(&mut self, is_whole: bool) -> Result<Reply, Refusal> {
        self.done.push_str(if is_whole {
            "finishes whole, "
        } else {
            "finishes, "
        })?;
        Ok(Reply::Now(Some(self.value.clone()?)))
    }

    fn give_up(&mut self, _is_whole: bool) {
        let _noted = self.done.push_str("gives up, ");
    }
}

/// A writer that takes all, and writes down how many bytes each write has.
#[derive(Drop)]
struct Lengths {
    written: Vec<usize>,
}

impl Write for Lengths {
    fn write(&mut self, buf: &[u8]) -> io::Result<usize> {
        match self.written.push(buf.len()) {
            Ok(()) => Ok(buf.len()),
            Err(_) => Err(io::Error::from(io::ErrorKind::OutOfMemory)),
        }
    }

    fn flush(&mut self) -> io::Result<()> {
        Ok(())
    }
}

/// Whether a connection of these bytes is served to their end.
fn serve(alloc: Global, calls: &mut Noted<'_>, writer: &mut Lengths, bytes: &[u8]) -> bool {
    let mut reader = bytes;
    serve_connection(alloc, &mut reader, writer, calls).is_ok()
}

/// Three puts of `a`.
const PUTS: &[u8] =
    b"\x00\x0D\x10\x00\x01a\x01\x00\x00\x00\x00\x00\x00\x00\x05\x00\x0D\x10\x00\x01a\x01\x00\x00\x00\x00\x00\x00\x00\x05\x00\x0D\x10\x00\x01a\x01\x00\x00\x00\x00\x00\x00\x00\x05";

/// Two puts, two counts, and a put.
const PUTS_AND_COUNTS: &[u8] =
    b"\x00\x0D\x10\x00\x01a\x01\x00\x00\x00\x00\x00\x00\x00\x05\x00\x0D\x10\x00\x01a\x01\x00\x00\x00\x00\x00\x00\x00\x05\x00\x01\x20\x00\x01\x20\x00\x0D\x10\x00\x01a\x01\x00\x00\x00\x00\x00\x00\x00\x05";

/// Requests, what is done with their calls, and how long the writes are. All calls of a row are
/// begun before the first is finished. The replies before a request of the whole map are written
/// before it is begun, and its own before the next is.
static ROWS: [(&[u8], &str, &[usize]); 2] = [
    (
        PUTS,
        "begins, begins, begins, finishes, finishes, finishes, ",
        &[36],
    ),
    (
        PUTS_AND_COUNTS,
        "begins, begins, finishes, finishes, begins whole, finishes whole, begins whole, finishes whole, begins, finishes, ",
        &[24, 12, 12, 12],
    ),
];

/// Whether this is done with the calls of these bytes, and the writes are so long.
fn is_served(alloc: Global, bytes: &[u8], done: &str, written: &[usize]) -> bool {
    let value = Value::Int(5);
    let mut calls = Noted {
        value: &value,
        done: String::new(alloc),
    };
    let mut writer = Lengths {
        written: Vec::new(alloc),
    };
    serve(alloc, &mut calls, &mut writer, bytes)
        && calls.done.as_str() == done
        && writer.written.as_slice() == written
}

/// What was to be done with the first of these calls that are served otherwise, if any.
fn first_wrong(alloc: Global) -> Option<&'static str> {
    for (bytes, done, written) in &ROWS {
        if !is_served(alloc, bytes, done, written) {
            return Some(*done);
        }
    }
    None
}

#[test]
fn calls_in_their_order(rt: HostRuntime) {
    assert_same(&rt, &first_wrong(rt.alloc()), &None);
}

/// How long the writes are if 64 puts are answered with a text of 4,096 bytes.
fn written_with_text(alloc: Global) -> Result<Vec<usize>, Refusal> {
    let text = "v".repeat(alloc, 4096)?;
    let value = Value::text(alloc, text.as_str())?;
    let mut calls = Noted {
        value: &value,
        done: String::new(alloc),
    };
    let mut writer = Lengths {
        written: Vec::new(alloc),
    };
    let puts = frames(alloc, PUT, 0, 64)?;
    if !serve(alloc, &mut calls, &mut writer, &puts) {
        return Err(Refusal::Failed);
    }
    Ok(writer.written)
}

/// A reply with a text of 4,096 bytes has 4,102, of which 15 leave no room for another in 65,536.
#[test]
fn gathered_replies_stay_within_their_room(rt: HostRuntime) {
    let written = written_with_text(rt.alloc()).expect(&rt, "64 puts");
    let wanted = [61_530, 61_530, 61_530, 61_530, 16_408];
    assert_same(&rt, &written.as_slice(), &wanted.as_slice());
    drop(written);
}
