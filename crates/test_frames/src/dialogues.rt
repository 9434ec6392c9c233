//! The dialogues of connections, over readers and writers that halt.
use crate::checks::assert_same;
use crate::numbered::number_put;
use connections::{Calls, ConnectionError, serve_connection};
use map_types::{Refusal, Reply, Value};
use std::alloc::Global;
use std::io;
use std::io::{Read, Write};
use wire_frames::{Bulk, Request};

/// A call of a map of one key, whose value is a number.
#[derive(Drop)]
enum Call {
    Now,
    Count,
    Put(i64),
    Fail,
}

/// Every change but `Put` fails, and every search.
fn call_of(request: &Request) -> Call {
    match request {
        Request::Read(_) | Request::Bulk(Bulk::Reduce(..)) => Call::Now,
        Request::Bulk(Bulk::Count) => Call::Count,
        Request::Bulk(Bulk::Search(..)) => Call::Fail,
        Request::Change(_) => match number_put(request) {
            Some(number) => Call::Put(number),
            None => Call::Fail,
        },
    }
}

#[derive(Drop)]
struct OneValue {
    value: Option<i64>,
    // how many calls were begun, and neither finished nor given up
    held: u64,
}

impl OneValue {
    fn answer(&mut self, call: Call) -> Result<Reply, Refusal> {
        match call {
            Call::Now => Ok(Reply::Now(self.value.map(Value::Int))),
            Call::Count => {
                let count = i64::from(self.value.is_some());
                Ok(Reply::Now(Some(Value::Int(count))))
            }
            Call::Put(number) => Ok(Reply::Was(self.value.replace(number).map(Value::Int))),
            Call::Fail => Err(Refusal::Failed),
        }
    }
}

impl Calls for OneValue {
    type Held = Call;

    ghost began = { λ _ _ _ _. Unit {0} };

    ghost finished = { λ _ _ _ _. Unit {0} };

    ghost gave_up = { λ _ _ _. Unit {0} };

    ghost owns = { λ _ _. Unit {0} };

    fn begin(&mut self, request: Request) -> Result<Call, Refusal> {
        self.held = self.held.wrapping_add(1);
        let call = call_of(&request);
        drop(request);
        Ok(call)
    }

    fn may_finish(&self, _call: &Call) -> bool {
        true
    }

    fn give_up(&mut self, _call: Call) {
        self.held = self.held.wrapping_sub(1);
    }

    fn finish(&mut self, call: Call) -> Result<Reply, Refusal> {
        self.held = self.held.wrapping_sub(1);
        self.answer(call)
    }
}

/// A reader that is interrupted before each piece, gives pieces of at most `most` bytes, and fails
/// at their end if it is to fail.
#[derive(Drop)]
struct Pieces<'a> {
    left: &'a [u8],
    most: usize,
    interrupts: bool,
    fails: bool,
}

impl Read for Pieces<'_> {
    fn read(&mut self, buf: &mut [u8]) -> io::Result<usize> {
        self.interrupts = !self.interrupts;
        if self.interrupts {
            return Err(io::Error::from(io::ErrorKind::Interrupted));
        }
        if self.left.is_empty() && self.fails {
            return Err(io::Error::from(io::ErrorKind::ConnectionReset));
        }
        let len = self.left.len().min(self.most).min(buf.len());
        let (front, rest) = self.left.split_at(len);
        buf[..len].copy_from_slice(front);
        self.left = rest;
        Ok(len)
    }
}

/// A writer that has room for `most` bytes, and fails behind them.
#[derive(Drop)]
struct Room {
    bytes: [u8; 64],
    len: usize,
    most: usize,
}

impl Room {
    fn of(most: usize) -> Room {
        Room {
            bytes: [0; 64],
            len: 0,
            most,
        }
    }

    fn written(&self) -> &[u8] {
        &self.bytes[..self.len.min(64)]
    }
}

impl Write for Room {
    fn write(&mut self, buf: &[u8]) -> io::Result<usize> {
        let Some(first) = buf.first() else {
            return Ok(0);
        };
        if self.len >= self.most || self.len >= 64 {
            return Err(io::Error::from(io::ErrorKind::BrokenPipe));
        }
        self.bytes[self.len] = *first;
        self.len += 1;
        Ok(1)
    }

    fn flush(&mut self) -> io::Result<()> {
        Ok(())
    }
}

/// A put of `a`, of 15 bytes, and its reply.
const PUT: &[u8] = b"\x00\x0D\x10\x00\x01a\x01\x00\x00\x00\x00\x00\x00\x00\x05";

const PUT_REPLY: &[u8] = b"\x00\x02\x00\x00";

/// A put of `a` and a get of it, and their replies.
const PUT_GET: &[u8] =
    b"\x00\x0D\x10\x00\x01a\x01\x00\x00\x00\x00\x00\x00\x00\x05\x00\x04\x01\x00\x01a";

const PUT_GET_REPLIES: &[u8] = b"\x00\x02\x00\x00\x00\x0A\x01\x01\x00\x00\x00\x00\x00\x00\x00\x05";

/// Refused requests, and a refused length with a request behind it.
const REFUSED: &[u8] =
    b"\x00\x05\x10\x00\x01a\x00\x00\x01\x04\x00\x07\x10\x00\x01a\x02\x10\x01\x00\x03\x10\x10\x00\x00\x04\x01\x00\x01\xFF\x00\x04\x01\x00\x01a\x00\x00\x00\x04\x01\x00\x01a";

const REFUSED_REPLIES: &[u8] =
    b"\x00\x02\x81\x00\x00\x02\x84\x00\x00\x02\x83\x00\x00\x02\x82\x00\x00\x02\x92\x00\x00\x02\x01\x00\x00\x02\x86\x00";

/// A get, a removal that fails, and another get.
const FAILED: &[u8] = b"\x00\x04\x01\x00\x01a\x00\x04\x12\x00\x01a\x00\x04\x01\x00\x01a";

const FAILED_REPLIES: &[u8] = b"\x00\x02\x01\x00\x00\x02\x89\x00";

/// A put of `a`, a count, a sum, a reduction by a function that is none of its three, and a search
/// that fails.
const WHOLE_MAP: &[u8] =
    b"\x00\x0D\x10\x00\x01a\x01\x00\x00\x00\x00\x00\x00\x00\x05\x00\x01\x20\x00\x0A\x21\x04\x00\x00\x00\x00\x00\x00\x00\x01\x00\x0A\x21\x07\x00\x00\x00\x00\x00\x00\x00\x01\x00\x12\x22\x00\x00\x00\x00\x00\x00\x00\x01\x01\x00\x00\x00\x00\x00\x00\x00\x05";

const WHOLE_MAP_REPLIES: &[u8] =
    b"\x00\x02\x00\x00\x00\x0A\x01\x01\x00\x00\x00\x00\x00\x00\x00\x01\x00\x0A\x01\x01\x00\x00\x00\x00\x00\x00\x00\x05\x00\x02\x85\x00\x00\x02\x89\x00";

/// The reply to a refused length, and to a request whose bytes are missing.
const BAD_FRAME_REPLY: &[u8] = b"\x00\x02\x86\x00";

static DIALOGUES: [(&[u8], &[u8]); 7] = [
    (PUT_GET, PUT_GET_REPLIES),
    (WHOLE_MAP, WHOLE_MAP_REPLIES),
    (REFUSED, REFUSED_REPLIES),
    (FAILED, FAILED_REPLIES),
    (b"\x40\x01", BAD_FRAME_REPLY),
    (b"\x00\x01\x10", BAD_FRAME_REPLY),
    (b"", b""),
];

/// How a connection ends.
#[derive(Drop)]
enum End {
    Served,
    ReaderFailed,
    WriterFailed,
    NoMemory,
}

fn end_of(served: &Result<(), ConnectionError>) -> End {
    match served {
        Ok(()) => End::Served,
        Err(ConnectionError::Reader(_)) => End::ReaderFailed,
        Err(ConnectionError::Writer(_)) => End::WriterFailed,
        Err(ConnectionError::NoMemory) => End::NoMemory,
    }
}

/// How a connection ends, and how many calls are held then.
fn serve<R: Read, W: Write>(alloc: Global, reader: &mut R, writer: &mut W) -> (End, u64) {
    let mut calls = OneValue {
        value: None,
        held: 0,
    };
    let served = serve_connection(alloc, reader, writer, &mut calls);
    (end_of(&served), calls.held)
}

/// A reader that ends a piece behind each byte whose bit in `cuts` is 1, the first byte's lowest.
#[derive(Drop)]
struct Cut<'a> {
    left: &'a [u8],
    cuts: u64,
}

impl Read for Cut<'_> {
    fn read(&mut self, buf: &mut [u8]) -> io::Result<usize> {
        let most = (self.cuts.trailing_zeros() as usize).saturating_add(1);
        let len = self.left.len().min(most).min(buf.len());
        let (front, rest) = self.left.split_at(len);
        buf[..len].copy_from_slice(front);
        self.left = rest;
        self.cuts = self.cuts.checked_shr(len as u32).unwrap_or(0);
        Ok(len)
    }
}

/// Whether the reader's requests are answered with these replies, and nothing is held any more.
fn is_answered<R: Read>(alloc: Global, reader: &mut R, replies: &[u8]) -> bool {
    let mut writer = Vec::new(alloc);
    let served = serve(alloc, reader, &mut writer);
    matches!(served, (End::Served, 0)) && writer.as_slice() == replies
}

/// The same for equal pieces, of each length.
fn is_answered_in_equal_pieces(alloc: Global, requests: &[u8], replies: &[u8]) -> bool {
    for most in 1..=requests.len() {
        let mut reader = Pieces {
            left: requests,
            most,
            interrupts: false,
            fails: false,
        };
        if !is_answered(alloc, &mut reader, replies) {
            return false;
        }
    }
    true
}

/// The same for pieces that end at these places.
fn is_answered_if_cut(alloc: Global, requests: &[u8], replies: &[u8], cuts: u64) -> bool {
    let mut reader = Cut {
        left: requests,
        cuts,
    };
    is_answered(alloc, &mut reader, replies)
}

/// The same for each pair of places among the first 64 bytes. With no cut but behind the last of
/// these the requests come whole.
fn is_answered_in_three_pieces(alloc: Global, requests: &[u8], replies: &[u8]) -> bool {
    for pair in 0..64 * 64u32 {
        let cuts = 1 << (pair / 64) | 1 << (pair % 64);
        if !is_answered_if_cut(alloc, requests, replies, cuts) {
            return false;
        }
    }
    true
}

/// The requests of the first dialogue that goes otherwise in pieces, if any.
fn first_wrong_dialogue(alloc: Global) -> Option<&'static [u8]> {
    for (requests, replies) in &DIALOGUES {
        let is_answered = is_answered_in_equal_pieces(alloc, requests, replies)
            && is_answered_in_three_pieces(alloc, requests, replies);
        if !is_answered {
            return Some(*requests);
        }
    }
    None
}

#[test]
fn dialogues_in_pieces(rt: HostRuntime) {
    assert_same(&rt, &first_wrong_dialogue(rt.alloc()), &None);
}

/// The first cutting of a put that is answered otherwise, if any.
fn first_wrong_cutting(alloc: Global) -> Option<u64> {
    (0..1u64 << 14).find(|cuts| !is_answered_if_cut(alloc, PUT, PUT_REPLY, *cuts))
}

#[test]
fn a_put_in_every_cutting(rt: HostRuntime) {
    assert_same(&rt, &first_wrong_cutting(rt.alloc()), &None);
}

/// Whether a reader that fails behind `len` bytes is told, this front of the replies was written,
/// and nothing is held any more.
fn fails_behind(alloc: Global, len: usize, replies: &[u8]) -> bool {
    let mut reader = Pieces {
        left: PUT_GET.get(..len).unwrap_or(PUT_GET),
        most: 5,
        interrupts: false,
        fails: true,
    };
    let mut writer = Room::of(64);
    let served = serve(alloc, &mut reader, &mut writer);
    matches!(served, (End::ReaderFailed, 0)) && writer.written() == replies
}

/// How many bytes of the replies answer so many bytes of the requests.
fn answered_by(len: usize) -> usize {
    match len {
        0..=14 => 0,
        15..=20 => 4,
        _ => 16,
    }
}

/// The first count of bytes behind which a reader's failure goes otherwise, if any.
fn first_wrong_failure(alloc: Global) -> Option<usize> {
    for len in 0..=PUT_GET.len() {
        let replies = PUT_GET_REPLIES.get(..answered_by(len));
        if !fails_behind(alloc, len, replies.unwrap_or(PUT_GET_REPLIES)) {
            return Some(len);
        }
    }
    None
}

#[test]
fn a_reader_that_fails(rt: HostRuntime) {
    assert_same(&rt, &first_wrong_failure(rt.alloc()), &None);
}

/// Whether a writer that has room for this front of the replies alone is told, and has got it, and
/// nothing is held any more.
fn fails_with_room_for(alloc: Global, replies: &[u8]) -> bool {
    let mut reader = PUT_GET;
    let mut writer = Room::of(replies.len());
    let served = serve(alloc, &mut reader, &mut writer);
    matches!(served, (End::WriterFailed, 0)) && writer.written() == replies
}

/// The first room of a writer in which its failure goes otherwise, if any.
fn first_wrong_room(alloc: Global) -> Option<usize> {
    for most in 0..PUT_GET_REPLIES.len() {
        if !fails_with_room_for(alloc, &PUT_GET_REPLIES[..most]) {
            return Some(most);
        }
    }
    None
}

#[test]
fn a_writer_that_fails(rt: HostRuntime) {
    assert_same(&rt, &first_wrong_room(rt.alloc()), &None);
}

/// Whether a connection of a put and a get may end so, if any one allocation is refused.
fn is_allowed(end: &End, written: &[u8]) -> bool {
    match end {
        End::Served => {
            written == PUT_GET_REPLIES
                || written == b"\x00\x02\x87\x00\x00\x02\x01\x00".as_slice()
                || written == b"\x00\x02\x00\x00\x00\x02\x87\x00".as_slice()
        }
        End::NoMemory => written.is_empty(),
        _ => false,
    }
}

/// It passes too if any one allocation is refused.
#[test]
fn memory_that_is_refused(rt: HostRuntime) {
    let mut reader = PUT_GET;
    let mut writer = Room::of(64);
    let (end, _held) = serve(rt.alloc(), &mut reader, &mut writer);
    let written = writer.written();
    let wrong = (!is_allowed(&end, written)).then_some(written);
    assert_same(&rt, &wrong, &None);
}
