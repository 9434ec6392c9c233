//! The frames of requests, and the messages of a stream of them.
use call_text::{Asked, Called, parse_words, refusal_text};
use map_types::Refusal;
use run_cases::{Names, hexadecimal};
use std::alloc::Global;
use wire_frames::{Bulk, Feeder, Request, request_frame};

/// How many messages are taken of one piece, at most.
const MOST_MESSAGES: u32 = 100;

fn is_framed(alloc: Global, request: &Request, frame: &[u8]) -> bool {
    match request_frame(alloc, request) {
        Ok(bytes) => bytes.as_slice() == frame,
        Err(_) => false,
    }
}

fn is_framed_ok(alloc: Global, message: &Option<Result<Request, Refusal>>, frame: &[u8]) -> bool {
    match message {
        Some(Ok(request)) => is_framed(alloc, request, frame),
        _ => false,
    }
}

fn gives(alloc: Global, feeder: &mut Feeder, frame: &[u8]) -> bool {
    let message = feeder.next();
    let is_given = is_framed_ok(alloc, &message, frame);
    drop(message);
    is_given
}

fn gives_nothing(feeder: &mut Feeder) -> bool {
    let message = feeder.next();
    let is_none = message.is_none();
    drop(message);
    is_none
}

/// Whether the request comes once both parts are there, and no sooner.
fn comes_once_whole(alloc: Global, frame: &[u8], cut: usize) -> Result<bool, Refusal> {
    let Some((front, rest)) = frame.split_at_checked(cut) else {
        return Ok(false);
    };
    let mut feeder = Feeder::new(alloc);
    feeder.feed(front)?;
    let waits = gives_nothing(&mut feeder);
    feeder.feed(rest)?;
    Ok(waits && gives(alloc, &mut feeder, frame) && gives_nothing(&mut feeder))
}

fn comes_in_every_cutting(alloc: Global, frame: &[u8]) -> Result<bool, Refusal> {
    for cut in 0..frame.len() {
        if !comes_once_whole(alloc, frame, cut)? {
            return Ok(false);
        }
    }
    Ok(true)
}

/// Whether the request comes with its last byte, if it is fed a byte at a time.
fn comes_at_its_end(alloc: Global, feeder: &mut Feeder, frame: &[u8]) -> Result<bool, Refusal> {
    for byte in frame {
        if !gives_nothing(feeder) {
            return Ok(false);
        }
        feeder.feed(&[*byte])?;
    }
    Ok(gives(alloc, feeder, frame))
}

fn comes_three_times(alloc: Global, frame: &[u8]) -> Result<bool, Refusal> {
    let mut feeder = Feeder::new(alloc);
    for _time in 0..3 {
        if !comes_at_its_end(alloc, &mut feeder, frame)? {
            return Ok(false);
        }
    }
    Ok(true)
}

fn comes_however_cut(alloc: Global, frame: &[u8]) -> Result<bool, Refusal> {
    Ok(comes_in_every_cutting(alloc, frame)? && comes_three_times(alloc, frame)?)
}

fn frame_of(alloc: Global, request: Request) -> Result<Vec<u8>, Refusal> {
    let frame = request_frame(alloc, &request);
    drop(request);
    frame
}

/// The frame of the request that the words ask for.
fn frame_asked(alloc: Global, words: &[&str]) -> Result<Vec<u8>, Refusal> {
    match parse_words(alloc, words) {
        Ok(Called::Keyed(Asked::Change(command))) => frame_of(alloc, Request::Change(command)),
        Ok(Called::Keyed(Asked::Read(read))) => frame_of(alloc, Request::Read(read)),
        Ok(Called::Count) => frame_of(alloc, Request::Bulk(Bulk::Count)),
        Ok(Called::Reduce(func, threshold)) => {
            frame_of(alloc, Request::Bulk(Bulk::Reduce(func, threshold)))
        }
        Ok(Called::Search(threshold, value)) => {
            frame_of(alloc, Request::Bulk(Bulk::Search(threshold, value)))
        }
        Err(_) => Err(Refusal::WrongPhase),
    }
}

/// The frame of the request that the words ask for. The request comes out of a stream of it, however the
/// stream is cut.
pub(crate) fn request(alloc: Global, words: &[&str]) -> Result<String, Refusal> {
    let frame = frame_asked(alloc, words)?;
    if comes_however_cut(alloc, &frame)? {
        return Ok(hexadecimal(alloc, &frame)?);
    }
    Ok(String::from_str(alloc, "cut otherwise")?)
}

/// A message as it is told: the frame of a request, or the refusal.
fn message_text(alloc: Global, message: Result<Request, Refusal>) -> Result<String, Refusal> {
    match message {
        Ok(request) => {
            let frame = frame_of(alloc, request)?;
            Ok(hexadecimal(alloc, &frame)?)
        }
        Err(refusal) => Ok(refusal_text(alloc, refusal)?),
    }
}

fn take_messages(alloc: Global, feeder: &mut Feeder, told: &mut String) -> Result<(), Refusal> {
    for _message in 0..MOST_MESSAGES {
        let Some(message) = feeder.next() else {
            return Ok(());
        };
        let text = message_text(alloc, message)?;
        write!(told, "{text}, ")?;
    }
    Ok(())
}

/// The messages of a stream that comes in these pieces.
pub(crate) fn messages(alloc: Global, names: &Names, words: &[&str]) -> Result<String, Refusal> {
    let mut feeder = Feeder::new(alloc);
    let mut told = String::new(alloc);
    for word in words {
        let piece = names.bytes(alloc, word)?;
        feeder.feed(&piece)?;
        take_messages(alloc, &mut feeder, &mut told)?;
    }
    told.push_str("nothing more")?;
    Ok(told)
}
