//! Replies in bytes.
use crate::halting::{Dripping, Halting};
use call_text::{refusal_text, reply_text};
use map_types::{Refusal, Reply};
use run_cases::Names;
use std::alloc::{AllocError, Global};
use wire_frames::{AnswerError, ReplyError, read_answer, read_reply, write_reply};

/// What a request is answered.
type Answer = Result<Reply, Refusal>;

fn answer_text(alloc: Global, answer: &Answer) -> Result<String, AllocError> {
    match answer {
        Ok(reply) => reply_text(alloc, reply),
        Err(refusal) => refusal_text(alloc, *refusal),
    }
}

/// The answer that is read of these bytes, if it takes all of them.
fn whole_answer(alloc: Global, bytes: &[u8]) -> Option<Answer> {
    let mut reader = bytes;
    match read_reply(alloc, &mut reader) {
        Ok(answer) if reader.is_empty() => Some(answer),
        _ => None,
    }
}

fn is_written(alloc: Global, answer: &Answer, bytes: &[u8]) -> bool {
    let mut written = Vec::new(alloc);
    write_reply(&mut written, answer).is_ok() && written.as_slice() == bytes
}

/// Whether a writer that has no room for the rest has taken this front, and succeeds exactly if
/// there is no rest.
fn takes(alloc: Global, answer: &Answer, front: &[u8], is_whole: bool) -> bool {
    let mut writer = Halting {
        interrupts: false,
        room: front.len(),
        taken: Vec::new(alloc),
    };
    let is_ok = write_reply(&mut writer, answer).is_ok();
    is_ok == is_whole && writer.taken.as_slice() == front
}

/// Whether a front that is followed by nothing is no reply.
fn ends_early(alloc: Global, front: &[u8]) -> bool {
    let mut reader = front;
    matches!(read_reply(alloc, &mut reader), Err(ReplyError::Ended))
}

fn is_same(alloc: Global, read: Result<Answer, ReplyError>, bytes: &[u8]) -> bool {
    match read {
        Ok(answer) => is_written(alloc, &answer, bytes),
        Err(_) => false,
    }
}

fn has_failed(read: Result<Answer, ReplyError>) -> bool {
    matches!(read, Err(ReplyError::Reader(_)))
}

/// Whether a reply is read of a reader that gives these bytes and then fails, if it is whole; else
/// whether the failure is told. All of it is asked for.
fn drips(alloc: Global, front: &[u8], is_whole: bool) -> bool {
    let mut reader = Dripping {
        interrupts: false,
        left: front,
    };
    let read = read_reply(alloc, &mut reader);
    let is_asked = reader.left.is_empty();
    if is_whole {
        is_asked && is_same(alloc, read, front)
    } else {
        is_asked && has_failed(read)
    }
}

/// Each front of a reply is written and read as a front.
fn are_fronts(alloc: Global, answer: &Answer, bytes: &[u8]) -> bool {
    for len in 0..bytes.len() {
        let front = &bytes[..len];
        let is_taken = takes(alloc, answer, front, false);
        if !is_taken || !ends_early(alloc, front) || !drips(alloc, front, false) {
            return false;
        }
    }
    true
}

fn is_whole(alloc: Global, answer: &Answer, bytes: &[u8]) -> bool {
    is_written(alloc, answer, bytes)
        && takes(alloc, answer, bytes, true)
        && drips(alloc, bytes, true)
}

fn told(alloc: Global, answer: &Answer) -> Result<String, Refusal> {
    let text = answer_text(alloc, answer)?;
    Ok(text)
}

fn read_told(alloc: Global, read: &Result<Answer, AnswerError>) -> Result<String, Refusal> {
    match read {
        Ok(answer) => told(alloc, answer),
        Err(AnswerError::NotAReply) => Ok(String::from_str(alloc, "not a reply")?),
        Err(AnswerError::NoMemory) => Err(Refusal::NoMemory),
    }
}

fn told_with_fronts(alloc: Global, answer: &Answer, bytes: &[u8]) -> Result<String, Refusal> {
    if !is_whole(alloc, answer, bytes) || !are_fronts(alloc, answer, bytes) {
        return Ok(String::from_str(alloc, "written or cut otherwise")?);
    }
    told(alloc, answer)
}

/// The reply that a frame has. It is written as that frame again, also to a writer that halts, and no front
/// of the frame is a reply.
pub(crate) fn reply(alloc: Global, names: &Names, words: &[&str]) -> Result<String, Refusal> {
    let [word] = words else {
        return Err(Refusal::WrongPhase);
    };
    let bytes = names.bytes(alloc, word)?;
    match whole_answer(alloc, &bytes) {
        Some(answer) => told_with_fronts(alloc, &answer, &bytes),
        None => Ok(String::from_str(alloc, "no reply")?),
    }
}

/// The answer that is the body of a frame.
pub(crate) fn answer(alloc: Global, names: &Names, words: &[&str]) -> Result<String, Refusal> {
    let [word] = words else {
        return Err(Refusal::WrongPhase);
    };
    let bytes = names.bytes(alloc, word)?;
    let read = read_answer(alloc, &bytes);
    let told = read_told(alloc, &read);
    drop(read);
    told
}
