//! Replies out of a reader.

ghost use Rattle.std.specs.Prelude.{◌≡◌, ◌<◌, ◌^◌, length};
ghost use Rattle.std.specs.Int.{w16, to_be_bytes};
ghost use Rattle.wire_frames.specs.declared.receiving.ReplyError.TheVariants.{NoMemory};
ghost use Rattle.wire_frames.specs.Receiving.{Fills, FillsBody, GivesSome, ReadsLength, ReadsReply};

use crate::answers::{AnswerError, read_answer};
use map_types::{Refusal, Reply};
use std::alloc::{AllocError, Global};
use std::io;
use std::io::Read;
use thiserror::Error;

/// Why no reply was read.
#[derive(Debug, Drop, Error)]
pub enum ReplyError {
    #[error("the reader failed: {0}")]
    Reader(io::Error),
    #[error("the stream ended before a whole reply")]
    Ended,
    #[error("not a reply")]
    NotAReply,
    #[error("no memory was found for the reply")]
    NoMemory,
}

impl From<AllocError> for ReplyError {
    ghost from_gives = { λ _ error. error ≡ NoMemory };

    fn from(_error: AllocError) -> ReplyError {
        ReplyError::NoMemory
    }
}

/// One read of at least a byte, tried again if it was interrupted.
fn read_some<R: Read>(reader: &mut R, room: &mut [u8]) -> Result<usize, ReplyError>
    requires { 0 < length room.old }
    ensures { GivesSome (R.remaining reader.old) (R.remaining reader.new) room.new result }
{
    for _ in 0..u64::MAX {
        match reader.read(room) {
            Ok(0) => return Err(ReplyError::Ended),
            Ok(len) => return Ok(len),
            Err(error) if error.kind() == io::ErrorKind::Interrupted => {}
            Err(error) => return Err(ReplyError::Reader(error)),
        }
    }
    let error = io::Error::from(io::ErrorKind::TimedOut);
    Err(ReplyError::Reader(error))
}

/// Fills the room, or a beginning of it if the stream ends or the reader fails.
fn read_whole<R: Read>(reader: &mut R, room: &mut [u8]) -> Result<(), ReplyError>
    ensures { Fills (R.remaining reader.old) (R.remaining reader.new) room.new result }
{
    let mut filled = 0;
    'reads: while filled < room.len() {
        let len = read_some(reader, &mut room[filled..])?;
        filled += len;
    }
    Ok(())
}

/// The number of two bytes, the highest first.
fn number_of(bytes: &[u8]) -> u16
    requires { length bytes.now ≡ 2 }
    ensures number { bytes.now ≡ to_be_bytes w16 result }
    ensures fits { result < 2 ^ 16 }
{
    u16::from_be_bytes([bytes[0], bytes[1]])
}

/// Reads the length of a frame.
fn read_length<R: Read>(reader: &mut R) -> Result<u16, ReplyError>
    ensures { ReadsLength (R.remaining reader.old) (R.remaining reader.new) result }
{
    let mut head = [0u8; 2];
    read_whole(reader, &mut head)?;
    Ok(number_of(&head))
}

/// Reads `len` bytes.
fn read_body<R: Read>(alloc: Global, reader: &mut R, len: u16) -> Result<Vec<u8>, ReplyError>
    ensures { FillsBody (R.remaining reader.old) (R.remaining reader.new) (λ body. body.items) len
        result }
{
    let mut body = vec![in alloc; 0u8; usize::from(len)]?;
    read_whole(reader, &mut body)?;
    Ok(body)
}

/// Reads one reply, and nothing behind it.
///
/// If the stream ends, the reader fails or memory is wanting, a part of the frame was read. If the
/// frame says no reply, all of it was read.
pub fn read_reply<R: Read>(
    alloc: Global,
    reader: &mut R,
) -> Result<Result<Reply, Refusal>, ReplyError>
    ensures { ReadsReply (R.remaining reader.old) (R.remaining reader.new) result }
{
    let len = read_length(reader)?;
    let body = read_body(alloc, reader, len)?;
    match read_answer(alloc, &body) {
        Ok(answer) => Ok(answer),
        Err(AnswerError::NotAReply) => Err(ReplyError::NotAReply),
        Err(AnswerError::NoMemory) => Err(ReplyError::NoMemory),
    }
}
