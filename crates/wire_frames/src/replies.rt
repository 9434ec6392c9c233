//! Replies into a writer.

ghost use Rattle.std.specs.Prelude.{◌≡◌, ◌<◌, ◌≤◌, [], ◌∷◌, take, length, OnErr, IfOk, Some};
ghost use Rattle.std.specs.Io.KnownBytes.{Appends};
ghost use Rattle.std.specs.Int.{w64, to_be_bytes};
ghost use Rattle.map_types.specs.declared.texts.Value.TheVariants.{Text};
ghost use Rattle.log_records.specs.Spelling.{value_bytes};
ghost use Rattle.wire_frames.specs.Messages.{frame};
ghost use Rattle.wire_frames.specs.Replies.{reply_frame, Writes};

use map_types::{FuncError, Refusal, Reply, Value};
use std::io;
use std::io::Write;

pub(crate) const WAS: u8 = 0;

pub(crate) const NOW: u8 = 1;

pub(crate) const DID: u8 = 2;

pub(crate) const FAULT: u8 = 3;

/// The status of a refusal is this and its number.
pub(crate) const REFUSED: u8 = 128;

/// One write of at least a byte, tried again if it was interrupted.
#[tactic(auto, using(crate::proofs::Sent::keeps_appends))]
fn write_some<W: Write>(writer: &mut W, bytes: &[u8]) -> io::Result<usize>
    ensures some { IfOk result (λ n. 0 < n) }
    ensures bound { IfOk result (λ n. n ≤ length bytes.now) }
    ensures ok { IfOk result (λ n. Appends (W.contents writer.old) (W.contents writer.new)
        (take n bytes.now)) }
    ensures err { OnErr result (Appends (W.contents writer.old) (W.contents writer.new) []) }
{
    for _ in 0..u64::MAX {
        match writer.write(bytes) {
            Ok(0) => return Err(io::Error::from(io::ErrorKind::WriteZero)),
            Ok(taken) => return Ok(taken),
            Err(error) if error.kind() == io::ErrorKind::Interrupted => {}
            Err(error) => return Err(error),
        }
    }
    Err(io::Error::from(io::ErrorKind::TimedOut))
}

/// Writes all of the bytes, or a beginning of them if the writer fails.
pub fn write_whole<W: Write>(writer: &mut W, bytes: &[u8]) -> io::Result<()>
    ensures { Writes (W.contents writer.old) (W.contents writer.new) result bytes.now }
{
    let mut rest = bytes;
    'writes: while !rest.is_empty() {
        let taken = write_some(writer, rest)?;
        let (_, after) = rest.split_at(taken);
        rest = after;
    }
    Ok(())
}

fn write_number<W: Write>(writer: &mut W, status: u8, bits: u64) -> io::Result<()>
    ensures { Writes (W.contents writer.old) (W.contents writer.new) result
        (frame (status ∷ 1 ∷ to_be_bytes w64 bits)) }
{
    let b = bits.to_be_bytes();
    write_whole(
        writer,
        &[
            0, 10, status, 1, b[0], b[1], b[2], b[3], b[4], b[5], b[6], b[7],
        ],
    )
}

fn write_text<W: Write>(writer: &mut W, status: u8, text: &str) -> io::Result<()>
    requires { length text.now ≤ 4096 }
    ensures { Writes (W.contents writer.old) (W.contents writer.new) result
        (frame (status ∷ value_bytes (Some (Text text.now)))) }
{
    let all = (text.len() as u16 + 4).to_be_bytes();
    let len = (text.len() as u16).to_be_bytes();
    write_whole(writer, &[all[0], all[1], status, 2, len[0], len[1]])?;
    write_whole(writer, text.as_bytes())
}

fn write_value<W: Write>(writer: &mut W, status: u8, value: &Value) -> io::Result<()>
    ensures { Writes (W.contents writer.old) (W.contents writer.new) result
        (frame (status ∷ value_bytes (Some value.now))) }
{
    match value {
        Value::Int(number) => {
            let bits = number.cast_unsigned();
            write_number(writer, status, bits)
        }
        Value::Text(text) => write_text(writer, status, text.as_str()),
    }
}

/// Writes the frame of a status and a value, or absent.
fn write_found<W: Write>(writer: &mut W, status: u8, value: &Option<Value>) -> io::Result<()>
    ensures { Writes (W.contents writer.old) (W.contents writer.new) result
        (frame (status ∷ value_bytes value.now)) }
{
    match value {
        None => write_whole(writer, &[0, 2, status, 0]),
        Some(value) => write_value(writer, status, value),
    }
}

fn write_did<W: Write>(writer: &mut W, done: bool) -> io::Result<()>
    ensures { Writes (W.contents writer.old) (W.contents writer.new) result
        (reply_frame (Ok (Reply.Did done))) }
{
    let bits = u64::from(done);
    write_number(writer, DID, bits)
}

fn write_fault<W: Write>(writer: &mut W, fault: FuncError) -> io::Result<()>
    ensures { Writes (W.contents writer.old) (W.contents writer.new) result
        (reply_frame (Ok (Reply.Fault fault))) }
{
    let bits = u64::from(fault.number());
    write_number(writer, FAULT, bits)
}

/// Writes the frame of a reply or a refusal. It takes no memory. If the writer fails, a beginning
/// of the frame was written, and never all of it.
pub fn write_reply<W: Write>(writer: &mut W, answer: &Result<Reply, Refusal>) -> io::Result<()>
    ensures { Writes (W.contents writer.old) (W.contents writer.new) result
        (reply_frame answer.now) }
{
    match answer {
        Ok(Reply::Was(value)) => write_found(writer, WAS, value),
        Ok(Reply::Now(value)) => write_found(writer, NOW, value),
        Ok(Reply::Did(done)) => write_did(writer, *done),
        Ok(Reply::Fault(fault)) => write_fault(writer, *fault),
        Err(refusal) => write_whole(writer, &[0, 2, REFUSED + refusal.number(), 0]),
    }
}
