//! A connection.

ghost use Rattle.std.specs.Prelude.{◌≡◌, ◌≢◌, ◌≤◌, [], length, vec_len, IfOk, OnOk};
ghost use Rattle.std.specs.VecDeque.{deque_capacity};
ghost use Rattle.wire_frames.specs.Replies.{Writes};
ghost use Rattle.connections.specs.declared.connection.ConnectionError.TheVariants.{NoMemory};
ghost use Rattle.connections.specs.declared.exchange.Stage.TheVariants.{GivenUp};
ghost use Rattle.connections.specs.Progress.{Gave};
ghost use Rattle.connections.specs.Past.{standing, with_late, late_of};
ghost use Rattle.connections.specs.Driving.{AnswersAll, TakesTurns};
ghost use Rattle.connections.specs.Owning.{OwnsRow};
ghost use Rattle.connections.specs.Connection as whole;

use crate::calls::Calls;
use crate::exchange::{Answered, Connection};
use crate::row::MOST_HELD;
use std::alloc::{AllocError, Global};
use std::io;
use std::io::{Read, Write};
use thiserror::Error;
use wire_frames::{write_reply, write_whole};

/// The most bytes that one read takes.
const PIECE: usize = 65536;

/// Why a connection broke off.
#[derive(Debug, Drop, Error)]
pub enum ConnectionError {
    #[error("the reader failed: {0}")]
    Reader(io::Error),
    #[error("the writer failed: {0}")]
    Writer(io::Error),
    #[error("no memory was found for what was read")]
    NoMemory,
}

impl From<AllocError> for ConnectionError {
    ghost from_gives = { λ _ error. error ≡ NoMemory };

    fn from(_error: AllocError) -> ConnectionError {
        ConnectionError::NoMemory
    }
}

/// Writes what is unsent, and a reply that no memory was found for.
fn write_unsent<W: Write, H>(
    writer: &mut W,
    connection: &Connection<H>,
    answered: &Answered,
) -> io::Result<()>
    ensures { Writes (W.contents writer.old) (W.contents writer.new) result
        (with_late (standing connection.now) (late_of answered.now)).unsent }
{
    write_whole(writer, connection.unsent())?;
    match answered {
        Answered::Late(answer) => write_reply(writer, answer),
        Answered::All | Answered::Paused => Ok(()),
    }
}

/// Answers what is held, and writes the replies: before a call that may wait, once the longest
/// reply has no room beside them, and at the end.
fn answer_all<W: Write, C: Calls>(
    connection: &mut Connection<C::Held>,
    writer: &mut W,
    calls: &mut C,
) -> io::Result<()>
    // Nothing is unsent, and what is held is of these calls.
    requires unsent { connection.old.out ≡ [] }
    requires owned { OwnsRow C.owns calls.old connection.old.row.items }

    // All is answered and written, or the writer failed and the rest was given up.
    ensures answered { AnswersAll C.began C.finished C.gave_up
        (W.contents writer.old) (W.contents writer.new) calls.old calls.new
        (standing connection.old) (standing connection.new) result }

    // Nothing is received or begun.
    ensures feeder { OnOk result (connection.new.feeder ≡ connection.old.feeder) }
    ensures stage { connection.old.stage ≢ GivenUp
        → OnOk result (connection.new.stage ≢ GivenUp) }
    ensures capacity { OnOk result
        (deque_capacity connection.new.row ≡ deque_capacity connection.old.row) }
{
    'answers: loop {
        let answered = connection.answer(calls, true);
        match write_unsent(writer, connection, &answered) {
            Ok(()) => connection.sent_all(),
            Err(error) => {
                connection.give_up(calls);
                return Err(error);
            }
        }
        let is_all = answered.is_all();
        drop(answered);
        if is_all {
            return Ok(());
        }
    }
}

/// Answers each whole message in hand, a row of up to 64 at a time.
fn take_turns<W: Write, C: Calls>(
    connection: &mut Connection<C::Held>,
    writer: &mut W,
    calls: &mut C,
) -> io::Result<()>
    // Nothing is held or unsent, and the row has its room.
    requires idle { connection.old.row.items ≡ [] }
    requires unsent { connection.old.out ≡ [] }
    requires stage { connection.old.stage ≢ GivenUp }
    requires room { MOST_HELD ≤ deque_capacity connection.old.row }

    // No whole message is left in hand, or a reply ended the connection, or the writer failed.
    ensures turned { TakesTurns C.began C.finished C.gave_up
        (W.contents writer.old) (W.contents writer.new) calls.old calls.new
        (standing connection.old) (standing connection.new) result }
    ensures capacity { OnOk result
        (deque_capacity connection.new.row ≡ deque_capacity connection.old.row) }
{
    'turns: loop {
        connection.begin(calls);
        if connection.is_idle() {
            return Ok(());
        }
        answer_all(connection, writer, calls)?;
    }
}

/// Room for `len` bytes.
fn room_of(alloc: Global, len: usize) -> Result<Vec<u8>, AllocError>
    ensures { IfOk result (λ room. vec_len room ≡ len) }
{
    vec![in alloc; 0u8; len]
}

/// Reads the next bytes, at least one unless the stream has ended. A read that is interrupted is
/// tried again.
fn read_piece<R: Read>(reader: &mut R, room: &mut [u8]) -> Result<usize, ConnectionError>
    ensures bound { IfOk result (λ n. n ≤ length room.new) }
    ensures bytes { Gave (R.remaining reader.old) (R.remaining reader.new) room.new result }
{
    for _ in 0..u64::MAX {
        match reader.read(room) {
            Ok(len) => return Ok(len),
            Err(error) if error.kind() == io::ErrorKind::Interrupted => {}
            Err(error) => return Err(ConnectionError::Reader(error)),
        }
    }
    let error = io::Error::from(io::ErrorKind::TimedOut);
    Err(ConnectionError::Reader(error))
}

/// Answers the requests that the reader gives until its end, or until a reply of status 86 or 89.
///
/// It reads in pieces, and answers each whole message in hand before it reads again. Up to 64 calls
/// are begun, and then they are finished in order; their replies are gathered and written together.
/// What was gathered is written before a `finish` that may wait, and once the longest reply has no
/// room beside it in 64 KiB. After a reply of status 86 or 89, or if the writer fails, what is held
/// is given up. Behind a message refused with `BadFrame` no call is begun. A request of the whole
/// map is begun once all replies before it are written, and no other call before it is answered or
/// given up.
///
/// If the reader or memory fails, each whole message before it has been answered. Memory for the
/// row and for gathered replies is got before the first read. The bytes may come cut in any way. It
/// ends by itself in no other way, so a reader that never ends is served for ever: after 2^64 - 1
/// reads, more than any run makes, it returns `Reader`.
pub fn serve_connection<R: Read, W: Write, C: Calls>(
    alloc: Global,
    reader: &mut R,
    writer: &mut W,
    calls: &mut C,
) -> Result<(), ConnectionError>
    ensures { whole.Connection C.began C.finished C.gave_up
        (R.remaining reader.old) (R.remaining reader.new)
        (W.contents writer.old) (W.contents writer.new)
        calls.old calls.new result }
{
    let mut room = room_of(alloc, PIECE)?;
    let mut connection: Connection<C::Held> = Connection::new(alloc);
    connection.make_room()?;
    'reads: for _ in 0..u64::MAX {
        let len = read_piece(reader, &mut room)?;
        if len == 0 {
            return Ok(());
        }
        let (piece, _) = room.split_at(len);
        connection.receive(piece)?;
        match take_turns(&mut connection, writer, calls) {
            Ok(()) => {}
            Err(error) => return Err(ConnectionError::Writer(error)),
        }
        if connection.has_ended() {
            return Ok(());
        }
    }
    let error = io::Error::from(io::ErrorKind::TimedOut);
    Err(ConnectionError::Reader(error))
}
