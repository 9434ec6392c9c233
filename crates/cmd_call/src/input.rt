//! An input that is read line by line.
ghost use Rattle.std.specs.Prelude.{◌≡◌, ◌≤◌, ◌∷◌, ◌++◌, ℕ, List, [], length, map, vec_len};
ghost use Rattle.std.specs.Prelude.{IfOk, OnOk, OnErr};
ghost use Rattle.call_text.specs.Names.{Text};
ghost use Rattle.cmd_call.specs.Client.{Known};
ghost use Rattle.cmd_call.specs.Lines.{Answers, Ends, asked_frames, asked_in, ends_of, last_line};
ghost use Rattle.cmd_call.specs.Inputs.{AnswersInput, Breaks, Gave, Reads, StopsAt, Underway};

use crate::lines::LINE_END;
use crate::rounds::{MOST_ASKED, Round, Stop, answer_round};
use crate::servers::{Replies, Requests};
use call_text::DONE;
use std::alloc::{AllocError, Global};
use std::io;
use std::io::{Read, Write};

/// The most bytes that one read takes. The requests of 16,384 bytes of input fit what a connection
/// holds, so that they are written whole before a reply is read.
const PIECE: usize = 16384;

/// What was read of an input.
#[derive(Drop)]
struct Lines {
    /// What stands behind the last whole line.
    part: Vec<u8>,
    /// The whole lines that nothing came of yet.
    round: Round,
    /// The first status of a line that isn't that of success.
    status: u8,
}

/// The part becomes a line. If there are enough lines, they are answered.
fn end_line<R: Replies + Drop, W: Requests + Drop, O: Write>(
    alloc: Global,
    server: &mut Option<(R, W)>,
    lines: &mut Lines,
    output: &mut O,
) -> Result<(), Stop>
    // The frames are those of what is asked.
    requires { lines.old.round.frames.items ≡ asked_frames lines.old.round.asked.items }

    ensures frames { OnOk result
        (lines.new.round.frames.items ≡ asked_frames lines.new.round.asked.items) }
    ensures part { OnOk result (lines.new.part.items ≡ []) }
    // What held of the connection and the output before holds with these lines, or bytes.
    ensures goes_on { OnOk result ((whole : List Text) (e : Ends) (o : Known)
        → Underway R.fails e (ends_of R.remaining W.contents server.old) o (O.contents output.old)
        whole lines.old.round.asked.items lines.old.status
        → Underway R.fails e (ends_of R.remaining W.contents server.new) o (O.contents output.new)
        (whole ++ lines.old.part.items ∷ []) lines.new.round.asked.items lines.new.status) }
    ensures breaks { OnErr result ((whole : List Text) (e : Ends) (o : Known)
        → Underway R.fails e (ends_of R.remaining W.contents server.old) o (O.contents output.old)
        whole lines.old.round.asked.items lines.old.status
        → Breaks R.fails e o (O.contents output.new) (whole ++ lines.old.part.items ∷ [])) }
{
    lines.round.add(alloc, &lines.part)?;
    lines.part.clear();
    if lines.round.asked.len() < MOST_ASKED {
        return Ok(());
    }
    answer_round(alloc, server, &mut lines.round, &mut lines.status, output)
}

/// Takes the next byte of the input.
fn take_byte<R: Replies + Drop, W: Requests + Drop, O: Write>(
    alloc: Global,
    server: &mut Option<(R, W)>,
    lines: &mut Lines,
    output: &mut O,
    byte: u8,
) -> Result<(), Stop>
    // The frames are those of what is asked.
    requires { lines.old.round.frames.items ≡ asked_frames lines.old.round.asked.items }

    ensures frames { OnOk result
        (lines.new.round.frames.items ≡ asked_frames lines.new.round.asked.items) }
    // What held of the connection and the output before holds with these lines, or bytes.
    ensures goes_on { OnOk result
        ((bytes : List ℕ) (e : Ends) (o : Known)
        → Reads R.fails bytes lines.old.part.items e (ends_of R.remaining W.contents server.old) o
        (O.contents output.old) lines.old.round.asked.items lines.old.status
        → Reads R.fails (bytes ++ byte ∷ []) lines.new.part.items e
        (ends_of R.remaining W.contents server.new) o (O.contents output.new)
        lines.new.round.asked.items lines.new.status) }
    ensures breaks { OnErr result
        ((bytes : List ℕ) (e : Ends) (o : Known)
        → Reads R.fails bytes lines.old.part.items e (ends_of R.remaining W.contents server.old) o
        (O.contents output.old) lines.old.round.asked.items lines.old.status
        → StopsAt R.fails (bytes ++ byte ∷ []) e o (O.contents output.new)) }
{
    if byte == LINE_END {
        return end_line(alloc, server, lines, output);
    }
    lines.part.push(byte)?;
    Ok(())
}

/// Takes the next bytes of the input.
fn take_bytes<R: Replies + Drop, W: Requests + Drop, O: Write>(
    alloc: Global,
    server: &mut Option<(R, W)>,
    lines: &mut Lines,
    output: &mut O,
    piece: &[u8],
) -> Result<(), Stop>
    // The frames are those of what is asked.
    requires { lines.old.round.frames.items ≡ asked_frames lines.old.round.asked.items }

    ensures frames { OnOk result
        (lines.new.round.frames.items ≡ asked_frames lines.new.round.asked.items) }
    // What held of the connection and the output before holds with these lines, or bytes.
    ensures goes_on { OnOk result
        ((bytes : List ℕ) (e : Ends) (o : Known)
        → Reads R.fails bytes lines.old.part.items e (ends_of R.remaining W.contents server.old) o
        (O.contents output.old) lines.old.round.asked.items lines.old.status
        → Reads R.fails (bytes ++ piece.now) lines.new.part.items e
        (ends_of R.remaining W.contents server.new) o (O.contents output.new)
        lines.new.round.asked.items lines.new.status) }
    ensures breaks { OnErr result
        ((bytes : List ℕ) (e : Ends) (o : Known)
        → Reads R.fails bytes lines.old.part.items e (ends_of R.remaining W.contents server.old) o
        (O.contents output.old) lines.old.round.asked.items lines.old.status
        → StopsAt R.fails (bytes ++ piece.now) e o (O.contents output.new)) }
{
    for byte in piece {
        take_byte(alloc, server, lines, output, *byte)?;
    }
    Ok(())
}

/// Takes the next bytes of the input, and answers each whole line in hand.
fn take_piece<R: Replies + Drop, W: Requests + Drop, O: Write>(
    alloc: Global,
    server: &mut Option<(R, W)>,
    lines: &mut Lines,
    output: &mut O,
    piece: &[u8],
) -> Result<(), Stop>
    // The frames are those of what is asked.
    requires { lines.old.round.frames.items ≡ asked_frames lines.old.round.asked.items }

    ensures frames { OnOk result
        (lines.new.round.frames.items ≡ asked_frames lines.new.round.asked.items) }
    // What held of the connection and the output before holds with these lines, or bytes.
    ensures goes_on { OnOk result
        ((bytes : List ℕ) (e : Ends) (o : Known)
        → Reads R.fails bytes lines.old.part.items e (ends_of R.remaining W.contents server.old) o
        (O.contents output.old) lines.old.round.asked.items lines.old.status
        → Reads R.fails (bytes ++ piece.now) lines.new.part.items e
        (ends_of R.remaining W.contents server.new) o (O.contents output.new)
        lines.new.round.asked.items lines.new.status) }
    ensures breaks { OnErr result
        ((bytes : List ℕ) (e : Ends) (o : Known)
        → Reads R.fails bytes lines.old.part.items e (ends_of R.remaining W.contents server.old) o
        (O.contents output.old) lines.old.round.asked.items lines.old.status
        → StopsAt R.fails (bytes ++ piece.now) e o (O.contents output.new)) }
{
    take_bytes(alloc, server, lines, output, piece)?;
    answer_round(alloc, server, &mut lines.round, &mut lines.status, output)
}

/// Answers what is left at the end of the input. What stands behind the last whole line is a line
/// too.
fn finish<R: Replies + Drop, W: Requests + Drop, O: Write>(
    alloc: Global,
    server: &mut Option<(R, W)>,
    lines: &mut Lines,
    output: &mut O,
) -> Result<(), Stop>
    // The frames are those of what is asked.
    requires { lines.old.round.frames.items ≡ asked_frames lines.old.round.asked.items }

    // Each line was answered; or of the first ones a beginning was printed.
    ensures answers { OnOk result ((whole : List Text) (e : Ends) (o : Known)
        → Underway R.fails e (ends_of R.remaining W.contents server.old) o (O.contents output.old)
        whole lines.old.round.asked.items lines.old.status
        → Answers R.fails e (ends_of R.remaining W.contents server.new) o (O.contents output.new)
        (map asked_in (whole ++ last_line lines.old.part.items)) 0 lines.new.status) }
    ensures breaks { OnErr result ((whole : List Text) (e : Ends) (o : Known)
        → Underway R.fails e (ends_of R.remaining W.contents server.old) o (O.contents output.old)
        whole lines.old.round.asked.items lines.old.status
        → Breaks R.fails e o (O.contents output.new) (whole ++ last_line lines.old.part.items)) }
{
    let part = lines.part.as_slice();
    if part.is_empty() {
        return answer_round(alloc, server, &mut lines.round, &mut lines.status, output);
    }
    end_line(alloc, server, lines, output)?;
    answer_round(alloc, server, &mut lines.round, &mut lines.status, output)
}

/// Room for `len` bytes.
fn room_of(alloc: Global, len: usize) -> Result<Vec<u8>, AllocError>
    ensures { IfOk result (λ room. vec_len room ≡ len) }
{
    vec![in alloc; 0u8; len]
}

/// Reads the next bytes, at least one unless the input has ended. A read that is interrupted is
/// tried again.
fn read_piece<I: Read>(input: &mut I, room: &mut [u8]) -> Result<usize, Stop>
    ensures bound { IfOk result (λ n. n ≤ length room.new) }
    ensures bytes { Gave (I.remaining input.old) (I.remaining input.new) room.new result }
{
    for _ in 0..u64::MAX {
        match input.read(room) {
            Ok(len) => return Ok(len),
            Err(error) if error.kind() == io::ErrorKind::Interrupted => {}
            Err(error) => return Err(Stop::Input(error)),
        }
    }
    Err(Stop::Input(io::Error::from(io::ErrorKind::TimedOut)))
}

/// Asks what the lines of an input ask, and prints a line for each: the status of the first that
/// isn't a reply, or 0.
pub(crate) fn answer_input<I: Read, R: Replies + Drop, W: Requests + Drop, O: Write>(
    alloc: Global,
    server: &mut Option<(R, W)>,
    input: &mut I,
    output: &mut O,
) -> Result<u8, Stop>
    ensures { AnswersInput R.fails (I.remaining input.old) (I.remaining input.new)
        (ends_of R.remaining W.contents server.old)
        (O.contents output.old) (O.contents output.new) result }
{
    let mut room = room_of(alloc, PIECE)?;
    let mut lines = Lines {
        part: Vec::new(alloc),
        round: Round::new(alloc),
        status: DONE,
    };
    'reads: for _ in 0..u64::MAX {
        let len = read_piece(input, &mut room)?;
        if len == 0 {
            finish(alloc, server, &mut lines, output)?;
            return Ok(lines.status);
        }
        let (piece, _) = room.split_at(len);
        take_piece(alloc, server, &mut lines, output, piece)?;
    }
    Err(Stop::Input(io::Error::from(io::ErrorKind::TimedOut)))
}
