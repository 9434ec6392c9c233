//! Requests that are sent together, and their replies.
ghost use Rattle.std.specs.Prelude.{◌≡◌, ◌⊎◌, [], ◌∷◌, ◌++◌, IfOk, OnErr, OnOk, string_bytes};
ghost use Rattle.cmd_call.specs.Lines.{Answers, BreaksOff};
ghost use Rattle.cmd_call.specs.Lines.{asked_frame, asked_frames, asked_in, ends_of};
ghost use Rattle.cmd_call.specs.declared.rounds.Stop.TheVariants.{NoMemory};
ghost use Rattle.cmd_call.specs.Rounds.{Comes, Receives, Sends, TellsRound};

use crate::lines::{BadLine, asked_in};
use crate::outcomes::{Outcome, first_of, put_line, status_of};
use crate::servers::{Replies, Requests};
use std::alloc::{AllocError, AllocFailed, Global};
use std::io;
use std::io::Write;
use wire_frames::{ReplyError, Request, request_frame, write_whole};

/// The most lines that are asked together.
pub(crate) const MOST_ASKED: usize = 64;

/// Why lines aren't read on.
#[derive(Clone, Copy)]
pub enum Stop {
    /// No memory was found.
    NoMemory,
    /// The input failed.
    Input(io::Error),
    /// The output failed.
    Output(io::Error),
}

impl From<AllocError> for Stop {
    ghost from_gives = { λ _ stop. stop ≡ NoMemory };

    fn from(_error: AllocError) -> Stop {
        Stop::NoMemory
    }
}

impl<T: Drop> From<AllocFailed<T>> for Stop {
    ghost from_gives = { λ _ stop. stop ≡ NoMemory };

    fn from(_error: AllocFailed<T>) -> Stop {
        Stop::NoMemory
    }
}

/// Lines that were read, and nothing came of them yet.
#[derive(Drop)]
pub(crate) struct Round {
    /// What each line asks.
    pub asked: Vec<Result<Request, BadLine>>,
    /// The frames of the requests, one behind another.
    pub frames: Vec<u8>,
}

impl Round {
    /// No lines.
    pub fn new(alloc: Global) -> Round
        ensures asked { result.asked.items ≡ [] }
        ensures frames { result.frames.items ≡ [] }
    {
        Round {
            asked: Vec::new(alloc),
            frames: Vec::new(alloc),
        }
    }

    /// Takes a line in.
    pub fn add(&mut self, alloc: Global, line: &[u8]) -> Result<(), Stop>
        ensures asked { OnOk result
            (self.new.asked.items ≡ self.old.asked.items ++ asked_in line.now ∷ []) }
        ensures frames { OnOk result
            (self.new.frames.items ≡ self.old.frames.items ++ asked_frame (asked_in line.now)) }
    {
        let asked = asked_in(alloc, line)?;
        if let Ok(request) = &asked {
            let Ok(frame) = request_frame(alloc, request) else {
                return Err(Stop::NoMemory);
            };
            self.frames.extend_from_slice(&frame)?;
        }
        self.asked.push(asked)?;
        Ok(())
    }
}

/// Sends the frames. If not all of them can be written, the connection is given up.
fn send<R: Replies + Drop, W: Requests + Drop>(server: &mut Option<(R, W)>, frames: &[u8])
    ensures { Sends (ends_of R.remaining W.contents server.old)
        (ends_of R.remaining W.contents server.new) frames.now }
{
    if let Some((_, writer)) = server {
        writer.begin();
        if write_whole(writer, frames).is_err() {
            *server = None;
        }
    }
}

/// Reads the next reply. If no whole one comes, the connection is given up.
fn receive<R: Replies + Drop, W: Requests + Drop>(
    alloc: Global,
    server: &mut Option<(R, W)>,
) -> Result<Outcome, Stop>
    ensures { IfOk result (λ outcome. Receives R.fails (ends_of R.remaining W.contents server.old)
        (ends_of R.remaining W.contents server.new) outcome) }
{
    let Some((reader, _)) = server else {
        return Ok(Outcome::NoReply);
    };
    match reader.next_reply(alloc) {
        Ok(answer) => Ok(Outcome::Answered(answer)),
        Err(ReplyError::NoMemory) => Err(Stop::NoMemory),
        Err(_) => {
            *server = None;
            Ok(Outcome::NoReply)
        }
    }
}

/// What comes of a line.
fn outcome_of<R: Replies + Drop, W: Requests + Drop>(
    alloc: Global,
    server: &mut Option<(R, W)>,
    asked: &Result<Request, BadLine>,
) -> Result<Outcome, Stop>
    ensures { IfOk result (λ outcome. Comes R.fails (ends_of R.remaining W.contents server.old)
        (ends_of R.remaining W.contents server.new) asked.now outcome) }
{
    match asked {
        Ok(_) => receive(alloc, server),
        Err(fault) => Ok(Outcome::Misused(*fault)),
    }
}

/// Puts a line for each of these at the end of the text, and goes on with the status.
fn tell_round<R: Replies + Drop, W: Requests + Drop>(
    alloc: Global,
    server: &mut Option<(R, W)>,
    asked: &[Result<Request, BadLine>],
    text: &mut String,
    status: &mut u8,
) -> Result<(), Stop>
    ensures { OnOk result (TellsRound R.fails (ends_of R.remaining W.contents server.old)
        (ends_of R.remaining W.contents server.new)
        (string_bytes text.old) (string_bytes text.new) asked.now status.old status.new) }
{
    for line in asked {
        let outcome = outcome_of(alloc, server, line)?;
        put_line(alloc, &outcome, text)?;
        *status = first_of(*status, status_of(&outcome));
    }
    Ok(())
}

/// Asks what the lines of a round ask, and prints what comes of them. The round is empty then.
pub(crate) fn answer_round<R: Replies + Drop, W: Requests + Drop, O: Write>(
    alloc: Global,
    server: &mut Option<(R, W)>,
    round: &mut Round,
    status: &mut u8,
    output: &mut O,
) -> Result<(), Stop>
    // The frames are those of what is asked.
    requires { round.old.frames.items ≡ asked_frames round.old.asked.items }

    // What came of the lines was printed, and the round is empty.
    ensures answers { OnOk result (Answers R.fails (ends_of R.remaining W.contents server.old)
        (ends_of R.remaining W.contents server.new) (O.contents output.old) (O.contents output.new)
        round.old.asked.items status.old status.new) }
    ensures asked { OnOk result (round.new.asked.items ≡ []) }
    ensures frames { OnOk result (round.new.frames.items ≡ []) }

    // Or nothing was printed, or a beginning of it.
    ensures breaks { OnErr result
        ((O.contents output.new ≡ O.contents output.old)
        ⊎ BreaksOff R.fails (ends_of R.remaining W.contents server.old) (O.contents output.old)
        (O.contents output.new) round.old.asked.items) }
{
    send(server, &round.frames);
    let mut text = String::new(alloc);
    tell_round(alloc, server, &round.asked, &mut text, status)?;
    if let Err(cause) = write_whole(output, text.as_bytes()) {
        return Err(Stop::Output(cause));
    }
    round.asked.clear();
    round.frames.clear();
    Ok(())
}
