//! Messages out of a stream that comes in pieces.

ghost use Rattle.std.specs.Prelude.{◌≡◌, ◌⊎◌, ◌↔◌, true, false, [], IfNone, IfSome, IsTrue, OnOk, OnErr};
ghost use Rattle.wire_frames.specs.Messages.{IsPartial, OneDivision, EveryDivision};
ghost use Rattle.wire_frames.specs.Held.{fed};
ghost use Rattle.wire_frames.specs.Feed.{BeginsBulk, BeginsCount, HasMessage, IsFirst, Takes, WholeMapBeginsBulk};

use crate::requests::{Request, has_bulk_method, has_count_method, read_request};
use map_types::Refusal;
use std::alloc::{AllocError, Global};
use std::marker::Model;

/// What stands at the front of a stream.
#[derive(Drop)]
enum First<'a> {
    Partial,
    Refused,
    Whole(&'a [u8], &'a [u8]),
}

/// What stands at the front of the bytes: of a whole frame its body, and what follows it.
fn first_of(bytes: &[u8]) -> First<'_>
    ensures { IsFirst bytes.now result }
{
    if bytes.len() < 2 {
        return First::Partial;
    }
    let (head, rest) = bytes.split_at(2);
    let len = usize::from(u16::from_be_bytes([head[0], head[1]]));
    if len == 0 || len > 16384 {
        return First::Refused;
    }
    if rest.len() < len {
        return First::Partial;
    }
    let (body, after) = rest.split_at(len);
    First::Whole(body, after)
}

/// The messages of a stream that is fed to it in pieces.
///
/// Each byte is moved at most once for each byte that was taken, and it holds at most twice the
/// bytes that are left beside the last piece.
#[derive(Drop)]
pub struct Feeder {
    alloc: Global,
    held: Vec<u8>,
    start: usize,
    ended: bool,
}

impl Model for Feeder {
    ghost use Rattle.std.specs.Prelude.{◌≤◌, drop, vec_len};
    ghost use Rattle.wire_frames.specs.Held.{Feed};

    ghost Value = { Feed };

    ghost view = { λ f. record { left = drop f.start f.held.items; ended = f.ended } };

    ghost invariant = { λ f. f.start ≤ vec_len f.held };
}

impl Feeder {
    pub fn new(alloc: Global) -> Feeder
        ensures { result ≡ record { left = []; ended = false } }
    {
        Feeder {
            alloc,
            held: Vec::new(alloc),
            start: 0,
            ended: false,
        }
    }

    /// Drops what was taken, if it is at least as much as what is left.
    fn compact(&mut self)
        ensures { self.new ≡ self.old }
    {
        let left = self.held.len() - self.start;
        if left <= self.start {
            self.held.copy_within(self.start.., 0);
            self.held.truncate(left);
            self.start = 0;
        }
    }

    /// Takes the next piece of the stream. A piece after a refused length is left out.
    pub fn feed(&mut self, piece: &[u8]) -> Result<(), AllocError>
        ensures ok { OnOk result (self.new ≡ fed self.old piece.now) }
        ensures err { OnErr result (self.new ≡ self.old) }
    {
        if self.ended {
            return Ok(());
        }
        self.compact();
        self.held.extend_from_slice(piece)
    }

    /// Whether a message is in hand, so that `next` gives one. It takes nothing.
    pub fn has_message(&self) -> bool
        ensures some { result ≡ true → HasMessage self.now }
        ensures none { result ≡ false → (self.now.ended ≡ true) ⊎ IsPartial self.now.left }
    {
        if self.ended {
            return false;
        }
        match first_of(&self.held[self.start..]) {
            First::Partial => false,
            First::Refused | First::Whole(..) => true,
        }
    }

    /// Gives back room that what is left doesn't need; with nothing left it holds no memory. If no
    /// memory is found to hold less, it keeps what it has.
    pub fn trim(&mut self)
        ensures { self.new ≡ self.old }
    {
        let left = self.held.len() - self.start;
        if left == 0 {
            self.held = Vec::new(self.alloc);
            self.start = 0;
            return;
        }
        if self.held.capacity() / 2 <= left {
            return;
        }
        if let Ok(kept) = Vec::from_slice(self.alloc, &self.held[self.start..]) {
            self.held = kept;
            self.start = 0;
        }
    }

    /// Whether the next whole frame begins with the method of a request of the whole map. It takes
    /// nothing.
    pub fn begins_bulk(&self) -> bool
        ensures { IsTrue result ↔ BeginsBulk self.now }
    {
        if self.ended {
            return false;
        }
        match first_of(&self.held[self.start..]) {
            First::Partial | First::Refused => false,
            First::Whole(body, _) => has_bulk_method(body),
        }
    }

    /// Whether the next whole frame begins with the method of a count. It takes nothing.
    pub fn begins_count(&self) -> bool
        ensures { IsTrue result ↔ BeginsCount self.now }
    {
        if self.ended {
            return false;
        }
        if let First::Whole(body, _) = first_of(&self.held[self.start..]) {
            return has_count_method(body);
        }
        false
    }

    /// The next message, once a whole frame is there or a length is refused: a frame's request, or
    /// the refusal in its place. A refused length gives `BadFrame`, and then nothing more comes.
    pub fn next(&mut self) -> Option<Result<Request, Refusal>>
        ensures none { IfNone result
            ((self.new ≡ self.old) × ((self.old.ended ≡ true) ⊎ IsPartial self.old.left)) }
        ensures some { IfSome result (λ message. Takes self.old self.new message) }
    {
        if self.ended {
            return None;
        }
        match first_of(&self.held[self.start..]) {
            First::Partial => None,
            First::Refused => {
                self.ended = true;
                Some(Err(Refusal::BadFrame))
            }
            First::Whole(body, _) => {
                let message = read_request(self.alloc, body);
                self.start += 2 + body.len();
                Some(message)
            }
        }
    }
}

/// A request of the whole map is the message of a frame that begins with its method.
pub fn whole_map_begins_bulk()
    ensures { WholeMapBeginsBulk }
{}

/// A stream has one division into request frames and what stands behind them.
pub fn one_division()
    ensures { OneDivision }
{}

/// Each list of bytes has such a division.
pub fn every_division()
    ensures { EveryDivision }
{}
