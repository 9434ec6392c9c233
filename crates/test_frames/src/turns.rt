//! Turns of connections that share their calls, as an event loop takes them.
use crate::checks::assert_same;
use crate::numbered::Numbered;
use crate::steps::{Peer, State, Step, Who, assert_steps};
use std::alloc::{AllocError, Global};

/// Each connection gets its own replies in order, as far as they need no wait, and the number that
/// it waits for is that of its own call.
static INTERLEAVED: [(Who, Step); 29] = [
    (Who::One, Step::LendRow(true)),
    (Who::One, Step::Receive(1, 3)),
    (Who::One, Step::Begin(3)),
    (Who::Other, Step::LendRow(true)),
    (Who::Other, Step::Receive(101, 2)),
    (Who::Other, Step::Begin(2)),
    (Who::One, Step::Settle(2)),
    (Who::One, Step::Is(State::Answerable(true))),
    (Who::Other, Step::Is(State::Answerable(false))),
    (Who::One, Step::Answer(false)),
    (Who::One, Step::SendAll),
    (Who::Other, Step::Answer(false)),
    (Who::Other, Step::SendAll),
    (Who::One, Step::Is(State::Sent(1, 2))),
    (Who::Other, Step::Is(State::Sent(101, 0))),
    (Who::One, Step::Is(State::Waiting(Some(3)))),
    (Who::Other, Step::Is(State::Waiting(Some(4)))),
    (Who::One, Step::Settle(4)),
    (Who::Other, Step::Answer(false)),
    (Who::Other, Step::SendAll),
    (Who::One, Step::Answer(true)),
    (Who::One, Step::SendAll),
    (Who::One, Step::Settle(5)),
    (Who::Other, Step::Answer(true)),
    (Who::Other, Step::SendAll),
    (Who::One, Step::Is(State::Sent(1, 3))),
    (Who::Other, Step::Is(State::Sent(101, 2))),
    (Who::One, Step::Is(State::GivenUp(&[]))),
    (Who::One, Step::Is(State::Waiting(None))),
];

#[test]
fn turns_that_interleave(rt: HostRuntime) {
    assert_steps(&rt, rt.alloc(), &INTERLEAVED);
}

/// A connection that is reset gives up its own calls, once, and those of another go on.
static RESET: [(Who, Step); 28] = [
    (Who::One, Step::LendRow(true)),
    (Who::One, Step::Receive(1, 2)),
    (Who::One, Step::Begin(2)),
    (Who::Third, Step::LendRow(true)),
    (Who::Third, Step::Receive(51, 3)),
    (Who::Third, Step::Begin(3)),
    (Who::Other, Step::LendRow(true)),
    (Who::Other, Step::Receive(101, 2)),
    (Who::Other, Step::Begin(2)),
    (Who::Third, Step::Settle(3)),
    (Who::Third, Step::Answer(false)),
    (Who::Third, Step::SendAll),
    (Who::Third, Step::GiveUp),
    (Who::Third, Step::Is(State::GivenUp(&[4, 5]))),
    (Who::Third, Step::Begin(0)),
    (Who::Third, Step::GiveUp),
    (Who::Third, Step::Is(State::Idle(true))),
    (Who::Third, Step::Is(State::Ready(false))),
    (Who::Third, Step::Is(State::GivenUp(&[4, 5]))),
    (Who::One, Step::Settle(7)),
    (Who::One, Step::Answer(true)),
    (Who::One, Step::SendAll),
    (Who::Other, Step::Answer(true)),
    (Who::Other, Step::SendAll),
    (Who::One, Step::Is(State::Sent(1, 2))),
    (Who::Third, Step::Is(State::Sent(51, 1))),
    (Who::Other, Step::Is(State::Sent(101, 2))),
    (Who::One, Step::Is(State::GivenUp(&[4, 5]))),
];

#[test]
fn a_reset_between_two_turns(rt: HostRuntime) {
    assert_steps(&rt, rt.alloc(), &RESET);
}

/// A turn has at most 64 calls.
static FULL: [(Who, Step); 47] = [
    (Who::One, Step::Settle(u64::MAX)),
    (Who::One, Step::LendRow(true)),
    (Who::One, Step::Receive(0, 1)),
    (Who::One, Step::Begin(1)),
    (Who::One, Step::Is(State::Idle(false))),
    (Who::One, Step::Answer(true)),
    (Who::One, Step::SendAll),
    (Who::One, Step::Begin(0)),
    (Who::One, Step::Receive(0, 64)),
    (Who::One, Step::Begin(64)),
    (Who::One, Step::Is(State::Idle(false))),
    (Who::One, Step::Answer(true)),
    (Who::One, Step::SendAll),
    (Who::One, Step::Begin(0)),
    (Who::One, Step::Is(State::Idle(true))),
    (Who::Other, Step::LendRow(true)),
    (Who::Other, Step::Receive(0, 65)),
    (Who::Other, Step::Begin(64)),
    (Who::Other, Step::Is(State::Idle(false))),
    (Who::Other, Step::Answer(true)),
    (Who::Other, Step::SendAll),
    (Who::Other, Step::Begin(1)),
    (Who::Other, Step::Is(State::Idle(false))),
    (Who::Other, Step::Answer(true)),
    (Who::Other, Step::SendAll),
    (Who::Other, Step::Begin(0)),
    (Who::Other, Step::Is(State::Idle(true))),
    (Who::Third, Step::LendRow(true)),
    (Who::Third, Step::Receive(0, 200)),
    (Who::Third, Step::Begin(64)),
    (Who::Third, Step::Is(State::Idle(false))),
    (Who::Third, Step::Answer(true)),
    (Who::Third, Step::SendAll),
    (Who::Third, Step::Begin(64)),
    (Who::Third, Step::Is(State::Idle(false))),
    (Who::Third, Step::Answer(true)),
    (Who::Third, Step::SendAll),
    (Who::Third, Step::Begin(64)),
    (Who::Third, Step::Is(State::Idle(false))),
    (Who::Third, Step::Answer(true)),
    (Who::Third, Step::SendAll),
    (Who::Third, Step::Begin(8)),
    (Who::Third, Step::Is(State::Idle(false))),
    (Who::Third, Step::Answer(true)),
    (Who::Third, Step::SendAll),
    (Who::Third, Step::Begin(0)),
    (Who::Third, Step::Is(State::Idle(true))),
];

#[test]
fn a_turn_has_at_most_64_calls(rt: HostRuntime) {
    assert_steps(&rt, rt.alloc(), &FULL);
}

/// Serves requests that end a piece behind each byte whose bit in `cuts` is 1, the first byte's
/// lowest. Whether the connection rests between them.
fn serve_cut(
    alloc: Global,
    peer: &mut Peer,
    requests: &[u8],
    cuts: u64,
) -> Result<bool, AllocError> {
    let mut calls = Numbered::new(alloc);
    calls.settled = u64::MAX;
    let mut start = 0;
    let mut bits = cuts;
    for at in 0..requests.len() {
        let is_cut = bits & 1 == 1;
        bits >>= 1;
        if is_cut || at == requests.len() - 1 {
            let piece = requests.get(start..at + 1).unwrap_or(requests);
            if !peer.serve_piece(alloc, &mut calls, piece)? {
                return Ok(false);
            }
            start = at + 1;
        }
    }
    Ok(true)
}

/// Whether these requests are answered with these replies, if they come in such pieces.
fn is_replied_if_cut(
    alloc: Global,
    requests: &[u8],
    replies: &[u8],
    cuts: u64,
) -> Result<bool, AllocError> {
    let mut peer = Peer::new(alloc);
    let rests = serve_cut(alloc, &mut peer, requests, cuts)?;
    Ok(rests && peer.sent.as_slice() == replies)
}

/// A put, and behind it a refused length.
const PUT_REFUSED: &[u8] = b"\x00\x0D\x10\x00\x01a\x01\x00\x00\x00\x00\x00\x00\x00\x05\x00\x00";

const PUT_REFUSED_REPLIES: &[u8] =
    b"\x00\x0A\x00\x01\x00\x00\x00\x00\x00\x00\x00\x05\x00\x02\x86\x00";

/// The first cutting of these requests that is replied to otherwise, if any.
fn first_wrong_cutting(alloc: Global) -> Result<Option<u64>, AllocError> {
    for cuts in 0..1u64 << 16 {
        if !is_replied_if_cut(alloc, PUT_REFUSED, PUT_REFUSED_REPLIES, cuts)? {
            return Ok(Some(cuts));
        }
    }
    Ok(None)
}

#[test]
fn turns_in_every_cutting(rt: HostRuntime) {
    assert_same(&rt, &first_wrong_cutting(rt.alloc()), &Ok(None));
}
