//! Rows and buffers that are lent to a connection, and connections that rest.
use crate::steps::{State, Step, Who, assert_steps};

/// Without a row nothing is begun. A row that holds calls is not given, nor left for another.
static ROWS: [(Who, Step); 18] = [
    (Who::One, Step::GiveRow(false)),
    (Who::One, Step::Is(State::Ready(false))),
    (Who::One, Step::Receive(1, 2)),
    (Who::One, Step::Begin(0)),
    (Who::One, Step::Is(State::Idle(true))),
    (Who::One, Step::Is(State::Ready(true))),
    (Who::One, Step::LendRow(true)),
    (Who::One, Step::LendRow(false)),
    (Who::One, Step::Begin(2)),
    (Who::One, Step::Is(State::Ready(false))),
    (Who::One, Step::GiveRow(false)),
    (Who::One, Step::LendRow(false)),
    (Who::One, Step::Settle(2)),
    (Who::One, Step::Answer(true)),
    (Who::One, Step::SendAll),
    (Who::One, Step::Is(State::Sent(1, 2))),
    (Who::One, Step::GiveRow(true)),
    (Who::One, Step::GiveRow(false)),
];

#[test]
fn rows_that_are_lent(rt: HostRuntime) {
    assert_steps(&rt, rt.alloc(), &ROWS);
}

/// What is unsent stays when the buffer is given back, and no other takes its place.
static BUFFERS: [(Who, Step); 19] = [
    (Who::One, Step::Settle(u64::MAX)),
    (Who::One, Step::LendRow(true)),
    (Who::One, Step::Receive(1, 2)),
    (Who::One, Step::Begin(2)),
    (Who::One, Step::GiveBuffer(false)),
    (Who::One, Step::LendBuffer(true)),
    (Who::One, Step::LendBuffer(false)),
    (Who::One, Step::Answer(true)),
    (Who::One, Step::Send(5)),
    (Who::One, Step::GiveBuffer(true)),
    (Who::One, Step::GiveBuffer(false)),
    (Who::One, Step::Is(State::Unsent(1, 2, 5))),
    (Who::One, Step::LendBuffer(false)),
    (Who::One, Step::Trim),
    (Who::One, Step::Is(State::Unsent(1, 2, 5))),
    (Who::One, Step::Send(19)),
    (Who::One, Step::Trim),
    (Who::One, Step::Is(State::Unsent(1, 2, 24))),
    (Who::One, Step::LendBuffer(true)),
];

#[test]
fn buffers_that_are_lent(rt: HostRuntime) {
    assert_steps(&rt, rt.alloc(), &BUFFERS);
}

/// A connection rests only if none of its calls is held.
static RESTS: [(Who, Step); 16] = [
    (Who::One, Step::Receive(7, 1)),
    (Who::One, Step::ReceiveCount),
    (Who::One, Step::Trim),
    (Who::One, Step::Rest(true)),
    (Who::One, Step::Is(State::Ready(true))),
    (Who::One, Step::Is(State::WholeMap(false))),
    (Who::One, Step::LendRow(true)),
    (Who::One, Step::Begin(1)),
    (Who::One, Step::Rest(false)),
    (Who::One, Step::Settle(1)),
    (Who::One, Step::Answer(true)),
    (Who::One, Step::SendAll),
    (Who::One, Step::Is(State::Sent(7, 1))),
    (Who::One, Step::Rest(true)),
    (Who::One, Step::Is(State::Ready(true))),
    (Who::One, Step::Is(State::WholeMap(true))),
];

#[test]
fn connections_that_rest(rt: HostRuntime) {
    assert_steps(&rt, rt.alloc(), &RESTS);
}
