//! Tickets and positions, by their numbers.
use crate::checks::assert_same;
use ticket_order::{Position, Ticket};

#[test]
fn positions_follow_tickets(rt: HostRuntime) {
    let numbers = [
        Ticket::new(0).position().number(),
        Ticket::new(41).number(),
        Position::new(7).number(),
    ];
    assert_same(&rt, &numbers, &[1, 41, 7]);
}
