//! Replies that are held over the stripes on which their calls were made.
ghost use Rattle.std.specs.Prelude.{◌≡◌};
ghost use Rattle.ticket_order.specs.Sizes.{text_bytes};
ghost use Rattle.stripe_locks.specs.Holding.{position_of, reply_of};

use crate::rule::Pass;
use map_types::Reply;
use std::snapshot::Snapshot;
use ticket_order;
use ticket_order::Position;

/// A reply whose position may not be durable yet. It can't be looked at: a release over the stripes on
/// which its call was made gives it out, or it is given up.
#[derive(Drop)]
pub struct Held {
    pub(crate) held: ticket_order::Held,
    // The pass that made the call, as it was when the call had been made. Contracts alone read it.
    pub(crate) maker: Snapshot<Pass>,
}

impl Held {
    pub fn position(&self) -> Position
        ensures { result ≡ position_of self.now }
    {
        self.held.position()
    }

    /// How many bytes the text has that the reply has, or 0 if it has none.
    pub fn text_bytes(&self) -> usize
        ensures { result ≡ text_bytes (reply_of self.now) }
    {
        self.held.text_bytes()
    }

    /// Gives the reply up. The change, if it was one, was made all the same.
    pub fn give_up(self) {}
}

/// What a release returns.
#[derive(Drop)]
pub enum Released {
    /// The position, which is durable, and the reply.
    Reply(Position, Reply),
    /// The position isn't durable yet.
    NotYet(Held),
    /// The store has failed, and the position will not become durable in this life.
    Failed,
}
