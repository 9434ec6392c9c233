//! That all passes see one history.
ghost use Rattle.std.specs.Prelude.{◌≡◌, None, true};
ghost use Rattle.std.specs.List.{All};
ghost use Rattle.stripe_locks.specs.Passes.{recorded, IsPassOf, IsSamePass};
ghost use Rattle.stripe_locks.specs.Rule.{BearsOut};
ghost use Rattle.stripe_locks.specs.Fronts.{AreComparable, StandsInOneHistory, both_fronts, no_front, compared, attested};

use crate::rule::Pass;
use crate::stripes::{Stripes, TICKETS};
use crate::view::SeatView;
use atomic_table::{Join, Play};
use ticket_order::Stripe;

/// Two seats become one, which keeps what both have seen.
pub struct Meet;

impl Join<SeatView> for Meet {
    ghost both = { both_fronts };

    ghost spent = { no_front };
}

/// What both had seen are two fronts of one history.
pub struct Compare;

impl Play<Option<Stripe>, SeatView> for Compare {
    ghost then = { compared };
}

/// The record is one of the one history.
pub struct Attest;

impl Play<Option<Stripe>, SeatView> for Attest {
    ghost then = { attested };
}

impl Stripes {
    /// A law: between any two steps there is one history of all passes, and the record of this one
    /// is in it. All steps have one order, in which each finds what those before it left in its
    /// word. A `Busy` came of a stripe that another held then. A reply goes out at a count that was
    /// durable then, and a refusal for failure behind a FAIL. The call is no step of the pass.
    pub fn stands_in_one_history(&self, pass: &mut Pass)
        requires own { IsPassOf self.now pass.old }
        ensures stands { StandsInOneHistory (recorded pass.old) }
        ensures unchanged { recorded pass.new ≡ recorded pass.old }
        ensures same { IsSamePass pass.old pass.new }
    {
        self.table.shared.load::<Attest>(&mut pass.seat, TICKETS);
    }

    /// A law: of any two passes, what one has seen of the history goes on from what the other has
    /// seen. If the other is the keeper's, no SEE of the one found more than the keeper has
    /// published, and none of its ALIVEs says no but behind the keeper's FAIL. Both are spent by
    /// it; since what a pass has seen only grows, it held of them before.
    pub fn have_seen_one_history(&self, one: Pass, other: Pass)
        requires one { IsPassOf self.now one }
        requires other { IsPassOf self.now other }
        requires empty_handed { (recorded other).holding ≡ None }
        ensures fronts { AreComparable (recorded one).seen (recorded other).seen }
        ensures borne_out { (recorded other).keeper ≡ true
            → All (BearsOut (recorded other).published (recorded other).failed)
            (recorded one).steps }
    {
        let Pass { mut seat, .. } = one;
        let Pass { seat: spent, .. } = other;
        let words = &self.table.shared;
        words.join_seat::<Meet>(&mut seat, spent);
        words.load::<Compare>(&mut seat, TICKETS);
    }
}
