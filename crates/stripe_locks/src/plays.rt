//! What each step on the words tells its pass.
ghost use Rattle.map_types.specs.declared.commands.Command.{Command};
ghost use Rattle.ticket_order.specs.declared.record.Purpose.{Purpose};
ghost use Rattle.stripe_locks.specs.Plays.{sat, enrolled, took, gave, drew, looked, published, saw, failed, lived};

use crate::view::SeatView;
use atomic_table::Play;
use std::marker::{Brand, PhantomData};
use ticket_order::Stripe;

/// Which change draws the ticket. The call picks it.
pub trait Asks {
    ghost change: { Command };
}

impl Asks for Brand {
    ghost use Rattle.std.specs.Prelude.{[]};
    ghost use Rattle.map_types.specs.declared.commands.Change.TheVariants.{Remove};

    ghost change = { record { key = []; change = Remove } };
}

/// What a stripe is given back for. The call picks it.
pub trait Gives {
    ghost purpose: { Purpose };
}

impl Gives for Brand {
    ghost use Rattle.ticket_order.specs.declared.record.Purpose.TheVariants.{Nothing};

    ghost purpose = { Nothing };
}

/// A new seat, which no pass has yet.
pub struct Sit;

impl Play<Option<Stripe>, SeatView> for Sit {
    ghost then = { sat };
}

/// The seat becomes that of a pass.
pub struct Enroll;

impl Play<Option<Stripe>, SeatView> for Enroll {
    ghost then = { enrolled };
}

pub struct Take;

impl Play<Option<Stripe>, SeatView> for Take {
    ghost then = { took };
}

pub struct Give<G> {
    purpose: PhantomData<G>,
}

impl<G: Gives> Play<Option<Stripe>, SeatView> for Give<G> {
    ghost then = { gave G.purpose };
}

pub struct Draw<C> {
    change: PhantomData<C>,
}

impl<C: Asks> Play<Option<Stripe>, SeatView> for Draw<C> {
    ghost then = { drew C.change };
}

pub struct Look;

impl Play<Option<Stripe>, SeatView> for Look {
    ghost then = { looked };
}

pub struct Publish;

impl Play<Option<Stripe>, SeatView> for Publish {
    ghost then = { published };
}

pub struct See;

impl Play<Option<Stripe>, SeatView> for See {
    ghost then = { saw };
}

pub struct Fail;

impl Play<Option<Stripe>, SeatView> for Fail {
    ghost then = { failed };
}

pub struct Alive;

impl Play<Option<Stripe>, SeatView> for Alive {
    ghost then = { lived };
}
