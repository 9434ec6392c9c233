//! Whole calls of a pass that don't wait.
ghost use Rattle.std.specs.Prelude.{◌≡◌, ◌≤◌, ◌↔◌, ℕ, None, IfOk, IfErr, IsTrue};
ghost use Rattle.java_hash.specs.Stripes.{stripe_of};
ghost use Rattle.ticket_order.specs.Records.{reach};
ghost use Rattle.ticket_order.specs.StepRules.{Looks};
ghost use Rattle.ticket_order.specs.Calls.{MakesCall, MakesRead, RefusesRead, Releases, TurnsDown};
ghost use Rattle.stripe_locks.specs.Passes.{recorded, stripe_count, IsPassOf, IsSamePass};
ghost use Rattle.stripe_locks.specs.Holding.{answer_of, position_of, reply_of, IsHeldOf, StaysHeldOf};

use crate::board::Board;
use crate::held::{Held, Released};
use crate::rule::Pass;
use crate::stripes::Stripes;
use map_types::{Command, Read, Refusal};
use std::snapshot::Snapshot;
use ticket_order;
use ticket_order::Position;

impl Stripes {
    /// The stripes, lent to the pass for its next steps.
    pub fn at<'a>(&'a self, pass: &'a mut Pass) -> Board<'a>
        requires own { IsPassOf self.now pass.old }
        ensures stripes { result.stripes.now ≡ self.now }
        ensures pass { result.pass.now ≡ pass.old }
        ensures same_pass { result.pass.ghost_name ≡ pass.entry.ghost_name }
    {
        Board {
            stripes: self,
            pass,
        }
    }

    /// Makes a change, unless another pass holds the stripe of its key: TAKE, ALIVE, LOOK, TICKET,
    /// GIVE.
    pub fn try_call(&self, pass: &mut Pass, command: Command) -> Result<Held, Refusal>
        // The pass is of these stripes, and holds none.
        requires own { IsPassOf self.now pass.old }
        requires empty_handed { (recorded pass.old).holding ≡ None }

        // The record grows by this call alone, whose reply is held.
        ensures made { IfOk result (λ held.
            MakesCall (stripe_count self.now) (recorded pass.old) command (position_of held)
            (reply_of held) (recorded pass.new)) }
        ensures held { IfOk result (IsHeldOf self.now) }

        // Or it is refused, perhaps as busy or for a key above the limit, and no call is added.
        ensures refused { IfErr result (λ refusal.
            TurnsDown (stripe_count self.now) (recorded pass.old) command refusal
            (recorded pass.new)) }

        // It is the same pass, and holds no stripe again.
        ensures empty_handed { (recorded pass.new).holding ≡ None }
        ensures same { IsSamePass pass.old pass.new }
    {
        let mut board = Board {
            stripes: self,
            pass,
        };
        let held = ticket_order::try_call(&mut board, self.alloc, command)?;
        let maker = Snapshot::of(pass);
        Ok(Held { held, maker })
    }

    /// Makes a read, unless another pass holds the stripe of its key: TAKE, ALIVE, GIVE.
    pub fn try_read(&self, pass: &mut Pass, read: Read) -> Result<Held, Refusal>
        // The pass is of these stripes, and holds none.
        requires own { IsPassOf self.now pass.old }
        requires empty_handed { (recorded pass.old).holding ≡ None }

        // The record grows by this call alone, whose reply is held.
        ensures made { IfOk result (λ held.
            MakesRead (stripe_count self.now) (recorded pass.old) read (position_of held)
            (reply_of held) (recorded pass.new)) }
        ensures held { IfOk result (IsHeldOf self.now) }

        // Or it is refused, perhaps as busy, and no call is added.
        ensures refused { IfErr result (λ refusal.
            RefusesRead (recorded pass.old) (stripe_of (stripe_count self.now) read.key) refusal
            (recorded pass.new)) }

        // It is the same pass, and holds no stripe again.
        ensures empty_handed { (recorded pass.new).holding ≡ None }
        ensures same { IsSamePass pass.old pass.new }
    {
        let mut board = Board {
            stripes: self,
            pass,
        };
        let held = ticket_order::try_read(&mut board, read)?;
        let maker = Snapshot::of(pass);
        Ok(Held { held, maker })
    }

    /// The count of tickets, by a LOOK.
    pub fn look(&self, pass: &mut Pass) -> u64
        requires own { IsPassOf self.now pass.old }
        ensures step { Looks (recorded pass.old) result (recorded pass.new) }
        ensures same { IsSamePass pass.old pass.new }
    {
        self.look_at_count(pass)
    }

    /// Makes one LOOK, and says whether it reached the position. If it did, the pass has seen the
    /// position from then on.
    pub fn learn(&self, pass: &mut Pass, position: Position) -> bool
        requires own { IsPassOf self.now pass.old }
        ensures step { (count : ℕ) × Looks (recorded pass.old) count (recorded pass.new) }
        ensures learned { IsTrue result ↔ (position ≤ reach (recorded pass.new)) }
        ensures same { IsSamePass pass.old pass.new }
    {
        position.number() <= self.look_at_count(pass)
    }

    fn release_on(&self, pass: &mut Pass, held: ticket_order::Held) -> ticket_order::Released
        requires own { IsPassOf self.now pass.old }
        ensures released { Releases held.position held.reply (recorded pass.old) result
            (recorded pass.new) }
        ensures same { IsSamePass pass.old pass.new }
    {
        let mut board = Board {
            stripes: self,
            pass,
        };
        ticket_order::release(&mut board, held)
    }

    /// Gives the reply out if its position is durable. It takes no memory and doesn't wait.
    pub fn release(&self, pass: &mut Pass, held: Held) -> Released
        requires own { IsPassOf self.now pass.old }
        requires held { IsHeldOf self.now held }
        ensures released { Releases (position_of held) (reply_of held) (recorded pass.old)
            (answer_of result) (recorded pass.new) }
        ensures held { StaysHeldOf self.now result }
        ensures same { IsSamePass pass.old pass.new }
    {
        let Held { held, maker } = held;
        match self.release_on(pass, held) {
            ticket_order::Released::Reply(position, reply) => Released::Reply(position, reply),
            ticket_order::Released::NotYet(held) => Released::NotYet(Held { held, maker }),
            ticket_order::Released::Failed => Released::Failed,
        }
    }
}
