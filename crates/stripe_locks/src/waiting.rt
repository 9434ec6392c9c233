//! Whole calls of a pass that wait for their stripe.
ghost use Rattle.std.specs.Prelude.{◌≡◌, ◌<◌, None, IfOk, IfErr};
ghost use Rattle.ticket_order.specs.declared.record.Record.{Record};
ghost use Rattle.ticket_order.specs.Records.{IsWithin, past};
ghost use Rattle.ticket_order.specs.StepRules.{Rises, TakesStripe};
ghost use Rattle.ticket_order.specs.Calls.{HasFound, IsNotBusy, MakesCall, MakesRead, ReadsAt, RefusesChange, RefusesRead};
ghost use Rattle.java_hash.specs.Hash.{hash_of, spread_of};
ghost use Rattle.java_hash.specs.Stripes.{stripe_of};
ghost use Rattle.stripe_locks.specs.Passes.{recorded, stripe_count, IsPassOf, IsSamePass};
ghost use Rattle.stripe_locks.specs.Holding.{position_of, reply_of, IsHeldOf};
ghost use Rattle.stripe_locks.specs.Waits.{TakesInTime, MakesCallInTime, MakesReadInTime, RefusesReadInTime, TurnsDownInTime};

use crate::board::Board;
use crate::held::Held;
use crate::rule::Pass;
use crate::stripes::{FIRST_STRIPE, Stripes, WORDS_APART};
use crossbeam_utils::Backoff;
use java_hash::{spread_of, stripe_of_spread};
use map_types::{Command, Read, Refusal};
use std::snapshot::Snapshot;
use std::sync::Wait;
use std::sync::atomic::Ordering;
use ticket_order;
use ticket_order::Stripe;

/// How often a waiting thread looks at a stripe's word before it sleeps.
const MOST_LOOKS: u32 = 16;

impl Stripes {
    /// Returns when the stripe was seen free, or after a sleep. Whoever gives a stripe back wakes
    /// all who sleep for it, if anybody sleeps at all.
    fn wait_for<R: Wait>(&self, rt: &R, stripe: usize)
        requires { stripe < stripe_count self.now }
    {
        let words = &self.table.shared;
        let word = stripe * WORDS_APART + FIRST_STRIPE;
        let backoff = Backoff::new();
        for _look in 0..MOST_LOOKS {
            if words.peek(word) == 0 {
                return;
            }
            backoff.snooze();
        }
        self.sleepers.fetch_add(1, Ordering::SeqCst);
        let holder = words.peek(word);
        if holder != 0 {
            words.park(rt, word, (holder % (1 << 32)) as u32);
        }
        self.sleepers.fetch_sub(1, Ordering::SeqCst);
    }

    fn take_in_time<R: Wait>(&self, rt: &R, pass: &mut Pass, stripe: usize) -> Stripe
        requires own { IsPassOf self.now pass.old }
        requires within { stripe < stripe_count self.now }
        requires empty_handed { (recorded pass.old).holding ≡ None }
        ensures step { TakesInTime (stripe_count self.now) (recorded pass.old) stripe result
            (recorded pass.new) }
        ensures same { IsSamePass pass.old pass.new }
    {
        for _try in rt.forever() {
            match self.take(pass, stripe) {
                Some(content) => return content,
                None => self.wait_for(rt, stripe),
            }
        }
        unreachable!()
    }

    fn call_on(
        &self,
        pass: &mut Pass,
        command: Command,
        spread: u32,
        content: Stripe,
    ) -> Result<Held, Refusal>
        // The pass has taken the stripe of the key, with this content. The key is within the limit.
        requires own { IsPassOf self.now pass.old }
        requires spread { spread ≡ spread_of (hash_of command.key) }
        requires within { IsWithin (recorded pass.old).opening.key_limit command }
        requires found { (b : Record) × HasFound b (stripe_of (stripe_count self.now) command.key)
            content (recorded pass.old) }

        // The record grows by this call; or it is refused, but not as busy. `Failed` tells what the
        // TAKE showed.
        ensures made { (b : Record) → HasFound b (stripe_of (stripe_count self.now) command.key)
            content (recorded pass.old)
            → IfOk result (λ held.
            MakesCall (stripe_count self.now) b command (position_of held) (reply_of held)
            (recorded pass.new)) }
        ensures refused { (b : Record) → HasFound b (stripe_of (stripe_count self.now) command.key)
            content (recorded pass.old)
            → IfErr result (λ refusal.
            (refusal ≡ Refusal.Failed → Rises b (past content.outbox.items) (recorded pass.old))
            → RefusesChange b (stripe_of (stripe_count self.now) command.key) refusal
            (recorded pass.new)) }
        ensures held { IfOk result (IsHeldOf self.now) }
        ensures not_busy { IfErr result IsNotBusy }

        // It is the same pass.
        ensures same { IsSamePass pass.old pass.new }
    {
        let mut board = Board {
            stripes: self,
            pass,
        };
        let held = ticket_order::call_on(&mut board, self.alloc, command, spread, content)?;
        let maker = Snapshot::of(pass);
        Ok(Held { held, maker })
    }

    fn read_on(
        &self,
        pass: &mut Pass,
        read: Read,
        spread: u32,
        content: Stripe,
    ) -> Result<Held, Refusal>
        // The pass has taken the stripe of the key, with this content.
        requires own { IsPassOf self.now pass.old }
        requires spread { spread ≡ spread_of (hash_of read.key) }
        requires found { (b : Record) × HasFound b (stripe_of (stripe_count self.now) read.key)
            content (recorded pass.old) }

        // The record grows by this call; or it is refused, but not as busy.
        ensures answered { (b : Record) → HasFound b (stripe_of (stripe_count self.now) read.key)
            content (recorded pass.old)
            → IfOk result (λ held.
            ReadsAt (stripe_count self.now) b read (position_of held) (reply_of held)
            (recorded pass.new)) }
        ensures made { (b : Record) → TakesStripe (stripe_count self.now) b
            (stripe_of (stripe_count self.now) read.key) content (recorded pass.old)
            → IfOk result (λ held.
            MakesRead (stripe_count self.now) b read (position_of held) (reply_of held)
            (recorded pass.new)) }
        ensures refused { (b : Record) → TakesStripe (stripe_count self.now) b
            (stripe_of (stripe_count self.now) read.key) content (recorded pass.old)
            → IfErr result (λ refusal.
            RefusesRead b (stripe_of (stripe_count self.now) read.key) refusal
            (recorded pass.new)) }
        ensures held { IfOk result (IsHeldOf self.now) }
        ensures not_busy { IfErr result IsNotBusy }

        // It is the same pass.
        ensures same { IsSamePass pass.old pass.new }
    {
        let mut board = Board {
            stripes: self,
            pass,
        };
        let held = ticket_order::read_on(&mut board, read, spread, content)?;
        let maker = Snapshot::of(pass);
        Ok(Held { held, maker })
    }

    /// Makes a change, once the stripe of its key is free: TAKE as often as it takes, ALIVE, LOOK,
    /// TICKET, GIVE. A thread that waits sleeps after some tries. It is refused with `KeyTooLong`
    /// before its TAKE if the key is above the limit.
    pub fn call<R: Wait>(&self, rt: &R, pass: &mut Pass, command: Command) -> Result<Held, Refusal>
        // The pass is of these stripes, and holds none.
        requires own { IsPassOf self.now pass.old }
        requires empty_handed { (recorded pass.old).holding ≡ None }

        // After a wait the record grows by this call, whose reply is held.
        ensures made { IfOk result (λ held.
            MakesCallInTime (stripe_count self.now) (recorded pass.old) command (position_of held)
            (reply_of held) (recorded pass.new)) }
        ensures held { IfOk result (IsHeldOf self.now) }

        // Or it is refused for a key above the limit, or after a wait, but not as busy.
        ensures refused { IfErr result (λ refusal.
            TurnsDownInTime (stripe_count self.now) (recorded pass.old) command refusal
            (recorded pass.new)) }

        // It is the same pass, and holds no stripe again.
        ensures empty_handed { (recorded pass.new).holding ≡ None }
        ensures same { IsSamePass pass.old pass.new }
    {
        if command.key.is_above(pass.key_limit) {
            drop(command);
            return Err(Refusal::KeyTooLong);
        }
        let spread = spread_of(command.key.as_str());
        let stripe = stripe_of_spread(spread, self.count);
        let content = self.take_in_time(rt, pass, stripe);
        self.call_on(pass, command, spread, content)
    }

    /// Makes a read, once the stripe of its key is free: TAKE as often as it takes, ALIVE, GIVE.
    pub fn read<R: Wait>(&self, rt: &R, pass: &mut Pass, read: Read) -> Result<Held, Refusal>
        // The pass is of these stripes, and holds none.
        requires own { IsPassOf self.now pass.old }
        requires empty_handed { (recorded pass.old).holding ≡ None }

        // After a wait the record grows by this call, whose reply is held.
        ensures made { IfOk result (λ held.
            MakesReadInTime (stripe_count self.now) (recorded pass.old) read (position_of held)
            (reply_of held) (recorded pass.new)) }
        ensures held { IfOk result (IsHeldOf self.now) }

        // Or it is refused after a wait, but not as busy.
        ensures refused { IfErr result (λ refusal.
            RefusesReadInTime (recorded pass.old) (stripe_of (stripe_count self.now) read.key)
            refusal (recorded pass.new)) }

        // It is the same pass, and holds no stripe again.
        ensures empty_handed { (recorded pass.new).holding ≡ None }
        ensures same { IsSamePass pass.old pass.new }
    {
        let spread = spread_of(read.key.as_str());
        let stripe = stripe_of_spread(spread, self.count);
        let content = self.take_in_time(rt, pass, stripe);
        self.read_on(pass, read, spread, content)
    }
}
