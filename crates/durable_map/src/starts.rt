//! How a running map begins, its passes, and their steps beside calls.
ghost use Rattle.std.specs.Prelude.{◌≡◌, ◌⊎◌, ℕ, None, [], false, IfOk, IfErr, IsTrue, ◌↔◌, ◌≤◌};
ghost use Rattle.disk_model.specs.Files.{now};
ghost use Rattle.ticket_order.specs.declared.record.Record.{Record};
ghost use Rattle.ticket_order.specs.Records.{reach};
ghost use Rattle.ticket_order.specs.StepRules.{Looks};
ghost use Rattle.ticket_order.specs.Calls.{Releases};
ghost use Rattle.one_history.specs.Turns as turns;
ghost use Rattle.stripe_locks.specs.Holding.{answer_of, position_of, reply_of};
ghost use Rattle.stripe_locks.specs.Passes.{recorded, IsSamePass, Joins};
ghost use Rattle.flusher.specs.Fitting.{Fits, IsUnused};
ghost use Rattle.recovery.specs.Opening.{IsAtStart};
ghost use Rattle.recovery.specs.Dividing.{ArePartsOf};
ghost use Rattle.durable_map.specs.Maps.{IsHeldOf, IsPassOf, IsReady, opening_of, stripe_count, StaysHeldOf};

use crate::gathering::Gathering;
use crate::locked_keeper::{LockedKeeper, what_is_kept};
use crate::map::DurableMap;
use atomic_methods::Part;
use disk_model::Disk;
use flusher::Keeper;
use journal::Journal;
use keyed_lock::KeyedLock;
use map_types::Refusal;
use std::alloc::Global;
use std::sync::atomic::AtomicBool;
use std::sync::{Arc, Wait};
use stripe_locks::{Held, Pass, Released, Stripes};
use ticket_order::Position;

impl<D: Disk + Drop> DurableMap<D> {
    /// A map over what `open_parts` of `recovery` returns: the keeper of a directory, the parts of
    /// the map that it stands for, how many commands were made, and the most bytes that the key of a
    /// change may have. Refused with `NoMemory`, or
    /// with `SeatsSpent` if the keeper's pass can't be had; the disk is handed back.
    pub fn new(
        alloc: Global,
        keeper: Keeper<D>,
        parts: Vec<Part>,
        first: u64,
        key_limit: u16,
    ) -> Result<DurableMap<D>, (D, Refusal)>
        // The keeper has done nothing yet, and there is a part for each stripe.
        requires start { IsAtStart keeper.stripes first keeper }
        requires parts { ArePartsOf keeper.stripes.count parts.items }
        requires fits { (p : Record) → p.opening ≡ turns.opening_of first parts.items key_limit
            → IsUnused first key_limit p → Fits D.states D.honest keeper.stripes.count [] keeper p }

        // The map has the keeper's stripes, and begins with these parts.
        ensures stripes { IfOk result (λ map. stripe_count map ≡ keeper.stripes.count) }
        ensures opening { IfOk result (λ map.
            opening_of map ≡ turns.opening_of first parts.items key_limit) }

        // Refused: no memory, or no keeper's pass. The disk is handed back.
        ensures disk { IfErr result (λ x. x.0 ≡ keeper.disk) }
        ensures err { IfErr result (λ x. (x.1 ≡ Refusal.NoMemory) ⊎ (x.1 ≡ Refusal.SeatsSpent)) }
    {
        let stripes = match Stripes::new(alloc, keeper.stripes, parts, first, key_limit) {
            Ok(stripes) => stripes,
            Err(refusal) => return Err((keeper.into_disk(), refusal)),
        };
        let Ok(stripes) = Arc::new(alloc, stripes) else {
            return Err((keeper.into_disk(), Refusal::NoMemory));
        };
        let Ok(shared) = Arc::try_clone(&stripes) else {
            return Err((keeper.into_disk(), Refusal::NoMemory));
        };
        let journal = Journal::over(keeper, shared)?;
        what_is_kept(&journal);
        match KeyedLock::new(alloc, LockedKeeper::new(journal), &*stripes) {
            Ok(locked) => Ok(DurableMap {
                stripes,
                locked,
                is_led: AtomicBool::new(false),
                gathering: Gathering::new(),
            }),
            Err(locked) => Err((locked.into_disk(), Refusal::NoMemory)),
        }
    }

    /// The most bytes that the key of a change may have. A change with a longer key is refused with
    /// `KeyTooLong`.
    pub fn key_limit(&self) -> u16
        ensures { result ≡ (opening_of self.now).key_limit }
    {
        self.stripes.key_limit()
    }

    /// A new pass, for one worker's calls: never the keeper's. A pass isn't given back: once 4,095 were
    /// taken, `SeatsSpent` is returned.
    pub fn pass(&self) -> Result<Pass, Refusal>
        ensures ready { IfOk result (IsReady self.now) }
        ensures joins { IfOk result (Joins (opening_of self.now)) }
        ensures worker { IfOk result (λ pass. (recorded pass).keeper ≡ false) }
        ensures err { IfErr result (λ refusal. refusal ≡ Refusal.SeatsSpent) }
    {
        let pass = self.stripes.pass()?;
        if pass.is_keeper() {
            return Err(Refusal::SeatsSpent);
        }
        Ok(pass)
    }

    /// The count of tickets, by a LOOK.
    pub fn look(&self, pass: &mut Pass) -> u64
        requires { IsPassOf self.now pass.old }
        ensures step { Looks (recorded pass.old) result (recorded pass.new) }
        ensures same { IsSamePass pass.old pass.new }
    {
        self.stripes.look(pass)
    }

    /// Makes one LOOK, and says whether it reached the position. If it did, the pass has seen the
    /// position from then on.
    pub fn learn(&self, pass: &mut Pass, position: Position) -> bool
        requires { IsPassOf self.now pass.old }
        ensures step { (count : ℕ) × Looks (recorded pass.old) count (recorded pass.new) }
        ensures learned { IsTrue result ↔ (position ≤ reach (recorded pass.new)) }
        ensures same { IsSamePass pass.old pass.new }
    {
        self.stripes.learn(pass, position)
    }

    /// Gives the reply out if its position is durable. It takes no memory and doesn't wait.
    pub fn release(&self, pass: &mut Pass, held: Held) -> Released
        requires own { IsPassOf self.now pass.old }
        requires held { IsHeldOf self.now held }
        ensures released { Releases (position_of held) (reply_of held) (recorded pass.old)
            (answer_of result) (recorded pass.new) }
        ensures held { StaysHeldOf self.now result }
        ensures same { IsSamePass pass.old pass.new }
    {
        let released = self.stripes.release(pass, held);
        if matches!(released, Released::NotYet(_)) {
            self.wake_log();
        }
        released
    }

    /// From now on `count` zeros are written ahead of a batch at a time, once a log has 65,536
    /// bytes, so that most batches don't lengthen its file. With 0, as at first, none are. Their
    /// memory is got here. Refused with `NoMemory`, and then nothing is changed.
    pub fn set_log_ahead<R: Wait>(&self, rt: &R, count: usize) -> Result<(), Refusal>
        ensures { IfErr result (λ refusal. refusal ≡ Refusal.NoMemory) }
    {
        let (mut locked, loan) = self.take_keeper(rt);
        let set = locked.set_ahead(count);
        self.give_keeper(locked, loan);
        set
    }
}
