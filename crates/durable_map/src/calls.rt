//! Whole calls: each returns once its position is durable. And calls that are begun, and finished
//! later.
ghost use Rattle.std.specs.Prelude.{IfOk};
ghost use Rattle.ticket_order.specs.declared.record.Asked.TheVariants.{Changing, Reading};
ghost use Rattle.stripe_locks.specs.Passes.{recorded, IsSamePass};
ghost use Rattle.durable_map.specs.Durable.{Begins, Completes, Finishes};
ghost use Rattle.durable_map.specs.Maps.{IsHeldOf, IsReady, stripe_count};

use crate::map::DurableMap;
use disk_model::Disk;
use map_types::{Command, Read, Refusal, Reply};
use std::sync::Wait;
use stripe_locks::{Held, Pass, Released};
use ticket_order::Position;

impl<D: Disk + Drop> DurableMap<D> {
    /// Makes a change, whose reply is held until `finish` gives it out. It waits for the stripe of its
    /// key, and not until the change is durable: a pass may begin other calls before it finishes this
    /// one. No thread is woken for it before `finish`, `wake_log` or `release` asks for its reply; without
    /// them it is committed after a tenth of a second at most.
    ///
    /// `KeyTooLong` if the key is above the limit, `Failed` if the store has failed, `TicketsSpent` if
    /// 2^62 changes were made, and `NoMemory`: then nothing was changed.
    pub fn begin_change<R: Wait>(
        &self,
        rt: &R,
        pass: &mut Pass,
        command: Command,
    ) -> Result<Held, Refusal>
        requires { IsReady self.now pass.old }
        ensures begins { Begins (stripe_count self.now) (recorded pass.old) (Changing command)
            result (recorded pass.new) }
        ensures held { IfOk result (IsHeldOf self.now) }
        ensures ready { IsReady self.now pass.new }
        ensures same { IsSamePass pass.old pass.new }
    {
        self.stripes.call(rt, pass, command)
    }

    /// Makes a read, whose reply is held until `finish` gives it out. It waits for the stripe of its
    /// key, and not until what it has seen is durable.
    ///
    /// `Failed` if the store has failed, and `NoMemory`.
    pub fn begin_read<R: Wait>(&self, rt: &R, pass: &mut Pass, read: Read) -> Result<Held, Refusal>
        requires { IsReady self.now pass.old }
        ensures begins { Begins (stripe_count self.now) (recorded pass.old) (Reading read) result
            (recorded pass.new) }
        ensures held { IfOk result (IsHeldOf self.now) }
        ensures ready { IsReady self.now pass.new }
        ensures same { IsSamePass pass.old pass.new }
    {
        self.stripes.read(rt, pass, read)
    }

    /// Whether `finish` will likely return without a wait. It is a hint, and makes no step.
    pub fn may_finish(&self, held: &Held) -> bool {
        self.stripes.may_release(held.position())
    }

    /// The same of a call whose position is this one.
    pub fn may_finish_at(&self, position: Position) -> bool {
        self.stripes.may_release(position)
    }

    /// Waits until the position of a call that was begun is durable, and gives its reply out. Any pass
    /// of the map may finish it.
    ///
    /// `Failed` if the store has failed before. The change, if it was one, was made, and may be
    /// found again or not once the directory is opened anew.
    pub fn finish<R: Wait>(&self, rt: &R, pass: &mut Pass, held: Held) -> Result<Reply, Refusal>
        requires ready { IsReady self.now pass.old }
        requires held { IsHeldOf self.now held }
        ensures finishes { Finishes (recorded pass.old) held result (recorded pass.new) }
        ensures ready { IsReady self.now pass.new }
        ensures same { IsSamePass pass.old pass.new }
    {
        let position = held.position();
        let mut waiting = held;
        for _turn in rt.forever() {
            match self.stripes.release(pass, waiting) {
                Released::Reply(_, reply) => return Ok(reply),
                Released::NotYet(held) => {
                    self.wake_log();
                    self.stripes.sleep_until_durable(rt, position);
                    waiting = held;
                }
                Released::Failed => return Err(Refusal::Failed),
            }
        }
        unreachable!()
    }

    /// Makes a change, and returns once it is durable.
    ///
    /// `Failed` if the store has failed: the change was made or not, and may be found again or not
    /// once the directory is opened anew. `KeyTooLong` if the key is above the limit, `TicketsSpent` if
    /// 2^62 changes were made, and `NoMemory`: then nothing was changed.
    pub fn change<R: Wait>(
        &self,
        rt: &R,
        pass: &mut Pass,
        command: Command,
    ) -> Result<Reply, Refusal>
        requires { IsReady self.now pass.old }
        ensures completes { Completes (stripe_count self.now) (recorded pass.old) (Changing command)
            result (recorded pass.new) }
        ensures ready { IsReady self.now pass.new }
        ensures same { IsSamePass pass.old pass.new }
    {
        let held = self.begin_change(rt, pass, command)?;
        self.finish(rt, pass, held)
    }

    /// Makes a read, and returns once each change that it has seen is durable.
    ///
    /// `Failed` if the store has failed. `NoMemory`.
    pub fn read<R: Wait>(&self, rt: &R, pass: &mut Pass, read: Read) -> Result<Reply, Refusal>
        requires { IsReady self.now pass.old }
        ensures completes { Completes (stripe_count self.now) (recorded pass.old) (Reading read)
            result (recorded pass.new) }
        ensures ready { IsReady self.now pass.new }
        ensures same { IsSamePass pass.old pass.new }
    {
        let held = self.begin_read(rt, pass, read)?;
        self.finish(rt, pass, held)
    }
}
