//! The device calls of a life's keeper.
ghost use Rattle.std.specs.Prelude.{◌≡◌, Some, None, false, true, IfOk};
ghost use Rattle.sim_rules.specs.World.{World};
ghost use Rattle.sim_rules.specs.Fitting.{fits};
ghost use Rattle.sim_rules.specs.declared.event.Event.TheVariants as event;
ghost use Rattle.sim_rules.specs.declared.event.Side.TheVariants as sides;
ghost use Rattle.disk_model.specs.declared.fill.Fill.{Fill as TheFill};
ghost use Rattle.schedule_sim.specs.Calling.{MayCall, call_on, is_due, is_sync, number_due};
ghost use Rattle.schedule_sim.specs.Living.{Did, IsLife};
ghost use Rattle.schedule_sim.specs.Storing.{IsInterrupted};

use crate::life::Life;
use crate::traced::Traced;
use checkpoint_file::CheckpointPhase;
use checkpoint_walk::{advance, laws as walk_laws};
use gate_log::Phase;
use map_types::Refusal;
use sim_keeper::laws as keeper_laws;
use sim_rules::{DeviceCall, Ending, Outcome, Side, laws as rule_laws};
use sim_workers::laws as worker_laws;
use std::alloc::AllocError;
use store_layout::{checkpoint_file, log_file};

impl Life {
    /// Whether a device call of this side is to be made.
    fn has_call(&self, side: Side) -> bool
        ensures { result ≡ is_due side self.now.keeper }
    {
        match side {
            Side::Log => self.has_log_call(),
            Side::Checkpoint => self.has_checkpoint_call(),
        }
    }

    fn has_log_call(&self) -> bool
        ensures { result ≡ is_due sides.Log self.now.keeper }
    {
        match &self.keeper.next {
            Some(next) if matches!(next.phase(), Phase::Header | Phase::HeaderWritten) => true,
            _ => self.keeper.log.phase() != Phase::Idle,
        }
    }

    fn has_checkpoint_call(&self) -> bool
        ensures { result ≡ is_due sides.Checkpoint self.now.keeper }
    {
        match &self.keeper.checkpoint {
            Some(writer) if self.keeper.next.is_none() => !matches!(
                writer.phase(),
                CheckpointPhase::Idle | CheckpointPhase::Ready | CheckpointPhase::Sealed
            ),
            _ => false,
        }
    }

    /// Whether the next device call of this side can be made now.
    pub(crate) fn may_call(&self, side: Side) -> bool
        ensures told { (w : World) (fill : TheFill) → IsLife w self.now
            → result ≡ fits w (event.Stop (Some side) fill) }
        ensures no_capture { result ≡ true → self.now.keeper.capture ≡ None }
    {
        keeper_laws::laws_of_telling::<Traced>();
        !self.keeper.is_walking() && !self.keeper.is_broken && self.has_call(side)
    }

    /// The file of the next device call of this side.
    fn number_due(&self, side: Side) -> usize
        ensures { result ≡ number_due side self.now.keeper }
    {
        match side {
            Side::Log => self.log_due(),
            Side::Checkpoint => self.checkpoint_due(),
        }
    }

    fn log_due(&self) -> usize
        ensures { result ≡ number_due sides.Log self.now.keeper }
    {
        match &self.keeper.next {
            Some(next) if matches!(next.phase(), Phase::Header | Phase::HeaderWritten) => {
                log_file(next.generation())
            }
            _ => log_file(self.keeper.log.generation()),
        }
    }

    fn checkpoint_due(&self) -> usize
        ensures { result ≡ number_due sides.Checkpoint self.now.keeper }
    {
        match &self.keeper.checkpoint {
            Some(writer) => checkpoint_file(writer.generation()),
            None => 0,
        }
    }

    /// The logs make their next device call. No contract of a keeper tells with which fill it failed,
    /// so this asks the disk's note. The paths with no note are taken only if memory was missing.
    fn call_log(&mut self, ending: &Ending) -> Result<Outcome, AllocError>
        requires life { (w : World) × IsLife w self.old }
        requires may { MayCall sides.Log self.old.keeper }
        ensures { IfOk result (λ x. (w : World) → IsLife w self.old
            → Did w (event.Device sides.Log ending.now) x self.new) }
    {
        keeper_laws::laws_of_telling::<Traced>();
        keeper_laws::laws_of_log_calls::<Traced>();
        worker_laws::steps_of_the_keeper();
        let file = self.log_due();
        match ending {
            Ending::Done => {
                self.keeper.disk.plan_none();
                let Ok(phase) = self.keeper.advance() else {
                    return Err(AllocError);
                };
                let call = self.keeper.disk.take_made(file).ok_or(AllocError)?;
                Ok(Outcome::Logged { call, phase })
            }
            Ending::Fails(fill) => {
                self.keeper.disk.plan(0, fill)?;
                if self.keeper.advance().is_ok() {
                    return Err(AllocError);
                }
                let call = self.keeper.disk.take_lost(fill, file).ok_or(AllocError)?;
                Ok(Outcome::CallFailed { call })
            }
        }
    }

    /// The checkpoint makes its next device call, with the disk's note as there.
    fn call_checkpoint(&mut self, ending: &Ending) -> Result<Outcome, AllocError>
        requires life { (w : World) × IsLife w self.old }
        requires may { MayCall sides.Checkpoint self.old.keeper }
        ensures { IfOk result (λ x. (w : World) → IsLife w self.old
            → Did w (event.Device sides.Checkpoint ending.now) x self.new) }
    {
        keeper_laws::laws_of_telling::<Traced>();
        keeper_laws::laws_of_checkpoint_calls::<Traced>();
        worker_laws::steps_of_the_keeper();
        let file = self.checkpoint_due();
        match ending {
            Ending::Done => {
                self.keeper.disk.plan_none();
                let Ok(phase) = advance(&mut self.keeper) else {
                    return Err(AllocError);
                };
                let call = self.keeper.disk.take_made(file).ok_or(AllocError)?;
                Ok(Outcome::Checkpointed { call, phase })
            }
            Ending::Fails(fill) => {
                self.keeper.disk.plan(0, fill)?;
                if advance(&mut self.keeper).is_ok() {
                    return Err(AllocError);
                }
                let call = self.keeper.disk.take_lost(fill, file).ok_or(AllocError)?;
                Ok(Outcome::CallFailed { call })
            }
        }
    }

    /// One of the keeper's writers makes its next device call.
    pub(crate) fn call_device(&mut self, side: Side, ending: &Ending) -> Result<Outcome, AllocError>
        requires { (w : World) × IsLife w self.old }
        ensures { IfOk result (λ x. (w : World) → IsLife w self.old
            → Did w (event.Device side ending.now) x self.new) }
    {
        keeper_laws::laws_of_telling::<Traced>();
        keeper_laws::laws_of_log_calls::<Traced>();
        if self.keeper.is_walking() {
            return Ok(Outcome::Skipped);
        }
        if self.keeper.is_broken {
            return Ok(Outcome::Refused(Refusal::Failed));
        }
        if !self.has_call(side) {
            return Ok(Outcome::Skipped);
        }
        match side {
            Side::Log => self.call_log(ending),
            Side::Checkpoint => self.call_checkpoint(ending),
        }
    }

    /// Whether the next device call of this side is a sync.
    fn is_sync_due(&self, side: Side) -> bool
        ensures { result ≡ is_sync (call_on side self.now.keeper) }
    {
        match side {
            Side::Log => self.is_log_sync_due(),
            Side::Checkpoint => self.is_checkpoint_sync_due(),
        }
    }

    fn is_log_sync_due(&self) -> bool
        ensures { result ≡ is_sync (call_on sides.Log self.now.keeper) }
    {
        match &self.keeper.next {
            Some(next) if matches!(next.phase(), Phase::Header) => false,
            Some(next) if matches!(next.phase(), Phase::HeaderWritten) => true,
            _ => matches!(
                self.keeper.log.phase(),
                Phase::HeaderWritten | Phase::Written | Phase::Opened
            ),
        }
    }

    fn is_checkpoint_sync_due(&self) -> bool
        ensures { result ≡ is_sync (call_on sides.Checkpoint self.now.keeper) }
    {
        match &self.keeper.checkpoint {
            Some(writer) if self.keeper.next.is_none() => matches!(
                writer.phase(),
                CheckpointPhase::GateWritten
                    | CheckpointPhase::HeaderWritten
                    | CheckpointPhase::Opened
            ),
            _ => false,
        }
    }

    /// The write that is due on this side is made.
    fn write(&mut self, side: Side) -> Result<DeviceCall, AllocError>
        requires life { (w : World) × IsLife w self.old }
        requires may { MayCall side self.old.keeper }
        requires writes { is_sync (call_on side self.old.keeper) ≡ false }
        ensures { IfOk result (λ call. (w : World) → IsLife w self.old
            → IsInterrupted w side call self.new.keeper.disk) }
    {
        keeper_laws::laws_of_telling::<Traced>();
        keeper_laws::laws_of_log_calls::<Traced>();
        keeper_laws::laws_of_checkpoint_calls::<Traced>();
        rule_laws::laws_of_known_histories();
        let file = self.number_due(side);
        self.keeper.disk.plan_none();
        match side {
            Side::Log => {
                let Ok(_phase) = self.keeper.advance() else {
                    return Err(AllocError);
                };
            }
            Side::Checkpoint => {
                let Ok(_phase) = advance(&mut self.keeper) else {
                    return Err(AllocError);
                };
            }
        }
        self.keeper.disk.take_made(file).ok_or(AllocError)
    }

    /// Has the machine stop within the next device call of this side. A write counts as made then, and
    /// a sync as not made.
    pub(crate) fn interrupt(&mut self, side: Side) -> Result<DeviceCall, AllocError>
        requires life { (w : World) × (fill : TheFill) × IsLife w self.old
            × (fits w (event.Stop (Some side) fill) ≡ true) }
        ensures { IfOk result (λ call. (w : World) → IsLife w self.old
            → IsInterrupted w side call self.new.keeper.disk) }
    {
        keeper_laws::laws_of_telling::<Traced>();
        rule_laws::laws_of_known_histories();
        walk_laws::stops_while_capturing(&self.keeper);
        if self.is_sync_due(side) {
            let file = self.number_due(side);
            return Ok(DeviceCall::Sync { file });
        }
        self.write(side)
    }
}
