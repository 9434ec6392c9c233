//! How a keeper makes the device calls that are due in its logs.
ghost use Rattle.std.specs.Prelude.{◌≡◌, ◌≢◌, ◌+◌, ◌<◌, ◌^◌, ℕ, List, Some, None, [], length, true, false, Result, Ok, OnOk, OnErr};
ghost use Rattle.map_types.specs.declared.commands.Command.{Command};
ghost use Rattle.ticket_order.specs.declared.record.Record.{Record};
ghost use Rattle.ticket_order.specs.Legality.{history_of};
ghost use Rattle.gate_log.specs.States.{IsResting, LogState};
ghost use Rattle.gate_log.specs.LogStates as log;
ghost use Rattle.gate_log.specs.LogSteps.{Advances, MayAdvance};
ghost use Rattle.disk_model.specs.Files.{File};
ghost use Rattle.disk_model.specs.Moments.{AtEachMoment};
ghost use Rattle.store_layout.specs.Logs.{Batch};
ghost use Rattle.flusher.specs.KeeperSteps.{IsPast, Stages, committed_by, passed};
ghost use Rattle.flusher.specs.Rotating.{IsTold, StepsLogs, due_of, ended_in, logs_of};
ghost use Rattle.flusher.specs.Fitting.{Fits, IsFitting, StopsFit, done_after};

use crate::keeper::Keeper;
use disk_model::Disk;
use gate_log::{GateLog, Phase};
use map_types::Refusal;
use store_invariant::laws;

impl<D: Disk> Keeper<D> {
    /// The staged batch is committed, and no longer in hand.
    fn let_go(&mut self)
        requires fits { self.old.sweeper.in_hand.next + length self.old.staged.items < 2 ^ 64 }
        ensures hand { self.new.sweeper ≡ record self.old.sweeper {
          in_hand = passed
              (length self.old.staged.items) self.old.sweeper.in_hand;
        } }
        ensures staged { self.new.staged.items ≡ [] }
        ensures same { self.new ≡ record self.old {
          sweeper = self.new.sweeper;
          staged = self.new.staged;
        } }
    {
        self.sweeper.in_hand.pass(self.staged.len());
        self.staged.clear();
    }

    /// Notes whether the device call failed: after that no other is made.
    fn noted(&mut self, stepped: Result<Phase, Refusal>) -> Result<Phase, Refusal>
        ensures result { result ≡ stepped }
        ensures ok { OnOk stepped (self.new ≡ self.old) }
        ensures err { OnErr stepped (self.new ≡ record self.old { is_broken = true }) }
        ensures same { self.new ≡ record self.old { is_broken = self.new.is_broken } }
    {
        if stepped.is_err() {
            self.is_broken = true;
        }
        stepped
    }

    /// Makes the device call that is due in the log, and lets the batch go that it commits.
    fn step_log(&mut self) -> Result<Phase, Refusal>
        // Nothing has failed, an honest disk holds the log, the tickets fit.
        requires stands { MayAdvance D.states D.honest self.old.log self.old.disk }
        requires works { (self.old.is_broken ≡ false) × (self.old.log.is_broken ≡ false) }
        requires fits { self.old.sweeper.in_hand.next + length self.old.staged.items < 2 ^ 64 }

        // At rest no call is made.
        ensures rests { self.old.log.phase ≡ Phase.Idle
            → (result ≡ Ok Phase.Idle) × (self.new ≡ self.old) }

        // Else the due call is made; what it commits is no longer in hand.
        ensures advances { self.old.log.phase ≢ Phase.Idle
            → Advances D.states D.failures D.honest self.old.log self.new.log self.old.disk
            self.new.disk result }
        ensures hand { OnOk result
            (IsPast None self.old.log.phase self.old.sweeper self.old.staged.items self.new.sweeper
            self.new.staged.items) }

        // A failed call is noted, and leaves the batch and the hand.
        ensures ok { OnOk result (self.new.is_broken ≡ false) }
        ensures err { OnErr result
            ((self.new.sweeper ≡ self.old.sweeper) × (self.new.staged ≡ self.old.staged)
            × (self.new.is_broken ≡ true)) }

        // No other field changes.
        ensures same { self.new ≡ record self.old {
          disk = self.new.disk;
          log = self.new.log;
          sweeper = self.new.sweeper;
          staged = self.new.staged;
          is_broken = self.new.is_broken;
        } }
    {
        let phase = self.log.phase();
        let stepped = self.log.advance(&mut self.disk);
        let after = self.noted(stepped)?;
        if phase == Phase::Opened {
            self.let_go();
        }
        Ok(after)
    }

    /// Makes the device call that is due in the end of the newest log. After the last one this log is
    /// the newest.
    fn step_end(&mut self, next: GateLog) -> Result<Phase, Refusal>
        // Nothing has failed, a call is due, and the keeper has no other log.
        requires stands { MayAdvance D.states D.honest self.old.log self.old.disk }
        requires works { (self.old.is_broken ≡ false) × (self.old.log.is_broken ≡ false) }
        requires moves { self.old.log.phase ≢ Phase.Idle }
        requires alone { self.old.next ≡ None }

        // The call that is due in the newest log is made, and no other.
        ensures advances { (log : LogState) × Advances D.states D.failures D.honest self.old.log log
            self.old.disk self.new.disk result }

        // The last call makes `next` the newest log; else it is to follow.
        ensures ok { OnOk result
            ((logs_of self.new ≡ ended_in self.old.log.phase self.old.log next)
            × (self.new.is_broken ≡ false)) }
        ensures err { OnErr result
            ((logs_of self.new ≡ record {
              newest = record self.old.log { is_broken = true };
              next = Some next;
            }) × (self.new.is_broken ≡ true)) }

        // No other field changes.
        ensures same { self.new ≡ record self.old {
          disk = self.new.disk;
          log = self.new.log;
          next = self.new.next;
          is_broken = self.new.is_broken;
        } }
    {
        let is_last = self.log.phase() == Phase::Opened;
        let called = self.log.advance(&mut self.disk);
        let stepped = self.noted(called);
        if is_last && stepped.is_ok() {
            self.log = next;
        } else {
            self.next = Some(next);
        }
        stepped
    }

    /// Stages the end frame of the newest log, which names this generation.
    fn end_newest(&mut self, generation: u64) -> Result<Phase, Refusal>
        requires { IsResting self.old.log }
        ensures ok { result ≡ Ok Phase.Staged }
        ensures stands { (batches : List Batch) (staged : List Batch) (file : File)
            → log.Stands self.old.log batches staged file
            → log.Stands self.new.log batches staged file }
        ensures same { self.new
            ≡ record self.old {
              log = record self.old.log {
                phase = Phase.Staged;
                ending = Some generation;
              };
            } }
    {
        self.log.end_with(generation)?;
        Ok(Phase::Staged)
    }

    /// Makes the device call that is due in this log, which is to follow the newest one. Once its
    /// header is on the disk, the newest one is told to end.
    fn step_next(&mut self, mut next: GateLog) -> Result<Phase, Refusal>
        // Nothing has failed, `next` has a call due, and the newest log rests.
        requires stands { MayAdvance D.states D.honest next self.old.disk }
        requires works { (self.old.is_broken ≡ false) × (next.is_broken ≡ false) }
        requires moves { next.phase ≢ Phase.Idle }
        requires resting { IsResting self.old.log }

        // That call is made; after the last one the newest log is to end.
        ensures advances { (log : LogState) × (stepped : Result Phase Refusal)
            × (self.new.next ≡ Some log)
            × Advances D.states D.failures D.honest next log self.old.disk self.new.disk stepped
            × IsTold stepped next.generation self.old.log self.new.log result }

        // The file of the newest log is still as that log says.
        ensures stands { (batches : List Batch) (staged : List Batch) (file : File)
            → log.Stands self.old.log batches staged file
            → log.Stands self.new.log batches staged file }

        // A failed call is noted, and no other field changes.
        ensures ok { OnOk result (self.new.is_broken ≡ false) }
        ensures err { OnErr result (self.new.is_broken ≡ true) }
        ensures same { self.new ≡ record self.old {
          disk = self.new.disk;
          log = self.new.log;
          next = self.new.next;
          is_broken = self.new.is_broken;
        } }
    {
        let stepped = next.advance(&mut self.disk);
        let generation = next.generation();
        self.next = Some(next);
        let phase = self.noted(stepped)?;
        if phase == Phase::Idle {
            return self.end_newest(generation);
        }
        Ok(phase)
    }

    /// Makes the device call that is due in the logs, and no other. If none is due, it makes none.
    /// After the last sync of a batch its commands are committed, and no longer in hand. During a
    /// rotation the header of the log that follows is written, and then the newest one ends. After
    /// a device failure no call is made. It takes no memory.
    pub fn advance(&mut self) -> Result<Phase, Refusal>
        // The keeper's invariant holds.
        requires { IsFitting D.states D.honest self.old }

        // After a failure it is refused; at rest no call is made. Nothing changes.
        ensures failed { self.old.is_broken ≡ true
            → (result ≡ Err Refusal.Failed) × (self.new ≡ self.old) }
        ensures rests { self.old.is_broken ≡ false → (due_of (logs_of self.old)).phase ≡ Phase.Idle
            → (result ≡ Ok Phase.Idle) × (self.new ≡ self.old) }

        // Else the due call is made; a batch's last commits it, a failed one nothing.
        ensures steps { self.old.is_broken ≡ false → (due_of (logs_of self.old)).phase ≢ Phase.Idle
            → StepsLogs D.states D.failures D.honest (logs_of self.old) (logs_of self.new)
            self.old.disk self.new.disk result }
        ensures committed { self.new.log.committed ≡ self.old.log.committed
            + committed_by result self.old.log.phase self.old.staged.items }
        ensures hand { OnOk result
            (IsPast self.old.next self.old.log.phase self.old.sweeper self.old.staged.items
            self.new.sweeper self.new.staged.items) }
        ensures works { OnOk result (self.new.is_broken ≡ false) }
        ensures kept { OnErr result
            ((self.new.sweeper ≡ self.old.sweeper) × (self.new.staged ≡ self.old.staged)
            × (self.new.is_broken ≡ true)) }

        // On an honest disk no stop, at any moment, loses what was committed.
        ensures any_moment { (n : ℕ) (done : List Command) (p : Record)
            → Fits D.states D.honest n done self.old p → D.honest self.old.disk
            → AtEachMoment D.states self.old.disk self.new.disk (StopsFit (history_of p) self.old) }

        // The invariant goes on, and no other field changes.
        ensures fits { (n : ℕ) (done : List Command) (p : Record)
            → Fits D.states D.honest n done self.old p
            → Fits D.states D.honest n
            (done_after result self.old.log.phase done self.old.staged.items) self.new p }
        ensures same { self.new ≡ record self.old {
          disk = self.new.disk;
          log = self.new.log;
          next = self.new.next;
          sweeper = self.new.sweeper;
          staged = self.new.staged;
          is_broken = self.new.is_broken;
        } }
    {
        laws::steps_of_logs();
        laws::stops_of_a_store();
        if self.is_broken {
            return Err(Refusal::Failed);
        }
        match self.next.take() {
            None => self.step_log(),
            Some(next) => {
                if next.phase() == Phase::Idle {
                    return self.step_end(next);
                }
                self.step_next(next)
            }
        }
    }
}
