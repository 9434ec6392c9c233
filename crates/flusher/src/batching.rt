//! How a keeper stages batches.
ghost use Rattle.std.specs.Prelude.{◌≡◌, ◌⊎◌, ◌↔◌, ◌||◌, ◌<◌, ◌≤◌, List, [], ◌∷◌, length, true, false, Result, Ok, IfOk, IfErr, OnOk, OnErr};
ghost use Rattle.std.specs.List.{All};
ghost use Rattle.map_types.specs.declared.commands.Command.{Command};
ghost use Rattle.ticket_order.specs.Records.{IsWithin};
ghost use Rattle.log_records.specs.Layout.{layout_of};
ghost use Rattle.gate_log.specs.States.{IsResting, batch_of};
ghost use Rattle.gate_log.specs.LogStates as log;
ghost use Rattle.disk_model.specs.Files.{File};
ghost use Rattle.store_layout.specs.Logs.{Batch};
ghost use Rattle.store_layout.specs.Hands.{FitsBatch, IsLongest, IsRun};
ghost use Rattle.flusher.specs.HandSteps.{SameEntries};
ghost use Rattle.flusher.specs.KeeperSteps.{IsFull, MayStage, Stages, is_too_long};
ghost use Rattle.flusher.specs.Fitting.{IsFitting, StillFits};

use crate::keeper::Keeper;
use disk_model::Disk;
use map_types::Refusal;
use std::mem;
use store_invariant::laws;
use store_layout::MOST_LOG_BYTES;

impl<D: Disk> Keeper<D> {
    /// Stages the first `count` commands. If that is refused, the same entries are in hand.
    fn stage_run(&mut self, count: u32) -> Result<(), Refusal>
        // `count` commands in hand may be the next batch, of keys that the log
        // allows, and the log rests.
        requires run { (commands : List Command) × IsRun self.old.sweeper.in_hand commands
            × (length commands ≡ count)
            × FitsBatch (layout_of self.old.log.version) count self.old.log.committed commands
            × (is_too_long self.old.log commands → ⊥) }
        requires keys { (commands : List Command) → IsRun self.old.sweeper.in_hand commands
            → All (IsWithin (layout_of self.old.log.version).key_limit) commands }
        requires some { 1 ≤ count }
        requires next { self.old.sweeper.in_hand.next ≡ self.old.log.committed }
        requires resting { IsResting self.old.log }

        // They are staged as one batch, for which the file need not change.
        ensures ok { OnOk result
            ((commands : List Command) → IsRun self.old.sweeper.in_hand commands
            → length commands ≡ count
            → Stages commands self.old.log self.old.sweeper.in_hand self.new.log
            self.new.sweeper.in_hand self.new.staged.items) }
        ensures stands { OnOk result
            ((batches : List Batch) (file : File) → log.Stands self.old.log batches [] file
            → log.Stands self.new.log batches
            (batch_of self.old.log.committed self.new.staged.items ∷ []) file) }

        // Refused for want of memory alone: the log, batch and entries stay.
        ensures no_other { IfErr result (λ refusal. refusal ≡ Refusal.NoMemory) }
        ensures err { OnErr result
            ((self.new.log ≡ self.old.log) × (self.new.staged ≡ self.old.staged)
            × SameEntries self.old.sweeper.in_hand self.new.sweeper.in_hand) }

        // No other field changes.
        ensures same { self.new ≡ record self.old {
          log = self.new.log;
          sweeper = record self.old.sweeper { in_hand = self.new.sweeper.in_hand };
          staged = self.new.staged;
        } }
    {
        let batch = match self.sweeper.in_hand.take_run(self.alloc, count as usize) {
            Ok(batch) => batch,
            Err(_) => return Err(Refusal::NoMemory),
        };
        match self.log.stage(&batch) {
            Ok(()) => {
                drop(mem::replace(&mut self.staged, batch));
                Ok(())
            }
            Err(refusal) => {
                self.sweeper.in_hand.insert(batch);
                Err(refusal)
            }
        }
    }

    /// Stages the longest run of tickets in hand, from the committed count on, that may be one
    /// batch of at most `most` commands, and returns its length. If there is none, it stages none.
    pub fn stage_batch(&mut self, most: u32) -> Result<u32, Refusal>
        // The keeper's invariant holds.
        requires { IsFitting D.states D.honest self.old }

        // Refused: it has failed, may not stage, its log is full, or no memory.
        ensures failed { (result ≡ Err Refusal.Failed) ↔ (self.old.is_broken ≡ true) }
        ensures wrong_phase { (result ≡ Err Refusal.WrongPhase)
            ↔ ((self.old.is_broken ≡ false) × (MayStage self.old.log self.old.next → ⊥)) }
        ensures full { (result ≡ Err Refusal.LogFull)
            ↔ ((self.old.is_broken ≡ false) × MayStage self.old.log self.old.next
            × IsFull most self.old.log self.old.sweeper.in_hand) }
        ensures no_other { IfErr result (λ refusal. (refusal ≡ Refusal.Failed)
            ⊎ (refusal ≡ Refusal.WrongPhase) ⊎ (refusal ≡ Refusal.LogFull)
            ⊎ (refusal ≡ Refusal.NoMemory)) }

        // Else the longest run that fits a batch is staged, or nothing if none.
        ensures ok { IfOk result (λ count. (commands : List Command)
            × IsLongest (layout_of self.old.log.version) most self.old.sweeper.in_hand commands
            × (count ≡ length commands)
            × (count ≡ 0 → self.new ≡ self.old)
            × (1 ≤ count → Stages commands self.old.log self.old.sweeper.in_hand self.new.log
            self.new.sweeper.in_hand self.new.staged.items)) }

        // A refusal leaves the log, the staged batch and the entries in hand.
        ensures err { OnErr result
            ((self.new.log ≡ self.old.log) × (self.new.staged ≡ self.old.staged)
            × SameEntries self.old.sweeper.in_hand self.new.sweeper.in_hand) }

        // The invariant goes on, and no other field changes.
        ensures fits { StillFits D.states D.honest self.old self.new }
        ensures same { self.new ≡ record self.old {
          log = self.new.log;
          sweeper = record self.old.sweeper { in_hand = self.new.sweeper.in_hand };
          staged = self.new.staged;
        } }
    {
        if self.is_broken {
            return Err(Refusal::Failed);
        }
        if !self.log.is_resting() || self.next.is_some() {
            return Err(Refusal::WrongPhase);
        }
        laws::steps_of_logs();
        let run = self.sweeper.in_hand.longest_run(self.log.version(), most);
        if run.count == 0 {
            return Ok(0);
        }
        let gate = self.log.gate();
        if gate > MOST_LOG_BYTES - 2 - run.frame_len {
            return Err(Refusal::LogFull);
        }
        match self.stage_run(run.count) {
            Ok(()) => Ok(run.count),
            Err(refusal) => Err(refusal),
        }
    }
}
