//! How a journal stages batches, and makes the device calls of its logs.
ghost use Rattle.std.specs.Prelude.{◌≡◌, ◌≢◌, ◌⊎◌, ◌↔◌, ◌+◌, ◌≤◌, List, length, true, false, Ok, Err, IfOk, IfErr, OnOk, OnErr};
ghost use Rattle.disk_model.specs.Moments.{AtEachMoment};
ghost use Rattle.map_types.specs.declared.commands.Command.{Command};
ghost use Rattle.ticket_order.specs.Legality.{history_of};
ghost use Rattle.log_records.specs.Layout.{layout_of};
ghost use Rattle.gate_log.specs.Ahead.{WritesAhead};
ghost use Rattle.store_layout.specs.Hands.{IsLongest};
ghost use Rattle.flusher.specs.HandSteps.{SameEntries};
ghost use Rattle.flusher.specs.KeeperSteps.{IsFull, IsPast, MayStage, Stages, committed_by};
ghost use Rattle.flusher.specs.Rotating.{StepsLogs, due_of, logs_of};
ghost use Rattle.flusher.specs.Fitting.{StopsFit};

use crate::owner::Journal;
use disk_model::Disk;
use gate_log::Phase;
use map_types::Refusal;
use ticket_order::Steps;

impl<D: Disk, S: Steps> Journal<D, S> {
    /// Stages the longest run of tickets in hand, from the committed count on, that may be one batch
    /// of at most `most` commands, and returns its length. If there is none, it stages none.
    pub fn stage_batch(&mut self, most: u32) -> Result<u32, Refusal>
        // Refused: it has failed, may not stage, its log is full, or no memory.
        ensures failed { (result ≡ Err Refusal.Failed) ↔ (self.old.keeper.is_broken ≡ true) }
        ensures wrong_phase { (result ≡ Err Refusal.WrongPhase)
            ↔ ((self.old.keeper.is_broken ≡ false)
            × (MayStage self.old.keeper.log self.old.keeper.next → ⊥)) }
        ensures full { (result ≡ Err Refusal.LogFull)
            ↔ ((self.old.keeper.is_broken ≡ false)
            × MayStage self.old.keeper.log self.old.keeper.next
            × IsFull most self.old.keeper.log self.old.keeper.sweeper.in_hand) }
        ensures no_other { IfErr result (λ refusal. (refusal ≡ Refusal.Failed)
            ⊎ (refusal ≡ Refusal.WrongPhase) ⊎ (refusal ≡ Refusal.LogFull)
            ⊎ (refusal ≡ Refusal.NoMemory)) }

        // Else the longest run that fits a batch is staged, or nothing if none.
        ensures ok { IfOk result (λ count. (commands : List Command)
            × IsLongest (layout_of self.old.keeper.log.version) most
            self.old.keeper.sweeper.in_hand commands
            × (count ≡ length commands)
            × (count ≡ 0 → self.new.keeper ≡ self.old.keeper)
            × (1 ≤ count → Stages commands self.old.keeper.log self.old.keeper.sweeper.in_hand
            self.new.keeper.log self.new.keeper.sweeper.in_hand self.new.keeper.staged.items)) }

        // A refusal leaves the log, the staged batch and the entries in hand.
        ensures err { OnErr result ((self.new.keeper.log ≡ self.old.keeper.log)
            × (self.new.keeper.staged ≡ self.old.keeper.staged)
            × SameEntries self.old.keeper.sweeper.in_hand self.new.keeper.sweeper.in_hand) }

        // No other field changes, and no step is made.
        ensures same { self.new.keeper ≡ record self.old.keeper {
          log = self.new.keeper.log;
          sweeper = record self.old.keeper.sweeper { in_hand = self.new.keeper.sweeper.in_hand };
          staged = self.new.keeper.staged;
        } }
        ensures pass { self.new.steps ≡ self.old.steps }
    {
        self.keeper.stage_batch(most)
    }

    /// From now on `count` zeros are written ahead at a time; with 0, as at first, none are. Their
    /// memory is got here. Refused with `NoMemory`.
    pub fn set_ahead(&mut self, count: usize) -> Result<(), Refusal>
        ensures ok { OnOk result (self.new.keeper ≡ record self.old.keeper { zeros = count }) }
        ensures no_other { IfErr result (λ refusal. refusal ≡ Refusal.NoMemory) }
        ensures err { OnErr result (self.new.keeper ≡ self.old.keeper) }
        ensures pass { self.new.steps ≡ self.old.steps }
    {
        self.keeper.set_ahead(count)
    }

    /// Writes the zeros behind the closed gate of the newest log, ahead of the batch that is staged.
    /// If that isn't due, it makes no device call. After a device failure no call is made. It takes
    /// no memory.
    pub fn write_ahead(&mut self) -> Result<(), Refusal>
        // After a device failure it is refused, and nothing changes.
        ensures failed { self.old.keeper.is_broken ≡ true
            → (result ≡ Err Refusal.Failed) × (self.new.keeper ≡ self.old.keeper) }

        // Else one due call writes the zeros, or none; a failed one is noted.
        ensures ahead { self.old.keeper.is_broken ≡ false
            → ((result ≡ Ok tt) × (self.new.keeper ≡ self.old.keeper))
            ⊎ WritesAhead D.states D.failures D.honest self.old.keeper.zeros self.old.keeper.log
            self.new.keeper.log self.old.keeper.disk self.new.keeper.disk result }
        ensures works { OnOk result (self.new.keeper.is_broken ≡ false) }
        ensures err { IfErr result (λ refusal. (refusal ≡ Refusal.Failed)
            × (self.new.keeper.is_broken ≡ true)) }

        // On an honest disk no stop, at any moment, loses what was committed.
        ensures any_moment { D.honest self.old.keeper.disk
            → AtEachMoment D.states self.old.keeper.disk self.new.keeper.disk
            (StopsFit (history_of (S.recorded self.old.steps)) self.old.keeper) }

        // No other field changes, and no step is made.
        ensures same { self.new.keeper ≡ record self.old.keeper {
          disk = self.new.keeper.disk;
          log = self.new.keeper.log;
          is_broken = self.new.keeper.is_broken;
        } }
        ensures pass { self.new.steps ≡ self.old.steps }
    {
        self.keeper.write_ahead()
    }

    /// Makes the device call that is due in the logs, and no other. If none is due, it makes none.
    /// After the last sync of a batch its commands are committed, and no longer in hand. After a
    /// device failure no call is made. It takes no memory.
    pub fn advance(&mut self) -> Result<Phase, Refusal>
        // After a failure it is refused; at rest no call is made. Nothing changes.
        ensures failed { self.old.keeper.is_broken ≡ true
            → (result ≡ Err Refusal.Failed) × (self.new.keeper ≡ self.old.keeper) }
        ensures rests { self.old.keeper.is_broken ≡ false
            → (due_of (logs_of self.old.keeper)).phase ≡ Phase.Idle
            → (result ≡ Ok Phase.Idle) × (self.new.keeper ≡ self.old.keeper) }

        // Else the due call is made; a batch's last commits it, a failed one nothing.
        ensures steps { self.old.keeper.is_broken ≡ false
            → (due_of (logs_of self.old.keeper)).phase ≢ Phase.Idle
            → StepsLogs D.states D.failures D.honest (logs_of self.old.keeper)
            (logs_of self.new.keeper) self.old.keeper.disk self.new.keeper.disk result }
        ensures committed { self.new.keeper.log.committed ≡ self.old.keeper.log.committed
            + committed_by result self.old.keeper.log.phase self.old.keeper.staged.items }
        ensures hand { OnOk result (IsPast self.old.keeper.next self.old.keeper.log.phase
            self.old.keeper.sweeper self.old.keeper.staged.items self.new.keeper.sweeper
            self.new.keeper.staged.items) }
        ensures works { OnOk result (self.new.keeper.is_broken ≡ false) }
        ensures kept { OnErr result ((self.new.keeper.sweeper ≡ self.old.keeper.sweeper)
            × (self.new.keeper.staged ≡ self.old.keeper.staged)
            × (self.new.keeper.is_broken ≡ true)) }

        // On an honest disk no stop, at any moment, loses what was committed.
        ensures any_moment { D.honest self.old.keeper.disk
            → AtEachMoment D.states self.old.keeper.disk self.new.keeper.disk
            (StopsFit (history_of (S.recorded self.old.steps)) self.old.keeper) }

        // No other field changes, and no step is made.
        ensures same { self.new.keeper ≡ record self.old.keeper {
          disk = self.new.keeper.disk;
          log = self.new.keeper.log;
          next = self.new.keeper.next;
          sweeper = self.new.keeper.sweeper;
          staged = self.new.keeper.staged;
          is_broken = self.new.keeper.is_broken;
        } }
        ensures pass { self.new.steps ≡ self.old.steps }
    {
        self.keeper.advance()
    }
}
