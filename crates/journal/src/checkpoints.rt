//! How a journal writes checkpoints.
ghost use Rattle.std.specs.Prelude.{◌≡◌, ◌⊎◌, ◌↔◌, List, [], Some, None, true, false, Ok, Err, IfOk, IfErr, OnOk, OnErr};
ghost use Rattle.disk_model.specs.Files.{now};
ghost use Rattle.disk_model.specs.Gates.{Call};
ghost use Rattle.disk_model.specs.Moments.{AtEachMoment};
ghost use Rattle.ticket_order.specs.Legality.{history_of};
ghost use Rattle.ticket_order.specs.StepRules.{IsOfSamePass};
ghost use Rattle.store_layout.specs.Checkpoints.{Section};
ghost use Rattle.store_layout.specs.UsedCheckpoint.{UsesCheckpoint};
ghost use Rattle.checkpoint_file.specs.States.{CheckpointState};
ghost use Rattle.checkpoint_file.specs.CheckpointStates.{checkpoint_of};
ghost use Rattle.flusher.specs.Fitting.{StopsFit};
ghost use Rattle.checkpoint_walk.specs.Checkpointing.{Begins, HasAllSections, HasGiven, IsMarkedAbove, IsNextStripe, MayBegin, StepsCheckpoint, call_due, phase_of, sealing};
ghost use Rattle.checkpoint_walk.specs.Walking.{AfterRefusal, AfterWaiting, GivesPart, GivesSection, GivesWaiting};

use crate::owner::Journal;
use checkpoint_file::CheckpointPhase;
use checkpoint_walk;
use disk_model::Disk;
use map_types::Refusal;
use std::sync::Wait;
use ticket_order::Steps;

impl<D: Disk, S: Steps> Journal<D, S> {
    /// Begins the checkpoint that follows the sealed one. If the newest log is still that of the
    /// sealed one, the log of the checkpoint is begun with it. It makes no device call and takes no
    /// memory.
    pub fn begin(&mut self) -> Result<(), Refusal>
        // Refused: after a device failure, or if no checkpoint may begin now.
        ensures failed { (result ≡ Err Refusal.Failed) ↔ (self.old.keeper.is_broken ≡ true) }
        ensures wrong_phase { (result ≡ Err Refusal.WrongPhase)
            ↔ ((self.old.keeper.is_broken ≡ false) × (MayBegin self.old.keeper → ⊥)) }
        ensures no_other { IfErr result (λ refusal. (refusal ≡ Refusal.Failed)
            ⊎ (refusal ≡ Refusal.WrongPhase)) }

        // It begins with no section, beside the newest log or one begun with it.
        ensures ok { OnOk result (Begins self.old.keeper self.new.keeper) }
        ensures given { OnOk result (D.honest self.old.keeper.disk
            → HasGiven self.new.keeper.checkpoint [] (now (D.states self.new.keeper.disk))) }

        // A refusal changes nothing; else no other field changes, and no step is made.
        ensures err { OnErr result (self.new.keeper ≡ self.old.keeper) }
        ensures same { self.new.keeper ≡ record self.old.keeper {
          next = self.new.keeper.next;
          checkpoint = self.new.keeper.checkpoint;
        } }
        ensures pass { self.new.steps ≡ self.old.steps }
    {
        checkpoint_walk::begin(&mut self.keeper)
    }

    /// Captures the stripe whose section is the next, by TAKE, LOOK and GIVE: the section's mark. It
    /// doesn't wait for a stripe that another holds.
    pub fn try_capture(&mut self, stripe: usize) -> Result<u64, Refusal>
        // Refused: after a failure, or if the stripe isn't next; nothing changes.
        ensures failed { (result ≡ Err Refusal.Failed) ↔ (self.old.keeper.is_broken ≡ true) }
        ensures wrong_phase { (result ≡ Err Refusal.WrongPhase)
            ↔ ((self.old.keeper.is_broken ≡ false)
            × (IsNextStripe stripe self.old.keeper.next self.old.keeper.checkpoint → ⊥)) }
        ensures first { ((result ≡ Err Refusal.Failed) ⊎ (result ≡ Err Refusal.WrongPhase))
            → (self.new.steps ≡ self.old.steps) × (self.new.keeper ≡ self.old.keeper) }

        // Else the section is given; or another has the stripe, or it is put back.
        ensures ok { IfOk result (λ mark. GivesSection (S.stripe_count self.old.steps)
            (S.recorded self.old.steps) stripe mark self.old.keeper self.new.keeper
            (S.recorded self.new.steps)) }
        ensures err { IfErr result (λ refusal. AfterRefusal stripe self.old.keeper
            self.new.keeper (S.recorded self.old.steps) (S.recorded self.new.steps) refusal) }

        // The section is the stripe's part of the map after `mark` commands.
        ensures given { (sections : List Section) → D.honest self.old.keeper.disk
            → HasGiven self.old.keeper.checkpoint sections (now (D.states self.old.keeper.disk))
            → IfOk result (λ mark. GivesPart D.states (S.stripe_count self.old.steps)
            (history_of (S.recorded self.new.steps)) mark sections self.new.keeper) }
        ensures pass { IsOfSamePass S.place S.stripe_count self.old.steps self.new.steps }
    {
        checkpoint_walk::try_capture(&mut self.keeper, stripe, &mut self.steps)
    }

    /// The same, and tries a stripe that another holds again until it is free.
    pub fn capture<R: Wait>(&mut self, rt: &R, stripe: usize) -> Result<u64, Refusal>
        // Refused: after a failure, or if the stripe isn't next; nothing changes.
        ensures failed { (result ≡ Err Refusal.Failed) ↔ (self.old.keeper.is_broken ≡ true) }
        ensures wrong_phase { (result ≡ Err Refusal.WrongPhase)
            ↔ ((self.old.keeper.is_broken ≡ false)
            × (IsNextStripe stripe self.old.keeper.next self.old.keeper.checkpoint → ⊥)) }
        ensures first { ((result ≡ Err Refusal.Failed) ⊎ (result ≡ Err Refusal.WrongPhase))
            → (self.new.steps ≡ self.old.steps) × (self.new.keeper ≡ self.old.keeper) }

        // Else, after a wait, the section is given, or the stripe is put back.
        ensures ok { IfOk result (λ mark. GivesWaiting (S.stripe_count self.old.steps)
            (S.recorded self.old.steps) stripe mark self.old.keeper self.new.keeper
            (S.recorded self.new.steps)) }
        ensures err { IfErr result (λ refusal. AfterWaiting stripe self.old.keeper
            self.new.keeper (S.recorded self.old.steps) (S.recorded self.new.steps) refusal) }

        // The section is the stripe's part of the map after `mark` commands.
        ensures given { (sections : List Section) → D.honest self.old.keeper.disk
            → HasGiven self.old.keeper.checkpoint sections (now (D.states self.old.keeper.disk))
            → IfOk result (λ mark. GivesPart D.states (S.stripe_count self.old.steps)
            (history_of (S.recorded self.new.steps)) mark sections self.new.keeper) }
        ensures pass { IsOfSamePass S.place S.stripe_count self.old.steps self.new.steps }
    {
        checkpoint_walk::capture(&mut self.keeper, rt, stripe, &mut self.steps)
    }

    /// Goes on to the header of the checkpoint, once the sections of all stripes are written and the
    /// count that was last published has reached the greatest of their marks. Until then it may be
    /// tried again. It makes no device call.
    pub fn seal(&mut self) -> Result<(), Refusal>
        // Refused: after a failure, if no seal is due, with a mark unpublished.
        ensures failed { (result ≡ Err Refusal.Failed) ↔ (self.old.keeper.is_broken ≡ true) }
        ensures wrong_phase { (result ≡ Err Refusal.WrongPhase)
            ↔ ((self.old.keeper.is_broken ≡ false)
            × (HasAllSections self.old.keeper.checkpoint → ⊥)) }
        ensures early { (result ≡ Err Refusal.TooEarly)
            ↔ ((self.old.keeper.is_broken ≡ false) × HasAllSections self.old.keeper.checkpoint
            × IsMarkedAbove self.old.keeper.published self.old.keeper.checkpoint) }
        ensures no_other { IfErr result (λ refusal. (refusal ≡ Refusal.Failed)
            ⊎ (refusal ≡ Refusal.WrongPhase) ⊎ (refusal ≡ Refusal.TooEarly)) }

        // It goes on to its header, and keeps the sections that it was given.
        ensures ok { OnOk result (self.new.keeper
            ≡ record self.old.keeper { checkpoint = sealing self.old.keeper.checkpoint }) }
        ensures given { (sections : List Section)
            → HasGiven self.old.keeper.checkpoint sections (now (D.states self.old.keeper.disk))
            → HasGiven self.new.keeper.checkpoint sections (now (D.states self.new.keeper.disk)) }

        // A refusal changes nothing, and no step is made.
        ensures err { OnErr result (self.new.keeper ≡ self.old.keeper) }
        ensures pass { self.new.steps ≡ self.old.steps }
    {
        checkpoint_walk::seal(&mut self.keeper)
    }

    /// Makes the device call that is due in the file of the checkpoint, and no other, and returns the
    /// phase after it. If none is due, it makes none. After the last sync of a seal the checkpoint is
    /// the sealed one, and none runs. After a device failure no call is made. It takes no memory.
    pub fn advance_checkpoint(&mut self) -> Result<CheckpointPhase, Refusal>
        // Refused after a failure; no call if none is due. Then nothing changes.
        ensures failed { self.old.keeper.is_broken ≡ true
            → (result ≡ Err Refusal.Failed) × (self.new.keeper ≡ self.old.keeper) }
        ensures rests { self.old.keeper.is_broken ≡ false
            → call_due self.old.keeper.next self.old.keeper.checkpoint ≡ None
            → (result ≡ Ok (phase_of self.old.keeper.checkpoint))
            × (self.new.keeper ≡ self.old.keeper) }

        // Else the due call is made in the checkpoint's file; a failure is noted.
        ensures steps { self.old.keeper.is_broken ≡ false → (call : Call) (w : CheckpointState)
            → call_due self.old.keeper.next self.old.keeper.checkpoint ≡ Some call
            → self.old.keeper.checkpoint ≡ Some w
            → StepsCheckpoint D.states D.failures D.honest call w self.old.keeper self.new.keeper
            result }
        ensures works { OnOk result (self.new.keeper.is_broken ≡ false) }
        ensures breaks { OnErr result (self.new.keeper.is_broken ≡ true) }

        // On an honest disk no stop, at any moment, loses what was committed.
        ensures any_moment { D.honest self.old.keeper.disk
            → AtEachMoment D.states self.old.keeper.disk self.new.keeper.disk
            (StopsFit (history_of (S.recorded self.old.steps)) self.old.keeper) }

        // After `Ok` the sections are still given, or sealed.
        ensures given { (sections : List Section) (w : CheckpointState)
            → HasGiven self.old.keeper.checkpoint sections (now (D.states self.old.keeper.disk))
            → self.new.keeper.checkpoint ≡ Some w
            → OnOk result (HasGiven (Some w) sections (now (D.states self.new.keeper.disk))) }
        ensures sealed { (w : CheckpointState) (sections : List Section)
            → D.honest self.new.keeper.disk → self.old.keeper.next ≡ None
            → self.old.keeper.checkpoint ≡ Some w → w.phase ≡ CheckpointPhase.Opened
            → HasGiven self.old.keeper.checkpoint sections (now (D.states self.old.keeper.disk))
            → OnOk result (UsesCheckpoint (checkpoint_of w sections)
            (now (D.states self.new.keeper.disk))) }

        // No other field changes, and no step is made.
        ensures same { self.new.keeper ≡ record self.old.keeper {
          disk = self.new.keeper.disk;
          sealed = self.new.keeper.sealed;
          checkpoint = self.new.keeper.checkpoint;
          must_close = self.new.keeper.must_close;
          is_broken = self.new.keeper.is_broken;
        } }
        ensures pass { self.new.steps ≡ self.old.steps }
    {
        checkpoint_walk::advance(&mut self.keeper)
    }
}
