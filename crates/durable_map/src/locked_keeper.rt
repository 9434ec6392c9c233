//! The keeper with the steps of its pass, one value under one lock. Between any two of its calls it
//! keeps what a stop is to leave, neither sweeps nor captures, and holds no stripe.
ghost use Rattle.std.specs.Prelude.{◌≡◌, true, false, IfErr};
ghost use Rattle.std.specs.Arc.{arc_value};
ghost use Rattle.stripe_locks.specs.Holding.{name_of_words};
ghost use Rattle.stripe_locks.specs.Passes.{recorded, stripe_count};
ghost use Rattle.durable_map.specs.LockedKeepers.{HasCause, Keeps, KeepsSealed, OnlyCaptures};

use crate::telling::{Done, SealedCheckpoint, Standing};
use checkpoint_file::CheckpointPhase;
use disk_model::Disk;
use gate_log::Phase;
use journal::{Journal, OwnSteps, laws};
use keyed_lock::Keyed;
use map_types::Refusal;
use std::marker::Model;
use std::time::Instant;
use stripe_locks::Stripes;
use ticket_order::Steps;

/// The longest batch.
const MOST_COMMANDS: u32 = 65_536;

/// What a turn of a loop came to.
#[derive(Clone, Copy, Debug, PartialEq, Eq)]
pub(crate) enum Turn {
    /// Something was done, and there may be more to do.
    Worked,
    /// The same: a checkpoint was sealed.
    Sealed,
    /// There was nothing to do.
    Rested,
    /// The turns of the other loop come first.
    Awaited,
}

/// What a stop is to leave of a journal, if its pass made no call, and its sections and its sealed checkpoint
/// are kept: its sweeps
/// took what is committed, no more is published, and what a stop leaves stands for that. Until a
/// device call fails, the marks of the sealed checkpoint are committed.
pub(crate) fn what_is_kept<D: Disk>(journal: &Journal<D, OwnSteps>)
    ensures { OnlyCaptures (stripe_count (arc_value journal.now.steps.stripes))
        (recorded journal.now.steps.pass)
        → (journal.now.keeper.is_broken ≡ true
        → KeepsSealed D.states D.honest journal.now.keeper)
        → Keeps D.states D.honest (stripe_count (arc_value journal.now.steps.stripes))
        journal.now.keeper (recorded journal.now.steps.pass) }
{
    laws::journals_rest(journal);
    laws::committed_were_taken(journal);
    laws::stops_of_a_journal(journal);
}

/// The keeper with the steps of its pass. Each of its calls makes at most one device call.
#[derive(Drop)]
pub(crate) struct LockedKeeper<D: Disk> {
    journal: Journal<D, OwnSteps>,
    // A file was found full: a batch would have carried the log past its greatest length, or a stripe has
    // too many entries for a checkpoint.
    is_full: bool,
    done: Done,
}

impl<D: Disk> Model for LockedKeeper<D> {
    ghost use Rattle.std.specs.Arc.{arc_value};
    ghost use Rattle.std.specs.Coded.{coded_ℕ, coded_list, coded×, code_by};
    ghost use Rattle.std.specs.Prelude.{refl};
    ghost use Rattle.ticket_order.specs.contracts.record.Record as record_type;
    ghost use Rattle.stripe_locks.specs.Holding.{name_of_words};
    ghost use Rattle.stripe_locks.specs.Passes.{recorded, stripe_count};
    ghost use Rattle.durable_map.specs.LockedKeepers.{HasCause, Keeps, Locked};

    ghost Value = { Locked D };

    ghost coded = { code_by _ (coded× record_type.the_row.coded (coded× (coded_list coded_ℕ) D.code))
        (λ x. (x.pass, (x.words, x.disk)))
        (λ p. record { pass = p.0; words = p.1.0; disk = p.1.1 }) (λ _. refl) };

    ghost view = { λ locked. record {
      pass = recorded locked.journal.steps.pass;
      words = name_of_words (arc_value locked.journal.steps.stripes);
      disk = locked.journal.keeper.disk;
    } };

    ghost invariant = { λ locked.
        Keeps D.states D.honest (stripe_count (arc_value locked.journal.steps.stripes))
        locked.journal.keeper (recorded locked.journal.steps.pass)
        × HasCause locked.is_full locked.journal.keeper };
}

/// The pass under the lock makes its steps on the words of the stripes that are the lock's key.
impl<D: Disk> Keyed<Stripes> for LockedKeeper<D> {
    ghost use Rattle.std.specs.Prelude.{◌≡◌};
    ghost use Rattle.stripe_locks.specs.Holding.{name_of_words};

    ghost fits = { λ stripes locked. locked.words ≡ name_of_words stripes };
}

impl<D: Disk> LockedKeeper<D> {
    /// The journal of a directory that was opened, before its first call.
    pub(crate) fn new(journal: Journal<D, OwnSteps>) -> LockedKeeper<D>
        requires keeps { Keeps D.states D.honest
            (stripe_count (arc_value journal.steps.stripes)) journal.keeper
            (recorded journal.steps.pass) }
        requires cause { HasCause false journal.keeper }
        ensures pass { result.pass ≡ recorded journal.steps.pass }
        ensures words { result.words ≡ name_of_words (arc_value journal.steps.stripes) }
        ensures disk { result.disk ≡ journal.keeper.disk }
    {
        LockedKeeper {
            journal,
            is_full: false,
            done: Done::new(),
        }
    }

    /// The disk, for a map that couldn't be begun.
    pub(crate) fn into_disk(self) -> D
        ensures { result ≡ self.disk }
    {
        let LockedKeeper { journal, .. } = self;
        journal.into_disk()
    }

    /// The stripes, whose other passes are woken.
    fn stripes(&self) -> &Stripes {
        &self.journal.steps().stripes
    }

    /// How many commands are committed.
    pub(crate) fn committed(&self) -> u64 {
        self.journal.keeper().committed()
    }

    /// How the map stands, of which so many tickets were drawn.
    pub(crate) fn standing(&self, tickets: u64) -> Standing {
        Standing {
            tickets,
            durable: self.journal.keeper().published,
            batches: self.done.batches,
            log_bytes: self.journal.keeper().log.gate() as u64 + 1,
            generation: self.journal.keeper().sealed,
            sealed: self.done.sealed,
        }
    }

    /// Takes the entries of a stripe, unless another pass holds it or no memory is found.
    fn sweep(&mut self, stripe: usize)
        ensures words { self.new.words ≡ self.old.words }
    {
        if stripe >= self.journal.steps().stripes().get() {
            return;
        }
        let _swept = self.journal.try_sweep(stripe);
        what_is_kept(&self.journal);
    }

    /// Takes the entries of each stripe that is marked, or of each at all, unless another pass holds it.
    fn gather(&mut self, sweeps_all: bool)
        ensures words { self.new.words ≡ self.old.words }
    {
        let marks = self.stripes().take_marks();
        for stripe in 0..self.journal.steps().stripes().get() {
            if sweeps_all || marks.contains(stripe) {
                self.sweep(stripe);
            }
        }
    }

    /// Stages the longest batch of what is in hand, and returns its length.
    fn stage(&mut self) -> Result<u32, Refusal>
        ensures words { self.new.words ≡ self.old.words }
    {
        let staged = self.journal.stage_batch(MOST_COMMANDS);
        what_is_kept(&self.journal);
        if matches!(staged, Err(Refusal::LogFull)) {
            self.is_full = true;
        }
        staged
    }

    /// Writes zeros ahead of the staged batch, if that is due.
    fn write_ahead(&mut self) -> Result<(), Refusal>
        ensures words { self.new.words ≡ self.old.words }
    {
        let written = self.journal.write_ahead();
        what_is_kept(&self.journal);
        written
    }

    /// Makes the device call that is due in the logs.
    fn advance_logs(&mut self) -> Result<Phase, Refusal>
        ensures words { self.new.words ≡ self.old.words }
    {
        let stepped = self.journal.advance();
        what_is_kept(&self.journal);
        stepped
    }

    /// Whether no device call is due in the logs.
    fn is_resting(&self) -> bool {
        self.journal.keeper().log.is_resting() && self.journal.keeper().next.is_none()
    }

    /// DURABLE with the committed count, and wakes those who wait for it, if any do.
    fn publish(&mut self)
        ensures words { self.new.words ≡ self.old.words }
    {
        self.done.note_batch(self.journal.keeper().published < self.journal.keeper().committed());
        self.journal.publish();
        what_is_kept(&self.journal);
        self.stripes().wake_released();
    }

    /// FAIL, and wakes all who wait for it or for their positions. If no device call has failed and no
    /// file was found full, it does nothing.
    pub(crate) fn fail(&mut self)
        ensures words { self.new.words ≡ self.old.words }
    {
        if self.journal.keeper().is_broken || self.is_full {
            self.journal.fail();
            what_is_kept(&self.journal);
            self.stripes().wake_failed();
        }
    }

    /// A turn of the log. If no device call is due, it takes what the marked stripes have, or what
    /// all have, and stages a batch, ahead of which it may write zeros. Else it makes the call, and
    /// publishes what that committed.
    pub(crate) fn flush(&mut self, sweeps_all: bool) -> Result<Turn, Refusal>
        ensures words { self.new.words ≡ self.old.words }
    {
        if self.is_resting() {
            if self.is_full {
                return Err(Refusal::LogFull);
            }
            self.gather(sweeps_all);
            let count = self.stage()?;
            if count == 0 {
                return Ok(Turn::Rested);
            }
            self.write_ahead()?;
            return Ok(Turn::Worked);
        }
        let _phase = self.advance_logs()?;
        if self.is_resting() {
            self.publish();
        }
        Ok(Turn::Worked)
    }

    /// Begins a checkpoint if the newest log has at least `bytes` bytes, and wakes the loop of the
    /// log, which begins another log.
    fn begin_checkpoint(&mut self, bytes: u64, now: Option<Instant>) -> Result<Turn, Refusal>
        ensures words { self.new.words ≡ self.old.words }
    {
        let length = self.journal.keeper().log.gate() as u64 + 1;
        if length < bytes {
            return Ok(Turn::Rested);
        }
        let begun = self.journal.begin();
        what_is_kept(&self.journal);
        begun?;
        self.done.note_begun(now);
        self.stripes().wake_keeper();
        Ok(Turn::Worked)
    }

    /// Gives the checkpoint the section of this stripe, unless another pass holds it.
    fn capture_section(&mut self, stripe: usize) -> Result<u64, Refusal>
        ensures words { self.new.words ≡ self.old.words }
    {
        let captured = self.journal.try_capture(stripe);
        what_is_kept(&self.journal);
        captured
    }

    /// The same of the stripe that is next, and notes how many entries it has.
    fn capture(&mut self, stripe: usize) -> Result<Turn, Refusal>
        ensures words { self.new.words ≡ self.old.words }
    {
        let captured = self.capture_section(stripe);
        if matches!(captured, Err(Refusal::LogFull)) {
            self.is_full = true;
        }
        let _mark = captured?;
        self.done.note_captured(self.journal.steps().entries());
        Ok(Turn::Worked)
    }

    fn seal_checkpoint(&mut self) -> Result<Turn, Refusal>
        ensures words { self.new.words ≡ self.old.words }
    {
        let sealed = self.journal.seal();
        what_is_kept(&self.journal);
        sealed?;
        Ok(Turn::Worked)
    }

    /// Makes the device call that is due in the file of the checkpoint.
    fn advance_checkpoint(&mut self) -> Result<Turn, Refusal>
        ensures words { self.new.words ≡ self.old.words }
    {
        let stepped = self.journal.advance_checkpoint();
        what_is_kept(&self.journal);
        match stepped? {
            CheckpointPhase::Sealed => Ok(Turn::Sealed),
            _ => Ok(Turn::Worked),
        }
    }

    /// The checkpoint that was just sealed, for who watches.
    pub(crate) fn note_sealed(&mut self, now: Option<Instant>) -> SealedCheckpoint
        ensures words { self.new.words ≡ self.old.words }
    {
        let sealed = SealedCheckpoint {
            generation: self.journal.keeper().sealed,
            entries: self.done.captured,
            begun: self.done.begun,
            ended: now,
        };
        self.done.sealed = Some(sealed);
        sealed
    }

    /// A turn of the checkpoints. If none runs, one is begun `now` once the newest log has at least
    /// `bytes` bytes. Else it makes the device call that is due in its file, captures its next
    /// stripe, or seals it. While its log is begun it waits for the turns of the log. Refused with
    /// `Failed` once a device call has failed or a FAIL was made.
    pub(crate) fn checkpoint(&mut self, bytes: u64, now: Option<Instant>) -> Result<Turn, Refusal>
        ensures words { self.new.words ≡ self.old.words }
    {
        if self.journal.keeper().is_broken || self.journal.keeper().has_failed {
            return Err(Refusal::Failed);
        }
        let Some(writer) = &self.journal.keeper().checkpoint else {
            return self.begin_checkpoint(bytes, now);
        };
        if self.journal.keeper().next.is_some() {
            return Ok(Turn::Awaited);
        }
        if writer.phase() != CheckpointPhase::Ready {
            return self.advance_checkpoint();
        }
        let stripe = writer.count() as usize;
        if stripe < writer.stripes().get() {
            return self.capture(stripe);
        }
        self.seal_checkpoint()
    }

    /// From now on `count` zeros are written ahead of a batch at a time; with 0 none are.
    pub(crate) fn set_ahead(&mut self, count: usize) -> Result<(), Refusal>
        ensures words { self.new.words ≡ self.old.words }
        ensures err { IfErr result (λ refusal. refusal ≡ Refusal.NoMemory) }
    {
        let set = self.journal.set_ahead(count);
        what_is_kept(&self.journal);
        set
    }
}
