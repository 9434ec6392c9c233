//! One checkpoint, and the device call that comes next in it.
//!
//! The phases, and what leads from each to the next. `advance` makes the device calls one by one:
//!
//! ```text
//! begin:   Idle, Sealed --> Gate if it is to be closed first, else GateWritten
//!          Gate -- close the gate --> GateWritten -- sync --> GateSynced
//!          GateSynced -- write zeros over the header --> Ready
//! section: Ready --> Staged -- write the section --> Ready
//! seal:    Ready --> Header -- write the header --> HeaderWritten -- sync --> HeaderSynced
//!          HeaderSynced -- open the gate --> Opened -- sync --> Sealed
//! ```
//!
//! A call that fails breaks the writer, which makes no more. `checkpoint_walk` begins it, gives it
//! the sections of the stripes in rising order, seals it and makes the calls.
ghost use Rattle.std.specs.Prelude.{◌≡◌, ◌≢◌, ◌⊎◌, ◌↔◌, ℕ, ◌+◌, ◌-◌, ◌<◌, ◌≤◌, ◌^◌, ◌++◌, ◌∷◌, [], List, length, Option, None, Some, true, false, IfOk, IfErr, OnOk, OnErr};
ghost use Rattle.std.specs.FinMap as finite;
ghost use Rattle.disk_model.specs.Files.{File, now, at_rest};
ghost use Rattle.disk_model.specs.Gates.{Call, IsPlaced};
ghost use Rattle.disk_model.specs.Calls.{Makes, Fails};
ghost use Rattle.map_model.specs.Maps.{Map};
ghost use Rattle.store_layout.specs.Checkpoints.{Section, checkpoint_file, checkpoint_header, is_to_close};
ghost use Rattle.store_layout.specs.Logs.{new_layout};
ghost use Rattle.checkpoint_file.specs.States.{AreKeysOf, IsOver, TakesSeal, TakesSection, begun, call_in, idle, state_after, with_section};
ghost use Rattle.checkpoint_file.specs.CheckpointStates.{Stands};
ghost use Rattle.checkpoint_file.specs.CheckpointSteps.{Advances, MayAdvance};

use crate::sections::{header, section_bytes};
use bin_table::LentEntry;
use disk_model::{DeviceError, Disk};
use java_hash::StripeCount;
use map_types::Refusal;
use std::alloc::Global;
use std::marker::Model;
use store_layout::{
    BODY_OFFSET, CHECKPOINT_HEADER_BYTES, CLOSED_GATE, CheckpointPhase, MOST_ENTRIES, OPEN_GATE,
    checkpoint_file,
};

/// The checkpoint of one generation. It holds one staged section, and nothing of those that are
/// written; the disk is lent to it. After a device failure it makes no more device calls.
#[derive(Drop)]
pub struct CheckpointWriter {
    alloc: Global,
    generation: u64,
    low: u64,
    stripes: StripeCount,
    phase: CheckpointPhase,
    count: u16,
    greatest: u64,
    body: usize,
    section: Vec<u8>,
    is_broken: bool,
}

impl Model for CheckpointWriter {
    ghost use Rattle.checkpoint_file.specs.States.{CheckpointState, IsSound};

    ghost Value = { CheckpointState };

    ghost view = { λ w.
        record {
          generation = w.generation;
          low = w.low;
          stripes = w.stripes.count;
          phase = w.phase;
          count = w.count;
          greatest = w.greatest;
          body = w.body;
          section = w.section.items;
          is_broken = w.is_broken;
        } };

    ghost invariant = { λ w.
        IsSound
        (record {
          generation = w.generation;
          low = w.low;
          stripes = w.stripes.count;
          phase = w.phase;
          count = w.count;
          greatest = w.greatest;
          body = w.body;
          section = w.section.items;
          is_broken = w.is_broken;
        }) };
}

impl CheckpointWriter {
    /// A writer of checkpoints. It takes no memory.
    pub fn new(alloc: Global) -> CheckpointWriter
        ensures state { result ≡ idle }
        ensures stands { (old : List ℕ) (file : File) → Stands result old [] file }
    {
        CheckpointWriter {
            alloc,
            generation: 0,
            low: 0,
            stripes: StripeCount { count: 1 },
            phase: CheckpointPhase::Idle,
            count: 0,
            greatest: 0,
            body: 0,
            section: Vec::new(alloc),
            is_broken: false,
        }
    }

    pub fn phase(&self) -> CheckpointPhase
        ensures { result ≡ self.now.phase }
    {
        self.phase
    }

    pub fn generation(&self) -> u64
        ensures { result ≡ self.now.generation }
    {
        self.generation
    }

    pub fn low(&self) -> u64
        ensures { result ≡ self.now.low }
    {
        self.low
    }

    pub fn stripes(&self) -> StripeCount
        ensures { result.count ≡ self.now.stripes }
    {
        self.stripes
    }

    /// How many sections were given. The next one is that of the stripe with this number.
    pub fn count(&self) -> u16
        ensures value { result ≡ self.now.count }
        ensures within { self.now.count ≤ self.now.stripes }
    {
        self.count
    }

    /// The greatest mark of the sections that were given.
    pub fn greatest_mark(&self) -> u64
        ensures { result ≡ self.now.greatest }
    {
        self.greatest
    }

    /// Begins the checkpoint of a generation. Its gate is to be closed (`must_close`) if the file
    /// reads an open one or none. A gate that reads closed is left as it is.
    pub fn begin(
        &mut self,
        generation: u64,
        low: u64,
        stripes: StripeCount,
        must_close: bool,
    ) -> Result<(), Refusal>
        ensures wrong_phase { (result ≡ Err Refusal.WrongPhase) ↔ (IsOver self.old.phase → ⊥) }
        ensures no_other { IfErr result (λ refusal. refusal ≡ Refusal.WrongPhase) }
        ensures ok { OnOk result
            (self.new ≡ record (begun generation low stripes.count
            must_close) { is_broken = self.old.is_broken }) }
        ensures stands { OnOk result
            ((old : List ℕ) → must_close ≡ is_to_close old → Stands self.new old [] (at_rest old)) }
        ensures err { OnErr result (self.new ≡ self.old) }
    {
        match self.phase {
            CheckpointPhase::Idle | CheckpointPhase::Sealed => {}
            _ => return Err(Refusal::WrongPhase),
        }
        self.generation = generation;
        self.low = low;
        self.stripes = stripes;
        self.phase = if must_close {
            CheckpointPhase::Gate
        } else {
            CheckpointPhase::GateWritten
        };
        self.count = 0;
        self.greatest = 0;
        self.body = 0;
        self.section.clear();
        Ok(())
    }

    /// Stages the section of the next stripe: what it held after the first `mark` commands. The entries
    /// are encoded where they stand.
    pub fn section(&mut self, mark: u64, entries: &[LentEntry<'_>]) -> Result<(), Refusal>
        // The section is staged behind those before it, and the file stays.
        ensures ok { OnOk result (self.new ≡ with_section mark entries.now self.old) }
        ensures staged { OnOk result
            ((map : Map) (old : List ℕ) (sections : List Section) (file : File)
            → entries.now ≡ finite.entries map
            → AreKeysOf self.old.stripes self.old.count entries.now → self.old.low ≤ mark
            → Stands self.old old sections file
            → Stands self.new old (sections ++ record { mark = mark; map = map } ∷ []) file) }

        // Refused: at a wrong time, with too many entries, or without memory.
        ensures wrong_phase { (result ≡ Err Refusal.WrongPhase) ↔ (TakesSection self.old → ⊥) }
        ensures full { (result ≡ Err Refusal.LogFull)
            ↔ (TakesSection self.old × (2 ^ 32 - 1 < length entries.now)) }
        ensures no_other { IfErr result (λ refusal. (refusal ≡ Refusal.WrongPhase)
            ⊎ (refusal ≡ Refusal.LogFull) ⊎ (refusal ≡ Refusal.NoMemory)) }

        // After a refusal the writer is as it was.
        ensures err { OnErr result (self.new ≡ self.old) }
    {
        if self.phase != CheckpointPhase::Ready || self.count == self.stripes.count {
            return Err(Refusal::WrongPhase);
        }
        if entries.len() > MOST_ENTRIES {
            return Err(Refusal::LogFull);
        }
        self.section = section_bytes(self.alloc, mark, entries)?;
        self.count += 1;
        self.greatest = self.greatest.max(mark);
        self.phase = CheckpointPhase::Staged;
        Ok(())
    }

    /// Goes on to the header, once the sections of all stripes are written.
    pub fn seal(&mut self) -> Result<(), Refusal>
        ensures ok { OnOk result (self.new ≡ record self.old { phase = CheckpointPhase.Header }) }
        ensures stands { OnOk result
            ((old : List ℕ) (sections : List Section) (file : File)
            → Stands self.old old sections file → Stands self.new old sections file) }
        ensures wrong_phase { (result ≡ Err Refusal.WrongPhase) ↔ (TakesSeal self.old → ⊥) }
        ensures no_other { IfErr result (λ refusal. refusal ≡ Refusal.WrongPhase) }
        ensures err { OnErr result (self.new ≡ self.old) }
    {
        if self.phase != CheckpointPhase::Ready || self.count != self.stripes.count {
            return Err(Refusal::WrongPhase);
        }
        self.phase = CheckpointPhase::Header;
        Ok(())
    }

    /// Writes the header.
    fn write_header<D: Disk>(&self, disk: &mut D) -> Result<(), DeviceError>
        requires place { D.honest disk.old
            → 1 ≤ length (now (D.states disk.old) (checkpoint_file self.now.generation)).seen }
        ensures was_honest { D.honest disk.new → D.honest disk.old }
        ensures ok { OnOk result
            (Makes D.states D.failures (checkpoint_file self.now.generation)
            (Call.writes 1
            (checkpoint_header new_layout self.now.generation self.now.low self.now.greatest
            self.now.stripes self.now.body)) disk.old disk.new) }
        ensures err { OnErr result
            (Fails D.states D.failures (checkpoint_file self.now.generation)
            (Call.writes 1
            (checkpoint_header new_layout self.now.generation self.now.low self.now.greatest
            self.now.stripes self.now.body)) disk.old disk.new) }
    {
        let bytes = header(
            self.generation,
            self.low,
            self.greatest,
            self.stripes,
            self.body as u64,
        );
        disk.write_at(checkpoint_file(self.generation), 1, &bytes)
    }

    /// Makes the device call that is due. If none is due, it makes none.
    fn make_call<D: Disk>(&self, disk: &mut D) -> Result<(), DeviceError>
        requires place { D.honest disk.old → (call : Call)
            → call_in self.now.phase self.now ≡ Some call
            → IsPlaced call (now (D.states disk.old) (checkpoint_file self.now.generation)) }
        ensures rests { call_in self.now.phase self.now ≡ None
            → (result ≡ Ok tt) × (disk.new ≡ disk.old) }
        ensures was_honest { D.honest disk.new → D.honest disk.old }
        ensures ok { OnOk result
            ((call : Call) → call_in self.now.phase self.now ≡ Some call
            → Makes D.states D.failures (checkpoint_file self.now.generation) call disk.old
            disk.new) }
        ensures err { OnErr result
            ((call : Call) → call_in self.now.phase self.now ≡ Some call
            → Fails D.states D.failures (checkpoint_file self.now.generation) call disk.old
            disk.new) }
    {
        let file = checkpoint_file(self.generation);
        match self.phase {
            CheckpointPhase::Idle | CheckpointPhase::Ready | CheckpointPhase::Sealed => Ok(()),
            CheckpointPhase::Gate => disk.write_at(file, 0, &[CLOSED_GATE]),
            CheckpointPhase::GateSynced => disk.write_at(file, 1, &[0; CHECKPOINT_HEADER_BYTES]),
            CheckpointPhase::Staged => disk.write_at(file, BODY_OFFSET + self.body, &self.section),
            CheckpointPhase::Header => self.write_header(disk),
            CheckpointPhase::HeaderSynced => disk.write_at(file, 0, &[OPEN_GATE]),
            CheckpointPhase::GateWritten
            | CheckpointPhase::HeaderWritten
            | CheckpointPhase::Opened => disk.sync(file),
        }
    }

    /// The device call that was due has succeeded.
    fn go_on(&mut self)
        ensures { self.new ≡ state_after self.old.phase self.old }
    {
        match self.phase {
            CheckpointPhase::Idle | CheckpointPhase::Ready | CheckpointPhase::Sealed => {}
            CheckpointPhase::Gate => self.phase = CheckpointPhase::GateWritten,
            CheckpointPhase::GateWritten => self.phase = CheckpointPhase::GateSynced,
            CheckpointPhase::GateSynced => self.phase = CheckpointPhase::Ready,
            CheckpointPhase::Staged => {
                self.phase = CheckpointPhase::Ready;
                self.body += self.section.len();
                self.section.clear();
            }
            CheckpointPhase::Header => self.phase = CheckpointPhase::HeaderWritten,
            CheckpointPhase::HeaderWritten => self.phase = CheckpointPhase::HeaderSynced,
            CheckpointPhase::HeaderSynced => self.phase = CheckpointPhase::Opened,
            CheckpointPhase::Opened => self.phase = CheckpointPhase::Sealed,
        }
    }

    /// Makes the device call that is due, and no other. If none is due, it makes none. It takes no
    /// memory.
    pub fn advance<D: Disk>(&mut self, disk: &mut D) -> Result<CheckpointPhase, Refusal>
        requires stands { MayAdvance D.states D.honest self.old disk.old }

        ensures stands { MayAdvance D.states D.honest self.new disk.new }
        ensures broken { self.old.is_broken ≡ true
            → (result ≡ Err Refusal.Failed) × (self.new ≡ self.old) × (disk.new ≡ disk.old) }
        ensures rests { self.old.is_broken ≡ false → call_in self.old.phase self.old ≡ None
            → (result ≡ Ok self.old.phase) × (self.new ≡ self.old) × (disk.new ≡ disk.old) }
        ensures advances { self.old.is_broken ≡ false → (call : Call)
            → call_in self.old.phase self.old ≡ Some call
            → Advances D.states D.failures D.honest call self.old self.new disk.old disk.new
            result }
    {
        if self.is_broken {
            return Err(Refusal::Failed);
        }
        match self.make_call(disk) {
            Ok(()) => {
                self.go_on();
                Ok(self.phase)
            }
            Err(_) => {
                self.is_broken = true;
                Err(Refusal::Failed)
            }
        }
    }
}
