//! One log, and the device call that comes next in it.
//!
//! The phases, and what leads from each to the next. `advance` makes the device calls one by one:
//!
//! ```text
//! new, begin:      Header -- write header, closed gate --> HeaderWritten -- sync --> Idle
//! stage, end_with: Idle --> Staged -- write frame, closed gate --> Written -- sync --> Synced
//!                  Synced -- open the gate before the frame --> Opened -- sync --> Idle
//! ```
//!
//! After the last sync of a batch its commands are committed; after that of an end frame the log
//! is over. In `Staged` zeros may be written ahead first (`ahead`). A call that fails breaks
//! the log, which makes no more. `flusher` stages and makes the calls, `checkpoint_walk` makes the
//! log that follows, `recovery` makes the first log and goes on with the one that it found.
ghost use Rattle.std.specs.Prelude.{◌≡◌, ◌≢◌, ◌⊎◌, ◌↔◌, ℕ, ◌+◌, ◌<◌, ◌≤◌, ◌^◌, ◌++◌, ◌∷◌, [], List, length, Option, None, Some, true, false, IfErr, OnOk, OnErr};
ghost use Rattle.std.specs.List.{All};
ghost use Rattle.disk_model.specs.Calls.{Makes, Fails};
ghost use Rattle.disk_model.specs.Files.{File, now, at_rest};
ghost use Rattle.disk_model.specs.Gates.{Call, IsPlaced};
ghost use Rattle.log_records.specs.Layout.{layout_of};
ghost use Rattle.ticket_order.specs.Records.{IsWithin};
ghost use Rattle.store_layout.specs.Logs.{Batch, IsClosed, commands_in, frame, log_file, log_front, most_commands, most_frame_bytes, most_log_bytes};
ghost use Rattle.gate_log.specs.States.{AreFrom, IsResting, batch_of, begun, bytes_staged, call_in, commands_of, log_after, resumed};
ghost use Rattle.gate_log.specs.LogStates.{Stands};
ghost use Rattle.gate_log.specs.LogSteps.{Advances, MayAdvance};

use crate::frames::{batch_frame, end_frame_and_gate, frame_len, header_and_gate};
use disk_model::{DeviceError, Disk};
use log_records::Version;
use map_types::Refusal;
use std::alloc::Global;
use std::marker::Model;
use store_layout::{HEADER_BYTES, MOST_LOG_BYTES, NEW_VERSION, OPEN_GATE, Phase, log_file};
use ticket_order::Entry;

/// A frame stands between two gates: its own, and the closed one behind it.
const GATES: usize = 2;

/// The log of one generation. It holds one staged frame, and nothing of what was committed; the disk
/// is lent to it. After a device failure it makes no more device calls.
#[derive(Drop)]
pub struct GateLog {
    alloc: Global,
    version: Version,
    pub(crate) generation: u64,
    low: u64,
    pub(crate) phase: Phase,
    pub(crate) gate: usize,
    committed: u64,
    count: u32,
    pub(crate) frame: Vec<u8>,
    pub(crate) ending: Option<u64>,
    pub(crate) is_broken: bool,
    // Up to where zeros were written ahead, as far as it is known. Nothing rests on it.
    pub(crate) ahead: usize,
}

impl Model for GateLog {
    ghost use Rattle.gate_log.specs.States.{LogState, IsSound};

    ghost Value = { LogState };

    ghost view = { λ log.
        record {
          version = log.version;
          generation = log.generation;
          low = log.low;
          phase = log.phase;
          gate = log.gate;
          committed = log.committed;
          count = log.count;
          frame = log.frame.items;
          ending = log.ending;
          is_broken = log.is_broken;
        } };

    ghost invariant = { λ log.
        IsSound
        (record {
          version = log.version;
          generation = log.generation;
          low = log.low;
          phase = log.phase;
          gate = log.gate;
          committed = log.committed;
          count = log.count;
          frame = log.frame.items;
          ending = log.ending;
          is_broken = log.is_broken;
        }) };
}

impl GateLog {
    /// A log that is to be begun, of the version of each new generation: its first step writes the
    /// header. It takes no memory.
    pub fn new(alloc: Global, generation: u64, low: u64) -> GateLog
        ensures state { result ≡ begun generation low }
        ensures stands { (file : File) → Stands result [] [] file }
    {
        GateLog {
            alloc,
            version: NEW_VERSION,
            generation,
            low,
            phase: Phase::Header,
            gate: HEADER_BYTES,
            committed: low,
            count: 0,
            frame: Vec::new(alloc),
            ending: None,
            is_broken: false,
            ahead: 0,
        }
    }

    /// A log that was found on the disk, with its version: the closed gate that counts stands at
    /// `gate`, and the commands before it are the first `committed`.
    pub fn resume(
        alloc: Global,
        version: Version,
        generation: u64,
        low: u64,
        gate: usize,
        committed: u64,
    ) -> GateLog
        requires { gate + 1 < 2 ^ 64 }
        ensures state { result ≡ resumed version generation low gate committed }
        ensures stands { (batches : List Batch) (content : List ℕ)
            → IsClosed (layout_of version) generation low batches content
            → gate ≡ length (log_front (layout_of version) generation low batches)
            → committed ≡ low + length (commands_in batches)
            → Stands result batches [] (at_rest content) }
    {
        GateLog {
            alloc,
            version,
            generation,
            low,
            phase: Phase::Idle,
            gate,
            committed,
            count: 0,
            frame: Vec::new(alloc),
            ending: None,
            is_broken: false,
            ahead: 0,
        }
    }

    pub fn phase(&self) -> Phase
        ensures { result ≡ self.now.phase }
    {
        self.phase
    }

    /// Whether a batch or an end frame may be staged. It is not so in the middle of a commit, nor once
    /// the end frame is committed.
    pub fn is_resting(&self) -> bool
        ensures { (result ≡ true) ↔ IsResting self.now }
    {
        self.phase == Phase::Idle && self.ending.is_none()
    }

    /// The version of its records and its header.
    pub fn version(&self) -> Version
        ensures { result ≡ self.now.version }
    {
        self.version
    }

    pub fn generation(&self) -> u64
        ensures { result ≡ self.now.generation }
    {
        self.generation
    }

    /// The ticket of the first command that it may hold.
    pub fn low(&self) -> u64
        ensures { result ≡ self.now.low }
    {
        self.low
    }

    /// How many commands are committed, with those before this log.
    pub fn committed(&self) -> u64
        ensures { result ≡ self.now.committed }
    {
        self.committed
    }

    /// Where the closed gate stands behind the committed batches.
    pub fn gate(&self) -> usize
        ensures place { result ≡ self.now.gate }
        ensures fits { self.now.gate + 1 < 2 ^ 64 }
    {
        self.gate
    }

    /// Goes over to the log of another generation, as one that is to be begun. What this one's file
    /// holds stays there.
    pub fn begin(&mut self, generation: u64, low: u64) -> Result<(), Refusal>
        ensures wrong_phase { (result ≡ Err Refusal.WrongPhase) ↔ (self.old.phase ≢ Phase.Idle) }
        ensures no_other { IfErr result (λ refusal. refusal ≡ Refusal.WrongPhase) }
        ensures ok { OnOk result
            (self.new ≡ record (begun generation low) { is_broken = self.old.is_broken }) }
        ensures stands { OnOk result ((file : File) → Stands self.new [] [] file) }
        ensures err { OnErr result (self.new ≡ self.old) }
    {
        if self.phase != Phase::Idle {
            return Err(Refusal::WrongPhase);
        }
        self.version = NEW_VERSION;
        self.generation = generation;
        self.low = low;
        self.phase = Phase::Header;
        self.gate = HEADER_BYTES;
        self.committed = low;
        self.count = 0;
        self.frame.clear();
        self.ending = None;
        self.ahead = 0;
        Ok(())
    }

    /// Stages the changes of the next tickets as one batch.
    pub fn stage(&mut self, entries: &[Entry]) -> Result<(), Refusal>
        // The changes have the next tickets, and may be one batch of a log.
        requires in_order { AreFrom self.old.committed entries.now }
        requires fits { self.old.committed + length entries.now < 2 ^ 64 }
        requires some { 1 ≤ length entries.now }
        requires few { length entries.now ≤ most_commands }
        requires short { length (frame (layout_of self.old.version)
            (batch_of self.old.committed entries.now)) ≤ most_frame_bytes }

        // Each key is within the limit of the log's version.
        requires within { All (IsWithin (layout_of self.old.version).key_limit)
            (commands_of entries.now) }

        // Their frame is staged behind what is committed, and the file stays.
        ensures ok { OnOk result
            (self.new ≡ record self.old {
              phase = Phase.Staged;
              count = length entries.now;
              frame = frame (layout_of self.old.version)
                  (batch_of self.old.committed entries.now) ++ 0 ∷ [];
            }) }
        ensures staged { OnOk result
            ((batches : List Batch) (staged : List Batch) (file : File)
            → Stands self.old batches staged file
            → Stands self.new batches (batch_of self.old.committed entries.now ∷ []) file) }

        // Refused: at a wrong time, in a full log, or without memory. Nothing changes.
        ensures wrong_phase { (result ≡ Err Refusal.WrongPhase) ↔ (IsResting self.old → ⊥) }
        ensures full { (result ≡ Err Refusal.LogFull)
            ↔ (IsResting self.old
            × (most_log_bytes < self.old.gate + 1 + length (frame (layout_of self.old.version)
            (batch_of self.old.committed entries.now)) + 1)) }
        ensures no_other { IfErr result (λ refusal. (refusal ≡ Refusal.WrongPhase)
            ⊎ (refusal ≡ Refusal.LogFull) ⊎ (refusal ≡ Refusal.NoMemory)) }
        ensures err { OnErr result (self.new ≡ self.old) }
    {
        if self.phase != Phase::Idle || self.ending.is_some() {
            return Err(Refusal::WrongPhase);
        }
        if self.gate > MOST_LOG_BYTES - GATES - frame_len(self.version, entries) {
            return Err(Refusal::LogFull);
        }
        self.frame = batch_frame(self.alloc, self.version, self.committed, entries)?;
        self.count = entries.len() as u32;
        self.phase = Phase::Staged;
        Ok(())
    }

    /// Stages the end frame, which names the generation of the log that goes on. After its last step
    /// the log is over.
    pub fn end_with(&mut self, generation: u64) -> Result<(), Refusal>
        ensures ok { OnOk result
            (self.new ≡ record self.old { phase = Phase.Staged; ending = Some generation }) }
        ensures staged { OnOk result
            ((batches : List Batch) (staged : List Batch) (file : File)
            → Stands self.old batches staged file → Stands self.new batches staged file) }
        ensures wrong_phase { (result ≡ Err Refusal.WrongPhase) ↔ (IsResting self.old → ⊥) }
        ensures no_other { IfErr result (λ refusal. refusal ≡ Refusal.WrongPhase) }
        ensures err { OnErr result (self.new ≡ self.old) }
    {
        if self.phase != Phase::Idle || self.ending.is_some() {
            return Err(Refusal::WrongPhase);
        }
        self.ending = Some(generation);
        self.phase = Phase::Staged;
        Ok(())
    }

    /// Makes the device call that is due; in `Idle` it makes none.
    fn make_call<D: Disk>(&self, disk: &mut D) -> Result<(), DeviceError>
        requires place { D.honest disk.old → (call : Call)
            → call_in self.now.phase self.now ≡ Some call
            → IsPlaced call (now (D.states disk.old) (log_file self.now.generation)) }
        ensures idle { self.now.phase ≡ Phase.Idle → (result ≡ Ok tt) × (disk.new ≡ disk.old) }
        ensures was_honest { D.honest disk.new → D.honest disk.old }
        ensures ok { OnOk result
            ((call : Call) → call_in self.now.phase self.now ≡ Some call
            → Makes D.states D.failures (log_file self.now.generation) call disk.old disk.new) }
        ensures err { OnErr result
            ((call : Call) → call_in self.now.phase self.now ≡ Some call
            → Fails D.states D.failures (log_file self.now.generation) call disk.old disk.new) }
    {
        let file = log_file(self.generation);
        match self.phase {
            Phase::Idle => Ok(()),
            Phase::Header => disk.write_at(
                file,
                0,
                &header_and_gate(self.version, self.generation, self.low),
            ),
            Phase::Staged => match self.ending {
                Some(next) => disk.write_at(file, self.gate + 1, &end_frame_and_gate(next)),
                None => disk.write_at(file, self.gate + 1, &self.frame),
            },
            Phase::Synced => disk.write_at(file, self.gate, &[OPEN_GATE]),
            Phase::HeaderWritten | Phase::Written | Phase::Opened => disk.sync(file),
        }
    }

    /// The device call that was due has succeeded.
    fn go_on(&mut self)
        ensures { self.new ≡ log_after self.old.phase self.old }
    {
        match self.phase {
            Phase::Idle => {}
            Phase::Header => self.phase = Phase::HeaderWritten,
            Phase::HeaderWritten => self.phase = Phase::Idle,
            Phase::Staged => self.phase = Phase::Written,
            Phase::Written => self.phase = Phase::Synced,
            Phase::Synced => self.phase = Phase::Opened,
            Phase::Opened => {
                self.phase = Phase::Idle;
                self.gate += self.frame.len();
                self.committed += u64::from(self.count);
                self.count = 0;
                self.frame.clear();
            }
        }
    }

    /// Makes the device call that is due, and no other; in `Idle` it makes none. It takes no memory.
    pub fn advance<D: Disk>(&mut self, disk: &mut D) -> Result<Phase, Refusal>
        requires stands { MayAdvance D.states D.honest self.old disk.old }

        ensures stands { MayAdvance D.states D.honest self.new disk.new }
        ensures broken { self.old.is_broken ≡ true
            → (result ≡ Err Refusal.Failed) × (self.new ≡ self.old) × (disk.new ≡ disk.old) }
        ensures rests { self.old.is_broken ≡ false → self.old.phase ≡ Phase.Idle
            → (result ≡ Ok Phase.Idle) × (self.new ≡ self.old) × (disk.new ≡ disk.old) }
        ensures advances { self.old.is_broken ≡ false → self.old.phase ≢ Phase.Idle
            → Advances D.states D.failures D.honest self.old self.new disk.old disk.new result }
    {
        if self.is_broken {
            return Err(Refusal::Failed);
        }
        match self.make_call(disk) {
            Ok(()) => {
                self.go_on();
                Ok(self.phase)
            }
            Err(_) => {
                self.is_broken = true;
                Err(Refusal::Failed)
            }
        }
    }
}
