//! A disk in memory that tells of its last call what that left.
ghost use Rattle.std.specs.Prelude.{◌≡◌, true, false, List, ◌∷◌, [], length, Option, IfOk, IfSome, OnOk, OnErr};
ghost use Rattle.disk_model.specs.Files.{Files, Leaves, now, empty_files};
ghost use Rattle.disk_model.specs.Memory.{memory_states, planned_of};
ghost use Rattle.disk_model.specs.Fills.{after_stop, left_by};
ghost use Rattle.sim_rules.specs.After.{file_of};
ghost use Rattle.schedule_sim.specs.Noting.{CameTo, IsCounted, IsPlanned, IsSameFill, IsTied, WasLast, counted_prop, planned_prop, tied_prop};

use disk_model::{DeviceError, Disk, Failure, Fill, MemDisk};
use sim_rules::DeviceCall;
use std::alloc::{AllocError, Global};

/// A write or a sync, and the fill with which it failed, if that was planned.
#[derive(Drop)]
struct Noted {
    call: DeviceCall,
    lost: Option<Fill>,
}

/// A disk in memory, with a note of its last call, if that was a write or a sync.
#[derive(Drop)]
pub(crate) struct Traced {
    alloc: Global,
    disk: MemDisk,
    /// The fill of the failure that is planned.
    fill: Option<Fill>,
    last: Option<Noted>,
    /// How many states the disk has had, as far as a number can tell.
    calls: Option<u64>,
    is_short: bool,
    ghost planned: { IsPlanned fill (planned_of disk) } by { planned_prop fill (planned_of disk) },
    ghost tied: { IsTied last (memory_states disk) } by { tied_prop last (memory_states disk) },
    ghost counted: { IsCounted calls (memory_states disk) } by { counted_prop calls (memory_states disk) },
}

/// The same fill.
fn copied_fill(alloc: Global, fill: &Fill) -> Result<Fill, AllocError>
    ensures { IfOk result (λ copy. IsSameFill copy fill.now) }
{
    match fill {
        Fill::Old => Ok(Fill::Old),
        Fill::New => Ok(Fill::New),
        Fill::Byte(byte) => Ok(Fill::Byte(*byte)),
        Fill::Chosen { bytes, lens } => Ok(Fill::Chosen {
            bytes: bytes.to_vec(alloc)?,
            lens: *lens,
        }),
    }
}

/// Whether they are the same.
fn is_same_fill(one: &Fill, other: &Fill) -> bool
    ensures { result ≡ true → IsSameFill one.now other.now }
{
    match (one, other) {
        (Fill::Old, Fill::Old) | (Fill::New, Fill::New) => true,
        (Fill::Byte(byte), Fill::Byte(other)) => byte == other,
        (
            Fill::Chosen { bytes, lens },
            Fill::Chosen {
                bytes: other_bytes,
                lens: other_lens,
            },
        ) => bytes == other_bytes && lens == other_lens,
        _ => false,
    }
}

/// The note of a write or a sync; of one that failed, with the fill of the plan. None is made if
/// memory was missing, as the call may then have failed without a plan.
fn note(
    call: DeviceCall,
    answer: &Result<(), DeviceError>,
    is_short: bool,
    fill: &mut Option<Fill>,
) -> Option<Noted>
    ensures tied { (states : List Files)
        → (is_short ≡ false → CameTo answer.now fill.old call states) → IsTied result states }
    ensures planned { (plan : Option Failure) → IsPlanned fill.old plan
        → (is_short ≡ false → OnErr answer.now (plan ≡ Option.None)) → IsPlanned fill.new plan }
{
    if is_short {
        return None;
    }
    match answer {
        Ok(()) => Some(Noted { call, lost: None }),
        Err(_) => Some(Noted {
            call,
            lost: Some(fill.take()?),
        }),
    }
}

/// Whether it is a call of this file.
fn is_of(call: &DeviceCall, file: usize) -> bool
    ensures { result ≡ true → file_of call.now ≡ file }
{
    match call {
        DeviceCall::Write { file: number, .. } | DeviceCall::Sync { file: number } => {
            *number == file
        }
    }
}

/// One call more.
fn one_more(calls: Option<u64>) -> Option<u64>
    ensures { (files : Files) (states : List Files) → IsCounted calls states
        → IsCounted result (files ∷ states) }
{
    calls?.checked_add(1)
}

impl Traced {
    ghost use Rattle.schedule_sim.specs.Tracing.{traced_states};

    /// Four empty files.
    pub(crate) fn new(alloc: Global) -> Traced
        ensures { traced_states result ≡ empty_files ∷ [] }
    {
        Traced {
            alloc,
            disk: MemDisk::new(alloc),
            fill: None,
            last: None,
            calls: Some(1),
            is_short: false,
        }
    }

    /// No failure is planned, and no call is noted.
    pub(crate) fn plan_none(&mut self)
        ensures { traced_states self.new ≡ traced_states self.old }
    {
        self.disk.plan(None);
        self.fill = None;
        self.last = None;
    }

    /// Has the call fail that comes after `after` others, and forgets the calls before.
    pub(crate) fn plan(&mut self, after: u64, fill: &Fill) -> Result<(), AllocError>
        ensures { traced_states self.new ≡ traced_states self.old }
    {
        let kept = copied_fill(self.alloc, fill)?;
        let planned = copied_fill(self.alloc, &kept)?;
        self.disk.plan(Some(Failure {
            after,
            fill: planned,
        }));
        self.fill = Some(kept);
        self.last = None;
        Ok(())
    }

    /// The last call, if that was a write or a sync of this file that succeeded.
    pub(crate) fn take_made(&mut self, file: usize) -> Option<DeviceCall>
        ensures same { traced_states self.new ≡ traced_states self.old }
        ensures made { IfSome result (λ call. WasLast Option.None call (traced_states self.new)) }
        ensures file { IfSome result (λ call. file_of call ≡ file) }
    {
        let Some(Noted { call, lost: None }) = self.last.take() else {
            return None;
        };
        if is_of(&call, file) { Some(call) } else { None }
    }

    /// The last call, if that was a write or a sync of this file that was planned to fail with this
    /// fill.
    pub(crate) fn take_lost(&mut self, fill: &Fill, file: usize) -> Option<DeviceCall>
        ensures same { traced_states self.new ≡ traced_states self.old }
        ensures lost { IfSome result (λ call.
            WasLast (Option.Some fill.now) call (traced_states self.new)) }
        ensures file { IfSome result (λ call. file_of call ≡ file) }
    {
        let noted = self.last.take()?;
        if is_same_fill(noted.lost.as_ref()?, fill) && is_of(&noted.call, file) {
            Some(noted.call)
        } else {
            None
        }
    }

    /// Whether the last call was a sync that was planned to fail.
    pub(crate) fn has_lost_sync(&self) -> bool
        ensures { result ≡ true
            → (before : List Files) × (traced_states self.now ≡ now before ∷ before) }
    {
        matches!(
            &self.last,
            Some(Noted {
                call: DeviceCall::Sync { .. },
                lost: Some(_),
            })
        )
    }

    /// How many states the disk has had, as far as a number can tell.
    pub(crate) fn calls(&self) -> Option<u64>
        ensures { IfSome result (λ n. n ≡ length (traced_states self.now)) }
    {
        self.calls
    }

    /// Whether memory was missing for a call, or for the note of one.
    pub(crate) fn is_short(&self) -> bool {
        self.is_short || self.disk.is_short()
    }

    /// Stops the machine and starts it again.
    pub(crate) fn stop(&mut self, fill: &Fill) -> Result<(), AllocError>
        ensures ok { OnOk result
            (traced_states self.new ≡ after_stop fill.now (now (traced_states self.old))
            ∷ traced_states self.old) }
        ensures allowed { OnOk result
            (Leaves (now (traced_states self.old))
            (left_by fill.now (now (traced_states self.old)))) }
    {
        self.last = None;
        self.disk.stop(fill)?;
        self.calls = one_more(self.calls);
        Ok(())
    }
}

impl Disk for Traced {
    ghost use Rattle.disk_model.specs.Memory.{memory_failures};
    ghost use Rattle.schedule_sim.specs.Tracing.{traced_states, traced_honest};

    ghost states = { traced_states };

    ghost failures = { λ traced. memory_failures traced.disk };

    ghost honest = { traced_honest };

    fn len(&mut self, file: usize) -> Result<usize, DeviceError> {
        self.last = None;
        self.calls = one_more(self.calls);
        self.disk.len(file)
    }

    fn read(&mut self, file: usize, at: usize, buf: &mut [u8]) -> Result<usize, DeviceError> {
        self.last = None;
        self.calls = one_more(self.calls);
        self.disk.read(file, at, buf)
    }

    fn write_at(&mut self, file: usize, at: usize, bytes: &[u8]) -> Result<(), DeviceError> {
        let copy = bytes.to_vec(self.alloc);
        let answer = self.disk.write_at(file, at, bytes);
        let is_short = self.disk.is_short();
        self.calls = one_more(self.calls);
        self.last = None;
        match copy {
            Ok(bytes) => {
                let call = DeviceCall::Write { file, at, bytes };
                self.last = note(call, &answer, is_short, &mut self.fill);
            }
            Err(_) => self.is_short = true,
        }
        answer
    }

    fn sync(&mut self, file: usize) -> Result<(), DeviceError> {
        let answer = self.disk.sync(file);
        let is_short = self.disk.is_short();
        self.calls = one_more(self.calls);
        self.last = note(DeviceCall::Sync { file }, &answer, is_short, &mut self.fill);
        answer
    }

    ghost are_coherent = { λ traced. traced.disk.coherent };
}
