//! Four files in memory, with failures by plan and stops by choice.
ghost use Rattle.std.specs.Prelude.{◌≡◌, ℕ, ◌+◌, ◌-◌, ◌<◌, ◌≤◌, ◌⊎◌, true, false, IsTrue, List, [], ◌∷◌, length, min, take, drop, slice_index_or, Option, IfSome, IfNone, IfOk, OnOk, OnErr, is_ok};
ghost use Rattle.disk_model.specs.Files.{File, Files, now, written, synced, with_file, empty_files, IsTorn, Leaves, AreCoherent, AllCoherent, AllCoherent-prop};
ghost use Rattle.disk_model.specs.Fills.{torn, left_by, after_stop};
ghost use Rattle.disk_model.specs.KeptFiles.{AreKept};
ghost use Rattle.disk_model.specs.declared.kept.Kept.{Kept};
ghost use Rattle.disk_model.specs.Plans.{due_of};
ghost use Rattle.disk_model.specs.Events.{states_of, tore};

use crate::kept::Kept;
use crate::past::{Note, Past};
use crate::plan::{Failure, take_due};
use crate::{DeviceError, Disk, Fill};
use std::alloc::{AllocError, Global};

/// Four files in memory, at first empty. A write or a sync for which there is no memory is a failure
/// of the device; a write leaves its range as it was then.
#[derive(Drop)]
pub struct MemDisk {
    alloc: Global,
    files: [Kept; 4],
    failure: Option<Failure>,
    is_short: bool,
    past: Past,
    ghost kept: { AreKept files (now (states_of past.events)) },
    ghost coherent: { AllCoherent (states_of past.events) } by { AllCoherent-prop (states_of past.events) },
}

impl MemDisk {
    ghost use Rattle.disk_model.specs.Memory.{memory_states, memory_failures, planned_of, is_short, IsByPlan, LosesWrite};

    pub fn new(alloc: Global) -> MemDisk
        ensures states { memory_states result ≡ empty_files ∷ [] }
        ensures failures { memory_failures result ≡ 0 }
        ensures unplanned { planned_of result ≡ Option.None }
        ensures long { is_short result ≡ false }
    {
        MemDisk {
            alloc,
            files: [
                Kept::new(alloc),
                Kept::new(alloc),
                Kept::new(alloc),
                Kept::new(alloc),
            ],
            failure: None,
            is_short: false,
            past: Past::new(),
        }
    }

    /// Has the device call fail that comes after `failure.after` others from now on, in place of
    /// what was planned before.
    pub fn plan(&mut self, failure: Option<Failure>)
        ensures planned { planned_of self.new ≡ failure }
        ensures states { memory_states self.new ≡ memory_states self.old }
        ensures failures { memory_failures self.new ≡ memory_failures self.old }
        ensures short { is_short self.new ≡ is_short self.old }
    {
        self.failure = failure;
    }

    /// Whether a call has failed because it found no memory.
    pub fn is_short(&self) -> bool
        ensures { result ≡ is_short self.now }
    {
        self.is_short
    }

    /// Stops the machine and starts it again: the files hold what the fill picks of what a stop may
    /// leave, and nothing is pending. If there is no memory for that, nothing changes.
    pub fn stop(&mut self, fill: &Fill) -> Result<(), AllocError>
        // The files hold what the fill picks, which is among what a stop may leave.
        ensures ok { OnOk result
            (memory_states self.new ≡ after_stop fill.now (now (memory_states self.old))
            ∷ memory_states self.old) }
        ensures allowed { OnOk result
            (Leaves (now (memory_states self.old))
            (left_by fill.now (now (memory_states self.old)))) }

        // Without memory the files are as they were.
        ensures err { OnErr result (memory_states self.new ≡ memory_states self.old) }

        // A stop is no device call: no failure is counted, and the plan stays.
        ensures failures { memory_failures self.new ≡ memory_failures self.old }
        ensures planned { planned_of self.new ≡ planned_of self.old }
        ensures short { is_short self.new ≡ is_short self.old }
    {
        self.files = left_files(self.alloc, &self.files, fill)?;
        self.past = self.past.with(&Note::Stopped { fill });
        Ok(())
    }

    /// A write that is not to fail by plan.
    fn write(&mut self, file: usize, at: usize, bytes: &[u8]) -> Result<(), DeviceError>
        // One of the four files, and no gap between its end and the bytes.
        requires file { file < 4 }
        requires place { at ≤ length (now (memory_states self.old) file).seen }

        // Written: a read gives the bytes.
        ensures written { OnOk result
            (memory_states self.new
            ≡ with_file file (written at bytes.now (now (memory_states self.old) file))
            (now (memory_states self.old)) ∷ memory_states self.old) }
        ensures same { OnOk result (is_short self.new ≡ is_short self.old) }

        // No memory: a read gives what it gave, and the range is pending.
        ensures lost { OnErr result (LosesWrite file at bytes.now self.old self.new) }

        // A failure is counted, and the plan stays.
        ensures ok { OnOk result (memory_failures self.new ≡ memory_failures self.old) }
        ensures err { OnErr result (memory_failures self.new ≡ memory_failures self.old + 1) }
        ensures planned { planned_of self.new ≡ planned_of self.old }
    {
        match self.files[file].write(at, bytes) {
            Ok(()) => {
                self.past = self.past.with(&Note::Wrote { file, at, bytes });
                Ok(())
            }
            Err(_) => {
                self.lose(file, at, bytes);
                Err(DeviceError)
            }
        }
    }

    /// A write that fails by plan.
    fn tear(&mut self, file: usize, at: usize, bytes: &[u8], fill: &Fill)
        requires file { file < 4 }
        requires place { at ≤ length (now (memory_states self.old) file).seen }
        ensures torn { LosesWrite file at bytes.now self.old self.new
            ⊎ ((is_short self.new ≡ is_short self.old)
            × (memory_states self.new
            ≡ with_file file (torn fill.now file at bytes.now (now (memory_states self.old) file))
            (now (memory_states self.old)) ∷ memory_states self.old)) }
        ensures failures { memory_failures self.new ≡ memory_failures self.old + 1 }
        ensures planned { planned_of self.new ≡ planned_of self.old }
    {
        let alloc = self.alloc;
        match self.files[file].tear(alloc, file, at, bytes, fill) {
            Ok(()) => self.past = tore(&self.past, &self.files, file, at, bytes),
            Err(_) => self.lose(file, at, bytes),
        }
    }

    /// A write that found no memory.
    fn lose(&mut self, file: usize, at: usize, bytes: &[u8])
        requires file { file < 4 }
        requires place { at ≤ length (now (memory_states self.old) file).seen }
        ensures lost { LosesWrite file at bytes.now self.old self.new }
        ensures failures { memory_failures self.new ≡ memory_failures self.old + 1 }
        ensures planned { planned_of self.new ≡ planned_of self.old }
    {
        self.files[file].touch(at, bytes);
        self.is_short = true;
        self.past = tore(&self.past, &self.files, file, at, bytes);
    }

    /// A call that reads.
    fn look(&mut self) -> Result<(), DeviceError>
        ensures state { memory_states self.new ≡ now (memory_states self.old)
            ∷ memory_states self.old }
        ensures plan { IsByPlan self.old self.new (is_ok result) }
        ensures ok { OnOk result (memory_failures self.new ≡ memory_failures self.old) }
        ensures err { OnErr result (memory_failures self.new ≡ memory_failures self.old + 1) }
    {
        if take_due(&mut self.failure).is_some() {
            self.past = self.past.with(&Note::Failed);
            return Err(DeviceError);
        }
        self.past = self.past.with(&Note::Looked);
        Ok(())
    }
}

impl Disk for MemDisk {
    ghost use Rattle.disk_model.specs.Memory.{memory_states, memory_failures, planned_of, is_short, IsByPlan, LosesWrite};

    ghost states = { memory_states };

    ghost failures = { memory_failures };

    ghost honest = { λ _. Unit {0} };

    fn len(&mut self, file: usize) -> Result<usize, DeviceError>
        // One of the four files.
        requires { file < 4 }

        // As many bytes as a read gives.
        ensures length { IfOk result (λ n. n ≡ length (now (memory_states self.old) file).seen) }

        // One call by the plan, which leaves the files; a failure is counted.
        ensures state { memory_states self.new ≡ now (memory_states self.old)
            ∷ memory_states self.old }
        ensures plan { IsByPlan self.old self.new (is_ok result) }
        ensures ok { OnOk result (memory_failures self.new ≡ memory_failures self.old) }
        ensures err { OnErr result (memory_failures self.new ≡ memory_failures self.old + 1) }
    {
        self.look()?;
        Ok(self.files[file].seen.len())
    }

    fn read(&mut self, file: usize, at: usize, buf: &mut [u8]) -> Result<usize, DeviceError>
        // One of the four files.
        requires { file < 4 }

        // What the file has there, as far as there is room.
        ensures within { IfOk result (λ n. n ≤ length buf.old) }
        ensures count { IfOk result (λ n.
            n ≡ min (length buf.old) (length (now (memory_states self.old) file).seen - at)) }
        ensures bytes { IfOk result (λ n.
            take n buf.new ≡ take n (drop at (now (memory_states self.old) file).seen)) }

        // One call by the plan, which leaves the files; a failure is counted.
        ensures state { memory_states self.new ≡ now (memory_states self.old)
            ∷ memory_states self.old }
        ensures plan { IsByPlan self.old self.new (is_ok result) }
        ensures ok { OnOk result (memory_failures self.new ≡ memory_failures self.old) }
        ensures err { OnErr result (memory_failures self.new ≡ memory_failures self.old + 1) }
    {
        self.look()?;
        Ok(copied(&self.files[file].seen, at, buf))
    }

    fn write_at(&mut self, file: usize, at: usize, bytes: &[u8]) -> Result<(), DeviceError>
        // One of the four files, and no gap between its end and the bytes.
        requires file { file < 4 }
        requires place { at ≤ length (now (memory_states self.old) file).seen }

        // Written: a read gives the bytes. Failed: any bytes may stand in their range.
        ensures written { OnOk result
            (memory_states self.new
            ≡ with_file file (written at bytes.now (now (memory_states self.old) file))
            (now (memory_states self.old)) ∷ memory_states self.old) }
        ensures torn { OnErr result
            ((left : File)
            × (at ≤ length (now (memory_states self.old) file).seen
            → IsTorn at bytes.now (now (memory_states self.old) file) left)
            × (memory_states self.new ≡ with_file file left (now (memory_states self.old))
            ∷ memory_states self.old)) }

        // What a failure leaves: the bytes of the planned fill, or what stood there.
        ensures failed { IfSome (due_of (planned_of self.old)) (λ fill.
            LosesWrite file at bytes.now self.old self.new
            ⊎ ((is_short self.new ≡ is_short self.old)
            × (memory_states self.new
            ≡ with_file file (torn fill file at bytes.now (now (memory_states self.old) file))
            (now (memory_states self.old)) ∷ memory_states self.old))) }
        ensures lost { IfNone (due_of (planned_of self.old))
            (OnErr result (LosesWrite file at bytes.now self.old self.new)) }

        // One call by the plan; a failure is counted.
        ensures plan { IsByPlan self.old self.new (is_ok result) }
        ensures ok { OnOk result (memory_failures self.new ≡ memory_failures self.old) }
        ensures err { OnErr result (memory_failures self.new ≡ memory_failures self.old + 1) }
    {
        match take_due(&mut self.failure) {
            Some(fill) => {
                self.tear(file, at, bytes, &fill);
                Err(DeviceError)
            }
            None => self.write(file, at, bytes),
        }
    }

    fn sync(&mut self, file: usize) -> Result<(), DeviceError>
        // One of the four files.
        requires { file < 4 }

        // Afterwards nothing is pending. If it failed, what was pending still is.
        ensures synced { OnOk result
            (memory_states self.new
            ≡ with_file file (synced (now (memory_states self.old) file))
            (now (memory_states self.old)) ∷ memory_states self.old) }
        ensures same { OnErr result
            (memory_states self.new ≡ now (memory_states self.old) ∷ memory_states self.old) }

        // One call by the plan; a failure is counted.
        ensures plan { IsByPlan self.old self.new (is_ok result) }
        ensures ok { OnOk result (memory_failures self.new ≡ memory_failures self.old) }
        ensures err { OnErr result (memory_failures self.new ≡ memory_failures self.old + 1) }
    {
        let alloc = self.alloc;
        let due = take_due(&mut self.failure);
        if due.is_some() {
            self.past = self.past.with(&Note::Failed);
            return Err(DeviceError);
        }
        match self.files[file].settle(alloc) {
            Ok(()) => {
                self.past = self.past.with(&Note::Synced { file });
                Ok(())
            }
            Err(_) => {
                self.is_short = true;
                self.past = self.past.with(&Note::Failed);
                Err(DeviceError)
            }
        }
    }

    ghost are_coherent = { λ disk. disk.coherent };
}

/// What a stop leaves of the four files.
fn left_files(alloc: Global, files: &[Kept; 4], fill: &Fill) -> Result<[Kept; 4], AllocError>
    ensures { IfOk result (λ left. (states : Files) → AreKept files.now states → AreCoherent states
        → AreKept left (after_stop fill.now states)) }
{
    let second = files[0].pending_count();
    let third = second + files[1].pending_count();
    let fourth = third + files[2].pending_count();
    Ok([
        Kept::at_rest(alloc, files[0].left(alloc, 0, 0, fill)?)?,
        Kept::at_rest(alloc, files[1].left(alloc, 1, second, fill)?)?,
        Kept::at_rest(alloc, files[2].left(alloc, 2, third, fill)?)?,
        Kept::at_rest(alloc, files[3].left(alloc, 3, fourth, fill)?)?,
    ])
}

/// Notes a failed write of these bytes, after which a read gives what is kept.
fn tore(past: &Past, files: &[Kept; 4], file: usize, at: usize, bytes: &[u8]) -> Past
    requires { file < 4 }
    ensures { (other : Kept) → result.events ≡ tore file at bytes.now
        (slice_index_or files.now file other).seen.items ∷ past.now.events }
{
    let kept = &files[file];
    let seen = kept.seen.as_slice();
    past.with(&Note::Tore {
        file,
        at,
        bytes,
        seen,
    })
}

/// Copies what there is from `at` on, as much as there is room for.
fn copied(from: &[u8], at: usize, buf: &mut [u8]) -> usize
    ensures count { result ≡ min (length buf.old) (length from.now - at) }
    ensures bytes { take result buf.new ≡ take result (drop at from.now) }
{
    if at >= from.len() {
        return 0;
    }
    let rest = &from[at..];
    let count = rest.len().min(buf.len());
    buf[..count].copy_from_slice(&rest[..count]);
    count
}
