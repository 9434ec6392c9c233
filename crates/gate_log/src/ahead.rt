//! What a log writes ahead of its batches.
ghost use Rattle.std.specs.Prelude.{◌≡◌, ◌⊎◌, ◌+◌, ◌≤◌, length, replicate, true, false, OnOk, OnErr, IsTrue};
ghost use Rattle.disk_model.specs.Calls.{Makes, Fails};
ghost use Rattle.disk_model.specs.Files.{now};
ghost use Rattle.disk_model.specs.Gates.{Call};
ghost use Rattle.store_layout.specs.Logs.{log_file};
ghost use Rattle.gate_log.specs.LogSteps.{MayAdvance};
ghost use Rattle.gate_log.specs.Ahead.{IsAheadDue, WritesAhead};

use crate::log::GateLog;
use crate::zeros::Zeros;
use disk_model::{DeviceError, Disk};
use map_types::Refusal;
use store_layout::{MOST_LOG_BYTES, Phase, log_file};

/// Zeros are written ahead in a log once its gate stands at this byte or behind it.
const LONG_LOG_BYTES: usize = 65_536;

impl GateLog {
    /// Whether `count` zeros are to be written ahead: what is staged reaches past those written so
    /// far, and would not reach past these.
    fn is_ahead_due(&self, count: usize) -> bool
        ensures { IsTrue result → IsAheadDue count self.now }
    {
        self.phase == Phase::Staged
            && self.ending.is_none()
            && self.gate >= LONG_LOG_BYTES
            && self.gate + 1 + self.frame.len() > self.ahead
            && self.frame.len() < count
            && count < MOST_LOG_BYTES
            && self.gate < MOST_LOG_BYTES - count
    }

    /// Writes the zeros behind the gate.
    fn write_zeros<D: Disk>(&self, zeros: &Zeros, disk: &mut D) -> Result<(), DeviceError>
        requires place { D.honest disk.old → self.now.gate + 1 ≤ length
            (now (D.states disk.old) (log_file self.now.generation)).seen }
        ensures was_honest { D.honest disk.new → D.honest disk.old }
        ensures ok { OnOk result
            (Makes D.states D.failures (log_file self.now.generation)
            (Call.writes (self.now.gate + 1) (replicate zeros.now 0)) disk.old disk.new) }
        ensures err { OnErr result
            (Fails D.states D.failures (log_file self.now.generation)
            (Call.writes (self.now.gate + 1) (replicate zeros.now 0)) disk.old disk.new) }
    {
        disk.write_at(log_file(self.generation), self.gate + 1, zeros.as_slice())
    }

    /// Writes the zeros behind the closed gate, ahead of the batch that is staged, so that the
    /// batch does not lengthen the file. No reading goes past the gate. It does so if the gate
    /// stands far enough, and the batch reaches past what was written ahead and not past these
    /// zeros. Else it makes no call. It takes no memory.
    pub fn write_ahead<D: Disk>(&mut self, zeros: &Zeros, disk: &mut D) -> Result<(), Refusal>
        requires stands { MayAdvance D.states D.honest self.old disk.old }

        ensures stands { MayAdvance D.states D.honest self.new disk.new }
        ensures broken { self.old.is_broken ≡ true
            → (result ≡ Err Refusal.Failed) × (self.new ≡ self.old) × (disk.new ≡ disk.old) }
        ensures works { self.old.is_broken ≡ false
            → ((result ≡ Ok tt) × (self.new ≡ self.old) × (disk.new ≡ disk.old))
            ⊎ WritesAhead D.states D.failures D.honest zeros.now self.old self.new disk.old disk.new
            result }
    {
        if self.is_broken {
            return Err(Refusal::Failed);
        }
        if !self.is_ahead_due(zeros.count()) {
            return Ok(());
        }
        match self.write_zeros(zeros, disk) {
            Ok(()) => {
                self.ahead = self.gate + 1 + zeros.count();
                Ok(())
            }
            Err(_) => {
                self.is_broken = true;
                Err(Refusal::Failed)
            }
        }
    }
}
