//! A disk as its callers see it.
ghost use Rattle.std.specs.Prelude.{◌≡◌, ℕ, ◌+◌, ◌-◌, ◌<◌, ◌≤◌, min, List, ◌∷◌, length, take, drop, IfOk, OnOk, OnErr};
ghost use Rattle.disk_model.specs.Files.{File, Files, now, written, synced, with_file, IsTorn, AllCoherent};

use thiserror::Error;

/// A call of the device failed. How much of it was done isn't known.
#[derive(Clone, Copy, Debug, PartialEq, Eq, Error)]
#[error("a device call failed")]
pub struct DeviceError;

/// Four files of bytes, numbered from 0. The type has a meaning for proofs alone: the state of the
/// files after each device call. From it follows what a stop of the machine may leave.
pub trait Disk {
    /// The state of the files at first, after each device call and after each stop, the newest first.
    ghost states: { Self → List Files };

    /// How many device calls have failed.
    ghost failures: { Self → ℕ };

    /// Each look so far gave what was written. No contract can say it of a real device.
    ghost honest: { Self → Type 0 };

    /// How many bytes the file has.
    fn len(&mut self, file: usize) -> Result<usize, DeviceError>
        // One of the four files.
        requires { file < 4 }

        // If the disk is honest: as many bytes as a read gives.
        ensures length { honest self.new → IfOk result (λ n. n ≡ length
            (now (states self.old) file).seen) }

        // One call more, which leaves the files as they are; a failure is counted.
        ensures state { states self.new ≡ now (states self.old) ∷ states self.old }
        ensures was_honest { honest self.new → honest self.old }
        ensures ok { OnOk result (failures self.new ≡ failures self.old) }
        ensures err { OnErr result (failures self.new ≡ failures self.old + 1) };

    /// Reads the bytes from `at` on, as many as there are and `buf` has room for, and returns how
    /// many.
    fn read(&mut self, file: usize, at: usize, buf: &mut [u8]) -> Result<usize, DeviceError>
        // One of the four files.
        requires { file < 4 }

        // No more than there is room for; if the disk is honest, what the file has there.
        ensures within { IfOk result (λ n. n ≤ length buf.old) }
        ensures count { honest self.new → IfOk result (λ n. n ≡ min (length buf.old)
            (length (now (states self.old) file).seen - at)) }
        ensures bytes { honest self.new → IfOk result (λ n. take n buf.new
            ≡ take n (drop at (now (states self.old) file).seen)) }

        // One call more, which leaves the files as they are; a failure is counted.
        ensures state { states self.new ≡ now (states self.old) ∷ states self.old }
        ensures was_honest { honest self.new → honest self.old }
        ensures ok { OnOk result (failures self.new ≡ failures self.old) }
        ensures err { OnErr result (failures self.new ≡ failures self.old + 1) };

    /// Writes over what is there and past the end. Until the next successful sync a stop may leave
    /// any bytes in that range, also if the write failed.
    fn write_at(&mut self, file: usize, at: usize, bytes: &[u8]) -> Result<(), DeviceError>
        // One of the four files, and no gap between its end and the bytes.
        requires file { file < 4 }
        requires place { honest self.old → at ≤ length (now (states self.old) file).seen }

        // Written: a read gives the bytes. Failed: any bytes may stand in their range.
        ensures written { OnOk result
            (states self.new ≡ with_file file (written at bytes.now (now (states self.old) file))
            (now (states self.old)) ∷ states self.old) }
        ensures torn { OnErr result
            ((left : File)
            × (at ≤ length (now (states self.old) file).seen
            → IsTorn at bytes.now (now (states self.old) file) left)
            × (states self.new ≡ with_file file left (now (states self.old)) ∷ states self.old)) }

        // A disk that is honest was so before; a failure is counted.
        ensures was_honest { honest self.new → honest self.old }
        ensures ok { OnOk result (failures self.new ≡ failures self.old) }
        ensures err { OnErr result (failures self.new ≡ failures self.old + 1) };

    /// After it a stop leaves what a read gives. A sync that failed promises nothing, and what was
    /// pending still is.
    fn sync(&mut self, file: usize) -> Result<(), DeviceError>
        // One of the four files.
        requires { file < 4 }

        // Afterwards nothing is pending. If it failed, what was pending still is.
        ensures synced { OnOk result
            (states self.new ≡ with_file file (synced (now (states self.old) file))
            (now (states self.old)) ∷ states self.old) }
        ensures same { OnErr result (states self.new ≡ now (states self.old) ∷ states self.old) }

        // A disk that is honest was so before; a failure is counted.
        ensures was_honest { honest self.new → honest self.old }
        ensures ok { OnOk result (failures self.new ≡ failures self.old) }
        ensures err { OnErr result (failures self.new ≡ failures self.old + 1) };

    /// What is read is among what a stop may leave, at every moment.
    ghost are_coherent: { (disk : Self) → AllCoherent (states disk) };
}
