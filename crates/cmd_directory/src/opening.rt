//! How a directory is opened.
ghost use Rattle.std.specs.Prelude.{◌≡◌, [], ℕ, List, IfErr, IfOk};
ghost use Rattle.std.specs.declared.io.Error.{Error};

use disk_model::{DirDisk, Disk, FirstError, Unknown};
use std::alloc::{AllocError, Global};
use std::fs::File;
use std::io::ErrorKind;
use std::rt::Files;
use std::time::{Clock, Duration};
use std::{io, thread};

/// How often a directory is tried if another process has one of its locks, before it counts as in use. With
/// the pauses that takes a second: a server that was killed has its locks until the system has ended it.
const LOCK_TRIES: u32 = 51;

/// For how many milliseconds is waited between two tries.
const LOCK_PAUSE: u64 = 20;

/// Opens directories as disks. What is done with a directory is proved for every type that opens them:
/// a disk comes of these two calls alone, whatever its files hold, and so does the error of one that
/// can't be opened.
pub trait Directories {
    /// The disk that a directory is.
    type Opened: Disk + Drop + Send;

    /// The disk has the files of this directory, as they were when it was opened. None was made.
    ghost is_opened: { List ℕ → Self.Opened → Type 0 };

    /// The disk has the files of this directory, as they were when it was opened. Those that were
    /// absent were made.
    ghost is_created: { List ℕ → Self.Opened → Type 0 };

    /// This directory couldn't be opened, for this error.
    ghost is_refused: { List ℕ → Error → Type 0 };

    /// Opens the files that are there. A write to one that is absent fails.
    fn open_files(&self, alloc: Global, directory: &str) -> io::Result<Self::Opened>
        ensures opened { IfOk result (λ disk. is_opened directory.now disk) }
        ensures refused { IfErr result (λ error. is_refused directory.now error) };

    /// The same, but makes the files that are absent.
    fn create_files(&self, alloc: Global, directory: &str) -> io::Result<Self::Opened>
        ensures created { IfOk result (λ disk. is_created directory.now disk) }
        ensures refused { IfErr result (λ error. is_refused directory.now error) };

    /// What tells of the disk's first call that fails, also after the disk was handed on.
    fn first_error(disk: &Self::Opened) -> Result<FirstError, AllocError>;
}

/// What `attempt` returns, which is called again after a pause if another process has a lock, for a second.
fn open_when_free<T: Drop, R: Clock, O: Fn() -> io::Result<T>>(rt: &R, attempt: O) -> io::Result<T>
    requires { O.IsAlwaysCallable attempt }
    ensures { O.post attempt result }
{
    for _try in 1..LOCK_TRIES {
        match attempt() {
            Err(cause) if cause.kind() == ErrorKind::WouldBlock => {
                thread::sleep(rt, Duration::from_millis(LOCK_PAUSE));
            }
            ended => return ended,
        }
    }
    attempt()
}

/// Opens the files that are there, as `open_files` does. If another process has one of the directory's
/// locks, it is tried again for a second.
pub fn open_directory<M: Directories, R: Clock>(
    rt: &R,
    machine: &M,
    alloc: Global,
    directory: &str,
) -> io::Result<M::Opened>
    ensures opened { IfOk result (λ disk. M.is_opened directory.now disk) }
    ensures refused { IfErr result (λ cause. M.is_refused directory.now cause) }
{
    open_when_free(rt, || machine.open_files(alloc, directory))
}

/// The same, but makes the files that are absent.
pub fn create_directory<M: Directories, R: Clock>(
    rt: &R,
    machine: &M,
    alloc: Global,
    directory: &str,
) -> io::Result<M::Opened>
    ensures opened { IfOk result (λ disk. M.is_created directory.now disk) }
    ensures refused { IfErr result (λ cause. M.is_refused directory.now cause) }
{
    open_when_free(rt, || machine.create_files(alloc, directory))
}

/// The directories of the system. Nothing has happened yet to what was opened. Of which directory it is,
/// whether files were made, and what the system refuses, no contract can tell.
impl<F: Files<File = File>> Directories for F {
    type Opened = DirDisk<Unknown>;

    ghost is_opened = { λ directory disk. disk.calls.past.events ≡ [] };

    ghost is_created = { λ directory disk. disk.calls.past.events ≡ [] };

    ghost is_refused = { λ directory error. Unit {0} };

    fn open_files(&self, alloc: Global, directory: &str) -> io::Result<DirDisk<Unknown>> {
        DirDisk::open(self, alloc, directory, Unknown)
    }

    fn create_files(&self, alloc: Global, directory: &str) -> io::Result<DirDisk<Unknown>> {
        DirDisk::create(self, alloc, directory, Unknown)
    }

    fn first_error(disk: &DirDisk<Unknown>) -> Result<FirstError, AllocError> {
        disk.first_error()
    }
}
