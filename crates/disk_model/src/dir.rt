//! Four files of a directory.
ghost use Rattle.std.specs.Prelude.{◌≡◌, ◌≤◌, ℕ, List, [], ◌∷◌, length, IfOk};
ghost use Rattle.disk_model.specs.Files.{Files, AreCoherent, AllCoherent, AllCoherent-prop, empty_files, empty_coherent};
ghost use Rattle.disk_model.specs.Fills.{HasBytes};
ghost use Rattle.disk_model.specs.Events.{states_from, failures_of, AllAgree};
ghost use Rattle.disk_model.specs.FileCalls.{AreFiles};
ghost use Rattle.disk_model.specs.declared.fill.Fill.{Fill};
ghost use Rattle.disk_model.specs.declared.fill.Fill.TheVariants.{New};

use crate::device::{Device, NAMES};
use crate::file_calls::{CallLog, FileCalls, OpenFile, open_locked, take_directory};
use crate::first_error::FirstError;
use crate::{DeviceError, Disk};
use std::alloc::{AllocError, Global};
use std::fs::{File, OpenOptions};
use std::io;
use std::os::unix::fs::OpenOptionsExt;
use std::rt::Files as FileSystem;

/// The rights of a file that is made: its owner may read and write it, and nobody else. The system takes
/// from them what the process's umask says.
const OWNER_ALONE: u32 = 0o600;

/// What the files hold as they are opened, which no code can read. A function over `S: Start` is
/// proved for all that they may hold.
pub trait Start: FileCalls {
    /// What a read gives of each file, and what is pending there.
    ghost files: { Files };

    /// What the n-th event left to be read, if it is a write that failed.
    ghost left: { ℕ → Fill };

    ghost are_coherent: { AreCoherent files };

    ghost have_bytes: { (n : ℕ) → HasBytes (left n) };
}

/// For `main` to name. At this type a clause says nothing of files that aren't empty.
#[derive(Drop)]
pub struct Unknown;

impl Start for Unknown {
    ghost files = { empty_files };

    ghost left = { λ _. New };

    ghost are_coherent = { empty_coherent };

    ghost have_bytes = { λ _. tt };
}

/// The files `ckpt-a`, `ckpt-b`, `log-a` and `log-b` of a directory, in this order. One that is
/// absent has length 0. A sync is the system's `fdatasync`, which covers the file's length. What the
/// files hold is the premise `honest`. As long as the value lives, or a `FirstError` of it, it holds the
/// system's exclusive locks on the directory's file `lock`, and on each of the four that is there.
#[derive(Drop)]
pub struct DirDisk<S: Start> {
    calls: CallLog<S>,
    first_error: FirstError,
    ghost coherent: { AllCoherent (states_from S.Start.files S.Start.left calls.past.events) } by { AllCoherent-prop (states_from S.Start.files S.Start.left calls.past.events) },
    ghost files: { AreFiles S.FileCalls.is_file first_error.watched.value.device.files },
}

impl<S: Start> DirDisk<S> {
    /// Opens the files that are there. A write to one that is absent fails. `S` stands for what the
    /// files hold; its value is used up, so that code over any `S` opens one directory. The
    /// directory is locked first. Only then each file is opened and locked, and what the system has
    /// cached of it is given up. If the directory is missing, or another value or program holds one of
    /// the locks (`WouldBlock`), this is an error, and nothing of the four files was read or written.
    pub fn open<R: FileSystem<File = File>>(
        rt: &R,
        alloc: Global,
        directory: &str,
        start: S,
    ) -> io::Result<DirDisk<S>>
        ensures { IfOk result (λ disk. disk.calls.past.events ≡ []) }
    {
        open_files(rt, alloc, directory, &options(false), start)
    }

    /// The same, but makes the files that are absent once the directory is locked. Their owner alone may
    /// read and write them. They and their names are on the disk after it.
    pub fn create<R: FileSystem<File = File>>(
        rt: &R,
        alloc: Global,
        directory: &str,
        start: S,
    ) -> io::Result<DirDisk<S>>
        ensures { IfOk result (λ disk. disk.calls.past.events ≡ []) }
    {
        open_files(rt, alloc, directory, &options(true), start)
    }

    /// What tells of the files and of the first call that fails, also after the disk was handed on.
    pub fn first_error(&self) -> Result<FirstError, AllocError> {
        self.first_error.again()
    }
}

/// How a file is opened, and made if it is absent and `makes` says so.
fn options(makes: bool) -> OpenOptions {
    let mut how = OpenOptions::new();
    how.read(true).write(true).create(makes).mode(OWNER_ALONE);
    how
}

fn open_files<R: FileSystem<File = File>, S: Start>(
    rt: &R,
    alloc: Global,
    directory: &str,
    how: &OpenOptions,
    start: S,
) -> io::Result<DirDisk<S>>
    ensures { IfOk result (λ disk. disk.calls.past.events ≡ []) }
{
    let lock = format!(in alloc; "{directory}/lock")?;
    let (lock, taken) = take_directory(rt, &options(true), lock)?;
    let files = open_four(rt, alloc, directory, how)?;
    // The names too are to be there after a stop.
    File::open(rt, directory)?.sync_all()?;
    let calls = start.begin(taken, &files);
    let first_error = FirstError::of(alloc, Device::locked(lock, files))?;
    Ok(DirDisk { calls, first_error })
}

/// The four files, each locked, of which some may be absent. The first read of one asks the device: over a
/// network the system may have cached what another machine has written over since.
fn open_four<R: FileSystem<File = File>>(
    rt: &R,
    alloc: Global,
    directory: &str,
    how: &OpenOptions,
) -> io::Result<[Option<OpenFile>; 4]> {
    let mut files = [None, None, None, None];
    for (file, name) in files.iter_mut().zip(&NAMES) {
        *file = open_one(rt, how, format!(in alloc; "{directory}/{name}")?)?;
    }
    files.iter().flatten().for_each(OpenFile::give_up_cached);
    Ok(files)
}

fn open_one<R: FileSystem<File = File>>(
    rt: &R,
    how: &OpenOptions,
    path: String,
) -> io::Result<Option<OpenFile>> {
    match open_locked(rt, how, path) {
        Ok(file) => Ok(Some(OpenFile::new(file))),
        Err(error) if error.kind() == io::ErrorKind::NotFound => Ok(None),
        Err(error) => Err(error),
    }
}

impl<S: Start> Disk for DirDisk<S> {
    ghost states = { λ disk. states_from S.Start.files S.Start.left disk.calls.past.events };

    ghost failures = { λ disk. failures_of disk.calls.past.events };

    ghost honest = { λ disk. AllAgree S.Start.files S.Start.left disk.calls.past.events };

    fn len(&mut self, file: usize) -> Result<usize, DeviceError> {
        match self.first_error.device().len(&mut self.calls, file) {
            Ok(len) => Ok(len),
            Err(error) => {
                self.first_error.note(file, error);
                Err(DeviceError)
            }
        }
    }

    fn read(&mut self, file: usize, at: usize, buf: &mut [u8]) -> Result<usize, DeviceError> {
        match self
            .first_error
            .device()
            .read(&mut self.calls, file, at, buf)
        {
            Ok(count) => Ok(count),
            Err(error) => {
                self.first_error.note(file, error);
                Err(DeviceError)
            }
        }
    }

    fn write_at(&mut self, file: usize, at: usize, bytes: &[u8]) -> Result<(), DeviceError> {
        match self
            .first_error
            .device()
            .write(&mut self.calls, file, at, bytes)
        {
            Ok(()) => Ok(()),
            Err(error) => {
                self.first_error.note(file, error);
                Err(DeviceError)
            }
        }
    }

    fn sync(&mut self, file: usize) -> Result<(), DeviceError> {
        match self.first_error.device().sync(&mut self.calls, file) {
            Ok(()) => Ok(()),
            Err(error) => {
                self.first_error.note(file, error);
                Err(DeviceError)
            }
        }
    }

    ghost are_coherent = { λ disk. disk.coherent };
}
