//! The calls that a disk makes of its files, and which were made so far.
ghost use Rattle.std.specs.Prelude.{◌≡◌, ℕ, ◌<◌, ◌≤◌, Bool, true, List, [], ◌∷◌, length, take, Option, Some, None, IsTrue, IfOk, OnOk, OnErr};
ghost use Rattle.disk_model.specs.FileCalls.{AreFiles};
ghost use Rattle.disk_model.specs.Events.{Event, event_of, failed, wrote, broke, synced_file, measured, gave};
ghost use Rattle.disk_model.specs.declared.file_calls.OpenFile.{OpenFile};

use crate::device::fill_at;
use crate::dir::Unknown;
use crate::past::{Note, Past};
use std::fs::{File, OpenOptions, TryLockError};
use std::io;
use std::marker::PhantomData;
use std::os::fd::AsRawFd;
use std::os::unix::fs::{FileExt, MetadataExt};
use std::rt::Files as FileSystem;

/// That the directory of a disk was taken, and no call of its files made yet. Only who can open a file
/// gets one.
#[derive(Drop)]
pub struct Taken(());

/// Why a directory can't be opened whose lock another process or value has.
const IN_USE: &str = "in use by another process";

/// Opens the file that stands for the directory, and locks it.
pub(crate) fn take_directory<R: FileSystem<File = File>>(
    rt: &R,
    how: &OpenOptions,
    path: String,
) -> io::Result<(File, Taken)> {
    Ok((open_locked(rt, how, path)?, Taken(())))
}

/// Opens the file, and locks it. The lock lasts until the file is closed.
pub(crate) fn open_locked<R: FileSystem<File = File>>(
    rt: &R,
    how: &OpenOptions,
    path: String,
) -> io::Result<File> {
    let file = how.open(rt, path.as_str())?;
    match file.try_lock() {
        Ok(()) => Ok(file),
        Err(TryLockError::WouldBlock) => Err(io::Error::new(io::ErrorKind::WouldBlock, IN_USE)),
        Err(TryLockError::Error(error)) => Err(error),
    }
}

/// A file that is open. Only the calls of a `FileCalls` read or write it.
#[derive(Drop)]
pub struct OpenFile {
    file: File,
}

impl OpenFile {
    pub(crate) fn new(file: File) -> OpenFile {
        OpenFile { file }
    }

    /// Has the system give up what it has cached of the file. It is advice: if the system refuses it,
    /// the file is read as it comes.
    pub(crate) fn give_up_cached(&self) {
        let _advised = libc::posix_fadvise(self.file.as_raw_fd(), 0, 0, libc::POSIX_FADV_DONTNEED);
    }

    /// A removal, if the file has no name in any directory. One of which the system doesn't tell has
    /// one.
    pub(crate) fn removal(&self) -> Option<Removal> {
        match self.file.metadata() {
            Ok(found) if found.nlink() == 0 => Some(Removal(())),
            _ => None,
        }
    }
}

/// That a file was found without a name.
#[derive(Drop)]
pub(crate) struct Removal(());

/// The calls of a disk's files so far. It takes no bytes, and grows by a call of a `FileCalls`, or where
/// there is none to make: of a file that is absent, or once a removal was found.
#[derive(Drop)]
pub struct CallLog<S> {
    past: Past,
    of: PhantomData<S>,
}

impl<S> CallLog<S> {
    fn note(&mut self, note: &Note<'_>)
        ensures { self.new.past.events ≡ event_of note.now ∷ self.old.past.events }
    {
        self.past = self.past.with(note);
    }

    /// A look or a sync that fails because of the removal.
    pub(crate) fn refuse(&mut self, _found: &Removal)
        ensures { self.new.past.events ≡ failed ∷ self.old.past.events }
    {
        self.note(&Note::Failed);
    }

    /// A write that fails because of the removal.
    pub(crate) fn refuse_write(&mut self, _found: &Removal, file: usize, at: usize, bytes: &[u8])
        ensures { self.new.past.events ≡ broke file at bytes.now ∷ self.old.past.events }
    {
        self.note(&Note::Broke { file, at, bytes });
    }
}

impl<S: FileCalls> CallLog<S> {
    /// An absent file has no bytes.
    pub(crate) fn measure_absent(&mut self, file: usize)
        requires { IsTrue (S.is_file file None) }
        ensures { self.new.past.events ≡ measured file 0 ∷ self.old.past.events }
    {
        self.note(&Note::Measured { file, len: 0 });
    }

    /// None are read of it.
    pub(crate) fn read_absent(&mut self, file: usize, at: usize, room: usize)
        requires { IsTrue (S.is_file file None) }
        ensures { self.new.past.events ≡ gave file at room [] ∷ self.old.past.events }
    {
        let bytes = &[];
        self.note(&Note::Gave {
            file,
            at,
            room,
            bytes,
        });
    }

    /// None can be written to it.
    pub(crate) fn write_absent(&mut self, file: usize, at: usize, bytes: &[u8])
        requires { IsTrue (S.is_file file None) }
        ensures { self.new.past.events ≡ broke file at bytes.now ∷ self.old.past.events }
    {
        self.note(&Note::Broke { file, at, bytes });
    }

    /// None of it are pending.
    pub(crate) fn sync_absent(&mut self, file: usize)
        requires { IsTrue (S.is_file file None) }
        ensures { self.new.past.events ≡ synced_file file ∷ self.old.past.events }
    {
        self.note(&Note::Synced { file });
    }
}

/// Makes the calls of four files. A disk is proved for every type that makes them: what it says of a call
/// is what the call ensured, which adds to the log what was asked for and whether it succeeded.
pub trait FileCalls: Drop {
    /// This is the file of this number, or that one is absent.
    ghost is_file: { ℕ → Option OpenFile → Bool };

    /// Begins with these files, of which no call was made yet.
    fn begin(self, taken: Taken, files: &[Option<OpenFile>; 4]) -> CallLog<Self>
    where
        Self: Sized,
        ensures none { result.past.events ≡ [] }
        ensures files { AreFiles is_file files.now };

    /// How many bytes the file has.
    fn measure(log: &mut CallLog<Self>, number: usize, file: &OpenFile) -> io::Result<usize>
    where
        Self: Sized,
        requires { IsTrue (is_file number (Some file.now)) }
        ensures ok { IfOk result (λ n. log.new.past.events
            ≡ measured number n ∷ log.old.past.events) }
        ensures err { OnErr result (log.new.past.events ≡ failed ∷ log.old.past.events) };

    /// Reads from that offset on until `buf` is full or the file ends.
    fn read(
        log: &mut CallLog<Self>,
        number: usize,
        file: &OpenFile,
        at: usize,
        buf: &mut [u8],
    ) -> io::Result<usize>
    where
        Self: Sized,
        requires { IsTrue (is_file number (Some file.now)) }
        ensures within { IfOk result (λ n. n ≤ length buf.old) }
        ensures ok { IfOk result (λ n. log.new.past.events
            ≡ gave number at (length buf.old) (take n buf.new) ∷ log.old.past.events) }
        ensures err { OnErr result (log.new.past.events ≡ failed ∷ log.old.past.events) };

    /// Writes all of the bytes from that offset on.
    fn write(
        log: &mut CallLog<Self>,
        number: usize,
        file: &OpenFile,
        at: usize,
        bytes: &[u8],
    ) -> io::Result<()>
    where
        Self: Sized,
        requires { IsTrue (is_file number (Some file.now)) }
        ensures ok { OnOk result (log.new.past.events
            ≡ wrote number at bytes.now ∷ log.old.past.events) }
        ensures err { OnErr result (log.new.past.events
            ≡ broke number at bytes.now ∷ log.old.past.events) };

    /// Syncs the file's bytes and its length.
    fn sync(log: &mut CallLog<Self>, number: usize, file: &OpenFile) -> io::Result<()>
    where
        Self: Sized,
        requires { IsTrue (is_file number (Some file.now)) }
        ensures ok { OnOk result (log.new.past.events ≡ synced_file number ∷ log.old.past.events) }
        ensures err { OnErr result (log.new.past.events ≡ failed ∷ log.old.past.events) };
}

/// The system's calls. What they do, no contract can tell.
impl FileCalls for Unknown {
    ghost is_file = { λ number file. true };

    fn begin(self, _taken: Taken, _files: &[Option<OpenFile>; 4]) -> CallLog<Unknown> {
        CallLog {
            past: Past::new(),
            of: PhantomData,
        }
    }

    fn measure(log: &mut CallLog<Unknown>, number: usize, file: &OpenFile) -> io::Result<usize> {
        match file.file.metadata() {
            Ok(found) => {
                let len = found.len() as usize;
                log.note(&Note::Measured { file: number, len });
                Ok(len)
            }
            Err(error) => {
                log.note(&Note::Failed);
                Err(error)
            }
        }
    }

    fn read(
        log: &mut CallLog<Unknown>,
        number: usize,
        file: &OpenFile,
        at: usize,
        buf: &mut [u8],
    ) -> io::Result<usize> {
        let room = buf.len();
        match fill_at(&file.file, at, buf) {
            Ok(count) => {
                log.note(&Note::Gave {
                    file: number,
                    at,
                    room,
                    bytes: &buf[..count],
                });
                Ok(count)
            }
            Err(error) => {
                log.note(&Note::Failed);
                Err(error)
            }
        }
    }

    fn write(
        log: &mut CallLog<Unknown>,
        number: usize,
        file: &OpenFile,
        at: usize,
        bytes: &[u8],
    ) -> io::Result<()> {
        let made = file.file.write_all_at(bytes, at as u64);
        let file = number;
        match &made {
            Ok(()) => log.note(&Note::Wrote { file, at, bytes }),
            Err(_) => log.note(&Note::Broke { file, at, bytes }),
        }
        made
    }

    /// The system's `fdatasync`.
    fn sync(log: &mut CallLog<Unknown>, number: usize, file: &OpenFile) -> io::Result<()> {
        let made = file.file.sync_data();
        match &made {
            Ok(()) => log.note(&Note::Synced { file: number }),
            Err(_) => log.note(&Note::Failed),
        }
        made
    }
}
