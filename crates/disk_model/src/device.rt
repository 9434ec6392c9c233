//! The four files of a directory as the system has them, which a disk shares with those who watch it.
ghost use Rattle.std.specs.Prelude.{◌≡◌, ◌<◌, ◌≤◌, ◌∷◌, length, take, IsTrue, IfOk, OnOk, OnErr, IfSome};
ghost use Rattle.disk_model.specs.Events.{failed, wrote, broke, synced_file, measured, gave};
ghost use Rattle.disk_model.specs.FileCalls.{AreFiles};

use crate::file_calls::{CallLog, FileCalls, OpenFile, Removal};
use std::fs::File;
use std::io;
use std::os::unix::fs::FileExt;
use std::sync::OnceLock;
use std::sync::atomic::{AtomicU64, Ordering};

/// The names of the four files, in the order of their numbers.
pub(crate) const NAMES: [&str; 4] = ["ckpt-a", "ckpt-b", "log-a", "log-b"];

/// What is said of a file that has no name any more.
const REMOVED: &str = "it was removed";

/// The error of a file that has no name any more.
pub(crate) fn removal() -> io::Error {
    io::Error::new(io::ErrorKind::NotFound, REMOVED)
}

/// A device call that was begun and has not ended.
#[derive(Clone, Copy, Debug, PartialEq, Eq)]
pub struct DeviceCall {
    /// The name of its file in the directory.
    pub file: &'static str,
    /// Its number among the calls of this file, from 1.
    pub number: u64,
}

/// How many calls of a file were made.
#[derive(Drop)]
struct Calls {
    begun: AtomicU64,
    ended: AtomicU64,
}

impl Calls {
    fn new() -> Calls {
        Calls {
            begun: AtomicU64::new(0),
            ended: AtomicU64::new(0),
        }
    }

    fn begin(&self) {
        self.begun.fetch_add(1, Ordering::SeqCst);
    }

    fn end(&self) {
        self.ended.fetch_add(1, Ordering::SeqCst);
    }

    /// The number of the last one, if it has not ended.
    fn under_way(&self) -> Option<u64> {
        let ended = self.ended.load(Ordering::SeqCst);
        let begun = self.begun.load(Ordering::SeqCst);
        if begun == ended { None } else { Some(begun) }
    }
}

/// Four files, of which some may be absent. Each call of one is counted while it is made and after it.
/// Once they are given up as removed, each call fails and asks no device.
#[derive(Drop)]
pub(crate) struct Device {
    // the lock of the directory, which lasts as long as this value
    _lock: Option<File>,
    files: [Option<OpenFile>; 4],
    calls: [Calls; 4],
    removed: OnceLock<Removal>,
}

impl Device {
    /// No file is there.
    pub(crate) fn absent() -> Device {
        Device::with(None, [None, None, None, None])
    }

    /// These files, behind the lock.
    pub(crate) fn locked(lock: File, files: [Option<OpenFile>; 4]) -> Device
        ensures { result.files ≡ files }
    {
        Device::with(Some(lock), files)
    }

    fn with(lock: Option<File>, files: [Option<OpenFile>; 4]) -> Device
        ensures { result.files ≡ files }
    {
        Device {
            _lock: lock,
            files,
            calls: [Calls::new(), Calls::new(), Calls::new(), Calls::new()],
            removed: OnceLock::new(),
        }
    }

    /// Has each call from now on fail, since the files were removed.
    pub(crate) fn give_up(&self, found: Removal) {
        let _first = self.removed.try_set(found);
    }

    /// How many bytes the file has; 0 if it is absent.
    pub(crate) fn len<S: FileCalls>(&self, log: &mut CallLog<S>, file: usize) -> io::Result<usize>
        requires file { file < 4 }
        requires files { AreFiles S.is_file self.now.files }
        ensures ok { IfOk result (λ n. log.new.past.events ≡ measured file n ∷ log.old.past.events) }
        ensures err { OnErr result (log.new.past.events ≡ failed ∷ log.old.past.events) }
    {
        if let Some(found) = self.removed.get() {
            log.refuse(found);
            return Err(removal());
        }
        self.calls[file].begin();
        let made = measure(log, file, &self.files[file]);
        self.calls[file].end();
        made
    }

    /// Reads as `fill_at` does; nothing if it is absent.
    pub(crate) fn read<S: FileCalls>(
        &self,
        log: &mut CallLog<S>,
        file: usize,
        at: usize,
        buf: &mut [u8],
    ) -> io::Result<usize>
        requires file { file < 4 }
        requires files { AreFiles S.is_file self.now.files }
        ensures within { IfOk result (λ n. n ≤ length buf.old) }
        ensures ok { IfOk result (λ n. log.new.past.events
            ≡ gave file at (length buf.old) (take n buf.new) ∷ log.old.past.events) }
        ensures err { OnErr result (log.new.past.events ≡ failed ∷ log.old.past.events) }
    {
        if let Some(found) = self.removed.get() {
            log.refuse(found);
            return Err(removal());
        }
        self.calls[file].begin();
        let made = read_bytes(log, file, &self.files[file], at, buf);
        self.calls[file].end();
        made
    }

    /// Writes all of the bytes. If it is absent, that is an error.
    pub(crate) fn write<S: FileCalls>(
        &self,
        log: &mut CallLog<S>,
        file: usize,
        at: usize,
        bytes: &[u8],
    ) -> io::Result<()>
        requires file { file < 4 }
        requires files { AreFiles S.is_file self.now.files }
        ensures ok { OnOk result (log.new.past.events
            ≡ wrote file at bytes.now ∷ log.old.past.events) }
        ensures err { OnErr result (log.new.past.events
            ≡ broke file at bytes.now ∷ log.old.past.events) }
    {
        if let Some(found) = self.removed.get() {
            log.refuse_write(found, file, at, bytes);
            return Err(removal());
        }
        self.calls[file].begin();
        let made = write_all(log, file, &self.files[file], at, bytes);
        self.calls[file].end();
        made
    }

    /// Syncs the file's bytes and its length.
    pub(crate) fn sync<S: FileCalls>(&self, log: &mut CallLog<S>, file: usize) -> io::Result<()>
        requires file { file < 4 }
        requires files { AreFiles S.is_file self.now.files }
        ensures ok { OnOk result (log.new.past.events ≡ synced_file file ∷ log.old.past.events) }
        ensures err { OnErr result (log.new.past.events ≡ failed ∷ log.old.past.events) }
    {
        if let Some(found) = self.removed.get() {
            log.refuse(found);
            return Err(removal());
        }
        self.calls[file].begin();
        let made = sync_data(log, file, &self.files[file]);
        self.calls[file].end();
        made
    }

    /// The call that is under way, if any.
    pub(crate) fn under_way(&self) -> Option<DeviceCall> {
        for (calls, file) in self.calls.iter().zip(&NAMES) {
            if let Some(number) = calls.under_way() {
                return Some(DeviceCall { file, number });
            }
        }
        None
    }

    /// The first file that is open and has no name any more, if any, and that it was found so.
    pub(crate) fn nameless(&self) -> Option<(usize, Removal)>
        ensures { IfSome result (λ found. found.0 < 4) }
    {
        for file in 0..4 {
            if let Some(found) = removal_of(&self.files[file]) {
                return Some((file, found));
            }
        }
        None
    }
}

fn removal_of(file: &Option<OpenFile>) -> Option<Removal> {
    match file {
        Some(file) => file.removal(),
        None => None,
    }
}

/// Reads from that offset on until `buf` is full or the file ends, and returns how many bytes it read.
/// What a signal interrupts is tried again; any other error ends it.
pub fn fill_at<F: FileExt>(file: &F, at: usize, buf: &mut [u8]) -> io::Result<usize>
    ensures { IfOk result (λ n. n ≤ length buf.old) }
{
    let mut done = 0;
    for _turn in 0..u64::MAX {
        if done >= buf.len() {
            return Ok(done);
        }
        let offset = (at as u64).saturating_add(done as u64);
        match file.read_at(&mut buf[done..], offset) {
            Ok(0) => return Ok(done),
            Ok(count) => done += count,
            Err(error) if error.kind() == io::ErrorKind::Interrupted => {}
            Err(error) => return Err(error),
        }
    }
    Err(io::ErrorKind::Interrupted.into())
}

fn measure<S: FileCalls>(
    log: &mut CallLog<S>,
    number: usize,
    file: &Option<OpenFile>,
) -> io::Result<usize>
    requires { IsTrue (S.is_file number file.now) }
    ensures ok { IfOk result (λ n. log.new.past.events ≡ measured number n ∷ log.old.past.events) }
    ensures err { OnErr result (log.new.past.events ≡ failed ∷ log.old.past.events) }
{
    match file {
        Some(file) => S::measure(log, number, file),
        None => {
            log.measure_absent(number);
            Ok(0)
        }
    }
}

fn read_bytes<S: FileCalls>(
    log: &mut CallLog<S>,
    number: usize,
    file: &Option<OpenFile>,
    at: usize,
    buf: &mut [u8],
) -> io::Result<usize>
    requires { IsTrue (S.is_file number file.now) }
    ensures within { IfOk result (λ n. n ≤ length buf.old) }
    ensures ok { IfOk result (λ n. log.new.past.events
        ≡ gave number at (length buf.old) (take n buf.new) ∷ log.old.past.events) }
    ensures err { OnErr result (log.new.past.events ≡ failed ∷ log.old.past.events) }
{
    match file {
        Some(file) => S::read(log, number, file, at, buf),
        None => {
            log.read_absent(number, at, buf.len());
            Ok(0)
        }
    }
}

fn write_all<S: FileCalls>(
    log: &mut CallLog<S>,
    number: usize,
    file: &Option<OpenFile>,
    at: usize,
    bytes: &[u8],
) -> io::Result<()>
    requires { IsTrue (S.is_file number file.now) }
    ensures ok { OnOk result (log.new.past.events
        ≡ wrote number at bytes.now ∷ log.old.past.events) }
    ensures err { OnErr result (log.new.past.events
        ≡ broke number at bytes.now ∷ log.old.past.events) }
{
    match file {
        Some(file) => S::write(log, number, file, at, bytes),
        None => {
            log.write_absent(number, at, bytes);
            Err(io::ErrorKind::NotFound.into())
        }
    }
}

fn sync_data<S: FileCalls>(
    log: &mut CallLog<S>,
    number: usize,
    file: &Option<OpenFile>,
) -> io::Result<()>
    requires { IsTrue (S.is_file number file.now) }
    ensures ok { OnOk result (log.new.past.events ≡ synced_file number ∷ log.old.past.events) }
    ensures err { OnErr result (log.new.past.events ≡ failed ∷ log.old.past.events) }
{
    match file {
        Some(file) => S::sync(log, number, file),
        None => {
            log.sync_absent(number);
            Ok(())
        }
    }
}
