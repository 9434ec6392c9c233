//! A directory as a disk.
ghost use Rattle.std.specs.Prelude.{◌<◌};

use crate::checks::assert_same;
use disk_model::{DeviceError, DirDisk, Disk, FirstError, Unknown};
use std::alloc::Global;
use std::{fs, io};

/// What is done with a directory, or asked of it.
enum Step {
    /// Makes a directory. One that is there is removed first, with what it has.
    Make(&'static str),
    /// Removes a directory with what it has.
    Remove(&'static str),
    /// Opens a directory as a disk, which is kept.
    Open(&'static str),
    /// The same, and makes the files that are absent.
    Create(&'static str),
    /// Closes the disk that is kept.
    Close,
    /// Whether something stands at the path.
    Stands(&'static str),
    /// Something of a file of the disk.
    With(usize, Call),
    /// Keeps what tells of the disk's files, beside the disk.
    Watch,
    /// Gives that up.
    Unwatch,
    /// Something that it tells.
    Ask(Question),
}

/// A question on a disk's files.
enum Question {
    IsUnderWay,
    IsRemoved,
    HasFailed,
    /// Whether its first failure reads so.
    Tells(&'static str),
}

/// A call of a file.
enum Call {
    /// Writes at a place, unless the file ends before it.
    Put(usize, &'static [u8]),
    /// Writes at the start, whatever the length.
    Write(&'static [u8]),
    Sync,
    Len,
    /// Reads from its start.
    Read,
}

/// How many bytes are read at most.
const ROOM: usize = 24;

/// What comes of a step.
#[derive(Clone, Copy, Debug, PartialEq)]
enum Seen {
    Done,
    Failed,
    Is(bool),
    Len(usize),
    /// So many bytes were read, and zeros stand behind them.
    Read(usize, [u8; ROOM]),
}

fn put<D: Disk>(disk: &mut D, file: usize, at: usize, bytes: &[u8]) -> Result<(), DeviceError>
    requires { file < 4 }
{
    if at > disk.len(file)? {
        return Err(DeviceError);
    }
    disk.write_at(file, at, bytes)
}

fn read<D: Disk>(disk: &mut D, file: usize) -> Result<Seen, DeviceError>
    requires { file < 4 }
{
    let mut bytes = [0; ROOM];
    let count = disk.read(file, 0, &mut bytes)?;
    Ok(Seen::Read(count, bytes))
}

fn make_call<D: Disk>(disk: &mut D, file: usize, call: &Call) -> Result<Seen, DeviceError>
    requires { file < 4 }
{
    match call {
        Call::Put(at, bytes) => put(disk, file, *at, bytes).map(|_| Seen::Done),
        Call::Write(bytes) => disk.write_at(file, 0, bytes).map(|_| Seen::Done),
        Call::Sync => disk.sync(file).map(|_| Seen::Done),
        Call::Len => disk.len(file).map(Seen::Len),
        Call::Read => read(disk, file),
    }
}

/// What comes of what has no answer.
fn seen_of(made: io::Result<()>) -> Seen {
    match made {
        Ok(()) => Seen::Done,
        Err(_) => Seen::Failed,
    }
}

fn tells(alloc: Global, first_error: &FirstError, text: &str) -> bool {
    match first_error.get() {
        Some(cause) => format!(in alloc; "{cause}").is_ok_and(|told| told.as_str() == text),
        None => false,
    }
}

/// The disk that is kept, and what tells of one.
#[derive(Drop)]
struct Bench {
    disk: Option<DirDisk<Unknown>>,
    first_error: Option<FirstError>,
}

impl Bench {
    fn keep(&mut self, opened: io::Result<DirDisk<Unknown>>) -> Seen {
        match opened {
            Ok(disk) => {
                self.disk = Some(disk);
                Seen::Done
            }
            Err(_) => Seen::Failed,
        }
    }

    fn close(&mut self) -> Seen {
        self.disk = None;
        Seen::Done
    }

    fn watch(&mut self) -> Seen {
        self.first_error = match &self.disk {
            Some(disk) => disk.first_error().ok(),
            None => None,
        };
        Seen::Is(self.first_error.is_some())
    }

    fn unwatch(&mut self) -> Seen {
        self.first_error = None;
        Seen::Done
    }

    fn ask(&self, alloc: Global, question: &Question) -> Seen {
        let Some(first_error) = &self.first_error else {
            return Seen::Failed;
        };
        Seen::Is(match question {
            Question::IsUnderWay => first_error.under_way().is_some(),
            Question::IsRemoved => first_error.note_removal(),
            Question::HasFailed => first_error.get().is_some(),
            Question::Tells(text) => tells(alloc, first_error, text),
        })
    }

    fn with(&mut self, file: usize, call: &Call) -> Seen {
        match &mut self.disk {
            Some(disk) if file < 4 => make_call(disk, file, call).unwrap_or(Seen::Failed),
            _ => Seen::Failed,
        }
    }

    fn take(&mut self, rt: &HostRuntime, step: &Step) -> Seen {
        match step {
            Step::Make(path) => {
                let _ = fs::remove_dir_all(rt, path);
                seen_of(fs::create_dir(rt, path))
            }
            Step::Remove(path) => seen_of(fs::remove_dir_all(rt, path)),
            Step::Open(path) => self.keep(DirDisk::open(rt, rt.alloc(), path, Unknown)),
            Step::Create(path) => self.keep(DirDisk::create(rt, rt.alloc(), path, Unknown)),
            Step::Close => self.close(),
            Step::Stands(path) => Seen::Is(fs::metadata(rt, path).is_ok()),
            Step::With(file, call) => self.with(*file, call),
            Step::Watch => self.watch(),
            Step::Unwatch => self.unwatch(),
            Step::Ask(question) => self.ask(rt.alloc(), question),
        }
    }
}

/// The number of the first step of which something else comes, if any, and what comes of it.
fn first_wrong(rt: &HostRuntime, steps: &[(Step, Seen)]) -> Option<(usize, Seen)> {
    let mut bench = Bench {
        disk: None,
        first_error: None,
    };
    for number in 0..steps.len() {
        let (step, wanted) = &steps[number];
        let seen = bench.take(rt, step);
        if seen != *wanted {
            return Some((number, seen));
        }
    }
    None
}

/// A file stands where the last directory is to be.
static KEPT: [(Step, Seen); 11] = [
    (Step::Make("kept"), Seen::Done),
    (Step::Create("kept"), Seen::Done),
    (Step::With(2, Call::Put(0, b"first words")), Seen::Done),
    (Step::With(2, Call::Put(6, b"lines and more")), Seen::Done),
    (Step::With(2, Call::Sync), Seen::Done),
    (Step::Close, Seen::Done),
    (Step::Open("kept"), Seen::Done),
    (
        Step::With(2, Call::Read),
        Seen::Read(20, *b"first lines and more\0\0\0\0"),
    ),
    (Step::With(0, Call::Len), Seen::Len(0)),
    (Step::Create("kept/log-a"), Seen::Failed),
    (Step::Remove("kept"), Seen::Done),
];

#[test]
fn a_directory_keeps_what_was_synced(rt: HostRuntime) {
    assert_same(&rt, &first_wrong(&rt, &KEPT), &None);
}

static ABSENT: [(Step, Seen); 8] = [
    (Step::Open("no_such_directory"), Seen::Failed),
    (Step::Create("no_such_directory"), Seen::Failed),
    (Step::Stands("no_such_directory"), Seen::Is(false)),
    (Step::Make("empty"), Seen::Done),
    (Step::Open("empty"), Seen::Done),
    (Step::With(3, Call::Put(0, b"lost")), Seen::Failed),
    (Step::With(3, Call::Len), Seen::Len(0)),
    (Step::Remove("empty"), Seen::Done),
];

#[test]
fn absent_files_have_length_0(rt: HostRuntime) {
    assert_same(&rt, &first_wrong(&rt, &ABSENT), &None);
}

/// No file is made without the lock, which is held as long as the first disk is kept.
static LOCKED: [(Step, Seen); 8] = [
    (Step::Make("locked"), Seen::Done),
    (Step::Open("locked"), Seen::Done),
    (Step::Create("locked"), Seen::Failed),
    (Step::Close, Seen::Done),
    (Step::Stands("locked/ckpt-a"), Seen::Is(false)),
    (Step::Create("locked"), Seen::Done),
    (Step::Stands("locked/ckpt-a"), Seen::Is(true)),
    (Step::Remove("locked"), Seen::Done),
];

#[test]
fn a_directory_is_open_once(rt: HostRuntime) {
    assert_same(&rt, &first_wrong(&rt, &LOCKED), &None);
}

/// What tells of the files has the locks too.
static WATCHED: [(Step, Seen); 15] = [
    (Step::Make("watched"), Seen::Done),
    (Step::Create("watched"), Seen::Done),
    (Step::Watch, Seen::Is(true)),
    (Step::With(2, Call::Put(0, b"words")), Seen::Done),
    (Step::With(2, Call::Sync), Seen::Done),
    (Step::Ask(Question::IsUnderWay), Seen::Is(false)),
    (Step::Ask(Question::IsRemoved), Seen::Is(false)),
    (Step::Close, Seen::Done),
    (Step::Create("watched"), Seen::Failed),
    (Step::Ask(Question::HasFailed), Seen::Is(false)),
    (Step::Remove("watched"), Seen::Done),
    (Step::Ask(Question::IsRemoved), Seen::Is(true)),
    (Step::Ask(Question::HasFailed), Seen::Is(true)),
    (Step::Unwatch, Seen::Done),
    (Step::Ask(Question::HasFailed), Seen::Failed),
];

#[test]
fn a_file_that_was_removed_is_told(rt: HostRuntime) {
    assert_same(&rt, &first_wrong(&rt, &WATCHED), &None);
}

/// The files go on being written until their removal is found.
static GIVEN_UP: [(Step, Seen); 20] = [
    (Step::Make("given_up"), Seen::Done),
    (Step::Create("given_up"), Seen::Done),
    (Step::Watch, Seen::Is(true)),
    (Step::Ask(Question::IsRemoved), Seen::Is(false)),
    (Step::With(2, Call::Put(0, b"words")), Seen::Done),
    (Step::With(2, Call::Sync), Seen::Done),
    (Step::Remove("given_up"), Seen::Done),
    (Step::With(2, Call::Sync), Seen::Done),
    (Step::Ask(Question::HasFailed), Seen::Is(false)),
    (Step::Ask(Question::IsRemoved), Seen::Is(true)),
    (
        Step::Ask(Question::Tells("ckpt-a: it was removed")),
        Seen::Is(true),
    ),
    (Step::With(2, Call::Put(5, b" more")), Seen::Failed),
    (Step::With(2, Call::Write(b"words")), Seen::Failed),
    (Step::With(2, Call::Sync), Seen::Failed),
    (Step::With(2, Call::Len), Seen::Failed),
    (Step::With(2, Call::Read), Seen::Failed),
    (Step::With(0, Call::Len), Seen::Failed),
    (Step::With(3, Call::Sync), Seen::Failed),
    (Step::Ask(Question::IsUnderWay), Seen::Is(false)),
    (
        Step::Ask(Question::Tells("ckpt-a: it was removed")),
        Seen::Is(true),
    ),
];

#[test]
fn each_call_fails_once_a_removal_is_found(rt: HostRuntime) {
    assert_same(&rt, &first_wrong(&rt, &GIVEN_UP), &None);
}
