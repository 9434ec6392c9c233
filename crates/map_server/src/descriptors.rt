//! The numbers of the standard streams are taken before any file is opened.
ghost use Rattle.std.specs.Prelude.{◌≡◌, ◌<◌, ℕ, List, IfErr, IfOk};
ghost use Rattle.map_server.specs.Descriptors.{AreTaken};

use call_text::cannot_open;
use log::{Log, error};
use std::alloc::Global;
use std::fs::{File, OpenOptions};
use std::io;
use std::io::{ErrorKind, Write};
use std::os::fd::AsRawFd;
use std::rt::Files;

/// Opens files, and tells their numbers. That numbers are taken is proved for every type that opens
/// some: it is known from these calls alone.
pub trait Descriptors {
    /// A file without bytes that is open.
    type Null: Drop;

    /// While these files are open, no other file gets this number.
    ghost is_taken: { List Self.Null → ℕ → Type 0 };

    /// Opens a file without bytes beside these, and tells its number: the least that no open file has.
    fn open_null(&self, beside: &[Self::Null]) -> io::Result<(Self::Null, u32)>
        ensures { IfOk result (λ opened.
            (number : ℕ) → number < opened.1 → is_taken beside.now number) };
}

/// Where a file without bytes is.
const NULL: &str = "/dev/null";

/// The files of the system. That it gives the least number, no contract can tell.
impl<R: Files<File = File>> Descriptors for R {
    type Null = File;

    ghost is_taken = { λ held number. Unit {0} };

    fn open_null(&self, _beside: &[File]) -> io::Result<(File, u32)> {
        let file = OpenOptions::new().read(true).write(true).open(self, NULL)?;
        let number = file.as_raw_fd().cast_unsigned();
        Ok((file, number))
    }
}

/// How many standard streams there are. Their numbers are the least.
const STREAMS: u32 = 3;

/// Holds those numbers of standard streams that were free: while it lives no file gets one.
#[derive(Drop)]
pub struct StandardStreams<M: Descriptors> {
    held: Vec<M::Null>,
}

/// Opens files without bytes until one gets a number that is no standard stream's.
fn hold<M: Descriptors>(machine: &M, alloc: Global) -> io::Result<StandardStreams<M>>
    ensures { IfOk result (λ streams. AreTaken M.is_taken streams.held.items) }
{
    let mut held = Vec::new(alloc);
    for _ in 0..=STREAMS {
        let (opened, number) = machine.open_null(held.as_slice())?;
        if number >= STREAMS {
            return Ok(StandardStreams { held });
        }
        held.push(opened)?;
    }
    Err(io::Error::from(ErrorKind::InvalidData))
}

/// Takes the numbers of the standard streams that are closed, so that what is written to these goes
/// nowhere. This is to be called before any file is opened. If no file can be opened, the status is 1,
/// `error` says so, and a record has the cause.
pub fn hold_streams<L: Log, M: Descriptors, E: Write>(
    rt: &L,
    machine: &M,
    alloc: Global,
    error: &mut E,
) -> Result<StandardStreams<M>, u8>
    ensures taken { IfOk result (λ streams. AreTaken M.is_taken streams.held.items) }
    ensures status { IfErr result (λ status. status ≡ 1) }
{
    match hold(machine, alloc) {
        Ok(streams) => Ok(streams),
        Err(cause) => {
            error!(rt; "{NULL} can't be opened: {cause}");
            Err(cannot_open(alloc, &cause, error))
        }
    }
}
