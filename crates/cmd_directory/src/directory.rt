//! A directory is formatted, or looked at, and what came of it is printed.
ghost use Rattle.std.specs.Prelude.{◌≡◌};
ghost use Rattle.cmd_directory.specs.Directory.{Checks, Formats, Inits, Inspects};

use crate::opening::{Directories, create_directory, open_directory};
use crate::summary::summarize;
use call_text::{MISUSED, cannot_open, print, refuse, say, stripes_named};
use disk_model::{Disk, FirstError};
use java_hash::StripeCount;
use log::{Log, error};
use map_types::Refusal;
use recovery::format;
use std::alloc::Global;
use std::io;
use std::io::Write;
use std::thread::Threads;
use std::time::Clock;

/// Says on `error` what was refused. If a call of the directory's files has failed, a record before it
/// says which, and why.
fn refuse_directory<L: Log, E: Write>(
    rt: &L,
    alloc: Global,
    first_error: Option<&FirstError>,
    refusal: Refusal,
    error: &mut E,
) -> u8
    ensures { result ≡ 1 }
{
    if let Some(cause) = first_error.and_then(FirstError::get) {
        error!(rt; "the directory has failed, {cause}");
    }
    refuse(alloc, refusal, error)
}

/// Says why a directory can't be opened. A record before it has the cause.
fn cannot_open_directory<L: Log, E: Write>(
    rt: &L,
    alloc: Global,
    directory: &str,
    cause: &io::Error,
    error: &mut E,
) -> u8
    ensures { result ≡ 1 }
{
    error!(rt; "the directory {directory} can't be opened: {cause}");
    cannot_open(alloc, cause, error)
}

/// Formats the disk, of which `first_error` tells, and prints the number of stripes. The line's memory
/// is taken first.
pub fn init_disk<L: Log, D: Disk, W: Write, E: Write>(
    rt: &L,
    alloc: Global,
    disk: &mut D,
    first_error: Option<&FirstError>,
    stripes: StripeCount,
    output: &mut W,
    error: &mut E,
) -> u8
    ensures { Formats D.states D.failures D.honest stripes.count disk.old disk.new
        (W.contents output.old) (W.contents output.new) result }
{
    let count = stripes.get();
    let Ok(line) = format!(in alloc; "formatted {count}\n") else {
        return refuse(alloc, Refusal::NoMemory, error);
    };
    match format(alloc, disk, stripes) {
        Ok(()) => print(rt, line.as_str(), output, error),
        Err(refusal) => refuse_directory(rt, alloc, first_error, refusal, error),
    }
}

/// Opens the disk, of which `first_error` tells, and then prints what it stands for. The disk is handed
/// back.
pub fn check_disk<L: Log + Threads + Sync, D: Disk, W: Write, E: Write>(
    rt: &L,
    alloc: Global,
    disk: D,
    first_error: Option<&FirstError>,
    output: &mut W,
    error: &mut E,
) -> (D, u8)
    ensures { Checks D.states D.failures D.honest disk result.0 (W.contents output.old)
        (W.contents output.new) result.1 }
{
    match summarize(rt, alloc, disk) {
        Ok((disk, summary)) => match summary.text(alloc) {
            Ok(text) => (disk, print(rt, text.as_str(), output, error)),
            Err(_) => (disk, refuse(alloc, Refusal::NoMemory, error)),
        },
        Err((disk, refusal)) => (
            disk,
            refuse_directory(rt, alloc, first_error, refusal, error),
        ),
    }
}

/// Makes the directory that of an empty map of `stripes` stripes. If the system refuses a call, a record
/// has the cause. A lock that another process has is tried for a second.
pub fn init<L: Clock + Log, M: Directories, W: Write, E: Write>(
    rt: &L,
    machine: &M,
    alloc: Global,
    directory: &str,
    stripes: &str,
    output: &mut W,
    error: &mut E,
) -> u8
    ensures { Inits M.Opened.states M.Opened.failures M.Opened.honest M.is_created M.is_refused
        directory.now stripes.now (W.contents output.old) (W.contents output.new) result }
{
    let Some(stripes) = stripes_named(stripes) else {
        say(error, "S is a power of two from 1 to 256\n");
        return MISUSED;
    };
    match create_directory(rt, machine, alloc, directory) {
        Ok(mut disk) => {
            let first_error = M::first_error(&disk).ok();
            let first_error = first_error.as_ref();
            init_disk(rt, alloc, &mut disk, first_error, stripes, output, error)
        }
        Err(cause) => cannot_open_directory(rt, alloc, directory, &cause, error),
    }
}

/// Prints what the directory stands for. If the system refuses a call, a record has the cause. A lock
/// that another process has is tried for a second.
pub fn check<L: Clock + Log + Threads + Sync, M: Directories, W: Write, E: Write>(
    rt: &L,
    machine: &M,
    alloc: Global,
    directory: &str,
    output: &mut W,
    error: &mut E,
) -> u8
    ensures { Inspects M.Opened.states M.Opened.failures M.Opened.honest M.is_opened M.is_refused
        directory.now (W.contents output.old) (W.contents output.new) result }
{
    match open_directory(rt, machine, alloc, directory) {
        Ok(disk) => {
            let first_error = M::first_error(&disk).ok();
            let first_error = first_error.as_ref();
            let (_disk, status) = check_disk(rt, alloc, disk, first_error, output, error);
            status
        }
        Err(cause) => cannot_open_directory(rt, alloc, directory, &cause, error),
    }
}
