//! Steps of a disk in memory: writes, syncs, failures and stops.
ghost use Rattle.std.specs.Prelude.{◌<◌, IfOk};

use crate::disks::content;
use crate::fills::{failure_of, stop};
use disk_model::{Disk, MemDisk};
use map_types::Refusal;
use run_cases::{Names, number};
use std::alloc::{AllocError, Global};

fn file_of(word: &str) -> Result<usize, Refusal>
    ensures { IfOk result (λ file. file < 4) }
{
    match word {
        "0" => Ok(0),
        "1" => Ok(1),
        "2" => Ok(2),
        "3" => Ok(3),
        _ => Err(Refusal::WrongPhase),
    }
}

/// Writes at the end of the file or before it, and returns whether it was written.
fn is_put(disk: &mut MemDisk, file: usize, at: usize, bytes: &[u8]) -> bool
    requires { file < 4 }
{
    match disk.len(file) {
        Ok(len) if at <= len => disk.write_at(file, at, bytes).is_ok(),
        _ => false,
    }
}

fn tell(is_done: bool, told: &mut String) -> Result<(), AllocError> {
    if is_done {
        Ok(())
    } else {
        told.push_str("failed, ")
    }
}

fn read(alloc: Global, disk: &mut MemDisk, file: usize, told: &mut String) -> Result<(), Refusal>
    requires { file < 4 }
{
    let bytes = content(alloc, disk, file)?;
    write!(told, "{bytes}, ")?;
    Ok(())
}

/// Makes the step of these words, and tells what a read gives and which call fails.
fn step(
    alloc: Global,
    names: &Names,
    disk: &mut MemDisk,
    words: &[&str],
    told: &mut String,
) -> Result<(), Refusal> {
    match words {
        ["put", file, at, bytes] => {
            let bytes = names.bytes(alloc, bytes)?;
            let is_put = is_put(disk, file_of(file)?, number(at)? as usize, &bytes);
            Ok(tell(is_put, told)?)
        }
        ["sync", file] => Ok(tell(disk.sync(file_of(file)?).is_ok(), told)?),
        ["fail", after, fill] => {
            disk.plan(failure_of(alloc, after, fill)?);
            Ok(())
        }
        ["stop", fill] => stop(alloc, disk, fill),
        ["read", file] => read(alloc, disk, file_of(file)?, told),
        _ => Err(Refusal::WrongPhase),
    }
}

/// What is told of these steps of a new disk, which stand with a semicolon between them.
pub(crate) fn stepped(alloc: Global, names: &Names, steps: &str) -> Result<String, Refusal> {
    let mut disk = MemDisk::new(alloc);
    let mut told = String::new(alloc);
    for words in steps.split(';') {
        let words: Vec<&str> = words.split(' ').collect(alloc)?;
        step(alloc, names, &mut disk, &words, &mut told)?;
    }
    told.push_str(if disk.is_short() {
        "short"
    } else {
        "not short"
    })?;
    Ok(told)
}
