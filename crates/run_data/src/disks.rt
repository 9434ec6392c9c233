//! Disks in memory whose files hold given bytes.
ghost use Rattle.std.specs.Prelude.{◌<◌};

use disk_model::{Disk, Failure, Fill, MemDisk};
use map_types::Refusal;
use run_cases::{Names, hexadecimal, number};
use std::alloc::Global;

fn fill(
    alloc: Global,
    names: &Names,
    disk: &mut MemDisk,
    file: usize,
    word: &str,
) -> Result<(), Refusal>
    requires { file < 4 }
{
    let bytes = names.bytes(alloc, word)?;
    if !bytes.is_empty() && disk.write_at(file, 0, &bytes).is_err() {
        return Err(Refusal::Failed);
    }
    Ok(())
}

/// A disk one of whose files holds the bytes of the word, synced.
pub(crate) fn disk_with(
    alloc: Global,
    names: &Names,
    file: usize,
    word: &str,
) -> Result<MemDisk, Refusal>
    requires { file < 4 }
{
    let mut disk = MemDisk::new(alloc);
    fill(alloc, names, &mut disk, file, word)?;
    if disk.sync(file).is_err() {
        return Err(Refusal::Failed);
    }
    Ok(disk)
}

/// A disk whose files hold the bytes of the four words, written and not synced.
pub(crate) fn disk_of(alloc: Global, names: &Names, words: &[&str]) -> Result<MemDisk, Refusal> {
    let [zero, one, two, three] = words else {
        return Err(Refusal::WrongPhase);
    };
    let mut disk = MemDisk::new(alloc);
    fill(alloc, names, &mut disk, 0, zero)?;
    fill(alloc, names, &mut disk, 1, one)?;
    fill(alloc, names, &mut disk, 2, two)?;
    fill(alloc, names, &mut disk, 3, three)?;
    Ok(disk)
}

/// If a word is left, the device is to fail after the number of calls that it says.
pub(crate) fn plan(disk: &mut MemDisk, words: &[&str]) -> Result<(), Refusal> {
    if let Some(word) = words.first() {
        let after = number(word)?;
        let fill = Fill::New;
        disk.plan(Some(Failure { after, fill }));
    }
    Ok(())
}

/// What the file holds, in hexadecimal.
pub(crate) fn content(alloc: Global, disk: &mut MemDisk, file: usize) -> Result<String, Refusal>
    requires { file < 4 }
{
    let Ok(len) = disk.len(file) else {
        return Err(Refusal::Failed);
    };
    let mut bytes = vec![in alloc; 0; len]?;
    let Ok(count) = disk.read(file, 0, &mut bytes) else {
        return Err(Refusal::Failed);
    };
    bytes.truncate(count);
    Ok(hexadecimal(alloc, &bytes)?)
}
