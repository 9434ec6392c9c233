//! Checkpoints as they are loaded.
ghost use Rattle.std.specs.Prelude.{◌<◌};

use crate::disks::{disk_with, plan};
use call_text::refusal_text;
use checkpoint_file::{LoadedCheckpoint, LoadedSection, load};
use disk_model::{Disk, MemDisk};
use map_types::Refusal;
use run_cases::{Names, number, put_entries};
use std::alloc::{AllocError, Global};

fn put_section(section: &LoadedSection, told: &mut String) -> Result<(), AllocError> {
    let mark = section.mark;
    write!(told, "; mark {mark}:")?;
    put_entries(&section.entries, told)
}

fn checkpoint_text(alloc: Global, found: &LoadedCheckpoint) -> Result<String, AllocError> {
    let generation = found.generation;
    let low = found.low;
    let stripes = found.stripes.get();
    let mut told = format!(in alloc; "generation {generation}, low {low}, stripes {stripes}")?;
    for section in &found.sections {
        put_section(section, &mut told)?;
    }
    Ok(told)
}

/// What is loaded of the file; `none` if no checkpoint is sealed in it.
pub(crate) fn text_of(alloc: Global, disk: &mut MemDisk, file: usize) -> Result<String, Refusal>
    requires { file < 2 }
{
    match load(alloc, disk, file)? {
        Some(found) => Ok(checkpoint_text(alloc, &found)?),
        None => Ok(String::from_str(alloc, "none")?),
    }
}

fn loaded_of(
    alloc: Global,
    names: &Names,
    file: usize,
    word: &str,
    words: &[&str],
) -> Result<String, Refusal>
    requires { file < 2 }
{
    let mut disk = disk_with(alloc, names, file, word)?;
    plan(&mut disk, words)?;
    text_of(alloc, &mut disk, file)
}

/// What is loaded of the file of this number with these bytes. A number behind them says after how many
/// looks the device fails.
pub(crate) fn loaded(alloc: Global, names: &Names, words: &[&str]) -> Result<String, Refusal> {
    match words {
        ["0", word, words @ ..] => loaded_of(alloc, names, 0, word, words),
        ["1", word, words @ ..] => loaded_of(alloc, names, 1, word, words),
        _ => Err(Refusal::WrongPhase),
    }
}

/// How this front is refused, or what it holds.
fn front_text(alloc: Global, bytes: &[u8]) -> Result<String, Refusal> {
    let mut disk = MemDisk::new(alloc);
    if disk.write_at(1, 0, bytes).is_err() || disk.sync(1).is_err() {
        return Err(Refusal::Failed);
    }
    match text_of(alloc, &mut disk, 1) {
        Ok(text) => Ok(text),
        Err(refusal) => Ok(refusal_text(alloc, refusal)?),
    }
}

/// What is loaded of file 1 with the fronts of these bytes, of each length from the first number on and
/// below the second: it is the same of all.
pub(crate) fn fronts_loaded(
    alloc: Global,
    names: &Names,
    words: &[&str],
) -> Result<String, Refusal> {
    let [least, end, word] = words else {
        return Err(Refusal::WrongPhase);
    };
    let least = number(least)? as usize;
    let end = number(end)? as usize;
    let bytes = names.bytes(alloc, word)?;
    let mut told = String::new(alloc);
    for len in least..end.min(bytes.len()) {
        let text = front_text(alloc, &bytes[..len])?;
        if len > least && text.as_str() != told.as_str() {
            return Ok(format!(in alloc; "{told}, and with {len} bytes {text}")?);
        }
        told = text;
    }
    Ok(told)
}
