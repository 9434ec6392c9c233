//! What a stop leaves, as a word.
use disk_model::{Failure, Fill, MemDisk};
use map_types::Refusal;
use run_cases::{bytes_spelled, number};
use std::alloc::Global;

fn lens_of(text: &str) -> Result<[usize; 4], Refusal> {
    let mut lens = [0; 4];
    for (len, word) in lens.iter_mut().zip(text.split(':')) {
        *len = number(word)? as usize;
    }
    Ok(lens)
}

fn byte_of(alloc: Global, word: &str) -> Result<Fill, Refusal> {
    match bytes_spelled(alloc, word)? {
        Some(bytes) => match bytes.first() {
            Some(byte) => Ok(Fill::Byte(*byte)),
            None => Err(Refusal::WrongPhase),
        },
        None => Err(Refusal::WrongPhase),
    }
}

fn chosen_of(alloc: Global, word: &str, lens: &str) -> Result<Fill, Refusal> {
    let lens = lens_of(lens)?;
    match bytes_spelled(alloc, word)? {
        Some(bytes) => Ok(Fill::Chosen { bytes, lens }),
        None => Err(Refusal::WrongPhase),
    }
}

/// The fill of a word: `old`, `new`, a byte, or bytes and four lengths behind colons.
pub(crate) fn fill_of(alloc: Global, word: &str) -> Result<Fill, Refusal> {
    match word {
        "old" => Ok(Fill::Old),
        "new" => Ok(Fill::New),
        _ => match word.split_once(':') {
            Some((bytes, lens)) => chosen_of(alloc, bytes, lens),
            None => byte_of(alloc, word),
        },
    }
}

/// Stops the machine with the fill of the word; it doesn't stop if the word is `-`.
pub(crate) fn stop(alloc: Global, disk: &mut MemDisk, word: &str) -> Result<(), Refusal> {
    if word == "-" {
        return Ok(());
    }
    let fill = fill_of(alloc, word)?;
    disk.stop(&fill)?;
    Ok(())
}

/// The device is to fail after `after` calls; it isn't to fail if the word is `-`. A write that
/// fails leaves what the fill says.
pub(crate) fn failure_of(
    alloc: Global,
    after: &str,
    fill: &str,
) -> Result<Option<Failure>, Refusal> {
    if after == "-" {
        return Ok(None);
    }
    let after = number(after)?;
    let fill = fill_of(alloc, fill)?;
    Ok(Some(Failure { after, fill }))
}
