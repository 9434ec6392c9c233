//! Directories as they are opened and formatted.
use crate::disks::{content, disk_of, plan};
use crate::fills::{failure_of, stop};
use atomic_methods::Part;
use call_text::refusal_text;
use disk_model::{Disk, MemDisk};
use flusher::Keeper;
use java_hash::StripeCount;
use log_records::Version;
use map_types::Refusal;
use recovery::{format, format_as, open_parts};
use run_cases::{Names, put_entries};
use std::alloc::{AllocError, Global};

fn stripes_of(word: &str) -> Result<StripeCount, Refusal> {
    let Ok(count) = word.parse::<u16>() else {
        return Err(Refusal::WrongPhase);
    };
    match StripeCount::new(count) {
        Some(stripes) => Ok(stripes),
        None => Err(Refusal::WrongPhase),
    }
}

/// The numbers, and then the keys and values, part by part.
fn opened_text(
    alloc: Global,
    keeper: &Keeper<MemDisk>,
    parts: &[Part],
    first: u64,
) -> Result<String, Refusal> {
    let sealed = keeper.sealed;
    let generation = keeper.log.generation();
    let gate = keeper.log.gate();
    let mut told = format!(in alloc;
        "{first} commands, sealed {sealed}, generation {generation}, gate {gate}"
    )?;
    for part in parts {
        told.push_str(";")?;
        let entries = part.entries_sorted(alloc)?;
        put_entries(&entries, &mut told)?;
    }
    Ok(told)
}

/// The refusal, and how long file 1 is on the disk that was handed back.
fn refused_text(alloc: Global, mut disk: MemDisk, refusal: Refusal) -> Result<String, Refusal> {
    let text = refusal_text(alloc, refusal)?;
    match disk.len(1) {
        Ok(len) => Ok(format!(in alloc; "{text}, {len} bytes in file 1")?),
        Err(_) => Err(Refusal::Failed),
    }
}

fn open(alloc: Global, disk: MemDisk, stripes: StripeCount) -> Result<String, Refusal> {
    match open_parts(alloc, disk, stripes) {
        Ok((keeper, parts, first, _)) => opened_text(alloc, &keeper, &parts, first),
        Err((disk, refusal)) => refused_text(alloc, disk, refusal),
    }
}

/// What is opened under `stripes` stripes, if the four files hold these bytes. A number behind them
/// says after how many calls the device fails.
pub(crate) fn opened(alloc: Global, names: &Names, words: &[&str]) -> Result<String, Refusal> {
    let [stripes, zero, one, two, three, words @ ..] = words else {
        return Err(Refusal::WrongPhase);
    };
    let stripes = stripes_of(stripes)?;
    let mut disk = disk_of(alloc, names, &[zero, one, two, three])?;
    plan(&mut disk, words)?;
    open(alloc, disk, stripes)
}

/// The four files that are left of a disk that is formatted in this version.
fn format_text(
    alloc: Global,
    disk: &mut MemDisk,
    stripes: StripeCount,
    version: Version,
) -> Result<String, Refusal> {
    format_as(alloc, disk, stripes, version)?;
    let zero = content(alloc, disk, 0)?;
    let one = content(alloc, disk, 1)?;
    let two = content(alloc, disk, 2)?;
    let three = content(alloc, disk, 3)?;
    Ok(format!(in alloc; "{zero} {one} {two} {three}")?)
}

/// What is left of a disk with these files that is formatted in this version for `stripes` stripes,
/// and what is then opened under `others` stripes. A number behind them says after how many calls the
/// device fails.
pub(crate) fn formatted(
    alloc: Global,
    names: &Names,
    version: Version,
    words: &[&str],
) -> Result<String, Refusal> {
    let [stripes, others, zero, one, two, three, words @ ..] = words else {
        return Err(Refusal::WrongPhase);
    };
    let mut disk = disk_of(alloc, names, &[zero, one, two, three])?;
    plan(&mut disk, words)?;
    let files = format_text(alloc, &mut disk, stripes_of(stripes)?, version)?;
    let then = open(alloc, disk, stripes_of(others)?)?;
    Ok(format!(in alloc; "{files}; {then}")?)
}

/// What is opened of new files, if the device fails after `after` calls that format them for `stripes`
/// stripes. A write that fails leaves what `failing` says, and a stop what `stopping` does.
fn opened_left(
    alloc: Global,
    stripes: StripeCount,
    after: &str,
    failing: &str,
    stopping: &str,
) -> Result<String, Refusal> {
    let mut disk = MemDisk::new(alloc);
    disk.plan(failure_of(alloc, after, failing)?);
    if format(alloc, &mut disk, stripes) != Err(Refusal::Failed) {
        return Err(Refusal::WrongPhase);
    }
    stop(alloc, &mut disk, stopping)?;
    open(alloc, disk, stripes)
}

/// Adds the text to what was told, unless it is just that.
fn tell(text: &str, told: &mut String) -> Result<(), AllocError> {
    if told.as_str() == text {
        return Ok(());
    }
    if !told.is_empty() {
        told.push_str(" or ")?;
    }
    told.push_str(text)
}

/// Tells what is opened after each of the stops that `stoppings` says.
fn tell_stops(
    alloc: Global,
    stripes: StripeCount,
    after: &str,
    failing: &str,
    stoppings: &str,
    told: &mut String,
) -> Result<(), Refusal> {
    for stopping in stoppings.split('/') {
        let text = opened_left(alloc, stripes, after, failing, stopping)?;
        tell(text.as_str(), told)?;
    }
    Ok(())
}

/// What is opened under `stripes` stripes, if the machine is stopped within a call that formats new
/// files, or after that call failed. The second word says how many calls came before it. A write that
/// fails leaves what the third says, and a stop what the fourth does: each has fills with `/` between
/// them, and all pairs of them are tried.
pub(crate) fn store_left(alloc: Global, words: &[&str]) -> Result<String, Refusal> {
    let [stripes, after, failings, stoppings] = words else {
        return Err(Refusal::WrongPhase);
    };
    let stripes = stripes_of(stripes)?;
    let mut told = String::new(alloc);
    for failing in failings.split('/') {
        tell_stops(alloc, stripes, after, failing, stoppings, &mut told)?;
    }
    Ok(told)
}
