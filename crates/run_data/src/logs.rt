//! Logs as they are read.
use crate::disks::{disk_with, plan};
use disk_model::MemDisk;
use gate_log::{Found, Scan};
use log_records::{Version, encode, put_number};
use map_types::Refusal;
use run_cases::{Names, hexadecimal};
use std::alloc::Global;
use ticket_order::Entry;

/// How many frames are read, at most.
const MOST_FRAMES: u32 = 10;

/// The tickets and the records of a batch, in the form of a request, whatever the version of the log.
fn records(alloc: Global, entries: &[Entry]) -> Result<String, Refusal> {
    let mut bytes = Vec::new(alloc);
    for entry in entries {
        put_number(8, entry.ticket.number(), &mut bytes)?;
        let _key = entry.command.key.as_str();
        encode(Version::Second, &entry.command, &mut bytes)?;
    }
    Ok(hexadecimal(alloc, &bytes)?)
}

/// Tells what was found, and returns whether more may follow.
fn tell(alloc: Global, found: &Found, told: &mut String) -> Result<bool, Refusal> {
    match found {
        Found::Batch(entries) => {
            let text = records(alloc, entries)?;
            write!(told, "batch {text}")?;
            Ok(true)
        }
        Found::Ended => {
            told.push_str("ended")?;
            Ok(false)
        }
        Found::Closed => {
            told.push_str("closed")?;
            Ok(false)
        }
    }
}

/// Reads what stands at the gate, and returns whether more may follow. A failure of the device is
/// told, and then it is read again.
fn read_frame(
    alloc: Global,
    scan: &mut Scan,
    disk: &mut MemDisk,
    told: &mut String,
) -> Result<bool, Refusal> {
    match scan.next_frame(alloc, disk) {
        Ok(found) => tell(alloc, &found, told),
        Err(Refusal::Failed) => {
            told.push_str("failed")?;
            Ok(true)
        }
        Err(refusal) => Err(refusal),
    }
}

fn read_frames(alloc: Global, scan: &mut Scan, disk: &mut MemDisk) -> Result<String, Refusal> {
    let mut told = String::new(alloc);
    for _frame in 0..MOST_FRAMES {
        let goes_on = read_frame(alloc, scan, disk, &mut told)?;
        let gate = scan.gate();
        let expected = scan.expected();
        write!(told, " at {gate}, {expected} commands")?;
        if !goes_on {
            return Ok(told);
        }
        told.push_str("; ")?;
    }
    Ok(told)
}

/// What the log of generation 0 has, frame by frame. A number behind its bytes says after how many looks
/// the device fails.
pub(crate) fn scanned(alloc: Global, names: &Names, words: &[&str]) -> Result<String, Refusal> {
    let Some((word, words)) = words.split_first() else {
        return Err(Refusal::WrongPhase);
    };
    let mut disk = disk_with(alloc, names, 2, word)?;
    plan(&mut disk, words)?;
    let mut scan = Scan::begin(alloc, &mut disk, 0, 0)?;
    read_frames(alloc, &mut scan, &mut disk)
}
