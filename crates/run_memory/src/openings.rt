//! A disk that is opened, and once more if that was refused: a refusal hands the disk back.
use crate::cases::Case;
use crate::marks::Marks;
use crate::showing::{show_stripes, tell_part};
use atomic_methods::Part;
use disk_model::MemDisk;
use map_types::Refusal;
use recovery::{open, open_parts};
use std::alloc::Global;
use stripe_locks::Stripes;

/// How many commands were made, and the map of a disk that was opened.
#[derive(Drop)]
enum Opened {
    Stripes(u64, Stripes),
    Parts(u64, Vec<Part>),
}

/// Opens the disk with its stripes, or with its parts alone.
fn open_as(alloc: Global, disk: MemDisk, case: &Case<'_>) -> Result<Opened, (MemDisk, Refusal)> {
    if case.word == "open_parts" {
        let (_keeper, parts, first, _limit) = open_parts(alloc, disk, case.stripes)?;
        return Ok(Opened::Parts(first, parts));
    }
    let (keeper, stripes) = open(alloc, disk, case.stripes)?;
    Ok(Opened::Stripes(keeper.committed(), stripes))
}

/// Tells each part.
fn tell_parts(alloc: Global, parts: &[Part], told: &mut String) -> Result<(), Refusal> {
    for (stripe, part) in parts.iter().enumerate() {
        write!(told, "  part {stripe}:")?;
        tell_part(alloc, part, told)?;
        told.push_str("\n")?;
    }
    Ok(())
}

/// Tells how many commands were made, and the map.
fn tell_opened(alloc: Global, opened: &Opened, told: &mut String) -> Result<(), Refusal> {
    match opened {
        Opened::Stripes(first, stripes) => {
            writeln!(told, "opened {first}")?;
            show_stripes(alloc, stripes, told)
        }
        Opened::Parts(first, parts) => {
            writeln!(told, "opened {first}")?;
            tell_parts(alloc, parts.as_slice(), told)
        }
    }
}

/// Opens the disk, and tells its map; else the refusal, and hands back the disk.
fn make<R: AllocGlobal + Print>(
    rt: &R,
    disk: MemDisk,
    case: &Case<'_>,
    marks: Marks,
    told: &mut String,
) -> Result<Option<MemDisk>, Refusal> {
    marks.begin(rt, told)?;
    let answer = open_as(rt.alloc(), disk, case);
    marks.end(rt)?;
    match answer {
        Ok(opened) => {
            tell_opened(rt.alloc(), &opened, told)?;
            Ok(None)
        }
        Err((disk, refusal)) => {
            writeln!(told, "refused {refusal}")?;
            Ok(Some(disk))
        }
    }
}

/// Opens the disk between the marks, and again if it was refused.
pub(crate) fn play_opening<R: AllocGlobal + Print>(
    rt: &R,
    case: &Case<'_>,
    disk: MemDisk,
    told: &mut String,
) -> Result<(), Refusal> {
    if let Some(disk) = make(rt, disk, case, Marks::Both, told)? {
        make(rt, disk, case, Marks::Again, told)?;
    }
    Ok(())
}
