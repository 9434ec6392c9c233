//! A disk in memory that is formatted.
use crate::cases::Case;
use crate::marks::Marks;
use disk_model::{Disk, MemDisk};
use map_types::Refusal;
use recovery::format;

/// Tells how long the four files are.
pub(crate) fn tell_lengths(disk: &mut MemDisk, told: &mut String) -> Result<(), Refusal> {
    told.push_str("lengths")?;
    for file in 0..4 {
        match disk.len(file) {
            Ok(length) => write!(told, " {length}")?,
            Err(_) => return Err(Refusal::Failed),
        }
    }
    Ok(())
}

/// Formats the disk, and tells how long the files are then. Says whether it was refused.
fn make<R: AllocGlobal + Print>(
    rt: &R,
    disk: &mut MemDisk,
    case: &Case<'_>,
    marks: Marks,
    told: &mut String,
) -> Result<bool, Refusal> {
    marks.begin(rt, told)?;
    let answer = format(rt.alloc(), disk, case.stripes);
    marks.end(rt)?;
    match answer {
        Ok(()) => writeln!(told, "formatted")?,
        Err(refusal) => writeln!(told, "refused {refusal}")?,
    }
    told.push_str("  ")?;
    tell_lengths(disk, told)?;
    told.push_str("\n")?;
    Ok(answer.is_err())
}

/// Formats a disk between the marks, and again if it was refused.
pub(crate) fn play_format<R: AllocGlobal + Print>(
    rt: &R,
    case: &Case<'_>,
    told: &mut String,
) -> Result<(), Refusal> {
    let mut disk = MemDisk::new(rt.alloc());
    if make(rt, &mut disk, case, Marks::Both, told)? {
        make(rt, &mut disk, case, Marks::Again, told)?;
    }
    Ok(())
}
