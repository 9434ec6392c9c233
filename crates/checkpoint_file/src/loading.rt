//! Reads a checkpoint out of its file. Every device call is a look, and reads the next piece of the
//! file.
ghost use Rattle.std.specs.Prelude.{◌≡◌, ◌⊎◌, ℕ, ◌+◌, ◌<◌, ◌≤◌, List, length, false, None, Some, IfOk, IfErr, OnOk, OnErr, IfSome, IfNone};
ghost use Rattle.disk_model.specs.Calls.{Looks};
ghost use Rattle.disk_model.specs.Files.{now};
ghost use Rattle.file_pieces.specs.Counting.{Made, MadeAtMost, ReadsPieces, ReadsAtMost};
ghost use Rattle.file_pieces.specs.Pieces.{Holds, end_of, pieces_in};
ghost use Rattle.log_records.specs.Layout.{layout_of};
ghost use Rattle.store_layout.specs.Checkpoints.{IsCheckpoint, body_offset, sections_bytes, is_sealed};
ghost use Rattle.store_layout.specs.Calls.{checkpoint_calls};
ghost use Rattle.store_layout.specs.Failures.{IsFileFault, IsFileRefused};
ghost use Rattle.store_layout.specs.Faults.{HasFault, IsBadCheckpoint, body_length_in, size_fault, version_in};
ghost use Rattle.store_layout.specs.Opening.{IsCheckpointIn};
ghost use Rattle.checkpoint_file.specs.Heads.{HasFields, IsHead, failed_in};
ghost use Rattle.checkpoint_file.specs.Loads.{checkpoint_of, sections_of, AreRising, IsUnloadable, seen_in, ForRest, IsBehind, GoesOn, RefusesIn, AreLoaded, IsBodyOf, IsBodyAt};
ghost use Rattle.checkpoint_file.specs.Front.{IsAt};

use crate::front::{begin_file, reach_body};
use crate::head::{BODY_LEN_OFFSET, GREATEST_OFFSET, Head, STRIPES_OFFSET, read_head};
use crate::marks::{are_marked_from, greatest_mark};
use crate::one_section::section;
use crate::pieces::Stripe;
use crate::unread::Unread;
use disk_model::Disk;
use file_pieces::FileReader;
use java_hash::StripeCount;
use log_records::Version;
use map_types::{Key, Refusal, Value};
use std::alloc::Global;
use store_layout::BODY_OFFSET;

/// What a stripe held after the first `mark` commands, in rising byte order of the keys.
#[derive(Drop)]
pub struct LoadedSection {
    pub mark: u64,
    pub entries: Vec<(Key, Value)>,
}

/// A sealed checkpoint, with a section for each of its stripes in order.
#[derive(Drop)]
pub struct LoadedCheckpoint {
    pub version: Version,
    pub generation: u64,
    pub low: u64,
    pub stripes: StripeCount,
    pub sections: Vec<LoadedSection>,
}

/// The sections of all stripes, and what is unread behind them.
fn all_sections<D: Disk>(
    alloc: Global,
    disk: &mut D,
    reader: &mut FileReader,
    unread: Unread,
    stripes: StripeCount,
) -> Result<(Vec<LoadedSection>, Unread), Refusal>
    // The reader has come to the unread bytes.
    requires at { IsAt reader.old unread }
    requires held { D.honest disk.old
        → Holds (seen_in D.states disk.old unread.file) reader.old }

    // The disk is only looked at, and the reader comes behind the sections.
    ensures looks { Looks D.states D.failures D.honest (failed_in result) disk.old disk.new }
    ensures at { IfOk result (λ x. IsAt reader.new x.1) }

    // Device calls: one for each piece, and none for a piece behind the body.
    ensures called { OnOk result (ReadsPieces D.states disk.old disk.new reader.old reader.new) }
    ensures tried { OnErr result
        (ReadsAtMost D.states disk.old disk.new reader.old (unread.at + unread.left)) }

    // One section for each stripe; they stand there if the disk is honest.
    ensures behind { IfOk result (λ x. IsBehind unread x.1) }
    ensures many { IfOk result (λ x. length x.0.items ≡ stripes.count) }
    ensures loaded { IfOk result (λ x.
        AreLoaded (layout_of unread.version) stripes.count x.0.items) }
    ensures ok { D.honest disk.new → ForRest D.states disk.old unread (λ rest. IfOk result (λ x.
        GoesOn (seen_in D.states disk.old unread.file)
        (sections_bytes (layout_of unread.version) (sections_of x.0.items)) rest x.1)) }

    // Refused: a failed call, no memory, or the first fault in the body.
    ensures err { IfErr result
        (RefusesIn unread.file (λ offset. D.honest disk.new
        → ForRest D.states disk.old unread (λ rest. (distance : ℕ) × (offset ≡ unread.at + distance)
        × HasFault (layout_of unread.version) stripes.count rest distance))) }
{
    let mut sections = Vec::new(alloc);
    let mut rest = unread;
    for number in 0..stripes.get() {
        let stripe = Stripe {
            number,
            of: stripes,
        };
        let (section, behind) = section(alloc, disk, reader, rest, stripe)?;
        sections.push(section)?;
        rest = behind;
    }
    Ok((sections, rest))
}

/// The sections of all stripes, which are to fill the body.
fn whole_body<D: Disk>(
    alloc: Global,
    disk: &mut D,
    reader: &mut FileReader,
    unread: Unread,
    stripes: StripeCount,
) -> Result<Vec<LoadedSection>, Refusal>
    // The reader has come to the unread bytes.
    requires at { IsAt reader.old unread }
    requires held { D.honest disk.old
        → Holds (seen_in D.states disk.old unread.file) reader.old }

    // The disk is only looked at, by one call for each piece up to the body's end.
    ensures looks { Looks D.states D.failures D.honest (failed_in result) disk.old disk.new }
    ensures called { OnOk result (length (D.states disk.new) + pieces_in (end_of reader.old)
        ≡ length (D.states disk.old) + pieces_in (unread.at + unread.left)) }
    ensures tried { OnErr result
        (ReadsAtMost D.states disk.old disk.new reader.old (unread.at + unread.left)) }

    // The stripes' sections. If the disk is honest none is missing, and they fill the body.
    ensures loaded { IfOk result (λ sections.
        AreLoaded (layout_of unread.version) stripes.count sections.items) }
    ensures ok { D.honest disk.new → ForRest D.states disk.old unread (λ rest.
        IfOk result (λ sections.
        IsBodyOf (layout_of unread.version) stripes.count sections.items rest)) }

    // Refused: a failed call, no memory, or the first fault in the body.
    ensures err { IfErr result
        (RefusesIn unread.file (λ offset. D.honest disk.new
        → ForRest D.states disk.old unread (λ rest. (distance : ℕ) × (offset ≡ unread.at + distance)
        × HasFault (layout_of unread.version) stripes.count rest distance))) }
{
    let (sections, behind) = all_sections(alloc, disk, reader, unread, stripes)?;
    if behind.left > 0 {
        return Err(behind.damaged());
    }
    Ok(sections)
}

/// How many stripes there are, and where the body stands in a file of `len` bytes.
fn body_of(file: u8, head: &Head, len: usize) -> Result<(StripeCount, Unread), Refusal>
    // One of the four files.
    requires { file < 4 }

    // The count of stripes is allowed, and the body is inside the file.
    ensures place { IfOk result (λ x. (x.0.count ≡ head.now.stripes)
        × IsBodyAt file head.now x.1) }
    ensures inside { OnOk result (body_offset + head.now.body_len ≤ len) }
    ensures ok { (content : List ℕ) → len ≡ length content → HasFields head.now content
        → OnOk result (size_fault file content ≡ None) }

    // Refused: the first of these that is not so; never as Failed.
    ensures listed { IfErr result (IsFileFault file) }
    ensures err { IfErr result (λ refusal. (content : List ℕ) → len ≡ length content
        → HasFields head.now content → size_fault file content ≡ Some refusal) }
    ensures unfailed { failed_in result ≡ 0 }
{
    let Some(stripes) = StripeCount::new(head.stripes) else {
        return Err(Refusal::Damaged {
            file,
            offset: STRIPES_OFFSET as u64,
        });
    };
    if len < BODY_OFFSET || head.body_len > (len - BODY_OFFSET) as u64 {
        return Err(Refusal::Damaged {
            file,
            offset: BODY_LEN_OFFSET as u64,
        });
    }
    let body = Unread {
        file,
        version: head.version,
        at: BODY_OFFSET,
        left: head.body_len as usize,
    };
    Ok((stripes, body))
}

/// How many stripes there are, where the body stands that the sections are to fill, and a reader that has
/// come to it.
fn sized_body<D: Disk>(
    alloc: Global,
    disk: &mut D,
    file: u8,
    head: &Head,
) -> Result<(StripeCount, Unread, FileReader), Refusal>
    // One of the four files.
    requires { file < 4 }

    // The disk is only looked at: one call for the length, and one for each piece.
    ensures looks { Looks D.states D.failures D.honest (failed_in result) disk.old disk.new }
    ensures called { IfOk result (λ x. Made D.states (1 + pieces_in (end_of x.2)) disk.old
        disk.new) }
    ensures tried { OnErr result
        (MadeAtMost D.states (1 + pieces_in (body_offset + head.now.body_len)) disk.old disk.new) }

    // The reader has come to the body, whose length the header gives.
    ensures place { IfOk result (λ x. (x.0.count ≡ head.now.stripes)
        × IsBodyAt file head.now x.1) }
    ensures at { IfOk result (λ x. IsAt x.2 x.1) }
    ensures held { D.honest disk.new → IfOk result (λ x. Holds (seen_in D.states disk.new x.1.file)
        x.2) }

    // If the disk is honest: the stripes are allowed, and the body is in the file.
    ensures inside { D.honest disk.new
        → OnOk result (body_offset + head.now.body_len ≤ length (seen_in D.states disk.old file)) }
    ensures ok { D.honest disk.new → HasFields head.now (seen_in D.states disk.old file)
        → OnOk result (size_fault file (seen_in D.states disk.old file) ≡ None) }

    // Refused: a failed call, no memory, or the first of these that is not so.
    ensures listed { IfErr result (IsFileRefused file) }
    ensures err { IfErr result (λ refusal. (refusal ≡ Refusal.Failed)
        ⊎ ((refusal ≡ Refusal.NoMemory)
        ⊎ (D.honest disk.new → HasFields head.now (seen_in D.states disk.old file)
        → size_fault file (seen_in D.states disk.old file) ≡ Some refusal))) }
{
    let mut reader = begin_file(alloc, disk, file)?;
    let (stripes, body) = body_of(file, head, reader.len())?;
    reach_body(disk, &mut reader, body)?;
    Ok((stripes, body, reader))
}

/// The checkpoint of which the file has this head.
fn load_body<D: Disk>(
    alloc: Global,
    disk: &mut D,
    file: u8,
    head: &Head,
) -> Result<LoadedCheckpoint, Refusal>
    // One of the two files of checkpoints.
    requires { file < 2 }

    // The disk is only looked at: one call for the length, and one for each piece.
    ensures looks { Looks D.states D.failures D.honest (failed_in result) disk.old disk.new }
    ensures called { OnOk result
        (Made D.states (1 + pieces_in (body_offset + head.now.body_len)) disk.old disk.new) }
    ensures tried { OnErr result
        (MadeAtMost D.states (1 + pieces_in (body_offset + head.now.body_len)) disk.old disk.new) }

    // If the disk is honest this is the file's checkpoint. Its keys stand in order.
    ensures ok { D.honest disk.new → IsHead head.now file (seen_in D.states disk.old file)
        → IfOk result (λ loaded. IsCheckpoint (layout_of head.now.version) (checkpoint_of loaded)
        (seen_in D.states disk.old file)) }
    ensures version { IfOk result (λ loaded. loaded.version ≡ head.now.version) }
    ensures loaded { IfOk result (λ loaded.
        AreLoaded (layout_of loaded.version) loaded.stripes.count loaded.sections.items) }

    // Refused: a failed call, no memory, or the first fault behind the head.
    ensures listed { IfErr result (IsFileRefused file) }
    ensures err { IfErr result (λ refusal. (refusal ≡ Refusal.Failed)
        ⊎ ((refusal ≡ Refusal.NoMemory)
        ⊎ (D.honest disk.new → IsHead head.now file (seen_in D.states disk.old file)
        → IsBadCheckpoint (layout_of head.now.version) file (seen_in D.states disk.old file)
        refusal))) }
{
    let (stripes, body, mut reader) = sized_body(alloc, disk, file, head)?;
    let sections = whole_body(alloc, disk, &mut reader, body, stripes)?;
    let greatest = greatest_mark(&sections);
    let is_marked = are_marked_from(head.low, &sections);
    if greatest != head.greatest_mark || !is_marked {
        return Err(Refusal::Damaged {
            file,
            offset: GREATEST_OFFSET as u64,
        });
    }
    Ok(LoadedCheckpoint {
        version: head.version,
        generation: head.generation,
        low: head.low,
        stripes,
        sections,
    })
}

/// Reads the checkpoint that is sealed in the file; `None` if none is. Besides the entries that it
/// hands on, it holds a piece of the file. Memory may be wanting before a fault behind it is met.
pub fn load<D: Disk>(
    alloc: Global,
    disk: &mut D,
    file: usize,
) -> Result<Option<LoadedCheckpoint>, Refusal>
    // One of the two files of checkpoints.
    requires { file < 2 }

    // The disk is only looked at: once if none is sealed, else as the body's length says.
    ensures looks { Looks D.states D.failures D.honest (failed_in result) disk.old disk.new }
    ensures called { D.honest disk.new → IfOk result (λ found. IfSome found (λ loaded.
        Made D.states (checkpoint_calls (body_length_in (now (D.states disk.old) file).seen))
        disk.old disk.new)) }
    ensures called_once { IfOk result (λ found. IfNone found (Made D.states 1 disk.old disk.new)) }
    ensures tried { D.honest disk.new
        → OnErr result
        (MadeAtMost D.states (checkpoint_calls (body_length_in (now (D.states disk.old) file).seen))
        disk.old disk.new) }

    // The checkpoint that is sealed there with its keys in order, or none is sealed.
    ensures some { D.honest disk.new → IfOk result (λ found. IfSome found (λ loaded.
        IsCheckpointIn (checkpoint_of loaded) (now (D.states disk.old) file).seen)) }
    ensures loaded { IfOk result (λ found. IfSome found (λ loaded.
        AreLoaded (layout_of loaded.version) loaded.stripes.count loaded.sections.items)) }
    ensures rising { IfOk result (λ found. IfSome found (λ loaded.
        AreRising loaded.sections.items)) }
    ensures none { D.honest disk.new → IfOk result (λ found. IfNone found
        (is_sealed (now (D.states disk.old) file).seen ≡ false)) }

    // The version is the one that the file's head names.
    ensures version { D.honest disk.new → IfOk result (λ found. IfSome found (λ loaded.
        (layout_of loaded.version).version ≡ version_in (now (D.states disk.old) file).seen)) }

    // Refused: a failed call, no memory, or a fault of the file; its first if honest.
    ensures listed { IfErr result (IsFileRefused file) }
    ensures err { IfErr result (λ refusal. (refusal ≡ Refusal.Failed)
        ⊎ ((refusal ≡ Refusal.NoMemory)
        ⊎ (D.honest disk.new → IsUnloadable file (now (D.states disk.old) file).seen refusal))) }
{
    match read_head(disk, file)? {
        Some(head) => Ok(Some(load_body(alloc, disk, file as u8, &head)?)),
        None => Ok(None),
    }
}
