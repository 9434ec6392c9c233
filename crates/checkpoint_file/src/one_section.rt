//! Reads one section of a checkpoint out of its file.
ghost use Rattle.std.specs.Prelude.{◌≡◌, ℕ, ◌+◌, ◌<◌, ◌≤◌, ◌^◌, ◌++◌, length, drop, IfOk, IfErr, OnOk, OnErr};
ghost use Rattle.byteorder.specs.Endian.{big_bytes};
ghost use Rattle.disk_model.specs.Calls.{Looks};
ghost use Rattle.file_pieces.specs.Counting.{ReadsPieces, ReadsAtMost};
ghost use Rattle.file_pieces.specs.Pieces.{Holds, end_of};
ghost use Rattle.log_records.specs.Layout.{layout_of};
ghost use Rattle.store_layout.specs.Checkpoints.{entries_bytes, section_bytes, section_head_bytes};
ghost use Rattle.store_layout.specs.Faults.{IsFault};
ghost use Rattle.checkpoint_file.specs.Heads.{failed_in};
ghost use Rattle.checkpoint_file.specs.Loads.{section_of, seen_in, ForRest, IsBehind, GoesOn, RefusesIn, HasNoNext, MayFollow, IsNext, HasFewer, AreSoMany, IsLoaded};
ghost use Rattle.checkpoint_file.specs.Front.{IsAt};

use crate::front::{fetch, front};
use crate::loading::LoadedSection;
use crate::pieces::{Stripe, entry_at, mark_and_count, may_follow};
use crate::unread::Unread;
use disk_model::Disk;
use file_pieces::FileReader;
use map_types::{Key, Refusal, Value};
use std::alloc::Global;
use store_layout::SECTION_HEAD_BYTES;

/// The mark and the count of the section that begins here.
fn section_head<D: Disk>(
    disk: &mut D,
    reader: &mut FileReader,
    unread: Unread,
) -> Result<(u64, usize), Refusal>
    // The reader has come to the unread bytes.
    requires at { IsAt reader.old unread }
    requires held { D.honest disk.old
        → Holds (seen_in D.states disk.old unread.file) reader.old }

    // The disk is only looked at. The twelve bytes of mark and count were read.
    ensures looks { Looks D.states D.failures D.honest (failed_in result) disk.old disk.new }
    ensures at { OnOk result (IsAt reader.new unread) }
    ensures reached { OnOk result (unread.at + section_head_bytes ≤ end_of reader.new) }

    // Device calls: one for each piece, and none for a piece behind the body.
    ensures called { OnOk result (ReadsPieces D.states disk.old disk.new reader.old reader.new) }
    ensures tried { OnErr result
        (ReadsAtMost D.states disk.old disk.new reader.old (unread.at + unread.left)) }

    // Mark and count have their widths, and stand there if the disk is honest.
    ensures held { D.honest disk.new
        → OnOk result (Holds (seen_in D.states disk.new unread.file) reader.new) }
    ensures fits { IfOk result (λ head. (head.0 < 2 ^ 64) × (head.1 < 2 ^ 32)) }
    ensures long { OnOk result (section_head_bytes ≤ unread.left) }
    ensures ok { D.honest disk.new → ForRest D.states disk.old unread (λ rest. IfOk result (λ head.
        rest ≡ (big_bytes 8 head.0 ++ big_bytes 4 head.1) ++ drop section_head_bytes rest)) }

    // Refused: a failed call, no memory, or fewer than twelve bytes are left.
    ensures err { IfErr result
        (RefusesIn unread.file (λ offset. D.honest disk.new
        → ForRest D.states disk.old unread (λ rest. (offset ≡ unread.at)
        × (length rest < section_head_bytes)))) }
{
    if unread.left < SECTION_HEAD_BYTES {
        return Err(unread.damaged());
    }
    fetch(disk, reader, unread)?;
    let bytes = front(reader, unread);
    Ok(mark_and_count(&bytes[..SECTION_HEAD_BYTES]))
}

/// The entry that comes next behind these, and how many bytes it takes.
fn next_entry<D: Disk>(
    alloc: Global,
    disk: &mut D,
    reader: &mut FileReader,
    unread: Unread,
    stripe: Stripe,
    before: &[(Key, Value)],
) -> Result<((Key, Value), usize), Refusal>
    // The reader has come to the unread bytes.
    requires at { IsAt reader.old unread }
    requires held { D.honest disk.old
        → Holds (seen_in D.states disk.old unread.file) reader.old }

    // The disk is only looked at. All of the entry's bytes were read.
    ensures looks { Looks D.states D.failures D.honest (failed_in result) disk.old disk.new }
    ensures at { OnOk result (IsAt reader.new unread) }
    ensures reached { IfOk result (λ x. unread.at + x.1 ≤ end_of reader.new) }

    // Device calls: one for each piece, and none for a piece behind the body.
    ensures called { OnOk result (ReadsPieces D.states disk.old disk.new reader.old reader.new) }
    ensures tried { OnErr result
        (ReadsAtMost D.states disk.old disk.new reader.old (unread.at + unread.left)) }

    // The entry may come next behind these, and stands there if the disk is honest.
    ensures held { D.honest disk.new
        → OnOk result (Holds (seen_in D.states disk.new unread.file) reader.new) }
    ensures few { IfOk result (λ x. x.1 ≤ unread.left) }
    ensures follows { IfOk result (λ x.
        MayFollow (layout_of unread.version) stripe.of.count stripe.number before.now x.0) }
    ensures ok { D.honest disk.new → ForRest D.states disk.old unread (λ rest.
        IfOk result (λ x. IsNext (layout_of unread.version) x.0 x.1 rest)) }

    // Refused: a failed call, no memory, or no entry that may come next.
    ensures err { IfErr result
        (RefusesIn unread.file (λ offset. D.honest disk.new
        → ForRest D.states disk.old unread (λ rest. (offset ≡ unread.at)
        × HasNoNext (layout_of unread.version) stripe.of.count stripe.number before.now rest))) }
{
    fetch(disk, reader, unread)?;
    let bytes = front(reader, unread);
    let Some((entry, others)) = entry_at(unread.version, alloc, bytes)? else {
        return Err(unread.damaged());
    };
    if !may_follow(before, &entry.0, stripe) {
        return Err(unread.damaged());
    }
    let used = bytes.len() - others.len();
    Ok((entry, used))
}

/// `count` entries of the stripe, and what is unread behind them.
fn entries<D: Disk>(
    alloc: Global,
    disk: &mut D,
    reader: &mut FileReader,
    unread: Unread,
    stripe: Stripe,
    count: usize,
) -> Result<(Vec<(Key, Value)>, Unread), Refusal>
    // The reader has come to the unread bytes.
    requires at { IsAt reader.old unread }
    requires held { D.honest disk.old
        → Holds (seen_in D.states disk.old unread.file) reader.old }

    // The disk is only looked at, and the reader comes behind the entries.
    ensures looks { Looks D.states D.failures D.honest (failed_in result) disk.old disk.new }
    ensures at { IfOk result (λ x. IsAt reader.new x.1) }

    // Device calls: one for each piece, and none for a piece behind the body.
    ensures called { OnOk result (ReadsPieces D.states disk.old disk.new reader.old reader.new) }
    ensures tried { OnErr result
        (ReadsAtMost D.states disk.old disk.new reader.old (unread.at + unread.left)) }

    // There are `count` entries of the stripe; they stand there if the disk is honest.
    ensures held { D.honest disk.new
        → OnOk result (Holds (seen_in D.states disk.new unread.file) reader.new) }
    ensures behind { IfOk result (λ x. IsBehind unread x.1) }
    ensures many { IfOk result (λ x.
        AreSoMany (layout_of unread.version) stripe.of.count stripe.number count x.0.items) }
    ensures ok { D.honest disk.new → ForRest D.states disk.old unread (λ rest. IfOk result (λ x.
        GoesOn (seen_in D.states disk.old unread.file)
        (entries_bytes (layout_of unread.version) x.0.items) rest x.1)) }

    // Refused: a failed call, no memory, or fewer entries than `count`.
    ensures err { IfErr result
        (RefusesIn unread.file (λ offset. D.honest disk.new
        → ForRest D.states disk.old unread (λ rest. (distance : ℕ) × (offset ≡ unread.at + distance)
        × HasFewer (layout_of unread.version) stripe.of.count stripe.number count rest distance))) }
{
    let mut entries = Vec::new(alloc);
    let mut rest = unread;
    for _ in 0..count {
        let (entry, used) = next_entry(alloc, disk, reader, rest, stripe, &entries)?;
        entries.push(entry)?;
        rest = rest.behind(used);
    }
    Ok((entries, rest))
}

/// The section of the stripe, and what is unread behind it.
pub(crate) fn section<D: Disk>(
    alloc: Global,
    disk: &mut D,
    reader: &mut FileReader,
    unread: Unread,
    stripe: Stripe,
) -> Result<(LoadedSection, Unread), Refusal>
    // The reader has come to the unread bytes, and there is such a stripe.
    requires at { IsAt reader.old unread }
    requires some { stripe.number < stripe.of.count }
    requires held { D.honest disk.old
        → Holds (seen_in D.states disk.old unread.file) reader.old }

    // The disk is only looked at, and the reader comes behind the section.
    ensures looks { Looks D.states D.failures D.honest (failed_in result) disk.old disk.new }
    ensures at { IfOk result (λ x. IsAt reader.new x.1) }

    // Device calls: one for each piece, and none for a piece behind the body.
    ensures called { OnOk result (ReadsPieces D.states disk.old disk.new reader.old reader.new) }
    ensures tried { OnErr result
        (ReadsAtMost D.states disk.old disk.new reader.old (unread.at + unread.left)) }

    // A section of the stripe with rising keys; it stands there if the disk is honest.
    ensures held { D.honest disk.new
        → OnOk result (Holds (seen_in D.states disk.new unread.file) reader.new) }
    ensures behind { IfOk result (λ x. IsBehind unread x.1) }
    ensures loaded { IfOk result (λ x.
        IsLoaded (layout_of unread.version) stripe.of.count stripe.number x.0) }
    ensures ok { D.honest disk.new → ForRest D.states disk.old unread (λ rest. IfOk result (λ x.
        GoesOn (seen_in D.states disk.old unread.file)
        (section_bytes (layout_of unread.version) (section_of x.0)) rest x.1)) }

    // Refused: a failed call, no memory, or the section's first fault.
    ensures err { IfErr result
        (RefusesIn unread.file (λ offset. D.honest disk.new
        → ForRest D.states disk.old unread (λ rest. (distance : ℕ) × (offset ≡ unread.at + distance)
        × IsFault (layout_of unread.version) stripe.of.count stripe.number rest distance))) }
{
    let (mark, count) = section_head(disk, reader, unread)?;
    let behind = unread.behind(SECTION_HEAD_BYTES);
    let (entries, rest) = entries(alloc, disk, reader, behind, stripe, count)?;
    Ok((LoadedSection { mark, entries }, rest))
}
