//! The bytes that a checkpoint writes.
ghost use Rattle.std.specs.Prelude.{◌≡◌, ◌≤◌, ◌<◌, ◌^◌, ◌+◌, ◌*◌, ◌++◌, length, IfOk, OnOk, IfErr};
ghost use Rattle.std.specs.List.{AllByRecursion};
ghost use Rattle.store_layout.specs.Checkpoints.{checkpoint_header, entries_bytes, marked_bytes};
ghost use Rattle.store_layout.specs.Logs.{new_layout};
ghost use Rattle.checkpoint_file.specs.States.{AreWellFormed, most_section_bytes};

use bin_table::LentEntry;
use java_hash::StripeCount;
use log_records::{put_key, put_number, put_value};
use map_types::Refusal;
use std::alloc::Global;
use store_layout::{CHECKPOINT_HEADER_BYTES, NEW_VERSION};

/// The header of a checkpoint: its generation, its low ticket, its greatest mark, its stripes, and
/// the length of its body in bytes.
pub fn header(
    generation: u64,
    low: u64,
    greatest: u64,
    stripes: StripeCount,
    body: u64,
) -> [u8; CHECKPOINT_HEADER_BYTES]
    ensures { result ≡ checkpoint_header new_layout generation low greatest stripes.count body }
{
    let mut bytes = [NEW_VERSION.byte(); CHECKPOINT_HEADER_BYTES];
    bytes[1..9].copy_from_slice(&generation.to_be_bytes());
    bytes[9..17].copy_from_slice(&low.to_be_bytes());
    bytes[17..25].copy_from_slice(&greatest.to_be_bytes());
    bytes[25..27].copy_from_slice(&stripes.count.to_be_bytes());
    bytes[27..35].copy_from_slice(&body.to_be_bytes());
    bytes
}

/// Puts the entries at the end, or some of them if no memory is found.
fn append_entries(entries: &[LentEntry<'_>], out: &mut Vec<u8>) -> Result<(), Refusal>
    ensures ok { OnOk result
        (out.new.items ≡ out.old.items ++ entries_bytes new_layout entries.now) }
    ensures fits { OnOk result (AreWellFormed new_layout entries.now) }
    ensures err { IfErr result (λ refusal. refusal ≡ Refusal.NoMemory) }
{
    for entry in entries {
        let key = entry.key();
        // Each key is within the limit of the new version.
        let _key = key.as_str();
        put_key(NEW_VERSION, key, out)?;
        put_value(entry.value(), out)?;
    }
    Ok(())
}

/// The bytes of a section.
pub(crate) fn section_bytes(
    alloc: Global,
    mark: u64,
    entries: &[LentEntry<'_>],
) -> Result<Vec<u8>, Refusal>
    requires { length entries.now < 2 ^ 32 }
    ensures ok { IfOk result (λ bytes. bytes.items ≡ marked_bytes new_layout mark entries.now) }
    ensures fits { OnOk result (AreWellFormed new_layout entries.now) }
    ensures bound { IfOk result (λ bytes. length bytes.items ≤ most_section_bytes) }
    ensures err { IfErr result (λ refusal. refusal ≡ Refusal.NoMemory) }
{
    let mut bytes = Vec::new(alloc);
    put_number(8, mark, &mut bytes)?;
    put_number(4, entries.len() as u64, &mut bytes)?;
    append_entries(entries, &mut bytes)?;
    Ok(bytes)
}
