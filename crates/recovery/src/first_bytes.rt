//! The bytes of a new store's checkpoint, and those of its log.
ghost use Rattle.std.specs.Prelude.{◌≡◌, IfOk, IfErr};
ghost use Rattle.log_records.specs.Layout.{Layout, layout_of};
ghost use Rattle.store_layout.specs.Checkpoints.{checkpoint_bytes, sections_bytes};
ghost use Rattle.store_layout.specs.FirstFiles.{first_log_in};
ghost use Rattle.store_layout.specs.Opening.{first_checkpoint};

use checkpoint_file::header;
use java_hash::StripeCount;
use log_records::{Version, put_number};
use map_types::Refusal;
use std::alloc::Global;
use store_layout::{CLOSED_GATE, HEADER_BYTES};

/// The first log's header and the gate behind it.
const FIRST_LOG_BYTES: usize = HEADER_BYTES + 1;

/// The sections, none of which has an entry, in any version.
fn empty_sections(alloc: Global, stripes: StripeCount) -> Result<Vec<u8>, Refusal>
    ensures ok { IfOk result (λ bytes. (layout : Layout)
        → bytes.items ≡ sections_bytes layout (first_checkpoint stripes.count).sections) }
    ensures err { IfErr result (λ refusal. refusal ≡ Refusal.NoMemory) }
{
    let mut bytes = Vec::new(alloc);
    for _ in 0..stripes.get() {
        put_number(8, 0, &mut bytes)?;
        put_number(4, 0, &mut bytes)?;
    }
    Ok(bytes)
}

/// What stands behind the gate of a new store's checkpoint of this version.
pub(crate) fn first_bytes(
    alloc: Global,
    stripes: StripeCount,
    version: Version,
) -> Result<Vec<u8>, Refusal>
    ensures ok { IfOk result (λ bytes.
        bytes.items ≡ checkpoint_bytes (layout_of version) (first_checkpoint stripes.count)) }
    ensures err { IfErr result (λ refusal. refusal ≡ Refusal.NoMemory) }
{
    let sections = empty_sections(alloc, stripes)?;
    let mut header = header(0, 0, 0, stripes, sections.len() as u64);
    header[0] = version.byte();
    let mut bytes = Vec::new(alloc);
    bytes.extend_from_slice(&header)?;
    bytes.extend_from_slice(&sections)?;
    Ok(bytes)
}

/// What a new store's log of this version holds: its header, whose generation and low ticket are 0, and
/// a closed gate.
pub(crate) fn first_log(version: Version) -> [u8; FIRST_LOG_BYTES]
    ensures { result ≡ first_log_in (layout_of version) }
{
    let mut bytes = [CLOSED_GATE; FIRST_LOG_BYTES];
    bytes[0] = version.byte();
    bytes
}
