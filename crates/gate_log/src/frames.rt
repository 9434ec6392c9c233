//! The bytes that a log writes.
ghost use Rattle.std.specs.Prelude.{◌≡◌, ◌≤◌, ◌<◌, ◌^◌, ◌+◌, ◌*◌, ◌++◌, ◌∷◌, [], length, ℕ, IfOk, OnOk, IfErr};
ghost use Rattle.std.specs.List.{All, AllByRecursion};
ghost use Rattle.log_records.specs.Layout.{layout_of};
ghost use Rattle.log_records.specs.Spelling.{IsCommand};
ghost use Rattle.ticket_order.specs.Records.{IsWithin};
ghost use Rattle.store_layout.specs.Logs.{end_frame, frame, header, records_bytes, most_commands};
ghost use Rattle.gate_log.specs.States.{batch_of, commands_of};

use crate::parts::{END_BYTES, HEAD_BYTES};
use log_records::{Version, encode, put_number, record_len};
use map_types::Refusal;
use std::alloc::Global;
use store_layout::{
    BATCH_KIND, CLOSED_GATE, END_KIND, FRAME_HEAD_BYTES, HEADER_BYTES, NUMBERS_BYTES,
};
use ticket_order::Entry;

/// How many bytes a log's header has, and the gate behind it.
const HEADER_AND_GATE: usize = HEADER_BYTES + 1;

/// How many bytes an end frame has, and the gate behind it.
const END_AND_GATE: usize = HEAD_BYTES + END_BYTES + 1;

/// A log's header, and a closed gate.
pub(crate) fn header_and_gate(version: Version, generation: u64, low: u64) -> [u8; HEADER_AND_GATE]
    ensures { result ≡ header (layout_of version) generation low ++ 0 ∷ [] }
{
    let mut bytes = [CLOSED_GATE; HEADER_AND_GATE];
    bytes[0] = version.byte();
    bytes[1..9].copy_from_slice(&generation.to_be_bytes());
    bytes[9..17].copy_from_slice(&low.to_be_bytes());
    bytes
}

/// The end frame, and a closed gate.
pub(crate) fn end_frame_and_gate(next: u64) -> [u8; END_AND_GATE]
    ensures { result ≡ end_frame next ++ 0 ∷ [] }
{
    let mut bytes = [CLOSED_GATE; END_AND_GATE];
    bytes[0] = END_KIND;
    bytes[1..HEAD_BYTES].copy_from_slice(&(END_BYTES as u32).to_be_bytes());
    bytes[HEAD_BYTES..HEAD_BYTES + END_BYTES].copy_from_slice(&next.to_be_bytes());
    bytes
}

/// How many bytes the records of the entries take.
fn records_len(version: Version, entries: &[Entry]) -> usize
    requires few { length entries.now ≤ most_commands }
    requires within { All (IsWithin (layout_of version).key_limit) (commands_of entries.now) }
    ensures len { result ≡ length (records_bytes (layout_of version) (commands_of entries.now)) }
    ensures bound { result ≤ 2 ^ 15 * length entries.now }
{
    let mut len = 0;
    for entry in entries {
        len += record_len(version, &entry.command);
    }
    len
}

/// How many bytes the frame of a batch takes.
pub(crate) fn frame_len(version: Version, entries: &[Entry]) -> usize
    requires few { length entries.now ≤ most_commands }
    requires within { All (IsWithin (layout_of version).key_limit) (commands_of entries.now) }
    ensures { (first : ℕ)
        → result ≡ length (frame (layout_of version) (batch_of first entries.now)) }
{
    FRAME_HEAD_BYTES + records_len(version, entries)
}

/// Puts the records of the entries at the end, or some of them if no memory is found.
fn append_records(version: Version, entries: &[Entry], out: &mut Vec<u8>) -> Result<(), Refusal>
    requires within { All (IsWithin (layout_of version).key_limit) (commands_of entries.now) }
    ensures ok { OnOk result (out.new.items
        ≡ out.old.items ++ records_bytes (layout_of version) (commands_of entries.now)) }
    ensures fits { OnOk result
        (AllByRecursion (IsCommand (layout_of version)) (commands_of entries.now)) }
    ensures err { IfErr result (λ refusal. refusal ≡ Refusal.NoMemory) }
{
    for entry in entries {
        encode(version, &entry.command, out)?;
    }
    Ok(())
}

/// The frame of a batch, and a closed gate. Its memory is got at once.
pub(crate) fn batch_frame(
    alloc: Global,
    version: Version,
    first: u64,
    entries: &[Entry],
) -> Result<Vec<u8>, Refusal>
    requires few { length entries.now ≤ most_commands }
    requires within { All (IsWithin (layout_of version).key_limit) (commands_of entries.now) }
    ensures ok { IfOk result (λ bytes.
        bytes.items ≡ frame (layout_of version) (batch_of first entries.now) ++ 0 ∷ []) }
    ensures fits { OnOk result
        (AllByRecursion (IsCommand (layout_of version)) (commands_of entries.now)) }
    ensures err { IfErr result (λ refusal. refusal ≡ Refusal.NoMemory) }
{
    let records = records_len(version, entries);
    let mut bytes = Vec::with_capacity(alloc, FRAME_HEAD_BYTES + records + 1)?;
    bytes.push(BATCH_KIND)?;
    put_number(4, (NUMBERS_BYTES + records) as u64, &mut bytes)?;
    put_number(8, first, &mut bytes)?;
    put_number(4, entries.len() as u64, &mut bytes)?;
    append_records(version, entries, &mut bytes)?;
    bytes.push(CLOSED_GATE)?;
    Ok(bytes)
}
