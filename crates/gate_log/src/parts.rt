//! What the bytes of a log file say: its header, and the parts of its frames.
ghost use Rattle.std.specs.Prelude.{◌≡◌, ◌≢◌, ℕ, ◌+◌, ◌<◌, ◌≤◌, ◌^◌, ◌++◌, ◌∷◌, List, length, drop, true, false, IfOk, IfErr, IfSome, IfNone};
ghost use Rattle.std.specs.List.{AllByRecursion};
ghost use Rattle.byteorder.specs.Endian.{big_bytes};
ghost use Rattle.log_records.specs.Layout.{layout_of};
ghost use Rattle.log_records.specs.Spelling.{IsCommand, record_bytes};
ghost use Rattle.map_types.specs.declared.commands.Command.{Command};
ghost use Rattle.store_layout.specs.Logs.{Batch, IsBatch, batch_kind, end_bytes, frame, head_bytes, is_read, log_file, numbers_bytes, records_bytes};
ghost use Rattle.store_layout.specs.Readings.{HasHeader, IsBadHeader};
ghost use Rattle.gate_log.specs.Scan.{failed_in};
ghost use Rattle.gate_log.specs.ScanParts.{AreEntries, IsBody, IsAheadOf, most_body_bytes};

use byteorder::{BigEndian, ByteOrder};
use log_records::{Version, decode};
use map_types::{Command, Refusal};
use std::alloc::Global;
use store_layout::{
    BATCH_KIND, END_KIND, HEADER_BYTES, MOST_FRAME_BYTES, MOST_RECORDS, NUMBERS_BYTES,
};
use ticket_order::{Entry, Ticket};

/// Kind and length stand at the front of a frame.
pub(crate) const HEAD_BYTES: usize = 5;

/// The number of a generation stands behind the length of an end frame.
pub(crate) const END_BYTES: usize = 8;

/// Where the generation stands in a header, behind the version.
const GENERATION_OFFSET: usize = 1;

/// Where the low ticket stands, behind the generation.
const LOW_OFFSET: usize = 9;

/// What the gate, and the kind and the length behind it, say.
#[derive(Drop)]
pub(crate) enum Ahead {
    Closed,
    /// A batch's frame, with `len` bytes behind its length.
    Batch { len: usize },
    End,
}

/// The version with this byte in a file, if it is read.
fn version_of_file(byte: u8) -> Option<Version>
    ensures some { IfSome result (λ version. (layout_of version).version ≡ byte) }
    ensures read { IfSome result (λ version. is_read byte ≡ true) }
    ensures none { IfNone result (is_read byte ≡ false) }
{
    Version::of(byte)
}

/// Looks at the header of a log that is to have this generation and this low ticket, and says its
/// version. The bytes are the first 18 of the file, or all if it has fewer.
pub(crate) fn check_header(generation: u64, low: u64, bytes: &[u8]) -> Result<Version, Refusal>
    ensures unfailed { failed_in result ≡ 0 }
    ensures ok { IfOk result (λ version.
        HasHeader (layout_of version).version generation low bytes.now) }
    ensures err { IfErr result (λ refusal. IsBadHeader generation low bytes.now refusal) }
{
    let file = file_number(generation);
    if bytes.len() <= HEADER_BYTES {
        return Err(Refusal::Damaged { file, offset: 0 });
    }
    let Some(version) = version_of_file(bytes[0]) else {
        return Err(Refusal::WrongVersion);
    };
    if BigEndian::read_u64(&bytes[GENERATION_OFFSET..]) != generation {
        return Err(Refusal::Damaged {
            file,
            offset: GENERATION_OFFSET as u64,
        });
    }
    if BigEndian::read_u64(&bytes[LOW_OFFSET..]) != low {
        return Err(Refusal::Damaged {
            file,
            offset: LOW_OFFSET as u64,
        });
    }
    Ok(version)
}

/// The number of the file that has the log of this generation.
pub(crate) fn file_number(generation: u64) -> u8
    ensures { result ≡ log_file generation }
{
    2 + (generation % 2) as u8
}

/// The kind and the length that stand before a frame's other bytes.
pub(crate) fn kind_and_len(bytes: &[u8]) -> (u8, usize)
    requires { length bytes.now ≡ head_bytes }
    ensures spelled { bytes.now ≡ result.0 ∷ big_bytes 4 result.1 }
    ensures fits { result.1 < 2 ^ 32 }
{
    (bytes[0], BigEndian::read_u32(&bytes[1..]) as usize)
}

/// The generation that an end frame names.
pub(crate) fn next_generation(body: &[u8]) -> u64
    requires { length body.now ≡ end_bytes }
    ensures { body.now ≡ big_bytes 8 result }
{
    BigEndian::read_u64(body)
}

/// The first ticket and the count that stand before a batch's records.
fn first_and_count(body: &[u8]) -> (u64, usize)
    requires { numbers_bytes ≤ length body.now }
    ensures spelled { body.now ≡ big_bytes 8 result.0
        ++ (big_bytes 4 result.1 ++ drop numbers_bytes body.now) }
    ensures fits { result.1 < 2 ^ 32 }
{
    let first = BigEndian::read_u64(body);
    let count = BigEndian::read_u32(&body[8..]);
    (first, count as usize)
}

/// The record at the front and the bytes behind it; `None` if no record stands there.
fn command_at(
    alloc: Global,
    version: Version,
    bytes: &[u8],
) -> Result<Option<(Command, &[u8])>, Refusal>
    ensures some { IfOk result (λ found. IfSome found (λ x. IsCommand (layout_of version) x.0
        × (bytes.now ≡ record_bytes (layout_of version) x.0 ++ x.1.now))) }
    ensures none { IfOk result (λ found.
        IfNone found
        ((command : Command) (rest : List ℕ) → IsCommand (layout_of version) command
        → bytes.now ≢ record_bytes (layout_of version) command ++ rest)) }
    ensures err { IfErr result (λ refusal. refusal ≡ Refusal.NoMemory) }
{
    match decode(version, alloc, bytes) {
        Ok((command, used)) => Ok(Some((command, &bytes[used..]))),
        Err(refusal) => match refusal {
            Refusal::NoMemory => Err(refusal),
            _ => Ok(None),
        },
    }
}

/// The `count` changes with the tickets from `first` on, whose records are the bytes; `None` if
/// they aren't `count` records.
fn entries_at(
    alloc: Global,
    version: Version,
    first: u64,
    count: usize,
    bytes: &[u8],
) -> Result<Option<Vec<Entry>>, Refusal>
    requires { first + count < 2 ^ 64 }
    ensures some { IfOk result (λ found. IfSome found (λ entries.
        AreEntries (layout_of version) first count entries.items bytes.now)) }
    ensures none { IfOk result (λ found.
        IfNone found
        ((commands : List Command) → length commands ≡ count
        → AllByRecursion (IsCommand (layout_of version)) commands
        → bytes.now ≢ records_bytes (layout_of version) commands)) }
    ensures err { IfErr result (λ refusal. refusal ≡ Refusal.NoMemory) }
{
    let mut entries = Vec::new(alloc);
    let mut rest = bytes;
    for ticket in first..first + count as u64 {
        let Some((command, behind)) = command_at(alloc, version, rest)? else {
            return Ok(None);
        };
        let ticket = Ticket::new(ticket);
        entries.push(Entry { ticket, command })?;
        rest = behind;
    }
    if !rest.is_empty() {
        return Ok(None);
    }
    Ok(Some(entries))
}

/// The changes of a batch whose frame has these bytes behind its length, with their tickets. `None`
/// if they aren't those of a batch that may come next.
pub(crate) fn batch_at(
    alloc: Global,
    version: Version,
    expected: u64,
    body: &[u8],
) -> Result<Option<Vec<Entry>>, Refusal>
    requires low { numbers_bytes ≤ length body.now }
    requires high { length body.now ≤ most_body_bytes }
    ensures some { IfOk result (λ found. IfSome found (λ entries.
        IsBody (layout_of version) expected entries.items body.now)) }
    ensures none { IfOk result (λ found.
        IfNone found
        ((batch : Batch) → IsBatch (layout_of version) batch → batch.first ≡ expected
        → frame (layout_of version) batch
        ≢ batch_kind ∷ (big_bytes 4 (length body.now) ++ body.now))) }
    ensures err { IfErr result (λ refusal. refusal ≡ Refusal.NoMemory) }
{
    let (first, count) = first_and_count(body);
    if first != expected || count == 0 || count > MOST_RECORDS {
        return Ok(None);
    }
    if expected > u64::MAX - count as u64 {
        return Ok(None);
    }
    entries_at(alloc, version, expected, count, &body[NUMBERS_BYTES..])
}

/// What this kind and this length say of a frame; `None` if no frame has them.
pub(crate) fn ahead_of(kind: u8, len: usize) -> Option<Ahead>
    ensures { IsAheadOf kind len result }
{
    match kind {
        BATCH_KIND if len >= NUMBERS_BYTES && len <= MOST_FRAME_BYTES - HEAD_BYTES => Some(
            Ahead::Batch { len },
        ),
        END_KIND if len == END_BYTES => Some(Ahead::End),
        _ => None,
    }
}
