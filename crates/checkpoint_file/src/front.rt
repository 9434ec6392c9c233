//! The next bytes of a checkpoint's body, out of the pieces of its file.
ghost use Rattle.std.specs.Prelude.{◌≡◌, ◌⊎◌, ℕ, ◌+◌, ◌<◌, ◌≤◌, [], List, length, take, min, IfOk, IfErr, OnOk, OnErr};
ghost use Rattle.disk_model.specs.Calls.{Looks};
ghost use Rattle.file_pieces.specs.Counting.{Made, ReadsPieces, ReadsAtMost};
ghost use Rattle.file_pieces.specs.Pieces.{Holds, end_of};
ghost use Rattle.store_layout.specs.Failures.{IsFileRefused};
ghost use Rattle.checkpoint_file.specs.Heads.{failed_in};
ghost use Rattle.checkpoint_file.specs.Loads.{seen_in, StandsAt, ForRest, RefusesIn};
ghost use Rattle.checkpoint_file.specs.Front.{IsAt, IsBefore, Reaches, most_entry_bytes};

use crate::unread::Unread;
use disk_model::Disk;
use file_pieces::{FileReader, ReadFault};
use map_types::Refusal;
use std::alloc::Global;

/// An entry has at most a key of 4,095 bytes behind its length (2), and a text of 4,096 behind its
/// kind and its length (3).
const MOST_ENTRY_BYTES: usize = 8_196;

/// Begins to read the file of a checkpoint.
pub(crate) fn begin_file<D: Disk>(
    alloc: Global,
    disk: &mut D,
    file: u8,
) -> Result<FileReader, Refusal>
    // One of the four files.
    requires { file < 4 }

    // One device call, which only looks.
    ensures looks { Looks D.states D.failures D.honest (failed_in result) disk.old disk.new }
    ensures called { Made D.states 1 disk.old disk.new }

    // The reader is at the file's beginning, holds no byte, and knows its length.
    ensures file { IfOk result (λ reader. reader.file ≡ file) }
    ensures none_held { IfOk result (λ reader. (reader.from ≡ 0) × (reader.held ≡ [])) }
    ensures holds { D.honest disk.new → IfOk result (Holds (seen_in D.states disk.old file)) }

    // Refused: the call failed.
    ensures err { IfErr result (λ refusal. refusal ≡ Refusal.Failed) }
{
    match FileReader::begin(alloc, disk, file as usize) {
        Ok(reader) => Ok(reader),
        Err(_) => Err(Refusal::Failed),
    }
}

/// Reads on, as far as `count` bytes of the body. A device that gives fewer than its own length says
/// is reported as damage.
fn read_on<D: Disk>(
    disk: &mut D,
    reader: &mut FileReader,
    unread: Unread,
    count: usize,
) -> Result<(), Refusal>
    // At least `count` bytes are unread, and the reader has let go of none of them.
    requires at { IsBefore reader.old unread }
    requires few { count ≤ unread.left }
    requires held { D.honest disk.old
        → Holds (seen_in D.states disk.old unread.file) reader.old }

    // The disk is only looked at, and these `count` bytes were read.
    ensures looks { Looks D.states D.failures D.honest (failed_in result) disk.old disk.new }
    ensures at { OnOk result (IsAt reader.new unread) }
    ensures reaches { OnOk result (unread.at + count ≤ end_of reader.new) }

    // Device calls: one for each piece, and none for a piece behind the body.
    ensures called { OnOk result (ReadsPieces D.states disk.old disk.new reader.old reader.new) }
    ensures tried { OnErr result
        (ReadsAtMost D.states disk.old disk.new reader.old (unread.at + unread.left)) }

    // If the disk is honest: the file's bytes, and only a call or memory can fail.
    ensures held { D.honest disk.new
        → OnOk result (Holds (seen_in D.states disk.new unread.file) reader.new) }
    ensures err { IfErr result (RefusesIn unread.file (λ offset. D.honest disk.new → ⊥)) }
{
    match reader.reach(disk, unread.at + count) {
        Ok(()) => Ok(()),
        Err(ReadFault::Failed) => Err(Refusal::Failed),
        Err(ReadFault::NoMemory) => Err(Refusal::NoMemory),
        Err(ReadFault::Short) => Err(unread.damaged()),
    }
}

/// Reads on to the body.
pub(crate) fn reach_body<D: Disk>(
    disk: &mut D,
    reader: &mut FileReader,
    body: Unread,
) -> Result<(), Refusal>
    // The reader has let go of nothing of the body.
    requires at { IsBefore reader.old body }
    requires held { D.honest disk.old
        → Holds (seen_in D.states disk.old body.file) reader.old }

    // The disk is only looked at, and the reader comes to the body.
    ensures looks { Looks D.states D.failures D.honest (failed_in result) disk.old disk.new }
    ensures at { OnOk result (IsAt reader.new body) }

    // Device calls: one for each piece, and none for a piece behind the body.
    ensures called { OnOk result (ReadsPieces D.states disk.old disk.new reader.old reader.new) }
    ensures tried { OnErr result
        (ReadsAtMost D.states disk.old disk.new reader.old (body.at + body.left)) }

    // If the disk is honest: the file's bytes, and only a call or memory can fail.
    ensures held { D.honest disk.new
        → OnOk result (Holds (seen_in D.states disk.new body.file) reader.new) }
    ensures err { IfErr result (λ refusal. (refusal ≡ Refusal.Failed)
        ⊎ ((refusal ≡ Refusal.NoMemory) ⊎ (D.honest disk.new → ⊥))) }
    ensures listed { IfErr result (IsFileRefused body.file) }
{
    read_on(disk, reader, body, 0)
}

/// Reads the next bytes, as many as the longest entry has, or all if these are fewer. What stands
/// before them is let go.
pub(crate) fn fetch<D: Disk>(
    disk: &mut D,
    reader: &mut FileReader,
    unread: Unread,
) -> Result<(), Refusal>
    // The reader has come to the unread bytes.
    requires at { IsAt reader.old unread }
    requires held { D.honest disk.old
        → Holds (seen_in D.states disk.old unread.file) reader.old }

    // The disk is only looked at. As many bytes are held as an entry may take, or all.
    ensures looks { Looks D.states D.failures D.honest (failed_in result) disk.old disk.new }
    ensures at { OnOk result (IsAt reader.new unread) }
    ensures reaches { OnOk result (Reaches reader.new unread) }

    // Device calls: one for each piece, and none for a piece behind the body.
    ensures called { OnOk result (ReadsPieces D.states disk.old disk.new reader.old reader.new) }
    ensures tried { OnErr result
        (ReadsAtMost D.states disk.old disk.new reader.old (unread.at + unread.left)) }

    // If the disk is honest: the file's bytes, and only a call or memory can fail.
    ensures held { D.honest disk.new
        → OnOk result (Holds (seen_in D.states disk.new unread.file) reader.new) }
    ensures err { IfErr result (RefusesIn unread.file (λ offset.
        D.honest disk.new → ForRest D.states disk.old unread (λ rest. ⊥))) }
{
    reader.let_go(unread.at);
    read_on(disk, reader, unread, unread.left.min(MOST_ENTRY_BYTES))
}

/// The next bytes, as many as the longest entry has, or all if these are fewer.
pub(crate) fn front(reader: &FileReader, unread: Unread) -> &[u8]
    requires at { IsAt reader.now unread }
    requires reaches { Reaches reader.now unread }
    ensures size { length result.now ≡ min unread.left most_entry_bytes }
    ensures same { (content rest : List ℕ) → Holds content reader.now
        → StandsAt content unread.at rest → length rest ≡ unread.left
        → result.now ≡ take (length result.now) rest }
{
    let count = unread.left.min(MOST_ENTRY_BYTES);
    reader.bytes(unread.at, unread.at + count)
}
