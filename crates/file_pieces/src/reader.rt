//! A reader of one file.
ghost use Rattle.std.specs.Prelude.{◌≡◌, ◌≢◌, ℕ, ◌+◌, ◌-◌, ◌*◌, ◌%◌, ◌<◌, ◌≤◌, max, min, [], List, length, take, drop, IfOk, IfErr, OnOk, OnErr};
ghost use Rattle.disk_model.specs.Calls.{Looks};
ghost use Rattle.disk_model.specs.Files.{now};
ghost use Rattle.file_pieces.specs.Faults.{failed_in};
ghost use Rattle.file_pieces.specs.Counting.{Made, MadeAtMost, ReadsPieces, ReadsAtMost};
ghost use Rattle.file_pieces.specs.Pieces.{ReaderState, Holds, IsSameFile, end_of, piece_bytes, pieces_in};

use crate::buffer::Buffer;
use crate::fault::ReadFault;
use disk_model::Disk;
use std::alloc::Global;
use std::marker::Model;

/// One device call reads fifteen of the longest entries of a checkpoint, or some thousand short ones,
/// into little memory.
pub const PIECE_BYTES: usize = 65_536;

/// A reader of one file, which goes forward. It holds what was read from a place on that its caller
/// moves.
#[derive(Drop)]
pub struct FileReader {
    file: usize,
    len: usize,
    from: usize,
    buffer: Buffer,
}

impl Model for FileReader {
    ghost use Rattle.file_pieces.specs.Pieces.{ReaderState, piece_bytes};

    ghost Value = { ReaderState };

    ghost use Rattle.std.specs.Prelude.{◌≡◌, ◌+◌, ◌%◌, ◌<◌, ◌≤◌, ◌^◌, length};
    ghost use Rattle.file_pieces.specs.Buffer.{held_in};

    ghost view = { λ r.
        record { file = r.file; len = r.len; from = r.from; held = held_in r.buffer } };

    ghost invariant = { λ r. (r.file < 4) × (r.len < 2 ^ 64)
        × (r.from + length (held_in r.buffer) ≤ r.len)
        × (r.from + length (held_in r.buffer) < r.len
        → (r.from + length (held_in r.buffer)) % piece_bytes ≡ 0) };
}

impl FileReader {
    /// Begins to read the file, and asks the device for its length.
    pub fn begin<D: Disk>(alloc: Global, disk: &mut D, file: usize) -> Result<FileReader, ReadFault>
        // One of the four files.
        requires { file < 4 }

        // One device call, which only looks.
        ensures looks { Looks D.states D.failures D.honest (failed_in result) disk.old disk.new }
        ensures called { Made D.states 1 disk.old disk.new }

        // The reader is at the file's beginning, holds no byte, and knows its length.
        ensures file { IfOk result (λ reader. reader.file ≡ file) }
        ensures none_held { IfOk result (λ reader. (reader.from ≡ 0) × (reader.held ≡ [])) }
        ensures holds { D.honest disk.new
            → IfOk result (Holds (now (D.states disk.old) file).seen) }

        // Refused: the call failed.
        ensures err { IfErr result (λ fault. fault ≡ ReadFault.Failed) }
    {
        let Ok(len) = disk.len(file) else {
            return Err(ReadFault::Failed);
        };
        Ok(FileReader {
            file,
            len,
            from: 0,
            buffer: Buffer::new(alloc),
        })
    }

    /// How many bytes the file had when the reading began.
    pub fn len(&self) -> usize
        ensures { result ≡ self.now.len }
    {
        self.len
    }

    /// The place behind the last byte that was read.
    pub fn end(&self) -> usize
        ensures place { result ≡ end_of self.now }
        ensures within { result ≤ self.now.len }
        ensures whole { result < self.now.len → result % piece_bytes ≡ 0 }
    {
        self.from + self.buffer.len()
    }

    /// Lets go of what is held before this place.
    pub fn let_go(&mut self, at: usize)
        ensures file { IsSameFile self.old self.new }
        ensures from { self.new.from ≡ max self.old.from (min at (end_of self.old)) }
        ensures end { end_of self.new ≡ end_of self.old }
        ensures holds { (content : List ℕ) → Holds content self.old → Holds content self.new }
    {
        let count = at.saturating_sub(self.from).min(self.buffer.len());
        self.buffer.let_go(count);
        self.from += count;
    }

    /// Reads the next piece.
    fn read_piece<D: Disk>(&mut self, disk: &mut D) -> Result<(), ReadFault>
        // Something of the file is unread.
        requires { end_of self.old < self.old.len }

        // The disk is only looked at; the reader keeps its file and lets nothing go.
        ensures looks { Looks D.states D.failures D.honest (failed_in result) disk.old disk.new }
        ensures file { IsSameFile self.old self.new }
        ensures from { self.new.from ≡ self.old.from }

        // One call reads the next piece. If refused the reader stays as it was.
        ensures end { OnOk result
            (end_of self.new ≡ min self.old.len (end_of self.old + piece_bytes)) }
        ensures called { OnOk result (Made D.states 1 disk.old disk.new) }
        ensures tried { OnErr result (MadeAtMost D.states 1 disk.old disk.new) }
        ensures same { OnErr result (self.new ≡ self.old) }

        // If the disk is honest: the file's bytes, and only a call or memory can fail.
        ensures holds { D.honest disk.new → Holds (now (D.states disk.old) self.old.file).seen
            self.old → OnOk result (Holds (now (D.states disk.old) self.old.file).seen self.new) }
        ensures short { D.honest disk.new → Holds (now (D.states disk.old) self.old.file).seen
            self.old → IfErr result (λ fault. fault ≢ ReadFault.Short) }
    {
        let at = self.from + self.buffer.len();
        let count = (self.len - at).min(PIECE_BYTES);
        self.buffer.make_room(count)?;
        self.buffer.read_more(disk, self.file, at, count)
    }

    /// Reads on, as far as this place and no piece more.
    pub fn reach<D: Disk>(&mut self, disk: &mut D, end: usize) -> Result<(), ReadFault>
        // Only what the file has is asked for.
        requires { end ≤ self.old.len }

        // The disk is only looked at; the reader goes forward and lets nothing go.
        ensures looks { Looks D.states D.failures D.honest (failed_in result) disk.old disk.new }
        ensures file { IsSameFile self.old self.new }
        ensures from { self.new.from ≡ self.old.from }
        ensures forward { end_of self.old ≤ end_of self.new }

        // It reads the pieces up to this place and no more, each by one call.
        ensures reaches { OnOk result (end ≤ end_of self.new) }
        ensures pieces { OnOk result
            (pieces_in (end_of self.new) ≡ max (pieces_in (end_of self.old)) (pieces_in end)) }
        ensures called { OnOk result (ReadsPieces D.states disk.old disk.new self.old self.new) }
        ensures tried { OnErr result (ReadsAtMost D.states disk.old disk.new self.old end) }

        // If the disk is honest: the file's bytes, and only a call or memory can fail.
        ensures holds { D.honest disk.new → Holds (now (D.states disk.old) self.old.file).seen
            self.old → Holds (now (D.states disk.old) self.old.file).seen self.new }
        ensures short { D.honest disk.new → Holds (now (D.states disk.old) self.old.file).seen
            self.old → IfErr result (λ fault. fault ≢ ReadFault.Short) }
    {
        while self.end() < end {
            self.read_piece(disk)?;
        }
        Ok(())
    }

    /// The bytes of the file from one place up to another.
    pub fn bytes(&self, at: usize, end: usize) -> &[u8]
        requires held { self.now.from ≤ at }
        requires ordered { at ≤ end }
        requires reached { end ≤ end_of self.now }
        ensures size { length result.now ≡ end - at }
        ensures same { (content : List ℕ) → Holds content self.now
            → result.now ≡ take (end - at) (drop at content) }
    {
        &self.buffer.as_slice()[at - self.from..end - self.from]
    }
}
