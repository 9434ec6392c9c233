//! A gate of a log file, and what stands at it.
ghost use Rattle.std.specs.Prelude.{◌≡◌, ℕ, ◌+◌, ◌<◌, ◌≤◌, ◌^◌, ◌∷◌, List, length, max, drop, IfOk, IfErr, OnOk, OnErr};
ghost use Rattle.disk_model.specs.Calls.{Looks};
ghost use Rattle.file_pieces.specs.Counting.{ReadsPieces, ReadsAtMost};
ghost use Rattle.file_pieces.specs.Pieces.{Holds, IsSameFile, end_of, pieces_in};
ghost use Rattle.log_records.specs.Layout.{layout_of};
ghost use Rattle.disk_model.specs.Gates.{open_gate};
ghost use Rattle.store_layout.specs.Logs.{batch_kind, body_distance, end_bytes, end_distance, end_kind, head_bytes, log_file, numbers_bytes};
ghost use Rattle.store_layout.specs.Readings.{HasNoFrame};
ghost use Rattle.gate_log.specs.States.{batch_of};
ghost use Rattle.gate_log.specs.Scan.{ReadsAtGate, RefusesAt, failed_in};
ghost use Rattle.gate_log.specs.ScanParts.{HasFrame, FitsAhead, ComesAhead, FitsBatch, IsAtBatch, IsAtEnd, behind_frame, bytes_of, most_body_bytes};

use crate::parts::{
    Ahead, END_BYTES, HEAD_BYTES, ahead_of, batch_at, file_number, kind_and_len, next_generation,
};
use disk_model::Disk;
use file_pieces::{FileReader, ReadFault};
use log_records::Version;
use map_types::Refusal;
use std::alloc::Global;
use store_layout::OPEN_GATE;
use ticket_order::Entry;

/// A gate of the log of one generation.
#[derive(Clone, Copy)]
pub(crate) struct Place {
    pub version: Version,
    pub generation: u64,
    /// Where the gate stands.
    pub gate: usize,
    /// The ticket that the batch behind it is to begin with.
    pub expected: u64,
}

impl Place {
    pub(crate) fn damaged(self) -> Refusal
        ensures { result ≡ Refusal.Damaged (log_file self.generation) self.gate }
    {
        Refusal::Damaged {
            file: file_number(self.generation),
            offset: self.gate as u64,
        }
    }

    /// Reads on, as far as this place of the file. A device that gives fewer bytes than its own length
    /// says is reported as damage.
    pub(crate) fn reach<D: Disk>(
        self,
        disk: &mut D,
        reader: &mut FileReader,
        end: usize,
    ) -> Result<(), Refusal>
        // Only what the file has is asked for.
        requires inside { end ≤ reader.old.len }

        // The disk is only looked at; the reader goes forward and lets nothing go.
        ensures looks { Looks D.states D.failures D.honest (failed_in result) disk.old disk.new }
        ensures file { IsSameFile reader.old reader.new }
        ensures from { reader.new.from ≡ reader.old.from }
        ensures forward { end_of reader.old ≤ end_of reader.new }

        // It reads the pieces up to this place and no more, each by one call.
        ensures reaches { OnOk result (end ≤ end_of reader.new) }
        ensures pieces { OnOk result (pieces_in (end_of reader.new)
            ≡ max (pieces_in (end_of reader.old)) (pieces_in end)) }
        ensures called { OnOk result
            (ReadsPieces D.states disk.old disk.new reader.old reader.new) }
        ensures tried { OnErr result (ReadsAtMost D.states disk.old disk.new reader.old end) }

        // If the disk is honest: the file's bytes, and only a call or memory can fail.
        ensures holds { D.honest disk.new
            → Holds (bytes_of D.states disk.old reader.old) reader.old
            → Holds (bytes_of D.states disk.old reader.old) reader.new }
        ensures err { IfErr result (RefusesAt self.generation self.gate (D.honest disk.new
            → Holds (bytes_of D.states disk.old reader.old) reader.old → ⊥)) }
    {
        match reader.reach(disk, end) {
            Ok(()) => Ok(()),
            Err(ReadFault::Failed) => Err(Refusal::Failed),
            Err(ReadFault::NoMemory) => Err(Refusal::NoMemory),
            Err(ReadFault::Short) => Err(self.damaged()),
        }
    }

    /// The kind and the length behind an open gate, behind which the file has `behind` bytes.
    fn head(self, reader: &FileReader, behind: usize) -> Result<Ahead, Refusal>
        // The five bytes of kind and length are held, and a byte stands behind them.
        requires room { self.gate + 1 + behind < 2 ^ 64 }
        requires long { head_bytes < behind }
        requires held { reader.now.from ≤ self.gate }
        requires reached { self.gate + body_distance ≤ end_of reader.now }

        // The gate behind the frame is in the file, and behind kind and length.
        ensures fits { IfOk result (FitsAhead self.gate) }
        ensures inside { IfOk result (λ ahead. behind_frame self.gate ahead ≤ self.gate + behind) }
        ensures some { IfOk result (λ ahead.
            self.gate + body_distance ≤ behind_frame self.gate ahead) }

        // A frame of that kind and length stands behind the gate, whole.
        ensures ahead { (content rest : List ℕ) → Holds content reader.now
            → drop (self.gate + 1) content ≡ rest → length rest ≡ behind
            → IfOk result (ComesAhead open_gate rest) }

        // Refused as damaged if no frame stands there that may come next; never as Failed.
        ensures err { IfErr result (RefusesAt self.generation self.gate ((content rest : List ℕ)
            → Holds content reader.now → drop (self.gate + 1) content ≡ rest → length rest ≡ behind
            → HasNoFrame (layout_of self.version) self.expected (self.generation + 1) rest)) }
        ensures unfailed { failed_in result ≡ 0 }
    {
        let at = self.gate + 1;
        let (kind, len) = kind_and_len(reader.bytes(at, at + HEAD_BYTES));
        if len >= behind - HEAD_BYTES {
            return Err(self.damaged());
        }
        match ahead_of(kind, len) {
            Some(ahead) => Ok(ahead),
            None => Err(self.damaged()),
        }
    }

    /// Where the gate behind this frame stands.
    fn next_gate(self, ahead: &Ahead) -> usize
        requires { FitsAhead self.gate ahead.now }
        ensures { result ≡ behind_frame self.gate ahead.now }
    {
        match ahead {
            Ahead::Closed => self.gate,
            Ahead::Batch { len } => self.gate + 1 + HEAD_BYTES + *len,
            Ahead::End => self.gate + 1 + HEAD_BYTES + END_BYTES,
        }
    }

    /// Reads the frame behind an open gate, with the gate behind it.
    fn read_frame<D: Disk>(self, disk: &mut D, reader: &mut FileReader) -> Result<Ahead, Refusal>
        // The gate is in the file, and the reader has not let go of it.
        requires held { reader.old.from ≤ self.gate }
        requires inside { self.gate < reader.old.len }
        requires room { reader.old.len < 2 ^ 64 }

        // The disk is only looked at. The frame and the gate behind it are read.
        ensures looks { Looks D.states D.failures D.honest (failed_in result) disk.old disk.new }
        ensures file { IsSameFile reader.old reader.new }
        ensures from { reader.new.from ≡ reader.old.from }
        ensures forward { end_of reader.old ≤ end_of reader.new }
        ensures fits { IfOk result (FitsAhead self.gate) }
        ensures reaches { IfOk result (λ ahead.
            behind_frame self.gate ahead + 1 ≤ end_of reader.new) }
        ensures inside { IfOk result (λ ahead. behind_frame self.gate ahead < reader.old.len) }

        // Device calls: one for each piece up to that gate; how many at most if refused.
        ensures pieces { IfOk result (λ ahead. pieces_in (end_of reader.new)
            ≡ max (pieces_in (end_of reader.old)) (pieces_in (behind_frame self.gate ahead + 1))) }
        ensures called { OnOk result
            (ReadsPieces D.states disk.old disk.new reader.old reader.new) }
        ensures tried { OnErr result (ReadsAtMost D.states disk.old disk.new reader.old
            (max (end_of reader.old) reader.old.len)) }
        ensures within { D.honest disk.new → (size : ℕ) (rest : List ℕ)
            → Holds (bytes_of D.states disk.old reader.old) reader.old
            → drop (self.gate + 1) (bytes_of D.states disk.old reader.old) ≡ rest
            → ReadsAtGate (layout_of self.version) (open_gate ∷ rest) size
            → OnErr result (ReadsAtMost D.states disk.old disk.new reader.old
            (max (end_of reader.old) (self.gate + size))) }

        // If the disk is honest: the file's bytes, and such a frame stands there.
        ensures holds { D.honest disk.new
            → Holds (bytes_of D.states disk.old reader.old) reader.old
            → Holds (bytes_of D.states disk.old reader.old) reader.new }
        ensures ahead { D.honest disk.new → (rest : List ℕ)
            → Holds (bytes_of D.states disk.old reader.old) reader.old
            → drop (self.gate + 1) (bytes_of D.states disk.old reader.old) ≡ rest
            → IfOk result (ComesAhead open_gate rest) }

        // Refused: a failed call, no memory, or no frame that may come next.
        ensures err { IfErr result
            (RefusesAt self.generation self.gate
            (D.honest disk.new → (rest : List ℕ)
            → Holds (bytes_of D.states disk.old reader.old) reader.old
            → drop (self.gate + 1) (bytes_of D.states disk.old reader.old) ≡ rest
            → HasNoFrame (layout_of self.version) self.expected (self.generation + 1) rest)) }
    {
        let behind = reader.len() - self.gate - 1;
        if behind <= HEAD_BYTES {
            return Err(self.damaged());
        }
        self.reach(disk, reader, self.gate + 1 + HEAD_BYTES)?;
        let ahead = self.head(reader, behind)?;
        self.reach(disk, reader, self.next_gate(&ahead) + 1)?;
        Ok(ahead)
    }

    /// Looks at the gate. If it is open, the frame behind it is read, with the gate behind that.
    pub(crate) fn look_ahead<D: Disk>(
        self,
        disk: &mut D,
        reader: &mut FileReader,
    ) -> Result<Ahead, Refusal>
        // The gate was read and is held.
        requires held { reader.old.from ≤ self.gate }
        requires reached { self.gate + 1 ≤ end_of reader.old }
        requires inside { self.gate < reader.old.len }
        requires room { reader.old.len < 2 ^ 64 }

        // The disk is only looked at. Behind an open gate the whole frame is read.
        ensures looks { Looks D.states D.failures D.honest (failed_in result) disk.old disk.new }
        ensures file { IsSameFile reader.old reader.new }
        ensures from { reader.new.from ≡ reader.old.from }
        ensures forward { end_of reader.old ≤ end_of reader.new }
        ensures fits { IfOk result (FitsAhead self.gate) }
        ensures reaches { IfOk result (λ ahead.
            behind_frame self.gate ahead + 1 ≤ end_of reader.new) }
        ensures inside { IfOk result (λ ahead. behind_frame self.gate ahead < reader.old.len) }

        // Device calls: one for each piece up to the last gate; how many at most if refused.
        ensures pieces { IfOk result (λ ahead. pieces_in (end_of reader.new)
            ≡ max (pieces_in (end_of reader.old)) (pieces_in (behind_frame self.gate ahead + 1))) }
        ensures called { OnOk result
            (ReadsPieces D.states disk.old disk.new reader.old reader.new) }
        ensures tried { OnErr result (ReadsAtMost D.states disk.old disk.new reader.old
            (max (end_of reader.old) reader.old.len)) }
        ensures within { D.honest disk.new → (size byte : ℕ) (rest : List ℕ)
            → Holds (bytes_of D.states disk.old reader.old) reader.old
            → drop self.gate (bytes_of D.states disk.old reader.old) ≡ byte ∷ rest
            → ReadsAtGate (layout_of self.version) (byte ∷ rest) size
            → OnErr result (ReadsAtMost D.states disk.old disk.new reader.old
            (max (end_of reader.old) (self.gate + size))) }

        // If the disk is honest: the file's bytes, and what is found stands there.
        ensures holds { D.honest disk.new
            → Holds (bytes_of D.states disk.old reader.old) reader.old
            → Holds (bytes_of D.states disk.old reader.old) reader.new }
        ensures ahead { D.honest disk.new → (byte : ℕ) (rest : List ℕ)
            → Holds (bytes_of D.states disk.old reader.old) reader.old
            → drop self.gate (bytes_of D.states disk.old reader.old) ≡ byte ∷ rest
            → IfOk result (ComesAhead byte rest) }

        // Refused: a failed call, no memory, or no frame that may come next.
        ensures err { IfErr result (RefusesAt self.generation self.gate (D.honest disk.new
            → (byte : ℕ) (rest : List ℕ) → Holds (bytes_of D.states disk.old reader.old) reader.old
            → drop self.gate (bytes_of D.states disk.old reader.old) ≡ byte ∷ rest
            → (byte ≡ open_gate)
            × HasNoFrame (layout_of self.version) self.expected (self.generation + 1) rest)) }
    {
        let gate = reader.bytes(self.gate, self.gate + 1);
        if gate[0] != OPEN_GATE {
            return Ok(Ahead::Closed);
        }
        self.read_frame(disk, reader)
    }

    /// Whether the end frame at the gate, which was read, names the next generation.
    pub(crate) fn check_end(self, reader: &FileReader) -> Result<(), Refusal>
        // The end frame behind the gate was read and is held.
        requires held { reader.now.from ≤ self.gate }
        requires reached { self.gate + end_distance ≤ end_of reader.now }
        requires room { self.gate + end_distance + 1 < 2 ^ 64 }

        // It names the next generation.
        ensures ok { (content rest : List ℕ) → Holds content reader.now
            → drop (self.gate + 1) content ≡ rest → HasFrame end_kind end_bytes rest
            → OnOk result (IsAtEnd (self.generation + 1) rest) }

        // Refused as damaged if it names another; never as Failed.
        ensures err { IfErr result (RefusesAt self.generation self.gate ((content rest : List ℕ)
            → Holds content reader.now → drop (self.gate + 1) content ≡ rest
            → HasFrame end_kind end_bytes rest
            → HasNoFrame (layout_of self.version) self.expected (self.generation + 1) rest)) }
        ensures unfailed { failed_in result ≡ 0 }
    {
        let at = self.gate + 1 + HEAD_BYTES;
        let body = reader.bytes(at, at + END_BYTES);
        if self.generation == u64::MAX || next_generation(body) != self.generation + 1 {
            return Err(self.damaged());
        }
        Ok(())
    }

    /// The changes of the batch at the gate, whose frame was read and has `len` bytes behind its
    /// length.
    pub(crate) fn batch(
        self,
        alloc: Global,
        reader: &FileReader,
        len: usize,
    ) -> Result<Vec<Entry>, Refusal>
        // The frame was read and is held, and its length is one that a batch may have.
        requires low { numbers_bytes ≤ len }
        requires high { len ≤ most_body_bytes }
        requires held { reader.now.from ≤ self.gate }
        requires reached { self.gate + body_distance + len ≤ end_of reader.now }
        requires room { self.gate + body_distance + len + 1 < 2 ^ 64 }

        // The changes are a batch of the next tickets, and its frame stands there.
        ensures fits { IfOk result (λ entries.
            FitsBatch (layout_of self.version) self.expected len entries.items) }
        ensures ok { (content rest : List ℕ) → Holds content reader.now
            → drop (self.gate + 1) content ≡ rest → HasFrame batch_kind len rest
            → IfOk result (λ entries.
            IsAtBatch (layout_of self.version) (batch_of self.expected entries.items) rest) }

        // Refused: no memory, or no batch that may come next; never as Failed.
        ensures err { IfErr result (RefusesAt self.generation self.gate ((content rest : List ℕ)
            → Holds content reader.now → drop (self.gate + 1) content ≡ rest
            → HasFrame batch_kind len rest
            → HasNoFrame (layout_of self.version) self.expected (self.generation + 1) rest)) }
        ensures unfailed { failed_in result ≡ 0 }
    {
        let at = self.gate + 1 + HEAD_BYTES;
        let body = reader.bytes(at, at + len);
        match batch_at(alloc, self.version, self.expected, body)? {
            Some(entries) => Ok(entries),
            None => Err(self.damaged()),
        }
    }
}
