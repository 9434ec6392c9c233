//! Reads a log file gate by gate. Every device call is a look, and reads the next piece of the file; one
//! frame is held at a time.
ghost use Rattle.std.specs.Prelude.{◌≡◌, ◌⊎◌, ℕ, ◌+◌, ◌<◌, ◌≤◌, ◌^◌, [], List, drop, max, slice_index_or, IfOk, IfErr, OnOk, OnErr};
ghost use Rattle.disk_model.specs.Calls.{Looks};
ghost use Rattle.disk_model.specs.Files.{now};
ghost use Rattle.file_pieces.specs.Counting.{Made, MadeAtMost, ReadsPieces, ReadsAtMost};
ghost use Rattle.file_pieces.specs.Pieces.{Holds, end_of, pieces_in};
ghost use Rattle.log_records.specs.Layout.{Layout, IsLayout, layout_of};
ghost use Rattle.store_layout.specs.Failures.{IsFileRefused};
ghost use Rattle.store_layout.specs.Logs.{Batch, IsClosed, IsEnded, log_file, log_header_bytes};
ghost use Rattle.store_layout.specs.Readings.{IsBadHeader, IsBroken, Reading, Reads};
ghost use Rattle.gate_log.specs.Scan.{ScanState, HasRead, IsFound, IsStill, GoesOn, ReadsAtGate, failed_in, last_gate, log_bytes, RefusesFor};

use crate::parts::{Ahead, HEAD_BYTES, check_header, file_number};
use crate::place::Place;
use disk_model::Disk;
use file_pieces::FileReader;
use log_records::Version;
use map_types::Refusal;
use std::alloc::Global;
use std::marker::Model;
use store_layout::{HEADER_BYTES, NEW_VERSION};
use ticket_order::Entry;

/// A scan of the log of one generation, which is at one of its gates. It holds what was read from that
/// gate on.
#[derive(Drop)]
pub struct Scan {
    place: Place,
    reader: FileReader,
}

/// What stands at a gate.
#[derive(Drop)]
pub enum Found {
    /// A batch: its changes with their tickets. The scan is at the gate behind it.
    Batch(Vec<Entry>),
    /// The end of the log, which goes on in that of the next generation.
    Ended,
    /// A closed gate.
    Closed,
}

impl Model for Scan {
    ghost Value = { ScanState };

    ghost view = { λ scan.
        record {
          version = scan.place.version;
          generation = scan.place.generation;
          gate = scan.place.gate;
          expected = scan.place.expected;
          reader = scan.reader;
        } };

    ghost invariant = { λ scan. (scan.reader.file ≡ log_file scan.place.generation)
        × (scan.reader.from ≤ scan.place.gate) × (scan.place.gate + 1 ≤ end_of scan.reader)
        × (scan.place.gate < scan.reader.len) × (scan.reader.len < 2 ^ 64) };
}

/// Begins to read the file.
fn begin_file<D: Disk>(alloc: Global, disk: &mut D, file: usize) -> Result<FileReader, Refusal>
    // One of the four files.
    requires { file < 4 }

    // One device call, which only looks.
    ensures looks { Looks D.states D.failures D.honest (failed_in result) disk.old disk.new }
    ensures called { Made D.states 1 disk.old disk.new }

    // The reader is at the file's beginning, holds no byte, and knows its length.
    ensures file { IfOk result (λ reader. reader.file ≡ file) }
    ensures none_held { IfOk result (λ reader. (reader.from ≡ 0) × (reader.held ≡ [])) }
    ensures holds { D.honest disk.new → IfOk result (Holds (now (D.states disk.old) file).seen) }

    // Refused: the call failed.
    ensures err { IfErr result (λ refusal. refusal ≡ Refusal.Failed) }
{
    match FileReader::begin(alloc, disk, file) {
        Ok(reader) => Ok(reader),
        Err(_) => Err(Refusal::Failed),
    }
}

impl Scan {
    /// Begins to read the log of this generation, whose low ticket is to be `low`. Its header is to
    /// be whole, and a gate is to stand behind it.
    pub fn begin<D: Disk>(
        alloc: Global,
        disk: &mut D,
        generation: u64,
        low: u64,
    ) -> Result<Scan, Refusal>
        // The disk is only looked at, and the scan is at the first gate.
        ensures looks { Looks D.states D.failures D.honest (failed_in result) disk.old disk.new }
        ensures ok { IfOk result (λ scan. (scan.generation ≡ generation)
            × (scan.gate ≡ log_header_bytes) × (scan.expected ≡ low)) }

        // Two device calls, for the length and the first piece; at most two if refused.
        ensures called { OnOk result (Made D.states 2 disk.old disk.new) }
        ensures pieces { IfOk result (λ scan. pieces_in (end_of scan.reader) ≡ 1) }
        ensures tried { OnErr result (MadeAtMost D.states 2 disk.old disk.new) }

        // If the disk is honest: the header was read, and a gate stands behind it.
        ensures read { D.honest disk.new → IfOk result (λ scan.
            HasRead (layout_of scan.version) low [] scan
            (log_bytes D.states disk.old generation)) }

        // Its version is the file's byte.
        ensures version { D.honest disk.new → IfOk result (λ scan. (layout_of scan.version).version
            ≡ slice_index_or (log_bytes D.states disk.old generation) 0 0) }

        // Refused: a failed call, no memory, or a fault of the file; the header's first if honest.
        ensures listed { IfErr result (IsFileRefused (log_file generation)) }
        ensures refused { D.honest disk.new → IfErr result (λ refusal. (refusal ≡ Refusal.Failed)
            ⊎ ((refusal ≡ Refusal.NoMemory)
            ⊎ IsBadHeader generation low (log_bytes D.states disk.old generation) refusal)) }
    {
        // The version stands in the header; nothing before asks the place for it.
        let place = Place {
            version: NEW_VERSION,
            generation,
            gate: HEADER_BYTES,
            expected: low,
        };
        let mut reader = begin_file(alloc, disk, file_number(generation) as usize)?;
        let end = reader.len().min(HEADER_BYTES + 1);
        place.reach(disk, &mut reader, end)?;
        let version = check_header(generation, low, reader.bytes(0, end))?;
        Ok(Scan {
            place: Place { version, ..place },
            reader,
        })
    }

    /// The version of the log.
    pub fn version(&self) -> Version
        ensures { result ≡ self.now.version }
    {
        self.place.version
    }

    /// Where the next gate stands.
    pub fn gate(&self) -> usize
        ensures place { result ≡ self.now.gate }
        ensures fits { self.now.gate + 1 < 2 ^ 64 }
    {
        self.place.gate
    }

    /// The ticket that the next batch is to begin with.
    pub fn expected(&self) -> u64
        ensures { result ≡ self.now.expected }
    {
        self.place.expected
    }

    /// Reads what stands at the gate, and goes on to the next gate if it is a batch. After a refusal,
    /// and at the end and a closed gate, the scan is at the same gate, so the same call may follow.
    pub fn next_frame<D: Disk>(&mut self, alloc: Global, disk: &mut D) -> Result<Found, Refusal>
        // The disk is only looked at. Behind a batch the scan goes on, else it stays.
        ensures looks { Looks D.states D.failures D.honest (failed_in result) disk.old disk.new }
        ensures goes_on { IfOk result (GoesOn self.old self.new) }

        // Device calls: one for each piece up to the last gate; how many at most if refused.
        ensures pieces { IfOk result (λ found.
            pieces_in (end_of self.new.reader)
            ≡ max (pieces_in (end_of self.old.reader))
            (pieces_in (last_gate self.old self.new found + 1))) }
        ensures called { OnOk result
            (ReadsPieces D.states disk.old disk.new self.old.reader self.new.reader) }
        ensures tried { OnErr result (ReadsAtMost D.states disk.old disk.new self.old.reader
            (max (end_of self.old.reader) self.old.reader.len)) }
        ensures within { D.honest disk.new → (low size : ℕ) (batches : List Batch)
            → HasRead (layout_of self.old.version) low batches self.old
            (log_bytes D.states disk.old self.old.generation)
            → ReadsAtGate (layout_of self.old.version)
            (drop self.old.gate (log_bytes D.states disk.old self.old.generation)) size
            → OnErr result
            (ReadsAtMost D.states disk.old disk.new self.old.reader
            (max (end_of self.old.reader) (self.old.gate + size))) }

        // If the disk is honest: what is found stands behind the batches that were read.
        ensures found { D.honest disk.new → (low : ℕ) (batches : List Batch)
            → HasRead (layout_of self.old.version) low batches self.old
            (log_bytes D.states disk.old self.old.generation)
            → IfOk result
            (IsFound (layout_of self.old.version) low batches self.old self.new
            (log_bytes D.states disk.old self.old.generation)) }

        // Refused: a failed call, no memory, or no frame that may come next.
        ensures err { IfErr result
            (RefusesFor self.old
            (D.honest disk.new → (low : ℕ) (batches : List Batch)
            → HasRead (layout_of self.old.version) low batches self.old
            (log_bytes D.states disk.old self.old.generation)
            → IsBroken (layout_of self.old.version) self.old.generation low batches
            (log_bytes D.states disk.old self.old.generation))) }

        // After a refusal the scan is at the same gate, with what it has read.
        ensures same { OnErr result (IsStill self.old self.new) }
        ensures held { D.honest disk.new → (low : ℕ) (batches : List Batch)
            → HasRead (layout_of self.old.version) low batches self.old
            (log_bytes D.states disk.old self.old.generation)
            → OnErr result
            (HasRead (layout_of self.old.version) low batches self.new
            (log_bytes D.states disk.old self.old.generation)) }
    {
        let place = self.place;
        match place.look_ahead(disk, &mut self.reader)? {
            Ahead::Closed => Ok(Found::Closed),
            Ahead::End => {
                place.check_end(&self.reader)?;
                Ok(Found::Ended)
            }
            Ahead::Batch { len } => {
                let entries = place.batch(alloc, &self.reader, len)?;
                self.place.gate += 1 + HEAD_BYTES + len;
                self.place.expected += entries.len() as u64;
                self.reader.let_go(self.place.gate);
                Ok(Found::Batch(entries))
            }
        }
    }
}

/// A content reads in at most one way as the log of a generation.
pub fn one_reading()
    ensures one { (layout : Layout) (generation low : ℕ) (content : List ℕ) (a b : Reading)
        → IsLayout layout → Reads layout generation low content a
        → Reads layout generation low content b → a ≡ b }
    ensures one_end { (layout : Layout) (generation low m n : ℕ) (content : List ℕ)
        (a b : List Batch) → IsLayout layout → IsEnded layout generation low a m content
        → IsEnded layout generation low b n content → (a ≡ b) × (m ≡ n) }
    ensures never_both { (layout : Layout) (generation low next : ℕ) (content : List ℕ)
        (a b : List Batch) → IsLayout layout → IsClosed layout generation low a content
        → IsEnded layout generation low b next content → ⊥ }
{}
