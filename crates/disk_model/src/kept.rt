// One file, kept in memory with what a stop may leave of it.
ghost use Rattle.std.specs.Prelude.{◌≡◌, ◌+◌, ◌-◌, ◌<◌, ◌≤◌, ◌^◌, ℕ, List, true, false, ◌&&◌, ◌||◌, nat_le, nat_lt, [], ◌++◌, take, length, min, max, OnOk, OnErr, IfOk, slice_index_or, vec_capacity};
ghost use Rattle.disk_model.specs.Files.{File, AreBytes, is_between, is_pending, overwritten, reached, written, synced, at_rest};
ghost use Rattle.disk_model.specs.Fills.{torn, byte_torn, bytes_torn, length_torn, pending_below, length_left, byte_left, bytes_by};

use crate::Fill;
use std::alloc::{AllocError, Global};

#[derive(Drop)]
pub(crate) struct Kept {
    // What a read gives.
    pub(crate) seen: Vec<u8>,
    // The content at the last successful sync.
    base: Vec<u8>,
    // For each byte of `base`, whether a write has reached it since.
    reached: Vec<bool>,
    // The greatest end written since.
    greatest: u128,
    // No write since has reached a byte below this place of `base`.
    clean: usize,
    ghost bounded: { greatest < 2 ^ 65 },
    ghost bytes: { AreBytes seen.items },
    ghost inside: { clean ≤ length base.items },
    ghost same: { take clean base.items ≡ take clean seen.items },
    ghost clear: { (i : ℕ) → i < clean → slice_index_or reached.items i true ≡ false },
}

impl Kept {
    ghost use Rattle.disk_model.specs.KeptFiles.{IsKept};

    pub(crate) fn new(alloc: Global) -> Kept
        ensures { IsKept result (at_rest []) }
    {
        Kept {
            seen: Vec::new(alloc),
            base: Vec::new(alloc),
            reached: Vec::new(alloc),
            greatest: 0,
            clean: 0,
        }
    }

    /// A file that has this content on the disk.
    pub(crate) fn at_rest(alloc: Global, content: Vec<u8>) -> Result<Kept, AllocError>
        ensures { IfOk result (λ kept. IsKept kept (at_rest content.items)) }
    {
        let base = content.to_vec(alloc)?;
        let reached = vec![in alloc; false; content.len()]?;
        let clean = content.len();
        Ok(Kept {
            seen: content,
            base,
            reached,
            greatest: clean as u128,
            clean,
        })
    }

    /// Notes that a write of these bytes was made there.
    pub(crate) fn touch(&mut self, at: usize, bytes: &[u8])
        ensures kept { (file : File) → IsKept self.old file
            → IsKept self.new (reached at bytes.now file.seen file) }
        ensures seen { self.new.seen ≡ self.old.seen }
        ensures clean { self.new.clean ≤ at }
    {
        self.greatest = self.greatest.max(at as u128 + bytes.len() as u128);
        self.clean = self.clean.min(at);
        mark(&mut self.reached, at, bytes.len());
    }

    pub(crate) fn write(&mut self, at: usize, bytes: &[u8]) -> Result<(), AllocError>
        requires { at ≤ length self.old.seen.items }
        ensures ok { OnOk result
            ((file : File) → IsKept self.old file → IsKept self.new (written at bytes.now file)) }
        ensures err { OnErr result ((file : File) → IsKept self.old file → IsKept self.new file) }
    {
        make_room(&mut self.seen, at + bytes.len())?;
        self.touch(at, bytes);
        overwrite(&mut self.seen, at, bytes)
    }

    /// A write that fails, and leaves what the fill picks.
    pub(crate) fn tear(
        &mut self,
        alloc: Global,
        number: usize,
        at: usize,
        bytes: &[u8],
        fill: &Fill,
    ) -> Result<(), AllocError>
        requires number { number < 4 }
        requires place { at ≤ length self.old.seen.items }
        ensures ok { OnOk result
            ((file : File) → IsKept self.old file
            → IsKept self.new (torn fill.now number at bytes.now file)) }
        ensures err { OnErr result (self.new ≡ self.old) }
    {
        let left = self.bytes_torn(alloc, at, bytes, fill)?;
        let mut next = self.seen.to_vec(alloc)?;
        overwrite(&mut next, at, &left)?;
        let len = len_torn(number, self.seen.len(), next.len(), fill);
        let next = truncated(next, len);
        self.touch(at, bytes);
        self.seen = next;
        Ok(())
    }

    /// What a failed write of these bytes leaves to be read in its range.
    fn bytes_torn(
        &self,
        alloc: Global,
        at: usize,
        bytes: &[u8],
        fill: &Fill,
    ) -> Result<Vec<u8>, AllocError>
        ensures { IfOk result (λ left. (file : File) → IsKept self.now file
            → left.items ≡ bytes_torn fill.now at bytes.now file) }
    {
        let mut left = Vec::with_capacity(alloc, bytes.len())?;
        for i in 0..bytes.len() {
            left.push(self.byte_torn(at, bytes, fill, i))?;
        }
        Ok(left)
    }

    fn byte_torn(&self, at: usize, bytes: &[u8], fill: &Fill, i: usize) -> u8
        requires { i < length bytes.now }
        ensures { (file : File) → IsKept self.now file
            → result ≡ byte_torn fill.now at bytes.now file i }
    {
        match fill {
            Fill::Old if i < self.base.len().saturating_sub(at) => self.base[at + i],
            Fill::Old if i < self.seen.len().saturating_sub(at) => self.seen[at + i],
            Fill::Old => 0,
            Fill::New => bytes[i],
            Fill::Byte(byte) => *byte,
            Fill::Chosen { bytes: chosen, .. } => byte_or(chosen, i, bytes[i]),
        }
    }

    /// Takes what is read as what is on the disk. It writes again only what stands from `clean` on.
    pub(crate) fn settle(&mut self, alloc: Global) -> Result<(), AllocError>
        ensures ok { OnOk result
            ((file : File) → IsKept self.old file → IsKept self.new (synced file)) }
        ensures err { OnErr result ((file : File) → IsKept self.old file → IsKept self.new file) }
    {
        let len = self.seen.len();
        let marks = vec![in alloc; false; len - self.clean]?;
        make_room(&mut self.base, len)?;
        make_room(&mut self.reached, len)?;
        replace_from(&mut self.base, self.clean, &self.seen[self.clean..]);
        replace_from(&mut self.reached, self.clean, &marks);
        self.greatest = len as u128;
        self.clean = len;
        Ok(())
    }

    fn is_pending(&self, place: usize) -> bool
        ensures { (file : File) → IsKept self.now file → result ≡ is_pending file place }
    {
        self.reached.get(place).copied().unwrap_or(true)
    }

    /// How many bytes are pending.
    pub(crate) fn pending_count(&self) -> u128
        ensures bounded { result < 2 ^ 66 }
        ensures exact { (file : File) → IsKept self.now file → length file.base ≤ file.greatest
            → result ≡ pending_below file file.greatest }
    {
        let mut count: u128 = 0;
        for place in 0..self.reached.len() {
            count += u128::from(self.is_pending(place));
        }
        count + self.greatest.saturating_sub(self.reached.len() as u128)
    }

    /// What a stop leaves, if `before` pending bytes stand in the files before this one.
    pub(crate) fn left(
        &self,
        alloc: Global,
        number: usize,
        before: u128,
        fill: &Fill,
    ) -> Result<Vec<u8>, AllocError>
        requires number { number < 4 }
        requires bounded { before < 2 ^ 70 }
        ensures { IfOk result (λ left. (file : File) → IsKept self.now file
            → left.items ≡ bytes_by (length_left fill.now number file) (λ i.
            byte_left fill.now (before + pending_below file i) file i)) }
    {
        let Ok(len) = usize::try_from(self.len_left(number, fill)) else {
            return Err(AllocError);
        };
        let mut left = Vec::with_capacity(alloc, len)?;
        let mut count = before;
        for place in 0..len {
            left.push(self.byte_left(count, place, fill))?;
            count += u128::from(self.is_pending(place));
        }
        Ok(left)
    }

    fn len_left(&self, number: usize, fill: &Fill) -> u128
        requires { number < 4 }
        ensures { (file : File) → IsKept self.now file → result ≡ length_left fill.now number file }
    {
        match fill {
            Fill::Old => self.base.len() as u128,
            Fill::New => self.seen.len() as u128,
            Fill::Byte(_) => self.greatest,
            Fill::Chosen { lens, .. } => {
                within(self.base.len() as u128, self.greatest, lens[number] as u128)
            }
        }
    }

    fn byte_left(&self, count: u128, place: usize, fill: &Fill) -> u8
        ensures { (file : File) → IsKept self.now file
            → result ≡ byte_left fill.now count file place }
    {
        let seen = byte_or(&self.seen, place, 0);
        match fill {
            Fill::Old => byte_or(&self.base, place, 0),
            Fill::Byte(byte) if self.is_pending(place) => *byte,
            Fill::Chosen { bytes, .. } if self.is_pending(place) => match usize::try_from(count) {
                Ok(count) => byte_or(bytes, count, seen),
                Err(_) => seen,
            },
            _ => seen,
        }
    }
}

fn byte_or(bytes: &[u8], place: usize, other: u8) -> u8
    ensures { result ≡ slice_index_or bytes.now place other }
{
    bytes.get(place).copied().unwrap_or(other)
}

ghost use Rattle.disk_model.specs.Fills.{within};

fn within(low: u128, high: u128, len: u128) -> u128
    ensures { result ≡ within low high len }
{
    len.min(high).max(low)
}

fn len_torn(number: usize, seen_len: usize, written_len: usize, fill: &Fill) -> usize
    requires { number < 4 }
    ensures low { seen_len ≤ written_len → seen_len ≤ result }
    ensures exact { (file : File) (at : ℕ) (bytes : List ℕ) → seen_len ≡ length file.seen
        → written_len ≡ max (length file.seen) (at + length bytes)
        → result ≡ length_torn fill.now number at bytes file }
{
    match fill {
        Fill::Old => seen_len,
        Fill::New | Fill::Byte(_) => written_len,
        Fill::Chosen { lens, .. } => lens[number].min(written_len).max(seen_len),
    }
}

fn truncated(mut bytes: Vec<u8>, len: usize) -> Vec<u8>
    ensures items { result.items ≡ take len bytes.items }
    ensures bytes { AreBytes result.items }
{
    bytes.truncate(len);
    bytes
}

/// Marks `size` places from `at` on.
fn mark(marks: &mut [bool], at: usize, size: usize)
    ensures { (i : ℕ) → i < length marks.old
        → slice_index_or marks.new i true
        ≡ is_between i at size || slice_index_or marks.old i true }
{
    let end = at.saturating_add(size).min(marks.len());
    for place in at..end {
        marks[place] = true;
    }
}

/// Writes these bytes over the content from `at` on.
fn overwrite(content: &mut Vec<u8>, at: usize, bytes: &[u8]) -> Result<(), AllocError>
    requires { at ≤ length content.old.items }
    ensures ok { OnOk result (content.new.items ≡ overwritten at bytes.now content.old.items) }
    ensures err { OnErr result (content.new.items ≡ content.old.items) }
    ensures full { OnErr result (vec_capacity content.old < at + length bytes.now) }
{
    let over = bytes.len().min(content.len() - at);
    content.extend_from_slice(&bytes[over..])?;
    content[at..at + over].copy_from_slice(&bytes[..over]);
    Ok(())
}

/// Gets the memory for `len` items in all.
fn make_room<T>(items: &mut Vec<T>, len: usize) -> Result<(), AllocError>
    ensures items { items.new.items ≡ items.old.items }
    ensures room { OnOk result (len ≤ vec_capacity items.new) }
{
    items.reserve(len.saturating_sub(items.len()))
}

/// Puts these items in the place of those from `at` on. There is memory for them.
fn replace_from<T: Copy + Drop>(items: &mut Vec<T>, at: usize, rest: &[T])
    requires { at + length rest.now ≤ vec_capacity items.old }
    ensures { items.new.items ≡ take at items.old.items ++ rest.now }
{
    items.truncate(at);
    if let Err(_) = items.extend_from_slice(rest) {
        return;
    }
}
