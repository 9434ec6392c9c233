//! The entries in hand.
ghost use Rattle.std.specs.Prelude.{◌≡◌, ◌+◌, ◌<◌, ◌≤◌, ◌^◌, ◌∷◌, ◌++◌, [], length, map, replicate, drop, Some, None, List, ℕ, IfOk, IfSome, OnOk, OnErr, slice_index_or};
ghost use Rattle.std.specs.Option.{option_copied};
ghost use Rattle.std.specs.List.{All};
ghost use Rattle.map_types.specs.declared.commands.Command.{Command};
ghost use Rattle.ticket_order.specs.Legality.{entries_from};
ghost use Rattle.log_records.specs.Layout.{layout_of};
ghost use Rattle.store_layout.specs.Logs.{frame, most_frame_bytes};
ghost use Rattle.store_layout.specs.Hands.{Hand, most_from, IsRun, IsLongest};
ghost use Rattle.flusher.specs.HandSteps.{MakesRoom, Gains};

use log_records::{Version, record_len};
use map_types::Command;
use std::alloc::{AllocError, Global};
use std::collections::VecDeque;
use std::marker::Model;
use std::mem;
use store_layout::{FRAME_HEAD_BYTES, MOST_FRAME_BYTES, MOST_RECORDS};
use ticket_order::{Entry, Ticket};

/// A run of commands from the first place on.
#[derive(Clone, Copy)]
pub struct Run {
    pub count: u32,
    /// How many bytes its frame takes.
    pub frame_len: usize,
}

/// The entries in hand, in a ring by their tickets. Each entry is put into its place once, and the
/// run from the first place on is found with no sorting.
#[derive(Drop)]
pub struct InHand {
    next: u64,
    slots: VecDeque<Option<Command>>,
}

impl Model for InHand {
    ghost use Rattle.store_layout.specs.Hands.{Hand};

    ghost Value = { Hand };

    ghost view = { λ hand. record { next = hand.next; slots = hand.slots.items } };
}

impl InHand {
    /// No entry is in hand, and the first that is waited for has this ticket. It takes no memory.
    pub fn new(alloc: Global, next: u64) -> InHand
        ensures { result ≡ record { next = next; slots = [] } }
    {
        InHand {
            next,
            slots: VecDeque::new(alloc),
        }
    }

    /// Makes places up to this one.
    fn lengthen(&mut self, len: usize) -> Result<(), AllocError>
        ensures ok { OnOk result
            ((more : ℕ)
            × (self.new ≡ record self.old { slots = self.old.slots ++ replicate more None })
            × (len ≤ length self.new.slots)) }
        ensures err { OnErr result (self.new ≡ self.old) }
    {
        let old = self.slots.len();
        if len <= old {
            return Ok(());
        }
        self.slots.reserve(len - old)?;
        for _ in old..len {
            self.slots.push_back_reserved(None);
        }
        Ok(())
    }

    /// Gets a place for each of the entries. The same entries are in hand.
    pub fn make_room(&mut self, entries: &[Entry]) -> Result<(), AllocError>
        ensures ok { OnOk result (MakesRoom self.old entries.now self.new) }
        ensures err { OnErr result (self.new ≡ self.old) }
    {
        match places_for(self.next, entries) {
            Some(len) => self.lengthen(len),
            None => Err(AllocError),
        }
    }

    /// Puts the command into the place of its ticket, if it has one.
    fn put(&mut self, entry: Entry)
        ensures { Gains self.old (entry ∷ []) self.new }
    {
        let Entry { ticket, command } = entry;
        let ticket = ticket.number();
        if ticket < self.next {
            drop(command);
            return;
        }
        let index = (ticket - self.next) as usize;
        if index < self.slots.len() {
            drop(mem::replace(&mut self.slots[index], Some(command)));
        } else {
            drop(command);
        }
    }

    /// Moves each of the entries into its place, and leaves the vector empty. It takes no memory.
    pub fn append(&mut self, entries: &mut Vec<Entry>)
        ensures { Gains self.old entries.old.items self.new }
    {
        for entry in entries.drain(..) {
            self.put(entry);
        }
    }

    /// Puts each of the entries into its place. It takes no memory.
    pub fn insert(&mut self, entries: Vec<Entry>)
        ensures { Gains self.old entries.items self.new }
    {
        let mut entries = entries;
        self.append(&mut entries);
    }

    /// The command in this place.
    fn command_at(&self, index: usize) -> Option<&Command>
        ensures { option_copied result ≡ slice_index_or self.now.slots index None }
    {
        match self.slots.get(index) {
            Some(slot) => slot.as_ref(),
            None => None,
        }
    }

    /// How many commands one batch may have, by their number and by their tickets.
    fn most_of(&self, most: u32) -> u32
        ensures limit { result ≡ most_from self.now.next most }
        ensures number { self.now.next < 2 ^ 64 }
    {
        let left = u64::MAX - self.next;
        (most.min(MOST_RECORDS as u32) as u64).min(left) as u32
    }

    /// The longest run from the first place on that may be one batch of a log of this version.
    pub fn longest_run(&self, version: Version, most: u32) -> Run
        ensures { (commands : List Command) × IsLongest (layout_of version) most self.now commands
            × (result.count ≡ length commands)
            × (result.frame_len ≡ length (frame (layout_of version)
            (record { first = self.now.next; commands = commands }))) }
    {
        let limit = self.most_of(most);
        let mut room = MOST_FRAME_BYTES - FRAME_HEAD_BYTES;
        for index in 0..limit {
            let Some(command) = self.command_at(index as usize) else {
                return run_of(index, room);
            };
            let len = record_len(version, command);
            if room < len {
                return run_of(index, room);
            }
            room -= len;
        }
        run_of(limit, room)
    }

    /// Takes the first `count` commands out of their places, with their tickets. If it finds no
    /// memory, they stay.
    pub fn take_run(&mut self, alloc: Global, count: usize) -> Result<Vec<Entry>, AllocError>
        requires run { (commands : List Command) × IsRun self.old commands
            × (length commands ≡ count) }
        requires fits { self.old.next + count < 2 ^ 64 }
        ensures ok { IfOk result (λ entries. (commands : List Command) → IsRun self.old commands
            → length commands ≡ count
            → (entries.items ≡ entries_from self.old.next commands)
            × (self.new ≡ record self.old {
              slots = replicate count None
                  ++ drop count self.old.slots;
            })) }
        ensures err { OnErr result (self.new ≡ self.old) }
    {
        let mut entries = Vec::with_capacity(alloc, count)?;
        for index in 0..count {
            if let Some(command) = mem::replace(&mut self.slots[index], None) {
                let ticket = Ticket::new(self.next + index as u64);
                entries.push_reserved(Entry { ticket, command });
            }
        }
        Ok(entries)
    }

    /// Goes past the first `count` places, whose commands are no longer waited for.
    pub fn pass(&mut self, count: usize)
        requires fits { self.old.next + count < 2 ^ 64 }
        ensures { self.new ≡ record {
          next = self.old.next + count;
          slots = drop count self.old.slots;
        } }
    {
        for _ in 0..count {
            drop(self.slots.pop_front());
        }
        self.next += count as u64;
    }
}

/// The run of `count` commands, whose records leave `room` bytes in a frame.
fn run_of(count: u32, room: usize) -> Run
    requires { room ≤ 1048559 }
    ensures count { result.count ≡ count }
    ensures frame { result.frame_len + room ≡ most_frame_bytes }
{
    Run {
        count,
        frame_len: MOST_FRAME_BYTES - room,
    }
}

/// The least number of places from this ticket on among which each of the entries has one; `None` if
/// a `usize` doesn't hold that number.
fn places_for(next: u64, entries: &[Entry]) -> Option<usize>
    ensures { IfSome result (λ len.
        All (λ e. next ≤ e.ticket → e.ticket < next + len) entries.now) }
{
    let mut len = 0usize;
    for entry in entries {
        let ticket = entry.ticket.number();
        if ticket >= next {
            len = len.max(((ticket - next) as usize).checked_add(1)?);
        }
    }
    Some(len)
}
