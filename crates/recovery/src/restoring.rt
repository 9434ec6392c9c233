//! The map while it is restored from the sections of a checkpoint and the changes behind them.
ghost use Rattle.std.specs.Prelude.{◌≡◌, ◌++◌, ℕ, List, nat_le, slice_index_or, IfOk, IfErr, OnOk};
ghost use Rattle.std.specs.FinMap as finite;
ghost use Rattle.bin_table.specs.Tables.{spread_of_key};
ghost use Rattle.java_hash.specs.Stripes.{stripe_of};
ghost use Rattle.log_records.specs.Layout.{layout_of};
ghost use Rattle.map_model.specs.Maps.{Map};
ghost use Rattle.map_model.specs.Steps.{map_after};
ghost use Rattle.checkpoint_file.specs.Loads.{AreLoaded};
ghost use Rattle.recovery.specs.Counting.{counted_of, entries_in, greatest_of, marks_in};
ghost use Rattle.recovery.specs.Lanes.{Runs};
ghost use Rattle.recovery.specs.Restoring.{HasMap, IsOfSome, IsSameFrame};

use crate::divided::Divided;
use crate::grouping::Groups;
use crate::lanes::Lane;
use checkpoint_file::{LoadedCheckpoint, LoadedSection};
use java_hash::{StripeCount, spread_of, stripe_of_spread};
use map_types::{Command, Refusal};
use std::alloc::Global;
use ticket_order::Entry;

/// The map so far, once what is due is made, and what tells which changes are in it already.
#[derive(Drop)]
pub(crate) struct Restoring {
    pub divided: Divided,
    /// How many stripes the checkpoint has.
    pub of: StripeCount,
    /// The marks of its sections.
    pub marks: Vec<u64>,
}

/// The marks of the sections.
fn marks_of(alloc: Global, sections: &[LoadedSection]) -> Result<Vec<u64>, Refusal>
    ensures ok { IfOk result (λ marks. marks.items ≡ marks_in sections.now) }
    ensures err { IfErr result (λ refusal. refusal ≡ Refusal.NoMemory) }
{
    let mut marks = Vec::new(alloc);
    for section in sections {
        marks.push(section.mark)?;
    }
    Ok(marks)
}

/// The greatest of the marks; 0 if there is none.
pub(crate) fn greatest_of(marks: &[u64]) -> u64
    ensures { result ≡ greatest_of marks.now }
{
    let mut greatest: u64 = 0;
    for mark in marks {
        greatest = greatest.max(*mark);
    }
    greatest
}

/// The command of the change.
fn command_of(entry: Entry) -> Command
    ensures { result ≡ entry.command }
{
    entry.command
}

impl Restoring {
    /// The map of the sections alone.
    pub(crate) fn new(
        alloc: Global,
        stripes: StripeCount,
        loaded: LoadedCheckpoint,
    ) -> Result<Restoring, Refusal>
        // The sections of the checkpoint were read, in order.
        requires { AreLoaded (layout_of loaded.version) loaded.stripes.count loaded.sections.items }

        // The map of the sections, divided anew, beside their stripes and marks.
        ensures map { IfOk result (λ restoring.
            HasMap restoring (finite.from_entries (entries_in loaded.sections.items))) }
        ensures stripes { IfOk result (λ restoring. restoring.divided.stripes ≡ stripes) }
        ensures of { IfOk result (λ restoring. restoring.of ≡ loaded.stripes) }
        ensures marks { IfOk result (λ restoring.
            restoring.marks.items ≡ marks_in loaded.sections.items) }

        // Refused for want of memory alone.
        ensures err { IfErr result (λ refusal. refusal ≡ Refusal.NoMemory) }
    {
        let marks = marks_of(alloc, &loaded.sections)?;
        let of = loaded.stripes;
        let groups = Groups::of_sections(alloc, stripes, of, loaded.sections)?;
        let divided = Divided::with_entries(alloc, groups)?;
        Ok(Restoring { divided, of, marks })
    }

    /// Whether the change is in no section. Its key's hash has this spread.
    fn counts(&self, entry: &Entry, spread: u32) -> bool
        requires { spread ≡ spread_of_key entry.now.command.key }
        ensures { result ≡ nat_le (slice_index_or self.now.marks.items
            (stripe_of self.now.of.count entry.now.command.key) 0) entry.now.ticket }
    {
        let stripe = stripe_of_spread(spread, self.of);
        match self.marks.get(stripe) {
            Some(mark) => *mark <= entry.ticket.number(),
            None => true,
        }
    }

    /// Those of the changes that are in no section are due, in their order.
    fn queue(&mut self, entries: Vec<Entry>) -> Result<(), Refusal>
        ensures same { IsSameFrame self.old self.new }
        ensures ok { OnOk result
            ((m : Map) → HasMap self.old m
            → HasMap self.new
            (map_after m (counted_of self.old.of.count self.old.marks.items entries.items))) }
        ensures err { IfErr result (λ refusal. refusal ≡ Refusal.NoMemory) }
    {
        for entry in entries {
            let spread = spread_of(entry.command.key.as_str());
            if !self.counts(&entry, spread) {
                drop(entry);
                continue;
            }
            self.divided.queue(command_of(entry), spread)?;
        }
        Ok(())
    }

    /// Makes those of the changes that are in no section, in their order, or leaves some of them
    /// due.
    pub(crate) fn apply<F: Fn(&mut [Lane])>(
        &mut self,
        run_each: &F,
        entries: Vec<Entry>,
    ) -> Result<(), Refusal>
        requires { Runs F.Fn run_each.now }
        ensures same { IsSameFrame self.old self.new }
        ensures ok { OnOk result
            ((m : Map) → HasMap self.old m
            → HasMap self.new
            (map_after m (counted_of self.old.of.count self.old.marks.items entries.items))) }
        ensures some { OnOk result (IsOfSome self.old → IsOfSome self.new) }
        ensures err { IfErr result (λ refusal. refusal ≡ Refusal.NoMemory) }
    {
        self.queue(entries)?;
        self.divided.run_if_many(run_each)
    }
}
