//! The entries of a checkpoint, in lists by the stripes of their keys.
ghost use Rattle.std.specs.Prelude.{◌≡◌, ◌∷◌, ◌++◌, length, map, IfOk, IfErr, OnOk};
ghost use Rattle.std.specs.FinMap as finite;
ghost use Rattle.bin_table.specs.Chains.{Entries, HasDistinctKeys};
ghost use Rattle.log_records.specs.Layout.{Layout};
ghost use Rattle.checkpoint_file.specs.Loads.{AreLoaded};
ghost use Rattle.recovery.specs.Counting.{entries_in};
ghost use Rattle.recovery.specs.Dividing.{AreGroups, lists_of};

use checkpoint_file::LoadedSection;
use java_hash::{StripeCount, stripe_of};
use map_types::{Key, Refusal, Value};
use std::alloc::Global;

/// The entries of a map, a list for each of its stripes in order.
#[derive(Drop)]
pub(crate) struct Groups {
    pub stripes: StripeCount,
    pub lists: Vec<Vec<(Key, Value)>>,
    ghost one_each: { length lists.items ≡ stripes.count },
}

impl Groups {
    /// Empty lists.
    fn new(alloc: Global, stripes: StripeCount) -> Result<Groups, Refusal>
        ensures ok { IfOk result (λ groups.
            AreGroups stripes.count finite.empty (lists_of groups.lists)) }
        ensures stripes { IfOk result (λ groups. groups.stripes ≡ stripes) }
        ensures err { IfErr result (λ refusal. refusal ≡ Refusal.NoMemory) }
    {
        let mut lists = Vec::new(alloc);
        for _ in 0..stripes.get() {
            lists.push(Vec::new(alloc))?;
        }
        Ok(Groups { stripes, lists })
    }

    /// Puts the entry into the list of its key's stripe.
    fn add(&mut self, entry: (Key, Value)) -> Result<(), Refusal>
        ensures stripes { self.new.stripes ≡ self.old.stripes }
        ensures ok { OnOk result
            ((behind : Entries) → HasDistinctKeys (entry ∷ behind)
            → AreGroups self.old.stripes.count (finite.from_entries behind)
            (lists_of self.old.lists)
            → AreGroups self.old.stripes.count (finite.from_entries (entry ∷ behind))
            (lists_of self.new.lists)) }
        ensures err { IfErr result (λ refusal. refusal ≡ Refusal.NoMemory) }
    {
        let stripe = stripe_of(entry.0.as_str(), self.stripes);
        self.lists[stripe].push(entry)?;
        Ok(())
    }

    /// Puts each entry into the list of its key's stripe.
    fn add_all(&mut self, mut entries: Vec<(Key, Value)>) -> Result<(), Refusal>
        ensures stripes { self.new.stripes ≡ self.old.stripes }
        ensures ok { OnOk result
            ((behind : Entries) → HasDistinctKeys (entries.items ++ behind)
            → AreGroups self.old.stripes.count (finite.from_entries behind)
            (lists_of self.old.lists)
            → AreGroups self.old.stripes.count (finite.from_entries (entries.items ++ behind))
            (lists_of self.new.lists)) }
        ensures err { IfErr result (λ refusal. refusal ≡ Refusal.NoMemory) }
    {
        while let Some(entry) = entries.pop() {
            self.add(entry)?;
        }
        Ok(())
    }

    /// The entries of the sections of a checkpoint that has these stripes.
    fn as_they_stand(
        alloc: Global,
        stripes: StripeCount,
        sections: Vec<LoadedSection>,
    ) -> Result<Groups, Refusal>
        requires { length sections.items ≡ stripes.count }
        ensures ok { IfOk result (λ groups.
            lists_of groups.lists ≡ map (λ section. section.entries.items) sections.items) }
        ensures stripes { IfOk result (λ groups. groups.stripes ≡ stripes) }
        ensures err { IfErr result (λ refusal. refusal ≡ Refusal.NoMemory) }
    {
        let mut lists = Vec::new(alloc);
        for section in sections {
            lists.push(section.entries)?;
        }
        Ok(Groups { stripes, lists })
    }

    /// The entries of the sections, whose keys are distinct. Each entry is moved, and none copied.
    fn divided_anew(
        alloc: Global,
        stripes: StripeCount,
        mut sections: Vec<LoadedSection>,
    ) -> Result<Groups, Refusal>
        requires { HasDistinctKeys (entries_in sections.items) }
        ensures ok { IfOk result (λ groups. AreGroups stripes.count
            (finite.from_entries (entries_in sections.items)) (lists_of groups.lists)) }
        ensures stripes { IfOk result (λ groups. groups.stripes ≡ stripes) }
        ensures err { IfErr result (λ refusal. refusal ≡ Refusal.NoMemory) }
    {
        let mut groups = Groups::new(alloc, stripes)?;
        while let Some(section) = sections.pop() {
            groups.add_all(section.entries)?;
        }
        Ok(groups)
    }

    /// The entries of the sections of a checkpoint of `of` stripes.
    pub(crate) fn of_sections(
        alloc: Global,
        stripes: StripeCount,
        of: StripeCount,
        sections: Vec<LoadedSection>,
    ) -> Result<Groups, Refusal>
        requires { (layout : Layout) × AreLoaded layout of.count sections.items }
        ensures ok { IfOk result (λ groups. AreGroups stripes.count
            (finite.from_entries (entries_in sections.items)) (lists_of groups.lists)) }
        ensures stripes { IfOk result (λ groups. groups.stripes ≡ stripes) }
        ensures err { IfErr result (λ refusal. refusal ≡ Refusal.NoMemory) }
    {
        if of.count == stripes.count && sections.len() == stripes.get() {
            return Groups::as_they_stand(alloc, stripes, sections);
        }
        Groups::divided_anew(alloc, stripes, sections)
    }
}
