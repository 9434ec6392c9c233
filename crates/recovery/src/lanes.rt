//! The part of one stripe while a map is restored, with the changes that are due in it.
ghost use Rattle.std.specs.Prelude.{◌≡◌, [], false, IfOk, IfErr, OnOk};
ghost use Rattle.std.specs.FinMap as finite;
ghost use Rattle.std.specs.List.{AllByRecursion};
ghost use Rattle.bin_table.specs.Chains.{HasDistinctKeys};
ghost use Rattle.bin_table.specs.Tables.{spread_of_key};
ghost use Rattle.map_model.specs.Steps.{map_after, step};
ghost use Rattle.recovery.specs.Lanes.{AreTaken, HasRun, IsLaid, commands_due, content_map, promised};

use crate::distinct::Distinct;
use crate::due::Due;
use atomic_methods::Part;
use java_hash::StripeCount;
use map_types::{Command, Key, Refusal, Value};
use std::alloc::Global;
use std::mem;

/// What a lane has.
#[derive(Drop)]
pub(crate) enum Content {
    /// The entries that the part is to be made of.
    Entries(Distinct),
    /// The part.
    Made(Part),
}

/// The part of one stripe, and the changes that are due in it, in their order.
#[derive(Drop)]
pub(crate) struct Lane {
    pub stripes: StripeCount,
    pub content: Content,
    pub due: Vec<Due>,
    /// Whether memory was wanting when they were to be made.
    pub is_refused: bool,
}

/// The part with this content.
fn part_of(alloc: Global, stripes: StripeCount, content: Content) -> Result<Part, Refusal>
    ensures map { IfOk result (λ part. part.map ≡ content_map content) }
    ensures laid { IsLaid stripes.count content
        → IfOk result (λ part. part.growth.stripes ≡ stripes.count) }
    ensures err { IfErr result (λ refusal. refusal ≡ Refusal.NoMemory) }
{
    match content {
        Content::Entries(Distinct { entries }) => {
            let part = Part::with_entries(alloc, stripes, entries)?;
            Ok(part)
        }
        Content::Made(part) => Ok(part),
    }
}

/// Makes the changes in the part of their keys, in their order.
fn make_changes(alloc: Global, part: &mut Part, changes: &[Due]) -> Result<(), Refusal>
    ensures map { OnOk result (part.new.map ≡ map_after part.old.map (commands_due changes.now)) }
    ensures stripes { part.new.growth.stripes ≡ part.old.growth.stripes }
    ensures err { IfErr result (λ refusal. refusal ≡ Refusal.NoMemory) }
{
    for change in changes {
        let prepared = part.prepare_hashed(alloc, &change.command, change.spread)?;
        part.act(&change.command.key, prepared);
    }
    Ok(())
}

impl Lane {
    /// The entries of one of `stripes` stripes, and nothing that is due.
    pub(crate) fn new(alloc: Global, stripes: StripeCount, entries: Vec<(Key, Value)>) -> Lane
        requires { HasDistinctKeys entries.items }
        ensures map { promised result ≡ finite.from_entries entries.items }
        ensures stripes { result.stripes ≡ stripes }
        ensures laid { IsLaid stripes.count result.content }
    {
        Lane {
            stripes,
            content: Content::Entries(Distinct { entries }),
            due: Vec::new(alloc),
            is_refused: false,
        }
    }

    /// The change is due behind the others.
    pub(crate) fn queue(&mut self, command: Command, spread: u32) -> Result<(), Refusal>
        requires { spread ≡ spread_of_key command.key }
        ensures map { OnOk result (promised self.new ≡ (step (promised self.old) command).map) }
        ensures stripes { self.new.stripes ≡ self.old.stripes }
        ensures content { self.new.content ≡ self.old.content }
        ensures err { IfErr result (λ refusal. refusal ≡ Refusal.NoMemory) }
    {
        self.due.push(Due { command, spread })?;
        Ok(())
    }

    /// Makes the part, and what is due in it.
    fn make(&mut self, alloc: Global) -> Result<(), Refusal>
        ensures ok { OnOk result (HasRun self.old self.new) }
        ensures err { IfErr result (λ refusal. refusal ≡ Refusal.NoMemory) }
    {
        let nothing = Distinct {
            entries: Vec::new(alloc),
        };
        let content = mem::replace(&mut self.content, Content::Entries(nothing));
        let mut part = part_of(alloc, self.stripes, content)?;
        make_changes(alloc, &mut part, &self.due)?;
        self.content = Content::Made(part);
        self.due.clear();
        Ok(())
    }

    /// Makes the part and what is due in it, if memory isn't wanting.
    pub(crate) fn run(&mut self, alloc: Global)
        ensures { self.new.is_refused ≡ false → HasRun self.old self.new }
    {
        self.is_refused = self.make(alloc).is_err();
    }
}

/// Whether memory was wanting in one of the lanes.
pub(crate) fn is_any_refused(lanes: &[Lane]) -> bool
    ensures { result ≡ false
        → AllByRecursion (λ lane. lane.is_refused ≡ false) lanes.now }
{
    for lane in lanes {
        if lane.is_refused {
            return true;
        }
    }
    false
}

/// The parts alone.
pub(crate) fn parts_of(alloc: Global, lanes: Vec<Lane>) -> Result<Vec<Part>, Refusal>
    ensures ok { IfOk result (λ parts. AreTaken lanes.items parts.items) }
    ensures err { IfErr result (λ refusal. refusal ≡ Refusal.NoMemory) }
{
    let mut parts = Vec::new(alloc);
    for lane in lanes {
        parts.push(part_of(alloc, lane.stripes, lane.content)?)?;
    }
    Ok(parts)
}
