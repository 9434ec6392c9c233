//! One stripe's map.
ghost use Rattle.std.specs.Prelude.{◌≡◌, ◌^◌, ◌-◌, ◌↔◌, IfOk, IfErr, IfSome, OnOk, OnErr, IsTrue, Some, None, is_some, min};
ghost use Rattle.std.specs.Option.{option_copied};
ghost use Rattle.std.specs.FinMap as finite;
ghost use Rattle.map_model.specs.Steps.{answer};
ghost use Rattle.bin_table.specs.Chains.{HasDistinctKeys};
ghost use Rattle.bin_table.specs.Tables.{spread_of_key};
ghost use Rattle.bin_transfer.specs.Due.{IsFewestBins};
ghost use Rattle.atomic_methods.specs.PartState.{HasGrown};
ghost use Rattle.atomic_methods.specs.Actions.{change_of, is_in_place, Carries};
ghost use Rattle.atomic_methods.specs.Prepared.{acted, CanAct, IsPrepared};

use crate::plans::{Effect, Plan, answered, plan_change};
use bin_table::Node;
use bin_transfer::Growing;
use java_hash::{StripeCount, spread_of};
use map_types::{Command, Key, Read, Refusal, Reply, Value};
use std::alloc::{AllocError, Global};
use std::marker::Model;
use std::snapshot::Snapshot;

/// The entries whose keys belong to one stripe. Contracts see it as its finite map, and what they
/// need to know of its growth.
#[derive(Drop)]
pub struct Part {
    // In a box, since the content of a stripe moves with each TAKE and GIVE.
    pub(crate) table: Box<Growing>,
}

impl Model for Part {
    ghost use Rattle.std.specs.Coded.{coded_ℕ, coded_list, coded_option, coded×, code_by};
    ghost use Rattle.std.specs.Prelude.{refl};
    ghost use Rattle.std.specs.FinMap as finite;
    ghost use Rattle.map_types.specs.contracts.texts.Value as value_type;
    ghost use Rattle.atomic_methods.specs.PartState.{PartState};

    ghost Value = { PartState };

    ghost coded = { code_by _
        (coded× (finite.code (coded_list coded_ℕ) value_type.the_row.coded)
        (coded× coded_ℕ (coded× coded_ℕ (coded_option coded_ℕ))))
        (λ s. (s.map, (s.growth.stripes, (s.growth.bins, s.growth.moved))))
        (λ p. record {
          map = p.0;
          growth = record { stripes = p.1.0; bins = p.1.1.0; moved = p.1.1.1 };
        })
        (λ _. refl) };

    ghost view = { λ part. record {
      map = part.table.value.map;
      growth = record {
        stripes = part.table.value.stripes;
        bins = part.table.value.bins;
        moved = part.table.value.moved;
      };
    } };
}

impl Part {
    /// An empty part of a map with `stripes` stripes. It has one bin, and no growth runs.
    pub fn new(alloc: Global, stripes: StripeCount) -> Result<Part, AllocError>
        ensures map { IfOk result (λ part. part.map ≡ finite.empty) }
        ensures stripes { IfOk result (λ part. part.growth.stripes ≡ stripes.count) }
        ensures bins { IfOk result (λ part. part.growth.bins ≡ 1) }
        ensures moved { IfOk result (λ part. part.growth.moved ≡ None) }
    {
        Ok(Part {
            table: Box::new(alloc, Growing::new(alloc, stripes)?)?,
        })
    }

    /// A part of a map with `stripes` stripes that has these entries, no two of one key. It has at
    /// once the bins that it needs, and copies no key.
    pub fn with_entries(
        alloc: Global,
        stripes: StripeCount,
        entries: Vec<(Key, Value)>,
    ) -> Result<Part, AllocError>
        requires { HasDistinctKeys entries.items }
        ensures map { IfOk result (λ part. part.map ≡ finite.from_entries entries.items) }
        ensures stripes { IfOk result (λ part. part.growth.stripes ≡ stripes.count) }
        ensures bins { IfOk result (λ part. IsFewestBins (finite.len part.map) part.growth.bins) }
        ensures moved { IfOk result (λ part. part.growth.moved ≡ None) }
    {
        Ok(Part {
            table: Box::new(alloc, Growing::with_entries(alloc, stripes, entries)?)?,
        })
    }

    /// Gets all the memory that the change needs, so that `act` can make it. The content stays,
    /// also if no memory is found, which is refused with `NoMemory`. If nothing is refused, a
    /// growth that is due begins, or is put off if it finds no memory, and the one that runs is
    /// helped. If the change is refused, the growth stays as it is.
    pub fn prepare(&mut self, alloc: Global, command: &Command) -> Result<Prepared, Refusal>
        // The change is prepared for the content, which stays.
        ensures ok { IfOk result (IsPrepared self.old.map command.now) }
        ensures content { self.new.map ≡ self.old.map }
        ensures stripes { self.new.growth.stripes ≡ self.old.growth.stripes }

        // A growth that is due begins or is put off; if refused, it stays.
        ensures growth { OnOk result (HasGrown self.old self.new) }
        ensures unchanged { OnErr result (self.new.growth ≡ self.old.growth) }

        // Refused for want of memory alone.
        ensures err { IfErr result (λ refusal. refusal ≡ Refusal.NoMemory) }
    {
        self.prepare_hashed(alloc, command, spread_of(command.key.as_str()))
    }

    /// The same of a command for whose key the hash has this spread.
    pub fn prepare_hashed(
        &mut self,
        alloc: Global,
        command: &Command,
        spread: u32,
    ) -> Result<Prepared, Refusal>
        // The spread is that of the key's hash.
        requires { spread ≡ spread_of_key command.now.key }

        // The change is prepared for the content, which stays.
        ensures ok { IfOk result (IsPrepared self.old.map command.now) }
        ensures content { self.new.map ≡ self.old.map }
        ensures stripes { self.new.growth.stripes ≡ self.old.growth.stripes }

        // A growth that is due begins or is put off; if refused, it stays.
        ensures growth { OnOk result (HasGrown self.old self.new) }
        ensures unchanged { OnErr result (self.new.growth ≡ self.old.growth) }

        // Refused for want of memory alone.
        ensures err { IfErr result (λ refusal. refusal ≡ Refusal.NoMemory) }
    {
        let old = self.table.get(spread, &command.key);
        let is_mapped = old.is_some();
        let Plan { effect, reply } = plan_change(alloc, old, &command.change)?;
        let action = prepare_action(alloc, &command.key, effect, is_mapped)?;
        // Last, since from here on nothing is refused.
        let _is_put_off = self.table.grow(alloc);
        Ok(Prepared {
            action,
            spread,
            reply,
            key: Snapshot::of(&command.key),
        })
    }

    /// Makes the change that `prepare` has prepared for the content that the part still has. The
    /// key is that of the change's command.
    pub fn act(&mut self, key: &Key, prepared: Prepared) -> Reply
        requires can { CanAct self.old.map prepared }
        requires key { IfSome prepared.change (λ change. change.0 ≡ key.now) }
        ensures map { self.new.map ≡ acted self.old.map prepared.change }
        ensures growth { self.new.growth ≡ self.old.growth }
        ensures reply { result ≡ prepared.reply }
    {
        let Prepared {
            action,
            spread,
            reply,
            key: _,
        } = prepared;
        match action {
            Action::Keep => {}
            Action::Unmap => {
                let _taken = self.table.take(spread, key);
            }
            Action::Replace(value) => self.table.replace(spread, key, value),
            Action::Insert(node) => self.table.add(spread, node),
        }
        reply
    }

    /// The answer to a read. Refuses with `NoMemory` alone, if no memory is found for the copy of a
    /// value.
    pub fn read(&self, read: &Read) -> Result<Reply, Refusal>
        ensures ok { IfOk result (λ reply. reply ≡ answer self.now.map read.now) }
        ensures err { IfErr result (λ refusal. refusal ≡ Refusal.NoMemory) }
    {
        self.read_hashed(read, spread_of(read.key.as_str()))
    }

    /// The same of a read for whose key the hash has this spread.
    pub fn read_hashed(&self, read: &Read, spread: u32) -> Result<Reply, Refusal>
        requires { spread ≡ spread_of_key read.now.key }
        ensures ok { IfOk result (λ reply. reply ≡ answer self.now.map read.now) }
        ensures err { IfErr result (λ refusal. refusal ≡ Refusal.NoMemory) }
    {
        answered(self.table.get(spread, &read.key), &read.question)
    }

    /// A copy of all entries, in rising byte order of their keys. Refuses with `NoMemory` alone.
    pub fn entries_sorted(&self, alloc: Global) -> Result<Vec<(Key, Value)>, Refusal>
        ensures ok { IfOk result (λ entries. entries.items ≡ finite.entries self.now.map) }
        ensures err { IfErr result (λ refusal. refusal ≡ Refusal.NoMemory) }
    {
        Ok(self.table.entries_sorted(alloc)?)
    }

    /// The number of entries; the greatest number stands for all that are greater.
    pub fn len(&self) -> usize
        ensures { result ≡ min (finite.len self.now.map) (2 ^ 64 - 1) }
    {
        self.table.len()
    }

    /// How many bins its table has. While a growth runs these are the bins that it began with.
    pub fn bins(&self) -> usize
        ensures { result ≡ self.now.growth.bins }
    {
        self.table.bins()
    }

    /// Whether a growth runs.
    pub fn is_growing(&self) -> bool
        ensures { result ≡ is_some self.now.growth.moved }
    {
        self.table.is_growing()
    }

    /// Whether no key is mapped.
    pub fn is_empty(&self) -> bool
        ensures { IsTrue result ↔ (self.now.map ≡ finite.empty) }
    {
        self.table.len() == 0
    }
}

/// What is done to the table at the key of the command, with the memory for it.
#[derive(Drop)]
enum Action {
    Keep,
    Unmap,
    Replace(Value),
    Insert(Box<Node>),
}

/// A change that has all the memory that it needs, and its reply.
#[derive(Drop)]
pub struct Prepared {
    action: Action,
    // The spread of the hash of the command's key, which is hashed once.
    spread: u32,
    reply: Reply,
    // The command's key, as it was when the change was prepared. Contracts alone read it.
    key: Snapshot<Key>,
}

impl Model for Prepared {
    ghost use Rattle.atomic_methods.specs.Prepared.{PreparedChange};

    ghost Value = { PreparedChange };

    ghost use Rattle.atomic_methods.specs.Actions.{change_of, is_in_place, IsHashed};

    ghost view = { λ prepared. record {
      change = change_of prepared.key.value prepared.action;
      in_place = is_in_place prepared.action;
      reply = prepared.reply;
    } };

    ghost invariant = { λ prepared. IsHashed prepared.key.value prepared.action prepared.spread };
}

/// Only an entry that wasn't there takes a node, and with it a copy of the key.
fn prepare_action(
    alloc: Global,
    key: &Key,
    effect: Effect,
    is_mapped: bool,
) -> Result<Action, Refusal>
    ensures ok { IfOk result (λ action. Carries key.now is_mapped effect action) }
    ensures err { IfErr result (λ refusal. refusal ≡ Refusal.NoMemory) }
{
    match effect {
        Effect::Keep => Ok(Action::Keep),
        Effect::Unmap => Ok(Action::Unmap),
        Effect::Store(value) => store_action(alloc, key, value, is_mapped),
    }
}

fn store_action(alloc: Global, key: &Key, value: Value, is_mapped: bool) -> Result<Action, Refusal>
    ensures change { IfOk result
        (λ action. change_of key.now action ≡ Some (key.now, Some value)) }
    ensures in_place { IfOk result (λ action. is_in_place action ≡ is_mapped) }
    ensures err { IfErr result (λ refusal. refusal ≡ Refusal.NoMemory) }
{
    if is_mapped {
        return Ok(Action::Replace(value));
    }
    Ok(Action::Insert(Node::new(alloc, key.clone()?, value)?))
}
