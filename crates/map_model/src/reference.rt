//! The model as a plain program: one ordered map, changed by one command at a time.
ghost use Rattle.std.specs.Prelude.{◌≡◌, IfOk, IfErr, OnOk, OnErr};
ghost use Rattle.std.specs.FinMap as finite;
ghost use Rattle.std.specs.Option.{option_copied};
ghost use Rattle.map_model.specs.Maps.{assign};
ghost use Rattle.map_model.specs.Steps.{step, answer};

use crate::outcomes::{Outcome, answer_at};
use map_types::{Command, Key, Read, Refusal, Reply, Value};
use std::alloc::Global;
use std::collections::BTreeMap;
use std::collections::btree_map::Iter;
use std::marker::Model;

/// A map of one thread, against which others can be tested. It is slow: each call copies the values
/// that it returns.
#[derive(Drop)]
pub struct ReferenceMap {
    entries: BTreeMap<Key, Value>,
}

impl Model for ReferenceMap {
    ghost use Rattle.std.specs.Coded.{coded_ℕ, coded_list};
    ghost use Rattle.std.specs.FinMap as finite;
    ghost use Rattle.map_model.specs.Maps.{Map};
    ghost use Rattle.map_types.specs.contracts.texts.Value as value_type;

    ghost Value = { Map };

    ghost coded = { finite.code (coded_list coded_ℕ) value_type.the_row.coded };

    ghost view = { λ map. finite.from_entries map.entries.entries };
}

impl ReferenceMap {
    /// The empty map.
    pub fn new(alloc: Global) -> ReferenceMap
        ensures { result ≡ finite.empty }
    {
        ReferenceMap {
            entries: BTreeMap::new(alloc),
        }
    }

    /// Makes the change, and returns the reply of a `ConcurrentMap`. Refuses with `NoMemory` alone.
    pub fn change(&mut self, alloc: Global, command: &Command) -> Result<Reply, Refusal>
        ensures map { OnOk result (self.new ≡ (step self.old command.now).map) }
        ensures reply { IfOk result (λ reply. reply ≡ (step self.old command.now).reply) }
        ensures err { IfErr result (λ refusal. refusal ≡ Refusal.NoMemory) }
        ensures unchanged { OnErr result (self.new ≡ self.old) }
    {
        let Outcome { value, reply } = Outcome::of(alloc, self.get(&command.key), &command.change)?;
        self.assign(&command.key, value)?;
        Ok(reply)
    }

    /// Returns the reply of a `ConcurrentMap`. Refuses with `NoMemory` alone.
    pub fn read(&self, read: &Read) -> Result<Reply, Refusal>
        ensures ok { IfOk result (λ reply. reply ≡ answer self.now read.now) }
        ensures err { IfErr result (λ refusal. refusal ≡ Refusal.NoMemory) }
    {
        answer_at(self.get(&read.key), &read.question)
    }

    /// The entries, in the byte order of their keys.
    pub fn entries(&self) -> Iter<'_, Key, Value>
        ensures { result ≡ finite.entries self.now }
    {
        self.entries.iter()
    }

    fn get(&self, key: &Key) -> Option<&Value>
        ensures { option_copied result ≡ finite.get self.now key.now }
    {
        self.entries.get(key)
    }

    /// The key gets the value, or is unmapped if there is none.
    fn assign(&mut self, key: &Key, value: Option<Value>) -> Result<(), Refusal>
        ensures ok { OnOk result (self.new ≡ assign self.old key.now value) }
        ensures err { IfErr result (λ refusal. refusal ≡ Refusal.NoMemory) }
        ensures unchanged { OnErr result (self.new ≡ self.old) }
    {
        match value {
            None => drop(self.entries.remove(key)),
            Some(value) => drop(self.entries.insert(key.clone()?, value)?),
        }
        Ok(())
    }
}
