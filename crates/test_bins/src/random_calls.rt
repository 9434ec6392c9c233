//! Pseudo-random calls beside a plain vector of what each key has.
ghost use Rattle.std.specs.Prelude.{◌<◌};

use crate::checks::assert_same;
use crate::numbers::{Numbers, Texts, number_of};
use map_types::{Key, Refusal, Value};
use std::alloc::Global;

const KEYS: u32 = 4_000;

const CALLS: u32 = 20_000;

/// Numbers that look random: the multiplier and the increment of Knuth's MMIX.
#[derive(Drop)]
struct Dice {
    state: u64,
}

impl Dice {
    fn below(&mut self, bound: u32) -> u32
        requires { 0 < bound }
        ensures { result < bound }
    {
        self.state = self
            .state
            .wrapping_mul(6_364_136_223_846_793_005)
            .wrapping_add(1_442_695_040_888_963_407);
        (self.state >> 33) as u32 % bound
    }
}

/// What a call does.
#[derive(Clone, Copy)]
enum Kind {
    Find,
    Remove,
    Put(i64),
}

impl Kind {
    /// What a key has behind the call.
    fn value_behind(self, before: Option<i64>) -> Option<i64> {
        match self {
            Kind::Find => before,
            Kind::Remove => None,
            Kind::Put(value) => Some(value),
        }
    }
}

/// A call of the key of this number.
#[derive(Clone, Copy)]
struct Call {
    number: u32,
    kind: Kind,
}

impl Dice {
    fn call(&mut self) -> Call {
        let number = self.below(KEYS);
        let kind = match self.below(8) {
            0 => Kind::Find,
            1 | 2 => Kind::Remove,
            _ => Kind::Put(i64::from(self.below(KEYS))),
        };
        Call { number, kind }
    }
}

/// What a plain vector answers: what the key had before.
fn answer_of(plain: &mut Vec<Option<i64>>, call: Call) -> Option<i64> {
    let slot = plain.get_mut(call.number as usize)?;
    let before = *slot;
    *slot = call.kind.value_behind(before);
    before
}

impl Numbers {
    fn call(&mut self, call: Call) -> Result<Option<i64>, Refusal> {
        match call.kind {
            Kind::Find => self.find(call.number),
            Kind::Remove => self.remove(call.number),
            Kind::Put(value) => self.put(call.number, value),
        }
    }
}

/// How many calls were answered as by the vector, and behind how many a growth was running.
#[derive(Clone, Copy)]
struct Counts {
    alike: u32,
    growing: u32,
}

impl Counts {
    fn add(&mut self, is_alike: bool, is_growing: bool) {
        self.alike = self.alike.saturating_add(u32::from(is_alike));
        self.growing = self.growing.saturating_add(u32::from(is_growing));
    }
}

/// A map, and a plain vector of what each key has.
#[derive(Drop)]
struct Both {
    numbers: Numbers,
    plain: Vec<Option<i64>>,
}

impl Both {
    fn empty(alloc: Global) -> Result<Both, Refusal> {
        let plain = Vec::from_elem(alloc, None, KEYS as usize)?;
        let numbers = Numbers::empty(alloc, Texts::Rising)?;
        Ok(Both { numbers, plain })
    }

    fn call_often(&mut self) -> Result<Counts, Refusal> {
        let mut dice = Dice { state: 2026 };
        let mut counts = Counts {
            alike: 0,
            growing: 0,
        };
        for _call in 0..CALLS {
            let call = dice.call();
            let is_alike = self.numbers.call(call)? == answer_of(&mut self.plain, call);
            counts.add(is_alike, self.numbers.growing.is_growing());
        }
        Ok(counts)
    }

    /// Whether this is the entry of the key of this number, with the value.
    fn is_entry(&self, entry: &(Key, Value), number: u32, value: i64) -> Result<bool, Refusal> {
        let key = self.numbers.key(number)?;
        Ok(entry.0.as_str() == key.as_str() && number_of(Some(&entry.1)) == Some(value))
    }

    /// Whether these entries, in order, are those of the vector.
    fn are_entries(&self, entries: &[(Key, Value)]) -> Result<bool, Refusal> {
        let mut place = 0usize;
        for number in 0..KEYS {
            if let Some(Some(value)) = self.plain.get(number as usize) {
                let Some(entry) = entries.get(place) else {
                    return Ok(false);
                };
                if !self.is_entry(entry, number, *value)? {
                    return Ok(false);
                }
                place = place.saturating_add(1);
            }
        }
        Ok(place == entries.len())
    }

    fn has_entries(&self) -> Result<bool, Refusal> {
        let entries = self.numbers.growing.entries_sorted(self.numbers.alloc)?;
        self.are_entries(&entries)
    }

    /// How many calls were answered as by the vector, how often a growth was left running up to the
    /// number that is wanted, and whether the entries are those of the vector.
    fn called(&mut self) -> Result<(u32, u32, bool), Refusal> {
        let counts = self.call_often()?;
        let growing = counts.growing.min(WANTED.1);
        Ok((counts.alike, growing, self.has_entries()?))
    }
}

/// How many calls there are, how often a growth is left running at least, and that the entries are
/// right.
const WANTED: (u32, u32, bool) = (CALLS, 247, true);

fn called(alloc: Global) -> Result<(u32, u32, bool), Refusal> {
    let mut both = Both::empty(alloc)?;
    both.called()
}

/// A growth from 32, 64 and so on up to 2,048 bins is left running by all its changes but the last:
/// 1 + 3 + 7 + 15 + 31 + 63 + 127.
#[test]
fn calls_beside_a_vector(rt: HostRuntime) {
    assert_same(&rt, &"calls", &called(rt.alloc()), &Ok(WANTED));
}
