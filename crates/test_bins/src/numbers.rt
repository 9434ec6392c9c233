//! A map of numbers, and its calls as a change or a read of its stripe makes them.

use bin_table::Node;
use bin_transfer::Growing;
use java_hash::{StripeCount, spread_of};
use map_types::{Key, Refusal, Value};
use std::alloc::Global;

/// How many pairs a text of `OneHash` has.
const PAIRS: u32 = 9;

/// Which texts the keys of a map are.
#[derive(Clone, Copy)]
pub(crate) enum Texts {
    /// "k00000", "k00001" and so on, in byte order.
    Rising,
    /// Texts of nine pairs "Aa" or "BB", which the lowest nine bits of the number choose. Both pairs have
    /// the same `hashCode` in Java, and so have all these texts: they stand in one bin.
    OneHash,
}

/// The text of nine pairs that the lowest nine bits of the number choose.
fn pairs(alloc: Global, number: u32) -> Result<String, Refusal> {
    let mut text = String::new(alloc);
    for bit in 0..PAIRS {
        text.push_str(if (number >> bit) & 1 == 0 { "Aa" } else { "BB" })?;
    }
    Ok(text)
}

impl Texts {
    /// The text of the key of this number.
    pub(crate) fn text(self, alloc: Global, number: u32) -> Result<String, Refusal> {
        match self {
            Texts::Rising => Ok(format!(in alloc; "k{number:05}")?),
            Texts::OneHash => pairs(alloc, number),
        }
    }
}

/// So many stripes, if a map may have that many.
pub(crate) fn stripes(count: u16) -> Result<StripeCount, Refusal> {
    StripeCount::new(count).ok_or(Refusal::WrongPhase)
}

/// The number that the value is, if it is one.
pub(crate) fn number_of(value: Option<&Value>) -> Option<i64> {
    match value {
        Some(Value::Int(number)) => Some(*number),
        _ => None,
    }
}

/// A map whose keys have numbers.
#[derive(Drop)]
pub(crate) struct Numbers {
    pub alloc: Global,
    pub growing: Growing,
    pub texts: Texts,
}

impl Numbers {
    /// A map of one stripe with no key.
    pub(crate) fn empty(alloc: Global, texts: Texts) -> Result<Numbers, Refusal> {
        let growing = Growing::new(alloc, stripes(1)?)?;
        Ok(Numbers {
            alloc,
            growing,
            texts,
        })
    }

    /// A map of the first `keys` keys, which were put one after another.
    pub(crate) fn with_keys(alloc: Global, texts: Texts, keys: u32) -> Result<Numbers, Refusal> {
        let mut numbers = Numbers::empty(alloc, texts)?;
        numbers.put_all(keys)?;
        Ok(numbers)
    }

    /// The key of this number.
    pub(crate) fn key(&self, number: u32) -> Result<Key, Refusal> {
        let text = self.texts.text(self.alloc, number)?;
        Key::new(self.alloc, text.as_str())
    }

    /// Maps the key to the number, and returns the old one.
    pub(crate) fn put_key(&mut self, key: Key, value: i64) -> Result<Option<i64>, Refusal> {
        let _is_put_off = self.growing.grow(self.alloc);
        let spread = spread_of(key.as_str());
        let Some(old) = self.growing.get(spread, &key) else {
            self.growing
                .add(spread, Node::new(self.alloc, key, Value::Int(value))?);
            return Ok(None);
        };
        let old = number_of(Some(old));
        self.growing.replace(spread, &key, Value::Int(value));
        Ok(old)
    }

    /// Maps the key of this number to the value, and returns what it was mapped to.
    pub(crate) fn put(&mut self, number: u32, value: i64) -> Result<Option<i64>, Refusal> {
        let key = self.key(number)?;
        self.put_key(key, value)
    }

    /// Unmaps the key of this number, and returns what it was mapped to.
    pub(crate) fn remove(&mut self, number: u32) -> Result<Option<i64>, Refusal> {
        let key = self.key(number)?;
        let _is_put_off = self.growing.grow(self.alloc);
        match self.growing.take(spread_of(key.as_str()), &key) {
            Some(node) => Ok(number_of(Some(&node.value))),
            None => Ok(None),
        }
    }

    /// What the key of this number is mapped to.
    pub(crate) fn find(&self, number: u32) -> Result<Option<i64>, Refusal> {
        let key = self.key(number)?;
        Ok(number_of(self.growing.get(spread_of(key.as_str()), &key)))
    }

    /// Maps the first `keys` keys, one after another, each to its number.
    fn put_all(&mut self, keys: u32) -> Result<(), Refusal> {
        for number in 0..keys {
            self.put(number, i64::from(number))?;
        }
        Ok(())
    }

    /// Whether there are `keys` keys, and the first ones are each mapped to their numbers.
    pub(crate) fn has_all(&self, keys: u32) -> Result<bool, Refusal> {
        for number in 0..keys {
            if self.find(number)? != Some(i64::from(number)) {
                return Ok(false);
            }
        }
        Ok(self.growing.len() == keys as usize)
    }
}
