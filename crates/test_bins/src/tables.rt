//! A table alone, and a map that is made of all its entries at once.

use crate::checks::assert_same;
use crate::numbers::{Numbers, Texts, number_of, stripes};
use bin_table::{Bins, LentEntry, Node};
use bin_transfer::Growing;
use java_hash::{spread_of, stripe_of};
use map_types::{Key, Refusal, Value};
use std::alloc::Global;

/// A table of eight bins, for a part of a map of 16 stripes.
#[derive(Drop)]
struct Table {
    alloc: Global,
    bins: Bins,
}

fn eight_bins(alloc: Global) -> Result<Bins, Refusal> {
    Ok(Bins::new(alloc, stripes(16)?, 8)?)
}

/// The stripe of the key among 16, and its bin among 8 of that stripe.
fn place_of(alloc: Global, text: &str) -> Result<(usize, usize), Refusal> {
    let bins = eight_bins(alloc)?;
    Ok((stripe_of(text, bins.stripes()), bins.bin(spread_of(text))))
}

/// Keys, their stripes and their bins.
static PLACES: [(&str, usize, usize); 6] = [
    ("a", 1, 6),
    ("Aa", 0, 4),
    ("BB", 0, 4),
    ("hello", 11, 3),
    ("polygenelubricants", 0, 0),
    ("\u{1F600}", 8, 7),
];

#[test]
fn stripes_and_bins_of_keys(rt: HostRuntime) {
    for row in &PLACES {
        let found = place_of(rt.alloc(), row.0);
        assert_same(&rt, row, &found, &Ok((row.1, row.2)));
    }
}

impl Table {
    fn empty(alloc: Global) -> Result<Table, Refusal> {
        let bins = eight_bins(alloc)?;
        Ok(Table { alloc, bins })
    }

    /// Maps the key to the number, and returns the old one.
    fn set(&mut self, text: &str, number: i64) -> Result<Option<i64>, Refusal> {
        let key = Key::new(self.alloc, text)?;
        let spread = spread_of(key.as_str());
        let node = Node::new(self.alloc, key, Value::Int(number))?;
        Ok(number_of(self.bins.set(spread, node).as_ref()))
    }

    /// Unmaps the key, and returns its number.
    fn take(&mut self, text: &str) -> Result<Option<i64>, Refusal> {
        let key = Key::new(self.alloc, text)?;
        match self.bins.take(spread_of(key.as_str()), &key) {
            Some(node) => Ok(number_of(Some(&node.value))),
            None => Ok(None),
        }
    }

    /// The number of the entry that is popped from the bin.
    fn pop(&mut self, bin: usize) -> Option<i64> {
        if bin >= self.bins.bins() {
            return None;
        }
        number_of(Some(&self.bins.pop(bin)?.value))
    }

    /// What "Aa" had before each of two changes of it, once "BB" stands in its bin too. What it had, what
    /// it has once it was taken out, and what is then popped from its bin, twice. Behind each, how many
    /// entries there are.
    fn two_keys(&mut self) -> Result<TwoKeys, Refusal> {
        let replaced = [self.set("Aa", 1)?, self.set("BB", 2)?, self.set("Aa", 3)?];
        let full = self.bins.len();
        let emptied = [self.take("Aa")?, self.take("Aa")?, self.pop(4), self.pop(4)];
        Ok((replaced, full, emptied, self.bins.len()))
    }

    fn set_all(&mut self, entries: &[(&str, i64)]) -> Result<(), Refusal> {
        for entry in entries {
            self.set(entry.0, entry.1)?;
        }
        Ok(())
    }

    /// Whether the entries are those, in their order.
    fn has_sorted(&self, wanted: &[(&str, i64)]) -> Result<bool, Refusal> {
        let entries = self.bins.entries_sorted(self.alloc)?;
        Ok(are_entries(&entries, wanted))
    }

    /// What two keys of one bin came to, and whether keys that are set then stand in byte order.
    fn came_to(&mut self) -> Result<(TwoKeys, bool), Refusal> {
        let two_keys = self.two_keys()?;
        self.set_all(&SET)?;
        Ok((two_keys, self.has_sorted(&SORTED)?))
    }
}

type TwoKeys = ([Option<i64>; 3], usize, [Option<i64>; 4], usize);

fn table_came_to(alloc: Global) -> Result<(TwoKeys, bool), Refusal> {
    let mut table = Table::empty(alloc)?;
    table.came_to()
}

#[test]
fn entries_of_a_table(rt: HostRuntime) {
    let two_keys = ([None, None, Some(1)], 2, [Some(3), None, Some(2), None], 0);
    let found = table_came_to(rt.alloc());
    assert_same(
        &rt,
        &"two keys of one bin, and byte order",
        &found,
        &Ok((two_keys, true)),
    );
}

/// Keys with their numbers, and in byte order.
static SET: [(&str, i64); 3] = [("hello", 1), ("BB", 2), ("Aa", 3)];

static SORTED: [(&str, i64); 3] = [("Aa", 3), ("BB", 2), ("hello", 1)];

/// The same of keys that agree in their first 16 bytes.
static LONG: [(&str, i64); 4] = [
    ("sixteen bytes is b", 1),
    ("sixteen bytes is a", 2),
    ("sixteen bytes is", 3),
    ("", 4),
];

static LONG_SORTED: [(&str, i64); 4] = [
    ("", 4),
    ("sixteen bytes is", 3),
    ("sixteen bytes is a", 2),
    ("sixteen bytes is b", 1),
];

/// Whether the entry has this key and this number.
fn is_entry(key: &Key, value: &Value, wanted: &(&str, i64)) -> bool {
    key.as_str() == wanted.0 && number_of(Some(value)) == Some(wanted.1)
}

/// Whether these are the entries that are wanted, in their order.
fn are_entries(entries: &[(Key, Value)], wanted: &[(&str, i64)]) -> bool {
    for place in 0..wanted.len() {
        match entries.get(place) {
            Some((key, value)) => {
                if !is_entry(key, value, &wanted[place]) {
                    return false;
                }
            }
            None => return false,
        }
    }
    entries.len() == wanted.len()
}

/// The same of lent entries.
fn are_lent(entries: &[LentEntry<'_>], wanted: &[(&str, i64)]) -> bool {
    for place in 0..wanted.len() {
        match entries.get(place) {
            Some(entry) => {
                if !is_entry(entry.key(), entry.value(), &wanted[place]) {
                    return false;
                }
            }
            None => return false,
        }
    }
    entries.len() == wanted.len()
}

impl Numbers {
    fn put_texts(&mut self, entries: &[(&str, i64)]) -> Result<(), Refusal> {
        for entry in entries {
            let key = Key::new(self.alloc, entry.0)?;
            self.put_key(key, entry.1)?;
        }
        Ok(())
    }

    fn is_lent_sorted(&self) -> Result<bool, Refusal> {
        let entries = self.growing.lent_sorted(self.alloc)?;
        Ok(are_lent(&entries, &LONG_SORTED))
    }
}

fn is_lent_sorted(alloc: Global) -> Result<bool, Refusal> {
    let mut numbers = Numbers::empty(alloc, Texts::Rising)?;
    numbers.put_texts(&LONG)?;
    numbers.is_lent_sorted()
}

#[test]
fn lent_entries_in_byte_order(rt: HostRuntime) {
    assert_same(&rt, &"lent", &is_lent_sorted(rt.alloc()), &Ok(true));
}

impl Numbers {
    /// A map that is made of all entries of this one at once.
    fn made_again(&self) -> Result<Numbers, Refusal> {
        let entries = self.growing.entries_sorted(self.alloc)?;
        let growing = Growing::with_entries(self.alloc, stripes(1)?, entries)?;
        Ok(Numbers {
            alloc: self.alloc,
            growing,
            texts: Texts::Rising,
        })
    }

    /// The bins of such a map of `keys` entries, whether a growth runs, and whether all are found.
    fn made_bins(&self, keys: u32) -> Result<(usize, bool, bool), Refusal> {
        let again = self.made_again()?;
        let has_all = again.has_all(keys)?;
        Ok((again.growing.bins(), again.growing.is_growing(), has_all))
    }
}

fn made_bins(alloc: Global, keys: u32) -> Result<(usize, bool, bool), Refusal> {
    let numbers = Numbers::with_keys(alloc, Texts::Rising, keys)?;
    numbers.made_bins(keys)
}

/// Entries, and the least number of bins m with fewer entries than m - m / 4.
static FEWEST: [(u32, usize); 8] = [
    (0, 1),
    (1, 2),
    (2, 4),
    (3, 8),
    (5, 8),
    (6, 16),
    (47, 64),
    (48, 128),
];

#[test]
fn bins_of_entries(rt: HostRuntime) {
    for row in &FEWEST {
        let found = made_bins(rt.alloc(), row.0);
        assert_same(&rt, row, &found, &Ok((row.1, false, true)));
    }
}
