//! An entry of a table, lent where it stands.
ghost use Rattle.std.specs.Prelude.{◌≡◌, ℕ, ◌<◌, get_or};
ghost use Rattle.std.specs.Ordering.{nat_cmp};
ghost use Rattle.std.specs.Cmp.Lexicographic.{slice_cmp};
ghost use Rattle.bin_table.specs.Ranks.{HasDigits, rank};

use map_types::{Key, Value};
use std::cmp::Ordering;
use std::marker::Model;

/// How many bytes of a key its rank has.
const RANKED: usize = 16;

/// The key and the value of an entry, which stay where they are. Contracts see the two.
#[derive(Drop)]
pub struct LentEntry<'a> {
    // The first bytes of the key as one number, so that most comparisons don't look at the key.
    rank: u128,
    key: &'a Key,
    value: &'a Value,
}

impl<'a> Model for LentEntry<'a> {
    ghost use Rattle.std.specs.Prelude.{◌≡◌, List, ℕ};
    ghost use Rattle.map_types.specs.declared.texts.Value as value_type;
    ghost use Rattle.bin_table.specs.Ranks.{HasDigits, rank as rank_of_bytes};

    ghost Value = { List ℕ × value_type.Value };

    ghost view = { λ entry. (entry.key.now, entry.value.now) };

    ghost invariant = { λ entry. (entry.rank ≡ rank_of_bytes 16 entry.key.now)
        × HasDigits 16 entry.key.now };
}

/// The first bytes of the text as one number.
fn rank_of(text: &str) -> u128
    ensures value { result ≡ rank 16 text.now }
    ensures digits { HasDigits 16 text.now }
{
    let mut first = [0; RANKED];
    let len = text.len().min(RANKED);
    first[..len].copy_from_slice(&text.as_bytes()[..len]);
    u128::from_be_bytes(first)
}

impl<'a> LentEntry<'a> {
    /// The entry with this key and this value.
    pub fn new(key: &'a Key, value: &'a Value) -> LentEntry<'a>
        ensures { result ≡ (key.now, value.now) }
    {
        LentEntry {
            rank: rank_of(key.as_str()),
            key,
            value,
        }
    }

    pub fn key(&self) -> &'a Key
        ensures { result.now ≡ self.now.0 }
    {
        self.key
    }

    pub fn value(&self) -> &'a Value
        ensures { result.now ≡ self.now.1 }
    {
        self.value
    }

    /// The order of the keys, which is that of their bytes.
    pub fn compare_keys(&self, other: &LentEntry<'_>) -> Ordering
        ensures { result ≡ slice_cmp nat_cmp self.now.0 other.now.0 }
    {
        match self.rank.cmp(&other.rank) {
            Ordering::Equal => self.key.cmp(other.key),
            unequal => unequal,
        }
    }
}
