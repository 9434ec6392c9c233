//! Keys: UTF-8 text of at most 4,095 bytes.
ghost use Rattle.std.specs.Prelude.{◌≡◌, ◌<◌, ◌≤◌, ◌↔◌, IfOk, IfErr, IsOk, length, true, false};
ghost use Rattle.std.specs.Ordering.{nat_cmp, as_partial_cmp, eq_by_cmp};
ghost use Rattle.std.specs.Cmp.Lexicographic.{slice_cmp, nat_list_cmp_total};
ghost use Rattle.std.specs.Cmp.{partial_order_from_own_ties};
ghost use Rattle.std.specs.Cmp.Rules.{comparing};
ghost use Rattle.std.proofs.Common.{rules};
ghost use Rattle.map_types.specs.Limits.{most_key_bytes};

use crate::refusals::Refusal;
use crate::short_texts::ShortText;
use std::alloc::Global;
use std::cmp::Ordering;
use std::marker::Model;

/// A key of the map, which contracts see as its UTF-8 bytes. Keys are in the order of their bytes.
#[derive(Clone, Debug, Drop)]
pub struct Key {
    text: KeyText,
}

/// A short text lies in the key itself, so that a key of few bytes takes no memory of its own.
#[derive(Clone, Debug, Drop)]
enum KeyText {
    Short(ShortText),
    Long(Box<String>),
}

impl Model for Key {
    ghost use Rattle.std.specs.Prelude.{List, ℕ, ◌≤◌, length};
    ghost use Rattle.map_types.specs.Keys.{key_bytes};
    ghost use Rattle.map_types.specs.Limits.{most_key_bytes};

    ghost Value = { List ℕ };

    ghost view = { λ key. key_bytes key.text };

    ghost invariant = { λ key. length (key_bytes key.text) ≤ most_key_bytes };
}

impl Key {
    /// The most bytes that a key may have.
    pub const MOST_BYTES: usize = 4095;

    /// The key with these bytes. Refuses a text of more than 4,095 bytes with `KeyTooLong`, and with
    /// `NoMemory` if no memory is found.
    pub fn new(alloc: Global, text: &str) -> Result<Key, Refusal>
        ensures ok { IfOk result (λ key. key ≡ text.now) }
        ensures ok_only_within { IsOk result → length text.now ≤ most_key_bytes }
        ensures too_long { (result ≡ Err Refusal.KeyTooLong) ↔ (most_key_bytes < length text.now) }
        ensures no_other { length text.now ≤ most_key_bytes
            → IfErr result (λ refusal. refusal ≡ Refusal.NoMemory) }
    {
        if text.len() > Key::MOST_BYTES {
            return Err(Refusal::KeyTooLong);
        }
        if text.len() <= ShortText::MOST_BYTES {
            return Ok(Key {
                text: KeyText::Short(ShortText::new(text)),
            });
        }
        let text = String::from_str(alloc, text)?;
        Ok(Key {
            text: KeyText::Long(Box::new(alloc, text)?),
        })
    }

    /// Whether the key has more bytes than this.
    pub fn is_above(&self, limit: u16) -> bool
        ensures above { result ≡ true → limit < length self.now }
        ensures within { result ≡ false → length self.now ≤ limit }
    {
        self.as_str().len() > usize::from(limit)
    }

    pub fn as_str(&self) -> &str
        ensures text { result.now ≡ self.now }
        ensures bound { length self.now ≤ most_key_bytes }
    {
        match &self.text {
            KeyText::Short(text) => text.as_str(),
            KeyText::Long(text) => text.as_str(),
        }
    }
}

impl PartialEq for Key {
    ghost eq = { eq_by_cmp (slice_cmp nat_cmp) };

    ghost laws = { Prim.search (comparing, rules, nat_list_cmp_total) };

    fn eq(&self, other: &Key) -> bool {
        self.as_str() == other.as_str()
    }
}

impl Eq for Key {
    ghost laws = { Prim.search (comparing, rules, nat_list_cmp_total) };
}

impl PartialOrd for Key {
    ghost partial_cmp = { as_partial_cmp (slice_cmp nat_cmp) };

    ghost laws = { partial_order_from_own_ties (Prim.search (comparing, rules))
        (Prim.search (comparing, rules)) };

    fn partial_cmp(&self, other: &Key) -> Option<Ordering> {
        Some(self.cmp(other))
    }
}

impl Ord for Key {
    ghost cmp = { slice_cmp nat_cmp };

    ghost total = { nat_list_cmp_total };

    ghost matches_partial_cmp = { Prim.search (comparing, rules) };

    ghost matches_eq = { Prim.search (comparing, rules) };

    fn cmp(&self, other: &Key) -> Ordering {
        self.as_str().cmp(other.as_str())
    }
}
