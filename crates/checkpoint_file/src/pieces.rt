//! The pieces of a section, out of bytes.
ghost use Rattle.std.specs.Prelude.{◌≡◌, ◌≢◌, ◌↔◌, ◌<◌, ◌^◌, ◌++◌, ℕ, List, length, IfOk, IfErr, IfSome, IfNone, IsTrue};
ghost use Rattle.byteorder.specs.Endian.{big_bytes};
ghost use Rattle.log_records.specs.Layout.{layout_of};
ghost use Rattle.log_records.specs.Reading.{Gives, both_at, key_at, some_value_at};
ghost use Rattle.log_records.specs.Spelling.{IsText, IsValue};
ghost use Rattle.map_types.specs.declared.texts.Value.{Value};
ghost use Rattle.store_layout.specs.Checkpoints.{entry_bytes, section_head_bytes};
ghost use Rattle.java_hash.specs.Stripes.{stripe_of};
ghost use Rattle.checkpoint_file.specs.Loads.{IsAbove};

use byteorder::{BigEndian, ByteOrder};
use java_hash::{StripeCount, stripe_of};
use log_records::{Version, key_at, some_value_at};
use map_types::{Key, Refusal, Value};
use std::alloc::Global;

/// A stripe by its number, and how many stripes there are.
#[derive(Clone, Copy)]
pub(crate) struct Stripe {
    pub number: usize,
    pub of: StripeCount,
}

/// The mark and the count at the front of a section.
pub(crate) fn mark_and_count(head: &[u8]) -> (u64, usize)
    requires { length head.now ≡ section_head_bytes }
    ensures spelled { head.now ≡ big_bytes 8 result.0 ++ big_bytes 4 result.1 }
    ensures fits { (result.0 < 2 ^ 64) × (result.1 < 2 ^ 32) }
{
    let mark = BigEndian::read_u64(head);
    let count = BigEndian::read_u32(&head[8..]);
    (mark, count as usize)
}

/// The key and the value at the front.
fn key_and_value(
    version: Version,
    alloc: Global,
    bytes: &[u8],
) -> Result<((Key, Value), &[u8]), Refusal>
    ensures { Gives (λ x. (x.0, x.1.now)) result
        (both_at (key_at (layout_of version)) some_value_at bytes.now) }
{
    let (key, rest) = key_at(version, alloc, bytes)?;
    let (value, rest) = some_value_at(alloc, rest)?;
    Ok(((key, value), rest))
}

/// The entry at the front and the bytes behind it; `None` if no entry stands there.
pub(crate) fn entry_at(
    version: Version,
    alloc: Global,
    bytes: &[u8],
) -> Result<Option<((Key, Value), &[u8])>, Refusal>
    ensures some { IfOk result (λ found. IfSome found (λ x.
        IsText (layout_of version).key_limit x.0.0 × IsValue x.0.1
        × (bytes.now ≡ entry_bytes (layout_of version) x.0 ++ x.1.now))) }
    ensures none { IfOk result (λ found.
        IfNone found
        ((entry : List ℕ × Value) (rest : List ℕ)
        → IsText (layout_of version).key_limit entry.0 → IsValue entry.1
        → bytes.now ≢ entry_bytes (layout_of version) entry ++ rest)) }
    ensures err { IfErr result (λ refusal. refusal ≡ Refusal.NoMemory) }
{
    match key_and_value(version, alloc, bytes) {
        Ok(found) => Ok(Some(found)),
        Err(refusal) => match refusal {
            Refusal::NoMemory => Err(refusal),
            _ => Ok(None),
        },
    }
}

/// Whether the key belongs to the stripe and is above that of the last entry.
pub(crate) fn may_follow(entries: &[(Key, Value)], key: &Key, stripe: Stripe) -> bool
    ensures { IsTrue result
        ↔ ((stripe_of stripe.of.count key.now ≡ stripe.number) × IsAbove entries.now key.now) }
{
    if stripe_of(key.as_str(), stripe.of) != stripe.number {
        return false;
    }
    match entries.last() {
        None => true,
        Some((last, _)) => last < key,
    }
}
