//! The least of the keys whose value is the one sought.
ghost use Rattle.std.specs.Prelude.{◌≡◌, None, IfOk, IfErr};
ghost use Rattle.std.specs.Option.{option_copied};
ghost use Rattle.bulk_tasks.specs.Nearest as nearest;

use map_types::{Key, Refusal, Value};
use rayon::prelude::*;
use std::cmp::Ordering;
use std::thread::Threads;

/// The lesser of two keys that may be missing.
pub(crate) fn nearer<'a>(a: Option<&'a Key>, b: Option<&'a Key>) -> Option<&'a Key>
    ensures { option_copied result
        ≡ nearest.nearer (option_copied a.entry) (option_copied b.entry) }
{
    match (a, b) {
        (None, b) => b,
        (a, None) => a,
        (Some(a), Some(b)) => Some(lesser(a, b)),
    }
}

/// The lesser of two keys by bytes.
fn lesser<'a>(a: &'a Key, b: &'a Key) -> &'a Key
    ensures { result.now ≡ nearest.lesser a.now b.now }
{
    match a.cmp(b) {
        Ordering::Less | Ordering::Equal => a,
        Ordering::Greater => b,
    }
}

/// The key of the entry, if its value is the one sought.
fn candidate<'a>(sought: &Value, entry: &'a (Key, Value)) -> Option<&'a Key>
    ensures { option_copied result ≡ nearest.candidate sought.now entry.now }
{
    if entry.1.is_same(sought) {
        Some(&entry.0)
    } else {
        None
    }
}

/// The least key with the value, by one thread.
fn nearest_in_one<'a>(sought: &Value, entries: &'a [(Key, Value)]) -> Option<&'a Key>
    ensures { option_copied result ≡ nearest.nearest_of sought.now entries.now }
{
    let mut near = None;
    for entry in entries {
        near = nearer(near, candidate(sought, entry));
    }
    near
}

/// The same key, by as many threads as there are processors.
fn nearest_in_many<'a>(
    rt: &(impl Threads + Sync),
    sought: &Value,
    entries: &'a [(Key, Value)],
) -> Option<&'a Key>
    ensures { option_copied result ≡ nearest.nearest_of sought.now entries.now }
{
    entries
        .par_iter()
        .map(
            |entry: &(Key, Value)| -> Option<&Key>
                ensures { option_copied result ≡ nearest.candidate sought.entry.now entry.now }
            { candidate(sought, entry) },
        )
        .reduce(
            rt,
            || -> Option<&Key>
                ensures { option_copied result ≡ None }
            { None },
            |a: Option<&Key>, b: Option<&Key>| -> Option<&Key>
                ensures { option_copied result
                    ≡ nearest.nearer (option_copied a.entry) (option_copied b.entry) }
            { nearer(a, b) },
        )
}

/// The least key with the value, by one thread if there are fewer entries than the threshold.
pub(crate) fn nearest_of_all<'a>(
    rt: &(impl Threads + Sync),
    sought: &Value,
    entries: &'a [(Key, Value)],
    threshold: u64,
) -> Option<&'a Key>
    ensures { option_copied result ≡ nearest.nearest_of sought.now entries.now }
{
    if (entries.len() as u64) < threshold {
        nearest_in_one(sought, entries)
    } else {
        nearest_in_many(rt, sought, entries)
    }
}

/// A copy of the key that was found. Refused with `NoMemory`.
pub(crate) fn copied(near: Option<&Key>) -> Result<Option<Key>, Refusal>
    ensures ok { IfOk result (λ found. found ≡ option_copied near.entry) }
    ensures err { IfErr result (λ refusal. refusal ≡ Refusal.NoMemory) }
{
    match near {
        Some(key) => Ok(Some(key.clone()?)),
        None => Ok(None),
    }
}
