//! What a fold of values by `Sum`, `Max` or `Min` has come to. Tallies of parts can be joined.
ghost use Rattle.std.specs.Prelude.{◌≡◌, true, false};
ghost use Rattle.named_functions.specs.Functions as functions;
ghost use Rattle.bulk_tasks.specs.Tallies as tallies;
ghost use Rattle.bulk_tasks.specs.Bulk.{IsReducing};

use map_types::{Func, FuncError, Key, Value};
use rayon::prelude::*;
use std::thread::Threads;

/// What a fold has come to.
#[derive(Clone, Copy)]
pub(crate) enum Tally {
    /// There was no value.
    Nothing,
    Number(i64),
    /// A value was a text.
    WrongKind,
}

impl Tally {
    /// What a fold that has come to this gives.
    pub(crate) fn answer(self) -> Result<Option<Value>, FuncError>
        ensures { result ≡ tallies.answer_of self }
    {
        match self {
            Tally::Nothing => Ok(None),
            Tally::Number(number) => Ok(Some(Value::Int(number))),
            Tally::WrongKind => Err(FuncError::WrongKind),
        }
    }
}

/// The function of two numbers.
fn combined(func: Func, a: i64, b: i64) -> i64
    ensures { result ≡ functions.combine_of func a b }
{
    match func {
        Func::Max => a.max(b),
        Func::Min => a.min(b),
        _ => wrapping_sum(a, b),
    }
}

/// The sum, which wraps in 64 bits.
fn wrapping_sum(a: i64, b: i64) -> i64
    ensures { result ≡ functions.wrapping_sum a b }
{
    a.wrapping_add(b)
}

/// The tally of two parts.
pub(crate) fn joined(func: Func, a: Tally, b: Tally) -> Tally
    ensures { result ≡ tallies.joined func a b }
{
    match (a, b) {
        (Tally::Nothing, b) => b,
        (a, Tally::Nothing) => a,
        (Tally::Number(a), Tally::Number(b)) => Tally::Number(combined(func, a, b)),
        _ => Tally::WrongKind,
    }
}

/// The tally of one value.
pub(crate) fn tally_of(value: &Value) -> Tally
    ensures { result ≡ tallies.tally_of value.now }
{
    match value {
        Value::Int(number) => Tally::Number(*number),
        Value::Text(_) => Tally::WrongKind,
    }
}

/// The tally of the entries, by one thread.
fn tally_in_one(func: Func, entries: &[(Key, Value)]) -> Tally
    ensures { result ≡ tallies.tally_of_entries func entries.now }
{
    let mut tally = Tally::Nothing;
    for entry in entries {
        tally = joined(func, tally, tally_of(&entry.1));
    }
    tally
}

/// The same tally, by as many threads as there are processors.
fn tally_in_many(rt: &(impl Threads + Sync), func: Func, entries: &[(Key, Value)]) -> Tally
    ensures { result ≡ tallies.tally_of_entries func entries.now }
{
    entries
        .par_iter()
        .map(
            |entry: &(Key, Value)| -> Tally
                ensures { result ≡ tallies.tally_of entry.now.1 }
            { tally_of(&entry.1) },
        )
        .reduce(
            rt,
            || -> Tally
                ensures { result ≡ tallies.Nothing }
            { Tally::Nothing },
            |a: Tally, b: Tally| -> Tally
                ensures { result ≡ tallies.joined func a b }
            { joined(func, a, b) },
        )
}

/// The tally of the entries, by one thread if there are fewer than the threshold.
pub(crate) fn tally_of_all(
    rt: &(impl Threads + Sync),
    func: Func,
    entries: &[(Key, Value)],
    threshold: u64,
) -> Tally
    ensures { result ≡ tallies.tally_of_entries func entries.now }
{
    if (entries.len() as u64) < threshold {
        tally_in_one(func, entries)
    } else {
        tally_in_many(rt, func, entries)
    }
}

/// Whether values are folded by the function.
pub(crate) fn can_reduce(func: Func) -> bool
    ensures yes { result ≡ true → IsReducing func }
    ensures no { result ≡ false → IsReducing func → ⊥ }
{
    match func {
        Func::Sum | Func::Max | Func::Min => true,
        _ => false,
    }
}
