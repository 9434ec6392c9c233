//! The words of all calls: a call of a key, or one of the whole map.
ghost use Rattle.std.specs.Prelude.{◌≡◌, map};
ghost use Rattle.call_text.specs.Values.{Gives};
ghost use Rattle.call_text.specs.Whole.{bulk_of, parse_words, reduce_of, reduces, reducing_of, search_of, threshold_of, unsigned_of};

use crate::asked::{Asked, func_of, no_word, parse_call};
use crate::bad_word::{BadWord, CallError};
use crate::names::BulkMethod;
use crate::values::value_of;
use map_types::{Func, Value};
use std::alloc::Global;

/// What a call asks. The number is a threshold: on a map with fewer entries one thread works.
#[derive(Clone, Debug, Drop, PartialEq, Eq)]
pub enum Called {
    /// A change of a key, or a question about it.
    Keyed(Asked),
    /// The count of the entries.
    Count,
    /// The values, folded by the function.
    Reduce(Func, u64),
    /// The least key with this value.
    Search(u64, Value),
}

/// The number of a decimal, as Rust reads a `u64`.
fn unsigned_of(word: &str) -> Option<u64>
    ensures { result ≡ unsigned_of word.now }
{
    word.parse::<u64>().ok()
}

/// The threshold of a word.
fn threshold_of(word: &str) -> Result<u64, CallError>
    ensures { Gives (λ threshold. threshold) result (threshold_of word.now) }
{
    match unsigned_of(word) {
        Some(threshold) => Ok(threshold),
        None => Err(CallError::Bad(BadWord::Threshold)),
    }
}

/// Whether a map is reduced by the function.
fn reduces(func: Func) -> bool
    ensures { result ≡ reduces func }
{
    matches!(func, Func::Sum | Func::Max | Func::Min)
}

/// The function of a word, if a map is reduced by it.
#[tactic(auto, unfolding(crate::specs::Whole::reducing_of))]
fn reducing_of(word: &str) -> Result<Func, CallError>
    ensures { Gives (λ func. func) result (reducing_of word.now) }
{
    let func = func_of(word)?;
    if !reduces(func) {
        return Err(CallError::Bad(BadWord::Function));
    }
    Ok(func)
}

/// A function and a threshold.
#[tactic(auto, unfolding(crate::specs::Whole::reduce_of))]
fn reduce_of(words: &[&str]) -> Result<Called, CallError>
    ensures { Gives (λ called. called) result (reduce_of (map (λ word. word.now) words.now)) }
{
    match words {
        [first, second] => {
            let func = reducing_of(first)?;
            let threshold = threshold_of(second)?;
            Ok(Called::Reduce(func, threshold))
        }
        _ => Err(CallError::Bad(BadWord::Count)),
    }
}

/// A threshold and a value.
#[tactic(auto, unfolding(crate::specs::Whole::search_of))]
fn search_of(alloc: Global, words: &[&str]) -> Result<Called, CallError>
    ensures { Gives (λ called. called) result (search_of (map (λ word. word.now) words.now)) }
{
    match words {
        [first, second] => {
            let threshold = threshold_of(first)?;
            let value = value_of(alloc, second)?;
            Ok(Called::Search(threshold, value))
        }
        _ => Err(CallError::Bad(BadWord::Count)),
    }
}

/// The call of a method of the whole map, whose words behind the method are these.
#[tactic(auto, unfolding(crate::specs::Whole::bulk_of))]
fn bulk_of(alloc: Global, method: BulkMethod, words: &[&str]) -> Result<Called, CallError>
    ensures { Gives (λ called. called) result (bulk_of method (map (λ word. word.now) words.now)) }
{
    match method {
        BulkMethod::Count => {
            no_word(words)?;
            Ok(Called::Count)
        }
        BulkMethod::Reduce => reduce_of(words),
        BulkMethod::Search => search_of(alloc, words),
    }
}

/// What the words of a call ask: `count`, `reduce` with a function and a threshold, `search` with a
/// threshold and a value, or the words of a call of a key; else what is wrong with the first bad
/// word.
#[tactic(auto, unfolding(crate::specs::Whole::parse_words))]
pub fn parse_words(alloc: Global, words: &[&str]) -> Result<Called, CallError>
    ensures { Gives (λ called. called) result (parse_words (map (λ word. word.now) words.now)) }
{
    let Some((name, rest)) = words.split_first() else {
        return Err(CallError::Bad(BadWord::Method));
    };
    match BulkMethod::named(name) {
        Some(method) => bulk_of(alloc, method, rest),
        None => {
            let asked = parse_call(alloc, words)?;
            Ok(Called::Keyed(asked))
        }
    }
}
