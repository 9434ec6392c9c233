//! The words of a call: a method, its key, and what else it takes.
ghost use Rattle.std.specs.Prelude.{◌≡◌, map};
ghost use Rattle.call_text.specs.Values.{Gives};
ghost use Rattle.call_text.specs.Calls.{parse_call, asked_of, change_of, func_and_argument, func_and_value, func_of, key_of, no_word, one_value, question_of, two_values};

use crate::bad_word::{BadWord, CallError};
use crate::names::{ChangeMethod, Method, ReadMethod, func_named};
use crate::values::{argument_of, value_of};
use map_types::{Change, Command, Func, Key, Question, Read, Refusal, Value};
use std::alloc::Global;

/// What a call asks of the map.
#[derive(Clone, Debug, Drop, PartialEq, Eq)]
pub enum Asked {
    Change(Command),
    Read(Read),
}

/// The key of a word.
fn key_of(alloc: Global, word: &str) -> Result<Key, CallError>
    ensures { Gives (λ key. key) result (key_of word.now) }
{
    match Key::new(alloc, word) {
        Ok(key) => Ok(key),
        Err(Refusal::KeyTooLong) => Err(CallError::Bad(BadWord::KeyTooLong)),
        Err(_) => Err(CallError::NoMemory),
    }
}

/// The function of a word.
pub(crate) fn func_of(word: &str) -> Result<Func, CallError>
    ensures { Gives (λ func. func) result (func_of word.now) }
{
    match func_named(word) {
        Some(func) => Ok(func),
        None => Err(CallError::Bad(BadWord::Function)),
    }
}

/// No more words.
pub(crate) fn no_word(words: &[&str]) -> Result<(), CallError>
    ensures { Gives (λ none. none) result (no_word (map (λ word. word.now) words.now)) }
{
    if words.is_empty() {
        Ok(())
    } else {
        Err(CallError::Bad(BadWord::Count))
    }
}

/// One value.
#[tactic(auto, unfolding(crate::specs::Calls::one_value))]
fn one_value(alloc: Global, words: &[&str]) -> Result<Value, CallError>
    ensures { Gives (λ value. value) result (one_value (map (λ word. word.now) words.now)) }
{
    match words {
        [word] => value_of(alloc, word),
        _ => Err(CallError::Bad(BadWord::Count)),
    }
}

/// Two values.
#[tactic(auto, unfolding(crate::specs::Calls::two_values))]
fn two_values(alloc: Global, words: &[&str]) -> Result<(Value, Value), CallError>
    ensures { Gives (λ values. values) result (two_values (map (λ word. word.now) words.now)) }
{
    match words {
        [first, second] => {
            let old = value_of(alloc, first)?;
            let new = value_of(alloc, second)?;
            Ok((old, new))
        }
        _ => Err(CallError::Bad(BadWord::Count)),
    }
}

/// A function and its argument.
#[tactic(auto, unfolding(crate::specs::Calls::func_and_argument))]
fn func_and_argument(alloc: Global, words: &[&str]) -> Result<(Func, Option<Value>), CallError>
    ensures { Gives (λ found. found) result (func_and_argument (map (λ word. word.now) words.now)) }
{
    match words {
        [first, second] => {
            let func = func_of(first)?;
            let argument = argument_of(alloc, second)?;
            Ok((func, argument))
        }
        _ => Err(CallError::Bad(BadWord::Count)),
    }
}

/// A function and a value.
#[tactic(auto, unfolding(crate::specs::Calls::func_and_value))]
fn func_and_value(alloc: Global, words: &[&str]) -> Result<(Func, Value), CallError>
    ensures { Gives (λ found. found) result (func_and_value (map (λ word. word.now) words.now)) }
{
    match words {
        [first, second] => {
            let func = func_of(first)?;
            let value = value_of(alloc, second)?;
            Ok((func, value))
        }
        _ => Err(CallError::Bad(BadWord::Count)),
    }
}

/// The question of a method, whose words behind the key are these.
#[tactic(auto, unfolding(crate::specs::Calls::question_of))]
fn question_of(alloc: Global, method: ReadMethod, words: &[&str]) -> Result<Question, CallError>
    ensures { Gives (λ question. question) result
        (question_of method (map (λ word. word.now) words.now)) }
{
    match method {
        ReadMethod::Get => {
            no_word(words)?;
            Ok(Question::Get)
        }
        ReadMethod::GetOrDefault => Ok(Question::GetOrDefault(one_value(alloc, words)?)),
        ReadMethod::ContainsKey => {
            no_word(words)?;
            Ok(Question::ContainsKey)
        }
    }
}

/// The change of a method, whose words behind the key are these.
#[tactic(auto, unfolding(crate::specs::Calls::change_of))]
fn change_of(alloc: Global, method: ChangeMethod, words: &[&str]) -> Result<Change, CallError>
    ensures { Gives (λ change. change) result
        (change_of method (map (λ word. word.now) words.now)) }
{
    match method {
        ChangeMethod::Put => Ok(Change::Put(one_value(alloc, words)?)),
        ChangeMethod::PutIfAbsent => Ok(Change::PutIfAbsent(one_value(alloc, words)?)),
        ChangeMethod::Remove => {
            no_word(words)?;
            Ok(Change::Remove)
        }
        ChangeMethod::RemoveIf => Ok(Change::RemoveIf(one_value(alloc, words)?)),
        ChangeMethod::Replace => Ok(Change::Replace(one_value(alloc, words)?)),
        ChangeMethod::ReplaceIf => {
            let (old, new) = two_values(alloc, words)?;
            Ok(Change::ReplaceIf { old, new })
        }
        ChangeMethod::Compute => {
            let (func, argument) = func_and_argument(alloc, words)?;
            Ok(Change::Compute(func, argument))
        }
        ChangeMethod::ComputeIfAbsent => {
            let (func, argument) = func_and_argument(alloc, words)?;
            Ok(Change::ComputeIfAbsent(func, argument))
        }
        ChangeMethod::ComputeIfPresent => {
            let (func, argument) = func_and_argument(alloc, words)?;
            Ok(Change::ComputeIfPresent(func, argument))
        }
        ChangeMethod::Merge => {
            let (func, value) = func_and_value(alloc, words)?;
            Ok(Change::Merge(func, value))
        }
    }
}

/// What a method asks of a key, with these words behind it.
#[tactic(auto, unfolding(crate::specs::Calls::asked_of))]
fn asked_of(alloc: Global, method: Method, key: Key, words: &[&str]) -> Result<Asked, CallError>
    ensures { Gives (λ asked. asked) result
        (asked_of method key (map (λ word. word.now) words.now)) }
{
    match method {
        Method::Read(method) => {
            let question = question_of(alloc, method, words)?;
            Ok(Asked::Read(Read { key, question }))
        }
        Method::Change(method) => {
            let change = change_of(alloc, method, words)?;
            Ok(Asked::Change(Command { key, change }))
        }
    }
}

/// What the words ask: a method, its key, and what else it takes; else what is wrong with the first
/// bad word.
#[tactic(auto, unfolding(crate::specs::Calls::parse_call))]
pub fn parse_call(alloc: Global, words: &[&str]) -> Result<Asked, CallError>
    ensures { Gives (λ asked. asked) result (parse_call (map (λ word. word.now) words.now)) }
{
    let Some((name, words)) = words.split_first() else {
        return Err(CallError::Bad(BadWord::Method));
    };
    let Some(method) = Method::named(name) else {
        return Err(CallError::Bad(BadWord::Method));
    };
    let Some((word, words)) = words.split_first() else {
        return Err(CallError::Bad(BadWord::Count));
    };
    let key = key_of(alloc, word)?;
    asked_of(alloc, method, key, words)
}
