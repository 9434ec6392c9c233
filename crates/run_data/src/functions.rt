//! The named functions.
use call_text::{Asked, argument_of, parse_call, value_word};
use map_types::{Change, Command, Func, FuncError, Refusal, Value};
use named_functions::apply;
use std::alloc::{AllocError, Global};

fn function_in(change: Change) -> Result<(Func, Option<Value>), Refusal> {
    match change {
        Change::Compute(func, argument) => Ok((func, argument)),
        _ => Err(Refusal::WrongPhase),
    }
}

/// The function of this name, and its argument.
fn function_of<'x>(
    alloc: Global,
    name: &'x str,
    argument: &'x str,
) -> Result<(Func, Option<Value>), Refusal> {
    match parse_call(alloc, &["compute", "", name, argument]) {
        Ok(Asked::Change(command)) => {
            let Command { change, .. } = command;
            function_in(change)
        }
        _ => Err(Refusal::WrongPhase),
    }
}

fn applied_text(
    alloc: Global,
    applied: &Result<Option<Value>, FuncError>,
) -> Result<String, AllocError> {
    match applied {
        Ok(value) => value_word(alloc, value),
        Err(fault) => format!(in alloc; "fault {fault}"),
    }
}

fn apply_to(
    alloc: Global,
    func: Func,
    old: &Option<Value>,
    argument: &Option<Value>,
) -> Result<String, Refusal> {
    let applied = apply(alloc, func, old.as_ref(), argument.as_ref())?;
    Ok(applied_text(alloc, &applied)?)
}

/// What a function gives of an old value and an argument.
pub(crate) fn applied(alloc: Global, words: &[&str]) -> Result<String, Refusal> {
    let [name, old, argument] = words else {
        return Err(Refusal::WrongPhase);
    };
    let (func, argument) = function_of(alloc, name, argument)?;
    match argument_of(alloc, old) {
        Ok(old) => apply_to(alloc, func, &old, &argument),
        Err(_) => Err(Refusal::WrongPhase),
    }
}
