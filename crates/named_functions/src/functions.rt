//! The nine named functions of an old value and an argument.
ghost use Rattle.std.specs.Prelude.{◌≡◌, ◌++◌, ◌+ℤ◌, IfOk, IfErr, Ok, Err};
ghost use Rattle.std.specs.Option.{option_copied};
ghost use Rattle.named_functions.specs.Functions as functions;

use map_types::{Func, FuncError, Refusal, Text, Value};
use std::alloc::Global;

/// A copy of a value that may be absent. Refuses with `NoMemory` alone.
pub fn copied(value: Option<&Value>) -> Result<Option<Value>, Refusal>
    ensures ok { IfOk result (λ copy. copy ≡ option_copied value.entry) }
    ensures err { IfErr result (λ refusal. refusal ≡ Refusal.NoMemory) }
{
    match value {
        None => Ok(None),
        Some(value) => Ok(Some(value.clone()?)),
    }
}

/// What the function gives for the old value and the argument, or its fault. Refuses with `NoMemory`
/// alone. The sums, the greater and the lesser are those of Java's `Long`, the exact sum is that of its
/// `Math.addExact`, and a text is joined as by its `String.concat`.
pub fn apply(
    alloc: Global,
    func: Func,
    old: Option<&Value>,
    arg: Option<&Value>,
) -> Result<Result<Option<Value>, FuncError>, Refusal>
    ensures ok { IfOk result (λ applied.
        applied ≡ functions.apply func (option_copied old.entry) (option_copied arg.entry)) }
    ensures err { IfErr result (λ refusal. refusal ≡ Refusal.NoMemory) }
{
    match func {
        Func::Const => Ok(Ok(copied(arg)?)),
        Func::Drop => Ok(Ok(None)),
        Func::Keep => Ok(Ok(copied(old)?)),
        Func::Concat => on_texts(alloc, old, arg),
        Func::Sum => Ok(on_numbers(Func::Sum, old, arg)),
        Func::Max => Ok(on_numbers(Func::Max, old, arg)),
        Func::Min => Ok(on_numbers(Func::Min, old, arg)),
        Func::SumNonzero => Ok(on_numbers(Func::SumNonzero, old, arg)),
        Func::SumExact => Ok(on_exact_numbers(old, arg)),
    }
}

fn on_numbers(
    func: Func,
    old: Option<&Value>,
    arg: Option<&Value>,
) -> Result<Option<Value>, FuncError>
    ensures { result ≡ functions.on_numbers (functions.combine_of func) (functions.keep_of func)
        (option_copied old.entry) (option_copied arg.entry) }
{
    match (old, arg) {
        (None, Some(Value::Int(arg))) => Ok(kept(func, *arg)),
        (Some(Value::Int(old)), Some(Value::Int(arg))) => Ok(kept(
            func,
            combined(func, *old, *arg),
        )),
        _ => Err(FuncError::WrongKind),
    }
}

fn combined(func: Func, old: i64, arg: i64) -> i64
    ensures { result ≡ functions.combine_of func old arg }
{
    match func {
        Func::Max => old.max(arg),
        Func::Min => old.min(arg),
        _ => wrapping_sum(old, arg),
    }
}

fn wrapping_sum(old: i64, arg: i64) -> i64
    ensures { result ≡ functions.wrapping_sum old arg }
{
    old.wrapping_add(arg)
}

fn kept(func: Func, number: i64) -> Option<Value>
    ensures { result ≡ functions.keep_of func number }
{
    match func {
        Func::SumNonzero if number == 0 => None,
        _ => Some(Value::Int(number)),
    }
}

fn on_exact_numbers(old: Option<&Value>, arg: Option<&Value>) -> Result<Option<Value>, FuncError>
    ensures { result ≡ functions.on_exact_numbers
        (option_copied old.entry) (option_copied arg.entry) }
{
    match (old, arg) {
        (None, Some(Value::Int(arg))) => Ok(Some(Value::Int(*arg))),
        (Some(Value::Int(old)), Some(Value::Int(arg))) => exact_sum(*old, *arg),
        _ => Err(FuncError::WrongKind),
    }
}

fn exact_sum(old: i64, arg: i64) -> Result<Option<Value>, FuncError>
    ensures { result ≡ functions.exact_number (old +ℤ arg) }
{
    match old.checked_add(arg) {
        Some(sum) => Ok(Some(Value::Int(sum))),
        None => Err(FuncError::Overflow),
    }
}

fn on_texts(
    alloc: Global,
    old: Option<&Value>,
    arg: Option<&Value>,
) -> Result<Result<Option<Value>, FuncError>, Refusal>
    ensures ok { IfOk result (λ applied.
        applied ≡ functions.on_texts (option_copied old.entry) (option_copied arg.entry)) }
    ensures err { IfErr result (λ refusal. refusal ≡ Refusal.NoMemory) }
{
    match (old, arg) {
        (None, Some(Value::Text(arg))) => Ok(Ok(Some(Value::Text(arg.clone()?)))),
        (Some(Value::Text(old)), Some(Value::Text(arg))) => joined(alloc, old, arg),
        _ => Ok(Err(FuncError::WrongKind)),
    }
}

fn joined(
    alloc: Global,
    old: &Text,
    arg: &Text,
) -> Result<Result<Option<Value>, FuncError>, Refusal>
    ensures ok { IfOk result (λ applied. applied ≡ functions.bounded_text (old.now ++ arg.now)) }
    ensures err { IfErr result (λ refusal. refusal ≡ Refusal.NoMemory) }
{
    if old.as_str().len() + arg.as_str().len() > Text::MOST_BYTES {
        return Ok(Err(FuncError::TooLong));
    }
    Ok(Ok(Some(Value::Text(old.followed_by(alloc, arg)?))))
}
