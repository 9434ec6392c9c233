//! Records and their fields out of bytes, from left to right. Each reader gives what it read and
//! the bytes behind it, or the refusal that it meets first: `BadFrame` if bytes are missing, and
//! the ones that it names.
ghost use Rattle.std.specs.Prelude.{◌≡◌, ◌≤◌, ◌⊎◌, ◌++◌, ℕ, List, Ok, Err, length, take, IfOk, IfErr, MatchResult};
ghost use Rattle.map_types.specs.declared.commands.Command.{Command};
ghost use Rattle.map_types.specs.declared.refusals.Refusal.TheVariants.{NoMemory};
ghost use Rattle.log_records.specs.Layout.{layout_of};
ghost use Rattle.log_records.specs.Spelling.{IsRecord};
ghost use Rattle.log_records.specs.Reading.{Reads, Gives, utf8_of, number_at, text_at, sized_at, key_at, int_at, value_at, some_value_at, both_at, func_at, method_at, change_at, record_at, IsRecordRefusal};

use crate::methods::Method;
use crate::versions::Version;
use byteorder::{BigEndian, ByteOrder};
use map_types::{Change, Command, Func, Key, Refusal, Text, Value};
use std::alloc::Global;

/// How many bytes a number with its sign takes: it has 64 bits.
pub(crate) const INT_WIDTH: usize = 8;

/// How many bytes the length of a text takes.
pub(crate) const TEXT_WIDTH: usize = 2;

/// The number in the first `width` bytes, of which the first is the highest.
#[tactic(auto, unfolding(crate::specs::Reading::number_at))]
pub fn number_at(width: usize, bytes: &[u8]) -> Result<(u64, &[u8]), Refusal>
    requires low { 1 ≤ width }
    requires high { width ≤ 8 }
    ensures { Reads (λ x. (x.0, x.1.now)) result (number_at width bytes.now) }
{
    if bytes.len() < width {
        return Err(Refusal::BadFrame);
    }
    let number = BigEndian::read_uint(bytes, width);
    let (_, rest) = bytes.split_at(width);
    Ok((number, rest))
}

/// The bytes as a text; `NotText` if they aren't UTF-8.
fn utf8_of(bytes: &[u8]) -> Result<&str, Refusal>
    ensures { Reads (λ text. text.now) result (utf8_of bytes.now) }
{
    match str::from_utf8(bytes) {
        Ok(text) => Ok(text),
        Err(_) => Err(Refusal::NotText),
    }
}

/// A text of `len` bytes.
#[tactic(auto, unfolding(crate::specs::Reading::text_at))]
fn text_at(len: usize, bytes: &[u8]) -> Result<(&str, &[u8]), Refusal>
    ensures exact { Reads (λ x. (x.0.now, x.1.now)) result (text_at len bytes.now) }
    ensures len { IfOk result (λ x. length x.0.now ≡ len) }
{
    if bytes.len() < len {
        return Err(Refusal::BadFrame);
    }
    let (front, rest) = bytes.split_at(len);
    let text = utf8_of(front)?;
    Ok((text, rest))
}

/// A text behind its length of `width` bytes. A length above `most` is refused as `too_long` before the text is
/// looked at.
#[tactic(auto, unfolding(crate::specs::Reading::sized_at))]
fn sized_at(
    width: usize,
    most: usize,
    too_long: Refusal,
    bytes: &[u8],
) -> Result<(&str, &[u8]), Refusal>
    requires low { 1 ≤ width }
    requires high { width ≤ 8 }
    ensures exact { Reads (λ x. (x.0.now, x.1.now)) result
        (sized_at width most too_long bytes.now) }
    ensures short { IfOk result (λ x. length x.0.now ≤ most) }
{
    let (len, rest) = number_at(width, bytes)?;
    if len > most as u64 {
        return Err(too_long);
    }
    text_at(len as usize, rest)
}

/// A key.
#[tactic(auto, unfolding(crate::specs::Reading::key_at))]
pub fn key_at(version: Version, alloc: Global, bytes: &[u8]) -> Result<(Key, &[u8]), Refusal>
    ensures { Gives (λ x. (x.0, x.1.now)) result (key_at (layout_of version) bytes.now) }
{
    let width = version.key_width();
    let most = version.key_limit() as usize;
    let (text, rest) = sized_at(width, most, Refusal::KeyTooLong, bytes)?;
    let key = Key::new(alloc, text)?;
    Ok((key, rest))
}

/// A number with its sign, in eight bytes of two's complement.
#[tactic(auto, unfolding(crate::specs::Reading::int_at))]
fn int_at(bytes: &[u8]) -> Result<(i64, &[u8]), Refusal>
    ensures { Reads (λ x. (x.0, x.1.now)) result (int_at bytes.now) }
{
    let (bits, rest) = number_at(INT_WIDTH, bytes)?;
    Ok((bits.cast_signed(), rest))
}

/// A value, or absent.
#[tactic(auto, unfolding(crate::specs::Reading::value_at))]
pub fn value_at(alloc: Global, bytes: &[u8]) -> Result<(Option<Value>, &[u8]), Refusal>
    ensures { Gives (λ x. (x.0, x.1.now)) result (value_at bytes.now) }
{
    match bytes {
        [] => Err(Refusal::BadFrame),
        [0, rest @ ..] => Ok((None, rest)),
        [1, rest @ ..] => {
            let (number, rest) = int_at(rest)?;
            Ok((Some(Value::Int(number)), rest))
        }
        [2, rest @ ..] => {
            let (text, rest) = sized_at(TEXT_WIDTH, Text::MOST_BYTES, Refusal::ValueTooLong, rest)?;
            let text = Text::new(alloc, text)?;
            Ok((Some(Value::Text(text)), rest))
        }
        [_, ..] => Err(Refusal::BadFrame),
    }
}

/// A value; `NullValue` if it is absent.
#[tactic(auto, unfolding(crate::specs::Reading::some_value_at))]
pub fn some_value_at(alloc: Global, bytes: &[u8]) -> Result<(Value, &[u8]), Refusal>
    ensures { Gives (λ x. (x.0, x.1.now)) result (some_value_at bytes.now) }
{
    let (value, rest) = value_at(alloc, bytes)?;
    match value {
        None => Err(Refusal::NullValue),
        Some(value) => Ok((value, rest)),
    }
}

/// A function by its number; `UnknownFunction` if none has it.
#[tactic(auto, unfolding(crate::specs::Reading::numbered_at))]
pub fn func_at(bytes: &[u8]) -> Result<(Func, &[u8]), Refusal>
    ensures { Reads (λ x. (x.0, x.1.now)) result (func_at bytes.now) }
{
    let Some((number, rest)) = bytes.split_first() else {
        return Err(Refusal::BadFrame);
    };
    match Func::of(*number) {
        None => Err(Refusal::UnknownFunction),
        Some(func) => Ok((func, rest)),
    }
}

/// A method that changes the map, by its number; `UnknownMethod` if none has it.
#[tactic(auto, unfolding(crate::specs::Reading::numbered_at))]
fn method_at(bytes: &[u8]) -> Result<(Method, &[u8]), Refusal>
    ensures { Reads (λ x. (x.0, x.1.now)) result (method_at bytes.now) }
{
    let Some((number, rest)) = bytes.split_first() else {
        return Err(Refusal::BadFrame);
    };
    match Method::with_number(*number) {
        None => Err(Refusal::UnknownMethod),
        Some(method) => Ok((method, rest)),
    }
}

/// A function and its argument, which may be absent.
fn call_at(alloc: Global, bytes: &[u8]) -> Result<(Func, Option<Value>, &[u8]), Refusal>
    ensures { Gives (λ x. ((x.0, x.1), x.2.now)) result (both_at func_at value_at bytes.now) }
{
    let (func, rest) = func_at(bytes)?;
    let (argument, rest) = value_at(alloc, rest)?;
    Ok((func, argument, rest))
}

/// The arguments of a method.
#[tactic(auto, unfolding(crate::specs::Reading::change_at))]
fn change_at(alloc: Global, method: Method, bytes: &[u8]) -> Result<(Change, &[u8]), Refusal>
    ensures { Gives (λ x. (x.0, x.1.now)) result (change_at method bytes.now) }
{
    match method {
        Method::Put => {
            let (value, rest) = some_value_at(alloc, bytes)?;
            Ok((Change::Put(value), rest))
        }
        Method::PutIfAbsent => {
            let (value, rest) = some_value_at(alloc, bytes)?;
            Ok((Change::PutIfAbsent(value), rest))
        }
        Method::Remove => Ok((Change::Remove, bytes)),
        Method::RemoveIf => {
            let (value, rest) = some_value_at(alloc, bytes)?;
            Ok((Change::RemoveIf(value), rest))
        }
        Method::Replace => {
            let (value, rest) = some_value_at(alloc, bytes)?;
            Ok((Change::Replace(value), rest))
        }
        Method::ReplaceIf => {
            let (old, rest) = some_value_at(alloc, bytes)?;
            let (new, rest) = some_value_at(alloc, rest)?;
            Ok((Change::ReplaceIf { old, new }, rest))
        }
        Method::Compute => {
            let (func, argument, rest) = call_at(alloc, bytes)?;
            Ok((Change::Compute(func, argument), rest))
        }
        Method::ComputeIfAbsent => {
            let (func, argument, rest) = call_at(alloc, bytes)?;
            Ok((Change::ComputeIfAbsent(func, argument), rest))
        }
        Method::ComputeIfPresent => {
            let (func, argument, rest) = call_at(alloc, bytes)?;
            Ok((Change::ComputeIfPresent(func, argument), rest))
        }
        Method::Merge => {
            let (func, rest) = func_at(bytes)?;
            let (value, rest) = some_value_at(alloc, rest)?;
            Ok((Change::Merge(func, value), rest))
        }
    }
}

/// A record at the front.
#[tactic(auto, unfolding(crate::specs::Reading::record_at))]
pub fn record_at(version: Version, alloc: Global, bytes: &[u8]) -> Result<(Command, &[u8]), Refusal>
    ensures { Gives (λ x. (x.0, x.1.now)) result (record_at (layout_of version) bytes.now) }
{
    let (method, rest) = method_at(bytes)?;
    let (key, rest) = key_at(version, alloc, rest)?;
    let (change, rest) = change_at(alloc, method, rest)?;
    Ok((Command { key, change }, rest))
}

/// The record at the front of the bytes, and how many bytes it takes. What follows is left.
pub fn decode(version: Version, alloc: Global, bytes: &[u8]) -> Result<(Command, usize), Refusal>
    // What is read is spelled so.
    ensures found { IfOk result (λ x. IsRecord (layout_of version) (take x.1 bytes.now) x.0
        × (x.1 ≤ length bytes.now)) }
    // What is spelled so at the front is read, unless memory runs out.
    ensures only { (front rest : List ℕ) (command : Command)
        → IsRecord (layout_of version) front command
        → bytes.now ≡ front ++ rest
        → MatchResult result (λ x. (x.0 ≡ command) × (x.1 ≡ length front)) (λ refusal.
        refusal ≡ NoMemory) }
    // The refusal is the first from left to right.
    ensures refused { IfErr result (λ refusal. (refusal ≡ NoMemory)
        ⊎ (record_at (layout_of version) bytes.now ≡ Err refusal)) }
    ensures kinds { IfErr result (IsRecordRefusal (layout_of version)) }
{
    let (command, rest) = record_at(version, alloc, bytes)?;
    let used = bytes.len() - rest.len();
    Ok((command, used))
}
