//! Records and their fields as bytes. Each writer puts the one spelling at the end of a vector, by
//! the vector's own allocator. If that finds no memory, the vector's bytes stay as they were.
ghost use Rattle.std.specs.Prelude.{◌≡◌, ◌≤◌, ◌<◌, ◌^◌, ◌++◌, ◌∷◌, length, take, OnOk, OnErr, IfErr, Some};
ghost use Rattle.byteorder.specs.Endian.{big_bytes};
ghost use Rattle.map_types.specs.Numbers.{func_number};
ghost use Rattle.map_types.specs.declared.refusals.Refusal.TheVariants.{NoMemory};
ghost use Rattle.log_records.specs.Layout.{layout_of};
ghost use Rattle.log_records.specs.Spelling.{IsText, IsValue, IsArgument, IsChange, IsCommand, sized_bytes, key_bytes, value_bytes, argument_bytes, record_bytes};

use crate::methods::Method;
use crate::reading::{INT_WIDTH, TEXT_WIDTH};
use crate::versions::Version;
use byteorder::{BigEndian, ByteOrder};
use map_types::{Change, Command, Func, Key, Refusal, Value};
use std::alloc::AllocError;

/// Puts a number of `width` bytes at the end, the highest byte first.
pub fn put_number(width: usize, number: u64, out: &mut Vec<u8>) -> Result<(), AllocError>
    requires low { 1 ≤ width }
    requires high { width ≤ 8 }
    requires fits { number < 256 ^ width }
    ensures ok { OnOk result (out.new.items ≡ out.old.items ++ big_bytes width number) }
    ensures err { OnErr result (out.new.items ≡ out.old.items) }
{
    let mut bytes = [0; 8];
    BigEndian::write_uint(&mut bytes, number, width);
    out.extend_from_slice(&bytes[..width])
}

/// Puts a text behind its length of `width` bytes at the end, or some of that if no memory is
/// found.
fn append_sized(width: usize, text: &str, out: &mut Vec<u8>) -> Result<(), AllocError>
    requires low { 1 ≤ width }
    requires high { width ≤ 8 }
    requires fits { length text.now < 256 ^ width }
    ensures ok { OnOk result (out.new.items ≡ out.old.items ++ sized_bytes width text.now) }
    ensures err { OnErr result (take (length out.old.items) out.new.items ≡ out.old.items) }
{
    put_number(width, text.len() as u64, out)?;
    out.extend_from_slice(text.as_bytes())
}

/// Puts a value at the end, or some of it if no memory is found.
fn append_value(value: &Value, out: &mut Vec<u8>) -> Result<(), AllocError>
    ensures ok { OnOk result (out.new.items ≡ out.old.items ++ value_bytes (Some value.now)) }
    ensures fits { OnOk result (IsValue value.now) }
    ensures err { OnErr result (take (length out.old.items) out.new.items ≡ out.old.items) }
{
    match value {
        Value::Int(number) => {
            out.push(1)?;
            put_number(INT_WIDTH, number.cast_unsigned(), out)
        }
        Value::Text(text) => {
            out.push(2)?;
            append_sized(TEXT_WIDTH, text.as_str(), out)
        }
    }
}

/// Puts a value or absent at the end, or some of it if no memory is found.
fn append_argument(argument: &Option<Value>, out: &mut Vec<u8>) -> Result<(), AllocError>
    ensures ok { OnOk result (out.new.items ≡ out.old.items ++ value_bytes argument.now) }
    ensures fits { OnOk result (IsArgument argument.now) }
    ensures err { OnErr result (take (length out.old.items) out.new.items ≡ out.old.items) }
{
    match argument {
        None => Ok(out.push(0)?),
        Some(value) => append_value(value, out),
    }
}

/// Puts a function and its argument at the end, or some of that if no memory is found.
fn append_call(func: Func, argument: &Option<Value>, out: &mut Vec<u8>) -> Result<(), AllocError>
    ensures ok { OnOk result
        (out.new.items ≡ out.old.items ++ (func_number func ∷ value_bytes argument.now)) }
    ensures fits { OnOk result (IsArgument argument.now) }
    ensures err { OnErr result (take (length out.old.items) out.new.items ≡ out.old.items) }
{
    out.push(func.number())?;
    append_argument(argument, out)
}

/// Puts a change's arguments at the end, or some of them if no memory is found.
fn append_arguments(change: &Change, out: &mut Vec<u8>) -> Result<(), AllocError>
    ensures ok { OnOk result (out.new.items ≡ out.old.items ++ argument_bytes change.now) }
    ensures fits { OnOk result (IsChange change.now) }
    ensures err { OnErr result (take (length out.old.items) out.new.items ≡ out.old.items) }
{
    match change {
        Change::Put(value) => append_value(value, out),
        Change::PutIfAbsent(value) => append_value(value, out),
        Change::Remove => Ok(()),
        Change::RemoveIf(value) => append_value(value, out),
        Change::Replace(value) => append_value(value, out),
        Change::ReplaceIf { old, new } => {
            append_value(old, out)?;
            append_value(new, out)
        }
        Change::Compute(func, argument) => append_call(*func, argument, out),
        Change::ComputeIfAbsent(func, argument) => append_call(*func, argument, out),
        Change::ComputeIfPresent(func, argument) => append_call(*func, argument, out),
        Change::Merge(func, value) => {
            out.push(func.number())?;
            append_value(value, out)
        }
    }
}

/// Puts a key at the end, or some of it if no memory is found.
fn append_key(version: Version, key: &Key, out: &mut Vec<u8>) -> Result<(), AllocError>
    requires within { length key.now ≤ (layout_of version).key_limit }
    ensures ok { OnOk result
        (out.new.items ≡ out.old.items ++ key_bytes (layout_of version) key.now) }
    ensures fits { OnOk result (IsText (layout_of version).key_limit key.now) }
    ensures err { OnErr result (take (length out.old.items) out.new.items ≡ out.old.items) }
{
    append_sized(version.key_width(), key.as_str(), out)
}

/// Puts a record at the end, or some of it if no memory is found.
fn append_record(version: Version, command: &Command, out: &mut Vec<u8>) -> Result<(), AllocError>
    requires within { length command.now.key ≤ (layout_of version).key_limit }
    ensures ok { OnOk result
        (out.new.items ≡ out.old.items ++ record_bytes (layout_of version) command.now) }
    ensures fits { OnOk result (IsCommand (layout_of version) command.now) }
    ensures err { OnErr result (take (length out.old.items) out.new.items ≡ out.old.items) }
{
    out.push(Method::of(&command.change).number())?;
    append_key(version, &command.key, out)?;
    append_arguments(&command.change, out)
}

/// Puts a key at the end.
pub fn put_key(version: Version, key: &Key, out: &mut Vec<u8>) -> Result<(), Refusal>
    requires within { length key.now ≤ (layout_of version).key_limit }
    ensures ok { OnOk result
        (out.new.items ≡ out.old.items ++ key_bytes (layout_of version) key.now) }
    ensures fits { OnOk result (IsText (layout_of version).key_limit key.now) }
    ensures err { IfErr result (λ refusal. (refusal ≡ NoMemory) × (out.new.items ≡ out.old.items)) }
{
    let len = out.len();
    match append_key(version, key, out) {
        Ok(()) => Ok(()),
        Err(_) => {
            out.truncate(len);
            Err(Refusal::NoMemory)
        }
    }
}

/// Puts a value at the end.
pub fn put_value(value: &Value, out: &mut Vec<u8>) -> Result<(), Refusal>
    ensures ok { OnOk result (out.new.items ≡ out.old.items ++ value_bytes (Some value.now)) }
    ensures fits { OnOk result (IsValue value.now) }
    ensures err { IfErr result (λ refusal. (refusal ≡ NoMemory) × (out.new.items ≡ out.old.items)) }
{
    let len = out.len();
    match append_value(value, out) {
        Ok(()) => Ok(()),
        Err(_) => {
            out.truncate(len);
            Err(Refusal::NoMemory)
        }
    }
}

/// Puts a command's record at the end.
pub fn encode(version: Version, command: &Command, out: &mut Vec<u8>) -> Result<(), Refusal>
    requires within { length command.now.key ≤ (layout_of version).key_limit }
    ensures ok { OnOk result
        (out.new.items ≡ out.old.items ++ record_bytes (layout_of version) command.now) }
    ensures fits { OnOk result (IsCommand (layout_of version) command.now) }
    ensures err { IfErr result (λ refusal. (refusal ≡ NoMemory) × (out.new.items ≡ out.old.items)) }
{
    let len = out.len();
    match append_record(version, command, out) {
        Ok(()) => Ok(()),
        Err(_) => {
            out.truncate(len);
            Err(Refusal::NoMemory)
        }
    }
}
