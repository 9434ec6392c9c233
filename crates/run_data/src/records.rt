//! The records of changes, and their fields.
use call_text::{Asked, parse_call};
use log_records::{
    Version, decode, encode, key_at, number_at, put_key, put_number, put_value, record_len,
    some_value_at,
};
use map_types::{Command, Key, Refusal, Value};
use run_cases::{Names, hexadecimal, number};
use std::alloc::Global;

/// Whether the record of this length was read as this command to its end.
fn is_same(
    version: Version,
    read: &Result<(Command, usize), Refusal>,
    len: usize,
    command: &Command,
) -> Result<bool, Refusal> {
    match read {
        Ok((read, used)) => {
            Ok(*used == len && record_len(version, read) == *used && *read == *command)
        }
        Err(refusal) => Err(*refusal),
    }
}

/// Whether a record is read as this command to its end, whatever follows it.
fn is_read(
    version: Version,
    alloc: Global,
    bytes: &[u8],
    command: &Command,
) -> Result<bool, Refusal> {
    let mut followed = bytes.to_vec(alloc)?;
    followed.push(0x10)?;
    let read = decode(version, alloc, &followed);
    let is_same = is_same(version, &read, bytes.len(), command);
    drop(read);
    is_same
}

fn is_cut(version: Version, alloc: Global, front: &[u8]) -> bool {
    matches!(decode(version, alloc, front), Err(Refusal::BadFrame))
}

fn are_cut(version: Version, alloc: Global, bytes: &[u8]) -> bool {
    for len in 0..bytes.len() {
        if !is_cut(version, alloc, &bytes[..len]) {
            return false;
        }
    }
    true
}

fn record_text(
    version: Version,
    alloc: Global,
    bytes: &[u8],
    command: &Command,
) -> Result<String, Refusal> {
    let is_read = is_read(version, alloc, bytes, command)?;
    if is_read && are_cut(version, alloc, bytes) {
        return Ok(hexadecimal(alloc, bytes)?);
    }
    Ok(String::from_str(alloc, "read otherwise")?)
}

fn record_of(version: Version, alloc: Global, command: &Command) -> Result<String, Refusal> {
    if command.key.is_above(version.key_limit()) {
        return Err(Refusal::KeyTooLong);
    }
    let mut bytes = Vec::new(alloc);
    encode(version, command, &mut bytes)?;
    record_text(version, alloc, &bytes, command)
}

/// The record of the change that the words ask for. It is read as that change again, and each front of it
/// is refused as `BadFrame`.
pub(crate) fn record(version: Version, alloc: Global, words: &[&str]) -> Result<String, Refusal> {
    match parse_call(alloc, words) {
        Ok(Asked::Change(command)) => record_of(version, alloc, &command),
        _ => Err(Refusal::WrongPhase),
    }
}

/// How many bytes the record has that these begin with.
fn length_read(version: Version, alloc: Global, bytes: &[u8]) -> Result<usize, Refusal> {
    let read = decode(version, alloc, bytes);
    let length = match &read {
        Ok((_, used)) => Ok(*used),
        Err(refusal) => Err(*refusal),
    };
    drop(read);
    length
}

/// How bytes are refused as a record.
pub(crate) fn read_record(
    version: Version,
    alloc: Global,
    names: &Names,
    words: &[&str],
) -> Result<String, Refusal> {
    let [word] = words else {
        return Err(Refusal::WrongPhase);
    };
    let bytes = names.bytes(alloc, word)?;
    let used = length_read(version, alloc, &bytes)?;
    Ok(format!(in alloc; "a record of {used} bytes")?)
}

/// What follows the key, if it is this one.
fn after_key<'a>(
    version: Version,
    alloc: Global,
    bytes: &'a [u8],
    expected: &Key,
) -> Option<&'a [u8]> {
    match key_at(version, alloc, bytes) {
        Ok((key, rest)) if key == *expected => Some(rest),
        _ => None,
    }
}

/// Whether nothing follows the value, and it is this one.
fn is_value(alloc: Global, bytes: &[u8], expected: &Value) -> bool {
    match some_value_at(alloc, bytes) {
        Ok((value, rest)) => value == *expected && rest.is_empty(),
        Err(_) => false,
    }
}

fn are_read(
    version: Version,
    alloc: Global,
    bytes: &[u8],
    expected: u64,
    key: &Key,
    value: &Value,
) -> bool {
    match number_at(2, bytes) {
        Ok((number, rest)) if number == expected => match after_key(version, alloc, rest, key) {
            Some(rest) => is_value(alloc, rest, value),
            None => false,
        },
        _ => false,
    }
}

/// A number in two bytes, a key and a value, which are read again.
fn spelled(
    version: Version,
    alloc: Global,
    number: u64,
    key: &Key,
    value: &Value,
) -> Result<String, Refusal> {
    let mut bytes = Vec::new(alloc);
    if number > 0xFFFF {
        return Err(Refusal::WrongPhase);
    }
    if key.is_above(version.key_limit()) {
        return Err(Refusal::KeyTooLong);
    }
    put_number(2, number, &mut bytes)?;
    put_key(version, key, &mut bytes)?;
    put_value(value, &mut bytes)?;
    if !are_read(version, alloc, &bytes, number, key, value) {
        return Ok(String::from_str(alloc, "read otherwise")?);
    }
    Ok(hexadecimal(alloc, &bytes)?)
}

/// The bytes of a number, a key and a number as a value.
pub(crate) fn fields(version: Version, alloc: Global, words: &[&str]) -> Result<String, Refusal> {
    let [first, key, value] = words else {
        return Err(Refusal::WrongPhase);
    };
    let Ok(value) = value.parse::<i64>() else {
        return Err(Refusal::WrongPhase);
    };
    let key = Key::new(alloc, key)?;
    spelled(version, alloc, number(first)?, &key, &Value::Int(value))
}
