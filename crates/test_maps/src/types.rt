//! The kinds of values, functions and refusals, at their limits.
use crate::checks::assert_same;
use map_types::{Func, Key, Refusal, Text, Value};
use std::alloc::Global;

/// The length of a key of these bytes.
fn key_of(alloc: Global, bytes: &str) -> Result<usize, Refusal> {
    let key = Key::new(alloc, bytes)?;
    Ok(key.as_str().len())
}

/// The length of a text of these bytes.
fn text_of(alloc: Global, bytes: &str) -> Result<usize, Refusal> {
    let text = Text::new(alloc, bytes)?;
    Ok(text.as_str().len())
}

/// The same of a value; 0 if it's none of a text.
fn value_of(alloc: Global, bytes: &str) -> Result<usize, Refusal> {
    match Value::text(alloc, bytes)? {
        Value::Text(text) => Ok(text.as_str().len()),
        Value::Int(_) => Ok(0),
    }
}

/// The lengths of a key, a text and a value of so many bytes.
type Lengths = [Result<usize, Refusal>; 3];

fn lengths_of(alloc: Global, len: usize) -> Result<Lengths, Refusal> {
    let bytes = "v".repeat(alloc, len)?;
    let lengths = [
        key_of(alloc, &bytes),
        text_of(alloc, &bytes),
        value_of(alloc, &bytes),
    ];
    drop(bytes);
    Ok(lengths)
}

const TOO_LONG: Result<usize, Refusal> = Err(Refusal::ValueTooLong);

const LENGTHS: [(usize, Lengths); 3] = [
    (4095, [Ok(4095); 3]),
    (4096, [Err(Refusal::KeyTooLong), Ok(4096), Ok(4096)]),
    (4097, [Err(Refusal::KeyTooLong), TOO_LONG, TOO_LONG]),
];

#[test]
fn lengths_up_to_their_limit(rt: HostRuntime) {
    for (len, wanted) in LENGTHS {
        assert_same(&rt, &lengths_of(rt.alloc(), len), &Ok(wanted));
    }
}

/// Whether the one key is before the other.
fn is_before(alloc: Global, one: &str, other: &str) -> Result<bool, Refusal> {
    let one = Key::new(alloc, one)?;
    Ok(one < Key::new(alloc, other)?)
}

/// Whether a key is its clone.
fn is_its_clone(alloc: Global, key: &str) -> Result<bool, Refusal> {
    let key = Key::new(alloc, key)?;
    Ok(key.clone()? == key)
}

/// Whether `ab`, followed by `c`, is `abc`.
fn is_joined(alloc: Global) -> Result<bool, Refusal> {
    let tail = Text::new(alloc, "c")?;
    let both = Text::new(alloc, "ab")?.followed_by(alloc, &tail)?;
    Ok(both.as_str() == "abc")
}

/// Whether the text is the same as the value.
fn is_same(alloc: Global, text: &str, value: Value) -> Result<bool, Refusal> {
    let text = Value::text(alloc, text)?;
    Ok(value.is_same(&text))
}

/// Whether the text is the same as another of its bytes.
fn is_same_text(alloc: Global, text: &str) -> Result<bool, Refusal> {
    let other = Value::text(alloc, text)?;
    is_same(alloc, text, other)
}

#[test]
fn keys_and_values_are_compared(rt: HostRuntime) {
    let alloc = rt.alloc();
    let found = [
        is_before(alloc, "a", "aa"),
        is_its_clone(alloc, "a"),
        is_joined(alloc),
        is_same_text(alloc, "1"),
        is_same(alloc, "1", Value::Int(1)),
    ];
    assert_same(
        &rt,
        &found,
        &[Ok(true), Ok(true), Ok(true), Ok(true), Ok(false)],
    );
}

/// Whether there is a function of this number.
fn is_known(number: u8) -> bool {
    match Func::of(number) {
        Some(func) => func.number() == number,
        None => false,
    }
}

/// The first number that comes out otherwise, if any: there are functions of 1 to 9 alone.
fn first_wrong() -> Option<u8> {
    for number in 0..=255u8 {
        if is_known(number) != (number >= 1 && number <= 9) {
            return Some(number);
        }
    }
    None
}

#[test]
fn functions_by_number(rt: HostRuntime) {
    assert_same(&rt, &first_wrong(), &None);
}

/// Whether the refusal has this number, and is printed so.
fn is_printed(alloc: Global, refusal: Refusal, number: u8, text: &str) -> bool {
    match format!(in alloc; "{refusal}") {
        Ok(printed) => printed.as_str() == text && refusal.number() == number,
        Err(_) => false,
    }
}

/// Refusals, their numbers and how they are printed.
static REFUSALS: [(Refusal, u8, &str); 4] = [
    (Refusal::BadFrame, 6, "6 BadFrame"),
    (Refusal::Busy { stripe: 3 }, 8, "8 Busy 3"),
    (
        Refusal::Damaged {
            file: 2,
            offset: 17,
        },
        12,
        "12 Damaged 2 17",
    ),
    (Refusal::SeatsSpent, 19, "19 SeatsSpent"),
];

/// The text of the first refusal that has another number, or is printed otherwise, if any.
fn first_misprinted(alloc: Global) -> Option<&'static str> {
    for (refusal, number, text) in &REFUSALS {
        if !is_printed(alloc, *refusal, *number, text) {
            return Some(*text);
        }
    }
    None
}

#[test]
fn printed_refusals(rt: HostRuntime) {
    assert_same(&rt, &first_misprinted(rt.alloc()), &None);
}
