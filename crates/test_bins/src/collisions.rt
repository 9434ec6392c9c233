//! Keys of one hash, which stand in one bin however many there are.
use crate::checks::assert_same;
use crate::numbers::{Numbers, Texts};
use java_hash::hash;
use map_types::Refusal;
use std::alloc::Global;

const KEYS: u32 = 512;

/// How many keys have the hash of the first.
fn of_one_hash(alloc: Global) -> Result<u32, Refusal> {
    let first = hash_of(alloc, 0)?;
    let mut count = 0u32;
    for number in 0..KEYS {
        if hash_of(alloc, number)? == first {
            count = count.saturating_add(1);
        }
    }
    Ok(count)
}

fn hash_of(alloc: Global, number: u32) -> Result<i32, Refusal> {
    let text = Texts::OneHash.text(alloc, number)?;
    Ok(hash(text.as_str()))
}

/// How many entries a map has, how many of the keys with even numbers, and of those with odd ones, are
/// mapped to their numbers, and how many keys are not mapped.
#[derive(Clone, Copy, Debug, PartialEq)]
struct Found {
    len: usize,
    even: u32,
    odd: u32,
    absent: u32,
}

impl Found {
    /// Counts what is found of the key of this number.
    fn add(&mut self, number: u32, value: Option<i64>) {
        if value == Some(i64::from(number)) {
            if number % 2 == 0 {
                self.even = self.even.saturating_add(1);
            } else {
                self.odd = self.odd.saturating_add(1);
            }
        } else if value.is_none() {
            self.absent = self.absent.saturating_add(1);
        }
    }
}

impl Numbers {
    fn found(&self) -> Result<Found, Refusal> {
        let mut found = Found {
            len: self.growing.len(),
            even: 0,
            odd: 0,
            absent: 0,
        };
        for number in 0..KEYS {
            found.add(number, self.find(number)?);
        }
        Ok(found)
    }

    /// Takes out the keys of odd numbers.
    fn remove_odd(&mut self) -> Result<(), Refusal> {
        for half in 0..KEYS / 2 {
            self.remove(2 * half + 1)?;
        }
        Ok(())
    }

    /// What is found of all keys, and then once those of odd numbers were taken out.
    fn found_twice(&mut self) -> Result<(Found, Found), Refusal> {
        let all = self.found()?;
        self.remove_odd()?;
        Ok((all, self.found()?))
    }
}

fn found_twice(alloc: Global) -> Result<(Found, Found), Refusal> {
    let mut numbers = Numbers::with_keys(alloc, Texts::OneHash, KEYS)?;
    numbers.found_twice()
}

#[test]
fn keys_of_one_hash(rt: HostRuntime) {
    let all = Found {
        len: 512,
        even: 256,
        odd: 256,
        absent: 0,
    };
    let even = Found {
        len: 256,
        even: 256,
        odd: 0,
        absent: 256,
    };
    assert_same(&rt, &"hashes", &of_one_hash(rt.alloc()), &Ok(KEYS));
    assert_same(&rt, &"keys", &found_twice(rt.alloc()), &Ok((all, even)));
}
