//! The bulk answers by plain loops over the sections of a view, and what a view says otherwise.

use crate::answers::sum_of_view;
use bulk_tasks::View;
use durable_map::Captured;
use map_types::{Key, Refusal, Value};
use std::alloc::Global;
use std::thread::Threads;

/// All entries are few for the first, and none are for the last.
const THRESHOLDS: [u64; 2] = [u64::MAX, 0];

/// A value that no entry is likely to have.
const RARE: i64 = i64::MIN;

/// A number, and the first key with it in rising byte order, if any.
#[derive(Drop)]
struct Found {
    number: i64,
    key: Option<Key>,
}

/// The answers that a view is to give.
#[derive(Drop)]
pub(crate) struct Plain {
    count: usize,
    sum: Option<i64>,
    middle: Found,
    rare: Found,
}

/// An answer of a view that isn't the plain one.
#[derive(Clone, Copy)]
pub(crate) struct Difference {
    pub call: &'static str,
    pub threshold: u64,
}

/// Adds the entries of a section.
fn add_section<'a>(
    entries: &mut Vec<&'a (Key, Value)>,
    section: &'a Captured,
) -> Result<(), Refusal> {
    for entry in &section.entries {
        entries.push(entry)?;
    }
    Ok(())
}

/// The entries of all sections, in rising byte order of their keys.
fn sorted(alloc: Global, sections: &[Captured]) -> Result<Vec<&(Key, Value)>, Refusal> {
    let mut entries = Vec::new(alloc);
    for section in sections {
        add_section(&mut entries, section)?;
    }
    entries.sort_unstable_by(|a, b| a.0.cmp(&b.0));
    Ok(entries)
}

fn number_of(entry: &(Key, Value)) -> Option<i64> {
    match &entry.1 {
        Value::Int(number) => Some(*number),
        Value::Text(_) => None,
    }
}

/// The left fold of SUM, which wraps, over entries whose values are numbers.
fn sum_of(entries: &[&(Key, Value)]) -> Option<i64> {
    let mut sum: Option<i64> = None;
    for entry in entries {
        let number = number_of(entry)?;
        sum = Some(match sum {
            Some(sum) => sum.wrapping_add(number),
            None => number,
        });
    }
    sum
}

/// The first of the entries that has the number.
fn first_with(entries: &[&(Key, Value)], number: i64) -> Result<Found, Refusal> {
    for entry in entries {
        if number_of(entry) == Some(number) {
            let key = Some(entry.0.clone()?);
            return Ok(Found { number, key });
        }
    }
    Ok(Found { number, key: None })
}

impl Found {
    /// Whether a search of the view finds the same key.
    fn is_found<R: Threads + Sync>(&self, rt: &R, view: &View, threshold: u64) -> bool {
        let found = view.search(rt, &Value::Int(self.number), threshold);
        found.as_ref() == Ok(&self.key)
    }
}

impl Plain {
    /// The answers for these entries, which are in rising byte order. The searches are for the number of
    /// the middle entry, and for one that is likely to be nowhere.
    fn of_sorted(entries: &[&(Key, Value)]) -> Result<Plain, Refusal> {
        let number = match entries.get(entries.len() / 2) {
            Some(entry) => number_of(entry).unwrap_or(RARE),
            None => RARE,
        };
        let middle = first_with(entries, number)?;
        let rare = first_with(entries, RARE)?;
        Ok(Plain {
            count: entries.len(),
            sum: sum_of(entries),
            middle,
            rare,
        })
    }

    /// The answers for the entries of these sections.
    pub(crate) fn of(alloc: Global, sections: &[Captured]) -> Result<Plain, Refusal> {
        let entries = sorted(alloc, sections)?;
        Plain::of_sorted(&entries)
    }

    /// The call that differs with this threshold, if any.
    fn call_that_differs<R: Threads + Sync>(
        &self,
        rt: &R,
        view: &View,
        threshold: u64,
    ) -> Option<&'static str> {
        if view.count() != self.count {
            return Some("count");
        }
        if sum_of_view(rt, view, threshold) != Some(self.sum) {
            return Some("reduce");
        }
        let is_found = self.middle.is_found(rt, view, threshold)
            && self.rare.is_found(rt, view, threshold);
        if is_found { None } else { Some("search") }
    }

    /// The first answer of the view that isn't the plain one, if any.
    pub(crate) fn difference<R: Threads + Sync>(&self, rt: &R, view: &View) -> Option<Difference> {
        for threshold in THRESHOLDS {
            if let Some(call) = self.call_that_differs(rt, view, threshold) {
                return Some(Difference { call, threshold });
            }
        }
        None
    }
}
