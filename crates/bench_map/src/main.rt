//! How fast the shared stripes are, and views and the bulk calls over them. It also compares views beside
//! changes with plain loops over the same sections.
#![tactic(auto)]

mod answers;
mod beside;
mod bulk;
mod caller;
mod keys;
mod kinds;
mod loops;
mod maps;
mod pairs;
mod plain;
mod rates;
mod rounds;
mod sections;
mod sweeps;
mod turns;
mod writers;

use crate::beside::{Size, print_beside};
use crate::bulk::print_bulk;
use crate::pairs::print_pairs;
use crate::rounds::{print_keys, print_longest};
use std::process::ExitCode;
use std::{env, io};

/// The most keys of shared stripes, whose numbers have seven digits.
const MOST_KEYS: u32 = 10_000_000;

/// The most entries of a map, whose keys have seven digits.
const MOST_ENTRIES: u32 = 9_000_000;

/// The most threads, and the most views.
const MOST_OTHERS: u32 = 1_000;

/// What the words ask for.
#[derive(Clone, Copy)]
enum Work {
    /// Pairs of a change and a read.
    Pairs,
    /// Calls by the number of keys.
    Keys { keys: u32, threads: usize },
    /// The longest single `Put`.
    Longest(u32),
    /// Bulk calls over this many entries.
    Bulk(u32),
    /// Views beside changes.
    Beside(Size),
}

/// The number of the word at this place, if it is from 1 on and at most `most`.
fn count_at(words: &[String], place: usize, most: u32) -> Option<u32> {
    let count = words.get(place)?.as_str().parse::<u32>().ok()?;
    (1..=most).contains(&count).then_some(count)
}

fn keys_of(words: &[String]) -> Option<Work> {
    let keys = count_at(words, 0, MOST_KEYS)?;
    let threads = count_at(words, 1, MOST_OTHERS)? as usize;
    Some(Work::Keys { keys, threads })
}

fn size_of(words: &[String]) -> Option<Size> {
    let entries = count_at(words, 0, MOST_ENTRIES)?;
    let writers = count_at(words, 1, MOST_OTHERS)?;
    let views = count_at(words, 2, MOST_OTHERS)?;
    Some(Size {
        entries,
        writers,
        views,
    })
}

/// What the first word asks for with the others.
fn work_of(first: &str, others: &[String]) -> Option<Work> {
    match (first, others.len()) {
        ("pairs", 0) => Some(Work::Pairs),
        ("keys", 2) => keys_of(others),
        ("longest", 1) => Some(Work::Longest(count_at(others, 0, MOST_KEYS)?)),
        ("bulk", 1) => Some(Work::Bulk(count_at(others, 0, MOST_ENTRIES)?)),
        ("beside", 3) => Some(Work::Beside(size_of(others)?)),
        _ => None,
    }
}

/// What the words of the program ask for.
fn work_asked(rt: &HostRuntime) -> io::Result<Option<Work>> {
    let mut words = Vec::new(rt.alloc());
    for word in env::args(rt)?.skip(1) {
        words.push(word)?;
    }
    match words.split_first() {
        Some((first, others)) => Ok(work_of(first.as_str(), others)),
        None => Ok(None),
    }
}

fn main(rt: HostRuntime) -> io::Result<ExitCode> {
    let Some(work) = work_asked(&rt)? else {
        eprintln!(rt;
            "give words: pairs, keys N THREADS, longest N, bulk N, or beside N WRITERS VIEWS"
        )?;
        return Ok(ExitCode::from(2));
    };
    let is_done = match work {
        Work::Pairs => print_pairs(&rt)?,
        Work::Keys { keys, threads } => print_keys(&rt, keys, threads)?,
        Work::Longest(keys) => print_longest(&rt, keys)?,
        Work::Bulk(entries) => print_bulk(&rt, entries)?,
        Work::Beside(size) => print_beside(&rt, size)?,
    };
    if is_done {
        return Ok(ExitCode::SUCCESS);
    }
    eprintln!(rt; "not done")?;
    Ok(ExitCode::FAILURE)
}
