//! Views beside threads that make changes, and beside the one that commits them.

use crate::maps::{Filling, MapCaller};
use crate::plain::{Difference, Plain};
use crate::sections::sections;
use crate::writers::{Writing, work};
use bulk_tasks::View;
use disk_model::MemDisk;
use durable_map::{Captured, DurableMap};
use map_types::Refusal;
use std::alloc::Global;
use std::io::Print;
use std::sync::Wait;
use std::thread::Threads;
use std::{io, thread};

/// The values of the entries are few, so that a search has several keys to choose from.
const VALUES: u32 = 64;

/// How many views are taken at most. One behind which no change came isn't counted.
const MOST_VIEWS: u32 = 1_000_000;

/// How many entries, threads that make changes, and views there are.
#[derive(Clone, Copy)]
pub(crate) struct Size {
    pub entries: u32,
    pub writers: u32,
    pub views: u32,
}

/// What the views came to.
#[derive(Clone, Copy)]
enum Outcome {
    Agree,
    /// The view of this number differs.
    Differ(u32, Difference),
    /// No changes came beside the views.
    Quiet,
    /// A call of a writer was refused.
    WriterRefused,
}

/// One view, and how many changes it rests on.
#[derive(Clone, Copy)]
struct Compared {
    mark: u64,
    difference: Option<Difference>,
}

fn greatest_mark(sections: &[Captured]) -> u64 {
    let mut greatest = 0;
    for section in sections {
        greatest = greatest.max(section.mark);
    }
    greatest
}

impl MapCaller<'_> {
    /// Takes a view and compares its answers.
    fn compare<R: Threads + Wait + Sync>(&mut self, rt: &R) -> Result<Compared, Refusal> {
        let sections = sections(rt, self.alloc, self.map, &mut self.pass)?;
        let mark = greatest_mark(&sections);
        let plain = Plain::of(self.alloc, &sections)?;
        let view = View::new(self.alloc, sections)?;
        let difference = plain.difference(rt, &view);
        Ok(Compared { mark, difference })
    }
}

/// Takes `views` views, each behind changes that the one before hasn't seen.
fn compare_all<R: Threads + Wait + Sync>(
    rt: &R,
    alloc: Global,
    map: &DurableMap<MemDisk>,
    views: u32,
) -> Result<Outcome, Refusal> {
    let mut caller = MapCaller::new(alloc, map)?;
    let mut counted = 0;
    let mut mark = 0;
    for _view in 0..MOST_VIEWS {
        if views <= counted {
            return Ok(Outcome::Agree);
        }
        let compared = caller.compare(rt)?;
        if let Some(difference) = compared.difference {
            return Ok(Outcome::Differ(counted, difference));
        }
        if mark < compared.mark {
            counted = counted.saturating_add(1);
        }
        mark = compared.mark;
    }
    Ok(Outcome::Quiet)
}

/// The views beside the other threads, which end then.
fn beside_writers<R: Threads + Wait + Sync>(
    rt: &R,
    alloc: Global,
    map: &DurableMap<MemDisk>,
    size: Size,
) -> Result<Outcome, Refusal> {
    let writing = &Writing::new(size.entries);
    let outcome = thread::scope(thread::scope_env(), rt, |scope| {
        let mut are_started = true;
        for thread in 0..size.writers.saturating_add(1) {
            let started = scope.spawn(move || work(rt, alloc, map, writing, thread));
            are_started = started.is_ok();
            if !are_started {
                break;
            }
        }
        let outcome = if are_started {
            compare_all(rt, alloc, map, size.views)
        } else {
            Err(Refusal::NoMemory)
        };
        writing.end();
        outcome
    })?;
    if writing.was_refused() {
        return Ok(Outcome::WriterRefused);
    }
    Ok(outcome)
}

/// Compares the answers of views, taken while other threads make changes, with plain ones over the same
/// sections.
fn compare_beside<R: Threads + Wait + Sync>(
    rt: &R,
    alloc: Global,
    size: Size,
) -> Result<Outcome, Refusal> {
    let filling = Filling {
        entries: size.entries,
        values: VALUES,
    };
    let map = filling.filled(rt, alloc)?;
    beside_writers(rt, alloc, &map, size)
}

/// A line with what the views came to. Says whether they agree.
fn print_outcome<R: Print>(rt: &R, size: Size, outcome: Outcome) -> io::Result<bool> {
    match outcome {
        Outcome::Agree => println!(rt; "{} views agree", size.views)?,
        Outcome::Differ(view, difference) => println!(rt;
            "view {view} differs: {}, threshold {}",
            difference.call, difference.threshold
        )?,
        Outcome::Quiet => println!(rt; "no changes came beside the views")?,
        Outcome::WriterRefused => println!(rt; "a writer was refused")?,
    }
    Ok(matches!(outcome, Outcome::Agree))
}

/// Compares views beside changes, and prints what they came to. Says whether they agree.
pub(crate) fn print_beside<R: AllocGlobal + Threads + Wait + Sync + Print>(
    rt: &R,
    size: Size,
) -> io::Result<bool> {
    match compare_beside(rt, rt.alloc(), size) {
        Ok(outcome) => print_outcome(rt, size, outcome),
        Err(refusal) => {
            println!(rt; "refused {refusal}")?;
            Ok(false)
        }
    }
}
