//! How long a view takes, the bulk calls over it, and those of the whole map, which copy no entries.

use crate::answers::{number_in, sum_of_view};
use crate::maps::{Filling, MapCaller};
use crate::rates::rate;
use bulk_tasks::{View, count, reduce, search, view};
use map_types::{Func, Value};
use std::io;
use std::io::Print;
use std::rt::Clock;
use std::sync::Wait;
use std::thread::Threads;
use std::time::{Duration, Instant};

/// How many rounds the best is taken of, after one that isn't counted.
const ROUNDS: u32 = 5;

/// A value that no entry has, so that a search looks at all.
const ABSENT: i64 = -1;

/// What is measured.
#[derive(Clone, Copy)]
enum Asked {
    /// How many entries the map has.
    CountOfMap,
    /// A reduction of the map by SUM.
    ReduceOfMap,
    /// A search of the map for a value that isn't there.
    SearchOfMap,
    /// The view of the map over which the calls below are made.
    View,
    /// A reduction of the view by SUM.
    Reduce,
    /// A search of the view for a value that isn't there.
    Search,
}

/// A line: what is measured, its name, and its threshold.
#[derive(Clone, Copy)]
struct Row {
    asked: Asked,
    name: &'static str,
    threshold: u64,
}

/// The lines. The greatest threshold asks for one thread, and 0 for as many as there are processors.
static ROWS: [Row; 8] = [
    Row {
        asked: Asked::CountOfMap,
        name: "whole-count",
        threshold: u64::MAX,
    },
    Row {
        asked: Asked::ReduceOfMap,
        name: "whole-reduce",
        threshold: u64::MAX,
    },
    Row {
        asked: Asked::SearchOfMap,
        name: "whole-search",
        threshold: u64::MAX,
    },
    Row {
        asked: Asked::View,
        name: "view",
        threshold: 0,
    },
    Row {
        asked: Asked::Reduce,
        name: "reduce",
        threshold: u64::MAX,
    },
    Row {
        asked: Asked::Search,
        name: "search",
        threshold: u64::MAX,
    },
    Row {
        asked: Asked::Reduce,
        name: "reduce",
        threshold: 0,
    },
    Row {
        asked: Asked::Search,
        name: "search",
        threshold: 0,
    },
];

/// Whether no entry of a view has the absent value.
fn view_lacks_absent<R: Threads + Sync>(rt: &R, view: &View, threshold: u64) -> bool {
    matches!(view.search(rt, &Value::Int(ABSENT), threshold), Ok(None))
}

impl MapCaller<'_> {
    /// How many entries the map has, if that isn't refused.
    fn count<R: Wait>(&mut self, rt: &R) -> Option<usize> {
        count(rt, self.map, &mut self.pass).ok()
    }

    /// The sum of the values of the map, as `number_in` says it.
    fn sum<R: Wait>(&mut self, rt: &R) -> Option<Option<i64>> {
        number_in(&reduce(rt, self.alloc, self.map, &mut self.pass, Func::Sum))
    }

    /// Whether no entry of the map has the absent value.
    fn lacks_absent<R: Wait>(&mut self, rt: &R) -> bool {
        let absent = Value::Int(ABSENT);
        matches!(
            search(rt, self.alloc, self.map, &mut self.pass, &absent),
            Ok(None)
        )
    }

    /// A view of the map, if it isn't refused.
    fn view<R: Wait>(&mut self, rt: &R) -> Option<View> {
        view(rt, self.alloc, self.map, &mut self.pass).ok()
    }
}

/// The sum of the numbers below this one.
fn sum_below(entries: u32) -> i64 {
    let entries = i64::from(entries);
    entries.wrapping_mul(entries.wrapping_sub(1)) / 2
}

/// What asks a map whose entries have the numbers below their count.
#[derive(Drop)]
struct Asker<'a> {
    caller: MapCaller<'a>,
    view: Option<View>,
    entries: u32,
}

impl Asker<'_> {
    /// Asks the last view what the row says, and says whether the answer is what it should be.
    fn is_right_of_view<R: Threads + Sync>(&self, rt: &R, row: Row) -> bool {
        let Some(view) = &self.view else {
            return false;
        };
        match row.asked {
            Asked::Reduce => {
                sum_of_view(rt, view, row.threshold) == Some(Some(sum_below(self.entries)))
            }
            _ => view_lacks_absent(rt, view, row.threshold),
        }
    }

    /// Asks what the row says, and says whether the answer is what it should be.
    fn is_right<R: Threads + Wait + Sync>(&mut self, rt: &R, row: Row) -> bool {
        match row.asked {
            Asked::CountOfMap => self.caller.count(rt) == Some(self.entries as usize),
            Asked::ReduceOfMap => self.caller.sum(rt) == Some(Some(sum_below(self.entries))),
            Asked::SearchOfMap => self.caller.lacks_absent(rt),
            Asked::View => {
                self.view = self.caller.view(rt);
                self.view.is_some()
            }
            Asked::Reduce | Asked::Search => self.is_right_of_view(rt, row),
        }
    }

    /// How long that takes, or none if the answer isn't what it should be.
    fn time<R: Clock + Threads + Wait + Sync>(&mut self, rt: &R, row: Row) -> Option<Duration> {
        if matches!(row.asked, Asked::View) {
            self.view = None;
        }
        let start = Instant::now(rt).ok()?;
        let is_right = self.is_right(rt, row);
        let spent = start.elapsed(rt).ok()?;
        is_right.then_some(spent)
    }

    /// The best time.
    fn best<R: Clock + Threads + Wait + Sync>(&mut self, rt: &R, row: Row) -> Option<Duration> {
        self.time(rt, row)?;
        let mut best = Duration::MAX;
        for _round in 0..ROUNDS {
            best = best.min(self.time(rt, row)?);
        }
        Some(best)
    }

    /// Prints the lines. Says whether all were measured.
    fn print_all<R: Clock + Threads + Wait + Print + Sync>(&mut self, rt: &R) -> io::Result<bool> {
        for row in &ROWS {
            let Some(spent) = self.best(rt, *row) else {
                return Ok(false);
            };
            print_row(rt, *row, self.entries, spent)?;
        }
        Ok(true)
    }
}

/// A line of what was measured, its threshold, its nanoseconds and the entries a second.
fn print_row<R: Print>(rt: &R, row: Row, entries: u32, spent: Duration) -> io::Result<()> {
    let rate = rate(u64::from(entries), spent);
    println!(rt;
        "{} {} {} {rate}",
        row.name,
        row.threshold,
        spent.as_nanos()
    )
}

/// The lines of the calls of the whole map, of a view, and of the bulk calls over it. Says whether all
/// were measured.
pub(crate) fn print_bulk<R: AllocGlobal + Clock + Threads + Wait + Print + Sync>(
    rt: &R,
    entries: u32,
) -> io::Result<bool> {
    let filling = Filling {
        entries,
        values: entries,
    };
    let Ok(map) = filling.filled(rt, rt.alloc()) else {
        return Ok(false);
    };
    let Ok(caller) = MapCaller::new(rt.alloc(), &map) else {
        return Ok(false);
    };
    let mut asker = Asker {
        caller,
        view: None,
        entries,
    };
    asker.print_all(rt)
}
