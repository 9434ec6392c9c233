//! Rounds of calls on the stripes of an empty map, on several threads at once.

use crate::caller::Caller;
use crate::keys::{NumberedKey, Share};
use crate::kinds::{Kind, Rates, Times};
use crate::loops::pairs_on_stripes;
use crate::maps::sixteen;
use std::io::Print;
use std::rt::Clock;
use std::thread::Threads;
use std::time::{Duration, Instant};
use std::{io, thread};
use stripe_locks::Stripes;

/// How many calls of each kind all threads make together in a round, at least.
const CALLS: u32 = 1_000_000;

/// How many rounds the best is taken of, after one that isn't counted.
const ROUNDS: u32 = 3;

/// What the threads of a round do.
#[derive(Clone, Copy)]
pub(crate) enum Task {
    /// Pairs of a change and a read, each thread of a key of its own.
    Pairs,
    /// Calls of each kind on this many keys, which the threads share.
    Keys(u32),
}

/// A round, in which each thread has a pass of its own.
#[derive(Clone, Copy)]
pub(crate) struct Round {
    pub task: Task,
    pub threads: usize,
}

/// What the threads of a round reached together, and how long they took.
#[derive(Clone, Copy)]
pub(crate) struct Reached {
    pub rates: Rates,
    pub spent: Duration,
}

/// How often the keys are put and removed again in a round.
fn turns(keys: u32) -> u32 {
    (CALLS / keys.max(1)).max(1)
}

/// What a thread reaches that calls on its keys, which stay absent. None if it is refused.
fn rates_of_keys<R: AllocGlobal + Clock>(rt: &R, stripes: &Stripes, share: Share) -> Option<Rates> {
    let keys = share.keys(rt.alloc()).ok()?;
    let mut caller = Caller::new(rt.alloc(), stripes).ok()?;
    let turns = turns(share.end);
    let mut times = Times::NONE;
    for _turn in 0..turns {
        caller.take_turn(rt, &keys, &mut times)?;
    }
    Some(times.rates((keys.len() as u64).saturating_mul(u64::from(turns))))
}

/// What all threads reach together, or none if one of them was refused.
fn together(all: &[Option<Rates>]) -> Option<Rates> {
    let mut sum = Rates::NONE;
    for rates in all {
        sum = sum.plus((*rates)?);
    }
    Some(sum)
}

impl Round {
    /// What the thread of this number reaches, or none if it is refused. Pairs have no rates.
    fn rates_of_thread<R: AllocGlobal + Clock>(
        self,
        rt: &R,
        stripes: &Stripes,
        thread: usize,
    ) -> Option<Rates> {
        match self.task {
            Task::Pairs => {
                pairs_on_stripes(rt.alloc(), stripes, thread).ok()?;
                Some(Rates::NONE)
            }
            Task::Keys(end) => {
                let share = Share {
                    first: u32::try_from(thread).ok()?,
                    step: self.threads,
                    end,
                };
                rates_of_keys(rt, stripes, share)
            }
        }
    }

    /// Plays the round on new stripes. None if a thread was refused.
    pub(crate) fn play<R: AllocGlobal + Clock + Threads + Sync>(self, rt: &R) -> Option<Reached> {
        let stripes = Stripes::empty(rt.alloc(), sixteen()).ok()?;
        let start = Instant::now(rt).ok()?;
        let all = thread::map_indices(
            rt,
            rt.alloc(),
            self.threads,
            &|thread| self.rates_of_thread(rt, &stripes, thread),
        );
        let spent = start.elapsed(rt).ok()?;
        let rates = together(&all.ok()?)?;
        Some(Reached { rates, spent })
    }

    /// The best rates of three rounds.
    fn best_rates<R: AllocGlobal + Clock + Threads + Sync>(self, rt: &R) -> Option<Rates> {
        self.play(rt)?;
        let mut best = Rates::NONE;
        for _round in 0..ROUNDS {
            best = best.best(self.play(rt)?.rates);
        }
        Some(best)
    }
}

/// The longest single `Put` of these new keys in one thread. The sweep behind each isn't in it.
fn longest_put<R: AllocGlobal + Clock>(rt: &R, keys: &[NumberedKey]) -> Option<Duration> {
    let stripes = Stripes::empty(rt.alloc(), sixteen()).ok()?;
    let mut caller = Caller::new(rt.alloc(), &stripes).ok()?;
    let mut longest = Duration::ZERO;
    for key in keys.chunks(1) {
        longest = longest.max(caller.time(rt, Kind::PutNew, key)?);
    }
    Some(longest)
}

/// The least of the longest single `Put`s of three rounds, or none if one was refused.
fn least_longest_put<R: AllocGlobal + Clock>(rt: &R, end: u32) -> Option<Duration> {
    let share = Share {
        first: 0,
        step: 1,
        end,
    };
    let keys = share.keys(rt.alloc()).ok()?;
    longest_put(rt, &keys)?;
    let mut least = Duration::MAX;
    for _round in 0..ROUNDS {
        least = least.min(longest_put(rt, &keys)?);
    }
    Some(least)
}

/// A line for each kind of call: its name, and how many a second. Says whether all were measured.
pub(crate) fn print_keys<R: AllocGlobal + Clock + Threads + Sync + Print>(
    rt: &R,
    keys: u32,
    threads: usize,
) -> io::Result<bool> {
    let task = Task::Keys(keys);
    let Some(rates) = (Round { task, threads }).best_rates(rt) else {
        return Ok(false);
    };
    for kind in Kind::ALL {
        println!(rt; "{} {}", kind.name(), rates.of(kind))?;
    }
    Ok(true)
}

/// A line with the longest single `Put`, in microseconds. Says whether it was measured.
pub(crate) fn print_longest<R: AllocGlobal + Clock + Print>(rt: &R, keys: u32) -> io::Result<bool> {
    let Some(longest) = least_longest_put(rt, keys) else {
        return Ok(false);
    };
    println!(rt; "longest-put {}", longest.as_micros())?;
    Ok(true)
}
