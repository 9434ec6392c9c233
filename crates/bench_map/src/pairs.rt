//! How fast pairs of a change and a read are on the shared stripes, beside a plain loop over a part.

use crate::loops::{PAIRS, pairs_on_a_part};
use crate::rates::rate;
use crate::rounds::{Round, Task};
use std::io;
use std::io::Print;
use std::rt::Clock;
use std::thread::Threads;
use std::time::{Duration, Instant};

/// The time of the plain loop, or none if memory was refused.
fn time_a_part<R: AllocGlobal + Clock>(rt: &R) -> Option<Duration> {
    let start = Instant::now(rt).ok()?;
    pairs_on_a_part(rt.alloc()).ok()?;
    start.elapsed(rt).ok()
}

fn print_head<R: Print>(rt: &R, plain: u128) -> io::Result<()> {
    println!(rt; "| Run | Pairs a second | Of the plain loop |")?;
    println!(rt; "|---|---|---|")?;
    println!(rt; "| plain loop over a part | {plain} | 100 % |")
}

fn print_threads<R: Print>(rt: &R, threads: usize, rate: u128, plain: u128) -> io::Result<()> {
    let percent = rate.saturating_mul(100) / plain.max(1);
    println!(rt; "| stripes, threads: {threads} | {rate} | {percent} % |")
}

/// A table of the plain loop, and of one, two and four threads. Says whether all were measured.
pub(crate) fn print_pairs<R: AllocGlobal + Clock + Threads + Sync + Print>(
    rt: &R,
) -> io::Result<bool> {
    let task = Task::Pairs;
    let Some(spent) = time_a_part(rt) else {
        return Ok(false);
    };
    let plain = rate(u64::from(PAIRS), spent);
    print_head(rt, plain)?;
    for threads in [1usize, 2, 4] {
        let Some(reached) = (Round { task, threads }).play(rt) else {
            return Ok(false);
        };
        let pairs = u64::from(PAIRS) * threads as u64;
        print_threads(rt, threads, rate(pairs, reached.spent), plain)?;
    }
    Ok(true)
}
