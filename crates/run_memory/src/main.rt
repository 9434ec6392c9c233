//! Plays the cases in the files that its words name. A case of `keeper` or of `memory_map` is a
//! line with its name, its input and what is to come. Other files have lines of calls, each of
//! which is made between two marks, and of which is told what stands before and after:
//! `tests/memory` refuses memory between the marks.
#![tactic(auto)]

mod cases;
mod connection;
mod formatting;
mod growing;
mod keeping;
mod lives;
mod marked;
mod marks;
mod openings;
mod playing;
mod showing;
mod steps;
mod store;
mod views;

use crate::marked::play_line;
use crate::playing::NamedCases;
use run_cases::told_of;
use std::sync::Wait;
use std::thread::Threads;
use std::{env, fs, io};

/// Plays the lines of a file, each of which prints what is told of it.
fn play_lines<R: AllocGlobal + Print + Wait + Threads + Sync>(
    rt: &R,
    text: &str,
) -> io::Result<()> {
    for line in text.lines() {
        play_line(rt, line)?;
    }
    Ok(())
}

/// Plays the cases of the file of this name.
fn play_file<R: AllocGlobal + Print + Wait + Threads + Sync>(
    rt: &R,
    file: &str,
    text: &str,
) -> io::Result<()> {
    if file != "keeper" && file != "memory_map" {
        return play_lines(rt, text);
    }
    let told = told_of(rt.alloc(), &NamedCases { rt }, file, text)?;
    print!(rt; "{told}")
}

fn main(rt: HostRuntime) -> io::Result<()> {
    for file in env::args(&rt)?.skip(1) {
        let text = fs::read_to_string(&rt, file.as_str())?;
        play_file(&rt, file.as_str(), text.as_str())?;
    }
    Ok(())
}
