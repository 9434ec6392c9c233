//! Plays the cases that stand in files of data, which its words name: of maps, records and frames; of disks,
//! logs, checkpoints and directories; and of texts, which are the words of calls and the lines of scripts and
//! outcomes. It prints a line for each, and of the file of texts how many came out. For a case that came out
//! otherwise it prints what was expected and what came.
#![tactic(auto)]

mod checkpoint_writing;
mod checkpoints;
mod directories;
mod disk_steps;
mod disks;
mod events;
mod fills;
mod functions;
mod halting;
mod log_writing;
mod logs;
mod maps;
mod outcomes;
mod playing;
mod plays;
mod records;
mod replies;
mod requests;
mod scripts;
mod texts;
mod words;

use outcomes::all_texts;
use playing::NamedCases;
use run_cases::told_of;
use std::alloc::{AllocError, Global};
use std::{env, fs, io};
use texts::report;

/// What is told of the cases of this file.
fn told(alloc: Global, file: &str, text: &str) -> Result<String, AllocError> {
    if file != "texts" {
        return told_of(alloc, &NamedCases, file, text);
    }
    let cases = report(alloc, text)?;
    let outcomes = all_texts(alloc)?;
    format!(in alloc; "{cases}{outcomes}")
}

fn main(rt: HostRuntime) -> io::Result<()> {
    for file in env::args(&rt)?.skip(1) {
        let text = fs::read_to_string(&rt, file.as_str())?;
        let told = told(rt.alloc(), file.as_str(), text.as_str())?;
        print!(rt; "{told}")?;
    }
    Ok(())
}
