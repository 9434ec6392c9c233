//! A program that keeps a map in the directory `store`.
#![tactic(auto)]

mod store;

use std::process::ExitCode;
use std::{fs, io};

fn main(rt: HostRuntime) -> io::Result<ExitCode> {
    let _ = fs::create_dir(&rt, "store");
    let Ok(map) = store::open(&rt, rt.alloc(), "store") else {
        eprintln!(rt; "the directory can't be opened")?;
        return Ok(ExitCode::FAILURE);
    };
    match store::run(&rt, rt.alloc(), &map) {
        Ok(left) => println!(rt; "left: {left}")?,
        Err(refusal) => eprintln!(rt; "refused {refusal}")?,
    }
    Ok(ExitCode::SUCCESS)
}
