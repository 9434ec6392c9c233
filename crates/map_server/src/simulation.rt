//! The script of a whole schedule is played on a disk in memory, and what came of its lines is printed.
ghost use Rattle.std.specs.Prelude.{◌≡◌, IfOk, IfErr, string_bytes};
ghost use Rattle.sim_rules.specs.Runs.{IsRun};
ghost use Rattle.sim_script.specs.Scripts.{script_of, Reads};
ghost use Rattle.map_server.specs.Simulation.{ComesOf, IsTold, Simulates, SimulatesText, TellsOrFails};

use call_text::{MISUSED, cannot_open, print, refuse, say};
use log::{Log, error};
use map_types::Refusal;
use schedule_sim::run;
use sim_rules::Outcome;
use sim_script::{Script, ScriptError, parse, text_of};
use std::alloc::{AllocError, Global};
use std::fs::File;
use std::io::{Read, Write};
use std::rt::Files;
use std::{fs, io};

/// Plays the events of the script, and again if a release that didn't fit had steps: these are
/// taken back first. So each line makes the steps of its own walk alone.
fn play(alloc: Global, script: &mut Script) -> Result<Vec<Outcome>, AllocError>
    // the outcomes
    ensures played { IfOk result (λ outcomes.
        ComesOf script.old.spans.items outcomes.items script.old.events.items) }
    // what stays
    ensures spans { script.new.spans ≡ script.old.spans }
{
    let mut trace = run(alloc, script.events.as_slice())?;
    'plays: while script.take_back_steps(trace.outcomes.as_slice()) {
        trace = run(alloc, script.events.as_slice())?;
    }
    Ok(trace.outcomes)
}

/// What came of the lines of the script that is written so.
fn tell(alloc: Global, text: &str) -> Result<String, ScriptError>
    ensures { TellsOrFails text.now (λ told. string_bytes told) result }
{
    let lines = parse(alloc, text)?;
    let mut script = Script::of(alloc, lines)?;
    let outcomes = play(alloc, &mut script)?;
    Ok(text_of(alloc, script.spans.as_slice(), outcomes.as_slice())?)
}

/// Says on `error` what is wrong with a script.
fn misuse<E: Write>(alloc: Global, failure: &ScriptError, error: &mut E) -> u8
    ensures { result ≡ 2 }
{
    match format!(in alloc; "{failure}\n") {
        Ok(text) => say(error, text.as_str()),
        Err(_) => say(error, "no such script\n"),
    }
    MISUSED
}

/// Plays the script that is written so, and prints what came of its lines.
pub fn simulate<L: Log, W: Write, E: Write>(
    rt: &L,
    alloc: Global,
    text: &str,
    output: &mut W,
    error: &mut E,
) -> u8
    ensures { SimulatesText text.now (W.contents output.old) (W.contents output.new) result }
{
    match tell(alloc, text) {
        Ok(told) => print(rt, told.as_str(), output, error),
        Err(ScriptError::NoMemory) => refuse(alloc, Refusal::NoMemory, error),
        Err(failure) => misuse(alloc, &failure, error),
    }
}

fn read_file<F: Files<File = File>>(rt: &F, alloc: Global, path: &str) -> io::Result<Vec<u8>> {
    let mut file = fs::open(rt, path)?;
    let mut bytes = Vec::new(alloc);
    file.read_to_end(&mut bytes)?;
    Ok(bytes)
}

/// Plays the script of the file, and prints what came of its lines. If the system refuses a call, a
/// record has the cause.
pub fn sim<F: Files<File = File> + Log, W: Write, E: Write>(
    rt: &F,
    alloc: Global,
    path: &str,
    output: &mut W,
    error: &mut E,
) -> u8
    ensures { Simulates (W.contents output.old) (W.contents output.new) result }
{
    let bytes = match read_file(rt, alloc, path) {
        Ok(bytes) => bytes,
        Err(cause) => {
            error!(rt; "the file {path} can't be read: {cause}");
            return cannot_open(alloc, &cause, error);
        }
    };
    match str::from_utf8(bytes.as_slice()) {
        Ok(text) => simulate(rt, alloc, text, output, error),
        Err(_) => {
            say(error, "the script isn't UTF-8\n");
            MISUSED
        }
    }
}
