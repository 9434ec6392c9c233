//! Connections of the map in memory.
use crate::cases::Case;
use crate::marks::Marks;
use cmd_mem::Memory;
use connections::serve_connection;
use disk_model::{Disk, Failure, Fill, MemDisk};
use map_types::Refusal;
use run_cases::{Names, hexadecimal, number};
use std::sync::Wait;

/// Room for all replies of a case, so that what is written takes no memory.
const ROOM: usize = 65536;

/// More device calls than are made before the first change.
const MANY: u64 = 100;

/// The first log of a store.
const LOG: usize = 2;

/// An empty map over a disk. If a number is given, the call behind so many calls fails.
fn begun<R: AllocGlobal + Wait>(
    rt: &R,
    after: Option<u64>,
) -> Result<Memory<'_, MemDisk, R>, Refusal> {
    let alloc = rt.alloc();
    let mut disk = MemDisk::new(alloc);
    if let Some(after) = after {
        let fill = Fill::New;
        disk.plan(Some(Failure { after, fill }));
    }
    match Memory::new(rt, alloc, disk) {
        Ok(memory) => Ok(memory),
        Err((_disk, refusal)) => Err(refusal),
    }
}

/// Serves a connection that sends these bytes. Tells the replies, and whether it broke off.
fn serve<R: AllocGlobal + Print + Wait>(
    rt: &R,
    memory: &mut Memory<'_, MemDisk, R>,
    frames: &[u8],
    marks: Marks,
    told: &mut String,
) -> Result<(), Refusal> {
    let alloc = rt.alloc();
    let mut reader = frames;
    let mut replies = Vec::with_capacity(alloc, ROOM)?;
    marks.begin(rt, told)?;
    let ended = serve_connection(alloc, &mut reader, &mut replies, memory);
    marks.end(rt)?;
    let word = if ended.is_ok() { "ended" } else { "broken" };
    let replies = hexadecimal(alloc, replies.as_slice())?;
    Ok(write!(told, "{word} {replies}")?)
}

/// Serves connections one after another, the first with these marks. Tells the end behind each.
fn serve_each<R: AllocGlobal + Print + Wait>(
    rt: &R,
    memory: &mut Memory<'_, MemDisk, R>,
    names: &Names,
    texts: &[&str],
    first: Marks,
    end: &str,
    told: &mut String,
) -> Result<(), Refusal> {
    let mut marks = first;
    for text in texts {
        let frames = names.bytes(rt.alloc(), text)?;
        serve(rt, memory, frames.as_slice(), marks, told)?;
        told.push_str(end)?;
        marks = Marks::None;
    }
    Ok(())
}

/// Serves the connections of a case: the first between the marks, and the others behind it.
pub(crate) fn play_memory<R: AllocGlobal + Print + Wait>(
    rt: &R,
    case: &Case<'_>,
    told: &mut String,
) -> Result<(), Refusal> {
    let mut memory = begun(rt, None)?;
    let names = Names::new(rt.alloc());
    serve_each(
        rt,
        &mut memory,
        &names,
        &case.called,
        Marks::Both,
        "\n",
        told,
    )
}

/// How many device calls are made before the first change. If one of them fails, the map isn't
/// begun, and is refused with `Failed`.
fn first_calls<R: AllocGlobal + Wait>(rt: &R) -> Result<u64, Refusal> {
    for after in 0..MANY {
        match begun(rt, Some(after)) {
            Ok(_) => return Ok(after),
            Err(Refusal::Failed) => {}
            Err(refusal) => return Err(refusal),
        }
    }
    Err(Refusal::WrongPhase)
}

/// What is replied to the connections of these words, and how long the log is then.
fn replies<R: AllocGlobal + Print + Wait>(
    rt: &R,
    names: &Names,
    words: &[&str],
) -> Result<String, Refusal> {
    let Some((after, texts)) = words.split_first() else {
        return Err(Refusal::WrongPhase);
    };
    let after = match *after {
        "-" => None,
        calls => Some(first_calls(rt)?.saturating_add(number(calls)?)),
    };
    let mut memory = begun(rt, after)?;
    let mut told = String::new(rt.alloc());
    serve_each(rt, &mut memory, names, texts, Marks::None, "; ", &mut told)?;
    match memory.into_disk().len(LOG) {
        Ok(length) => write!(told, "log {length}")?,
        Err(_) => return Err(Refusal::Failed),
    }
    Ok(told)
}

/// What comes of connections of one map whose disk fails behind so many calls for changes. Of the
/// word `first` comes how many are made before.
pub(crate) fn served<R: AllocGlobal + Print + Wait>(
    rt: &R,
    names: &Names,
    input: &str,
) -> Result<String, Refusal> {
    let alloc = rt.alloc();
    if input == "first" {
        let calls = first_calls(rt)?;
        return Ok(format!(in alloc; "{calls} calls")?);
    }
    let words: Vec<&str> = input.split(' ').collect(alloc)?;
    replies(rt, names, words.as_slice())
}
