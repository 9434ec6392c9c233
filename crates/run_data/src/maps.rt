//! Calls of a map, on the plain program and on a part.
use atomic_methods::Part;
use call_text::{Asked, CallError, parse_call, reply_text};
use java_hash::StripeCount;
use map_model::ReferenceMap;
use map_types::{Command, Read, Refusal, Reply};
use run_cases::put_entries;
use std::alloc::Global;

/// The reply of both maps.
fn reply_of(alloc: Global, reference: &Reply, reply: &Reply) -> Result<String, Refusal> {
    let text = reply_text(alloc, reply)?;
    if reply == reference {
        return Ok(text);
    }
    let other = reply_text(alloc, reference)?;
    Ok(format!(in alloc; "{text} of the part and {other} of the plain map")?)
}

fn changed(
    alloc: Global,
    reference: &mut ReferenceMap,
    part: &mut Part,
    command: &Command,
) -> Result<String, Refusal> {
    let prepared = part.prepare(alloc, command)?;
    let reply = part.act(&command.key, prepared);
    let expected = reference.change(alloc, command)?;
    reply_of(alloc, &expected, &reply)
}

fn read(
    alloc: Global,
    reference: &ReferenceMap,
    part: &Part,
    read: &Read,
) -> Result<String, Refusal> {
    let reply = part.read(read)?;
    let expected = reference.read(read)?;
    reply_of(alloc, &expected, &reply)
}

fn made(
    alloc: Global,
    reference: &mut ReferenceMap,
    part: &mut Part,
    asked: &Result<Asked, CallError>,
) -> Result<String, Refusal> {
    match asked {
        Ok(Asked::Change(command)) => changed(alloc, reference, part, command),
        Ok(Asked::Read(asked)) => read(alloc, reference, part, asked),
        Err(_) => Err(Refusal::WrongPhase),
    }
}

/// The reply to the call of these words.
fn answered(
    alloc: Global,
    reference: &mut ReferenceMap,
    part: &mut Part,
    call: &str,
) -> Result<String, Refusal> {
    let words: Vec<&str> = call.split(' ').collect(alloc)?;
    let asked = parse_call(alloc, &words);
    let told = made(alloc, reference, part, &asked);
    drop(asked);
    told
}

/// How many entries there are, and then the keys and values.
fn put_part(alloc: Global, part: &Part, told: &mut String) -> Result<(), Refusal> {
    let count = part.len();
    if part.is_empty() != (count == 0) {
        return Err(Refusal::WrongPhase);
    }
    write!(told, "{count}:")?;
    let entries = part.entries_sorted(alloc)?;
    put_entries(&entries, told)?;
    Ok(())
}

fn all_answered(
    alloc: Global,
    reference: &mut ReferenceMap,
    part: &mut Part,
    calls: &str,
) -> Result<String, Refusal> {
    let mut told = String::new(alloc);
    for call in calls.split(';') {
        let text = answered(alloc, reference, part, call)?;
        write!(told, "{text}; ")?;
    }
    put_part(alloc, part, &mut told)?;
    Ok(told)
}

/// The replies to these calls of a new map, which stand with a semicolon between them, and what is mapped
/// then.
pub(crate) fn calls(alloc: Global, calls: &str) -> Result<String, Refusal> {
    let Some(stripes) = StripeCount::new(16) else {
        return Err(Refusal::WrongPhase);
    };
    let mut reference = ReferenceMap::new(alloc);
    let mut part = Part::new(alloc, stripes)?;
    let text = all_answered(alloc, &mut reference, &mut part, calls)?;
    if reference.entries().count() != part.len() {
        return Err(Refusal::WrongPhase);
    }
    Ok(text)
}
