//! The loops of pairs that are measured: a change and a read of one key.

use crate::caller::Caller;
use crate::kinds::Kind;
use crate::maps::sixteen;
use atomic_methods::Part;
use map_types::{Change, Command, Key, Question, Read, Refusal, Value};
use std::alloc::Global;
use stripe_locks::Stripes;

/// Pairs in each run of a thread.
pub(crate) const PAIRS: u32 = 1_000_000;

/// Keys of four stripes, one for each thread.
const KEYS: [&str; 4] = ["a", "b", "c", "d"];

/// Makes a change of a part that no other thread has.
fn change_part(part: &mut Part, alloc: Global, command: &Command) -> Result<(), Refusal> {
    let prepared = part.prepare(alloc, command)?;
    drop(part.act(&command.key, prepared));
    Ok(())
}

fn put_of(alloc: Global, number: u32) -> Result<Command, Refusal> {
    let key = Key::new(alloc, KEYS[0])?;
    let change = Change::Put(Value::Int(i64::from(number)));
    Ok(Command { key, change })
}

fn put_in_part(part: &mut Part, alloc: Global, number: u32) -> Result<(), Refusal> {
    let command = put_of(alloc, number)?;
    change_part(part, alloc, &command)
}

fn get_of(alloc: Global) -> Result<Read, Refusal> {
    Ok(Read {
        key: Key::new(alloc, KEYS[0])?,
        question: Question::Get,
    })
}

fn get_in_part(part: &Part, alloc: Global) -> Result<(), Refusal> {
    let read = get_of(alloc)?;
    let reply = part.read(&read);
    drop(read);
    drop(reply?);
    Ok(())
}

/// The pairs of the plain loop.
pub(crate) fn pairs_on_a_part(alloc: Global) -> Result<(), Refusal> {
    let mut part = Part::new(alloc, sixteen())?;
    for number in 0..PAIRS {
        put_in_part(&mut part, alloc, number)?;
        get_in_part(&part, alloc)?;
    }
    Ok(())
}

/// The pairs of one of four threads.
pub(crate) fn pairs_on_stripes(
    alloc: Global,
    stripes: &Stripes,
    thread: usize,
) -> Result<(), Refusal> {
    let mut caller = Caller::new(alloc, stripes)?;
    let key = KEYS[thread % 4];
    for number in 0..PAIRS {
        caller.call(Kind::PutNew, key, number)?;
        caller.call(Kind::Get, key, number)?;
    }
    Ok(())
}
