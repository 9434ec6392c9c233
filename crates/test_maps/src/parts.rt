//! One part: its longest texts, a change that is ready, and memory that is refused.
use crate::checks::assert_same;
use atomic_methods::{Acted, Part, Ready, Unready};
use java_hash::StripeCount;
use map_types::{Change, Command, Func, FuncError, Key, Question, Read, Refusal, Reply, Value};
use std::alloc::Global;

pub(crate) fn empty_part(alloc: Global) -> Result<Part, Refusal> {
    match StripeCount::new(16) {
        Some(stripes) => Ok(Part::new(alloc, stripes)?),
        None => Err(Refusal::WrongPhase),
    }
}

pub(crate) fn text_of(alloc: Global, len: usize) -> Result<Value, Refusal> {
    let text = "v".repeat(alloc, len)?;
    Value::text(alloc, text.as_str())
}

/// A change, by the number that it puts, or the length of its text.
pub(crate) enum Step {
    Put(i64),
    PutText(usize),
    JoinText(usize),
    Remove,
    RemoveText(usize),
}

fn change_of(alloc: Global, step: &Step) -> Result<Change, Refusal> {
    match step {
        Step::Put(number) => Ok(Change::Put(Value::Int(*number))),
        Step::PutText(len) => Ok(Change::Put(text_of(alloc, *len)?)),
        Step::JoinText(len) => Ok(Change::Merge(Func::Concat, text_of(alloc, *len)?)),
        Step::Remove => Ok(Change::Remove),
        Step::RemoveText(len) => Ok(Change::RemoveIf(text_of(alloc, *len)?)),
    }
}

pub(crate) fn command(alloc: Global, key: &str, step: &Step) -> Result<Command, Refusal> {
    let key = Key::new(alloc, key)?;
    let change = change_of(alloc, step)?;
    Ok(Command { key, change })
}

/// What is replied, in short.
fn reply_text(reply: &Reply) -> &'static str {
    match reply {
        Reply::Was(None) => "was nothing",
        Reply::Did(true) => "did",
        Reply::Now(Some(Value::Int(5))) => "now 5",
        Reply::Now(Some(Value::Text(_))) => "now a text",
        Reply::Fault(FuncError::TooLong) => "too long",
        _ => "another reply",
    }
}

fn answer_text(answer: Result<Reply, Refusal>) -> Result<&'static str, Refusal> {
    let reply = answer?;
    Ok(reply_text(&reply))
}

pub(crate) fn changed(part: &mut Part, alloc: Global, command: &Command) -> Result<Reply, Refusal> {
    let prepared = part.prepare(alloc, command)?;
    Ok(part.act(&command.key, prepared))
}

/// Makes the change of the key "k". What is replied.
fn change(part: &mut Part, alloc: Global, step: &Step) -> Result<&'static str, Refusal> {
    let command = command(alloc, "k", step)?;
    let reply = changed(part, alloc, &command);
    drop(command);
    answer_text(reply)
}

/// Changes of the key "k" in turn, and what is replied: a text that is joined by one byte has at
/// most 4096.
static LONGEST: [(Step, &str); 6] = [
    (Step::PutText(4096), "was nothing"),
    (Step::JoinText(1), "too long"),
    (Step::RemoveText(4096), "did"),
    (Step::PutText(4095), "was nothing"),
    (Step::JoinText(1), "now a text"),
    (Step::RemoveText(4096), "did"),
];

/// The number of the first of these changes that comes out otherwise, if any.
fn first_wrong(alloc: Global, part: &mut Part) -> Result<Option<usize>, Refusal> {
    for number in 0..LONGEST.len() {
        let (step, reply) = &LONGEST[number];
        if change(part, alloc, step)? != *reply {
            return Ok(Some(number));
        }
    }
    Ok(None)
}

#[test]
fn longest_text(rt: HostRuntime) {
    let mut part = empty_part(rt.alloc()).expect(&rt, "a part");
    let wrong = first_wrong(rt.alloc(), &mut part);
    drop(part);
    assert_same(&rt, &wrong, &Ok(None));
}

/// What is replied to a change that was ready, and how many entries it leaves.
fn left_by(acted: &Acted) -> (&'static str, usize) {
    (reply_text(&acted.reply), acted.part.len())
}

fn act(ready: Ready) -> (&'static str, usize) {
    let acted = ready.act();
    let left = left_by(&acted);
    drop(acted);
    left
}

fn act_if_ready(ready: Result<Ready, Unready>) -> Result<(&'static str, usize), Refusal> {
    match ready {
        Ok(ready) => Ok(act(ready)),
        Err(unready) => {
            let refusal = unready.refusal;
            drop(unready);
            Err(refusal)
        }
    }
}

fn act_on_empty(alloc: Global, command: Command) -> Result<(&'static str, usize), Refusal> {
    match empty_part(alloc) {
        Ok(part) => act_if_ready(Ready::new(alloc, part, command)),
        Err(refusal) => {
            drop(command);
            Err(refusal)
        }
    }
}

/// What comes of a put in an empty part.
fn acted(alloc: Global) -> Result<(&'static str, usize), Refusal> {
    let command = command(alloc, "a", &Step::Put(5))?;
    act_on_empty(alloc, command)
}

#[test]
fn ready_change(rt: HostRuntime) {
    assert_same(&rt, &acted(rt.alloc()), &Ok(("was nothing", 1)));
}

/// What the key "k" has, and how many entries there are.
fn content(alloc: Global, part: &Part) -> Result<(&'static str, usize), Refusal> {
    let read = Read {
        key: Key::new(alloc, "k")?,
        question: Question::Get,
    };
    let reply = part.read(&read);
    drop(read);
    Ok((answer_text(reply)?, part.len()))
}

fn is_ready(part: &mut Part, alloc: Global, command: &Command) -> bool {
    let prepared = part.prepare(alloc, command);
    let is_ready = prepared.is_ok();
    drop(prepared);
    is_ready
}

/// Prepares the change of a key, which may be refused. The content behind it.
fn content_behind(
    alloc: Global,
    part: &mut Part,
    key: &str,
    step: &Step,
) -> Result<(&'static str, usize), Refusal> {
    let command = command(alloc, key, step)?;
    let _is_ready = is_ready(part, alloc, &command);
    drop(command);
    content(alloc, part)
}

/// Keys, and changes that are prepared and not made.
static PREPARED: [(&str, Step); 3] = [
    ("k", Step::Put(6)),
    ("k", Step::Remove),
    ("b", Step::Put(7)),
];

/// Maps the key "k" to 5. The number of the first prepared change that leaves another content, if
/// any.
fn first_unkept(alloc: Global, part: &mut Part) -> Result<Option<usize>, Refusal> {
    change(part, alloc, &Step::Put(5))?;
    for number in 0..PREPARED.len() {
        let (key, step) = &PREPARED[number];
        if content_behind(alloc, part, key, step)? != ("now 5", 1) {
            return Ok(Some(number));
        }
    }
    Ok(None)
}

/// Whichever one allocation is refused, a change that isn't prepared leaves the content.
#[test]
fn refused_memory(rt: HostRuntime) {
    let mut part = empty_part(rt.alloc()).expect(&rt, "a part");
    let unkept = first_unkept(rt.alloc(), &mut part);
    drop(part);
    assert_same(&rt, &unkept, &Ok(None));
}
