//! Views of a running store, and what a view is asked.
use crate::cases::Case;
use crate::marks::Marks;
use crate::showing::tell_reply;
use crate::steps::asked_in;
use bulk_tasks::{View, view};
use call_text::{Asked, Called, parse_words, reply_text, value_word};
use disk_model::MemDisk;
use durable_map::DurableMap;
use java_hash::StripeCount;
use map_types::{FuncError, Key, Refusal, Reply, Value};
use recovery::open_parts;
use std::alloc::{AllocError, Global};
use std::sync::Wait;
use std::thread::Threads;
use stripe_locks::Released;

/// The running store of a disk.
fn running(
    alloc: Global,
    disk: MemDisk,
    stripes: StripeCount,
) -> Result<DurableMap<MemDisk>, Refusal> {
    let (keeper, parts, first, limit) = match open_parts(alloc, disk, stripes) {
        Ok(opened) => opened,
        Err((_disk, refusal)) => return Err(refusal),
    };
    match DurableMap::new(alloc, keeper, parts, first, limit) {
        Ok(map) => Ok(map),
        Err((_disk, refusal)) => Err(refusal),
    }
}

/// Tells the mark of each stripe, and how many entries there are.
fn tell_view(view: &View, stripes: StripeCount, told: &mut String) -> Result<(), AllocError> {
    told.push_str("viewed, marks")?;
    for stripe in 0..stripes.get() {
        match view.mark(stripe) {
            Some(mark) => write!(told, " {mark}")?,
            None => told.push_str(" none")?,
        }
    }
    let count = view.count();
    writeln!(told, ", entries {count}")
}

/// Makes a read by a new pass, and tells its reply. It is refused if the stripe is held.
fn read_by_another(
    alloc: Global,
    map: &DurableMap<MemDisk>,
    text: &str,
    told: &mut String,
) -> Result<(), Refusal> {
    let Asked::Read(read) = asked_in(alloc, text)? else {
        return Err(Refusal::WrongPhase);
    };
    let mut pass = map.pass()?;
    let held = map.try_read(&mut pass, read)?;
    match map.release(&mut pass, held) {
        Released::Reply(position, reply) => tell_reply(alloc, position.number(), &reply, told)?,
        Released::NotYet(_) => told.push_str("not yet")?,
        Released::Failed => told.push_str("failed")?,
    }
    Ok(told.push_str("\n")?)
}

/// Takes a view by a new pass, and makes the reads of the case behind it: they show that its
/// stripes are free. Says whether it was refused.
fn take<R: AllocGlobal + Print + Wait>(
    rt: &R,
    map: &DurableMap<MemDisk>,
    case: &Case<'_>,
    marks: Marks,
    told: &mut String,
) -> Result<bool, Refusal> {
    let mut pass = map.pass()?;
    marks.begin(rt, told)?;
    let answer = view(rt, rt.alloc(), map, &mut pass);
    marks.end(rt)?;
    match &answer {
        Ok(view) => tell_view(view, case.stripes, told)?,
        Err(refusal) => writeln!(told, "refused {refusal}")?,
    }
    for text in &case.called {
        read_by_another(rt.alloc(), map, text, told)?;
    }
    Ok(answer.is_err())
}

/// Takes a view of what the disk has between the marks, and again if it was refused.
pub(crate) fn play_view<R: AllocGlobal + Print + Wait>(
    rt: &R,
    case: &Case<'_>,
    disk: MemDisk,
    told: &mut String,
) -> Result<(), Refusal> {
    let map = running(rt.alloc(), disk, case.stripes)?;
    if take(rt, &map, case, Marks::Both, told)? {
        take(rt, &map, case, Marks::Again, told)?;
    }
    Ok(())
}

/// What a view answers.
#[derive(Drop)]
enum Answer {
    /// How many entries there are.
    Counted(usize),
    /// What their values come to.
    Reduced(Result<Option<Value>, FuncError>),
    /// The least key with the value.
    Found(Option<Key>),
}

/// Asks the view. Of one key it is asked nothing.
fn answer_of<R: Threads + Sync>(rt: &R, view: &View, called: &Called) -> Result<Answer, Refusal> {
    Ok(match called {
        Called::Keyed(_) => return Err(Refusal::UnknownMethod),
        Called::Count => Answer::Counted(view.count()),
        Called::Reduce(func, threshold) => Answer::Reduced(view.reduce(rt, *func, *threshold)?),
        Called::Search(threshold, sought) => Answer::Found(view.search(rt, sought, *threshold)?),
    })
}

/// Tells what the view answered.
fn tell_answer(
    alloc: Global,
    answer: &Result<Answer, Refusal>,
    told: &mut String,
) -> Result<(), AllocError> {
    match answer {
        Ok(Answer::Counted(count)) => writeln!(told, "counted {count}"),
        Ok(Answer::Reduced(Ok(value))) => {
            let word = value_word(alloc, value)?;
            writeln!(told, "reduced {word}")
        }
        Ok(Answer::Reduced(Err(fault))) => {
            let text = reply_text(alloc, &Reply::Fault(*fault))?;
            writeln!(told, "reduced {text}")
        }
        Ok(Answer::Found(Some(key))) => {
            let key = key.as_str();
            writeln!(told, "found {key}")
        }
        Ok(Answer::Found(None)) => told.push_str("found none\n"),
        Err(refusal) => writeln!(told, "refused {refusal}"),
    }
}

/// Asks the view what a text asks, and tells the answer. Says whether it was refused.
fn ask<R: AllocGlobal + Print + Threads + Sync>(
    rt: &R,
    view: &View,
    text: &str,
    marks: Marks,
    told: &mut String,
) -> Result<bool, Refusal> {
    let alloc = rt.alloc();
    let words: Vec<&str> = text.split(' ').collect(alloc)?;
    let Ok(called) = parse_words(alloc, words.as_slice()) else {
        return Err(Refusal::WrongPhase);
    };
    marks.begin(rt, told)?;
    let answer = answer_of(rt, view, &called);
    marks.end(rt)?;
    tell_answer(alloc, &answer, told)?;
    Ok(answer.is_err())
}

/// Asks a view of what the disk has each question of a case between the marks, and again if it was
/// refused.
pub(crate) fn play_asked<R: AllocGlobal + Print + Wait + Threads + Sync>(
    rt: &R,
    case: &Case<'_>,
    disk: MemDisk,
    told: &mut String,
) -> Result<(), Refusal> {
    let map = running(rt.alloc(), disk, case.stripes)?;
    let mut pass = map.pass()?;
    let view = view(rt, rt.alloc(), &map, &mut pass)?;
    for text in &case.called {
        if ask(rt, &view, text, Marks::Both, told)? {
            ask(rt, &view, text, Marks::Again, told)?;
        }
    }
    Ok(())
}
