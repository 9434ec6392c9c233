//! Calls between marks, and what stands before and after them.
use crate::cases::{Case, case_of};
use crate::connection::play_memory;
use crate::formatting::play_format;
use crate::growing::play_growing;
use crate::marks::Marks;
use crate::openings::play_opening;
use crate::showing::tell_answer;
use crate::steps::step_of;
use crate::store::Store;
use crate::views::{play_asked, play_view};
use disk_model::MemDisk;
use map_types::Refusal;
use recovery::format;
use std::io;
use std::sync::Wait;
use std::thread::Threads;

/// All that the stripes have is committed and published.
const COMMIT: [&str; 4] = ["sweep", "stage", "4*log", "publish"];

/// All that the stripes have is committed and published. A checkpoint is begun with its log, and
/// waits for its first section.
const BEGIN: [&str; 7] = [
    "sweep", "stage", "4*log", "publish", "begin", "6*log", "3*write",
];

/// What is made between the marks, and how what it answers is named.
#[derive(Clone, Copy)]
struct Made<'a> {
    step: &'a str,
    answer: &'a str,
    /// Whether what stands in the keeper is told too.
    is_keepers: bool,
}

/// Tells what stands.
fn show(store: &Store, made: Made<'_>, told: &mut String) -> Result<(), Refusal> {
    store.show_stripes(told)?;
    if made.is_keepers {
        store.show_keeper(told)?;
    }
    Ok(())
}

/// Makes the step. Tells what was answered and what stands after it, and says whether it was
/// refused.
fn make<R: AllocGlobal + Print + Wait>(
    rt: &R,
    store: &mut Store,
    made: Made<'_>,
    marks: Marks,
    told: &mut String,
) -> Result<bool, Refusal> {
    let step = step_of(rt.alloc(), made.step)?;
    marks.begin(rt, told)?;
    let answer = store.make(rt, step);
    marks.end(rt)?;
    tell_answer(made.answer, answer, told)?;
    told.push_str("\n")?;
    show(store, made, told)?;
    Ok(answer.is_err())
}

/// Makes the step between the marks, and again if it was refused.
fn make_in_time<R: AllocGlobal + Print + Wait>(
    rt: &R,
    store: &mut Store,
    made: Made<'_>,
    told: &mut String,
) -> Result<(), Refusal> {
    if make(rt, store, made, Marks::Both, told)? {
        make(rt, store, made, Marks::Again, told)?;
    }
    Ok(())
}

/// A new store with the state of a case.
fn with_state<R: AllocGlobal + Wait>(rt: &R, case: &Case<'_>) -> Result<Store, Refusal> {
    let alloc = rt.alloc();
    let mut disk = MemDisk::new(alloc);
    format(alloc, &mut disk, case.stripes)?;
    let mut store = Store::open(alloc, disk, case.stripes)?;
    for text in &case.state {
        let change = format!(in alloc; "another {text}")?;
        store.take(rt, change.as_str())?;
    }
    Ok(store)
}

/// The disk of a store with the state of a case, which is committed.
fn committed<R: AllocGlobal + Wait>(rt: &R, case: &Case<'_>) -> Result<MemDisk, Refusal> {
    let mut store = with_state(rt, case)?;
    store.take_each(rt, &COMMIT)?;
    Ok(store.into_disk())
}

/// Makes a call of the worker, and tells its reply once that is durable.
fn play_call<R: AllocGlobal + Print + Wait>(
    rt: &R,
    store: &mut Store,
    step: &str,
    told: &mut String,
) -> Result<(), Refusal> {
    let made = Made {
        step,
        answer: "held ",
        is_keepers: false,
    };
    make_in_time(rt, store, made, told)?;
    store.take_each(rt, &COMMIT)?;
    let released = store.release()?;
    Ok(writeln!(told, "{released}")?)
}

/// Makes the calls of a case on its state. A change waits for its stripe if it is to.
fn play_calls<R: AllocGlobal + Print + Wait>(
    rt: &R,
    case: &Case<'_>,
    front: &str,
    told: &mut String,
) -> Result<(), Refusal> {
    let mut store = with_state(rt, case)?;
    store.show_stripes(told)?;
    for text in &case.called {
        let step = format!(in rt.alloc(); "{front}{text}")?;
        play_call(rt, &mut store, step.as_str(), told)?;
    }
    Ok(())
}

/// Makes the steps that come before, and then the step of a case on its state.
fn play_step<R: AllocGlobal + Print + Wait>(
    rt: &R,
    case: &Case<'_>,
    before: &[&str],
    made: Made<'_>,
    told: &mut String,
) -> Result<Store, Refusal> {
    let mut store = with_state(rt, case)?;
    store.take_each(rt, before)?;
    show(&store, made, told)?;
    make_in_time(rt, &mut store, made, told)?;
    Ok(store)
}

/// Sweeps or stages what a case has, and commits what is left.
fn play_sweep<R: AllocGlobal + Print + Wait>(
    rt: &R,
    case: &Case<'_>,
    before: &[&str],
    step: &str,
    told: &mut String,
) -> Result<(), Refusal> {
    let made = Made {
        step,
        answer: "answer ",
        is_keepers: true,
    };
    let mut store = play_step(rt, case, before, made, told)?;
    tell_answer("swept ", store.take(rt, "sweep"), told)?;
    told.push_str("\n")?;
    tell_answer("staged ", store.take(rt, "stage"), told)?;
    told.push_str("\n")?;
    store.take(rt, "4*log")?;
    Ok(store.show_keeper(told)?)
}

/// Captures the first stripe of the state of a case, at the begin of a checkpoint.
fn play_capture<R: AllocGlobal + Print + Wait>(
    rt: &R,
    case: &Case<'_>,
    step: &str,
    told: &mut String,
) -> Result<(), Refusal> {
    let made = Made {
        step,
        answer: "mark ",
        is_keepers: true,
    };
    play_step(rt, case, &BEGIN, made, told)?;
    Ok(())
}

/// Plays the case of a line, by the word of what it calls. What is told of it stands behind what was
/// printed.
fn play<R: AllocGlobal + Print + Wait + Threads + Sync>(
    rt: &R,
    line: &str,
    told: &mut String,
) -> Result<(), Refusal> {
    let case = case_of(rt.alloc(), line)?;
    match case.word {
        "try_call" | "try_read" => play_calls(rt, &case, "", told),
        "call" => play_calls(rt, &case, "waiting ", told),
        "sweep" => play_sweep(rt, &case, &[], "sweep", told),
        "try_sweep" => play_sweep(rt, &case, &[], "try_sweep 1", told),
        "stage_batch" => play_sweep(rt, &case, &["sweep"], "stage", told),
        "capture" => play_capture(rt, &case, "capture 0", told),
        "try_capture" => play_capture(rt, &case, "try_capture 0", told),
        "format_memory" => play_format(rt, &case, told),
        "open" | "open_parts" => play_opening(rt, &case, committed(rt, &case)?, told),
        "memory" => play_memory(rt, &case, told),
        "growing" => play_growing(rt, &case, told),
        "view" => play_view(rt, &case, committed(rt, &case)?, told),
        "asked_of_view" => play_asked(rt, &case, committed(rt, &case)?, told),
        _ => Err(Refusal::WrongPhase),
    }
}

/// Plays the case of a line, and prints what is told of it.
pub(crate) fn play_line<R: AllocGlobal + Print + Wait + Threads + Sync>(
    rt: &R,
    line: &str,
) -> io::Result<()> {
    if line.is_empty() || line.starts_with('#') {
        return Ok(());
    }
    println!(rt; "{line}")?;
    let mut told = String::new(rt.alloc());
    let played = play(rt, line, &mut told);
    print!(rt; "{told}")?;
    match played {
        Ok(()) => Ok(()),
        Err(refusal) => println!(rt; "not played: refused {refusal}"),
    }
}
