//! The words of a line.
ghost use Rattle.std.specs.Prelude.{[], map};
ghost use Rattle.sim_script.specs.LineWords.{Gives};
ghost use Rattle.sim_script.specs.Lines.{alone, capture_of, device_of, ending_of, go_of, line_of, only_worker, open_of, release_of, side_of, stage_of, start_of, step_of, stop_in_of, stop_of, sweep_of};

use crate::bad_line::{BadLine, LineError};
use crate::line::{Form, Line};
use crate::words::{fill_of, stripes_of, u32_of, u64_of, usize_of, worker_of};
use call_text::{Asked, CallError, parse_call};
use sim_rules::{Ending, Event, Side};
use std::alloc::Global;

fn single(event: Event) -> Result<Line, LineError>
    ensures { Gives (λ line. line) result (alone event []) }
{
    let form = Form::Single;
    Ok(Line { form, event })
}

/// A line of one event, which nothing follows.
fn alone(event: Event, words: &[&str]) -> Result<Line, LineError>
    ensures { Gives (λ line. line) result (alone event (map (λ word. word.now) words.now)) }
{
    if words.is_empty() {
        single(event)
    } else {
        Err(LineError::Bad(BadLine::Unknown))
    }
}

#[tactic(auto, unfolding(crate::specs::Lines::open_of))]
fn open_of(words: &[&str]) -> Result<Line, LineError>
    ensures { Gives (λ line. line) result (open_of (map (λ word. word.now) words.now)) }
{
    match words {
        [count] => {
            let stripes = stripes_of(count)?;
            let fails_at = None;
            single(Event::Open { stripes, fails_at })
        }
        [count, word, number] if *word == "fail" => {
            let stripes = stripes_of(count)?;
            match u64_of(number) {
                None => Err(LineError::Bad(BadLine::Number)),
                fails_at => single(Event::Open { stripes, fails_at }),
            }
        }
        _ => Err(LineError::Bad(BadLine::Unknown)),
    }
}

#[tactic(auto, unfolding(crate::specs::Lines::start_of))]
fn start_of(alloc: Global, words: &[&str]) -> Result<Line, LineError>
    ensures { Gives (λ line. line) result (start_of (map (λ word. word.now) words.now)) }
{
    let Some((word, words)) = words.split_first() else {
        return Err(LineError::Bad(BadLine::Unknown));
    };
    let worker = worker_of(word)?;
    let form = Form::Start { worker };
    match parse_call(alloc, words) {
        Ok(Asked::Change(command)) => {
            let event = Event::Change { worker, command };
            Ok(Line { form, event })
        }
        Ok(Asked::Read(read)) => {
            let event = Event::Read { worker, read };
            Ok(Line { form, event })
        }
        Err(CallError::Bad(word)) => Err(LineError::Bad(BadLine::Call(word))),
        Err(CallError::NoMemory) => Err(LineError::NoMemory),
    }
}

#[tactic(auto, unfolding(crate::specs::Lines::only_worker))]
fn only_worker(words: &[&str]) -> Result<usize, LineError>
    ensures { Gives (λ worker. worker) result (only_worker (map (λ word. word.now) words.now)) }
{
    match words {
        [word] => worker_of(word),
        _ => Err(LineError::Bad(BadLine::Unknown)),
    }
}

#[tactic(auto, unfolding(crate::specs::Lines::step_of))]
fn step_of(words: &[&str]) -> Result<Line, LineError>
    ensures { Gives (λ line. line) result (step_of (map (λ word. word.now) words.now)) }
{
    let worker = only_worker(words)?;
    let form = Form::Step { worker };
    let event = Event::Step { worker };
    Ok(Line { form, event })
}

#[tactic(auto, unfolding(crate::specs::Lines::go_of))]
fn go_of(words: &[&str]) -> Result<Line, LineError>
    ensures { Gives (λ line. line) result (go_of (map (λ word. word.now) words.now)) }
{
    let worker = only_worker(words)?;
    let form = Form::Go { worker };
    let event = Event::Step { worker };
    Ok(Line { form, event })
}

#[tactic(auto, unfolding(crate::specs::Lines::release_of))]
fn release_of(words: &[&str]) -> Result<Line, LineError>
    ensures { Gives (λ line. line) result (release_of (map (λ word. word.now) words.now)) }
{
    let worker = only_worker(words)?;
    let form = Form::Release { worker };
    let event = Event::Release { worker };
    Ok(Line { form, event })
}

fn sweep_of(words: &[&str]) -> Result<Line, LineError>
    ensures { Gives (λ line. line) result (sweep_of (map (λ word. word.now) words.now)) }
{
    if words.is_empty() {
        let form = Form::Sweep;
        let event = Event::Sweep;
        Ok(Line { form, event })
    } else {
        Err(LineError::Bad(BadLine::Unknown))
    }
}

#[tactic(auto, unfolding(crate::specs::Lines::stage_of))]
fn stage_of(words: &[&str]) -> Result<Line, LineError>
    ensures { Gives (λ line. line) result (stage_of (map (λ word. word.now) words.now)) }
{
    match words {
        [word] => match u32_of(word) {
            Some(most) => single(Event::Stage { most }),
            None => Err(LineError::Bad(BadLine::Number)),
        },
        _ => Err(LineError::Bad(BadLine::Unknown)),
    }
}

#[tactic(auto, unfolding(crate::specs::Lines::capture_of))]
fn capture_of(words: &[&str]) -> Result<Line, LineError>
    ensures { Gives (λ line. line) result (capture_of (map (λ word. word.now) words.now)) }
{
    match words {
        [word] => match usize_of(word) {
            Some(stripe) => {
                let form = Form::Capture;
                let event = Event::Capture { stripe };
                Ok(Line { form, event })
            }
            None => Err(LineError::Bad(BadLine::Number)),
        },
        _ => Err(LineError::Bad(BadLine::Unknown)),
    }
}

/// How a device call ends.
#[tactic(auto, unfolding(crate::specs::Lines::ending_of))]
fn ending_of(words: &[&str]) -> Result<Ending, LineError>
    ensures { Gives (λ ending. ending) result (ending_of (map (λ word. word.now) words.now)) }
{
    match words {
        [word] if *word == "ok" => Ok(Ending::Done),
        [word, fill] if *word == "fail" => Ok(Ending::Fails(fill_of(fill)?)),
        _ => Err(LineError::Bad(BadLine::Unknown)),
    }
}

#[tactic(auto, unfolding(crate::specs::Lines::device_of))]
fn device_of(side: Side, words: &[&str]) -> Result<Line, LineError>
    ensures { Gives (λ line. line) result (device_of side (map (λ word. word.now) words.now)) }
{
    let ending = ending_of(words)?;
    single(Event::Device { side, ending })
}

#[tactic(auto, unfolding(crate::specs::Lines::stop_of))]
fn stop_of(words: &[&str]) -> Result<Line, LineError>
    ensures { Gives (λ line. line) result (stop_of (map (λ word. word.now) words.now)) }
{
    match words {
        [word] => {
            let within = None;
            let fill = fill_of(word)?;
            single(Event::Stop { within, fill })
        }
        _ => Err(LineError::Bad(BadLine::Unknown)),
    }
}

fn side_of(word: &str) -> Result<Side, LineError>
    ensures { Gives (λ side. side) result (side_of word.now) }
{
    match word {
        "log" => Ok(Side::Log),
        "ckpt" => Ok(Side::Checkpoint),
        _ => Err(LineError::Bad(BadLine::Unknown)),
    }
}

#[tactic(auto, unfolding(crate::specs::Lines::stop_in_of))]
fn stop_in_of(words: &[&str]) -> Result<Line, LineError>
    ensures { Gives (λ line. line) result (stop_in_of (map (λ word. word.now) words.now)) }
{
    match words {
        [word, fill] => {
            let within = Some(side_of(word)?);
            let fill = fill_of(fill)?;
            single(Event::Stop { within, fill })
        }
        _ => Err(LineError::Bad(BadLine::Unknown)),
    }
}

/// The line of these words.
#[tactic(auto, unfolding(crate::specs::Lines::line_of))]
pub(crate) fn line_of(alloc: Global, words: &[&str]) -> Result<Line, LineError>
    ensures { Gives (λ line. line) result (line_of (map (λ word. word.now) words.now)) }
{
    let Some((name, words)) = words.split_first() else {
        return Err(LineError::Bad(BadLine::Unknown));
    };
    match *name {
        "old" => alone(Event::Old, words),
        "open" => open_of(words),
        "start" => start_of(alloc, words),
        "step" => step_of(words),
        "go" => go_of(words),
        "release" => release_of(words),
        "sweep" => sweep_of(words),
        "stage" => stage_of(words),
        "log" => device_of(Side::Log, words),
        "publish" => alone(Event::Publish, words),
        "fail" => alone(Event::Fail, words),
        "begin" => alone(Event::Begin, words),
        "capture" => capture_of(words),
        "seal" => alone(Event::Seal, words),
        "ckpt" => device_of(Side::Checkpoint, words),
        "stop" => stop_of(words),
        "stop-in" => stop_in_of(words),
        "leave" => alone(Event::Leave, words),
        _ => Err(LineError::Bad(BadLine::Unknown)),
    }
}
