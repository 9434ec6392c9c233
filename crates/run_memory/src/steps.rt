//! The steps of a store, and how they are written.
use call_text::{Asked, parse_call};
use map_types::{Change, Command, Key, Refusal, Value};
use run_cases::number;
use std::alloc::Global;

/// More commands than a batch may have.
pub(crate) const MOST: u32 = 100_000;

/// How many bytes the longest text has.
const TEXT_BYTES: usize = 4096;

/// What a keeper does with its files alone.
#[derive(Clone, Copy)]
pub(crate) enum Keeping {
    /// Stages at most so many commands: how many.
    Stage(u32),
    /// From now on so many zeros are written ahead at a time.
    SetAhead(usize),
    /// Writes zeros ahead of what is staged.
    WriteAhead,
    /// Makes the device call of the log that is due: how many commands are committed then.
    Log,
    /// Where the gate of the newest log is.
    Gate,
    /// Begins a checkpoint.
    Begin,
    /// Makes the device call of the checkpoint that is due: the generation of the sealed one then.
    Write,
    /// Has the checkpoint sealed by its next device calls.
    Seal,
}

/// What a keeper does with the stripes.
#[derive(Clone, Copy)]
pub(crate) enum Walk {
    /// Sweeps all stripes: how many tickets there were.
    Sweep,
    /// Sweeps one stripe, and doesn't wait for it: its number.
    TrySweep(usize),
    /// Publishes what is committed: how many commands.
    Publish,
    /// Makes a FAIL.
    Fail,
    /// Captures the stripe, and waits for it if another holds it: its mark.
    Capture(usize),
    /// Captures the stripe, and doesn't wait for it: its mark.
    TryCapture(usize),
}

/// A step of a store.
#[derive(Drop)]
pub(crate) enum Step {
    /// A call of the worker, which holds its reply: its position.
    Call(Asked),
    /// The same, but a change waits for its stripe.
    WaitingCall(Asked),
    /// A call of a new pass: its position.
    CallByAnother(Asked),
    /// Of the keeper.
    Keep(Keeping),
    /// Of the keeper, over the stripes.
    Walk(Walk),
}

/// What the words ask of a key.
pub(crate) fn asked_in(alloc: Global, text: &str) -> Result<Asked, Refusal> {
    let words: Vec<&str> = text.split(' ').collect(alloc)?;
    match parse_call(alloc, words.as_slice()) {
        Ok(asked) => Ok(asked),
        Err(_) => Err(Refusal::WrongPhase),
    }
}

/// The change with the longest record of a key of so many bytes.
fn longest(alloc: Global, bytes: &str) -> Result<Asked, Refusal> {
    let Ok(bytes) = bytes.parse::<u16>() else {
        return Err(Refusal::WrongPhase);
    };
    let key = "x".repeat(alloc, usize::from(bytes))?;
    let text = "x".repeat(alloc, TEXT_BYTES)?;
    Ok(Asked::Change(Command {
        key: Key::new(alloc, key.as_str())?,
        change: Change::ReplaceIf {
            old: Value::text(alloc, text.as_str())?,
            new: Value::text(alloc, text.as_str())?,
        },
    }))
}

/// The step that is written so: a word with what belongs to it, or the words of a call of the
/// worker.
pub(crate) fn step_of(alloc: Global, text: &str) -> Result<Step, Refusal> {
    let (word, rest) = text.split_once(' ').unwrap_or((text, ""));
    Ok(match word {
        "longest" => Step::Call(longest(alloc, rest)?),
        "waiting" => Step::WaitingCall(asked_in(alloc, rest)?),
        "another" => Step::CallByAnother(asked_in(alloc, rest)?),
        "stage" => Step::Keep(Keeping::Stage(rest.parse::<u32>().unwrap_or(MOST))),
        "ahead" => Step::Keep(Keeping::SetAhead(number(rest)? as usize)),
        "write_ahead" => Step::Keep(Keeping::WriteAhead),
        "log" => Step::Keep(Keeping::Log),
        "gate" => Step::Keep(Keeping::Gate),
        "begin" => Step::Keep(Keeping::Begin),
        "write" => Step::Keep(Keeping::Write),
        "seal" => Step::Keep(Keeping::Seal),
        "sweep" => Step::Walk(Walk::Sweep),
        "try_sweep" => Step::Walk(Walk::TrySweep(number(rest)? as usize)),
        "publish" => Step::Walk(Walk::Publish),
        "fail" => Step::Walk(Walk::Fail),
        "capture" => Step::Walk(Walk::Capture(number(rest)? as usize)),
        "try_capture" => Step::Walk(Walk::TryCapture(number(rest)? as usize)),
        _ => Step::Call(asked_in(alloc, text)?),
    })
}
