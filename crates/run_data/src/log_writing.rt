//! Logs as they are written, with failures and stops.
ghost use Rattle.std.specs.Prelude.{◌≡◌, ◌<◌, List, IfOk, false};
ghost use Rattle.disk_model.specs.Files.{File};
ghost use Rattle.disk_model.specs.Memory.{memory_states};
ghost use Rattle.store_layout.specs.Logs.{Batch};
ghost use Rattle.gate_log.specs.LogSteps.{MayAdvance};
ghost use Rattle.gate_log.specs.LogStates.{Stands};

use crate::disks::content;
use crate::fills::{failure_of, stop};
use call_text::refusal_text;
use disk_model::{Disk, Failure, Fill, MemDisk};
use gate_log::{Found, GateLog, Phase, Scan, commit_staged};
use log_records::record_len;
use map_types::{Change, Command, Key, Refusal, Value};
use run_cases::number;
use std::alloc::Global;
use store_layout::NEW_VERSION;
use ticket_order::{Entry, Ticket};

/// How many frames are read, at most.
const MOST_FRAMES: u32 = 10;

/// How many commands a batch has.
#[derive(Clone, Copy)]
enum BatchSize {
    One,
    Two,
}

/// What is written behind the header: batches that are committed, and calls for one more.
#[derive(Clone, Copy)]
struct Form {
    batches: u32,
    size: BatchSize,
    calls: u32,
}

/// Which word of a form doesn't say what it is to say.
#[derive(Clone, Copy)]
enum BadForm {
    Batches,
    Size,
    Calls,
}

impl BadForm {
    fn text(self) -> &'static str {
        match self {
            BadForm::Batches => "the first word isn't a number of batches",
            BadForm::Size => "the second word isn't 1 or 2, the number of puts of a batch",
            BadForm::Calls => "the third word isn't a number of calls",
        }
    }
}

fn put(alloc: Global) -> Result<Command, Refusal> {
    Ok(Command {
        key: Key::new(alloc, "a")?,
        change: Change::Put(Value::Int(5)),
    })
}

fn stage_one(log: &mut GateLog, command: Command) -> Result<(), Refusal>
    ensures stands { (batches : List Batch) (staged : List Batch) (file : File)
        → Stands log.old batches staged file
        → (later : List Batch) × Stands log.new batches later file }
    ensures generation { log.new.generation ≡ log.old.generation }
    ensures broken { log.new.is_broken ≡ log.old.is_broken }
{
    let ticket = log.committed();
    if ticket > 1000 {
        return Err(Refusal::TicketsSpent);
    }
    let version = log.version();
    if command.key.is_above(version.key_limit()) {
        return Err(Refusal::KeyTooLong);
    }
    let _len = record_len(version, &command);
    log.stage(&[Entry {
        ticket: Ticket::new(ticket),
        command,
    }])
}

fn stage_two(log: &mut GateLog, one: Command, other: Command) -> Result<(), Refusal>
    ensures stands { (batches : List Batch) (staged : List Batch) (file : File)
        → Stands log.old batches staged file
        → (later : List Batch) × Stands log.new batches later file }
    ensures generation { log.new.generation ≡ log.old.generation }
    ensures broken { log.new.is_broken ≡ log.old.is_broken }
{
    let ticket = log.committed();
    if ticket > 1000 {
        return Err(Refusal::TicketsSpent);
    }
    let version = log.version();
    let limit = version.key_limit();
    if one.key.is_above(limit) || other.key.is_above(limit) {
        return Err(Refusal::KeyTooLong);
    }
    let _one_len = record_len(version, &one);
    let _other_len = record_len(version, &other);
    log.stage(&[
        Entry {
            ticket: Ticket::new(ticket),
            command: one,
        },
        Entry {
            ticket: Ticket::new(ticket + 1),
            command: other,
        },
    ])
}

/// Stages a batch of puts.
fn stage(alloc: Global, log: &mut GateLog, size: BatchSize) -> Result<(), Refusal>
    ensures stands { (batches : List Batch) (staged : List Batch) (file : File)
        → Stands log.old batches staged file
        → (later : List Batch) × Stands log.new batches later file }
    ensures generation { log.new.generation ≡ log.old.generation }
    ensures broken { log.new.is_broken ≡ log.old.is_broken }
{
    let command = put(alloc)?;
    match size {
        BatchSize::One => stage_one(log, command),
        BatchSize::Two => stage_two(log, command, put(alloc)?),
    }
}

fn advance_times<D: Disk>(log: &mut GateLog, disk: &mut D, times: u32) -> Result<(), Refusal>
    requires { MayAdvance D.states D.honest log.old disk.old }
    ensures { MayAdvance D.states D.honest log.new disk.new }
{
    for _ in 0..times {
        log.advance(disk)?;
    }
    Ok(())
}

/// Stages a batch, and makes `calls` calls for it.
fn write_batch<D: Disk>(
    alloc: Global,
    log: &mut GateLog,
    disk: &mut D,
    size: BatchSize,
    calls: u32,
) -> Result<(), Refusal>
    requires { MayAdvance D.states D.honest log.old disk.old }
    ensures { MayAdvance D.states D.honest log.new disk.new }
{
    if calls == 0 {
        return Ok(());
    }
    stage(alloc, log, size)?;
    advance_times(log, disk, calls)
}

fn write_batches<D: Disk>(
    alloc: Global,
    log: &mut GateLog,
    disk: &mut D,
    form: Form,
) -> Result<(), Refusal>
    requires { MayAdvance D.states D.honest log.old disk.old }
    ensures { MayAdvance D.states D.honest log.new disk.new }
{
    for _ in 0..form.batches {
        write_batch(alloc, log, disk, form.size, 4)?;
    }
    Ok(())
}

/// Writes the header of a new log, and what stands behind it.
fn write_log<D: Disk>(
    alloc: Global,
    log: &mut GateLog,
    disk: &mut D,
    form: Form,
) -> Result<(), Refusal>
    requires { MayAdvance D.states D.honest log.old disk.old }
    ensures { MayAdvance D.states D.honest log.new disk.new }
{
    advance_times(log, disk, 2)?;
    write_batches(alloc, log, disk, form)?;
    write_batch(alloc, log, disk, form.size, form.calls)
}

/// How many changes the log holds, as it is read.
fn count_read(alloc: Global, disk: &mut MemDisk) -> Result<u64, Refusal> {
    let mut scan = Scan::begin(alloc, disk, 0, 0)?;
    for _frame in 0..MOST_FRAMES {
        if let Found::Closed = scan.next_frame(alloc, disk)? {
            return Ok(scan.expected());
        }
    }
    Err(Refusal::WrongPhase)
}

/// What is left after a stop, and what is read of it.
fn left(alloc: Global, disk: &mut MemDisk, fill: &str) -> Result<String, Refusal> {
    stop(alloc, disk, fill)?;
    let bytes = content(alloc, disk, 2)?;
    let count = count_read(alloc, disk)?;
    Ok(format!(in alloc; "{bytes}, {count} read")?)
}

/// Makes one more call, which fails and leaves what the fill says. If the word is `-`, it makes
/// none.
fn fail_next(
    alloc: Global,
    log: &mut GateLog,
    disk: &mut MemDisk,
    fill: &str,
) -> Result<(), Refusal>
    requires { MayAdvance memory_states (λ _. Unit {0}) log.old disk.old }
{
    if fill == "-" {
        return Ok(());
    }
    disk.plan(failure_of(alloc, "0", fill)?);
    match log.advance(disk) {
        Err(Refusal::Failed) => Ok(()),
        _ => Err(Refusal::WrongPhase),
    }
}

/// A log that has failed makes no call: the failure that is planned next is met by another.
fn is_silent(log: &mut GateLog, disk: &mut MemDisk) -> bool
    requires { MayAdvance memory_states (λ _. Unit {0}) log.old disk.old }
{
    let fill = Fill::Old;
    disk.plan(Some(Failure { after: 0, fill }));
    matches!(log.advance(disk), Err(Refusal::Failed)) && disk.len(2).is_err()
}

fn failed_text(
    alloc: Global,
    log: &mut GateLog,
    disk: &mut MemDisk,
    refusal: Refusal,
) -> Result<String, Refusal>
    requires { MayAdvance memory_states (λ _. Unit {0}) log.old disk.old }
{
    if !is_silent(log, disk) {
        return Err(Refusal::WrongPhase);
    }
    let text = refusal_text(alloc, refusal)?;
    let committed = log.committed();
    Ok(format!(in alloc; "{text}, {committed} committed")?)
}

fn written_text(
    alloc: Global,
    log: &mut GateLog,
    disk: &mut MemDisk,
    failing: &str,
    stopping: &str,
) -> Result<String, Refusal>
    requires { MayAdvance memory_states (λ _. Unit {0}) log.old disk.old }
{
    let committed = log.committed();
    let gate = log.gate();
    fail_next(alloc, log, disk, failing)?;
    let left = left(alloc, disk, stopping)?;
    Ok(format!(in alloc; "{committed} committed, gate {gate}, {left}")?)
}

fn size_of(word: &str) -> Result<BatchSize, BadForm> {
    match word {
        "1" => Ok(BatchSize::One),
        "2" => Ok(BatchSize::Two),
        _ => Err(BadForm::Size),
    }
}

fn form_of(batches: &str, size: &str, calls: &str) -> Result<Form, BadForm> {
    let Ok(batches) = batches.parse::<u32>() else {
        return Err(BadForm::Batches);
    };
    let size = size_of(size)?;
    let Ok(calls) = calls.parse::<u32>() else {
        return Err(BadForm::Calls);
    };
    Ok(Form {
        batches,
        size,
        calls,
    })
}

/// What comes of a log of `batches` batches of one or two puts, and of `calls` calls for one more.
/// The fourth word says after how many calls the device fails. The fifth says what one more call
/// leaves that fails, and the sixth what a stop leaves. If the words aren't so, this is told.
pub(crate) fn log_written(alloc: Global, words: &[&str]) -> Result<String, Refusal> {
    let [batches, size, calls, after, failing, stopping] = words else {
        return Ok(String::from_str(alloc, "the words aren't six")?);
    };
    let form = match form_of(batches, size, calls) {
        Ok(form) => form,
        Err(bad) => return Ok(String::from_str(alloc, bad.text())?),
    };
    let mut disk = MemDisk::new(alloc);
    disk.plan(failure_of(alloc, after, "new")?);
    let mut log = GateLog::new(alloc, 0, 0);
    match write_log(alloc, &mut log, &mut disk, form) {
        Ok(()) => written_text(alloc, &mut log, &mut disk, failing, stopping),
        Err(refusal) => failed_text(alloc, &mut log, &mut disk, refusal),
    }
}

/// A log whose header is on the disk.
fn begun<D: Disk>(alloc: Global, disk: &mut D) -> Result<GateLog, Refusal>
    ensures may { IfOk result (λ log. MayAdvance D.states D.honest log disk.new) }
    ensures works { IfOk result (λ log. log.is_broken ≡ false) }
{
    let mut log = GateLog::new(alloc, 0, 0);
    let _written = log.advance(disk)?;
    let _idle = log.advance(disk)?;
    Ok(log)
}

/// Ends the log of generation 0. It can't be begun anew before.
fn end_log<D: Disk>(log: &mut GateLog, disk: &mut D) -> Result<(), Refusal>
    requires may { MayAdvance D.states D.honest log.old disk.old }
    requires works { log.old.is_broken ≡ false }
{
    log.end_with(1)?;
    if log.begin(1, 0).is_ok() {
        return Err(Refusal::TooEarly);
    }
    commit_staged(log, disk)
}

/// What a log says of a call.
fn said(alloc: Global, answer: Result<(), Refusal>) -> Result<String, Refusal> {
    match answer {
        Ok(()) => Ok(String::from_str(alloc, "done")?),
        Err(refusal) => Ok(refusal_text(alloc, refusal)?),
    }
}

/// What a log that has ended says of another end, of a batch, and of its beginning anew.
fn ended_text(alloc: Global, log: &mut GateLog) -> Result<String, Refusal> {
    let ended = said(alloc, log.end_with(1))?;
    let staged = said(alloc, stage(alloc, log, BatchSize::One))?;
    let begun = said(alloc, log.begin(1, 0))?;
    let generation = log.generation();
    let low = log.low();
    Ok(format!(in alloc; "{ended}, {staged}, {begun}, generation {generation}, low {low}")?)
}

/// What a log leaves that is ended, and what it says then.
pub(crate) fn log_ended(alloc: Global) -> Result<String, Refusal> {
    let mut disk = MemDisk::new(alloc);
    let mut log = begun(alloc, &mut disk)?;
    end_log(&mut log, &mut disk)?;
    let bytes = content(alloc, &mut disk, 2)?;
    let ended = ended_text(alloc, &mut log)?;
    Ok(format!(in alloc; "{bytes}, {ended}")?)
}

/// What a log that rests at this gate says of a batch.
pub(crate) fn log_resumed(alloc: Global, words: &[&str]) -> Result<String, Refusal> {
    let [gate] = words else {
        return Err(Refusal::WrongPhase);
    };
    let gate = number(gate)?;
    if gate > 1 << 41 {
        return Err(Refusal::WrongPhase);
    }
    let mut log = GateLog::resume(alloc, NEW_VERSION, 6, 0, gate as usize, 7);
    if log.phase() != Phase::Idle {
        return Err(Refusal::WrongPhase);
    }
    said(alloc, stage(alloc, &mut log, BatchSize::One))
}
