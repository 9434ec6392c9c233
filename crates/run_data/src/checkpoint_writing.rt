//! Checkpoints as they are written, with failures and stops.
ghost use Rattle.std.specs.Prelude.{◌≡◌, ◌<◌, ◌∷◌, []};
ghost use Rattle.disk_model.specs.Memory.{memory_states};
ghost use Rattle.checkpoint_file.specs.States.{idle};
ghost use Rattle.checkpoint_file.specs.CheckpointSteps.{MayAdvance};

use crate::disks::content;
use crate::fills::{failure_of, stop};
use bin_table::LentEntry;
use call_text::refusal_text;
use checkpoint_file::{CheckpointPhase, CheckpointWriter, must_close, read_head};
use disk_model::{Disk, Failure, Fill, MemDisk};
use java_hash::{StripeCount, stripe_of};
use map_types::{Key, Refusal, Value};
use std::alloc::Global;
use std::cmp::Ordering;
use store_layout::checkpoint_file;

/// The checkpoints that are written.
#[derive(Clone, Copy)]
enum Form {
    /// Generation 0 of an empty store with one stripe.
    Empty,
    /// Generation 1, low ticket 1, one stripe: {a: 5, b: 6} at mark 2.
    OneStripe,
    /// Generation 1, low ticket 0, two stripes: {b: 2} at mark 2, and {a: 4} at mark 4.
    TwoStripes,
}

fn advance_times<D: Disk>(
    writer: &mut CheckpointWriter,
    disk: &mut D,
    times: u32,
) -> Result<(), Refusal>
    requires { MayAdvance D.states D.honest writer.old disk.old }
    ensures { MayAdvance D.states D.honest writer.new disk.new }
{
    for _ in 0..times {
        writer.advance(disk)?;
    }
    Ok(())
}

/// Begins a checkpoint in a file that may hold an older one, and goes on until the first section may be
/// given.
fn clear<D: Disk>(
    writer: &mut CheckpointWriter,
    disk: &mut D,
    generation: u64,
    low: u64,
    stripes: StripeCount,
) -> Result<(), Refusal>
    requires { writer.old ≡ idle }
    ensures { MayAdvance D.states D.honest writer.new disk.new }
{
    let file = checkpoint_file(generation);
    if disk.sync(file).is_err() {
        return Err(Refusal::Failed);
    }
    let must_close = must_close(disk, file)?;
    writer.begin(generation, low, stripes, must_close)?;
    advance_times(writer, disk, if must_close { 3 } else { 2 })
}

/// Gives a section without entries, and writes it.
fn write_none<D: Disk>(
    writer: &mut CheckpointWriter,
    disk: &mut D,
    mark: u64,
) -> Result<(), Refusal>
    requires { MayAdvance D.states D.honest writer.old disk.old }
    ensures { MayAdvance D.states D.honest writer.new disk.new }
{
    if mark < writer.low() {
        return Ok(());
    }
    writer.section(mark, &[])?;
    advance_times(writer, disk, 1)
}

/// Gives a section with one entry of its stripe, and writes it.
fn write_one<D: Disk>(
    writer: &mut CheckpointWriter,
    disk: &mut D,
    mark: u64,
    entry: (Key, Value),
) -> Result<(), Refusal>
    requires { MayAdvance D.states D.honest writer.old disk.old }
    ensures { MayAdvance D.states D.honest writer.new disk.new }
{
    let stripe = stripe_of(entry.0.as_str(), writer.stripes());
    if mark < writer.low() || stripe != usize::from(writer.count()) {
        return Ok(());
    }
    writer.section(mark, &[LentEntry::new(&entry.0, &entry.1)])?;
    advance_times(writer, disk, 1)
}

/// Lends two entries.
fn lent_two(entries: &((Key, Value), (Key, Value))) -> [LentEntry<'_>; 2]
    ensures { result ≡ entries.now.0 ∷ entries.now.1 ∷ [] }
{
    let (one, other) = entries;
    [
        LentEntry::new(&one.0, &one.1),
        LentEntry::new(&other.0, &other.1),
    ]
}

/// Gives a section with two entries of its stripe, and writes it.
fn write_two<D: Disk>(
    writer: &mut CheckpointWriter,
    disk: &mut D,
    mark: u64,
    entries: ((Key, Value), (Key, Value)),
) -> Result<(), Refusal>
    requires { MayAdvance D.states D.honest writer.old disk.old }
    ensures { MayAdvance D.states D.honest writer.new disk.new }
{
    let count = usize::from(writer.count());
    let stripe = stripe_of(entries.0.0.as_str(), writer.stripes());
    let next = stripe_of(entries.1.0.as_str(), writer.stripes());
    if mark < writer.low() || stripe != count || next != count {
        return Ok(());
    }
    if entries.0.0.cmp(&entries.1.0) != Ordering::Less {
        return Ok(());
    }
    writer.section(mark, &lent_two(&entries))?;
    advance_times(writer, disk, 1)
}

fn finish<D: Disk>(writer: &mut CheckpointWriter, disk: &mut D) -> Result<(), Refusal>
    requires { MayAdvance D.states D.honest writer.old disk.old }
    ensures { MayAdvance D.states D.honest writer.new disk.new }
{
    writer.seal()?;
    advance_times(writer, disk, 4)
}

fn int_entry(alloc: Global, key: &str, value: i64) -> Result<(Key, Value), Refusal> {
    Ok((Key::new(alloc, key)?, Value::Int(value)))
}

fn write_empty<D: Disk>(writer: &mut CheckpointWriter, disk: &mut D) -> Result<(), Refusal>
    requires { writer.old ≡ idle }
    ensures { MayAdvance D.states D.honest writer.new disk.new }
{
    clear(writer, disk, 0, 0, StripeCount { count: 1 })?;
    write_none(writer, disk, 0)?;
    finish(writer, disk)
}

fn write_one_stripe<D: Disk>(
    alloc: Global,
    writer: &mut CheckpointWriter,
    disk: &mut D,
) -> Result<(), Refusal>
    requires { writer.old ≡ idle }
    ensures { MayAdvance D.states D.honest writer.new disk.new }
{
    let one = int_entry(alloc, "a", 5)?;
    let other = int_entry(alloc, "b", 6)?;
    clear(writer, disk, 1, 1, StripeCount { count: 1 })?;
    write_two(writer, disk, 2, (one, other))?;
    finish(writer, disk)
}

fn write_two_stripes<D: Disk>(
    alloc: Global,
    writer: &mut CheckpointWriter,
    disk: &mut D,
) -> Result<(), Refusal>
    requires { writer.old ≡ idle }
    ensures { MayAdvance D.states D.honest writer.new disk.new }
{
    let b = int_entry(alloc, "b", 2)?;
    let a = int_entry(alloc, "a", 4)?;
    clear(writer, disk, 1, 0, StripeCount { count: 2 })?;
    write_one(writer, disk, 2, b)?;
    write_one(writer, disk, 4, a)?;
    finish(writer, disk)
}

fn write<D: Disk>(
    alloc: Global,
    writer: &mut CheckpointWriter,
    disk: &mut D,
    form: Form,
) -> Result<(), Refusal>
    requires { writer.old ≡ idle }
    ensures { MayAdvance D.states D.honest writer.new disk.new }
{
    match form {
        Form::Empty => write_empty(writer, disk),
        Form::OneStripe => write_one_stripe(alloc, writer, disk),
        Form::TwoStripes => write_two_stripes(alloc, writer, disk),
    }
}

fn form_of(word: &str) -> Result<Form, Refusal> {
    match word {
        "empty" => Ok(Form::Empty),
        "one" => Ok(Form::OneStripe),
        "two" => Ok(Form::TwoStripes),
        _ => Err(Refusal::WrongPhase),
    }
}

/// A writer that has failed makes no call: the failure that is planned next is met by another.
fn is_silent(writer: &mut CheckpointWriter, disk: &mut MemDisk) -> bool
    requires { MayAdvance memory_states (λ _. Unit {0}) writer.old disk.old }
{
    let fill = Fill::Old;
    disk.plan(Some(Failure { after: 0, fill }));
    matches!(writer.advance(disk), Err(Refusal::Failed)) && disk.len(1).is_err()
}

/// Writes the checkpoint, of which a call is to fail.
fn break_off(alloc: Global, disk: &mut MemDisk, form: Form) -> Result<(), Refusal> {
    let mut writer = CheckpointWriter::new(alloc);
    let has_failed = write(alloc, &mut writer, disk, form) == Err(Refusal::Failed);
    if has_failed && is_silent(&mut writer, disk) {
        return Ok(());
    }
    Err(Refusal::WrongPhase)
}

/// What is left if a checkpoint of this form is written and the device fails after `after` calls. A
/// write that fails leaves what the third word says, and a stop what the fourth does.
fn left(alloc: Global, words: &[&str]) -> Result<String, Refusal> {
    let [form, after, failing, stopping] = words else {
        return Err(Refusal::WrongPhase);
    };
    let mut disk = MemDisk::new(alloc);
    disk.plan(failure_of(alloc, after, failing)?);
    break_off(alloc, &mut disk, form_of(form)?)?;
    stop(alloc, &mut disk, stopping)?;
    content(alloc, &mut disk, 1)
}

/// The bytes that are left of a checkpoint after a failure and a stop.
pub(crate) fn checkpoint_left(alloc: Global, words: &[&str]) -> Result<String, Refusal> {
    left(alloc, words)
}

/// Whether what is left of a checkpoint after a failure and a stop is sealed.
pub(crate) fn seal_left(alloc: Global, words: &[&str]) -> Result<String, Refusal> {
    let bytes = left(alloc, words)?;
    if bytes.len() >= 72 && bytes.as_str().starts_with("A5") {
        return Ok(String::from_str(alloc, "sealed")?);
    }
    Ok(String::from_str(alloc, "not sealed")?)
}

/// How many stripes the sealed checkpoint of the file has; 0 if none is sealed.
fn stripes_read(disk: &mut MemDisk, file: usize) -> Result<u16, Refusal>
    requires { file < 2 }
{
    Ok(read_head(disk, file)?.map_or(0, |head| head.stripes))
}

fn is_closed(writer: &mut CheckpointWriter) -> bool {
    writer.phase() == CheckpointPhase::Sealed
        && writer.seal() == Err(Refusal::WrongPhase)
        && writer.section(1, &[]) == Err(Refusal::WrongPhase)
}

fn writer_text(alloc: Global, writer: &mut CheckpointWriter) -> Result<String, Refusal> {
    let mark = writer.greatest_mark();
    let generation = writer.generation();
    if !is_closed(writer) {
        return Err(Refusal::WrongPhase);
    }
    Ok(format!(in alloc; "generation {generation}, greatest mark {mark}")?)
}

fn files_text(alloc: Global, disk: &mut MemDisk) -> Result<String, Refusal> {
    let zero = stripes_read(disk, 0)?;
    let one = stripes_read(disk, 1)?;
    let first = content(alloc, disk, 0)?;
    let second = content(alloc, disk, 1)?;
    Ok(format!(in alloc; "stripes {zero} {one}, {first} {second}")?)
}

fn written(alloc: Global, disk: &mut MemDisk, form: Form) -> Result<String, Refusal> {
    let mut writer = CheckpointWriter::new(alloc);
    write(alloc, &mut writer, disk, form)?;
    writer_text(alloc, &mut writer)
}

/// What a writer says and leaves that has written the checkpoints of these forms, one over another. No
/// further section or seal is taken of it.
pub(crate) fn checkpoint_written(alloc: Global, words: &[&str]) -> Result<String, Refusal> {
    let mut disk = MemDisk::new(alloc);
    let mut told = String::new(alloc);
    for word in words {
        let text = written(alloc, &mut disk, form_of(word)?)?;
        write!(told, "{text}, ")?;
    }
    let files = files_text(alloc, &mut disk)?;
    told.push_str(files.as_str())?;
    Ok(told)
}
