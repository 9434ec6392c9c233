//! How many bytes a record takes.
ghost use Rattle.std.specs.Prelude.{◌≡◌, ◌≤◌, ◌+◌, ◌*◌, length, Some};
ghost use Rattle.log_records.specs.Layout.{layout_of, most_value_bytes};
ghost use Rattle.log_records.specs.Spelling.{value_bytes, argument_bytes, record_bytes};

use crate::reading::{INT_WIDTH, TEXT_WIDTH};
use crate::versions::Version;
use map_types::{Change, Command, Value};

fn value_len(value: &Value) -> usize
    ensures len { result ≡ length (value_bytes (Some value.now)) }
    ensures bound { result ≤ most_value_bytes }
{
    match value {
        Value::Int(_) => 1 + INT_WIDTH,
        Value::Text(text) => 1 + TEXT_WIDTH + text.as_str().len(),
    }
}

fn argument_len(argument: &Option<Value>) -> usize
    ensures len { result ≡ length (value_bytes argument.now) }
    ensures bound { result ≤ most_value_bytes }
{
    match argument {
        None => 1,
        Some(value) => value_len(value),
    }
}

fn arguments_len(change: &Change) -> usize
    ensures len { result ≡ length (argument_bytes change.now) }
    ensures bound { result ≤ 2 * most_value_bytes }
{
    match change {
        Change::Put(value) => value_len(value),
        Change::PutIfAbsent(value) => value_len(value),
        Change::Remove => 0,
        Change::RemoveIf(value) => value_len(value),
        Change::Replace(value) => value_len(value),
        Change::ReplaceIf { old, new } => value_len(old) + value_len(new),
        Change::Compute(_, argument) => 1 + argument_len(argument),
        Change::ComputeIfAbsent(_, argument) => 1 + argument_len(argument),
        Change::ComputeIfPresent(_, argument) => 1 + argument_len(argument),
        Change::Merge(_, value) => 1 + value_len(value),
    }
}

/// How many bytes the record of a command takes.
pub fn record_len(version: Version, command: &Command) -> usize
    ensures len { result ≡ length (record_bytes (layout_of version) command.now) }
    ensures bound { let layout = layout_of version in
        result ≤ 1 + layout.key_width + length command.now.key + 2 * most_value_bytes }
{
    1 + version.key_width() + command.key.as_str().len() + arguments_len(&command.change)
}
