//! What a device call is, told by its file, its place and its first byte. The first byte of a header
//! is its version, 1 or 2.
use sim_rules::DeviceCall;
use std::alloc::{AllocError, Global};

/// Files 0 and 1 are those of checkpoints; the others are those of logs.
const CHECKPOINTS: usize = 2;

/// What a write to a log is. Its header stands at its beginning, and a gate is one byte.
fn log_write(at: usize, bytes: &[u8]) -> &'static str {
    match bytes {
        [1 | 2, ..] if at == 0 && bytes.len() == 18 => "header of a log",
        [0xA5] if at >= 17 => "gate of a log",
        [1, _, ..] if at >= 18 => "frame",
        [2, _, ..] if at >= 18 => "end frame",
        _ => "unknown call",
    }
}

/// What a write to a checkpoint is. Its gate is at 0, its header from 1 to 35.
fn checkpoint_write(at: usize, bytes: &[u8]) -> &'static str {
    match bytes {
        [0] if at == 0 => "closing of a checkpoint's gate",
        [0xA5] if at == 0 => "gate of a checkpoint",
        [0, ..] if at == 1 && bytes.len() == 35 => "zeros over a header",
        [1 | 2, ..] if at == 1 && bytes.len() == 35 => "header of a checkpoint",
        [_, ..] if at >= 36 => "section",
        _ => "unknown call",
    }
}

fn write_name(file: usize, at: usize, bytes: &[u8]) -> &'static str {
    if file < CHECKPOINTS {
        checkpoint_write(at, bytes)
    } else {
        log_write(at, bytes)
    }
}

fn sync_name(file: usize) -> &'static str {
    if file < CHECKPOINTS {
        "sync of a checkpoint"
    } else {
        "sync of a log"
    }
}

/// The kind of the call, and its file.
pub(crate) fn device_call_text(alloc: Global, call: &DeviceCall) -> Result<String, AllocError> {
    let (name, file) = match call {
        DeviceCall::Write { file, at, bytes } => (write_name(*file, *at, bytes.as_slice()), *file),
        DeviceCall::Sync { file } => (sync_name(*file), *file),
    };
    format!(in alloc; "{name}, file {file}")
}
