//! What the records of a server's work ask of the system.

use std::alloc::Global;
use std::fs::File;
use std::rt::Files;
use std::{fs, io};

/// Where Linux tells of a process, the line that says how much memory it has, and the line's unit.
const STATUS: &str = "/proc/self/status";

const RESIDENT: &str = "VmRSS:";

const KILOBYTE: u64 = 1_024;

/// Figures of the system, which every machine with files has. They are hints: no clause speaks of them.
pub trait Figures {
    /// How many bytes the file of this path has, if the system tells.
    fn file_length(&self, path: &str) -> Option<u64>;

    /// How many bytes of memory the process has, if the system tells.
    fn memory(&self, alloc: Global) -> Option<u64>;
}

impl<R: Files<File = File>> Figures for R {
    fn file_length(&self, path: &str) -> Option<u64> {
        let metadata = fs::metadata(self, path).ok()?;
        Some(metadata.len())
    }

    fn memory(&self, alloc: Global) -> Option<u64> {
        let text = io::read_to_string(alloc, File::open(self, STATUS).ok()?).ok()?;
        let line = text.lines().find(|line| line.starts_with(RESIDENT))?;
        let kilobytes: u64 = line.split_whitespace().nth(1)?.parse().ok()?;
        kilobytes.checked_mul(KILOBYTE)
    }
}
