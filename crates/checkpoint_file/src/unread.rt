//! The part of a checkpoint's body that isn't read yet.
ghost use Rattle.std.specs.Prelude.{◌≡◌, ◌+◌, ◌≤◌, ◌<◌, ◌^◌};
ghost use Rattle.checkpoint_file.specs.Loads.{IsBehind};

use log_records::Version;
use map_types::Refusal;

/// The `left` bytes from the offset `at` of the file on, whose entries are of this version.
#[derive(Clone, Copy)]
pub(crate) struct Unread {
    pub file: u8,
    pub version: Version,
    pub at: usize,
    pub left: usize,
}

impl Unread {
    /// What is behind the first bytes of it.
    pub(crate) fn behind(self, count: usize) -> Unread
        requires few { count ≤ self.left }
        requires room { self.at + self.left < 2 ^ 64 }
        ensures place { result.at ≡ self.at + count }
        ensures left { result.left + count ≡ self.left }
        ensures same { IsBehind self result }
    {
        Unread {
            file: self.file,
            version: self.version,
            at: self.at + count,
            left: self.left - count,
        }
    }

    pub(crate) fn damaged(self) -> Refusal
        ensures { result ≡ Refusal.Damaged self.file self.at }
    {
        Refusal::Damaged {
            file: self.file,
            offset: self.at as u64,
        }
    }
}
