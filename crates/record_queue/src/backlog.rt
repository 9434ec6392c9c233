//! The records that wait to be written.
ghost use Rattle.std.specs.Prelude.{◌≡◌, ◌⊎◌, ◌↔◌, ◌≤◌, IsTrue};
ghost use Rattle.std.specs.VecDeque.{deque_len};
ghost use Rattle.record_queue.specs.declared.backlog.TheConstants.{MOST};
ghost use Rattle.record_queue.specs.Backlog.{Adds, IsEmpty, Loses, Takes};

use std::alloc::Global;
use std::collections::VecDeque;

/// How many records wait at most. With the longest lines they take less than a megabyte.
pub const MOST: usize = 1_024;

/// The line of a record, and how many records were lost right before it.
#[derive(Drop)]
pub(crate) struct Waiting {
    pub(crate) lost: u64,
    pub(crate) line: String,
}

/// What is to be written: that so many records were lost, if any was, and then a line.
#[derive(Drop)]
pub(crate) struct Due {
    pub(crate) lost: u64,
    pub(crate) line: Option<String>,
}

/// The records that wait, the oldest first, and how many were lost after the last of them.
#[derive(Drop)]
pub(crate) struct Backlog {
    pub(crate) waiting: VecDeque<Waiting>,
    pub(crate) lost: u64,
    ghost bounded: { deque_len waiting ≤ MOST },
}

impl Backlog {
    /// No record waits. It takes no memory.
    pub(crate) fn new(alloc: Global) -> Backlog
        ensures { IsEmpty result.waiting.items result.lost }
    {
        Backlog {
            waiting: VecDeque::new(alloc),
            lost: 0,
        }
    }

    /// Whether nothing is to be written.
    pub(crate) fn is_empty(&self) -> bool
        ensures { IsTrue result ↔ IsEmpty self.now.waiting.items self.now.lost }
    {
        self.lost == 0 && self.waiting.is_empty()
    }

    /// Counts a record that is lost.
    pub(crate) fn lose(&mut self)
        ensures { Loses self.old.waiting.items self.old.lost self.new.waiting.items self.new.lost }
    {
        self.lost = self.lost.saturating_add(1);
    }

    /// Lets the line of a record wait, or loses it if there is no room, or no memory.
    pub(crate) fn add(&mut self, line: String)
        ensures outcome { Adds (record { lost = self.old.lost; line = line }) self.old.waiting.items
            self.new.waiting.items self.new.lost
            ⊎ Loses self.old.waiting.items self.old.lost self.new.waiting.items self.new.lost }
        ensures full { deque_len self.old.waiting ≡ MOST
            → Loses self.old.waiting.items self.old.lost self.new.waiting.items self.new.lost }
    {
        let lost = self.lost;
        if self.waiting.len() < MOST && self.waiting.push_back(Waiting { lost, line }).is_ok() {
            self.lost = 0;
        } else {
            self.lose();
        }
    }

    /// What is to be written next.
    pub(crate) fn take(&mut self) -> Option<Due>
        ensures { Takes result self.old.waiting.items self.old.lost self.new.waiting.items
            self.new.lost }
    {
        if let Some(Waiting { lost, line }) = self.waiting.pop_front() {
            return Some(Due {
                lost,
                line: Some(line),
            });
        }
        if self.lost == 0 {
            return None;
        }
        let lost = self.lost;
        self.lost = 0;
        Some(Due { lost, line: None })
    }
}
