//! What those that log and the thread that writes share.

use crate::backlog::{Backlog, Due};
use log::{Level, Line, Metadata, Record};
use std::alloc::Global;
use std::sync::{Condvar, CondvarTimeouts, Mutex, Wait};
use std::time::{Clock, Duration};

/// How long it is waited for that all records are written.
const PATIENCE_SECONDS: u64 = 1;

/// The records that wait, and how far the thread has come that writes them.
#[derive(Drop)]
struct State {
    backlog: Backlog,
    is_writing: bool,
    // a wait was given up, and nothing was written since then
    is_stuck: bool,
}

impl State {
    /// Whether records wait or are being written.
    fn is_busy(&self) -> bool {
        self.is_writing || !self.backlog.is_empty()
    }

    /// Lets a line wait, if there is one, or loses it.
    fn add(&mut self, line: Option<String>) {
        match line {
            Some(line) => self.backlog.add(line),
            None => self.backlog.lose(),
        }
    }
}

/// The records under a lock, which is held while no stream is waited for.
#[derive(Drop)]
pub(crate) struct Shared {
    state: Mutex<State>,
    // told when a line waits, and when lines are written
    changed: Condvar,
}

impl Shared {
    pub(crate) fn new(alloc: Global) -> Shared {
        let state = State {
            backlog: Backlog::new(alloc),
            is_writing: false,
            is_stuck: false,
        };
        Shared {
            state: Mutex::new(state),
            changed: Condvar::new(),
        }
    }

    /// Lets a line wait. It is lost without room or memory, also without memory for its text.
    pub(crate) fn add<R: Wait>(&self, rt: &R, line: Option<String>) {
        self.state.lock(rt).add(line);
        self.changed.notify_all();
    }

    /// Waits for what is to be written next. What was handed out before is written.
    fn next<R: Wait>(&self, rt: &R) -> Option<Due> {
        let mut state = self.state.lock(rt);
        state.is_writing = false;
        state.is_stuck = false;
        self.changed.notify_all();
        let mut state = self
            .changed
            .wait_while(rt, state, |state| state.backlog.is_empty());
        state.is_writing = true;
        state.backlog.take()
    }

    /// Writes the lines one after another, and how many were lost where they were.
    pub(crate) fn write_all<R: Wait, E: Eprint>(&self, rt: &R, stream: &E) {
        for _ in rt.forever() {
            if let Some(Due { lost, line }) = self.next(rt) {
                write_lost(stream, lost);
                if let Some(line) = line {
                    let _ = stream.eprintln(line);
                }
            }
        }
        unreachable!()
    }

    /// Waits until all lines are written, for a second at most and not again while nothing is. It
    /// says whether they are.
    pub(crate) fn settle<R: Clock + Wait>(&self, rt: &R) -> bool {
        let state = self.state.lock(rt);
        if state.is_stuck {
            return !state.is_busy();
        }
        let (mut state, waited) = self.changed.wait_timeout_while(
            rt,
            state,
            Duration::from_secs(PATIENCE_SECONDS),
            |state| state.is_busy(),
        );
        state.is_stuck = waited.timed_out();
        !waited.timed_out()
    }
}

/// Writes a record that tells how many were lost, if any was.
fn write_lost<E: Eprint>(stream: &E, lost: u64) {
    if lost == 0 {
        return;
    }
    let metadata = Metadata::new(Level::Warn, module_path!());
    let text = format_args!("{lost} records lost");
    let _ = stream.eprintln(Line::new(&Record::new(metadata, text, (), ())));
}
