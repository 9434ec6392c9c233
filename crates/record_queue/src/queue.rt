//! The sink of a program's records.
ghost use Rattle.std.specs.Prelude.{Some, [], true};

use crate::shared::Shared;
use log::kv::Source;
use log::span::Spans;
use log::{Line, Log, Metadata, Record};
use std::alloc::{AllocError, Global};
use std::fmt::Display;
use std::sync::{Arc, Wait};
use std::thread;
use std::thread::Threads;
use std::time::Clock;

/// Takes each record that it is given, and waits for no stream. A thread of its own writes them in
/// order, a line each. What finds no room or no memory is lost, and a record tells how many were.
/// If the thread can't be had, a record is written at once.
#[derive(Drop)]
pub struct RecordQueue<R, E> {
    rt: R,
    alloc: Global,
    stream: E,
    shared: Option<Arc<Shared>>,
}

/// Starts the thread that writes on the stream what comes to be shared.
fn start<
    R: Clone + Drop + Send + Threads + Wait + 'static,
    E: Clone + Drop + Eprint + Send + 'static,
>(rt: &R, alloc: Global, stream: &E) -> Result<Arc<Shared>, AllocError> {
    let shared = Arc::new(alloc, Shared::new(alloc))?;
    let theirs = Arc::try_clone(&shared)?;
    let (own, stream) = (rt.clone()?, stream.clone()?);
    thread::spawn(rt, move || theirs.write_all(&own, &stream))?;
    Ok(shared)
}

impl<
    R: Clone + Drop + Send + Threads + Wait + 'static,
    E: Clone + Drop + Eprint + Send + 'static,
> RecordQueue<R, E> {
    /// No record waits. A thread awaits those that are to be written on `stream`.
    pub fn new(rt: R, alloc: Global, stream: E) -> RecordQueue<R, E> {
        let shared = start(&rt, alloc, &stream).ok();
        RecordQueue {
            rt,
            alloc,
            stream,
            shared,
        }
    }
}

impl<R: Clock + Wait, E> RecordQueue<R, E> {
    /// Waits until all records are written, a second at most. It says whether they are.
    pub fn settle(&self) -> bool {
        match &self.shared {
            Some(shared) => shared.settle(&self.rt),
            None => true,
        }
    }
}

impl<R: Clock + Wait, E: Eprint> Log for RecordQueue<R, E> {
    ghost enables = { λ _ _ _. Some true };

    ghost target_of = { λ _. Some [] };

    fn enabled(&self, _metadata: &Metadata<'_>) -> bool {
        true
    }

    fn log<D: Display, K: Source, S: Spans>(&self, record: &Record<'_, D, K, S>) {
        let line = Line::new(record);
        match &self.shared {
            Some(shared) => shared.add(&self.rt, line.to_string(self.alloc).ok()),
            None => {
                let _ = self.stream.eprintln(line);
            }
        }
    }

    fn flush(&self) {
        self.settle();
    }

    fn target(&self) -> &str {
        ""
    }
}
