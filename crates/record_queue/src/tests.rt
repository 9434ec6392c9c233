//! A stream that takes nothing until it is told to.

use crate::{AfterRecords, MOST, RecordQueue};
use log::info;
use std::alloc::{AllocError, Global};
use std::fmt::Display;
use std::io::Write;
use std::sync::{Arc, Condvar, Mutex, Wait};
use std::test::Fail;
use std::time::{Clock, Duration};
use std::{io, thread};

/// Whether lines are taken, whether one has come, and those that were taken.
#[derive(Drop)]
struct Gate {
    is_open: bool,
    has_come: bool,
    lines: Vec<String>,
}

/// A stream behind a gate.
#[derive(Drop)]
struct Gated<R> {
    rt: R,
    alloc: Global,
    gate: Arc<(Mutex<Gate>, Condvar)>,
}

impl<R: Clone> Clone for Gated<R> {
    fn clone(&self) -> Result<Gated<R>, AllocError> {
        Ok(Gated {
            rt: self.rt.clone()?,
            alloc: self.alloc,
            gate: Arc::try_clone(&self.gate)?,
        })
    }
}

impl<R: Wait> Eprint for Gated<R> {
    fn eprint<D: Display + Drop>(&self, value: D) -> io::Result<()> {
        self.eprintln(value)
    }

    fn eprintln<D: Display + Drop>(&self, value: D) -> io::Result<()> {
        let (gate, changed) = &*self.gate;
        let line = value.to_string(self.alloc)?;
        let mut gate = gate.lock(&self.rt);
        gate.has_come = true;
        changed.notify_all();
        let mut gate = changed.wait_while(&self.rt, gate, |gate| !gate.is_open);
        gate.lines.push(line)?;
        Ok(())
    }
}

impl<R: Clone + Wait> Gated<R> {
    fn new(rt: R, alloc: Global) -> Result<Gated<R>, AllocError> {
        let gate = Gate {
            is_open: false,
            has_come: false,
            lines: Vec::new(alloc),
        };
        let gate = Arc::new(alloc, (Mutex::new(gate), Condvar::new()))?;
        Ok(Gated { rt, alloc, gate })
    }

    /// Waits until a line has come, which isn't taken yet.
    fn await_line(&self) {
        let (gate, changed) = &*self.gate;
        let _gate = changed.wait_while(&self.rt, gate.lock(&self.rt), |gate| !gate.has_come);
    }

    fn open(&self) {
        let (gate, changed) = &*self.gate;
        gate.lock(&self.rt).is_open = true;
        changed.notify_all();
    }

    /// The lines that were taken, in one text.
    fn text(&self) -> Result<String, AllocError> {
        let (gate, _changed) = &*self.gate;
        let gate = gate.lock(&self.rt);
        let mut text = String::new(self.alloc);
        for line in gate.lines.as_slice() {
            text.push_str(line.as_str())?;
            text.push_str("\n")?;
        }
        Ok(text)
    }
}

/// Whether all records are written, within a bounded number of looks.
fn are_written<R: Clock + Wait, E>(rt: &R, records: &RecordQueue<R, E>) -> bool {
    for _ in 0..1_000 {
        if records.settle() {
            return true;
        }
        thread::sleep(rt, Duration::from_millis(10));
    }
    false
}

#[test]
fn what_finds_no_room_is_told_of_in_its_place(rt: HostRuntime) -> Result<(), Fail> {
    let alloc = rt.alloc();
    let stream = Gated::new(rt, alloc)?;
    let records = RecordQueue::new(rt, alloc, stream.clone()?);
    info!(records; "first");
    stream.await_line();
    for number in 0..MOST + 3 {
        info!(records; "{number}");
    }
    stream.open();
    let is_written = are_written(&rt, &records);
    assert!(rt; is_written);
    info!(records; "last");
    let is_written = are_written(&rt, &records);
    assert!(rt; is_written);
    let mut wanted = format!(in alloc; "[INFO  record_queue::tests] first\n")?;
    for number in 0..MOST {
        writeln!(wanted, "[INFO  record_queue::tests] {number}")?;
    }
    wanted.push_str(
        "[WARN  record_queue::shared] 3 records lost\n[INFO  record_queue::tests] last\n",
    )?;
    let text = stream.text()?;
    assert_eq!(rt; text.as_str(), wanted.as_str());
    Ok(())
}

#[test]
fn a_text_comes_after_the_records_or_not_at_all(rt: HostRuntime) -> Result<(), Fail> {
    let alloc = rt.alloc();
    let stream = Gated::new(rt, alloc)?;
    let records = RecordQueue::new(rt, alloc, stream.clone()?);
    info!(records; "first");
    let mut text = Vec::new(alloc);
    let early = AfterRecords::on_their_stream(&records, &mut text).write(b"early");
    assert!(rt; early.is_err());
    let again = AfterRecords::on_their_stream(&records, &mut text).write(b"again");
    assert!(rt; again.is_err());
    let beside = AfterRecords::on_another(&records, Vec::new(alloc)).write(b"beside");
    assert!(rt; beside.is_ok());
    stream.open();
    let is_written = are_written(&rt, &records);
    assert!(rt; is_written);
    let late = AfterRecords::on_their_stream(&records, &mut text).write(b"late");
    assert!(rt; late.is_ok());
    assert_eq!(rt; text.as_slice(), b"late".as_slice());
    let text = stream.text()?;
    assert_eq!(rt; text.as_str(), "[INFO  record_queue::tests] first\n");
    Ok(())
}
