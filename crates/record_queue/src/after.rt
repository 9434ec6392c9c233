//! A stream on which the records come first.

ghost use Rattle.std.specs.Prelude.{◌≡◌};

use crate::queue::RecordQueue;
use std::io;
use std::io::{ErrorKind, Write};
use std::marker::Model;
use std::sync::Wait;
use std::time::Clock;

/// A writer that lets the records of a queue be written before its own bytes. While they can't be, it
/// fails if its stream is theirs, and goes on if not.
#[derive(Drop)]
pub struct AfterRecords<'a, R, E, W> {
    records: &'a RecordQueue<R, E>,
    writer: W,
    is_theirs: bool,
}

impl<'a, R, E, W> Model for AfterRecords<'a, R, E, W> {
    ghost Value = { W };

    ghost view = { λ stream. stream.writer };
}

impl<'a, R, E, W> AfterRecords<'a, R, E, W> {
    /// A writer on the stream of the records.
    pub fn on_their_stream(records: &'a RecordQueue<R, E>, writer: W) -> AfterRecords<'a, R, E, W>
        ensures { result ≡ writer }
    {
        AfterRecords {
            records,
            writer,
            is_theirs: true,
        }
    }

    /// A writer on another stream.
    pub fn on_another(records: &'a RecordQueue<R, E>, writer: W) -> AfterRecords<'a, R, E, W>
        ensures { result ≡ writer }
    {
        AfterRecords {
            records,
            writer,
            is_theirs: false,
        }
    }
}

impl<R: Clock + Wait, E, W: Write> Write for AfterRecords<'_, R, E, W> {
    ghost contents = { λ stream. W.contents stream };

    fn write(&mut self, buf: &[u8]) -> io::Result<usize> {
        let is_settled = self.records.settle();
        if self.is_theirs && !is_settled {
            return Err(io::Error::from(ErrorKind::TimedOut));
        }
        self.writer.write(buf)
    }

    fn flush(&mut self) -> io::Result<()> {
        self.writer.flush()
    }
}
