//! A reader and a writer that halt.
use std::io;
use std::io::{Read, Write};

/// A writer that is interrupted at every other write, takes a byte at a time, and fails once it
/// has no room.
#[derive(Drop)]
pub(crate) struct Halting {
    pub(crate) interrupts: bool,
    pub(crate) room: usize,
    pub(crate) taken: Vec<u8>,
}

impl Write for Halting {
    fn write(&mut self, buf: &[u8]) -> io::Result<usize> {
        self.interrupts = !self.interrupts;
        if self.interrupts {
            return Err(io::Error::from(io::ErrorKind::Interrupted));
        }
        if self.room == 0 {
            return Err(io::Error::from(io::ErrorKind::BrokenPipe));
        }
        let Some(first) = buf.first() else {
            return Ok(0);
        };
        if self.taken.push(*first).is_err() {
            return Err(io::Error::from(io::ErrorKind::OutOfMemory));
        }
        self.room -= 1;
        Ok(1)
    }

    fn flush(&mut self) -> io::Result<()> {
        Ok(())
    }
}

/// A reader that is interrupted at every other read, gives a byte at a time, and fails at the end.
#[derive(Drop)]
pub(crate) struct Dripping<'a> {
    pub(crate) interrupts: bool,
    pub(crate) left: &'a [u8],
}

impl Read for Dripping<'_> {
    fn read(&mut self, buf: &mut [u8]) -> io::Result<usize> {
        self.interrupts = !self.interrupts;
        if self.interrupts {
            return Err(io::Error::from(io::ErrorKind::Interrupted));
        }
        let Some((first, rest)) = self.left.split_first() else {
            return Err(io::Error::from(io::ErrorKind::ConnectionReset));
        };
        if buf.is_empty() {
            return Ok(0);
        }
        buf[0] = *first;
        self.left = rest;
        Ok(1)
    }
}
