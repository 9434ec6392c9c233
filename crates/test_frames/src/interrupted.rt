//! Reads that a signal interrupts.
use crate::checks::assert_same;
use disk_model::fill_at;
use std::io;
use std::os::unix::fs::FileExt;
use std::sync::atomic::{AtomicU64, Ordering};

const TEXT: &[u8; 5] = b"abcde";

/// A file that gives one byte a call. Each call before it fails with this error.
#[derive(Drop)]
struct Failing {
    calls: AtomicU64,
    error: io::ErrorKind,
}

impl Failing {
    fn new(error: io::ErrorKind) -> Failing {
        let calls = AtomicU64::new(0);
        Failing { calls, error }
    }
}

impl FileExt for Failing {
    fn read_at(&self, buf: &mut [u8], offset: u64) -> io::Result<usize> {
        if self.calls.fetch_add(1, Ordering::SeqCst) % 2 == 0 {
            return Err(self.error.into());
        }
        match (TEXT.get(offset as usize), buf.first_mut()) {
            (Some(byte), Some(place)) => {
                *place = *byte;
                Ok(1)
            }
            _ => Ok(0),
        }
    }

    fn write_at(&self, _buf: &[u8], _offset: u64) -> io::Result<usize> {
        Ok(0)
    }
}

/// Reads from these places on into the same three bytes. What each read gives, and the bytes behind
/// it.
fn read_at_each<const N: usize>(
    file: &Failing,
    places: [usize; N],
) -> [(Result<usize, io::ErrorKind>, [u8; 3]); N] {
    let mut bytes = [0; 3];
    places.map(|at| {
        let count = fill_at(file, at, &mut bytes).map_err(|error| error.kind());
        (count, bytes)
    })
}

#[test]
fn an_interrupted_read_is_tried_again(rt: HostRuntime) {
    let file = Failing::new(io::ErrorKind::Interrupted);
    assert_same(
        &rt,
        &read_at_each(&file, [1, 3, 5]),
        &[(Ok(3), *b"bcd"), (Ok(2), *b"ded"), (Ok(0), *b"ded")],
    );
}

#[test]
fn another_error_ends_a_read(rt: HostRuntime) {
    let file = Failing::new(io::ErrorKind::Other);
    assert_same(
        &rt,
        &fill_at(&file, 0, &mut [0; 3]).map_err(|error| error.kind()),
        &Err(io::ErrorKind::Other),
    );
}
