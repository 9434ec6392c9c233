//! Points in time up to which a server is waited for.
ghost use Rattle.std.specs.Prelude.{◌≡◌, ◌<◌, IfOk};
ghost use Rattle.std.specs.Duration.{as_nanos};

use std::io;
use std::io::ErrorKind;
use std::time::{Clock, Duration};

/// A point in time, and how long behind a new beginning the next one is.
#[derive(Clone, Copy)]
pub(crate) struct Deadline<C: Clock + Copy> {
    clock: C,
    timeout: Duration,
    /// What the clock says then.
    end: Duration,
}

impl<C: Clock + Copy> Deadline<C> {
    /// The deadline of what begins now.
    pub fn begin(clock: C, timeout: Duration) -> io::Result<Deadline<C>>
        ensures { IfOk result (λ deadline. deadline.timeout ≡ timeout) }
    {
        let end = clock.monotonic()?.saturating_add(timeout);
        Ok(Deadline {
            clock,
            timeout,
            end,
        })
    }

    /// The time that is left; an error if none is.
    pub fn left(&self) -> io::Result<Duration>
        ensures { IfOk result (λ left. 0 < as_nanos left) }
    {
        let left = self.end.saturating_sub(self.clock.monotonic()?);
        if left.is_zero() {
            return Err(io::Error::from(ErrorKind::TimedOut));
        }
        Ok(left)
    }

    /// What follows begins now. If the clock fails, the deadline stays.
    pub fn renew(&mut self)
        ensures { self.new.timeout ≡ self.old.timeout }
    {
        if let Ok(now) = self.clock.monotonic() {
            self.end = now.saturating_add(self.timeout);
        }
    }
}
