//! Clients that are idle for too long.

use crate::begun::Begun;
use crate::desk::Desk;
use connections::Calls;
use disk_model::Disk;
use std::sync::Wait;
use std::time::{Clock, Instant};

impl<'a, D: Disk + Drop, R: Clock + Wait, C: Calls<Held = Begun> + Drop> Desk<'a, D, R, C> {
    /// When the client's time is up that was idle since then.
    pub(crate) fn deadline(&self, since: Option<Instant>) -> Option<Instant> {
        match (self.limit, since) {
            (Some(limit), Some(since)) => since.checked_add(limit),
            _ => None,
        }
    }

    /// At this time it is to be looked whose time is up, if not before.
    pub(crate) fn sweep_at(&mut self, deadline: Instant) {
        let planned = self.next_sweep;
        self.next_sweep = match planned {
            Some(next) if next <= deadline => planned,
            _ => Some(deadline),
        };
    }

    /// Ends the connection of a client that was idle for too long, or closes one whose time is up. Else it
    /// returns when it is.
    fn sweep_one(&mut self, key: usize, now: Instant) -> Option<Instant> {
        let client = self.clients.get_mut(key)?;
        if let Some(closing) = &client.closing {
            let until = closing.until;
            if now < until {
                return Some(until);
            }
            self.remove(key);
            return None;
        }
        if client.resting.is_none() && !client.line.is_blocked {
            client.line.since = Some(now);
            client.line.was_tried = false;
        }
        let since = client.line.since.unwrap_or(now);
        client.line.since = Some(since);
        let deadline = since.checked_add(self.limit?)?;
        if now < deadline {
            return Some(deadline);
        }
        if client.line.is_blocked && !client.line.was_tried {
            self.try_again(key, now);
            return Some(now);
        }
        self.end(key);
        None
    }

    /// Has what is unsent of a client written, as far as it goes. The system tells late that a client has
    /// taken bytes: only once much of what it holds is taken.
    fn try_again(&mut self, key: usize, now: Instant) {
        let Some(client) = self.clients.get_mut(key) else {
            return;
        };
        client.line.was_tried = true;
        client.line.is_blocked = false;
        if client.resting.is_some() {
            self.resume(key, Some(now));
        } else {
            self.must_look = true;
        }
    }

    /// Ends the connections of the clients that were idle for too long, and closes those whose time is up,
    /// if it is time to look.
    pub(crate) fn sweep(&mut self) {
        let (Some(next), Some(now)) = (self.next_sweep, self.now()) else {
            self.next_sweep = None;
            return;
        };
        if now < next {
            return;
        }
        self.next_sweep = None;
        for key in 0..self.clients.capacity() {
            if let Some(deadline) = self.sweep_one(key, now) {
                self.sweep_at(deadline);
            }
        }
    }
}
