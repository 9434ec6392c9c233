//! Replies that are gathered, to be written together.

ghost use Rattle.std.specs.Prelude.{◌≡◌, ◌≤◌, ◌++◌, [], true, false, drop, length, IfOk};
ghost use Rattle.wire_frames.specs.Replies.{reply_frame};

use map_types::{Refusal, Reply, Text};
use std::alloc::{AllocError, Global};
use std::marker::Model;
use wire_frames::write_reply;

/// The longest reply: its length, its status, and a text with its kind and length.
const LONGEST_REPLY: usize = 2 + 1 + 1 + 2 + Text::MOST_BYTES;

/// The bytes that replies are gathered in.
pub(crate) const ROOM: usize = 65536;

/// The most bytes beside which the longest reply has room.
pub(crate) const MOST_LEFT: usize = ROOM - LONGEST_REPLY;

/// Replies that were made and are not written yet.
#[derive(Drop)]
pub(crate) struct Outgoing {
    bytes: Vec<u8>,
    start: usize,
}

impl Model for Outgoing {
    ghost use Rattle.std.specs.Prelude.{ℕ, List, ◌≤◌, drop, vec_len};

    ghost Value = { List ℕ };

    ghost view = { λ o. drop o.start o.bytes.items };

    ghost invariant = { λ o. o.start ≤ vec_len o.bytes };
}

impl Outgoing {
    pub(crate) fn new(alloc: Global) -> Outgoing
        ensures { result ≡ [] }
    {
        Outgoing {
            bytes: Vec::new(alloc),
            start: 0,
        }
    }

    /// Gets room for this many more bytes.
    pub(crate) fn reserve(&mut self, room: usize) -> Result<(), AllocError>
        ensures { self.new ≡ self.old }
    {
        self.bytes.reserve(room)
    }

    pub(crate) fn len(&self) -> usize
        ensures { result ≡ length self.now }
    {
        self.bytes.len() - self.start
    }

    pub(crate) fn is_empty(&self) -> bool
        ensures empty { self.now ≡ [] → result ≡ true }
        ensures none { result ≡ true → length self.now ≡ 0 }
    {
        self.len() == 0
    }

    /// Whether it has the room of a buffer.
    pub(crate) fn is_wide(&self) -> bool {
        self.bytes.capacity() >= ROOM
    }

    /// The same bytes, in no more room than they need.
    pub(crate) fn narrow(&self, alloc: Global) -> Result<Outgoing, AllocError>
        ensures { IfOk result (λ narrow. narrow ≡ self.now) }
    {
        let bytes = Vec::from_slice(alloc, self.bytes())?;
        Ok(Outgoing { bytes, start: 0 })
    }

    pub(crate) fn bytes(&self) -> &[u8]
        ensures { result.now ≡ self.now }
    {
        &self.bytes[self.start..]
    }

    /// Puts a reply behind the others. If no memory is found for it, nothing changes, and it
    /// returns `false`.
    pub(crate) fn gather(&mut self, answer: &Result<Reply, Refusal>) -> bool
        ensures gathered { result ≡ true → self.new ≡ self.old ++ reply_frame answer.now }
        ensures refused { result ≡ false → self.new ≡ self.old }
    {
        gather(&mut self.bytes, answer)
    }

    /// Lets go of all bytes, which were written.
    pub(crate) fn clear(&mut self)
        ensures { self.new ≡ [] }
    {
        self.bytes.clear();
        self.start = 0;
    }

    /// Lets go of the first bytes, which were written.
    pub(crate) fn sent(&mut self, count: usize)
        requires { count ≤ length self.old }
        ensures { self.new ≡ drop count self.old }
    {
        self.start += count;
        if self.start == self.bytes.len() {
            self.bytes.clear();
            self.start = 0;
        }
    }
}

/// Puts a reply behind the bytes. If no memory is found for it, they stay, and it returns `false`.
fn gather(out: &mut Vec<u8>, answer: &Result<Reply, Refusal>) -> bool
    ensures gathered { result ≡ true → out.new.items ≡ out.old.items ++ reply_frame answer.now }
    ensures refused { result ≡ false → out.new.items ≡ out.old.items }
{
    let gathered = out.len();
    match write_reply(out, answer) {
        Ok(()) => true,
        Err(_) => {
            out.truncate(gathered);
            false
        }
    }
}
