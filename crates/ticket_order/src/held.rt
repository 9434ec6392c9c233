//! Replies that are held until their positions are durable.
ghost use Rattle.std.specs.Prelude.{◌≡◌};
ghost use Rattle.ticket_order.specs.Sizes.{bytes_of_value, text_bytes};

use crate::numbers::Position;
use map_types::{Reply, Value};

/// A reply whose position may not be durable yet. It can't be looked at: a release gives it out, or
/// it is given up.
#[derive(Drop)]
pub struct Held {
    pub(crate) position: Position,
    pub(crate) reply: Reply,
}

impl Held {
    pub fn position(&self) -> Position
        ensures { result ≡ self.now.position }
    {
        self.position
    }

    /// How many bytes the text has that the reply has, or 0 if it has none. By this a caller can
    /// bound the memory of the replies that it holds.
    pub fn text_bytes(&self) -> usize
        ensures { result ≡ text_bytes self.now.reply }
    {
        match &self.reply {
            Reply::Was(value) | Reply::Now(value) => value_bytes(value),
            Reply::Did(_) | Reply::Fault(_) => 0,
        }
    }

    /// Gives the reply up. The change, if it was one, was made all the same.
    pub fn give_up(self) {}
}

fn value_bytes(value: &Option<Value>) -> usize
    ensures { result ≡ bytes_of_value value.now }
{
    match value {
        Some(Value::Text(text)) => text.as_str().len(),
        Some(Value::Int(_)) | None => 0,
    }
}

/// What a release returns.
#[derive(Drop)]
pub enum Released {
    /// The position, which is durable, and the reply.
    Reply(Position, Reply),
    /// The position isn't durable yet.
    NotYet(Held),
    /// The store has failed, and the position will not become durable in this life.
    Failed,
}
