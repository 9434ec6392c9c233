//! What lies in a stripe.
ghost use Rattle.std.specs.Prelude.{◌≡◌, ◌+◌, ◌^◌, ◌<◌, max, [], ◌∷◌, ◌++◌, IfOk, IfErr, OnOk, OnErr};
ghost use Rattle.atomic_methods.specs.PartState.{HasGrown};
ghost use Rattle.java_hash.specs.Hash.{hash_of, spread_of};
ghost use Rattle.map_model.specs.Steps.{step};
ghost use Rattle.ticket_order.specs.Records.{entry};
ghost use Rattle.ticket_order.specs.Memory.{HasMemory};

use crate::numbers::{Position, Ticket};
use atomic_methods::{Part, Prepared};
use map_types::{Command, Refusal, Reply};
use std::alloc::Global;

/// A change with its ticket.
#[derive(Drop)]
pub struct Entry {
    pub ticket: Ticket,
    pub command: Command,
}

/// The content of a stripe: its part of the map, and the entries of its changes that no sweep has
/// taken yet, in the order of their tickets.
#[derive(Drop)]
pub struct Stripe {
    pub part: Part,
    pub outbox: Vec<Entry>,
    /// One past the last ticket that was drawn on the stripe, or the count of tickets that the
    /// stripes began with.
    pub last: u64,
}

impl Stripe {
    /// A stripe with this part and no entries. `last` is the count of tickets that the stripes
    /// begin with. It takes no memory.
    pub fn new(alloc: Global, part: Part, last: u64) -> Stripe
        ensures part { result.part ≡ part }
        ensures outbox { result.outbox.items ≡ [] }
        ensures last { result.last ≡ last }
    {
        Stripe {
            part,
            outbox: Vec::new(alloc),
            last,
        }
    }

    /// The position of a read by a pass that has seen the position `seen`: the greater of that and
    /// of one past the last ticket of the stripe.
    pub(crate) fn read_position(&self, seen: u64) -> Position
        ensures { result ≡ max seen self.now.last }
    {
        Position::new(seen.max(self.last))
    }

    /// Gets the memory that the change needs, for whose key the hash has this spread. The content
    /// stays. A growth that is due begins or is put off, and the one that runs is helped once.
    pub(crate) fn prepare(
        &mut self,
        alloc: Global,
        command: &Command,
        spread: u32,
    ) -> Result<Prepared, Refusal>
        requires { spread ≡ spread_of (hash_of command.now.key) }

        // The memory is there, or none was found; the content stays.
        ensures ok { IfOk result (HasMemory command.now self.new) }
        ensures err { IfErr result (λ refusal. refusal ≡ Refusal.NoMemory) }
        ensures part { self.new.part.map ≡ self.old.part.map }
        ensures outbox { self.new.outbox.items ≡ self.old.outbox.items }
        ensures last { self.new.last ≡ self.old.last }

        // A growth that is due begins or is put off; if refused, it stays.
        ensures growth { OnOk result (HasGrown self.old.part self.new.part) }
        ensures unchanged { OnErr result (self.new.part.growth ≡ self.old.part.growth) }
    {
        if self.outbox.reserve(1).is_err() {
            return Err(Refusal::NoMemory);
        }
        self.part.prepare_hashed(alloc, command, spread)
    }

    /// Makes the change, and puts it into the outbox with its ticket. It takes no memory.
    pub(crate) fn act(&mut self, command: Command, prepared: Prepared, ticket: Ticket) -> Reply
        requires memory { HasMemory command self.old prepared }
        requires small { ticket < 2 ^ 63 }
        ensures part { self.new.part.map ≡ (step self.old.part.map command).map }
        ensures growth { self.new.part.growth ≡ self.old.part.growth }
        ensures outbox { self.new.outbox.items ≡ self.old.outbox.items ++ entry ticket command
            ∷ [] }
        ensures last { self.new.last ≡ ticket + 1 }
        ensures reply { result ≡ (step self.old.part.map command).reply }
    {
        let reply = self.part.act(&command.key, prepared);
        self.last = ticket.position().number();
        self.outbox.push_reserved(Entry { ticket, command });
        reply
    }
}
