//! The words and the stripes, and the steps of a pass on them.
ghost use Rattle.std.specs.Prelude.{◌≡◌, ◌<◌, None, true, length, vec_len, IfOk, IfErr};
ghost use Rattle.std.specs.FinMap as finite;
ghost use Rattle.map_types.specs.Limits.{most_key_bytes};
ghost use Rattle.ticket_order.specs.declared.record.StepMade.TheVariants as made;
ghost use Rattle.ticket_order.specs.Records.{past, reach};
ghost use Rattle.ticket_order.specs.StepRules.{EndsAt, Takes, take_made, Looks, MayDraw, Draws, MayGive, Gives, MayPublish, Publishes, Sees, Fails, Lives};
ghost use Rattle.one_history.specs.Turns.{record_of, started, at_start};
ghost use Rattle.one_history.specs.OneHistory.{IsOneHistory, HoldApart, AreParts};
ghost use Rattle.one_history.specs.Moves.{BookMoves};
ghost use Rattle.one_history.specs.SharedWords.{ArePlaced};
ghost use Rattle.plain_words.specs.Seen.{raised, raised_by};

use crate::ghost_book::{GhostBook, Turn};
use atomic_methods::Part;
use java_hash::StripeCount;
use map_types::{Command, Key, Refusal};
use one_history::{Slot, empty_parts};
use std::alloc::Global;
use std::marker::Model;
use std::mem;
use ticket_order::{Purpose, Stripe, Ticket};

/// The ticket count, the durable count, the failure word, and the stripes, each at home or held by
/// a pass. Contracts see their book.
#[derive(Drop)]
pub struct PlainWords {
    stripes: StripeCount,
    tickets: u64,
    durable: u64,
    failed: bool,
    slots: Vec<Slot>,
    /// Of each pass, the greatest position that it has seen.
    seen: Vec<u64>,
    /// The most bytes that the key of a change may have.
    key_limit: u16,
    ghost_book: GhostBook,
}

impl Model for PlainWords {
    ghost use Rattle.std.specs.Prelude.{◌≡◌};
    ghost use Rattle.one_history.specs.contracts.book.Book as book_type;
    ghost use Rattle.one_history.specs.declared.book.Book.{Book};
    ghost use Rattle.one_history.specs.SharedWords.{IsKept};
    ghost use Rattle.plain_words.specs.Seen.{HaveSeen};

    ghost Value = { Book };

    ghost coded = { book_type.the_row.coded };

    ghost view = { λ words. words.ghost_book.book };

    ghost invariant = { λ words. IsKept words.stripes.count words.tickets words.durable words.failed
        words.slots.items words.ghost_book.book × HaveSeen words.seen.items words.ghost_book.book
        × (words.ghost_book.book.opening.key_limit ≡ words.key_limit) };
}

/// The stripes with these parts, at home. They begin with `first` tickets.
fn place_all(alloc: Global, parts: Vec<Part>, first: u64) -> Result<Vec<Slot>, Refusal>
    ensures ok { IfOk result (λ slots. ArePlaced first parts.items slots.items) }
    ensures err { IfErr result (λ refusal. refusal ≡ Refusal.NoMemory) }
{
    let mut slots = Vec::new(alloc);
    for part in parts {
        slots.push(Slot::Home(Stripe::new(alloc, part, first)))?;
    }
    Ok(slots)
}

/// The pass has seen up to `number`, or further.
fn raise(seen: &mut Vec<u64>, pass: usize, number: u64)
    requires { pass < vec_len seen.old }
    ensures { seen.new.items ≡ raised pass number seen.old.items }
{
    seen[pass] = seen[pass].max(number);
}

/// The pass has seen the changes that wait in the outbox of the stripe that it takes.
fn raise_to_outbox(seen: &mut Vec<u64>, pass: usize, content: &Stripe)
    requires within { pass < vec_len seen.old }
    requires ends { EndsAt content.now.outbox.items content.now.last }
    ensures { seen.new.items ≡ raised pass (past content.now.outbox.items) seen.old.items }
{
    if !content.outbox.is_empty() {
        raise(seen, pass, content.last);
    }
}

/// The pass has seen the changes of the stripe that it gives back, if that answers a read.
fn raise_by(seen: &mut Vec<u64>, pass: usize, last: u64, purpose: &Purpose)
    requires { pass < vec_len seen.old }
    ensures { seen.new.items ≡ raised_by purpose.now pass last seen.old.items }
{
    match purpose {
        Purpose::Answer(_) => raise(seen, pass, last),
        Purpose::Nothing | Purpose::Sweep | Purpose::Capture => {}
    }
}

impl PlainWords {
    /// Words that begin with the first `first` changes made, known by the map that the parts make;
    /// part s has keys of stripe s alone. The passes are numbered: those of the workers from 0 on,
    /// and then the keeper's. The keys of later changes have at most `key_limit` bytes.
    pub fn new(
        alloc: Global,
        stripes: StripeCount,
        parts: Vec<Part>,
        first: u64,
        key_limit: u16,
        workers: u16,
    ) -> Result<PlainWords, Refusal>
        requires count { length parts.items ≡ stripes.count }
        requires parts { AreParts stripes.count parts.items }
        ensures ok { IfOk result (λ words. words ≡ at_start first parts.items key_limit workers) }
        ensures err { IfErr result (λ refusal. refusal ≡ Refusal.NoMemory) }
    {
        let ghost_book = GhostBook::new(first, &parts, key_limit, workers);
        let slots = place_all(alloc, parts, first)?;
        let seen = vec![in alloc; first; usize::from(workers) + 1]?;
        Ok(PlainWords {
            stripes,
            tickets: first,
            durable: first,
            failed: false,
            slots,
            seen,
            key_limit,
            ghost_book,
        })
    }

    /// Words with an empty map and no change made, for any keys.
    pub fn empty(alloc: Global, stripes: StripeCount, workers: u16) -> Result<PlainWords, Refusal>
        ensures ok { IfOk result (λ words.
            words ≡ started (record { first = 0; map = finite.empty; key_limit = most_key_bytes })
            stripes.count workers) }
        ensures err { IfErr result (λ refusal. refusal ≡ Refusal.NoMemory) }
    {
        let parts = empty_parts(alloc, stripes)?;
        PlainWords::new(alloc, stripes, parts, 0, Key::MOST_BYTES as u16, workers)
    }

    /// A law: between any two steps there is one history, and no two passes hold one stripe.
    pub fn keeps_one_history(&self)
        ensures one { IsOneHistory self.now }
        ensures apart { HoldApart self.now }
    {
        let _ = &self.stripes;
    }

    pub fn stripes(&self) -> StripeCount
        ensures { result.count ≡ self.now.stripes }
    {
        self.stripes
    }

    /// The greatest position that the pass has seen.
    pub fn seen(&self, pass: usize) -> u64
        requires { pass < length self.now.passes }
        ensures { result ≡ reach (record_of pass self.now) }
    {
        self.seen[pass]
    }

    /// The most bytes that the key of a change of the pass may have.
    pub fn key_limit(&self, _pass: usize) -> u16
        requires { _pass < length self.now.passes }
        ensures { result ≡ (record_of _pass self.now).opening.key_limit }
    {
        self.key_limit
    }

    pub(crate) fn take(&mut self, pass: usize, stripe: usize) -> Option<Stripe>
        requires pass { pass < length self.old.passes }
        requires within { stripe < self.old.stripes }
        requires empty_handed { (record_of pass self.old).holding ≡ None }
        ensures step { Takes self.old.stripes (record_of pass self.old) stripe result
            (record_of pass self.new) }
        ensures moved { BookMoves pass (take_made stripe result) self.old self.new }
    {
        let place = &mut self.slots[stripe];
        match mem::replace(place, Slot::HeldBy(pass)) {
            Slot::Home(content) => {
                raise_to_outbox(&mut self.seen, pass, &content);
                self.ghost_book.note(
                    pass,
                    &Turn::Took {
                        stripe,
                        content: &content,
                    },
                );
                Some(content)
            }
            Slot::HeldBy(holder) => {
                *place = Slot::HeldBy(holder);
                self.ghost_book.note(pass, &Turn::FoundHeld { stripe });
                None
            }
        }
    }

    pub(crate) fn give(&mut self, pass: usize, stripe: usize, content: Stripe, purpose: &Purpose)
        requires pass { pass < length self.old.passes }
        requires fits { MayGive self.old.stripes (record_of pass self.old) stripe content
            purpose.now }
        ensures step { Gives self.old.stripes purpose.now (record_of pass self.old)
            (record_of pass self.new) }
        ensures moved { BookMoves pass (made.Gave stripe) self.old self.new }
    {
        self.ghost_book.note(pass, &Turn::Gave { purpose });
        raise_by(&mut self.seen, pass, content.last, purpose);
        self.slots[stripe] = Slot::Home(content);
    }

    pub(crate) fn ticket(&mut self, pass: usize, command: &Command) -> Ticket
        requires pass { pass < length self.old.passes }
        requires fits { MayDraw self.old.stripes (record_of pass self.old) command.now }
        ensures step { Draws (record_of pass self.old) command.now result
            (record_of pass self.new) }
        ensures moved { BookMoves pass (made.Drew result) self.old self.new }
    {
        let ticket = Ticket::new(self.tickets);
        self.ghost_book.note(pass, &Turn::Drew { command });
        self.tickets += 1;
        self.seen[pass] = ticket.position().number();
        ticket
    }

    pub(crate) fn look(&mut self, pass: usize) -> u64
        requires pass { pass < length self.old.passes }
        ensures step { Looks (record_of pass self.old) result (record_of pass self.new) }
        ensures moved { BookMoves pass (made.Looked result) self.old self.new }
    {
        let count = self.tickets;
        self.ghost_book.note(pass, &Turn::Looked);
        self.seen[pass] = count;
        count
    }

    pub(crate) fn durable(&mut self, pass: usize, number: u64)
        requires pass { pass < length self.old.passes }
        requires fits { MayPublish (record_of pass self.old) number }
        ensures step { Publishes (record_of pass self.old) number (record_of pass self.new) }
        ensures moved { BookMoves pass (made.Published number) self.old self.new }
    {
        self.ghost_book.note(pass, &Turn::Published { number });
        self.durable = self.durable.max(number);
    }

    pub(crate) fn see(&mut self, pass: usize) -> u64
        requires pass { pass < length self.old.passes }
        ensures step { Sees (record_of pass self.old) result (record_of pass self.new) }
        ensures moved { BookMoves pass (made.Saw result) self.old self.new }
    {
        let durable = self.durable;
        self.ghost_book.note(pass, &Turn::Saw);
        raise(&mut self.seen, pass, durable);
        durable
    }

    pub(crate) fn fail(&mut self, pass: usize)
        requires pass { pass < length self.old.passes }
        requires by_keeper { (record_of pass self.old).keeper ≡ true }
        ensures step { Fails (record_of pass self.old) (record_of pass self.new) }
        ensures moved { BookMoves pass made.Failed self.old self.new }
    {
        self.ghost_book.note(pass, &Turn::Failed);
        self.failed = true;
    }

    pub(crate) fn alive(&mut self, pass: usize) -> bool
        requires pass { pass < length self.old.passes }
        ensures step { Lives (record_of pass self.old) result (record_of pass self.new) }
        ensures moved { BookMoves pass (made.FoundAlive result) self.old self.new }
    {
        self.ghost_book.note(pass, &Turn::FoundAlive);
        !self.failed
    }
}
