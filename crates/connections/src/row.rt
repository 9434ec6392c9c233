//! A row of calls that are begun, and then answered in order.

ghost use Rattle.std.specs.Prelude.{◌≡◌, ◌≢◌, ◌⊎◌, ◌<◌, ◌≤◌, ◌↔◌, [], map, IsTrue, true, false};
ghost use Rattle.std.specs.VecDeque.{deque_len, deque_capacity};
ghost use Rattle.connections.specs.Dialogue.{ends};
ghost use Rattle.connections.specs.Moves.{Starts, Answers, GivesUp, Makes, Leads};
ghost use Rattle.connections.specs.Owning.{OwnsPlace, OwnsRow, StillOwns};
ghost use Rattle.connections.specs.Progress.{BeginsNext, BeginsRow};

use crate::calls::Calls;
use map_types::{Refusal, Reply};
use std::collections::VecDeque;
use wire_frames::{Feeder, Request, whole_map_begins_bulk};

/// The most places of a row.
pub(crate) const MOST_HELD: usize = 64;

/// The bytes of the replies in a row behind which no more calls are begun. So what a client makes a server
/// hold that takes no replies is bounded. It is half of what is gathered at a time.
const MANY_BYTES: usize = 32768;

/// What a message has in the row.
#[derive(Drop)]
pub(crate) enum Place<H> {
    /// Its call was begun.
    Held(H),
    /// It was refused, or its call was.
    Refused(Refusal),
}

/// Whether the connection ends after this answer.
pub(crate) fn ends(answer: &Result<Reply, Refusal>) -> bool
    ensures { result ≡ ends answer.now }
{
    matches!(answer, Err(Refusal::BadFrame | Refusal::Failed))
}

/// Whether the message is refused as a bad frame.
fn is_bad_frame(message: &Result<Request, Refusal>) -> bool
    ensures { IsTrue result ↔ (message.now ≡ Err Refusal.BadFrame) }
{
    matches!(message, Err(Refusal::BadFrame))
}

/// Begins the call of a message.
fn place_of<C: Calls>(calls: &mut C, message: Result<Request, Refusal>) -> Place<C::Held>
    ensures started { Makes C.began C.finished C.gave_up calls.old (Starts message result)
        calls.new }
    ensures owned { OwnsPlace C.owns calls.new result }
    ensures others { StillOwns C.owns calls.old calls.new }
{
    match message {
        Ok(request) => match calls.begin(request) {
            Ok(held) => Place::Held(held),
            Err(refusal) => Place::Refused(refusal),
        },
        Err(refusal) => Place::Refused(refusal),
    }
}

/// Whether the next message waits until the row is empty.
fn is_to_wait<H>(is_bulk: bool, row: &VecDeque<Place<H>>) -> bool
    ensures waits { result ≡ true → (is_bulk ≡ true) × (row.now.items ≢ []) }
    ensures goes_on { result ≡ false → is_bulk ≡ true → row.now.items ≡ [] }
{
    is_bulk && !row.is_empty()
}

/// Whether no other message may follow this one in the row.
fn is_last(is_bulk: bool, message: &Result<Request, Refusal>) -> bool
    ensures last { result ≡ true →
        (message.now ≡ Err Refusal.BadFrame)
        ⊎ ((message.now ≢ Err Refusal.BadFrame) × (is_bulk ≡ true)) }
    ensures goes_on { result ≡ false →
        (message.now ≢ Err Refusal.BadFrame) × (is_bulk ≡ false) }
{
    is_bad_frame(message) || is_bulk
}

/// Puts the next whole message in hand into the row, unless it asks something of the whole map and
/// the row isn't empty. It says whether no other may follow.
fn begin_next<C: Calls>(
    feeder: &mut Feeder,
    calls: &mut C,
    row: &mut VecDeque<Place<C::Held>>,
) -> bool
    // The row has room for one more, and what it holds is of these calls.
    requires room { deque_len row.old < deque_capacity row.old }
    requires owned { OwnsRow C.owns calls.old row.old.items }

    // The message takes its place behind the others, and the row needs no memory.
    ensures begun { BeginsNext C.began C.finished C.gave_up calls.old calls.new
        feeder.old feeder.new row.old.items row.new.items result }
    ensures owned { OwnsRow C.owns calls.new row.new.items }
    ensures others { StillOwns C.owns calls.old calls.new }
    ensures capacity { deque_capacity row.new ≡ deque_capacity row.old }
{
    whole_map_begins_bulk();
    let is_bulk = feeder.begins_bulk();
    if is_to_wait(is_bulk, row) {
        return true;
    }
    match feeder.next() {
        None => true,
        Some(message) => {
            let is_last = is_last(is_bulk, &message);
            row.push_back_reserved(place_of(calls, message));
            is_last
        }
    }
}

/// How many bytes the reply of the last place has, nearly.
fn last_bytes<C: Calls>(calls: &C, row: &VecDeque<Place<C::Held>>) -> usize {
    match row.back() {
        Some(Place::Held(held)) => calls.reply_bytes(held),
        _ => 0,
    }
}

/// Begins the whole messages in hand, at most 64, and none behind a bad frame, nor once the replies have
/// many bytes. A request of the whole map is begun alone.
pub(crate) fn begin_row<C: Calls>(
    feeder: &mut Feeder,
    calls: &mut C,
    row: &mut VecDeque<Place<C::Held>>,
)
    // The row is empty and has its room.
    requires empty { row.old.items ≡ [] }
    requires room { MOST_HELD ≤ deque_capacity row.old }

    // The messages take their places in order, and the row needs no memory.
    ensures begun { BeginsRow C.began C.finished C.gave_up calls.old calls.new
        feeder.old feeder.new row.new.items }
    ensures owned { OwnsRow C.owns calls.new row.new.items }
    ensures others { StillOwns C.owns calls.old calls.new }
    ensures capacity { deque_capacity row.new ≡ deque_capacity row.old }
{
    let mut room = MANY_BYTES;
    'messages: while row.len() < MOST_HELD {
        if begin_next(feeder, calls, row) {
            return;
        }
        room = room.saturating_sub(last_bytes(calls, row));
        if room == 0 {
            return;
        }
    }
}

/// Whether the answer of the first place will likely be had without a wait.
pub(crate) fn may_finish_first<C: Calls>(calls: &C, row: &VecDeque<Place<C::Held>>) -> bool {
    match row.front() {
        Some(Place::Held(held)) => calls.may_finish(held),
        _ => true,
    }
}

/// The number that the answer of the first place waits for, if it is known.
pub(crate) fn first_awaits<C: Calls>(calls: &C, row: &VecDeque<Place<C::Held>>) -> Option<u64> {
    match row.front() {
        Some(Place::Held(held)) => calls.awaits(held),
        _ => None,
    }
}

/// Answers what is in a place.
pub(crate) fn answer_of<C: Calls>(calls: &mut C, place: Place<C::Held>) -> Result<Reply, Refusal>
    requires owned { OwnsPlace C.owns calls.old place }
    ensures made { Makes C.began C.finished C.gave_up calls.old (Answers place result) calls.new }
    ensures others { StillOwns C.owns calls.old calls.new }
{
    match place {
        Place::Held(held) => calls.finish(held),
        Place::Refused(refusal) => Err(refusal),
    }
}

/// Gives up what is in a place.
fn give_up<C: Calls>(calls: &mut C, place: Place<C::Held>)
    requires owned { OwnsPlace C.owns calls.old place }
    ensures gave_up { Makes C.began C.finished C.gave_up calls.old (GivesUp place) calls.new }
    ensures others { StillOwns C.owns calls.old calls.new }
{
    match place {
        Place::Held(held) => calls.give_up(held),
        Place::Refused(_) => {}
    }
}

/// Gives up what is left of the row, in order.
pub(crate) fn give_up_row<C: Calls>(calls: &mut C, row: &mut VecDeque<Place<C::Held>>)
    requires owned { OwnsRow C.owns calls.old row.old.items }
    ensures others { StillOwns C.owns calls.old calls.new }

    // Each place is given up, and the row is empty and keeps its room.
    ensures given { Leads C.began C.finished C.gave_up
        calls.old (map GivesUp row.old.items) calls.new }
    ensures empty { row.new.items ≡ [] }
    ensures capacity { deque_capacity row.new ≡ deque_capacity row.old }
{
    'places: while let Some(place) = row.pop_front() {
        give_up(calls, place);
    }
}
