//! What follows from the contracts of whole calls, and of calls that are begun.
ghost use Rattle.std.specs.Prelude.{ℕ, List, Result, Ok};
ghost use Rattle.map_types.specs.declared.commands.Reply.{Reply};
ghost use Rattle.map_types.specs.declared.refusals.Refusal.{Refusal};
ghost use Rattle.ticket_order.specs.declared.record.Asked.{Asked};
ghost use Rattle.ticket_order.specs.declared.record.Call.{Call};
ghost use Rattle.ticket_order.specs.declared.record.Record.{Record};
ghost use Rattle.stripe_locks.specs.declared.held.Held.{Held};
ghost use Rattle.durable_map.specs.Durable.{Begins, Completes, CompletesAmong, Finishes, FollowEachOther, GoesOnWith};
ghost use Rattle.durable_map.specs.RunningStore.{AnsweredAreReleased, OneIsTheKeepers, ReleasedOutliveStops};

use disk_model::Disk;

/// Calls of one pass are calls of one history. If two of them returned replies, one after the
/// other, both replies are legal in what the pass has seen at last, and the second stands behind
/// the first.
pub fn calls_follow_each_other()
    ensures { (n : ℕ) (v u w : Record) (first second : Asked) (one other : Reply)
        → Completes n v first (Ok one) u → Completes n u second (Ok other) w
        → FollowEachOther v first one second other w }
{}

/// A call that was begun, and finished with others of its pass between, was made and ends as a
/// whole call does. Its reply is legal in what the pass has seen, and was given out once its
/// position was durable.
pub fn begun_calls_complete()
    ensures { (n : ℕ) (v u x w : Record) (asked : Asked) (held : Held) (others : List Call)
        (answer : Result Reply Refusal) → Begins n v asked (Ok held) u → GoesOnWith u others x
        → Finishes x held answer w → CompletesAmong n v asked answer w }
{}

/// Whatever a stop leaves of an honest disk, whenever the lock is got, stands for the first c
/// commands of the one history; each position at which a reply was released is at most c, and that
/// reply is one thread's there in these c commands. So it is at each moment within a call of the
/// keeper. The premises: the records of the passes stand in one history, and the pass under the lock
/// is its keeper's.
pub fn released_outlive_stops<D: Disk>()
    ensures stops { ReleasedOutliveStops D.states D.honest }
    ensures answered { AnsweredAreReleased }
{}

/// Of all passes on the same words one alone is the keeper's. The pass under a map's lock is such a
/// one, so `keeper_pass` of the map's stripes is always refused.
pub fn one_pass_is_the_keepers()
    ensures { OneIsTheKeepers }
{}
