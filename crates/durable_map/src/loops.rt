//! The loops that commit, and that write checkpoints, each on a thread of its own.
ghost use Rattle.std.specs.Prelude.{◌≡◌, ◌⊎◌, IsTrue, IfErr, IfSome};
ghost use Rattle.keyed_lock.specs.Locks.{IsLoanOf};
ghost use Rattle.durable_map.specs.Maps.{name_of_words};

use crate::locked_keeper::{LockedKeeper, Turn};
use crate::map::DurableMap;
use crate::telling::SealedCheckpoint;
use crossbeam_utils::Backoff;
use disk_model::Disk;
use keyed_lock::Loan;
use map_types::Refusal;
use std::sync::Wait;
use std::time::{Clock, Duration, Instant};
use stripe_locks::Stripes;

/// For how many milliseconds a loop sleeps before it tries again what was refused some times.
const SHORT_SLEEP: u64 = 1;

/// For how many milliseconds the loop of checkpoints sleeps if there is nothing to do.
const LONG_SLEEP: u64 = 100;

/// For how many times as long as its turn held the lock the loop of checkpoints rests behind it, if
/// changes are still to be committed.
const REST: u32 = 9;

/// For how many milliseconds it rests then at most.
const LONGEST_REST: u64 = 1_000;

/// Says when a loop is to end.
pub trait Ends {
    fn has_ended(&self) -> bool;

    /// Is told after each turn of the log in which something was done: more may be durable. Left out it
    /// does nothing.
    fn turn_ended(&self) {}

    /// Is told of each checkpoint that was sealed. Left out it does nothing.
    fn checkpoint_sealed(&self, _sealed: &SealedCheckpoint) {}
}

/// What a turn of the checkpoints came to.
#[derive(Clone, Copy)]
struct CheckpointTurn {
    turn: Result<Turn, Refusal>,
    // how many changes are committed after it
    committed: u64,
    // for how long it held the lock, if the clock told
    spent: Option<Duration>,
    // the checkpoint that it sealed
    sealed: Option<SealedCheckpoint>,
}

/// Whether the store can't go on after this refusal: a device call failed, or a file is full.
pub(crate) fn is_final(refusal: Refusal) -> bool
    ensures { IsTrue result → (refusal ≡ Refusal.Failed) ⊎ (refusal ≡ Refusal.LogFull) }
{
    matches!(refusal, Refusal::Failed | Refusal::LogFull)
}

impl<D: Disk + Drop> DurableMap<D> {
    /// Waits for its turn, and takes the keeper out. Its pass makes its steps on the map's own words.
    pub(crate) fn take_keeper<'a, R: Wait>(
        &'a self,
        rt: &R,
    ) -> (LockedKeeper<D>, Loan<'a, LockedKeeper<D>, Stripes>)
        ensures own { result.0.words ≡ name_of_words self.now }
        ensures loan { IsLoanOf self.now.locked result.1 }
    {
        self.locked.lock(rt)
    }

    /// The same, unless another thread has it. It doesn't wait.
    pub(crate) fn try_take_keeper<'a>(
        &'a self,
    ) -> Option<(LockedKeeper<D>, Loan<'a, LockedKeeper<D>, Stripes>)>
        ensures own { IfSome result (λ taken. taken.0.words ≡ name_of_words self.now) }
        ensures loan { IfSome result (λ taken. IsLoanOf self.now.locked taken.1) }
    {
        self.locked.try_lock()
    }

    /// Puts the keeper back, which made its steps on the map's own words.
    pub(crate) fn give_keeper(
        &self,
        locked: LockedKeeper<D>,
        loan: Loan<'_, LockedKeeper<D>, Stripes>,
    )
        requires own { locked.words ≡ name_of_words self.now }
        requires loan { IsLoanOf self.now.locked loan }
    {
        self.locked.give_back(locked, loan);
    }

    fn fail<R: Wait>(&self, rt: &R) {
        let (mut locked, loan) = self.take_keeper(rt);
        locked.fail();
        self.give_keeper(locked, loan);
    }

    /// A turn of the log, with the count that is committed after it.
    pub(crate) fn flush<R: Wait>(&self, rt: &R, sweeps_all: bool) -> (Result<Turn, Refusal>, u64) {
        let (mut locked, loan) = self.take_keeper(rt);
        let before = locked.committed();
        let turn = locked.flush(sweeps_all);
        let committed = locked.committed();
        self.give_keeper(locked, loan);
        self.gathering.batch_ended(&self.stripes, before, committed);
        (turn, committed)
    }

    /// A turn of the checkpoints.
    fn checkpoint<R: Clock + Wait>(&self, rt: &R, bytes: u64) -> CheckpointTurn {
        let (mut locked, loan) = self.take_keeper(rt);
        let start = Instant::now(rt).ok();
        let turn = locked.checkpoint(bytes, start);
        let committed = locked.committed();
        let end = Instant::now(rt).ok();
        let sealed = match turn {
            Ok(Turn::Sealed) => Some(locked.note_sealed(end)),
            _ => None,
        };
        self.give_keeper(locked, loan);
        let spent = match (start, end) {
            (Some(start), Some(end)) => Some(end.duration_since(start)),
            _ => None,
        };
        CheckpointTurn {
            turn,
            committed,
            spent,
            sealed,
        }
    }

    /// Lets the loop of the log have the lock, if a change is still to be committed, for some times as
    /// long as the turn held it. The lock by itself serves nobody in turn.
    fn rest_behind<R: Wait>(&self, rt: &R, committed: u64, spent: Option<Duration>) {
        if self.stripes.has_changed(committed) {
            let spent = spent.unwrap_or(Duration::from_millis(SHORT_SLEEP));
            let longest = Duration::from_millis(LONGEST_REST);
            self.stripes
                .sleep_until_failed(rt, spent.saturating_mul(REST).min(longest));
        }
    }

    /// Waits a moment for those that are expected, if others have come since so many were committed.
    fn gather(&self, committed: u64) {
        if self.stripes.has_changed(committed) {
            self.gathering.gather(&self.stripes);
        }
    }

    /// Returns after a moment, which grows with the number of turns in which nothing was done.
    pub(crate) fn wait_a_moment<R: Wait>(&self, rt: &R, backoff: &Backoff) {
        if backoff.is_completed() {
            let moment = Duration::from_millis(SHORT_SLEEP);
            self.stripes.sleep_until_failed(rt, moment);
        } else {
            backoff.snooze();
        }
    }

    /// Waits for changes behind the committed ones: sleeps if none has a ticket, else waits for a moment,
    /// since it may be about to come.
    fn rest<R: Wait>(&self, rt: &R, backoff: &Backoff, committed: u64) {
        if self.stripes.has_changed(committed) {
            self.wait_a_moment(rt, backoff);
        } else {
            self.stripes.sleep_until_changed(rt, committed);
            backoff.reset();
        }
    }

    /// Waits until there may be something to write.
    fn rest_long<R: Wait>(&self, rt: &R) {
        let moment = Duration::from_millis(LONG_SLEEP);
        self.stripes.sleep_until_failed(rt, moment);
    }
}

/// Commits what the passes change, and publishes it, until `ends` says so. Each turn acts on the
/// map's own words, and holds the lock over one device call at most. If a device call has failed, or
/// the log is full, it makes a FAIL and returns `Failed` or `LogFull`. Each later call is then
/// refused with `Failed`. What it is refused for want of memory is tried again.
pub fn flush_loop<D: Disk + Drop, E: Ends, R: Wait>(
    rt: &R,
    map: &DurableMap<D>,
    ends: &E,
) -> Result<(), Refusal>
    ensures { IfErr result (λ refusal. (refusal ≡ Refusal.Failed) ⊎ (refusal ≡ Refusal.LogFull)) }
{
    let backoff = Backoff::new();
    let mut last = 0;
    for _turn in rt.forever() {
        if ends.has_ended() {
            return Ok(());
        }
        map.gather(last);
        let has_waited = backoff.is_completed();
        let (turn, committed) = map.flush(rt, has_waited);
        last = committed;
        match turn {
            Ok(Turn::Worked | Turn::Sealed) => {
                ends.turn_ended();
                backoff.reset();
            }
            Ok(Turn::Rested | Turn::Awaited) => map.rest(rt, &backoff, committed),
            Err(refusal) => {
                if is_final(refusal) {
                    map.fail(rt);
                    return Err(refusal);
                }
                map.rest(rt, &backoff, committed);
            }
        }
    }
    unreachable!()
}

/// Writes a checkpoint whenever the newest log has at least `bytes` bytes, until `ends` says so.
/// Each turn acts on the map's own words, and holds the lock over one device call at most. Behind it
/// the loop rests while changes are still to be committed, so that batches are committed between its
/// calls. It needs `flush_loop` on another thread. If a device
/// call has failed, or a stripe has too many entries for a checkpoint, it makes a FAIL and returns
/// `Failed` or `LogFull`. What it is refused for want of memory, because a stripe is held, or
/// because it comes too early, is tried again.
pub fn checkpoint_loop<D: Disk + Drop, E: Ends, R: Clock + Wait>(
    rt: &R,
    map: &DurableMap<D>,
    bytes: u64,
    ends: &E,
) -> Result<(), Refusal>
    ensures { IfErr result (λ refusal. (refusal ≡ Refusal.Failed) ⊎ (refusal ≡ Refusal.LogFull)) }
{
    let backoff = Backoff::new();
    for _turn in rt.forever() {
        if ends.has_ended() {
            return Ok(());
        }
        let CheckpointTurn {
            turn,
            committed,
            spent,
            sealed,
        } = map.checkpoint(rt, bytes);
        if let Some(sealed) = &sealed {
            ends.checkpoint_sealed(sealed);
        }
        match turn {
            Ok(Turn::Worked | Turn::Sealed) => {
                map.rest_behind(rt, committed, spent);
                backoff.reset();
            }
            Ok(Turn::Rested) => map.rest_long(rt),
            Ok(Turn::Awaited) => map.wait_a_moment(rt, &backoff),
            Err(refusal) => {
                if is_final(refusal) {
                    map.fail(rt);
                    return Err(refusal);
                }
                map.wait_a_moment(rt, &backoff);
            }
        }
    }
    unreachable!()
}
