//! Turns of the log that a thread makes which waits for them, in place of the thread of `flush_loop`.
ghost use Rattle.std.specs.Prelude.{◌≡◌, ◌⊎◌, IfErr};

use crate::locked_keeper::Turn;
use crate::loops::{Ends, is_final};
use crate::map::DurableMap;
use disk_model::Disk;
use map_types::Refusal;
use std::sync::atomic::Ordering;
use ticket_order::Position;

/// How many turns a thread makes at most before it leaves the log to the thread of `flush_loop`.
const MOST_TURNS: u32 = 16;

/// A thread makes turns while at most so many changes wait. More come from several threads, which then
/// go on beside that of `flush_loop`.
const MOST_WAITING: u64 = 16;

impl<D: Disk + Drop> DurableMap<D> {
    /// A turn of the log, with the count that is committed after it, unless another thread has the keeper.
    /// If the store can't go on, a FAIL is made.
    fn try_turn(&self) -> Option<(Result<Turn, Refusal>, u64)> {
        let (mut locked, loan) = self.try_take_keeper()?;
        let before = locked.committed();
        let turn = locked.flush(false);
        if let Err(refusal) = turn {
            if is_final(refusal) {
                locked.fail();
            }
        }
        let committed = locked.committed();
        self.give_keeper(locked, loan);
        self.gathering.batch_ended(&self.stripes, before, committed);
        Some((turn, committed))
    }

    /// Makes turns until the position is durable, and returns how many commands are committed then. It
    /// returns nothing if what is left is another thread's.
    fn make_turns<E: Ends>(&self, position: Position, ends: &E) -> Result<Option<u64>, Refusal>
        ensures { IfErr result (λ refusal. (refusal ≡ Refusal.Failed)
            ⊎ (refusal ≡ Refusal.LogFull)) }
    {
        for _turn in 0..MOST_TURNS {
            match self.try_turn() {
                Some((Ok(Turn::Worked), committed)) => {
                    ends.turn_ended();
                    if self.stripes.may_release(position) {
                        return Ok(Some(committed));
                    }
                }
                Some((Err(refusal), _)) if is_final(refusal) => return Err(refusal),
                _ => return Ok(None),
            }
        }
        Ok(None)
    }

    /// Makes turns of the log until the position is durable, in place of the thread of `flush_loop`, if
    /// that thread rests, few changes wait, and no other thread makes turns. Each turn acts on the map's
    /// own words, and holds the lock over one device call at most; it doesn't wait for the lock. What is
    /// left to do is left to the thread of `flush_loop`, which is woken. `ends` is told of each turn as
    /// by `flush_loop`, and isn't asked whether to end. It says whether the position is durable.
    ///
    /// If a device call has failed, or the log is full, it makes a FAIL and returns `Failed` or
    /// `LogFull`, as `flush_loop` then does too.
    pub fn try_flush<E: Ends>(&self, position: Position, ends: &E) -> Result<bool, Refusal>
        ensures { IfErr result (λ refusal. (refusal ≡ Refusal.Failed)
            ⊎ (refusal ≡ Refusal.LogFull)) }
    {
        if !self.stripes.is_keeper_resting()
            || self.gathering.waiting(&self.stripes) > MOST_WAITING
        {
            return Ok(false);
        }
        if self.is_led.swap(true, Ordering::SeqCst) {
            return Ok(false);
        }
        self.gathering.gather(&self.stripes);
        let made = self.make_turns(position, ends);
        self.is_led.store(false, Ordering::SeqCst);
        let is_all = match made {
            Ok(Some(committed)) => !self.stripes.has_changed(committed),
            Ok(None) | Err(_) => false,
        };
        if !is_all {
            self.stripes.wake_keeper();
        }
        let made = made?;
        Ok(made.is_some())
    }

    /// Whether changes are expected at once that would share the next batch: those whose last changes were
    /// just committed often come back. A thread with a change that waits then does well to look for them
    /// before it calls `try_flush` or `wake_log`.
    pub fn expects_more(&self) -> bool {
        self.gathering.lacks(&self.stripes)
    }

    /// Has what was begun committed soon: wakes the thread of `flush_loop`, unless another thread makes
    /// its turns. Left out it is committed after a tenth of a second at most.
    pub fn wake_log(&self) {
        if !self.is_led.load(Ordering::SeqCst) {
            self.stripes.wake_keeper();
        }
    }
}
