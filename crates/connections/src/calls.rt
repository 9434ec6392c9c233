//! What answers requests.

ghost use Rattle.std.specs.Prelude.{IfOk, Result};
ghost use Rattle.map_types.specs.declared.refusals.Refusal.{Refusal};
ghost use Rattle.wire_frames.specs.declared.requests.Request.{Request};
ghost use Rattle.connections.specs.Dialogue.{Answer};

use map_types::{Refusal, Reply};
use wire_frames::Request;

/// What answers the requests of a connection. Each call is begun, and then finished or given up;
/// several may be begun before the first of them is finished. What is held of a call is owned by
/// the state from its `begin` on, whatever is done with other calls.
pub trait Calls {
    /// What is held of a call that was begun.
    type Held: Drop;

    // the state before, the request, what is held or why it was refused, the state after
    ghost began: { Self → Request → Result Self.Held Refusal → Self → Type 0 };

    // the state before, what was held, the answer, the state after
    ghost finished: { Self → Self.Held → Answer → Self → Type 0 };

    // the state before, what was held, the state after
    ghost gave_up: { Self → Self.Held → Self → Type 0 };

    // what is held is of a call that was begun here, and may be finished or given up
    ghost owns: { Self → Self.Held → Type 0 };

    /// Begins a call, or refuses it.
    fn begin(&mut self, request: Request) -> Result<Self::Held, Refusal>
        ensures began { began self.old request result self.new }
        ensures owned { IfOk result (owns self.new) }
        ensures others { (other : Self.Held) → owns self.old other → owns self.new other };

    /// Whether `finish` will likely return without a wait. It is a hint, and no clause speaks of
    /// it. Left out it says no; then the replies before it are written first.
    fn may_finish(&self, _held: &Self::Held) -> bool {
        false
    }

    /// The number that `finish` waits for, if it is known. It is a hint, and no clause speaks of it.
    fn awaits(&self, _held: &Self::Held) -> Option<u64> {
        None
    }

    /// How many bytes its reply has, nearly, if that is known. It is a hint, and no clause speaks of it.
    /// Left out it says none. No more calls are begun beside those whose replies have much.
    fn reply_bytes(&self, _held: &Self::Held) -> usize {
        0
    }

    /// Answers a call that was begun.
    fn finish(&mut self, held: Self::Held) -> Result<Reply, Refusal>
        requires owned { owns self.old held }
        ensures finished { finished self.old held result self.new }
        ensures others { (other : Self.Held) → owns self.old other → owns self.new other };

    /// Lets go of a call that was begun and that gets no reply.
    fn give_up(&mut self, held: Self::Held)
        requires owned { owns self.old held }
        ensures gave_up { gave_up self.old held self.new }
        ensures others { (other : Self.Held) → owns self.old other → owns self.new other };
}
