//! What a worker holds of a request that it has begun.

use stripe_locks::Held;
use wire_frames::Bulk;

/// A request that was begun. It has the mark by which the observer is told of its end, if it is.
#[derive(Drop)]
pub enum Begun {
    /// The call of a change or a read was made, and its reply is held.
    Call(Option<u64>, Held),
    /// The view of the whole map is taken when the request is finished.
    View(Option<u64>, Bulk),
}
