//! A running map.
ghost use Rattle.std.specs.Prelude.{◌≡◌};
ghost use Rattle.std.specs.Arc.{arc_value};
ghost use Rattle.keyed_lock.specs.Locks.{key_of};

use crate::gathering::Gathering;
use crate::locked_keeper::LockedKeeper;
use disk_model::Disk;
use keyed_lock::KeyedLock;
use std::alloc::Global;
use std::sync::Arc;
use std::sync::atomic::AtomicBool;
use stripe_locks::Stripes;

/// A durable map that many threads share. Each makes its calls with a pass of its own. The replies come
/// once `flush_loop`, on a thread of its own, has committed what they rest on.
#[derive(Drop)]
pub struct DurableMap<D: Disk + Drop> {
    pub(crate) stripes: Arc<Stripes, Global>,
    // The keeper. Its pass makes its steps on the words of these stripes.
    pub(crate) locked: KeyedLock<LockedKeeper<D>, Stripes>,
    // A thread other than that of `flush_loop` makes turns of the log.
    pub(crate) is_led: AtomicBool,
    pub(crate) gathering: Gathering,
    ghost own: { key_of locked ≡ arc_value stripes },
}
