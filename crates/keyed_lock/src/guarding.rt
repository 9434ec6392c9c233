//! The lock's word and slot, and their rule.
ghost use Rattle.std.specs.Prelude.{◌≡◌};
ghost use Rattle.keyed_lock.specs.Guarding.{Guards, Seizes};

use atomic_table::{Play, Seat, Table, TableRule};
use std::alloc::Global;
use std::marker::PhantomData;
use std::snapshot::Snapshot;
use std::sync::{Mutex, MutexGuard};

/// What may stand under a lock with a key.
pub trait Keyed<K> {
    /// The value fits the key.
    ghost fits: { K → Self → Type 0 };
}

/// The rule of the lock's word and of its slot.
pub struct Guard<T, K> {
    marker: PhantomData<(T, K)>,
}

impl<T: Keyed<K>, K> TableRule<Option<T>, Snapshot<K>, Snapshot<K>> for Guard<T, K> {
    ghost holds = { λ key. Guards (T.fits key.value) };

    ghost first = { λ key. key };
}

/// The value is taken, if the lock was free.
impl<T: Keyed<K>, K> Play<Option<T>, Snapshot<K>> for Guard<T, K> {
    ghost then = { λ st m r n. r ≡ 0 → Seizes (T.fits m.0.value) n };
}

/// The value is put back.
pub(crate) struct Release;

impl<T, K> Play<Option<T>, Snapshot<K>> for Release {
    ghost then = { λ st m r n. Unit {0} };
}

/// A value that one thread at a time has. It fits the key that the lock was made with. Threads wait
/// for their turn as those of a `Mutex` do.
#[derive(Drop)]
pub struct KeyedLock<T: Keyed<K>, K> {
    pub(crate) turns: Mutex<()>,
    // Its word is 0 while the value stands in the slot.
    pub(crate) table: Table<Option<T>, Snapshot<K>, Snapshot<K>, Guard<T, K>, Global>,
    ghost sized: { (table.shared.table_id.words ≡ 1) × (table.shared.table_id.slots ≡ 1) },
}

/// The turn of the thread that has the value. It can't be let go but by `KeyedLock::give_back`.
pub struct Loan<'a, T, K> {
    pub(crate) turn: MutexGuard<'a, ()>,
    pub(crate) seat: Seat<Option<T>, Snapshot<K>>,
}
