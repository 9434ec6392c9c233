//! The lock, and the loan of its value.
ghost use Rattle.std.specs.Prelude.{◌≡◌, IfOk, IfErr, IfSome};
ghost use Rattle.keyed_lock.specs.Locks.{key_of, IsLoanOf, IsOutOf};

use crate::guarding::{Guard, Keyed, KeyedLock, Loan, Release};
use atomic_table::{Refused, Seat, Table};
use std::alloc::Global;
use std::snapshot::Snapshot;
use std::sync::{Mutex, Wait};

impl<T: Keyed<K> + Drop, K> KeyedLock<T, K> {
    /// A lock round this value. If there is no memory, the value comes back.
    pub fn new(alloc: Global, value: T, key: &K) -> Result<KeyedLock<T, K>, T>
        requires { T.fits key.now value }
        ensures key { IfOk result (λ lock. key_of lock ≡ key.now) }
        ensures back { IfErr result (λ back. back ≡ value) }
    {
        let Ok(mut slots) = Vec::with_capacity(alloc, 1) else {
            return Err(value);
        };
        slots.push_reserved(Some(value));
        match Table::new(alloc, &[0], slots, &Snapshot::of(key)) {
            Ok((table, _seat)) => Ok(KeyedLock {
                turns: Mutex::new(()),
                table,
            }),
            Err(Refused { mut slots }) => {
                let Some(Some(value)) = slots.pop() else {
                    unreachable!()
                };
                Err(value)
            }
        }
    }

    /// Takes the value, if it stands in the slot.
    fn take(&self) -> Option<(T, Seat<Option<T>, Snapshot<K>>)>
        ensures { IfSome result (λ taken. T.fits (key_of self.now) taken.0
            × IsOutOf self.now taken.1) }
    {
        let shared = &self.table.shared;
        let (found, mut seat) = shared.swap_new_seat::<Guard<T, K>>(0, 1);
        if found != 0 {
            return None;
        }
        let Some(value) = shared.exchange(&mut seat, 0, None) else {
            unreachable!()
        };
        Some((value, seat))
    }

    /// Waits for its turn, and takes the value out.
    pub fn lock<'a, R: Wait>(&'a self, rt: &R) -> (T, Loan<'a, T, K>)
        ensures fits { T.fits (key_of self.now) result.0 }
        ensures loan { IsLoanOf self.now result.1 }
    {
        for _turn in rt.forever() {
            let turn = self.turns.lock(rt);
            if let Some((value, seat)) = self.take() {
                return (value, Loan { turn, seat });
            }
            drop(turn);
        }
        unreachable!()
    }

    /// Takes the value out, if no other thread has its turn. It doesn't wait.
    pub fn try_lock<'a>(&'a self) -> Option<(T, Loan<'a, T, K>)>
        ensures fits { IfSome result (λ taken. T.fits (key_of self.now) taken.0) }
        ensures loan { IfSome result (λ taken. IsLoanOf self.now taken.1) }
    {
        let turn = self.turns.try_lock()?;
        let (value, seat) = self.take()?;
        Some((value, Loan { turn, seat }))
    }

    /// Puts a value back, and lets the next thread have its turn.
    pub fn give_back(&self, value: T, loan: Loan<'_, T, K>)
        requires fits { T.fits (key_of self.now) value }
        requires loan { IsLoanOf self.now loan }
    {
        let Loan { turn, mut seat } = loan;
        let shared = &self.table.shared;
        drop(shared.exchange(&mut seat, 0, Some(value)));
        shared.store::<Release>(&mut seat, 0, 0);
        drop(turn);
    }
}
