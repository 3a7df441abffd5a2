//! A lock round a value that fits a key, over a table of one word and one slot.
//!
//! The word is 0 where the lock is free, and then the value is in the slot. std's `Mutex` says no more of its value than
//! the value's type does; here a clause names the key beside the lock.
ghost use Rattle.std.specs.Prelude.{◌≡◌};
ghost use Rattle.shared_tally.specs.Locks.{Guarded, Seized};

use atomic_table::{Play, Refused, Seat, Table, TableRule};
use dm_spine::NoMemory;
use std::alloc::Global;
use std::marker::PhantomData;
use std::sync::Wait;

/// What it means that a value fits a key.
pub trait Fits<K> {
    ghost fits: { K → Self → Type 0 };
}

/// The rule of a lock's table.
pub struct Guard<T> {
    marker: PhantomData<T>,
}

impl<K, T: Fits<K>> TableRule<Option<T>, K, K> for Guard<T> {
    ghost holds = { λ key. Guarded (T.fits key) };

    ghost first = { λ key. key };
}

impl<K, T: Fits<K>> Play<Option<T>, K> for Guard<T> {
    ghost then = { λ s m found n. found ≡ 0 → Seized (T.fits m.0) n };
}

struct Release;

impl<T, K> Play<Option<T>, K> for Release {
    ghost then = { λ s m found n. Unit {0} };
}

/// Each value that was put under it fits the key.
#[derive(Drop)]
pub struct Lock<T: Fits<K>, K> {
    table: Table<Option<T>, K, K, Guard<T>, Global>,
    ghost sized: { (table.shared.table_id.words ≡ 1) × (table.shared.table_id.slots ≡ 1) },
}

/// The value is out. A loan has no `Drop`, so that it ends in `put_back`.
pub struct Loan<T, K> {
    seat: Seat<Option<T>, K>,
}

impl<K, T: Fits<K> + Drop> Lock<T, K> {
    ghost use Rattle.std.specs.Prelude.{◌≡◌, IfOk};
    ghost use Rattle.shared_tally.specs.Locks.{HasOnly};

    /// A free lock. With `NoMemory` the value is gone.
    pub fn begin(alloc: Global, key: &K, value: T) -> Result<Lock<T, K>, NoMemory>
        requires { T.fits key.now value }
        ensures { IfOk result (λ lock. lock.table.shared.key ≡ key.now) }
    {
        let mut slots = Vec::with_capacity(alloc, 1)?;
        slots.push_reserved(Some(value));
        match Table::new(alloc, &[0], slots, key) {
            Ok((table, _seat)) => Ok(Lock { table }),
            Err(Refused { slots: _ }) => Err(NoMemory),
        }
    }

    /// Waits until the lock is free, and takes the value out.
    pub fn take<R: Wait>(&self, rt: &R) -> (T, Loan<T, K>)
        ensures fits { T.fits self.now.table.shared.key result.0 }
        ensures loan { (result.1.seat.table_id ≡ self.now.table.shared.table_id) × HasOnly result.1.seat.me }
    {
        let shared = &self.table.shared;
        for _ in rt.forever() {
            let (found, mut seat) = shared.swap_new_seat::<Guard<T>>(0, 1);
            if found == 0 {
                let value = shared.exchange(&mut seat, 0, None).unwrap();
                return (value, Loan { seat });
            }
            shared.park(rt, 0, 1);
        }
        unreachable!()
    }

    /// Puts a value in again, and frees the lock.
    pub fn put_back(&self, value: T, loan: Loan<T, K>)
        requires fits { T.fits self.now.table.shared.key value }
        requires loan { (loan.seat.table_id ≡ self.now.table.shared.table_id) × HasOnly loan.seat.me }
    {
        let Loan { mut seat } = loan;
        let shared = &self.table.shared;
        drop(shared.exchange(&mut seat, 0, Some(value)));
        shared.store::<Release>(&mut seat, 0, 0);
        shared.wake_one(0);
    }

    /// The value, at the lock's end. It waits as `take` does: no clause says that a lock which is owned is free.
    pub fn end<R: Wait>(self, rt: &R) -> T
        ensures { T.fits self.table.shared.key result }
    {
        let (value, loan) = self.take(rt);
        let Loan { seat } = loan;
        drop(seat);
        value
    }
}
