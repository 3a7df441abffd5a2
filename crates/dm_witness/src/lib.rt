//! A value that is there in contracts alone.
//!
//! A witness has no bytes of its value and costs one word of memory, freed at once. It is made from a proof that a fitting value
//! exists, and from then on speaks of one and the same value wherever it goes. So what was loaded can be said to stand for a whole
//! state of the machine that is never made.
#![tactic(auto)]

ghost use Rattle.std.specs.Prelude.{◌≡◌, true, is_some, None, IsSomeAnd};

use atomic_table::{Play, Seat, Table, TableRule};
use dm_base::NoMemory;
use std::alloc::Global;
use std::marker::{Brand, PhantomData};

#[cfg(test)]
mod tests;

/// What is asked of the value that is chosen, for the proof alone: the call at `Brand` picks it from what the value is about.
pub trait Asked<T> {
    ghost fits: { T → Type 0 };
}

impl<T> Asked<T> for Brand {
    ghost fits = { λ _. Unit {0} };
}

/// The rule of a table of which nothing is asked.
struct Free<T> {
    marker: PhantomData<T>,
}

impl<T> TableRule<(), Option<T>, ()> for Free<T> {
    ghost holds = { λ _ _. Unit {0} };

    ghost first = { λ _. None };
}

/// A load that picks the value.
struct Picked<T, W: Asked<T>> {
    marker: PhantomData<(T, W)>,
}

impl<T, W: Asked<T>> Play<(), Option<T>> for Picked<T, W> {
    ghost then = { λ s v n w. IsSomeAnd w.0 W.fits };
}

/// A value for contracts alone (`value_of`).
#[derive(Drop)]
pub struct Witness<T> {
    seat: Seat<(), Option<T>>,
    ghost there: { is_some seat.me.0 ≡ true },
}

impl<T> Witness<T> {
    ghost use Rattle.std.specs.Prelude.{IfOk};
    ghost use Rattle.dm_witness.specs.Chosen.{value_of};

    /// A witness of some value that fits, where the caller shows that there is one. The caller's pick of what fits reads `about`, which
    /// is there for the proof alone. `NoMemory` comes where one word of memory is refused.
    pub fn choose<X, W: Asked<T>>(alloc: Global, about: &X) -> Result<Witness<T>, NoMemory>
        requires { (x : T) × W.fits x }
        ensures { IfOk result (λ w. W.fits (value_of w)) }
    {
        let _ = about;
        let (table, mut seat) = Table::<(), Option<T>, (), Free<T>, Global>::of_words(
            alloc,
            &[0],
            &(),
        )?;
        table.shared.load::<Picked<T, W>>(&mut seat, 0);
        Ok(Witness { seat })
    }
}
