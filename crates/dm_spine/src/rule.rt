//! The rule of the spine's one word, and what a pass knows.
ghost use Rattle.std.specs.Prelude.{[], ◌∷◌, None, Option};
ghost use Rattle.dm_spine.specs.Rule.{CountsHistory, view};

use crate::parts::Parts;
use atomic_table::{Table, TableRule};
use std::alloc::Global;
use std::collections::LinkedList;
use std::marker::{Brand, PhantomData};

/// What a pass knows: the entries that it has seen, and the names that it keeps. No value of it is ever made.
pub struct View<E, N> {
    pub seen: LinkedList<(u64, E)>,
    pub keeps: LinkedList<N>,
}

/// A seat's views: one, two while a join is under way, and none when it is spent.
pub(crate) type Sight<P> = LinkedList<View<<P as Parts>::Entry, <P as Parts>::Name>>;

/// The rule of a spine's table.
pub(crate) struct Ruled<P: Parts> {
    marker: PhantomData<P>,
}

/// A spine's table: one word, which counts the history, and no slot.
pub(crate) type Rows<P> = Table<(), Sight<P>, P, Ruled<P>, Global>;

impl<P: Parts> TableRule<(), LinkedList<View<P::Entry, P::Name>>, P> for Ruled<P> {
    ghost holds = { CountsHistory P.meaning };

    ghost first = { λ p. view [] (P.meaning.fixed p) ∷ [] };
}

/// What a step is told for the proof alone: the call at `Brand` picks it.
pub(crate) trait Said<X> {
    ghost said: { Option X };
}

impl<X> Said<X> for Brand {
    ghost said = { None };
}
