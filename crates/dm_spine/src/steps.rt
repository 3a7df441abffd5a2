//! The atomic steps on the spine's word. The types say what each kind of step does to the views of seats; the functions
//! take a step, and tell what it shows. What a step is told (`Said`) is there for the proof alone.
ghost use Rattle.std.specs.Prelude.{◌≡◌, [], ◌∷◌, ◌++◌, IfSome, IsSomeAnd};
ghost use Rattle.dm_spine.specs.Past.{In, Legal};
ghost use Rattle.dm_spine.specs.Rule.{IsSeated, IsSound, MayDraw, Draws, Together};
ghost use Rattle.dm_spine.specs.Rule.{sight, view, joined, without};
ghost use Rattle.dm_spine.specs.Steps.{draws_as, settles_as, looks_as, cut_left, cut_right};

use crate::parts::Parts;
use crate::rule::{Rows, Said, Sight, View};
use atomic_table::{Join, Play, Seat, Split};
use std::collections::LinkedList;
use std::marker::PhantomData;

/// An entry is drawn.
pub(crate) struct Draw<P: Parts, W: Said<(P, P::Entry)>> {
    marker: PhantomData<(P, W)>,
}

impl<P: Parts, W: Said<(P, P::Entry)>> Play<(), LinkedList<View<P::Entry, P::Name>>>
    for Draw<P, W> {
    ghost then = { λ s v n w. draws_as P.meaning W.said v n w };
}

/// A new seat has a copy of the past, and the names said.
pub(crate) struct Cut<P: Parts, W: Said<LinkedList<P::Name>>> {
    marker: PhantomData<(P, W)>,
}

impl<P: Parts, W: Said<LinkedList<P::Name>>> Split<LinkedList<View<P::Entry, P::Name>>>
    for Cut<P, W> {
    ghost left = { cut_left P.meaning W.said };

    ghost right = { cut_right W.said };
}

/// A seat takes in another's views.
pub(crate) struct Both<P: Parts> {
    marker: PhantomData<P>,
}

impl<P: Parts> Join<LinkedList<View<P::Entry, P::Name>>> for Both<P> {
    ghost both = { λ v w. v ++ w };

    ghost spent = { [] };
}

/// Two views become one, and the step tells that they fit together.
pub(crate) struct Settle<P: Parts, W: Said<P>> {
    marker: PhantomData<(P, W)>,
}

impl<P: Parts, W: Said<P>> Play<(), LinkedList<View<P::Entry, P::Name>>> for Settle<P, W> {
    ghost then = { λ s v n w. settles_as P.meaning W.said v w };
}

/// Nothing changes, and the step tells that the past is legal.
pub(crate) struct Look<P: Parts, W: Said<P>> {
    marker: PhantomData<(P, W)>,
}

impl<P: Parts, W: Said<P>> Play<(), LinkedList<View<P::Entry, P::Name>>> for Look<P, W> {
    ghost then = { λ s v n w. looks_as P.meaning W.said v w };
}

/// Draws the entry said. The note is there for the proof alone: the caller's pick of what is said reads it.
pub(crate) fn draw_at<P: Parts, X, W: Said<(P, P::Entry)>>(
    table: &Rows<P>,
    seat: &mut Seat<(), Sight<P>>,
    note: &X,
) -> u64
    requires seated { IsSeated table.now.shared.table_id seat.old.table_id seat.old.me }
    requires may { IsSomeAnd W.said (λ a. (a.0 ≡ table.now.shared.key)
        × MayDraw P.meaning a.0 a.1 (sight seat.old.me.0)) }
    ensures seated { IsSeated table.now.shared.table_id seat.new.table_id seat.new.me }
    ensures drawn { IfSome W.said (λ a. Draws P.meaning a.0 a.1
        (sight seat.old.me.0) result (sight seat.new.me.0)) }
{
    let _ = note;
    table.shared.fetch_add::<Draw<P, W>>(seat, 0, 1)
}

/// A new seat with a copy of the past and the names said, which the old one gives up.
pub(crate) fn cut_at<P: Parts, X, W: Said<LinkedList<P::Name>>>(
    table: &Rows<P>,
    seat: &mut Seat<(), Sight<P>>,
    names: &X,
) -> Seat<(), Sight<P>>
    requires seated { IsSeated table.now.shared.table_id seat.old.table_id seat.old.me }
    requires keeps { IsSomeAnd W.said (λ names. (x : P.Name) → In x names
        → In x (sight seat.old.me.0).keeps) }
    ensures seated { IsSeated table.now.shared.table_id seat.new.table_id seat.new.me }
    ensures left { IfSome W.said (λ names. sight seat.new.me.0
        ≡ view (sight seat.old.me.0).seen (without P.meaning names (sight seat.old.me.0).keeps)) }
    ensures right_seated { IsSeated table.now.shared.table_id result.table_id result.me }
    ensures right { IfSome W.said (λ names. sight result.me.0 ≡ view (sight seat.old.me.0).seen names) }
{
    let _ = names;
    table.shared.split_seat::<Cut<P, W>>(seat)
}

/// Takes in the other seat, by two loads: one puts the views side by side, one makes them one view.
pub(crate) fn join_at<P: Parts, W: Said<P>>(
    table: &Rows<P>,
    seat: &mut Seat<(), Sight<P>>,
    other: Seat<(), Sight<P>>,
)
    requires seated { IsSeated table.now.shared.table_id seat.old.table_id seat.old.me }
    requires other_seated { IsSeated table.now.shared.table_id other.table_id other.me }
    requires key { IsSomeAnd W.said (λ p. p ≡ table.now.shared.key) }
    ensures seated { IsSeated table.now.shared.table_id seat.new.table_id seat.new.me }
    ensures joined { IfSome W.said (λ p. sight seat.new.me.0
        ≡ joined (sight seat.old.me.0) (sight other.me.0)) }
    ensures together { IfSome W.said (λ p. Together P.meaning p
        (sight seat.old.me.0) (sight other.me.0)) }
{
    table.shared.join_seat::<Both<P>>(seat, other);
    table.shared.load::<Settle<P, W>>(seat, 0);
}

/// Changes nothing, and tells that the past is legal.
pub(crate) fn look_at<P: Parts, W: Said<P>>(table: &Rows<P>, seat: &mut Seat<(), Sight<P>>)
    requires seated { IsSeated table.now.shared.table_id seat.old.table_id seat.old.me }
    requires key { IsSomeAnd W.said (λ p. p ≡ table.now.shared.key) }
    ensures seated { IsSeated table.now.shared.table_id seat.new.table_id seat.new.me }
    ensures same { IfSome W.said (λ p. sight seat.new.me.0 ≡ sight seat.old.me.0) }
    ensures legal { IfSome W.said (λ p. Legal P.meaning p (sight seat.new.me.0).seen) }
    ensures sound { IfSome W.said (λ p. IsSound P.meaning p (sight seat.new.me.0)) }
{
    table.shared.load::<Look<P, W>>(seat, 0);
}
