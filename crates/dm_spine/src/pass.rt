//! A spine, its passes and their pasts.
ghost use Rattle.std.specs.Arc.{arc_value};
ghost use Rattle.dm_spine.specs.Rule.{IsSeated};

use crate::memory::NoMemory;
use crate::parts::{Note, Parts};
use crate::rule::{Rows, Sight};
use crate::steps::{cut_at, draw_at, join_at, look_at};
use atomic_table::{Seat, Table};
use std::alloc::Global;
use std::marker::Brand;
use std::sync::Arc;

/// A numbered history. It counts the entries that its passes draw.
#[derive(Drop)]
pub struct Spine<P: Parts> {
    table: Arc<Rows<P>, Global>,
}

/// A part of the history that was seen, and names of which this pass alone draws entries
/// (docs/DEFINITIONS.md, "The shared history"). It moves freely between threads. The names of a pass that is dropped
/// are kept by no pass again.
#[derive(Drop)]
pub struct Pass<P: Parts> {
    table: Arc<Rows<P>, Global>,
    seat: Seat<(), Sight<P>>,
    ghost seated: { IsSeated (arc_value table).shared.table_id seat.table_id seat.me },
}

/// What a pass had seen when it was finished, for contracts alone. It has no bytes.
#[derive(Drop)]
pub struct Past<P: Parts> {
    seat: Seat<(), Sight<P>>,
}

impl<P: Parts> Spine<P> {
    ghost use Rattle.std.specs.Prelude.{◌≡◌, [], IfOk};
    ghost use Rattle.dm_spine.specs.Passes.{IsOn, spine_parts, parts_of, seen_by, kept_by};

    /// A history with no entry, and the pass that keeps every fixed name. With `NoMemory` nothing was begun.
    pub fn begin(alloc: Global, parts: P) -> Result<(Spine<P>, Pass<P>), NoMemory>
        ensures spine { IfOk result (λ r. IsOn r.0 r.1) }
        ensures parts { IfOk result (λ r. (spine_parts r.0 ≡ parts) × (parts_of r.1 ≡ parts)) }
        ensures seen { IfOk result (λ r. seen_by r.1 ≡ []) }
        ensures keeps { IfOk result (λ r. kept_by r.1 ≡ P.meaning.fixed parts) }
    {
        let (table, seat) = Table::of_words(alloc, &[0], &parts)?;
        let table = Arc::new(alloc, table)?;
        let spine = Spine {
            table: Arc::try_clone(&table)?,
        };
        Ok((spine, Pass { table, seat }))
    }
}

impl<P: Parts> Pass<P> {
    ghost use Rattle.std.specs.Prelude.{◌≡◌, IfOk, OnOk, OnErr};
    ghost use Rattle.dm_spine.specs.Past.{In, Legal, Rises};
    ghost use Rattle.dm_spine.specs.Rule.{MayDraw, Draws, Together, Gives, view, joined, without};
    ghost use Rattle.dm_spine.specs.Passes.{IsBeside, parts_of, view_of, seen_by, kept_by, past_of};

    /// Draws the note's entry: it comes into the history at the number answered, above all that this pass had seen.
    /// A draw is never refused. It is allowed where this pass keeps every name that the entry is about, what the entry
    /// makes is new, the entry fits this pass's past, and its home has fewer than 2 to the 48th entries
    /// (docs/DEFINITIONS.md, "The shared history").
    pub fn draw<N: Note<P>>(&mut self, note: &N) -> u64
        requires { MayDraw P.meaning (parts_of self.old) (N.entry note.now) (view_of self.old) }
        ensures spine { IsBeside self.old self.new }
        ensures drawn { Draws P.meaning (parts_of self.old) (N.entry note.now)
            (view_of self.old) result (view_of self.new) }
    {
        draw_at::<P, N, Brand>(&self.table, &mut self.seat, note)
    }

    /// A new pass with a copy of this past, which keeps these names; this pass gives them up. With no names the new
    /// pass is a mere note of the past. `NoMemory` comes where the spine's passes can be counted no further; nothing
    /// has changed then.
    pub fn split(&mut self, alloc: Global, names: Vec<P::Name>) -> Result<Pass<P>, NoMemory>
        requires { (x : P.Name) → In x names.items → In x (kept_by self.old) }
        ensures refused { OnErr result (view_of self.new ≡ view_of self.old) }
        ensures spine { IsBeside self.old self.new }
        ensures beside { IfOk result (λ other. IsBeside self.old other) }
        ensures left { OnOk result (view_of self.new
            ≡ view (seen_by self.old) (without P.meaning names.items (kept_by self.old))) }
        ensures right { IfOk result (λ other. view_of other ≡ view (seen_by self.old) names.items) }
    {
        let table = Arc::try_clone(&self.table)?;
        let seat = cut_at::<P, Vec<P::Name>, Brand>(&self.table, &mut self.seat, &names);
        Ok(Pass { table, seat })
    }

    /// Takes in the other pass: this one has then seen what either had seen, and keeps all names of both. The past is
    /// legal then, and what each pass had seen is a part of it. A join takes no memory and is never refused.
    pub fn join(&mut self, other: Pass<P>)
        requires { IsBeside self.old other }
        ensures spine { IsBeside self.old self.new }
        ensures joined { view_of self.new ≡ joined (view_of self.old) (view_of other) }
        ensures together { Together P.meaning (parts_of self.old) (view_of self.old) (view_of other) }
    {
        let Pass { table, seat } = other;
        drop(table);
        join_at::<P, Brand>(&self.table, &mut self.seat, seat);
    }

    /// Hands the name over to the other pass, which has then also seen what this one has seen, and so the whole chain
    /// of the name. It takes no memory and is never refused.
    pub fn give(&mut self, other: &mut Pass<P>, name: P::Name)
        requires spine { IsBeside self.old other.old }
        requires keeps { In name (kept_by self.old) }
        ensures spine { IsBeside self.old self.new × IsBeside other.old other.new }
        ensures gives { Gives P.meaning (parts_of self.old) name
            (view_of self.old) (view_of other.old) (view_of self.new) (view_of other.new) }
    {
        let seat = cut_at::<P, P::Name, Brand>(&self.table, &mut self.seat, &name);
        join_at::<P, Brand>(&other.table, &mut other.seat, seat);
    }

    /// What this pass has seen, for contracts alone. The names that it keeps are kept by no pass again.
    pub fn finish(self) -> Past<P>
        ensures seen { past_of result ≡ seen_by self }
        ensures rises { Rises 0 (past_of result) }
        ensures legal { Legal P.meaning (parts_of self) (past_of result) }
    {
        let Pass { table, mut seat } = self;
        look_at::<P, Brand>(&table, &mut seat);
        Past { seat }
    }
}
