//! A counter that stands under a lock.

use crate::counting::{Added, Counting, Name};
use crate::lock::Fits;
use dm_spine::{Pass, Spine};

/// How many entries a counter may have.
const ROOM: u64 = 281_474_976_710_656;

/// Which counter a lock is for, and of which spine.
#[derive(Drop)]
pub struct Place {
    pub spine: Spine<Counting>,
    pub number: u32,
}

/// The total and the number of a counter's entries, and the pass that keeps the counter's name.
#[derive(Drop)]
pub struct Tally {
    pub number: u32,
    pub total: u64,
    pub count: u64,
    pub pass: Pass<Counting>,
}

/// The counter has as many entries as it may have. Nothing was added.
#[derive(Clone, Copy, Debug, PartialEq, Eq)]
pub struct Full;

impl Fits<Place> for Tally {
    ghost use Rattle.shared_tally.specs.Tallies.{FitsPlace};

    ghost fits = { FitsPlace };
}

impl Tally {
    ghost use Rattle.std.specs.Prelude.{◌≡◌, ℕ, ◌<◌, ◌≤◌, IfOk, OnOk, OnErr, MatchResult};
    ghost use Rattle.dm_spine.specs.Past.{In, chain};
    ghost use Rattle.dm_spine.specs.Passes.{IsBeside, parts_of, view_of, seen_by, kept_by};
    ghost use Rattle.shared_tally.specs.Counting.{counting, added};
    ghost use Rattle.shared_tally.specs.Tallies.{Sums, Stands, Enters, Adds, IsFull};

    // Draws the entry, by a pass that keeps the counter's name and the worker's.
    fn enter(&mut self, me: &mut Pass<Counting>, worker: u32, amount: u16) -> Result<u64, Full>
        requires sums { Sums self.old (seen_by me.old) }
        requires keeps { In (Name.Counter self.old.number) (kept_by me.old) × In (Name.Worker worker) (kept_by me.old) }
        requires known { (self.old.number < 2) × (1 ≤ worker) × (worker ≤ 2) }
        ensures same { (self.new.pass ≡ self.old.pass) × (self.new.number ≡ self.old.number) }
        ensures beside { IsBeside me.old me.new }
        ensures sums { Sums self.new (seen_by me.new) }
        ensures entered { IfOk result (λ total. Enters (parts_of me.old) (view_of me.old) (added worker self.old.number amount) (view_of me.new) × (total ≡ self.new.total)) }
        ensures full { OnErr result ((view_of me.new ≡ view_of me.old) × IsFull self.old.number (seen_by me.old)) }
    {
        if self.count >= ROOM {
            return Err(Full);
        }
        me.draw(&Added {
            worker,
            counter: self.number,
            amount,
        });
        self.total += u64::from(amount);
        self.count += 1;
        Ok(self.total)
    }

    /// Adds the amount in the worker's name, and answers the total. The worker's pass has then seen all that this counter's
    /// pass had seen, with `Full` too.
    pub fn add(&mut self, me: &mut Pass<Counting>, worker: u32, amount: u16) -> Result<u64, Full>
        requires stands { Stands self.old }
        requires beside { IsBeside self.old.pass me.old }
        requires keeps { In (Name.Worker worker) (kept_by me.old) }
        requires known { (1 ≤ worker) × (worker ≤ 2) }
        ensures stands { Stands self.new × (self.new.number ≡ self.old.number) }
        ensures beside { IsBeside self.old.pass self.new.pass × IsBeside me.old me.new }
        ensures keeps { In (Name.Worker worker) (kept_by me.new) }
        ensures told { chain counting (Name.Counter self.old.number) (seen_by me.new) ≡ chain counting (Name.Counter self.old.number) (seen_by self.new.pass) }
        ensures added { MatchResult result
            (λ total. Adds self.old.number (seen_by self.old.pass) (seen_by me.old) (added worker self.old.number amount) total (seen_by me.new))
            (λ _. IsFull self.old.number (seen_by me.new) × (chain counting (Name.Worker worker) (seen_by me.new) ≡ chain counting (Name.Worker worker) (seen_by me.old))) }
    {
        let number = self.number;
        self.pass.give(me, Name::Counter(number));
        let entered = self.enter(me, worker, amount);
        me.give(&mut self.pass, Name::Counter(number));
        entered
    }
}
