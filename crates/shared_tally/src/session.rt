//! A worker's session with a counter.
ghost use Rattle.std.specs.Prelude.{◌≡◌, ◌≤◌, IsTrue};
ghost use Rattle.dm_spine.specs.Past.{has};
ghost use Rattle.dm_spine.specs.Passes.{IsOn, kept_by};
ghost use Rattle.shared_tally.specs.Counting.{counting};
ghost use Rattle.shared_tally.specs.declared.counting.Name.{Name};
ghost use Rattle.shared_tally.specs.declared.counting.Name.TheVariants.{Worker};

use crate::counting::{Counting, Name};
use crate::lock::Lock;
use crate::tally::{Full, Place, Tally};
use dm_spine::Pass;
use std::sync::Wait;

/// A worker with its own pass, which keeps its name.
pub struct Session<'a, R: Wait> {
    rt: &'a R,
    lock: &'a Lock<Tally, Place>,
    pass: Pass<Counting>,
    worker: u32,
    ghost beside: { IsOn lock.now.table.shared.key.spine pass },
    ghost keeps: { IsTrue (has counting (Worker worker) (kept_by pass)) },
    ghost known: { (1 ≤ worker) × (worker ≤ 2) },
}

impl<'a, R: Wait> Session<'a, R> {
    ghost use Rattle.std.specs.Prelude.{◌≡◌, ◌+◌, ◌≤◌, ◌++◌, OnOk, OnErr, MatchResult, length};
    ghost use Rattle.dm_spine.specs.Past.{In, chain};
    ghost use Rattle.dm_spine.specs.Passes.{IsOn, seen_by, kept_by};
    ghost use Rattle.shared_tally.specs.Counting.{counting, added};
    ghost use Rattle.shared_tally.specs.Tallies.{IsFull};
    ghost use Rattle.shared_tally.specs.Runs.{AddsOne, entries_by, entries_of};

    /// Begins a session of a worker whose pass keeps its name.
    pub fn begin(
        rt: &'a R,
        lock: &'a Lock<Tally, Place>,
        pass: Pass<Counting>,
        worker: u32,
    ) -> Session<'a, R>
        requires beside { IsOn lock.now.table.shared.key.spine pass }
        requires keeps { In (Name.Worker worker) (kept_by pass) }
        requires known { (1 ≤ worker) × (worker ≤ 2) }
        ensures { (result.pass ≡ pass) × (result.worker ≡ worker) × (result.lock.now ≡ lock.now) }
    {
        Session {
            rt,
            lock,
            pass,
            worker,
        }
    }

    /// Adds the amount to the counter, and answers the counter's total. It waits while another worker is at the counter.
    pub fn add(&mut self, amount: u16) -> Result<u64, Full>
        ensures same { (self.new.worker ≡ self.old.worker) × (self.new.lock.now ≡ self.old.lock.now) }
        ensures added { MatchResult result
            (λ total. AddsOne self.old.lock.now.table.shared.key.number (seen_by self.old.pass) (added self.old.worker self.old.lock.now.table.shared.key.number amount) total (seen_by self.new.pass))
            (λ _. IsFull self.old.lock.now.table.shared.key.number (seen_by self.new.pass) × (chain counting (Name.Worker self.old.worker) (seen_by self.new.pass) ≡ chain counting (Name.Worker self.old.worker) (seen_by self.old.pass))) }
    {
        let (mut tally, loan) = self.lock.take(self.rt);
        let added = tally.add(&mut self.pass, self.worker, amount);
        self.lock.put_back(tally, loan);
        added
    }

    /// Adds the amounts in their order, up to one that the counter has no room for.
    pub fn add_all(&mut self, amounts: &[u16]) -> Result<(), Full>
        ensures same { (self.new.worker ≡ self.old.worker) × (self.new.lock.now ≡ self.old.lock.now) }
        ensures added { OnOk result (entries_by self.old.worker (seen_by self.new.pass) ≡ entries_by self.old.worker (seen_by self.old.pass) ++ entries_of self.old.worker self.old.lock.now.table.shared.key.number amounts.now) }
        ensures full { OnErr result (IsFull self.old.lock.now.table.shared.key.number (seen_by self.new.pass)) }
        ensures few { length (entries_by self.old.worker (seen_by self.new.pass)) ≤ length (entries_by self.old.worker (seen_by self.old.pass)) + length amounts.now }
    {
        for amount in amounts {
            self.add(*amount)?;
        }
        Ok(())
    }

    /// The session's pass, at its end.
    pub fn end(self) -> Pass<Counting>
        ensures pass { result ≡ self.entry.pass }
        ensures beside { IsOn self.entry.lock.now.table.shared.key.spine result }
        ensures keeps { In (Name.Worker self.entry.worker) (kept_by result) }
    {
        let Session {
            pass,
            rt: _,
            lock: _,
            worker: _,
        } = self;
        pass
    }
}
