//! Two workers in threads of their own.
ghost use Rattle.std.specs.Prelude.{◌≡◌, ℕ, ◌+◌, ◌<◌, ◌≤◌, ◌⊎◌, [], ◌∷◌, ◌++◌, IfOk, OnOk, OnErr, length, sum};
ghost use Rattle.dm_spine.specs.Past.{In, Rises, chain};
ghost use Rattle.dm_spine.specs.Rule.{view, without};
ghost use Rattle.dm_spine.specs.Passes.{IsOn, IsBeside, view_of, seen_by, kept_by, past_of};
ghost use Rattle.shared_tally.specs.Counting.{counting, replay};
ghost use Rattle.shared_tally.specs.Tallies.{Stands, IsFull};
ghost use Rattle.shared_tally.specs.Runs.{IsLegal, Works, entries_by, entries_of};

use crate::counting::{Added, Counting, Name};
use crate::lock::Lock;
use crate::session::Session;
use crate::tally::{Full, Place, Tally};
use dm_spine::{NoMemory, Pass, Past, Spine};
use std::alloc::Global;
use std::sync::Wait;
use std::thread;
use std::thread::Threads;

// A pass that keeps the worker's name, cut from one that keeps it.
fn worker_pass(
    pass: &mut Pass<Counting>,
    alloc: Global,
    worker: u32,
) -> Result<Pass<Counting>, NoMemory>
    requires { In (Name.Worker worker) (kept_by pass.old) }
    ensures beside { IsBeside pass.old pass.new }
    ensures left { OnOk result (view_of pass.new ≡ view (seen_by pass.old) (without counting (Name.Worker worker ∷ []) (kept_by pass.old))) }
    ensures right { IfOk result (λ other. IsBeside pass.old other × (view_of other ≡ view (seen_by pass.old) (Name.Worker worker ∷ []))) }
{
    let mut names = Vec::with_capacity(alloc, 1)?;
    names.push_reserved(Name::Worker(worker));
    pass.split(alloc, names)
}

// One worker's whole work.
fn work<R: Wait>(
    rt: &R,
    lock: &Lock<Tally, Place>,
    pass: Pass<Counting>,
    worker: u32,
    amounts: &[u16],
) -> (Pass<Counting>, Result<(), Full>)
    requires beside { IsOn lock.now.table.shared.key.spine pass }
    requires keeps { In (Name.Worker worker) (kept_by pass) }
    requires known { (1 ≤ worker) × (worker ≤ 2) }
    ensures { Works lock.now.table.shared.key worker amounts.now pass result.0 result.1 }
{
    let mut session = Session::begin(rt, lock, pass, worker);
    let done = session.add_all(amounts);
    (session.end(), done)
}

// A counter under its lock, and the passes of its two workers.
fn begin_all(
    alloc: Global,
) -> Result<(Lock<Tally, Place>, Pass<Counting>, Pass<Counting>), NoMemory>
    ensures number { IfOk result (λ r. r.0.table.shared.key.number ≡ 0) }
    ensures spine { IfOk result (λ r. IsOn r.0.table.shared.key.spine r.1 × IsOn r.0.table.shared.key.spine r.2) }
    ensures keeps { IfOk result (λ r. In (Name.Worker 1) (kept_by r.1) × In (Name.Worker 2) (kept_by r.2)) }
    ensures seen { IfOk result (λ r. (seen_by r.1 ≡ []) × (seen_by r.2 ≡ [])) }
{
    let (spine, mut pass) = Spine::begin(alloc, Counting)?;
    let one = worker_pass(&mut pass, alloc, 1)?;
    let two = worker_pass(&mut pass, alloc, 2)?;
    let place = Place { spine, number: 0 };
    let tally = Tally {
        number: 0,
        total: 0,
        count: 0,
        pass,
    };
    Ok((Lock::begin(alloc, &place, tally)?, one, two))
}

// Both workers' work, each in a thread of its own.
fn work_both<R: Threads + Wait + Sync>(
    rt: &R,
    lock: &Lock<Tally, Place>,
    one: Pass<Counting>,
    two: Pass<Counting>,
    first: &[u16],
    second: &[u16],
) -> (
    (Pass<Counting>, Result<(), Full>),
    (Pass<Counting>, Result<(), Full>),
)
    requires beside { IsOn lock.now.table.shared.key.spine one × IsOn lock.now.table.shared.key.spine two }
    requires keeps { In (Name.Worker 1) (kept_by one) × In (Name.Worker 2) (kept_by two) }
    ensures first { Works lock.now.table.shared.key 1 first.now one result.0.0 result.0.1 }
    ensures second { Works lock.now.table.shared.key 2 second.now two result.1.0 result.1.1 }
{
    thread::join(
        rt,
        move || work(rt, lock, one, 1, first),
        move || work(rt, lock, two, 2, second),
    )
}

// The end of a run: the workers' passes and the counter's are joined.
fn finish_all(tally: Tally, one: Pass<Counting>, two: Pass<Counting>) -> (Past<Counting>, u64)
    requires stands { Stands tally }
    requires beside { IsBeside tally.pass one × IsBeside tally.pass two }
    requires keeps { In (Name.Worker 1) (kept_by one) × In (Name.Worker 2) (kept_by two) }
    ensures rises { Rises 0 (past_of result.0) }
    ensures legal { IsLegal (past_of result.0) }
    ensures total { result.1 ≡ replay (chain counting (Name.Counter tally.number) (past_of result.0)) }
    ensures one { chain counting (Name.Worker 1) (past_of result.0) ≡ chain counting (Name.Worker 1) (seen_by one) }
    ensures two { chain counting (Name.Worker 2) (past_of result.0) ≡ chain counting (Name.Worker 2) (seen_by two) }
    ensures first_full { IsFull 0 (seen_by one) → IsFull 0 (past_of result.0) }
    ensures second_full { IsFull 0 (seen_by two) → IsFull 0 (past_of result.0) }
{
    let Tally {
        total,
        mut pass,
        ..
    } = tally;
    pass.join(one);
    pass.join(two);
    (pass.finish(), total)
}

/// Two workers add amounts to one counter, each in a thread of its own. The answer is the history, and the total.
/// `NoMemory` comes before the threads start.
pub fn run_both<R: Threads + Wait + Sync>(
    rt: &R,
    alloc: Global,
    first: &[u16],
    second: &[u16],
) -> Result<(Past<Counting>, u64), NoMemory>
    requires { length first.now + length second.now < 281474976710656 }
    ensures rises { IfOk result (λ r. Rises 0 (past_of r.0)) }
    ensures legal { IfOk result (λ r. IsLegal (past_of r.0)) }
    ensures first { IfOk result (λ r. entries_by 1 (past_of r.0) ≡ entries_of 1 0 first.now) }
    ensures second { IfOk result (λ r. entries_by 2 (past_of r.0) ≡ entries_of 2 0 second.now) }
    ensures only { IfOk result (λ r. (a : ℕ × Added) → In a (past_of r.0) → In a (chain counting (Name.Worker 1) (past_of r.0)) ⊎ In a (chain counting (Name.Worker 2) (past_of r.0))) }
    ensures total { IfOk result (λ r. r.1 ≡ replay (chain counting (Name.Counter 0) (past_of r.0))) }
    ensures sum { IfOk result (λ r. r.1 ≡ sum first.now + sum second.now) }
{
    let (counter, one, two) = begin_all(alloc)?;
    let ((one, first_done), (two, second_done)) = work_both(rt, &counter, one, two, first, second);
    let tally = counter.end(rt);
    let finished = finish_all(tally, one, two);
    if first_done.is_err() {
        unreachable!()
    }
    if second_done.is_err() {
        unreachable!()
    }
    Ok(finished)
}
