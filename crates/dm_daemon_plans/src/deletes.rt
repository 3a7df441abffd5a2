//! What the calls of a hard delete come to.

ghost use Rattle.std.specs.Prelude.{◌≡◌, IfOk, slice_get};
ghost use Rattle.std.specs.FinMap as finmap;
ghost use Rattle.std.specs.List.{list_all};
ghost use Rattle.std.specs.Option.{option_copied};
ghost use Rattle.dm_durable.specs.Entries.{groups_asked as groups_of_entry};
ghost use Rattle.dm_model.specs.DaemonCalls.{deleted_in as deleted_in_of, dropped as dropped_plan, dropped_needs, dropping_behind, dropping_of as dropping_of_entry, hard_delete as hard_delete_plan, hard_delete_of as hard_delete_of_plan, is_behind as is_behind_of, is_taken_at as is_taken_at_time, next_dropping as next_dropping_plan, taken_at as taken_at_time};
ghost use Rattle.dm_model.specs.Files.{has_open_request as has_open_request_of};
ghost use Rattle.dm_model.specs.Plan.{no_needs};
ghost use Rattle.dm_verdicts.specs.Verdict.{verdict_on};

use crate::entries::{groups_asked, is_due, places_of};
use crate::prepared::{daemon_healing_plan, journal_payload, step_plan, time_at};
use dm_base::{Bfid, Dropping, Listed, NoMemory, Secs};
use dm_durable::{AskedCopy, DaemonStep, Entry};
use dm_model::{Answer, Component, Daemon, GroupHistory, Guard, History, OpenRequest};
use dm_tables::{Numbers, Test};
use dm_verdicts::{Verdict, guarded, judge, legal, quiet_plan};
use std::alloc::Global;

pub(crate) fn hard_delete(alloc: Global, daemon: &Daemon, now: Secs) -> Result<Verdict, NoMemory>
    ensures { IfOk result (λ v. v ≡ verdict_on (hard_delete_plan daemon.now now.0) no_needs) }
{
    let taken = taken_at(alloc, daemon, time_at(daemon, now))?;
    hard_delete_of(daemon, now, taken)
}

// A hard delete that takes these entries. One that takes none journals nothing.
fn hard_delete_of(daemon: &Daemon, now: Secs, bfids: Listed<Bfid>) -> Result<Verdict, NoMemory>
    ensures { IfOk result (λ v. v ≡ verdict_on (hard_delete_of_plan daemon.now now.0 bfids) no_needs) }
{
    let taken = bfids.len() as u64;
    match bfids.as_slice() {
        [] => Ok(legal(daemon_healing_plan(Answer::HardDeleted { taken: 0 }))),
        [_, ..] => Ok(legal(step_plan(
            journal_payload(daemon, now, DaemonStep::HardDelete { bfids }),
            Answer::HardDeleted { taken },
        ))),
    }
}

// The bitfiles whose entries a hard delete takes at this time, by identifier.
fn taken_at(alloc: Global, daemon: &Daemon, now: Secs) -> Result<Listed<Bfid>, NoMemory>
    ensures { IfOk result (λ taken. taken ≡ taken_at_time daemon.now now.0) }
{
    let mut taken = Vec::new(alloc);
    for (number, entry) in daemon.tables.entries.entries() {
        if is_taken_at(daemon, now, *number, entry) {
            taken.push(Bfid(*number))?;
        }
    }
    Ok(Listed::from_vec(taken))
}

fn is_taken_at(daemon: &Daemon, now: Secs, number: u128, entry: &Entry) -> bool
    ensures { result ≡ is_taken_at_time daemon.now now.0 number entry.now }
{
    is_due(now, daemon.tables.age, entry) && !has_open_request(&daemon.requests, number)
}

// Whether a request of either kind is open on the bitfile.
fn has_open_request(requests: &Numbers<OpenRequest>, number: u128) -> bool
    ensures { result ≡ has_open_request_of requests.now number }
{
    requests.any(&RequestOf { number })
}

// Is the request one on the bitfile?
#[derive(Drop)]
struct RequestOf {
    number: u128,
}

impl Test<OpenRequest> for RequestOf {
    ghost use Rattle.std.specs.Prelude.{nat_eq};

    ghost passes = { λ it request. nat_eq request.bfid.0 it.number };

    fn test(&self, request: &OpenRequest) -> bool {
        request.bfid.0 == self.number
    }
}

pub(crate) fn next_dropping(
    alloc: Global,
    daemon: &Daemon,
    after: Option<Bfid>,
) -> Result<Verdict, NoMemory>
    ensures { IfOk result (λ v. v ≡ verdict_on (next_dropping_plan daemon.now after) no_needs) }
{
    let dropping = dropping_first(alloc, &daemon.tables.entries, after)?;
    let prepared = quiet_plan(Component::Daemon, Answer::NextDropping { dropping });
    Ok(judge(&[], &[(false, Guard::DeviceUsed)], prepared))
}

// The first entry behind that one whose copies are being deleted.
fn dropping_first(
    alloc: Global,
    entries: &Numbers<Entry>,
    after: Option<Bfid>,
) -> Result<Option<Dropping>, NoMemory>
    ensures { IfOk result (λ dropping. dropping ≡ slice_get (dropping_behind entries.now after) 0) }
{
    for (number, entry) in entries.entries() {
        if is_behind(after, *number) && entry.dropping {
            return Ok(Some(dropping_of(alloc, *number, entry)?));
        }
    }
    Ok(None)
}

fn is_behind(after: Option<Bfid>, number: u128) -> bool
    ensures { result ≡ is_behind_of after number }
{
    match after {
        None => true,
        Some(after) => after.0 < number,
    }
}

fn dropping_of(alloc: Global, number: u128, entry: &Entry) -> Result<Dropping, NoMemory>
    ensures { IfOk result (λ dropping. dropping ≡ dropping_of_entry number entry.now) }
{
    let groups = groups_asked(alloc, entry.copies.as_slice())?;
    Ok(Dropping {
        bfid: Bfid(number),
        asked: places_of(groups.as_slice()),
    })
}

pub(crate) fn dropped(
    history: &History,
    daemon: &Daemon,
    bfid: Bfid,
    now: Secs,
    entry: Option<&Entry>,
) -> Verdict
    ensures { result ≡ verdict_on (dropped_plan daemon.now bfid now.0 (option_copied entry.entry)) (dropped_needs history.now bfid (option_copied entry.entry)) }
{
    let Some(entry) = entry else {
        return legal(daemon_healing_plan(Answer::Dropped { there: false }));
    };
    let deleted = is_deleted(&history.groups, bfid, entry);
    let guards = [
        (entry.dropping, Guard::CopiesDeleted),
        (deleted, Guard::CopiesDeleted),
    ];
    let payload = journal_payload(daemon, now, DaemonStep::Dropped { bfid });
    guarded(&guards, step_plan(payload, Answer::Dropped { there: true }))
}

// Whether each group that was asked was told to delete the bitfile.
fn is_deleted(groups: &Numbers<GroupHistory>, bfid: Bfid, entry: &Entry) -> bool
    ensures { result ≡ list_all (λ g. deleted_in_of (finmap.get groups.now g.0) bfid.0) (groups_of_entry entry.now) }
{
    are_deleted(groups, bfid, entry.copies.as_slice())
}

// Whether each group that was asked for these copies was told so.
fn are_deleted(groups: &Numbers<GroupHistory>, bfid: Bfid, copies: &[AskedCopy]) -> bool
    ensures { result ≡ list_all (λ c. deleted_in_of (finmap.get groups.now c.group.0) bfid.0) copies.now }
{
    copies.iter().all(|copy| deleted_in(groups.get(u128::from(copy.group.0)), bfid))
}

fn deleted_in(group: Option<&GroupHistory>, bfid: Bfid) -> bool
    ensures { result ≡ deleted_in_of (option_copied group.entry) bfid.0 }
{
    match group {
        None => false,
        Some(group) => group.deleted.contains(bfid.0),
    }
}
