//! What the calls of a put come to, and a release.

ghost use Rattle.std.specs.Prelude.{◌≡◌, cond, IfOk};
ghost use Rattle.std.specs.FinMap as finmap;
ghost use Rattle.std.specs.Option.{option_copied, option_map};
ghost use Rattle.dm_base.specs.declared.request.PutEnd.TheVariants as end;
ghost use Rattle.dm_daemon_plans.specs.Found.{numbered, put_begun as put_begun_by};
ghost use Rattle.dm_durable.specs.declared.daemon.DaemonStep.TheVariants as step;
ghost use Rattle.dm_model.specs.DaemonCalls.{are_configured as are_configured_of, are_one_or_two as are_one_or_two_of, begin_put as begin_put_plan, begin_put_needs, committed_in as committed_in_of, copy_stored as copy_stored_plan, copy_stored_needs, end_put as end_put_plan, end_put_needs, has_reservation, is_filled as is_filled_of, is_first_filled as is_first_filled_of, is_reserved as is_reserved_of, may_ask as may_ask_of, put_refusals, daemon_refusal, release as release_plan};
ghost use Rattle.dm_model.specs.Files.{groups_of as groups_in};
ghost use Rattle.dm_model.specs.Guards.{first_true};
ghost use Rattle.dm_model.specs.Plan.{no_needs, prepared_plan};
ghost use Rattle.dm_verdicts.specs.Verdict.{verdict_on};

use crate::entries::{asked_by, groups_of, is_awaited, is_stored_if};
use crate::files::{is_dual, is_put, is_regular, online_copy, state_of};
use crate::prepared::{
    changed, daemon_healing_plan, first_error, is_new_request, journal_payload, no_request,
    refused_plan, request_of, step_plan, too_many,
};
use dm_base::{
    Bfid, Bytes, DaemonError, ENTRIES_LIMIT, GroupId, Listed, NUMBER_LIMIT, NoMemory, Path, PutEnd,
    Secs,
};
use dm_durable::{DaemonStep, Inode};
use dm_model::{
    Answer, Daemon, Ending, GroupHistory, Guard, History, OpenRequest, Opening, Prepared,
    RequestKind, Side,
};
use dm_tables::{Numbers, Test};
use dm_verdicts::{Verdict, guarded, judge, legal};
use std::alloc::Global;

pub(crate) fn begin_put(
    alloc: Global,
    sides: &Numbers<Side>,
    daemon: &Daemon,
    path: &Path,
    asked: [Option<GroupId>; 2],
    now: Secs,
    number: u64,
    file: Option<(u64, &Inode)>,
) -> Result<Verdict, NoMemory>
    ensures { IfOk result (λ v. v ≡ verdict_on (begin_put_plan daemon.now path.now asked now.0 number (option_map (λ f. numbered f.0 f.1.now) file.entry)) (begin_put_needs sides.now asked)) }
{
    let groups = groups_of(alloc, asked)?;
    let may = may_ask(asked, groups.as_slice());
    let there = (are_configured(sides, groups.as_slice()), Guard::AskedGroups);
    let Some((ino, inode)) = file else {
        return Ok(guarded(&[may, there], refused_plan(DaemonError::NoFile)));
    };
    if let Some(error) = put_refusal(daemon, ino, inode) {
        return Ok(guarded(&[may, there], refused_plan(error)));
    }
    let bytes = online_copy(alloc, &inode.contents)?;
    let prepared = put_begun(
        alloc,
        daemon,
        path,
        groups,
        bytes,
        now,
        number,
        (ino, inode.change),
    )?;
    let new = is_new_request(daemon, number);
    Ok(judge(&[may, there, new], &[may, there], prepared))
}

// What begins with a put of these bytes, which are those of the inode with this number and this last change.
fn put_begun(
    alloc: Global,
    daemon: &Daemon,
    path: &Path,
    groups: Listed<GroupId>,
    bytes: Bytes,
    now: Secs,
    number: u64,
    inode: (u64, u64),
) -> Result<Prepared, NoMemory>
    ensures { IfOk result (λ p. p ≡ put_begun_by daemon.now path.now groups bytes now.0 number inode.0 inode.1) }
{
    let (ino, change) = inode;
    let bfid = Bfid::of(daemon.tables.site, daemon.tables.counter);
    let step = DaemonStep::BeginPut {
        path: path.copied(alloc)?,
        bfid,
        groups: groups.copied(alloc)?,
    };
    let opens = Opening::Put {
        number,
        request: request_of(ino, bfid, change, RequestKind::Put),
        len: bytes.len() as u64,
        groups,
    };
    let answer = Answer::PutBegun {
        request: number,
        bfid,
        bytes,
        change,
    };
    Ok(Prepared {
        opens,
        ..step_plan(journal_payload(daemon, now, step), answer)
    })
}

// Whether the groups may be asked for copies: the first place is filled, and there is one, or there are two that differ.
fn may_ask(asked: [Option<GroupId>; 2], groups: &[GroupId]) -> (bool, Guard)
    ensures { groups.now ≡ groups_in asked → result ≡ may_ask_of asked }
{
    let [first, _second] = asked;
    (
        is_filled(first) && are_one_or_two(groups),
        Guard::AskedGroups,
    )
}

fn is_filled(place: Option<GroupId>) -> bool
    ensures { result ≡ is_filled_of place }
{
    place.is_some()
}

fn are_one_or_two(groups: &[GroupId]) -> bool
    ensures { result ≡ are_one_or_two_of groups.now }
{
    match groups {
        [] => false,
        [_] => true,
        [first, second] => first.0 != second.0,
        [_, _, _, ..] => false,
    }
}

fn are_configured(sides: &Numbers<Side>, groups: &[GroupId]) -> bool
    ensures { result ≡ are_configured_of sides.now groups.now }
{
    groups
        .iter()
        .all(|group| sides.contains(u128::from(group.0)))
}

// Why no put of the file with this inode may begin.
fn put_refusal(daemon: &Daemon, ino: u64, inode: &Inode) -> Option<DaemonError>
    ensures { option_map daemon_refusal result ≡ first_true (put_refusals daemon.now (numbered ino inode.now)) }
{
    let found = state_of(&daemon.requests, ino, &inode.contents);
    let entries = daemon.tables.entries.len() as u64;
    first_error(&[
        (!is_regular(found), DaemonError::WrongState { found }),
        (ENTRIES_LIMIT <= entries, too_many(ENTRIES_LIMIT)),
        (NUMBER_LIMIT < daemon.tables.counter, too_many(NUMBER_LIMIT)),
    ])
}

pub(crate) fn copy_stored(
    history: &History,
    daemon: &Daemon,
    group: GroupId,
    now: Secs,
    request: Option<OpenRequest>,
) -> Verdict
    ensures { result ≡ verdict_on (copy_stored_plan daemon.now group now.0 request) (copy_stored_needs history.now group request) }
{
    let Some(open) = request else {
        return no_request();
    };
    let awaited = is_awaited(daemon.tables.entries.get(open.bfid.0), group);
    let committed = committed_in(history.groups.get(u128::from(group.0)), open.bfid);
    let guards = [
        (is_put(open.kind), Guard::CopyCommitted),
        (awaited, Guard::CopyCommitted),
        (committed, Guard::CopyCommitted),
    ];
    if let Some(error) = changed(&open) {
        return guarded(&guards, refused_plan(error));
    }
    let step = DaemonStep::Stored {
        bfid: open.bfid,
        group,
    };
    guarded(
        &guards,
        step_plan(journal_payload(daemon, now, step), Answer::CopyStored),
    )
}

fn committed_in(group: Option<&GroupHistory>, bfid: Bfid) -> bool
    ensures { result ≡ committed_in_of (option_copied group.entry) bfid.0 }
{
    match group {
        None => false,
        Some(group) => group.committed.contains(bfid.0),
    }
}

pub(crate) fn end_put(
    alloc: Global,
    sides: &Numbers<Side>,
    daemon: &Daemon,
    number: u64,
    now: Secs,
    request: Option<OpenRequest>,
) -> Result<Verdict, NoMemory>
    ensures { IfOk result (λ v. v ≡ verdict_on (end_put_plan daemon.now number now.0 request) (end_put_needs sides.now request)) }
{
    let Some(open) = request else {
        return Ok(no_request());
    };
    let entry = daemon.tables.entries.get(open.bfid.0);
    let dual = is_stored_if(entry);
    let ends = Ending::Put {
        request: number,
        bfid: open.bfid,
        groups: asked_by(alloc, entry)?,
    };
    let guards = [
        (is_put(open.kind), Guard::NothingReserved),
        (!is_reserved(sides, open.bfid), Guard::NothingReserved),
    ];
    if let Some(error) = changed(&open) {
        let prepared = Prepared {
            ends,
            ..refused_plan(error)
        };
        return Ok(guarded(&guards, prepared));
    }
    let step = ended_step(&open, dual);
    let answer = Answer::PutEnded { end: end_of(dual) };
    let prepared = Prepared {
        ends,
        ..step_plan(journal_payload(daemon, now, step), answer)
    };
    Ok(guarded(&guards, prepared))
}

// The end of the put, with every copy stored or not.
fn ended_step(request: &OpenRequest, dual: bool) -> DaemonStep
    ensures { result ≡ step.EndPut request.now.ino request.now.bfid dual }
{
    DaemonStep::EndPut {
        ino: request.ino,
        bfid: request.bfid,
        dual,
    }
}

// How a put ends: with every copy stored, or not.
fn end_of(dual: bool) -> PutEnd
    ensures { result ≡ cond dual end.Dual end.Regular }
{
    if dual { PutEnd::Dual } else { PutEnd::Regular }
}

// Whether a reservation of the bitfile is open.
fn is_reserved(sides: &Numbers<Side>, bfid: Bfid) -> bool
    ensures { result ≡ is_reserved_of sides.now bfid.0 }
{
    sides.any(&ReservedFor { bfid })
}

// Has the group a reservation of the bitfile?
#[derive(Drop)]
struct ReservedFor {
    bfid: Bfid,
}

impl Test<Side> for ReservedFor {
    ghost passes = { λ it side. has_reservation (finmap.get side.copies it.bfid.0) };

    fn test(&self, side: &Side) -> bool {
        match side.copies.get(self.bfid.0) {
            None => false,
            Some(copy) => copy.reservation.is_some(),
        }
    }
}

pub(crate) fn release(
    alloc: Global,
    daemon: &Daemon,
    path: &Path,
    now: Secs,
    file: Option<(u64, &Inode)>,
) -> Result<Verdict, NoMemory>
    ensures { IfOk result (λ v. v ≡ verdict_on (release_plan daemon.now path.now now.0 (option_map (λ f. numbered f.0 f.1.now) file.entry)) no_needs) }
{
    let Some((ino, inode)) = file else {
        return Ok(legal(refused_plan(DaemonError::NoFile)));
    };
    let found = state_of(&daemon.requests, ino, &inode.contents);
    let refusal = first_error(&[(!is_dual(found), DaemonError::WrongState { found })]);
    if let Some(error) = refusal {
        return Ok(legal(refused_plan(error)));
    }
    let step = DaemonStep::Release {
        path: path.copied(alloc)?,
    };
    Ok(legal(step_plan(journal_payload(daemon, now, step), Answer::Released)))
}
