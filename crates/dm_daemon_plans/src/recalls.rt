//! What the calls of a recall come to.

ghost use Rattle.std.specs.Prelude.{◌≡◌, ◌+◌, is_some, true, false, length, take, drop, IfSome, IfNone, IfOk};
ghost use Rattle.std.specs.List.{list_any};
ghost use Rattle.std.specs.FinMap as finmap;
ghost use Rattle.std.specs.Option.{option_copied, option_map};
ghost use Rattle.dm_daemon_plans.specs.Found.{numbered};
ghost use Rattle.dm_durable.specs.Tables.{same_text};
ghost use Rattle.dm_model.specs.DaemonCalls.{begin_recall as begin_recall_plan, bytes_taken as bytes_taken_of, contents_of, drop_recall as drop_recall_plan, drop_recall_needs, end_recall as end_recall_plan, end_recall_needs, joins as joins_of, reads_or, recall_in as recall_of_worker, recall_of_away as recall_of_away_plan, step_taken as step_taken_of, was_read as was_read_of};
ghost use Rattle.dm_model.specs.Plan.{no_needs};
ghost use Rattle.dm_verdicts.specs.Verdict.{verdict_on};

use crate::entries::asked_by;
use crate::files::is_recall;
use crate::prepared::{
    changed, daemon_healing_plan, is_new_request, journal_payload, refused_plan, request_of,
    step_plan,
};
use dm_base::{Bfid, Bytes, DaemonError, GroupId, Ino, NoMemory, Secs};
use dm_durable::{Contents, DaemonStep, Inode};
use dm_model::{
    Answer, Component, Daemon, Ending, Guard, OpenRequest, Opening, Payload, Prepared, Recall,
    RequestKind, Worker,
};
use dm_tables::Numbers;
use dm_verdicts::{Verdict, guarded, judge, legal, quiet_plan};
use std::alloc::Global;

pub(crate) fn begin_recall(
    alloc: Global,
    daemon: &Daemon,
    number: u64,
    file: Option<(u64, &Inode)>,
) -> Result<Verdict, NoMemory>
    ensures { IfOk result (λ v. v ≡ verdict_on (begin_recall_plan daemon.now number (option_map (λ f. numbered f.0 f.1.now) file.entry)) no_needs) }
{
    let Some((ino, inode)) = file else {
        return Ok(legal(refused_plan(DaemonError::NoFile)));
    };
    match &inode.contents {
        Contents::Regular { bytes }
        | Contents::Making { bytes, bfid: _ }
        | Contents::Dual { bytes, bfid: _ } => {
            let bytes = bytes.copied(alloc)?;
            Ok(legal(daemon_healing_plan(Answer::Online { bytes })))
        }
        Contents::Offline { len, bfid } => {
            recall_of_away(alloc, daemon, number, ino, inode, *len, *bfid)
        }
    }
}

// A recall of a bitfile whose bytes are on volumes alone.
fn recall_of_away(
    alloc: Global,
    daemon: &Daemon,
    number: u64,
    ino: u64,
    inode: &Inode,
    len: u64,
    bfid: Bfid,
) -> Result<Verdict, NoMemory>
    ensures { IfOk result (λ v. v ≡ verdict_on (recall_of_away_plan daemon.now number (numbered ino inode.now) len bfid) no_needs) }
{
    let asked = asked_by(alloc, daemon.tables.entries.get(bfid.0))?;
    let opens = Opening::Recall {
        number,
        request: request_of(ino, bfid, inode.change, RequestKind::Recall),
        recall: Recall {
            bfid,
            len,
            asked: asked.copied(alloc)?,
            reads: Numbers::empty(alloc),
        },
    };
    let answer = Answer::RecallBegun {
        request: number,
        bfid,
        len,
        asked,
    };
    let prepared = Prepared {
        opens,
        ..daemon_healing_plan(answer)
    };
    Ok(judge(&[is_new_request(daemon, number)], &[], prepared))
}

pub(crate) fn end_recall(
    alloc: Global,
    worker: Option<&Worker>,
    daemon: &Daemon,
    number: u64,
    bytes: &Bytes,
    now: Secs,
    request: Option<OpenRequest>,
) -> Result<Verdict, NoMemory>
    ensures { IfOk result (λ v. v ≡ verdict_on (end_recall_plan daemon.now number bytes.now now.0 request) (end_recall_needs (option_copied worker.entry) number bytes.now)) }
{
    let recall = recall_in(worker, number);
    let there = (is_there(recall), Guard::RecallRead);
    let read = (was_read(recall, bytes.as_slice()), Guard::RecallRead);
    let Some(open) = request else {
        let guards = [(false, Guard::Tokens), there, read];
        return Ok(guarded(&guards, daemon_healing_plan(Answer::Failed)));
    };
    let guards = [(is_recall(open.kind), Guard::RecallRead), there, read];
    let ends = Ending::Recall { request: number };
    if let Some(error) = changed(&open) {
        let prepared = Prepared {
            ends,
            ..refused_plan(error)
        };
        return Ok(guarded(&guards, prepared));
    }
    let inode = daemon.tables.inodes.get(u128::from(open.ino.0));
    let step = step_taken(alloc, daemon, now, open.ino, bytes, inode)?;
    let bytes = bytes_taken(alloc, bytes, inode)?;
    let prepared = Prepared {
        ends,
        ..step_plan(step, Answer::Recalled { bytes })
    };
    Ok(guarded(&guards, prepared))
}

pub(crate) fn drop_recall(
    worker: Option<&Worker>,
    number: u64,
    request: Option<OpenRequest>,
    daemon: &Daemon,
) -> Verdict
    ensures { result ≡ verdict_on (drop_recall_plan daemon.now number request) (drop_recall_needs (option_copied worker.entry) number) }
{
    let there = (is_there(recall_in(worker, number)), Guard::RecallRead);
    let device = (false, Guard::DeviceUsed);
    let Some(open) = request else {
        let token = (false, Guard::Tokens);
        let prepared = quiet_plan(Component::Daemon, Answer::Failed);
        return judge(&[token, there], &[token, there, device], prepared);
    };
    let kind = (is_recall(open.kind), Guard::RecallRead);
    let prepared = Prepared {
        ends: Ending::Recall { request: number },
        ..quiet_plan(Component::Daemon, Answer::RecallDropped)
    };
    judge(&[kind, there], &[kind, there, device], prepared)
}

// The open recall of the worker.
fn recall_in(worker: Option<&Worker>, number: u64) -> Option<&Recall>
    ensures { option_copied result ≡ recall_of_worker (option_copied worker.entry) number }
{
    worker?.recalls.get(u128::from(number))
}

fn is_there(recall: Option<&Recall>) -> bool
    ensures { result ≡ is_some (option_copied recall.entry) }
{
    recall.is_some()
}

// What the recall of an inode gives, which holds nothing where it isn't there.
fn bytes_taken(alloc: Global, recalled: &Bytes, inode: Option<&Inode>) -> Result<Bytes, NoMemory>
    ensures { IfOk result (λ bytes. bytes ≡ bytes_taken_of recalled.now (contents_of (option_copied inode.entry))) }
{
    match inode {
        None => Ok(Bytes::from_vec(Vec::new(alloc))),
        Some(inode) => bytes_of(alloc, recalled, &inode.contents),
    }
}

// What it gives of an inode that holds this.
fn bytes_of(alloc: Global, recalled: &Bytes, contents: &Contents) -> Result<Bytes, NoMemory>
    ensures { IfOk result (λ bytes. bytes ≡ bytes_taken_of recalled.now contents.now) }
{
    match contents {
        Contents::Regular { bytes }
        | Contents::Making { bytes, bfid: _ }
        | Contents::Dual { bytes, bfid: _ } => bytes.copied(alloc),
        Contents::Offline { len: _, bfid: _ } => recalled.copied(alloc),
    }
}

// What it journals: the bytes, where the inode hasn't them.
fn step_taken(
    alloc: Global,
    daemon: &Daemon,
    now: Secs,
    ino: Ino,
    recalled: &Bytes,
    inode: Option<&Inode>,
) -> Result<Option<Payload>, NoMemory>
    ensures { IfOk result (λ step. step ≡ step_taken_of daemon.now now.0 ino.0 recalled.now (contents_of (option_copied inode.entry))) }
{
    match inode {
        None => Ok(None),
        Some(inode) => step_of(alloc, daemon, now, ino, recalled, &inode.contents),
    }
}

// What it journals of an inode that holds this.
fn step_of(
    alloc: Global,
    daemon: &Daemon,
    now: Secs,
    ino: Ino,
    recalled: &Bytes,
    contents: &Contents,
) -> Result<Option<Payload>, NoMemory>
    ensures { IfOk result (λ step. step ≡ step_taken_of daemon.now now.0 ino.0 recalled.now contents.now) }
{
    match contents {
        Contents::Regular { bytes: _ }
        | Contents::Making { bytes: _, bfid: _ }
        | Contents::Dual { bytes: _, bfid: _ } => Ok(None),
        Contents::Offline { len: _, bfid: _ } => {
            let bytes = recalled.copied(alloc)?;
            Ok(journal_payload(daemon, now, DaemonStep::Taken { ino, bytes }))
        }
    }
}

// Whether the bytes are the whole bitfile as the worker read it from one of the groups that were asked.
fn was_read(recall: Option<&Recall>, bytes: &[u8]) -> bool
    ensures { result ≡ was_read_of (option_copied recall.entry) bytes.now }
{
    match recall {
        None => false,
        Some(recall) => bytes.len() as u64 == recall.len && is_any_copy(recall, bytes),
    }
}

// Whether they are what was read from one of the groups.
fn is_any_copy(recall: &Recall, bytes: &[u8]) -> bool
    ensures { result ≡ list_any (λ g. joins_of 0 (finmap.entries (reads_or (finmap.get recall.now.reads g.0))) bytes.now) recall.now.asked }
{
    recall
        .asked
        .as_slice()
        .iter()
        .any(|group| is_copy(&recall.reads, *group, bytes))
}

// Whether they are what was read from the group.
fn is_copy(reads: &Numbers<Numbers<Bytes>>, group: GroupId, bytes: &[u8]) -> bool
    ensures { result ≡ joins_of 0 (finmap.entries (reads_or (finmap.get reads.now group.0))) bytes.now }
{
    match reads.get(u128::from(group.0)) {
        None => bytes.is_empty(),
        Some(parts) => joins(parts, bytes),
    }
}

// Whether the parts, each at its offset, are the bytes, one behind another.
fn joins(parts: &Numbers<Bytes>, bytes: &[u8]) -> bool
    ensures { result ≡ joins_of 0 (finmap.entries parts.now) bytes.now }
{
    let mut at: u128 = 0;
    let mut rest = bytes;
    for (offset, part) in parts.entries() {
        if !(*offset == at) {
            return false;
        }
        let Some(behind) = behind(rest, part.as_slice()) else {
            return false;
        };
        at += part.len() as u128;
        rest = behind;
    }
    rest.is_empty()
}

// The bytes behind the part, with which they begin.
fn behind<'a>(bytes: &'a [u8], part: &[u8]) -> Option<&'a [u8]>
    ensures there { IfSome result (λ rest. (same_text (take (length part.now) bytes.now) part.now ≡ true) × (rest.now ≡ drop (length part.now) bytes.now) × (length part.now + length rest.now ≡ length bytes.now)) }
    ensures none { IfNone result (same_text (take (length part.now) bytes.now) part.now ≡ false) }
{
    if bytes.len() < part.len() {
        return None;
    }
    let (begin, rest) = bytes.split_at(part.len());
    if !(begin == part) {
        return None;
    }
    Some(rest)
}
