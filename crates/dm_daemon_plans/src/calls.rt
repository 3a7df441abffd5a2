//! All calls of the daemon.

ghost use Rattle.std.specs.Prelude.{◌≡◌, IfOk, IsErrOf};
ghost use Rattle.std.specs.FinMap as finmap;
ghost use Rattle.std.specs.Option.{option_copied, option_map};
ghost use Rattle.dm_daemon_plans.specs.Found.{numbered};
ghost use Rattle.dm_daemon_plans.specs.Parts.{part_of};
ghost use Rattle.dm_daemon_plans.specs.Parts.Part.{Changes, Deletes, Dumps, Puts, Recalls};
ghost use Rattle.dm_daemon_plans.specs.Range.{IsDaemonInRange};
ghost use Rattle.dm_model.specs.DaemonCalls.{attributes as attributes_plan, daemon_healing_plan as daemon_healing_plan_of, daemon_needs, daemon_plan};
ghost use Rattle.dm_model.specs.Files.{all_rows as all_rows_of, file_at as file_at_of};
ghost use Rattle.dm_model.specs.Plan.{no_needs};
ghost use Rattle.dm_model.specs.declared.answer.Answer.TheVariants as answer;
ghost use Rattle.dm_verdicts.specs.Verdict.{verdict_on};

use crate::deletes::{dropped, hard_delete, next_dropping};
use crate::dumps::{make_dump, restore, set_age, undump};
use crate::files::{all_rows, file_at, row_of};
use crate::prepared::{daemon_healing_plan, refused_plan};
use crate::puts::{begin_put, copy_stored, end_put, release};
use crate::recalls::{begin_recall, drop_recall, end_recall};
use crate::writes::{patch, remove, write};
use dm_base::{DaemonError, NoMemory, Path};
use dm_durable::Inode;
use dm_model::{Answer, Daemon, DaemonCall, History, OpenRequest, Side, Worker};
use dm_tables::Numbers;
use dm_verdicts::{Verdict, VerdictError, legal};
use std::alloc::Global;

/// The verdict on a call of the daemon: the lowest guard of it that is false, and what it comes to. The worker is the one that
/// calls, if anything is known of it (docs/DEFINITIONS.md, "The machine, whole"). `OutOfRange` comes only where a name in the tables
/// is no path, which comes in no run; then no list of all files could say what the definition does. `NoMemory` only where memory is refused.
pub fn daemon_verdict(
    alloc: Global,
    sides: &Numbers<Side>,
    worker: Option<&Worker>,
    history: &History,
    daemon: &Daemon,
    call: &DaemonCall,
) -> Result<Verdict, VerdictError>
    ensures verdict { IfOk result (λ v. v ≡ verdict_on (daemon_plan daemon.now call.now) (daemon_needs sides.now (option_copied worker.entry) history.now daemon.now call.now)) }
    ensures range { IsErrOf result VerdictError.OutOfRange → IsDaemonInRange daemon.now → ⊥ }
{
    let looked = Looked {
        sides,
        worker,
        history,
        daemon,
    };
    match call {
        DaemonCall::BeginPut { .. } | DaemonCall::CopyStored { .. } | DaemonCall::EndPut { .. } =>
            Ok(put_verdict(alloc, &looked, call)?),
        DaemonCall::BeginRecall { .. }
        | DaemonCall::EndRecall { .. }
        | DaemonCall::DropRecall { .. } => Ok(recall_verdict(alloc, &looked, call)?),
        DaemonCall::Write { .. }
        | DaemonCall::Patch { .. }
        | DaemonCall::Remove { .. }
        | DaemonCall::Release { .. } => Ok(change_verdict(alloc, &looked, call)?),
        DaemonCall::MakeDump { .. }
        | DaemonCall::Undump { .. }
        | DaemonCall::Restore { .. }
        | DaemonCall::SetAge { .. } => Ok(dump_verdict(alloc, &looked, call)?),
        DaemonCall::HardDelete { .. }
        | DaemonCall::NextDropping { .. }
        | DaemonCall::Dropped { .. } => Ok(delete_verdict(alloc, &looked, call)?),
        DaemonCall::Attributes { path } => Ok(attributes(alloc, daemon, path)?),
        DaemonCall::List => list(alloc, daemon),
    }
}

// What a call is looked at with.
#[derive(Drop)]
struct Looked<'a> {
    sides: &'a Numbers<Side>,
    worker: Option<&'a Worker>,
    history: &'a History,
    daemon: &'a Daemon,
}

// A call of a put.
fn put_verdict(alloc: Global, looked: &Looked, call: &DaemonCall) -> Result<Verdict, NoMemory>
    requires { part_of call.now ≡ Puts }
    ensures { IfOk result (λ v. v ≡ verdict_on (daemon_plan looked.now.daemon.now call.now) (daemon_needs looked.now.sides.now (option_copied looked.now.worker) looked.now.history.now looked.now.daemon.now call.now)) }
{
    let sides = looked.sides;
    let daemon = looked.daemon;
    match call {
        DaemonCall::BeginPut {
            path,
            asked,
            now,
            request,
        } => {
            let file = file_at(daemon, path);
            begin_put(alloc, sides, daemon, path, *asked, *now, *request, file)
        }
        DaemonCall::CopyStored {
            request,
            group,
            now,
        } => {
            let open = request_at(daemon, *request);
            Ok(copy_stored(looked.history, daemon, *group, *now, open))
        }
        DaemonCall::EndPut { request, now } => {
            let open = request_at(daemon, *request);
            end_put(alloc, sides, daemon, *request, *now, open)
        }
        _ => unreachable!(),
    }
}

// A call of a recall.
fn recall_verdict(alloc: Global, looked: &Looked, call: &DaemonCall) -> Result<Verdict, NoMemory>
    requires { part_of call.now ≡ Recalls }
    ensures { IfOk result (λ v. v ≡ verdict_on (daemon_plan looked.now.daemon.now call.now) (daemon_needs looked.now.sides.now (option_copied looked.now.worker) looked.now.history.now looked.now.daemon.now call.now)) }
{
    let daemon = looked.daemon;
    match call {
        DaemonCall::BeginRecall { path, request } => {
            begin_recall(alloc, daemon, *request, file_at(daemon, path))
        }
        DaemonCall::EndRecall {
            request,
            bytes,
            now,
        } => {
            let open = request_at(daemon, *request);
            end_recall(alloc, looked.worker, daemon, *request, bytes, *now, open)
        }
        DaemonCall::DropRecall { request } => {
            let open = request_at(daemon, *request);
            Ok(drop_recall(looked.worker, *request, open, daemon))
        }
        _ => unreachable!(),
    }
}

// A call that changes a file, or releases its bytes.
fn change_verdict(alloc: Global, looked: &Looked, call: &DaemonCall) -> Result<Verdict, NoMemory>
    requires { part_of call.now ≡ Changes }
    ensures { IfOk result (λ v. v ≡ verdict_on (daemon_plan looked.now.daemon.now call.now) (daemon_needs looked.now.sides.now (option_copied looked.now.worker) looked.now.history.now looked.now.daemon.now call.now)) }
{
    let daemon = looked.daemon;
    match call {
        DaemonCall::Write { path, bytes, now } => {
            write(alloc, daemon, path, bytes, *now, file_at(daemon, path))
        }
        DaemonCall::Patch {
            path,
            offset,
            bytes,
            now,
        } => {
            let file = file_at(daemon, path);
            patch(alloc, daemon, path, *offset, bytes, *now, file)
        }
        DaemonCall::Remove { path, now } => {
            remove(alloc, daemon, path, *now, file_at(daemon, path))
        }
        DaemonCall::Release { path, now } => {
            release(alloc, daemon, path, *now, file_at(daemon, path))
        }
        _ => unreachable!(),
    }
}

// A call on dumps.
fn dump_verdict(alloc: Global, looked: &Looked, call: &DaemonCall) -> Result<Verdict, NoMemory>
    requires { part_of call.now ≡ Dumps }
    ensures { IfOk result (λ v. v ≡ verdict_on (daemon_plan looked.now.daemon.now call.now) (daemon_needs looked.now.sides.now (option_copied looked.now.worker) looked.now.history.now looked.now.daemon.now call.now)) }
{
    let daemon = looked.daemon;
    match call {
        DaemonCall::MakeDump { name, now } => make_dump(alloc, daemon, name, *now),
        DaemonCall::Undump { name, now } => undump(alloc, daemon, name, *now),
        DaemonCall::Restore {
            name,
            path,
            target,
            now,
        } => {
            let dump = daemon.tables.dumps.get(name.bytes());
            restore(alloc, daemon, name, path, target, *now, dump)
        }
        DaemonCall::SetAge { age, now } => Ok(set_age(daemon, *age, *now)),
        _ => unreachable!(),
    }
}

// A call of a hard delete.
fn delete_verdict(alloc: Global, looked: &Looked, call: &DaemonCall) -> Result<Verdict, NoMemory>
    requires { part_of call.now ≡ Deletes }
    ensures { IfOk result (λ v. v ≡ verdict_on (daemon_plan looked.now.daemon.now call.now) (daemon_needs looked.now.sides.now (option_copied looked.now.worker) looked.now.history.now looked.now.daemon.now call.now)) }
{
    let daemon = looked.daemon;
    match call {
        DaemonCall::HardDelete { now } => hard_delete(alloc, daemon, *now),
        DaemonCall::NextDropping { after } => next_dropping(alloc, daemon, *after),
        DaemonCall::Dropped { bfid, now } => {
            let entry = daemon.tables.entries.get(bfid.0);
            Ok(dropped(looked.history, daemon, *bfid, *now, entry))
        }
        _ => unreachable!(),
    }
}

// The open request of the number.
fn request_at(daemon: &Daemon, number: u64) -> Option<OpenRequest>
    ensures { result ≡ finmap.get daemon.now.requests number }
{
    daemon.requests.get(u128::from(number)).copied()
}

fn attributes(alloc: Global, daemon: &Daemon, path: &Path) -> Result<Verdict, NoMemory>
    ensures { IfOk result (λ v. v ≡ verdict_on (attributes_plan daemon.now path.now (file_at_of daemon.now path.now)) no_needs) }
{
    attributes_of(alloc, daemon, path, file_at(daemon, path))
}

// What a user is told of this file, if it is there.
fn attributes_of(
    alloc: Global,
    daemon: &Daemon,
    path: &Path,
    file: Option<(u64, &Inode)>,
) -> Result<Verdict, NoMemory>
    ensures { IfOk result (λ v. v ≡ verdict_on (attributes_plan daemon.now path.now (option_map (λ f. numbered f.0 f.1.now) file.entry)) no_needs) }
{
    let Some((number, inode)) = file else {
        return Ok(legal(refused_plan(DaemonError::NoFile)));
    };
    let row = row_of(&daemon.requests, path.copied(alloc)?, number, inode);
    Ok(legal(daemon_healing_plan(Answer::File { row })))
}

fn list(alloc: Global, daemon: &Daemon) -> Result<Verdict, VerdictError>
    ensures verdict { IfOk result (λ v. v ≡ verdict_on (daemon_healing_plan_of (answer.Files (all_rows_of daemon.now))) no_needs) }
    ensures range { IsErrOf result VerdictError.OutOfRange → IsDaemonInRange daemon.now → ⊥ }
{
    match all_rows(alloc, daemon) {
        Ok(rows) => Ok(legal(daemon_healing_plan(Answer::Files { rows }))),
        Err(error) => Err(error),
    }
}
