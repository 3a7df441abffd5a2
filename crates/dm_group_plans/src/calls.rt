//! All calls of a group.

ghost use Rattle.std.specs.Prelude.{◌≡◌, IfOk, IsErrOf};
ghost use Rattle.std.specs.FinMap as map;
ghost use Rattle.std.specs.Option.{option_copied};
ghost use Rattle.dm_group_plans.specs.Parts.{part_of};
ghost use Rattle.dm_group_plans.specs.Parts.Part.{Copies, Merges, Mounts, Volumes};
ghost use Rattle.dm_group_usage.specs.Range.{IsGroupInRange, IsSideInRange};
ghost use Rattle.dm_model.specs.GroupCalls.{group_needs, group_plan, no_group as no_group_plan};
ghost use Rattle.dm_model.specs.Plan.{no_needs};
ghost use Rattle.dm_model.specs.Step.{side_needs, side_plan};
ghost use Rattle.dm_verdicts.specs.Verdict.{verdict_on};

use crate::copies::{abort, commit, delete, reserve};
use crate::merges::{MoveTokens, merge_list, merge_next};
use crate::mounts::{mount_chunk, mount_new, mount_piece, unmount};
use crate::moves::{drop_move, move_done};
use crate::new_volumes::{add_volume, missing};
use crate::prepared::group_quiet_plan;
use crate::reuses::{free, reuse, reuse_next};
use crate::rows::{all_rows, volumes};
use dm_base::{GroupId, NoMemory};
use dm_model::{
    Answer, Group, GroupCall, Guard, History, Mounted, Moving, Reserved, Reusing, Side, Worker,
};
use dm_verdicts::{Verdict, VerdictError, judge};
use std::alloc::Global;

/// The verdict on a call of the group: the lowest guard of it that is false, and what it comes to. The worker is the one that
/// calls, if anything is known of it; the side is the group's, if it is configured (docs/DEFINITIONS.md, "The machine, whole").
/// `OutOfRange` comes only where the group isn't in range, which no state of a run is; then no `Verdict` could say what the definition
/// does. `NoMemory` only where memory is refused.
pub fn group_verdict(
    alloc: Global,
    worker: Option<&Worker>,
    history: &History,
    id: GroupId,
    side: Option<&Side>,
    call: &GroupCall,
) -> Result<Verdict, VerdictError>
    ensures verdict { IfOk result (λ v. v ≡ verdict_on (side_plan id call.now (option_copied side.entry)) (side_needs (option_copied worker.entry) history.now id call.now (option_copied side.entry))) }
    ensures range { IsErrOf result VerdictError.OutOfRange → IsSideInRange (option_copied side.entry) → ⊥ }
{
    match side {
        None => Ok(no_group(id)),
        Some(side) => side_verdict(alloc, worker, history, id, side, call),
    }
}

fn no_group(id: GroupId) -> Verdict
    ensures { result ≡ verdict_on (no_group_plan id) no_needs }
{
    let configured = (false, Guard::Configured);
    let device = (false, Guard::DeviceUsed);
    judge(
        &[configured],
        &[configured, device],
        group_quiet_plan(id, Answer::Failed),
    )
}

// The call of a group that is configured.
fn side_verdict(
    alloc: Global,
    worker: Option<&Worker>,
    history: &History,
    id: GroupId,
    side: &Side,
    call: &GroupCall,
) -> Result<Verdict, VerdictError>
    ensures verdict { IfOk result (λ v. v ≡ verdict_on (group_plan id side.now.group call.now) (group_needs (option_copied worker.entry) history.now id side.now call.now)) }
    ensures range { IsErrOf result VerdictError.OutOfRange → IsGroupInRange side.now.group → ⊥ }
{
    let looked = Looked {
        worker,
        history,
        id,
        side,
    };
    match call {
        GroupCall::Missing
        | GroupCall::AddVolume { .. }
        | GroupCall::Free { .. }
        | GroupCall::ReuseNext { .. }
        | GroupCall::Reuse { .. } => Ok(volume_verdict(alloc, &looked, call)?),
        GroupCall::MountNew { .. }
        | GroupCall::MountPiece { .. }
        | GroupCall::MountChunk { .. }
        | GroupCall::Unmount { .. } => Ok(mount_verdict(&looked, call)),
        GroupCall::Reserve { .. }
        | GroupCall::Commit { .. }
        | GroupCall::Abort { .. }
        | GroupCall::Delete { .. } => copy_verdict(alloc, &looked, call),
        GroupCall::MergeList
        | GroupCall::MergeNext { .. }
        | GroupCall::MoveDone { .. }
        | GroupCall::DropMove { .. } => merge_verdict(alloc, &looked, call),
        GroupCall::Rows => all_rows(alloc, &side.group, id),
        GroupCall::Volumes => Ok(volumes(alloc, &side.group, id)?),
    }
}

// What a call is looked at with.
#[derive(Drop)]
struct Looked<'a> {
    worker: Option<&'a Worker>,
    history: &'a History,
    id: GroupId,
    side: &'a Side,
}

// A call that adds, frees or uses again a volume.
fn volume_verdict(alloc: Global, looked: &Looked, call: &GroupCall) -> Result<Verdict, NoMemory>
    requires { part_of call.now ≡ Volumes }
    ensures { IfOk result (λ v. v ≡ verdict_on (group_plan looked.now.id looked.now.side.now.group call.now) (group_needs (option_copied looked.now.worker) looked.now.history.now looked.now.id looked.now.side.now call.now)) }
{
    let id = looked.id;
    let side = looked.side;
    let library = &side.group;
    match call {
        GroupCall::Missing => Ok(missing(library, id)),
        GroupCall::AddVolume { mount, now } => {
            let mounted = mounted_at(library, *mount);
            let state = side.mounts.get(u128::from(*mount));
            Ok(add_volume(library, id, *mount, *now, mounted, state))
        }
        GroupCall::Free { vsn, now } => {
            let row = library.tables.volumes.get(&vsn.0).copied();
            Ok(free(library, id, *vsn, *now, row))
        }
        GroupCall::ReuseNext { mount, now } => reuse_next(alloc, library, id, *mount, *now),
        GroupCall::Reuse { mount, now } => {
            let reusing = reusing_at(library, *mount);
            let state = side.mounts.get(u128::from(*mount));
            Ok(reuse(library, id, *mount, *now, reusing, state))
        }
        _ => unreachable!(),
    }
}

// A call that mounts or unmounts a volume.
fn mount_verdict(looked: &Looked, call: &GroupCall) -> Verdict
    requires { part_of call.now ≡ Mounts }
    ensures { result ≡ verdict_on (group_plan looked.now.id looked.now.side.now.group call.now) (group_needs (option_copied looked.now.worker) looked.now.history.now looked.now.id looked.now.side.now call.now) }
{
    let id = looked.id;
    let side = looked.side;
    let library = &side.group;
    match call {
        GroupCall::MountNew { vsn, mount } => mount_new(library, id, *vsn, *mount),
        GroupCall::MountPiece {
            reservation,
            piece,
            mount,
        } => {
            let reserved = reserved_at(library, *reservation);
            mount_piece(library, id, *piece, *mount, reserved)
        }
        GroupCall::MountChunk {
            bfid,
            offset,
            mount,
        } => {
            let row = library.tables.bitfiles.get(bfid.0);
            mount_chunk(looked.worker, library, id, *bfid, *offset, *mount, row)
        }
        GroupCall::Unmount { mount } => {
            let mounted = mounted_at(library, *mount);
            let state = side.mounts.get(u128::from(*mount));
            unmount(id, *mount, mounted, state)
        }
        _ => unreachable!(),
    }
}

// A call on the copy of a bitfile.
fn copy_verdict(alloc: Global, looked: &Looked, call: &GroupCall) -> Result<Verdict, VerdictError>
    requires { part_of call.now ≡ Copies }
    ensures verdict { IfOk result (λ v. v ≡ verdict_on (group_plan looked.now.id looked.now.side.now.group call.now) (group_needs (option_copied looked.now.worker) looked.now.history.now looked.now.id looked.now.side.now call.now)) }
    ensures range { IsErrOf result VerdictError.OutOfRange → IsGroupInRange looked.now.side.now.group → ⊥ }
{
    let history = looked.history;
    let id = looked.id;
    let side = looked.side;
    let library = &side.group;
    match call {
        GroupCall::Reserve {
            bfid,
            len,
            reservation,
        } => {
            let copy = side.copies.get(bfid.0);
            Ok(reserve(alloc, library, id, *bfid, *len, *reservation, copy)?)
        }
        GroupCall::Commit {
            reservation,
            sums,
            now,
        } => {
            let reserved = reserved_at(library, *reservation);
            commit(alloc, history, side, id, *reservation, sums, *now, reserved)
        }
        GroupCall::Abort { reservation } => {
            let reserved = reserved_at(library, *reservation);
            Ok(abort(side, id, *reservation, reserved))
        }
        GroupCall::Delete { bfid, now } => Ok(delete(history, library, id, *bfid, *now)),
        _ => unreachable!(),
    }
}

// A call of a merge.
fn merge_verdict(alloc: Global, looked: &Looked, call: &GroupCall) -> Result<Verdict, VerdictError>
    requires { part_of call.now ≡ Merges }
    ensures verdict { IfOk result (λ v. v ≡ verdict_on (group_plan looked.now.id looked.now.side.now.group call.now) (group_needs (option_copied looked.now.worker) looked.now.history.now looked.now.id looked.now.side.now call.now)) }
    ensures range { IsErrOf result VerdictError.OutOfRange → IsGroupInRange looked.now.side.now.group → ⊥ }
{
    let id = looked.id;
    let side = looked.side;
    let library = &side.group;
    match call {
        GroupCall::MergeList => Ok(merge_list(alloc, library, id)?),
        GroupCall::MergeNext {
            list,
            source,
            job,
            from,
            to,
        } => {
            let tokens = MoveTokens {
                job: *job,
                from: *from,
                to: *to,
            };
            merge_next(alloc, library, id, list, *source, tokens)
        }
        GroupCall::MoveDone { job, sum, now } => {
            let moving = moving_at(library, *job);
            Ok(move_done(alloc, side, id, *job, *sum, *now, moving)?)
        }
        GroupCall::DropMove { job } => Ok(drop_move(id, *job, moving_at(library, *job))),
        _ => unreachable!(),
    }
}

// The open reservation of the number.
fn reserved_at(library: &Group, number: u64) -> Option<&Reserved>
    ensures { option_copied result ≡ map.get library.now.reservations number }
{
    library.reservations.get(u128::from(number))
}

// The open mount of the number.
fn mounted_at(library: &Group, number: u64) -> Option<Mounted>
    ensures { result ≡ map.get library.now.mounts number }
{
    library.mounts.get(u128::from(number)).copied()
}

// The open move of the number.
fn moving_at(library: &Group, number: u64) -> Option<Moving>
    ensures { result ≡ map.get library.now.moves number }
{
    library.moves.get(u128::from(number)).copied()
}

// The open reuse under the mount of the number.
fn reusing_at(library: &Group, number: u64) -> Option<Reusing>
    ensures { result ≡ map.get library.now.reuses number }
{
    library.reuses.get(u128::from(number)).copied()
}
