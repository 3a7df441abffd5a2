//! What an accepted call makes.

ghost use Rattle.std.specs.Prelude.{◌≡◌, IfOk, OnOk};
ghost use Rattle.std.specs.FinMap as map;
ghost use Rattle.dm_model.specs.Effects.{after_opening, at_each, with_recall, worker_or as worker_or_of};
ghost use Rattle.dm_model.specs.DaemonShare.{with_request};
ghost use Rattle.dm_joint_effects.specs.Sides.{IsJob, IsOfGroup, side_with_copy, side_with_reserved, sides_opened};
ghost use Rattle.dm_model.specs.GroupShare.{with_mounted as with_mounted_of, with_reserved};
ghost use Rattle.dm_tables.specs.Rows.{adjust};

use crate::copies::{GetsReservation, mount_copy};
use crate::mounts::{new_mount, source_of, target_of};
use crate::sides::edit_each;
use crate::tips::{move_tip_behind, move_tips_behind};
use dm_base::{Bfid, GroupId, NoMemory, Secs, Vsn};
use dm_model::{
    CopyState, Daemon, Group, Joint, Mounted, Moving, OpenRequest, Opening, Origin, Recall,
    Reserved, Reusing, Side, Worker,
};
use dm_tables::{Numbers, TryEdit};
use std::alloc::Global;

// What the opening makes is there.
pub(crate) fn open(
    alloc: Global,
    worker: u32,
    opens: Opening,
    joint: &mut Joint,
) -> Result<(), NoMemory>
    ensures { OnOk result (joint.new ≡ after_opening worker opens joint.old) }
{
    match opens {
        Opening::Nothing => Ok(()),
        Opening::Put {
            number,
            request,
            len,
            groups,
        } => open_put(number, request, len, groups.as_slice(), joint),
        Opening::Recall {
            number,
            request,
            recall,
        } => {
            open_request(number, request, &mut joint.daemon)?;
            open_recall(alloc, worker, number, recall, &mut joint.workers)
        }
        rest @ (Opening::Reservation { .. }
        | Opening::Mount { .. }
        | Opening::Move { .. }
        | Opening::Reuse { .. }) => open_in_group(alloc, rest, &mut joint.sides),
    }
}

// The same of what a call of a group makes.
fn open_in_group(alloc: Global, opens: Opening, sides: &mut Numbers<Side>) -> Result<(), NoMemory>
    requires { IsOfGroup opens }
    ensures { OnOk result (sides.new ≡ sides_opened opens sides.old) }
{
    match opens {
        Opening::Nothing | Opening::Put { .. } | Opening::Recall { .. } => unreachable!(),
        Opening::Reservation {
            group,
            number,
            reserved,
        } => reserve(alloc, u128::from(group.0), number, reserved, sides),
        Opening::Mount {
            group,
            number,
            vsn,
            epoch,
            origin,
        } => {
            let mounts = Mounts {
                number,
                vsn,
                epoch,
                origin,
            };
            sides.edit(u128::from(group.0), &mounts)
        }
        rest @ (Opening::Move { .. } | Opening::Reuse { .. }) => open_job(alloc, rest, sides),
    }
}

// The same of a move and of a reuse.
fn open_job(alloc: Global, opens: Opening, sides: &mut Numbers<Side>) -> Result<(), NoMemory>
    requires { IsJob opens }
    ensures { OnOk result (sides.new ≡ sides_opened opens sides.old) }
{
    match opens {
        Opening::Nothing
        | Opening::Put { .. }
        | Opening::Recall { .. }
        | Opening::Reservation { .. }
        | Opening::Mount { .. } => unreachable!(),
        Opening::Move {
            group,
            number,
            moving,
            source_epoch,
            target_epoch,
        } => {
            let moves = Moves {
                alloc,
                number,
                moving,
                source_epoch,
                target_epoch,
            };
            sides.edit(u128::from(group.0), &moves)
        }
        Opening::Reuse {
            group,
            number,
            epoch,
            reusing,
            reading,
        } => {
            let reuses = Reuses {
                number,
                epoch,
                reusing,
                reading,
            };
            sides.edit(u128::from(group.0), &reuses)
        }
    }
}

// ---- requests

// The put request is open, and in each of the groups a copy begins.
fn open_put(
    number: u64,
    request: OpenRequest,
    len: u64,
    groups: &[GroupId],
    joint: &mut Joint,
) -> Result<(), NoMemory>
    ensures { OnOk result (joint.new ≡ record joint.old { daemon = with_request number request joint.old.daemon; sides = at_each (side_with_copy number request.bfid.0 len) groups.now joint.old.sides }) }
{
    let begins = BeginsCopy {
        request: number,
        bfid: request.bfid,
        len,
    };
    open_request(number, request, &mut joint.daemon)?;
    edit_each(&mut joint.sides, groups, &begins)
}

// The daemon has the open request.
fn open_request(number: u64, request: OpenRequest, daemon: &mut Daemon) -> Result<(), NoMemory>
    ensures { OnOk result (daemon.new ≡ with_request number request daemon.old) }
{
    let key = u128::from(number);
    daemon.requests.insert(key, request)?;
    daemon.next_request = key + 1;
    Ok(())
}

// The worker has the open recall.
fn open_recall(
    alloc: Global,
    worker: u32,
    number: u64,
    recall: Recall,
    workers: &mut Numbers<Worker>,
) -> Result<(), NoMemory>
    ensures { OnOk result (workers.new ≡ map.insert workers.old worker (with_recall number recall (worker_or_of (map.get workers.old worker)))) }
{
    let key = u128::from(worker);
    let state = worker_or(alloc, workers.remove(key));
    workers.insert(key, worker_with_recall(number, recall, state)?)?;
    Ok(())
}

fn worker_with_recall(number: u64, recall: Recall, mut worker: Worker) -> Result<Worker, NoMemory>
    ensures { IfOk result (λ w. w ≡ with_recall number recall worker) }
{
    worker.recalls.insert(u128::from(number), recall)?;
    Ok(worker)
}

// The worker's state; one of which nothing is known has no open recall.
fn worker_or(alloc: Global, found: Option<Worker>) -> Worker
    ensures { result ≡ worker_or_of found }
{
    match found {
        Some(worker) => worker,
        None => Worker {
            recalls: Numbers::empty(alloc),
        },
    }
}

// A copy of the bitfile begins, for the put of this number.
#[derive(Drop)]
struct BeginsCopy {
    request: u64,
    bfid: Bfid,
    len: u64,
}

impl TryEdit<Side> for BeginsCopy {
    ghost use Rattle.dm_joint_effects.specs.Sides.{side_with_copy};

    ghost edited = { λ it. side_with_copy it.request it.bfid.0 it.len };

    fn try_edit(&self, row: &mut Side) -> Result<(), NoMemory> {
        let copy = CopyState {
            request: self.request,
            len: self.len,
            reservation: None,
        };
        row.copies.insert(self.bfid.0, copy)?;
        Ok(())
    }
}

// ---- a group's tokens

// The group keeps room for a bitfile.
fn reserve(
    alloc: Global,
    group: u128,
    number: u64,
    reserved: Reserved,
    sides: &mut Numbers<Side>,
) -> Result<(), NoMemory>
    ensures { OnOk result (sides.new ≡ adjust sides.old group (side_with_reserved number reserved)) }
{
    let Some(mut side) = sides.remove(group) else {
        return Ok(());
    };
    reserve_in(alloc, number, reserved, &mut side)?;
    sides.insert(group, side)?;
    Ok(())
}

fn reserve_in(
    alloc: Global,
    number: u64,
    reserved: Reserved,
    side: &mut Side,
) -> Result<(), NoMemory>
    ensures { OnOk result (side.new ≡ side_with_reserved number reserved side.old) }
{
    let room = GetsReservation { alloc, number };
    side.copies.edit(reserved.bfid.0, &room)?;
    keep_room(alloc, number, reserved, &mut side.group)
}

fn keep_room(
    alloc: Global,
    number: u64,
    reserved: Reserved,
    group: &mut Group,
) -> Result<(), NoMemory>
    ensures { OnOk result (group.new ≡ with_reserved number reserved group.old) }
{
    let pieces = reserved.pieces.as_slice();
    move_tips_behind(alloc, &mut group.tips, reserved.chunk, pieces)?;
    let key = u128::from(number);
    group.reservations.insert(key, reserved)?;
    group.next_reservation = key + 1;
    Ok(())
}

// The group has the volume in a drive.
fn mount_volume(group: &mut Group, number: u64, vsn: Vsn, epoch: u64) -> Result<(), NoMemory>
    ensures { OnOk result (group.new ≡ with_mounted_of number vsn epoch group.old) }
{
    let key = u128::from(number);
    group.mounts.insert(key, Mounted { vsn, epoch })?;
    group.next_mount = key + 1;
    Ok(())
}

// A mount is made.
#[derive(Drop)]
struct Mounts {
    number: u64,
    vsn: Vsn,
    epoch: u64,
    origin: Origin,
}

impl TryEdit<Side> for Mounts {
    ghost use Rattle.std.specs.FinMap as map;
    ghost use Rattle.dm_model.specs.GroupShare.{with_mounted};
    ghost use Rattle.dm_model.specs.SideShare.{copies_mounted, new_mount};

    ghost edited = { λ it s. record s { group = with_mounted it.number it.vsn it.epoch s.group; copies = copies_mounted it.number it.origin s.copies; mounts = map.insert s.mounts it.number (new_mount s it.vsn it.epoch it.origin) } };

    fn try_edit(&self, row: &mut Side) -> Result<(), NoMemory> {
        let mount = new_mount(row, self.vsn, self.epoch, self.origin);
        row.mounts.insert(u128::from(self.number), mount)?;
        mount_volume(&mut row.group, self.number, self.vsn, self.epoch)?;
        mount_copy(&mut row.copies, self.number, self.origin)
    }
}

// A chunk is to be moved: the mounts of both volumes are made.
#[derive(Drop)]
struct Moves {
    alloc: Global,
    number: u64,
    moving: Moving,
    source_epoch: u64,
    target_epoch: u64,
}

impl TryEdit<Side> for Moves {
    ghost use Rattle.std.specs.FinMap as map;
    ghost use Rattle.dm_model.specs.GroupShare.{with_mounted, with_moving};
    ghost use Rattle.dm_model.specs.SideShare.{new_mount, source_of, target_of};

    ghost edited = { λ it s. record s { group = with_moving it.number it.moving (with_mounted it.moving.target it.moving.to.vsn it.target_epoch (with_mounted it.moving.source it.moving.from.vsn it.source_epoch s.group)); mounts = map.insert (map.insert s.mounts it.moving.source (new_mount s it.moving.from.vsn it.source_epoch (source_of it.number it.moving))) it.moving.target (new_mount s it.moving.to.vsn it.target_epoch (target_of it.number it.moving)) } };

    fn try_edit(&self, row: &mut Side) -> Result<(), NoMemory> {
        let moving = self.moving;
        let from = moving.from.vsn;
        let to = moving.to.vsn;
        let source = new_mount(
            row,
            from,
            self.source_epoch,
            source_of(self.number, &moving),
        );
        let target = new_mount(row, to, self.target_epoch, target_of(self.number, &moving));
        row.mounts.insert(u128::from(moving.source), source)?;
        row.mounts.insert(u128::from(moving.target), target)?;
        let group = &mut row.group;
        mount_volume(group, moving.source, from, self.source_epoch)?;
        mount_volume(group, moving.target, to, self.target_epoch)?;
        let key = u128::from(self.number);
        group.moves.insert(key, moving)?;
        group.next_move = key + 1;
        move_tip_behind(self.alloc, &mut group.tips, &moving)
    }
}

// A volume is to be used anew: its mount is made, at this clock reading.
#[derive(Drop)]
struct Reuses {
    number: u64,
    epoch: u64,
    reusing: Reusing,
    reading: u64,
}

impl TryEdit<Side> for Reuses {
    ghost use Rattle.std.specs.FinMap as map;
    ghost use Rattle.dm_model.specs.GroupShare.{with_mounted, with_reusing};
    ghost use Rattle.dm_model.specs.SideShare.{new_mount};
    ghost use Rattle.dm_model.specs.declared.state.Origin.TheVariants as origin;

    ghost edited = { λ it s. record s { group = with_reusing it.number it.reusing (with_mounted it.number it.reusing.vsn it.epoch s.group); mounts = map.insert s.mounts it.number (new_mount s it.reusing.vsn it.epoch (origin.Reuse it.reusing.next_epoch it.reusing.version (record { 0 = it.reading }))) } };

    fn try_edit(&self, row: &mut Side) -> Result<(), NoMemory> {
        let reusing = self.reusing;
        let origin = Origin::Reuse {
            next_epoch: reusing.next_epoch,
            version: reusing.version,
            reading: Secs(self.reading),
        };
        let key = u128::from(self.number);
        let mount = new_mount(row, reusing.vsn, self.epoch, origin);
        row.mounts.insert(key, mount)?;
        mount_volume(&mut row.group, self.number, reusing.vsn, self.epoch)?;
        row.group.reuses.insert(key, reusing)?;
        Ok(())
    }
}
