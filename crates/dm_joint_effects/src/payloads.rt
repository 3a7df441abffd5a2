//! What a call journals, and a step that was found to have landed.

ghost use Rattle.std.specs.Prelude.{◌≡◌, IfOk, OnOk};
ghost use Rattle.std.specs.FinMap as map;
ghost use Rattle.dm_joint_effects.specs.Sides.{side_after_record};
ghost use Rattle.dm_tables.specs.Rows.{adjust};
ghost use Rattle.dm_model.specs.DaemonShare.{daemon_after_record as daemon_after_record_of, requests_after_step, with_change_on as with_change_on_of};
ghost use Rattle.dm_model.specs.Effects.{after_payload};
ghost use Rattle.dm_model.specs.GroupShare.{library_after_record, tips_after_step};
ghost use Rattle.dm_model.specs.SideShare.{images_after_step as images_after_step_of, images_labelled as images_labelled_of};

use crate::images::label_image;
use crate::past::{note_group_step, note_step};
use crate::tips::move_tip;
use dm_base::{GroupId, Ino, NoMemory, Path, Vsn};
use dm_durable::{DaemonRecord, DaemonStep, GroupRecord, GroupStep};
use dm_durable_steps::{daemon_after_record, empty_daemon, empty_group, group_after_record};
use dm_model::{Daemon, Group, Joint, OpenRequest, Payload, Side};
use dm_rules::FIRST_ZONE;
use dm_tables::{Change, Numbers, Texts};
use std::alloc::Global;
use std::mem;

// The payload was journalled, if there is one. The history looks at the daemon's files before the step.
pub(crate) fn journal(
    alloc: Global,
    payload: Option<Payload>,
    joint: &mut Joint,
) -> Result<(), NoMemory>
    ensures { OnOk result (joint.new ≡ after_payload payload joint.old) }
{
    match payload {
        None => Ok(()),
        Some(Payload::Daemon { record }) => {
            note_step(alloc, &joint.daemon, &record.step, &mut joint.history)?;
            journal_daemon(alloc, record, &mut joint.daemon)
        }
        Some(Payload::Group { group, record }) => {
            note_group_step(alloc, group, &record.step, &mut joint.history)?;
            journal_group(alloc, u128::from(group.0), record, &mut joint.sides)
        }
    }
}

// ---- the daemon

// The daemon after the record: its tables, and the requests that find a change.
fn journal_daemon(
    alloc: Global,
    journalled: DaemonRecord,
    daemon: &mut Daemon,
) -> Result<(), NoMemory>
    ensures { OnOk result (daemon.new ≡ daemon_after_record_of journalled daemon.old) }
{
    find_step(alloc, &journalled.step, daemon)?;
    let tables = mem::replace(&mut daemon.tables, empty_daemon(alloc, 0, 0, 0));
    daemon.tables = daemon_after_record(alloc, tables, journalled)?;
    Ok(())
}

// The requests are those after the step.
fn find_step(alloc: Global, step: &DaemonStep, daemon: &mut Daemon) -> Result<(), NoMemory>
    ensures { OnOk result (daemon.new ≡ record daemon.old { requests = requests_after_step daemon.old step.now }) }
{
    match step {
        DaemonStep::Write {
            path,
            change,
            bytes: _,
        } => find_change(alloc, path, *change, daemon),
        DaemonStep::Remove { path, change } => find_change(alloc, path, *change, daemon),
        DaemonStep::BeginPut { .. } => Ok(()),
        DaemonStep::Stored { .. } => Ok(()),
        DaemonStep::EndPut { .. } => Ok(()),
        DaemonStep::Release { .. } => Ok(()),
        DaemonStep::Taken { .. } => Ok(()),
        DaemonStep::Dump { .. } => Ok(()),
        DaemonStep::Undump { .. } => Ok(()),
        DaemonStep::Restore { .. } => Ok(()),
        DaemonStep::HardDelete { .. } => Ok(()),
        DaemonStep::Dropped { .. } => Ok(()),
        DaemonStep::Restart => Ok(()),
        DaemonStep::Age { .. } => Ok(()),
    }
}

// The requests on the path's inode have found the change.
fn find_change(alloc: Global, path: &Path, change: u64, daemon: &mut Daemon) -> Result<(), NoMemory>
    ensures { OnOk result (daemon.new ≡ record daemon.old { requests = with_change_on_of daemon.old.requests change (map.get daemon.old.tables.names path.now) }) }
{
    let ino = daemon.tables.names.get(path.bytes()).copied();
    let requests = mem::replace(&mut daemon.requests, Numbers::empty(alloc));
    daemon.requests = with_change_on(alloc, requests, change, ino)?;
    Ok(())
}

fn with_change_on(
    alloc: Global,
    requests: Numbers<OpenRequest>,
    change: u64,
    ino: Option<Ino>,
) -> Result<Numbers<OpenRequest>, NoMemory>
    ensures { IfOk result (λ t. t ≡ with_change_on_of requests change ino) }
{
    match ino {
        Some(ino) => requests.mapped(alloc, &FindsChange { ino, change }),
        None => Ok(requests),
    }
}

// A request on this inode keeps the number of the change.
#[derive(Drop)]
struct FindsChange {
    ino: Ino,
    change: u64,
}

impl Change<OpenRequest> for FindsChange {
    ghost use Rattle.dm_model.specs.DaemonShare.{with_change};

    ghost changed = { λ it. with_change it.ino.0 it.change };

    fn change(&self, row: OpenRequest) -> OpenRequest {
        if row.ino.0 == self.ino.0 {
            OpenRequest {
                found: Some(self.change),
                ..row
            }
        } else {
            row
        }
    }
}

// ---- groups

// The group's side is the one after the record.
fn journal_group(
    alloc: Global,
    group: u128,
    journalled: GroupRecord,
    sides: &mut Numbers<Side>,
) -> Result<(), NoMemory>
    ensures { OnOk result (sides.new ≡ adjust sides.old group (side_after_record journalled)) }
{
    let Some(mut side) = sides.remove(group) else {
        return Ok(());
    };
    journal_side(alloc, journalled, &mut side)?;
    sides.insert(group, side)?;
    Ok(())
}

fn journal_side(alloc: Global, journalled: GroupRecord, side: &mut Side) -> Result<(), NoMemory>
    ensures { OnOk result (side.new ≡ side_after_record journalled side.old) }
{
    edit_images(alloc, &journalled.step, side)?;
    journal_library(alloc, journalled, &mut side.group)
}

// The images after the step, which looks at the group's tables before it.
fn edit_images(alloc: Global, step: &GroupStep, side: &mut Side) -> Result<(), NoMemory>
    ensures { OnOk result (side.new ≡ record side.old { images = images_after_step_of side.old step.now }) }
{
    match step {
        GroupStep::Volume {
            vsn,
            slot,
            version,
            size: _,
        } => edit_labelled(alloc, *version, *slot, *vsn, side),
        GroupStep::Commit { .. } => Ok(()),
        GroupStep::Delete { .. } => Ok(()),
        GroupStep::Move { .. } => Ok(()),
        GroupStep::Free { .. } => Ok(()),
        GroupStep::Reuse {
            vsn,
            epoch: _,
            version,
        } => match side.group.tables.volumes.get(&vsn.0).copied() {
            Some(row) => edit_labelled(alloc, *version, row.slot, *vsn, side),
            None => Ok(()),
        },
    }
}

fn edit_labelled(
    alloc: Global,
    version: u8,
    slot: u8,
    vsn: Vsn,
    side: &mut Side,
) -> Result<(), NoMemory>
    ensures { OnOk result (side.new ≡ record side.old { images = images_labelled_of side.old.faithful version slot vsn.0 side.old.images }) }
{
    label_image(
        alloc,
        &mut side.images,
        side.faithful.as_slice(),
        version,
        slot,
        vsn,
    )
}

// The library server after the record.
fn journal_library(
    alloc: Global,
    journalled: GroupRecord,
    group: &mut Group,
) -> Result<(), NoMemory>
    ensures { OnOk result (group.new ≡ library_after_record journalled group.old) }
{
    edit_tips(alloc, &journalled.step, &mut group.tips)?;
    let tables = mem::replace(&mut group.tables, empty_group(alloc, GroupId(0)));
    group.tables = group_after_record(alloc, tables, journalled)?;
    Ok(())
}

// A volume that was labelled is empty.
fn edit_tips(alloc: Global, step: &GroupStep, tips: &mut Texts<u64>) -> Result<(), NoMemory>
    ensures { OnOk result (tips.new ≡ tips_after_step tips.old step.now) }
{
    match step {
        GroupStep::Volume { vsn, .. } => move_tip(alloc, tips, *vsn, FIRST_ZONE),
        GroupStep::Commit { .. } => Ok(()),
        GroupStep::Delete { .. } => Ok(()),
        GroupStep::Move { .. } => Ok(()),
        GroupStep::Free { .. } => Ok(()),
        GroupStep::Reuse { vsn, .. } => move_tip(alloc, tips, *vsn, FIRST_ZONE),
    }
}
