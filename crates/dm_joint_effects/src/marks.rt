//! What a call leaves of a volume, of the work on it, and of the past.

ghost use Rattle.std.specs.Prelude.{◌≡◌, IfOk, OnOk, length};
ghost use Rattle.std.specs.FinMap as map;
ghost use Rattle.dm_joint_effects.specs.Sides.{IsNoZone};
ghost use Rattle.dm_model.specs.DaemonCalls.{reads_or as reads_or_of};
ghost use Rattle.dm_model.specs.Effects.{after_failed_mark, after_mark, with_read as with_read_of_recall};
ghost use Rattle.dm_model.specs.SideShare.{known_by, side_after_mark as side_after_mark_of};
ghost use Rattle.dm_rules.specs.Known.{known_with_write, known_without_range};
ghost use Rattle.dm_tables.specs.Rows.{adjust};

use crate::copies::{GetsZone, LosesZone};
use crate::images::{IsForgotten, IsWritten};
use crate::mounts::{HasLabel, HasNoZone, HasRead, HasZone};
use crate::past::{Deletes, edit_past};
use dm_base::{Bfid, Bytes, GroupId, NoMemory, Vsn};
use dm_model::{Joint, Label, Mark, Recall, Side, Worker};
use dm_tables::{Numbers, TryEdit, TryEditAt};
use std::alloc::Global;
use std::mem;

// The mark is left.
pub(crate) fn mark_left(
    alloc: Global,
    worker: u32,
    mark: &Mark,
    joint: &mut Joint,
) -> Result<(), NoMemory>
    ensures { OnOk result (joint.new ≡ after_mark worker mark.now joint.old) }
{
    let marks = Marks { alloc, mark };
    match mark {
        Mark::Nothing => Ok(()),
        Mark::Zone { group, .. } => joint.sides.edit(u128::from(group.0), &marks),
        Mark::Target { group, .. } => joint.sides.edit(u128::from(group.0), &marks),
        Mark::Label { group, .. } => joint.sides.edit(u128::from(group.0), &marks),
        Mark::Read {
            group,
            bfid,
            offset,
            bytes,
        } => {
            let read = Reads {
                alloc,
                group: *group,
                bfid: *bfid,
                offset: *offset,
                bytes,
            };
            joint.workers.edit(u128::from(worker), &read)
        }
        Mark::Source { group, .. } => joint.sides.edit(u128::from(group.0), &marks),
        Mark::Deleted { group, bfid } => {
            let deletes = Deletes { bfid: *bfid };
            edit_past(alloc, *group, &deletes, &mut joint.history)
        }
    }
}

// Nothing is known of what the call would have written.
pub(crate) fn mark_failed(mark: &Mark, joint: &mut Joint) -> Result<(), NoMemory>
    ensures { OnOk result (joint.new ≡ after_failed_mark mark.now joint.old) }
{
    let spoils = Spoils { mark };
    match mark {
        Mark::Nothing => Ok(()),
        Mark::Zone { group, .. } => joint.sides.edit(u128::from(group.0), &spoils),
        Mark::Target { group, .. } => joint.sides.edit(u128::from(group.0), &spoils),
        Mark::Label { group, .. } => joint.sides.edit(u128::from(group.0), &spoils),
        Mark::Read { .. } => Ok(()),
        Mark::Source { group, .. } => joint.sides.edit(u128::from(group.0), &spoils),
        Mark::Deleted { .. } => Ok(()),
    }
}

// The group's side with the mark.
#[derive(Drop)]
struct Marks<'a> {
    alloc: Global,
    mark: &'a Mark,
}

impl TryEdit<Side> for Marks<'_> {
    ghost use Rattle.dm_model.specs.SideShare.{side_after_mark};

    ghost edited = { λ it. side_after_mark it.mark.now };

    fn try_edit(&self, row: &mut Side) -> Result<(), NoMemory> {
        let alloc = self.alloc;
        match self.mark {
            Mark::Zone {
                vsn,
                place,
                zone,
                bfid,
                index,
                epoch,
                ..
            } => {
                image_written(row, *vsn, *place, zone)?;
                let piece = GetsZone {
                    alloc,
                    index: *index,
                    epoch: *epoch,
                    zone,
                };
                row.copies.edit(bfid.0, &piece)
            }
            _ => mount_marked(alloc, self.mark, row),
        }
    }
}

// The same of a mark that is no zone of a copy: it is of a mount, or of no side.
fn mount_marked(alloc: Global, mark: &Mark, row: &mut Side) -> Result<(), NoMemory>
    requires { IsNoZone mark.now }
    ensures { OnOk result (row.new ≡ side_after_mark_of mark.now row.old) }
{
    match mark {
        Mark::Nothing | Mark::Read { .. } | Mark::Deleted { .. } => Ok(()),
        Mark::Zone { .. } => unreachable!(),
        Mark::Target {
            vsn,
            mount,
            place,
            zone,
            ..
        } => {
            image_written(row, *vsn, *place, zone)?;
            let written = HasZone { alloc, zone };
            row.mounts.edit(u128::from(*mount), &written)
        }
        Mark::Label {
            vsn,
            mount,
            epoch,
            version,
            text,
            ..
        } => {
            image_written(row, *vsn, 0, text)?;
            let label = Some(Label {
                epoch: *epoch,
                version: *version,
            });
            row.mounts.edit(u128::from(*mount), &HasLabel { label })
        }
        Mark::Source { mount, bytes, .. } => {
            let read = HasRead { alloc, bytes };
            row.mounts.edit(u128::from(*mount), &read)
        }
    }
}

// The bytes were written to the volume.
fn image_written(row: &mut Side, vsn: Vsn, place: u64, bytes: &Bytes) -> Result<(), NoMemory>
    ensures { OnOk result (row.new ≡ record row.old { images = adjust row.old.images vsn.0 (known_by (known_with_write place bytes.now)) }) }
{
    row.images.edit(&vsn.0, &IsWritten { place, bytes })
}

// The group's side where nothing is known of what the call would have written.
#[derive(Drop)]
struct Spoils<'a> {
    mark: &'a Mark,
}

impl TryEdit<Side> for Spoils<'_> {
    ghost use Rattle.dm_model.specs.SideShare.{side_after_failed_mark};

    ghost edited = { λ it. side_after_failed_mark it.mark.now };

    fn try_edit(&self, row: &mut Side) -> Result<(), NoMemory> {
        match self.mark {
            Mark::Nothing | Mark::Read { .. } | Mark::Source { .. } | Mark::Deleted { .. } => Ok(
                (),
            ),
            Mark::Zone {
                vsn,
                place,
                zone,
                bfid,
                index,
                ..
            } => {
                image_forgotten(row, *vsn, *place, zone)?;
                row.copies.edit(bfid.0, &LosesZone { index: *index })
            }
            Mark::Target {
                vsn,
                mount,
                place,
                zone,
                ..
            } => {
                image_forgotten(row, *vsn, *place, zone)?;
                row.mounts.edit(u128::from(*mount), &HasNoZone)
            }
            Mark::Label {
                vsn,
                mount,
                text,
                ..
            } => {
                image_forgotten(row, *vsn, 0, text)?;
                let unlabelled = HasLabel { label: None };
                row.mounts.edit(u128::from(*mount), &unlabelled)
            }
        }
    }
}

// Nothing is known of the volume where these bytes would have been written.
fn image_forgotten(row: &mut Side, vsn: Vsn, place: u64, bytes: &Bytes) -> Result<(), NoMemory>
    ensures { OnOk result (row.new ≡ record row.old { images = adjust row.old.images vsn.0 (known_by (known_without_range place (length bytes.now))) }) }
{
    let count = bytes.len();
    row.images.edit(&vsn.0, &IsForgotten { place, count })
}

// A read of a chunk of the bitfile from the group's copy.
#[derive(Drop)]
struct Reads<'a> {
    alloc: Global,
    group: GroupId,
    bfid: Bfid,
    offset: u64,
    bytes: &'a Bytes,
}

impl TryEdit<Worker> for Reads<'_> {
    ghost use Rattle.dm_model.specs.Effects.{worker_with_read};

    ghost edited = { λ it. worker_with_read it.bfid.0 it.group.0 it.offset it.bytes.now };

    fn try_edit(&self, row: &mut Worker) -> Result<(), NoMemory> {
        let recalls = mem::replace(&mut row.recalls, Numbers::empty(self.alloc));
        row.recalls = recalls.edited(self.alloc, self)?;
        Ok(())
    }
}

impl TryEditAt<Recall> for Reads<'_> {
    ghost use Rattle.dm_model.specs.Effects.{with_read_of};

    ghost edited = { λ it _. with_read_of it.bfid.0 it.group.0 it.offset it.bytes.now };

    fn try_edit_at(&self, _key: u128, row: &mut Recall) -> Result<(), NoMemory> {
        if row.bfid.0 == self.bfid.0 {
            return add_read(self.alloc, self.group, self.offset, self.bytes, row);
        }
        Ok(())
    }
}

// The recall has the read, in the place of an earlier one at its offset.
fn add_read(
    alloc: Global,
    group: GroupId,
    offset: u64,
    bytes: &Bytes,
    recall: &mut Recall,
) -> Result<(), NoMemory>
    ensures { OnOk result (recall.new ≡ with_read_of_recall group.0 offset bytes.now recall.old) }
{
    let key = u128::from(group.0);
    let reads = reads_or(alloc, recall.reads.remove(key));
    let reads = with_bytes(alloc, offset, bytes, reads)?;
    recall.reads.insert(key, reads)?;
    Ok(())
}

fn reads_or(alloc: Global, found: Option<Numbers<Bytes>>) -> Numbers<Bytes>
    ensures { result ≡ reads_or_of found }
{
    match found {
        Some(reads) => reads,
        None => Numbers::empty(alloc),
    }
}

fn with_bytes(
    alloc: Global,
    offset: u64,
    bytes: &Bytes,
    mut reads: Numbers<Bytes>,
) -> Result<Numbers<Bytes>, NoMemory>
    ensures { IfOk result (λ t. t ≡ map.insert reads offset bytes.now) }
{
    reads.insert(u128::from(offset), bytes.copied(alloc)?)?;
    Ok(reads)
}
