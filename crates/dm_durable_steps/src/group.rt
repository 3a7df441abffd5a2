//! Steps of a group's tables.

ghost use Rattle.std.specs.Prelude.{◌≡◌, ◌<◌, IfOk, OnOk, map as map_list};
ghost use Rattle.std.specs.FinMap as map;
ghost use Rattle.dm_durable.specs.Group.{chunk_or_moved as chunk_or_moved_of, empty_group as empty_group_of, group_after_record as group_after_record_of, group_after_step, new_volume as new_volume_of, with_ends_behind};

use dm_base::{Bfid, Bytes, Chunk, GroupId, Listed, NoMemory, Secs, Vsn};
use dm_durable::{BitfileRow, GroupRecord, GroupStep, GroupTables, VolumeRow};
use dm_rules::FIRST_ZONE;
use dm_tables::{Numbers, Texts, TryEdit};
use std::alloc::Global;

/// The tables of a group before the first record. It takes no memory.
pub fn empty_group(alloc: Global, group: GroupId) -> GroupTables
    ensures { result ≡ empty_group_of group }
{
    GroupTables {
        group,
        time: Secs(0),
        volumes: Texts::empty(alloc),
        bitfiles: Numbers::empty(alloc),
    }
}

/// The tables after the record: its time, and then its step. It is done whether it may follow or not: that is for the
/// caller to ask.
pub fn group_after_record(
    alloc: Global,
    mut tables: GroupTables,
    journalled: GroupRecord,
) -> Result<GroupTables, NoMemory>
    ensures { IfOk result (λ t. t ≡ group_after_record_of tables journalled) }
{
    let GroupRecord { time, step } = journalled;
    tables.time = time;
    after_step(alloc, tables, step)
}

fn after_step(
    alloc: Global,
    mut tables: GroupTables,
    step: GroupStep,
) -> Result<GroupTables, NoMemory>
    ensures { IfOk result (λ t. t ≡ group_after_step tables step) }
{
    match step {
        GroupStep::Volume {
            vsn,
            slot,
            version,
            size,
        } => {
            let row = new_volume(slot, version, size);
            tables.volumes.insert(name_of(alloc, vsn)?, row)?;
            Ok(tables)
        }
        GroupStep::Commit { bfid, len, chunks } => commit(tables, bfid, len, chunks),
        GroupStep::Delete { bfid } => {
            let _row = tables.bitfiles.remove(bfid.0);
            Ok(tables)
        }
        GroupStep::Move { bfid, from: _, to } => {
            tables.volumes.edit(&to.vsn.0, &EndsBehind { chunk: to })?;
            tables.bitfiles.edit(bfid.0, &HasMoved { alloc, to })?;
            Ok(tables)
        }
        GroupStep::Free { vsn } => {
            let time = tables.time;
            tables.volumes.edit(&vsn.0, &IsHeld { time })?;
            Ok(tables)
        }
        GroupStep::Reuse {
            vsn,
            epoch,
            version,
        } => {
            tables.volumes.edit(&vsn.0, &IsReused { epoch, version })?;
            Ok(tables)
        }
    }
}

// The bitfile stands on the volumes in these chunks.
fn commit(
    mut tables: GroupTables,
    bfid: Bfid,
    len: u64,
    chunks: Listed<Chunk>,
) -> Result<GroupTables, NoMemory>
    ensures { IfOk result (λ t. t ≡ record tables { volumes = with_ends_behind chunks tables.volumes; bitfiles = map.insert tables.bitfiles bfid.0 (record { len = len; chunks = chunks }) }) }
{
    raise_ends(&mut tables.volumes, chunks.as_slice())?;
    tables.bitfiles.insert(bfid.0, BitfileRow { len, chunks })?;
    Ok(tables)
}

// Each chunk raises the end of its volume, where that is lower.
fn raise_ends(volumes: &mut Texts<VolumeRow>, chunks: &[Chunk]) -> Result<(), NoMemory>
    ensures { OnOk result (volumes.new ≡ with_ends_behind chunks.now volumes.old) }
{
    for chunk in chunks {
        volumes.edit(&chunk.vsn.0, &EndsBehind { chunk: *chunk })?;
    }
    Ok(())
}

// The serial number as the key of a table.
pub(crate) fn name_of(alloc: Global, vsn: Vsn) -> Result<Bytes, NoMemory>
    ensures { IfOk result (λ name. name ≡ vsn.0) }
{
    Ok(Bytes::from_vec(Vec::from_slice(alloc, &vsn.0)?))
}

// A volume that was labelled for the first time.
fn new_volume(slot: u8, version: u8, size: u64) -> VolumeRow
    ensures { result ≡ new_volume_of slot version size }
{
    VolumeRow {
        slot,
        version,
        size,
        epoch: 1,
        end: FIRST_ZONE,
        held: None,
    }
}

// The volume is written up to behind the chunk at least.
#[derive(Drop)]
struct EndsBehind {
    chunk: Chunk,
}

impl TryEdit<VolumeRow> for EndsBehind {
    ghost use Rattle.dm_durable.specs.Group.{with_end_behind};

    ghost edited = { λ it. with_end_behind it.chunk };

    fn try_edit(&self, row: &mut VolumeRow) -> Result<(), NoMemory> {
        row.end = row.end.max(self.chunk.place.saturating_add(self.chunk.len));
        Ok(())
    }
}

// The volume was freed at this time, and waits to be used anew.
#[derive(Drop)]
struct IsHeld {
    time: Secs,
}

impl TryEdit<VolumeRow> for IsHeld {
    ghost use Rattle.dm_durable.specs.Group.{as_held};

    ghost edited = { λ it. as_held it.time.0 };

    fn try_edit(&self, row: &mut VolumeRow) -> Result<(), NoMemory> {
        row.held = Some(self.time);
        Ok(())
    }
}

// The volume is empty under a new label.
#[derive(Drop)]
struct IsReused {
    epoch: u64,
    version: u8,
}

impl TryEdit<VolumeRow> for IsReused {
    ghost use Rattle.dm_durable.specs.Group.{as_reused};

    ghost edited = { λ it. as_reused it.epoch it.version };

    fn try_edit(&self, row: &mut VolumeRow) -> Result<(), NoMemory> {
        row.epoch = self.epoch;
        row.version = self.version;
        row.end = FIRST_ZONE;
        row.held = None;
        Ok(())
    }
}

// A chunk of the bitfile stands elsewhere.
#[derive(Drop)]
struct HasMoved {
    alloc: Global,
    to: Chunk,
}

impl TryEdit<BitfileRow> for HasMoved {
    ghost use Rattle.dm_durable.specs.Group.{with_chunk};

    ghost edited = { λ it. with_chunk it.to };

    fn try_edit(&self, row: &mut BitfileRow) -> Result<(), NoMemory> {
        row.chunks = chunks_moved(self.alloc, row.chunks.as_slice(), self.to)?;
        Ok(())
    }
}

// The chunks, that one in the place of the one that begins where it does.
fn chunks_moved(alloc: Global, chunks: &[Chunk], to: Chunk) -> Result<Listed<Chunk>, NoMemory>
    ensures { IfOk result (λ moved. moved ≡ map_list (chunk_or_moved_of to) chunks.now) }
{
    let mut moved = Vec::new(alloc);
    for chunk in chunks {
        moved.push(chunk_or_moved(to, *chunk))?;
    }
    Ok(Listed::from_vec(moved))
}

fn chunk_or_moved(to: Chunk, chunk: Chunk) -> Chunk
    ensures { result ≡ chunk_or_moved_of to chunk }
{
    if chunk.offset == to.offset { to } else { chunk }
}
