//! The table of volumes.

ghost use Rattle.std.specs.Prelude.{◌≡◌, ◌<◌, ◌≤◌, ◌+◌, ◌^◌, nat_eq, cond, is_some, option_map, slice_get, OnOk};
ghost use Rattle.std.specs.FinMap as map;
ghost use Rattle.dm_base.specs.Limits.{volumes_limit};
ghost use Rattle.dm_durable.specs.Group.{as_held, as_reused, new_volume as new_volume_of, with_end_behind, with_ends_behind};
ghost use Rattle.dm_durable.specs.Volumes.{free_slot as free_slot_of};
ghost use Rattle.dm_tables.specs.Rows.{adjust, any, row_after};

use crate::edits::{FIRST_ZONE, IsFreed, IsLabelled, IsWritten};
use dm_base::{Chunk, NoMemory, Secs, VOLUMES_LIMIT, Vsn};
use dm_durable::VolumeRow;
use dm_rows::TextRows;
use std::alloc::Global;

/// The volumes by serial number.
#[derive(Drop)]
pub struct Volumes {
    rows: TextRows<Vsn, VolumeRow>,
}

/// A volume that was labelled for the first time.
pub fn new_volume(slot: u8, version: u8, size: u64) -> VolumeRow
    ensures { result ≡ new_volume_of slot version size }
{
    VolumeRow {
        slot,
        version,
        size,
        epoch: 1,
        end: FIRST_ZONE,
        held: None,
    }
}

impl Volumes {
    /// No volume, and no place. It takes no memory.
    pub fn empty(alloc: Global) -> Volumes
        ensures { result.rows.rows ≡ map.empty }
    {
        Volumes {
            rows: TextRows::empty(alloc),
        }
    }

    /// How many there are.
    pub fn len(&self) -> usize
        ensures len { result ≡ map.len self.now.rows.rows }
        ensures small { result < 2 ^ 63 }
    {
        self.rows.len()
    }

    /// Whether there is none.
    pub fn is_empty(&self) -> bool
        ensures { result ≡ nat_eq (map.len self.now.rows.rows) 0 }
    {
        self.rows.len() == 0
    }

    /// The volume with this serial number, or none.
    pub fn get(&self, vsn: Vsn) -> Option<VolumeRow>
        ensures { result ≡ map.get self.now.rows.rows vsn.0 }
    {
        self.rows.get(&vsn.0).copied()
    }

    /// Whether there is a volume with this serial number.
    pub fn contains(&self, vsn: Vsn) -> bool
        ensures { result ≡ is_some (map.get self.now.rows.rows vsn.0) }
    {
        self.rows.contains(&vsn.0)
    }

    /// The volume at this place in the order of the serial numbers, with its own.
    pub fn entry(&self, at: usize) -> Option<(&Vsn, &VolumeRow)>
        ensures { option_map (λ e. (e.0.now.0, e.1.now)) result ≡ slice_get (map.entries self.now.rows.rows) at }
    {
        self.rows.entry(at)
    }

    /// Whether a volume is on this device of the group.
    pub fn has_slot(&self, slot: u8) -> bool
        ensures { result ≡ any (λ vsn v. nat_eq v.slot slot) self.now.rows.rows }
    {
        for at in 0..self.rows.len() {
            let Some((_, row)) = self.rows.entry(at) else {
                return false;
            };
            if row.slot == slot {
                return true;
            }
        }
        false
    }

    /// The least device of the group that no volume is on, or 16 where each has one. It looks at each volume once for
    /// each device that is taken: at most 256 times.
    pub fn free_slot(&self) -> u8
        ensures { result ≡ free_slot_of self.now.rows.rows volumes_limit 0 }
    {
        let mut slot = 0;
        while slot < 16 && self.has_slot(slot) {
            slot += 1;
        }
        slot
    }

    /// Keeps places for so many volumes more, at least.
    pub fn reserve(&mut self, volumes: usize) -> Result<(), NoMemory>
        ensures rows { self.new.rows.rows ≡ self.old.rows.rows }
        ensures room { OnOk result (volumes ≤ self.new.rows.spare) }
        ensures kept { self.old.rows.spare ≤ self.new.rows.spare }
    {
        self.rows.reserve(volumes)
    }

    /// Puts the volume into a place that is kept, in the place of the one with its serial number. It takes no memory.
    pub fn add(&mut self, row: Box<(Vsn, VolumeRow)>)
        requires { 0 < self.old.rows.spare }
        ensures rows { self.new.rows.rows ≡ map.insert self.old.rows.rows row.value.0.0 row.value.1 }
        ensures spare { self.new.rows.spare + 1 ≡ cond (is_some (map.get self.old.rows.rows row.value.0.0)) (self.old.rows.spare + 1) self.old.rows.spare }
    {
        self.rows.insert_reserved(row);
    }

    /// The volume of the chunk is written up to behind the chunk at least, if it is there. It takes no memory.
    pub fn raise_end(&mut self, chunk: &Chunk)
        ensures rows { self.new.rows.rows ≡ adjust self.old.rows.rows chunk.now.vsn.0 (with_end_behind chunk.now) }
        ensures spare { self.new.rows.spare ≡ self.old.rows.spare }
    {
        let _there = self.rows.change(&chunk.vsn.0, &IsWritten { chunk: *chunk });
    }

    /// The same of each of these chunks. It takes no memory.
    pub fn raise_ends(&mut self, chunks: &[Chunk])
        ensures rows { self.new.rows.rows ≡ with_ends_behind chunks.now self.old.rows.rows }
        ensures spare { self.new.rows.spare ≡ self.old.rows.spare }
    {
        for chunk in chunks {
            self.raise_end(chunk);
        }
    }

    /// The volume was freed at this time, if it is there, and waits to be used anew. It takes no memory.
    pub fn hold(&mut self, vsn: Vsn, time: Secs)
        ensures rows { self.new.rows.rows ≡ adjust self.old.rows.rows vsn.0 (as_held time.0) }
        ensures spare { self.new.rows.spare ≡ self.old.rows.spare }
    {
        let _there = self.rows.change(&vsn.0, &IsFreed { time });
    }

    /// The volume is empty under a new label, of this epoch and version, if it is there. It takes no memory.
    pub fn reuse(&mut self, vsn: Vsn, epoch: u64, version: u8)
        ensures rows { self.new.rows.rows ≡ adjust self.old.rows.rows vsn.0 (as_reused epoch version) }
        ensures spare { self.new.rows.spare ≡ self.old.rows.spare }
    {
        let _there = self.rows.change(&vsn.0, &IsLabelled { epoch, version });
    }
}
