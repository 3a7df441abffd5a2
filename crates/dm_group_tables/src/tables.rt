//! The tables.

ghost use Rattle.std.specs.Prelude.{◌≡◌, option_map, slice_get};
ghost use Rattle.std.specs.Option.{option_copied};
ghost use Rattle.std.specs.FinMap as map;
ghost use Rattle.dm_base.specs.Limits.{volumes_limit};
ghost use Rattle.dm_catalogue.specs.Merging.{live_of};
ghost use Rattle.dm_catalogue.specs.Sums.{chunk_in};
ghost use Rattle.dm_durable.specs.Group.{empty_group, has_chunk_on as has_chunk_on_of};
ghost use Rattle.dm_durable.specs.Volumes.{first_on as first_on_of, free_slot as free_slot_of, live_on, weight_on};
ghost use Rattle.dm_rules.specs.Numbers.{as_word};
ghost use Rattle.dm_tables.specs.Rows.{row_after};
ghost use Rattle.dm_group_tables.specs.Tables.{UsesNoRoom, state_of};

use dm_base::{Bfid, Chunk, GroupId, Secs, Vsn};
use dm_catalogue::{Catalogue, LiveChunk};
use dm_durable::{BitfileRow, VolumeRow};
use dm_volumes::Volumes;
use std::alloc::Global;

/// A group's durable tables, with places kept for the step that was prepared.
#[derive(Drop)]
pub struct Tables {
    pub(crate) alloc: Global,
    pub(crate) group: GroupId,
    pub(crate) time: Secs,
    pub(crate) volumes: Volumes,
    pub(crate) catalogue: Catalogue,
}

impl Tables {
    /// The tables of a group before the first step. They take no memory.
    pub fn empty(alloc: Global, group: GroupId) -> Tables
        ensures { state_of result ≡ empty_group group }
    {
        Tables {
            alloc,
            group,
            time: Secs(0),
            volumes: Volumes::empty(alloc),
            catalogue: Catalogue::empty(alloc),
        }
    }

    /// The number of the group.
    pub fn group(&self) -> GroupId
        ensures { result ≡ (state_of self.now).group }
    {
        self.group
    }

    /// The group's time.
    pub fn time(&self) -> Secs
        ensures { result ≡ (state_of self.now).time }
    {
        self.time
    }

    /// The volume with this serial number, or none.
    pub fn volume(&self, vsn: Vsn) -> Option<VolumeRow>
        ensures { result ≡ map.get (state_of self.now).volumes vsn.0 }
    {
        self.volumes.get(vsn)
    }

    /// The bitfile, or none.
    pub fn bitfile(&self, bfid: Bfid) -> Option<&BitfileRow>
        ensures { option_copied result ≡ map.get (state_of self.now).bitfiles bfid.0 }
    {
        self.catalogue.get(bfid)
    }

    /// The chunk of the bitfile that begins at the offset, or none: two binary searches.
    pub fn chunk(&self, bfid: Bfid, offset: u64) -> Option<Chunk>
        ensures { result ≡ chunk_in offset (map.get (state_of self.now).bitfiles bfid.0) }
    {
        self.catalogue.chunk(bfid, offset)
    }

    /// How many volumes there are.
    pub fn volumes(&self) -> usize
        ensures { result ≡ map.len (state_of self.now).volumes }
    {
        self.volumes.len()
    }

    /// How many bitfiles there are.
    pub fn bitfiles(&self) -> usize
        ensures { result ≡ map.len (state_of self.now).bitfiles }
    {
        self.catalogue.len()
    }

    /// The volume at this place in the order of the serial numbers, with its own.
    pub fn volume_at(&self, at: usize) -> Option<(&Vsn, &VolumeRow)>
        ensures { option_map (λ e. (e.0.now.0, e.1.now)) result ≡ slice_get (map.entries (state_of self.now).volumes) at }
    {
        self.volumes.entry(at)
    }

    /// The bitfile at this place in the order of the identifiers, with its own.
    pub fn bitfile_at(&self, at: usize) -> Option<(u128, &BitfileRow)>
        ensures { option_map (λ e. (e.0, e.1.now)) result ≡ slice_get (map.entries (state_of self.now).bitfiles) at }
    {
        self.catalogue.entry(at)
    }

    /// The first bitfile past this one, or the first of all.
    pub fn bitfile_after(&self, after: Option<u128>) -> Option<(u128, &BitfileRow)>
        ensures { option_map (λ e. (e.0, e.1.now)) result ≡ row_after (state_of self.now).bitfiles after }
    {
        self.catalogue.first_after(after)
    }

    /// The least device of the group that no volume is on, or 16 where each has one.
    pub fn free_slot(&self) -> u8
        ensures { result ≡ free_slot_of (state_of self.now).volumes volumes_limit 0 }
    {
        self.volumes.free_slot()
    }

    /// The sum of the lengths of the chunks on the volume. It is kept, and no chunk is looked at.
    pub fn live(&self, vsn: Vsn) -> u64
        ensures { result ≡ as_word (live_on (state_of self.now).bitfiles vsn.0) }
    {
        self.catalogue.live(vsn)
    }

    /// What the chunks on the volume weigh, by the version of a volume. No chunk is looked at.
    pub fn weight(&self, version: u8, vsn: Vsn) -> u64
        ensures { result ≡ as_word (weight_on (state_of self.now).bitfiles version vsn.0) }
    {
        self.catalogue.weight(version, vsn)
    }

    /// Whether a chunk is on the volume. No chunk is looked at.
    pub fn has_chunk_on(&self, vsn: Vsn) -> bool
        ensures { result ≡ has_chunk_on_of (state_of self.now).bitfiles vsn.0 }
    {
        self.catalogue.has_chunk_on(vsn)
    }

    /// The chunk on the volume that a merge moves next: the one that lies furthest in front, the first of two at one place.
    /// No other chunk is looked at, and no memory is taken.
    pub fn first_on(&mut self, vsn: Vsn) -> Option<LiveChunk>
        ensures first { option_map live_of result ≡ first_on_of (state_of self.old).bitfiles vsn.0 }
        ensures same { state_of self.new ≡ state_of self.old }
        ensures room { UsesNoRoom self.old self.new }
    {
        self.catalogue.first_on(vsn)
    }
}
