//! Which volumes are freed, and which are used again.

ghost use Rattle.std.specs.Prelude.{◌≡◌, IfOk};
ghost use Rattle.dm_durable.specs.Group.{has_chunk_on as has_chunk_on_volume};
ghost use Rattle.dm_durable.specs.Volumes.{is_freeable_in, is_reusable_in, reusable_in};
ghost use Rattle.dm_model.specs.Volumes.{usage_of};
ghost use Rattle.dm_rules.specs.Merge.{is_ready as is_ready_of};

use crate::listing::{Listing, volumes_listed};
use crate::usage::{is_in_use, is_mounted, is_reserved, state_in};
use dm_base::{Listed, NoMemory, Secs, VolState, Vsn};
use dm_durable::{BitfileRow, VolumeRow};
use dm_model::Group;
use dm_rules::{FIRST_VERSION, SECOND_VERSION};
use dm_tables::{Numbers, Test};
use std::alloc::Global;

/// Whether the volume can be freed: it is in use, and nothing needs it any more.
pub fn is_freeable(library: &Group, vsn: Vsn, row: &VolumeRow) -> bool
    ensures { result ≡ is_freeable_in (usage_of library.now) library.now.tables vsn.0 row.now }
{
    let live = has_chunk_on(&library.tables.bitfiles, vsn);
    let reserved = is_reserved(library, vsn);
    let mounted = is_mounted(library, vsn);
    is_in_use(state_in(library, vsn, row)) && !live && !reserved && !mounted
}

// Whether a chunk of some bitfile is on the volume.
fn has_chunk_on(bitfiles: &Numbers<BitfileRow>, vsn: Vsn) -> bool
    ensures { result ≡ has_chunk_on_volume bitfiles.now vsn.0 }
{
    bitfiles.any(&ChunkOn { vsn })
}

// Has the bitfile a chunk on this volume?
#[derive(Drop)]
struct ChunkOn {
    vsn: Vsn,
}

impl Test<BitfileRow> for ChunkOn {
    ghost use Rattle.std.specs.List.{list_any};
    ghost use Rattle.dm_durable.specs.Group.{is_on};

    ghost passes = { λ it row. list_any (is_on it.vsn.0) row.chunks };

    fn test(&self, row: &BitfileRow) -> bool {
        row.chunks
            .as_slice()
            .iter()
            .any(|chunk| chunk.vsn.0 == self.vsn.0)
    }
}

/// The volumes that may be used again at this time.
pub fn reusable(alloc: Global, library: &Group, time: Secs) -> Result<Listed<Vsn>, NoMemory>
    ensures { IfOk result (λ vsns. vsns ≡ reusable_in (usage_of library.now) time.0 library.now.conf.hold library.now.conf.format library.now.tables.volumes) }
{
    volumes_listed(
        alloc,
        &library.tables.volumes,
        &ReusableVolumes { library, time },
    )
}

// The volume, if it may be used again at this time.
#[derive(Drop)]
struct ReusableVolumes<'a> {
    library: &'a Group,
    time: Secs,
}

impl Listing<Vsn> for ReusableVolumes<'_> {
    ghost use Rattle.std.specs.Prelude.{◌∷◌, [], cond};
    ghost use Rattle.dm_durable.specs.Volumes.{is_reusable_in};
    ghost use Rattle.dm_model.specs.Volumes.{usage_of};

    ghost listed = { λ it vsn v. cond (is_reusable_in (usage_of it.library.now) it.time.0 it.library.now.conf.hold it.library.now.conf.format vsn v) (record { 0 = vsn } ∷ []) [] };

    fn list(&self, vsn: Vsn, row: &VolumeRow) -> Option<Vsn> {
        if is_reusable(self.library, self.time, vsn, row) {
            Some(vsn)
        } else {
            None
        }
    }
}

fn is_reusable(library: &Group, time: Secs, vsn: Vsn, row: &VolumeRow) -> bool
    ensures { result ≡ is_reusable_in (usage_of library.now) time.0 library.now.conf.hold library.now.conf.format vsn.0 row.now }
{
    let state = state_in(library, vsn, row);
    let mounted = is_mounted(library, vsn);
    is_ready(library, time, row.version, state) && row.epoch < u64::MAX && !mounted
}

// Whether the state of a volume of this version lets it be used again: it was held long enough, or it is empty and its chunks
// get sums.
fn is_ready(library: &Group, time: Secs, version: u8, state: VolState) -> bool
    ensures { result ≡ is_ready_of time.0 library.now.conf.hold library.now.conf.format version state }
{
    match state {
        VolState::Held(since) => library.conf.hold <= time.0.saturating_sub(since.0),
        VolState::Empty => version == FIRST_VERSION && library.conf.format == SECOND_VERSION,
        VolState::Filling | VolState::Full => false,
    }
}
