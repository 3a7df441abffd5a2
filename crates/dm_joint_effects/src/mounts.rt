//! The open mounts.

ghost use Rattle.std.specs.Prelude.{◌≡◌};
ghost use Rattle.std.specs.Option.{option_copied};
ghost use Rattle.dm_model.specs.SideShare.{is_bound as is_bound_of, new_mount as new_mount_of, source_of as source_of_move, target_of as target_of_move};

use crate::images::is_faithful;
use dm_base::{Bytes, NoMemory, Vsn};
use dm_durable::VolumeRow;
use dm_model::{Label, MountState, Moving, Origin, Side};
use dm_rules::FIRST_VERSION;
use dm_tables::TryEdit;
use std::alloc::Global;

// A mount on which nothing was done yet.
pub(crate) fn new_mount(side: &Side, vsn: Vsn, epoch: u64, origin: Origin) -> MountState
    ensures { result ≡ new_mount_of side.now vsn epoch origin }
{
    MountState {
        vsn,
        epoch,
        origin,
        bound: is_bound(
            side.faithful.as_slice(),
            side.group.tables.volumes.get(&vsn.0),
        ),
        labelled: None,
        read: None,
        written: None,
    }
}

// Whether a read of the volume gives what is known.
fn is_bound(faithful: &[u8], row: Option<&VolumeRow>) -> bool
    ensures { result ≡ is_bound_of faithful.now (option_copied row.entry) }
{
    match row {
        None => false,
        Some(row) => row.version == FIRST_VERSION || is_faithful(faithful, row.slot),
    }
}

// What the mount of a move's source was made for.
pub(crate) fn source_of(job: u64, moving: &Moving) -> Origin
    ensures { result ≡ source_of_move job moving.now }
{
    Origin::Source {
        job,
        bfid: moving.bfid,
        chunk: moving.from,
    }
}

// What the mount of a move's target was made for.
pub(crate) fn target_of(job: u64, moving: &Moving) -> Origin
    ensures { result ≡ target_of_move job moving.now }
{
    Origin::Target {
        job,
        bfid: moving.bfid,
        total: moving.total,
        chunk: moving.to,
        version: moving.version,
    }
}

// The last relabel under the mount wrote this label, or nothing that is known.
#[derive(Drop)]
pub(crate) struct HasLabel {
    pub(crate) label: Option<Label>,
}

impl TryEdit<MountState> for HasLabel {
    ghost edited = { λ it x. record x { labelled = it.label } };

    fn try_edit(&self, row: &mut MountState) -> Result<(), NoMemory> {
        row.labelled = self.label;
        Ok(())
    }
}

// The last read under the mount gave these bytes.
#[derive(Drop)]
pub(crate) struct HasRead<'a> {
    pub(crate) alloc: Global,
    pub(crate) bytes: &'a Bytes,
}

impl TryEdit<MountState> for HasRead<'_> {
    ghost use Rattle.std.specs.Prelude.{Some};

    ghost edited = { λ it x. record x { read = Some it.bytes.now } };

    fn try_edit(&self, row: &mut MountState) -> Result<(), NoMemory> {
        row.read = Some(self.bytes.copied(self.alloc)?);
        Ok(())
    }
}

// The last write under the mount wrote this zone.
#[derive(Drop)]
pub(crate) struct HasZone<'a> {
    pub(crate) alloc: Global,
    pub(crate) zone: &'a Bytes,
}

impl TryEdit<MountState> for HasZone<'_> {
    ghost use Rattle.std.specs.Prelude.{Some};

    ghost edited = { λ it x. record x { written = Some it.zone.now } };

    fn try_edit(&self, row: &mut MountState) -> Result<(), NoMemory> {
        row.written = Some(self.zone.copied(self.alloc)?);
        Ok(())
    }
}

// The last write under the mount wrote nothing that is known.
pub(crate) struct HasNoZone;

impl TryEdit<MountState> for HasNoZone {
    ghost use Rattle.std.specs.Prelude.{None};

    ghost edited = { λ _ x. record x { written = None } };

    fn try_edit(&self, row: &mut MountState) -> Result<(), NoMemory> {
        row.written = None;
        Ok(())
    }
}
