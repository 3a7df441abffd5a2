//! The copies that are being stored, each with its reservation.

ghost use Rattle.std.specs.Prelude.{◌≡◌, OnOk};
ghost use Rattle.dm_model.specs.SideShare.{copies_mounted, copies_unmounted};

use dm_base::{Bytes, NoMemory};
use dm_model::{CopyReservation, CopyState, Origin, WrittenZone};
use dm_tables::{Numbers, TryEdit};
use std::alloc::Global;

// A mount that was made for this is over.
pub(crate) fn unmount_copy(
    copies: &mut Numbers<CopyState>,
    mount: u64,
    origin: Origin,
) -> Result<(), NoMemory>
    ensures { OnOk result (copies.new ≡ copies_unmounted mount origin copies.old) }
{
    match origin {
        Origin::New { .. } => Ok(()),
        Origin::Piece { bfid, .. } => copies.edit(bfid.0, &LosesMount { mount }),
        Origin::Chunk { .. } => Ok(()),
        Origin::Source { .. } => Ok(()),
        Origin::Target { .. } => Ok(()),
        Origin::Reuse { .. } => Ok(()),
    }
}

// A mount was made for this.
pub(crate) fn mount_copy(
    copies: &mut Numbers<CopyState>,
    mount: u64,
    origin: Origin,
) -> Result<(), NoMemory>
    ensures { OnOk result (copies.new ≡ copies_mounted mount origin copies.old) }
{
    match origin {
        Origin::New { .. } => Ok(()),
        Origin::Piece { bfid, index, .. } => copies.edit(bfid.0, &GetsMount { mount, index }),
        Origin::Chunk { .. } => Ok(()),
        Origin::Source { .. } => Ok(()),
        Origin::Target { .. } => Ok(()),
        Origin::Reuse { .. } => Ok(()),
    }
}

// The copy has room of this number, in which nothing was done yet.
#[derive(Drop)]
pub(crate) struct GetsReservation {
    pub(crate) alloc: Global,
    pub(crate) number: u64,
}

impl TryEdit<CopyState> for GetsReservation {
    ghost use Rattle.std.specs.Prelude.{Some};
    ghost use Rattle.std.specs.FinMap as map;
    ghost use Rattle.dm_model.specs.SideShare.{with_reservation};

    ghost edited = { λ it. with_reservation (Some (record { number = it.number; mounts = map.empty; written = map.empty })) };

    fn try_edit(&self, row: &mut CopyState) -> Result<(), NoMemory> {
        row.reservation = Some(CopyReservation {
            number: self.number,
            mounts: Numbers::empty(self.alloc),
            written: Numbers::empty(self.alloc),
        });
        Ok(())
    }
}

// The copy has no room any more.
pub(crate) struct LosesReservation;

impl TryEdit<CopyState> for LosesReservation {
    ghost use Rattle.std.specs.Prelude.{None};
    ghost use Rattle.dm_model.specs.SideShare.{with_reservation};

    ghost edited = { λ _. with_reservation None };

    fn try_edit(&self, row: &mut CopyState) -> Result<(), NoMemory> {
        row.reservation = None;
        Ok(())
    }
}

// A mount is one of the copy's reservation, for the piece of this index.
#[derive(Drop)]
struct GetsMount {
    mount: u64,
    index: u64,
}

impl TryEdit<CopyState> for GetsMount {
    ghost use Rattle.dm_model.specs.SideShare.{reservation_by, with_piece_mount};

    ghost edited = { λ it. reservation_by (with_piece_mount it.mount it.index) };

    fn try_edit(&self, row: &mut CopyState) -> Result<(), NoMemory> {
        let Some(mut reservation) = row.reservation.take() else {
            return Ok(());
        };
        reservation
            .mounts
            .insert(u128::from(self.mount), self.index)?;
        row.reservation = Some(reservation);
        Ok(())
    }
}

// A mount is one of the copy's reservation no longer.
#[derive(Drop)]
struct LosesMount {
    mount: u64,
}

impl TryEdit<CopyState> for LosesMount {
    ghost use Rattle.dm_model.specs.SideShare.{reservation_by, without_piece_mount};

    ghost edited = { λ it. reservation_by (without_piece_mount it.mount) };

    fn try_edit(&self, row: &mut CopyState) -> Result<(), NoMemory> {
        let Some(mut reservation) = row.reservation.take() else {
            return Ok(());
        };
        let _ = reservation.mounts.remove(u128::from(self.mount));
        row.reservation = Some(reservation);
        Ok(())
    }
}

// The last write of a piece wrote this zone.
#[derive(Drop)]
pub(crate) struct GetsZone<'a> {
    pub(crate) alloc: Global,
    pub(crate) index: u64,
    pub(crate) epoch: u64,
    pub(crate) zone: &'a Bytes,
}

impl TryEdit<CopyState> for GetsZone<'_> {
    ghost use Rattle.dm_model.specs.SideShare.{reservation_by, with_written};

    ghost edited = { λ it. reservation_by (with_written it.index it.epoch it.zone.now) };

    fn try_edit(&self, row: &mut CopyState) -> Result<(), NoMemory> {
        let Some(mut reservation) = row.reservation.take() else {
            return Ok(());
        };
        let written = WrittenZone {
            epoch: self.epoch,
            zone: self.zone.copied(self.alloc)?,
        };
        reservation.written.insert(u128::from(self.index), written)?;
        row.reservation = Some(reservation);
        Ok(())
    }
}

// The last write of a piece wrote nothing that is known.
#[derive(Drop)]
pub(crate) struct LosesZone {
    pub(crate) index: u64,
}

impl TryEdit<CopyState> for LosesZone {
    ghost use Rattle.dm_model.specs.SideShare.{reservation_by, without_written};

    ghost edited = { λ it. reservation_by (without_written it.index) };

    fn try_edit(&self, row: &mut CopyState) -> Result<(), NoMemory> {
        let Some(mut reservation) = row.reservation.take() else {
            return Ok(());
        };
        let _ = reservation.written.remove(u128::from(self.index));
        row.reservation = Some(reservation);
        Ok(())
    }
}
