//! What is open on a volume, and what that makes of it.

ghost use Rattle.std.specs.Prelude.{◌≡◌, ◌∷◌, []};
ghost use Rattle.std.specs.FinMap as map;
ghost use Rattle.std.specs.Option.{option_map};
ghost use Rattle.dm_durable.specs.Volumes.{epoch_or, room_in as room_in_usage, space_of as space_of_volume, state_in as state_in_usage, tip_in as tip_in_tips};
ghost use Rattle.dm_model.specs.GroupCalls.{group_refusal};
ghost use Rattle.dm_model.specs.Guards.{first_true};
ghost use Rattle.dm_model.specs.Volumes.{epoch_of as epoch_of_volume, free_drives as free_drives_of, is_being_reused as is_being_reused_in, is_configured as is_configured_in, is_mounted as is_mounted_in, is_reserved as is_reserved_in, mount_refusal as mount_refusal_of, usage_of};
ghost use Rattle.dm_rules.specs.State.{is_in_use as is_in_use_of, state_of as state_of_volume};

use dm_base::{GroupError, Secs, VolState, Vsn};
use dm_durable::VolumeRow;
use dm_model::{Group, Mounted, Reserved, Reusing};
use dm_rules::{FIRST_ZONE, Space};
use dm_tables::Test;
use dm_zone::room;

/// Whether the volume is in a drive.
pub(crate) fn is_mounted(library: &Group, vsn: Vsn) -> bool
    ensures { result ≡ is_mounted_in library.now.mounts vsn.0 }
{
    library.mounts.any(&MountOf { vsn })
}

// Is the mount one of this volume?
#[derive(Drop)]
struct MountOf {
    vsn: Vsn,
}

impl Test<Mounted> for MountOf {
    ghost use Rattle.dm_durable.specs.Tables.{same_text};

    ghost passes = { λ it mounted. same_text mounted.vsn.0 it.vsn.0 };

    fn test(&self, mounted: &Mounted) -> bool {
        mounted.vsn.0 == self.vsn.0
    }
}

/// Whether a reservation has a piece there.
pub(crate) fn is_reserved(library: &Group, vsn: Vsn) -> bool
    ensures { result ≡ is_reserved_in library.now.reservations vsn.0 }
{
    library.reservations.any(&PieceOn { vsn })
}

// Has the reservation a piece on this volume?
#[derive(Drop)]
struct PieceOn {
    vsn: Vsn,
}

impl Test<Reserved> for PieceOn {
    ghost use Rattle.dm_model.specs.Volumes.{has_piece_on};

    ghost passes = { λ it reserved. has_piece_on it.vsn.0 reserved };

    fn test(&self, reserved: &Reserved) -> bool {
        reserved
            .pieces
            .as_slice()
            .iter()
            .any(|piece| piece.vsn.0 == self.vsn.0)
    }
}

/// Whether the volume is about to be labelled anew.
pub(crate) fn is_being_reused(library: &Group, vsn: Vsn) -> bool
    ensures { result ≡ is_being_reused_in library.now.reuses vsn.0 }
{
    library.reuses.any(&ReuseOf { vsn })
}

// Is it the reuse of this volume?
#[derive(Drop)]
struct ReuseOf {
    vsn: Vsn,
}

impl Test<Reusing> for ReuseOf {
    ghost use Rattle.dm_durable.specs.Tables.{same_text};

    ghost passes = { λ it reusing. same_text reusing.vsn.0 it.vsn.0 };

    fn test(&self, reusing: &Reusing) -> bool {
        reusing.vsn.0 == self.vsn.0
    }
}

/// The place of the next zone of the volume.
pub(crate) fn tip_in(library: &Group, vsn: Vsn, row: &VolumeRow) -> u64
    ensures { result ≡ tip_in_tips library.now.tips vsn.0 row.now }
{
    match library.tips.get(&vsn.0) {
        None => row.end,
        Some(tip) => *tip,
    }
}

/// How much the volume still takes.
pub(crate) fn room_in(library: &Group, vsn: Vsn, row: &VolumeRow) -> u64
    ensures { result ≡ room_in_usage (usage_of library.now) vsn.0 row.now }
{
    if is_being_reused(library, vsn) {
        return 0;
    }
    let tip = tip_in(library, vsn, row);
    room(row.version, row.size, tip, library.conf.chunk)
}

/// The state of the volume.
pub(crate) fn state_in(library: &Group, vsn: Vsn, row: &VolumeRow) -> VolState
    ensures { result ≡ state_in_usage (usage_of library.now) vsn.0 row.now }
{
    let tip = tip_in(library, vsn, row);
    let room = room_in(library, vsn, row);
    state_of(tip, room, row.held)
}

fn state_of(tip: u64, room: u64, held: Option<Secs>) -> VolState
    ensures { result ≡ state_of_volume tip room held }
{
    match held {
        Some(since) => VolState::Held(since),
        None if tip == FIRST_ZONE => VolState::Empty,
        None if room == 0 => VolState::Full,
        None => VolState::Filling,
    }
}

/// Whether zones were written on a volume of this state since its label.
pub(crate) fn is_in_use(state: VolState) -> bool
    ensures { result ≡ is_in_use_of state }
{
    match state {
        VolState::Filling | VolState::Full => true,
        VolState::Empty | VolState::Held(_) => false,
    }
}

/// The volume as one that may take a piece.
pub(crate) fn space_of(library: &Group, vsn: Vsn, row: &VolumeRow) -> Space
    ensures { result ≡ space_of_volume (usage_of library.now) vsn.0 row.now }
{
    Space {
        vsn,
        version: row.version,
        tip: tip_in(library, vsn, row),
        room: room_in(library, vsn, row),
    }
}

/// Whether the group is configured with the volume.
pub fn is_configured(library: &Group, vsn: Vsn) -> bool
    ensures { result ≡ is_configured_in library.now vsn.0 }
{
    library
        .conf
        .volumes
        .as_slice()
        .iter()
        .any(|other| other.0 == vsn.0)
}

/// The epoch of the volume, which is 1 where the tables haven't the volume yet.
pub fn epoch_of(library: &Group, vsn: Vsn) -> u64
    ensures { result ≡ epoch_of_volume library.now vsn.0 }
{
    match library.tables.volumes.get(&vsn.0) {
        None => 1,
        Some(row) => row.epoch,
    }
}

/// Why the volume can't be mounted now: it is mounted already, or no more than `others` drives are free.
pub fn mount_refusal(library: &Group, others: u8, vsn: Vsn) -> Option<GroupError>
    ensures { option_map (λ e. group_refusal e) result ≡ first_true (mount_refusal_of others library.now vsn.0 ∷ []) }
{
    let mounted = is_mounted(library, vsn);
    let free = free_drives(library);
    if mounted || free <= others {
        return Some(GroupError::NotYet { mounted, free });
    }
    None
}

fn free_drives(library: &Group) -> u8
    ensures { result ≡ free_drives_of library.now }
{
    usize::from(library.conf.drives).saturating_sub(library.mounts.len()) as u8
}
