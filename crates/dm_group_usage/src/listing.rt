//! Lists that are made of the volumes of a group, by serial number.
//!
//! A volume under a text that is no serial number is passed over. No run puts one into the tables.

ghost use Rattle.std.specs.Prelude.{◌≡◌, ℕ, List, true, false, nat_eq, length, IfOk, IfSome, IfNone, option_to_list};
ghost use Rattle.std.specs.FinMap as map;
ghost use Rattle.std.specs.List.{flat_map};
ghost use Rattle.dm_base.specs.declared.serial.TheConstants.{VSN_LENGTH};
ghost use Rattle.dm_durable.specs.declared.group.VolumeRow.{VolumeRow};
ghost use Rattle.dm_durable.specs.Volumes.{of_serial, space_if as space_if_held, spaces as spaces_of};
ghost use Rattle.dm_group_usage.specs.Range.{are_serials_in};
ghost use Rattle.dm_model.specs.Volumes.{all_volumes as all_volumes_of, usage_of};

use crate::usage::{space_of, state_in, tip_in};
use crate::weights::live_on;
use dm_base::{Bytes, Listed, NoMemory, VSN_LENGTH, VolRow, Vsn};
use dm_durable::VolumeRow;
use dm_model::Group;
use dm_rules::Space;
use dm_tables::Texts;
use std::alloc::Global;

/// What is listed of a volume, if anything is.
pub trait Listing<X> {
    ghost listed: { Self → List ℕ → VolumeRow → List X };

    /// It.
    fn list(&self, vsn: Vsn, row: &VolumeRow) -> Option<X>
        ensures { option_to_list result ≡ listed self.now vsn.0 row.now };
}

/// The list of all volumes.
pub fn volumes_listed<X: Drop, L: Listing<X>>(
    alloc: Global,
    volumes: &Texts<VolumeRow>,
    listing: &L,
) -> Result<Listed<X>, NoMemory>
    ensures { IfOk result (λ rows. rows ≡ flat_map (λ e. of_serial e.0 (L.listed listing.now e.0 e.1)) (map.entries volumes.now)) }
{
    let mut rows = Vec::new(alloc);
    for (text, row) in volumes.entries() {
        if let Some(listed) = volume_listed(listing, text, row) {
            rows.push(listed)?;
        }
    }
    Ok(Listed::from_vec(rows))
}

fn volume_listed<X, L: Listing<X>>(listing: &L, text: &Bytes, row: &VolumeRow) -> Option<X>
    ensures { option_to_list result ≡ of_serial text.now (L.listed listing.now text.now row.now) }
{
    let vsn = serial_of(text.as_slice())?;
    listing.list(vsn, row)
}

// The serial number with this text: six bytes, whatever they are.
fn serial_of(text: &[u8]) -> Option<Vsn>
    ensures there { IfSome result (λ vsn. (vsn.0 ≡ text.now) × (nat_eq (length text.now) VSN_LENGTH ≡ true)) }
    ensures none { IfNone result (nat_eq (length text.now) VSN_LENGTH ≡ false) }
{
    match <[u8; 6]>::try_from(text) {
        Ok(bytes) => Some(Vsn(bytes)),
        Err(_) => None,
    }
}

/// Whether each volume stands under a serial number, so that none is passed over.
pub fn are_serials(volumes: &Texts<VolumeRow>) -> bool
    ensures { result ≡ are_serials_in volumes.now }
{
    for (text, _) in volumes.entries() {
        if text.len() != VSN_LENGTH {
            return false;
        }
    }
    true
}

/// The volumes that may take pieces.
pub fn spaces(alloc: Global, library: &Group) -> Result<Listed<Space>, NoMemory>
    ensures { IfOk result (λ spaces. spaces ≡ spaces_of (usage_of library.now) library.now.tables.volumes) }
{
    volumes_listed(alloc, &library.tables.volumes, &OpenVolumes { library })
}

// The volume as one that may take a piece.
#[derive(Drop)]
struct OpenVolumes<'a> {
    library: &'a Group,
}

impl Listing<Space> for OpenVolumes<'_> {
    ghost use Rattle.dm_durable.specs.Volumes.{space_if};
    ghost use Rattle.dm_model.specs.Volumes.{usage_of};

    ghost listed = { λ it vsn v. space_if (usage_of it.library.now) vsn v v.held };

    fn list(&self, vsn: Vsn, row: &VolumeRow) -> Option<Space> {
        space_if(self.library, vsn, row)
    }
}

/// The volume as one that may take a piece, if it isn't held.
pub(crate) fn space_if(library: &Group, vsn: Vsn, row: &VolumeRow) -> Option<Space>
    ensures { option_to_list result ≡ space_if_held (usage_of library.now) vsn.0 row.now row.now.held }
{
    match row.held {
        None => Some(space_of(library, vsn, row)),
        Some(_) => None,
    }
}

/// What a user is told of the volumes.
pub fn all_volumes(alloc: Global, library: &Group) -> Result<Listed<VolRow>, NoMemory>
    ensures { IfOk result (λ rows. rows ≡ all_volumes_of library.now) }
{
    volumes_listed(alloc, &library.tables.volumes, &VolumeRows { library })
}

// What a user is told of the volume.
#[derive(Drop)]
struct VolumeRows<'a> {
    library: &'a Group,
}

impl Listing<VolRow> for VolumeRows<'_> {
    ghost use Rattle.std.specs.Prelude.{◌∷◌, []};
    ghost use Rattle.dm_model.specs.Volumes.{volume_row};

    ghost listed = { λ it vsn v. volume_row it.library.now vsn v ∷ [] };

    fn list(&self, vsn: Vsn, row: &VolumeRow) -> Option<VolRow> {
        Some(VolRow {
            vsn,
            state: state_in(self.library, vsn, row),
            tip: tip_in(self.library, vsn, row),
            live: live_on(&self.library.tables.bitfiles, vsn),
        })
    }
}
