//! Where the chunks of a merge may go.

ghost use Rattle.std.specs.Prelude.{◌≡◌, ◌&&◌, IfOk, nat_eq, nat_le};
ghost use Rattle.dm_durable.specs.Volumes.{greatest_room as greatest_room_of, is_listed as is_listed_in, target_spaces as target_spaces_of};
ghost use Rattle.dm_model.specs.Volumes.{usage_of};
ghost use Rattle.dm_rules.specs.Merge.{destination as destination_of, first_with_room as first_with_room_of};

use crate::listing::{Listing, space_if, volumes_listed};
use crate::usage::is_mounted;
use dm_base::{Listed, NoMemory, Vsn};
use dm_durable::VolumeRow;
use dm_model::Group;
use dm_rules::{FIRST_VERSION, SECOND_VERSION, Space};
use std::alloc::Global;

/// Whether the volume is one of a list.
pub fn is_listed(merged: &[Vsn], vsn: Vsn) -> bool
    ensures { result ≡ is_listed_in merged.now vsn.0 }
{
    merged.iter().any(|other| other.0 == vsn.0)
}

/// The volumes that may take a chunk in a merge of this list.
pub fn target_spaces(
    alloc: Global,
    library: &Group,
    merged: &[Vsn],
) -> Result<Listed<Space>, NoMemory>
    ensures { IfOk result (λ spaces. spaces ≡ target_spaces_of (usage_of library.now) merged.now library.now.tables.volumes) }
{
    let targets = TargetSpaces { library, merged };
    volumes_listed(alloc, &library.tables.volumes, &targets)
}

// The volume as one that may take a chunk of those of this merge.
#[derive(Drop)]
struct TargetSpaces<'a> {
    library: &'a Group,
    merged: &'a [Vsn],
}

impl Listing<Space> for TargetSpaces<'_> {
    ghost use Rattle.std.specs.Prelude.{[], ◌||◌, cond};
    ghost use Rattle.dm_durable.specs.Volumes.{is_listed, space_if};
    ghost use Rattle.dm_model.specs.Volumes.{is_mounted, usage_of};

    ghost listed = { λ it vsn v. cond (is_mounted it.library.now.mounts vsn || is_listed it.merged.now vsn) [] (space_if (usage_of it.library.now) vsn v v.held) };

    fn list(&self, vsn: Vsn, row: &VolumeRow) -> Option<Space> {
        if is_mounted(self.library, vsn) || is_listed(self.merged, vsn) {
            return None;
        }
        space_if(self.library, vsn, row)
    }
}

/// Where a chunk of so many bytes goes: to a volume whose chunks have sums first.
pub fn destination(len: u64, spaces: &[Space]) -> Option<Space>
    ensures { result ≡ destination_of len spaces.now }
{
    match first_with_room(SECOND_VERSION, len, spaces) {
        Some(space) => Some(space),
        None => first_with_room(FIRST_VERSION, len, spaces),
    }
}

fn first_with_room(version: u8, len: u64, spaces: &[Space]) -> Option<Space>
    ensures { result ≡ first_with_room_of version len spaces.now }
{
    match spaces {
        [] => None,
        [space, rest @ ..] => {
            if fits(version, len, *space) {
                return Some(*space);
            }
            first_with_room(version, len, rest)
        }
    }
}

fn fits(version: u8, len: u64, space: Space) -> bool
    ensures { result ≡ (nat_eq space.version version && nat_le len space.room) }
{
    space.version == version && len <= space.room
}

/// The greatest room, which is 0 where there is none.
pub fn greatest_room(spaces: &[Space]) -> u64
    ensures { result ≡ greatest_room_of spaces.now }
{
    match spaces {
        [] => 0,
        [space, rest @ ..] => space.room.max(greatest_room(rest)),
    }
}
