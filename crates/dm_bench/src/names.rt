//! The names that an entry carries beside its home.
ghost use Rattle.std.specs.Prelude.{◌≡◌, [], ◌∷◌, map};
ghost use Rattle.std.specs.Option.{option_map};
ghost use Rattle.dm_model.specs.Names as words;
ghost use Rattle.dm_model.specs.declared.entry.Name.TheVariants.{Worker};
ghost use Rattle.dm_model.specs.Files.{groups_of};
ghost use Rattle.dm_bench.specs.Named.{names_in, owner_name};

use dm_base::{Bfid, GroupId};
use dm_model::{Name, Part};

/// One name, two or three: no event is about more beside its home.
#[derive(Clone, Copy, Debug, PartialEq, Eq)]
pub struct Names {
    first: Name,
    second: Option<Name>,
    third: Option<Name>,
}

/// Whose a mount is: the copy's for which it was made, or else the worker's.
#[derive(Clone, Copy, Debug, PartialEq, Eq)]
pub enum Owner {
    Worker { worker: u32 },
    Copy { bfid: Bfid },
}

// A copy of a bitfile in a group, while its put is open.
fn copy_name(group: GroupId, bfid: Bfid) -> Name
    ensures { result ≡ words.copy_name group bfid }
{
    Name::Side {
        group,
        part: Part::Copy { bfid },
    }
}

fn mount_name(group: GroupId, mount: u64) -> Name
    ensures { result ≡ words.mount_name group mount }
{
    Name::Side {
        group,
        part: Part::Mount { mount },
    }
}

// The copy in the group at one of the two places of a put.
fn copy_at(place: Option<GroupId>, bfid: Bfid) -> Option<Name>
    ensures { result ≡ option_map (λ g. words.copy_name g bfid) place }
{
    match place {
        None => None,
        Some(group) => Some(copy_name(group, bfid)),
    }
}

impl Names {
    /// Of most calls: the worker.
    pub fn of_worker(worker: u32) -> Names
        ensures { names_in result ≡ Worker worker ∷ [] }
    {
        Names {
            first: Name::Worker { worker },
            second: None,
            third: None,
        }
    }

    /// Of the steps of one copy: the copy, in place of the worker.
    pub fn of_copy(group: GroupId, bfid: Bfid) -> Names
        ensures { names_in result ≡ words.copy_name group bfid ∷ [] }
    {
        Names {
            first: copy_name(group, bfid),
            second: None,
            third: None,
        }
    }

    /// Of the end of a put: the worker, and the copies for which it asked.
    pub fn of_put(worker: u32, bfid: Bfid, asked: [Option<GroupId>; 2]) -> Names
        ensures { names_in result ≡ Worker worker ∷ map (λ g. words.copy_name g bfid) (groups_of asked) }
    {
        let [first, second] = asked;
        Names {
            first: Name::Worker { worker },
            second: copy_at(first, bfid),
            third: copy_at(second, bfid),
        }
    }

    /// Of a call that uses a mount: the mount, and whose it is.
    pub fn of_mount(group: GroupId, mount: u64, owner: Owner) -> Names
        ensures { names_in result ≡ words.mount_name group mount ∷ owner_name group owner ∷ [] }
    {
        let second = match owner {
            Owner::Worker { worker } => Name::Worker { worker },
            Owner::Copy { bfid } => copy_name(group, bfid),
        };
        Names {
            first: mount_name(group, mount),
            second: Some(second),
            third: None,
        }
    }

    /// Of the end of a move: the worker, and the mounts of the source and the target.
    pub fn of_move(worker: u32, group: GroupId, source: u64, target: u64) -> Names
        ensures { names_in result ≡ Worker worker ∷ words.mount_name group source ∷ words.mount_name group target ∷ [] }
    {
        Names {
            first: Name::Worker { worker },
            second: Some(mount_name(group, source)),
            third: Some(mount_name(group, target)),
        }
    }
}
