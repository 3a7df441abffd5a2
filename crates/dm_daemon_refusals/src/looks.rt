//! Looks at a file.

ghost use Rattle.std.specs.Prelude.{◌≡◌};
ghost use Rattle.std.specs.Option.{option_map};
ghost use Rattle.std.specs.FinMap as map;
ghost use Rattle.dm_daemon_tables.specs.Tables.{state_of as tables_of};
ghost use Rattle.dm_model.specs.Files.{file_named, is_away as is_away_of, is_dual as is_dual_of, is_regular as is_regular_of, state_of as state_of_file};

use dm_base::{FileState, Ino, Path};
use dm_daemon_tables::Tables;
use dm_durable::{Contents, Inode};
use dm_requests::Requests;

/// The file of a path, or none: the number of its inode, and the inode.
pub fn file<'a>(tables: &'a Tables, path: &Path) -> Option<(Ino, &'a Inode)>
    ensures { option_map (λ e. record { number = e.0.0; inode = e.1.now }) result ≡ file_named (tables_of tables.now).inodes (map.get (tables_of tables.now).names path.now) }
{
    let Some(ino) = tables.ino(path.bytes()) else {
        return None;
    };
    match tables.inode(ino) {
        Some(inode) => Some((ino, inode)),
        None => None,
    }
}

/// The state of a file whose inode has this number and holds this.
pub fn state(requests: &Requests, ino: Ino, contents: &Contents) -> FileState
    ensures { result ≡ state_of_file requests.now.rows.rows ino.0 contents.now }
{
    match contents {
        Contents::Regular { bytes: _ } => FileState::Regular,
        Contents::Making { bytes: _, bfid } => {
            if requests.has_open_put(*bfid) {
                FileState::Migrating
            } else {
                FileState::Regular
            }
        }
        Contents::Dual { bytes: _, bfid: _ } => FileState::Dual,
        Contents::Offline { len: _, bfid: _ } => {
            if requests.has_open_recall(ino) {
                FileState::Unmigrating
            } else {
                FileState::Offline
            }
        }
    }
}

pub(crate) fn is_regular(state: FileState) -> bool
    ensures { result ≡ is_regular_of state }
{
    match state {
        FileState::Regular => true,
        FileState::Migrating | FileState::Dual | FileState::Offline | FileState::Unmigrating => {
            false
        }
    }
}

pub(crate) fn is_dual(state: FileState) -> bool
    ensures { result ≡ is_dual_of state }
{
    match state {
        FileState::Dual => true,
        FileState::Regular | FileState::Migrating | FileState::Offline | FileState::Unmigrating =>
            false,
    }
}

pub(crate) fn is_away(state: FileState) -> bool
    ensures { result ≡ is_away_of state }
{
    match state {
        FileState::Offline | FileState::Unmigrating => true,
        FileState::Regular | FileState::Migrating | FileState::Dual => false,
    }
}
