//! Steps on files: write, remove, release, and a recall that ended.

ghost use Rattle.std.specs.Prelude.{◌≡◌, length, nat_lt};
ghost use Rattle.std.specs.Option.{option_copied};
ghost use Rattle.std.specs.FinMap as map;
ghost use Rattle.dm_base.specs.Limits.{files_limit};
ghost use Rattle.dm_daemon_tables.specs.Tables.{state_of};
ghost use Rattle.dm_daemon_conditions.specs.Tests.{inode_named as inode_named_of, is_dual as is_dual_of, is_dual_if, is_next as is_next_of, is_offline_if, is_offline_of, may_remove as may_remove_of, may_write as may_write_of};

use dm_base::{Bytes, FILE_LIMIT, FILES_LIMIT, Ino, NUMBER_LIMIT, Path};
use dm_daemon_tables::Tables;
use dm_durable::{Contents, Inode};

// Whether the change comes next after the last one.
pub(crate) fn is_next(last: u64, change: u64) -> bool
    ensures { result ≡ is_next_of last change }
{
    last < NUMBER_LIMIT && change == last + 1
}

// Whether there is a place for one name more.
pub(crate) fn has_room(tables: &Tables) -> bool
    ensures { result ≡ nat_lt (map.len (state_of tables.now).names) files_limit }
{
    (tables.files() as u64) < FILES_LIMIT
}

pub(crate) fn may_write(tables: &Tables, path: &Path, change: u64, bytes: &Bytes) -> bool
    ensures { result ≡ may_write_of (state_of tables.now) path.now change bytes.now }
{
    if !is_next(tables.change(), change) || bytes.len() as u64 > FILE_LIMIT {
        return false;
    }
    tables.ino(path.bytes()).is_some() || has_room(tables)
}

pub(crate) fn may_remove(tables: &Tables, path: &Path, change: u64) -> bool
    ensures { result ≡ may_remove_of (state_of tables.now) path.now change }
{
    is_next(tables.change(), change) && tables.ino(path.bytes()).is_some()
}

// The inode that the path leads to.
pub(crate) fn inode_named<'a>(tables: &'a Tables, path: &Path) -> Option<&'a Inode>
    ensures { option_copied result ≡ inode_named_of (state_of tables.now).inodes (map.get (state_of tables.now).names path.now) }
{
    match tables.ino(path.bytes()) {
        Some(ino) => tables.inode(ino),
        None => None,
    }
}

// The file is dual-state.
pub(crate) fn may_release(tables: &Tables, path: &Path) -> bool
    ensures { result ≡ is_dual_if (inode_named_of (state_of tables.now).inodes (map.get (state_of tables.now).names path.now)) }
{
    is_dual(inode_named(tables, path))
}

fn is_dual(inode: Option<&Inode>) -> bool
    ensures { result ≡ is_dual_if (option_copied inode.entry) }
{
    match inode {
        Some(inode) => has_both(&inode.contents),
        None => false,
    }
}

// Bytes, and a bitfile of the same bytes.
fn has_both(contents: &Contents) -> bool
    ensures { result ≡ is_dual_of contents.now }
{
    match contents {
        Contents::Dual { bytes: _, bfid: _ } => true,
        Contents::Regular { bytes: _ }
        | Contents::Making { bytes: _, bfid: _ }
        | Contents::Offline { len: _, bfid: _ } => false,
    }
}

// The inode is offline, and as long as the bytes.
pub(crate) fn may_be_taken(tables: &Tables, ino: Ino, bytes: &Bytes) -> bool
    ensures { result ≡ is_offline_if (length bytes.now) (map.get (state_of tables.now).inodes ino.0) }
{
    is_offline(tables.inode(ino), bytes.len() as u64)
}

fn is_offline(inode: Option<&Inode>, length: u64) -> bool
    ensures { result ≡ is_offline_if length (option_copied inode.entry) }
{
    match inode {
        Some(inode) => has_length_alone(&inode.contents, length),
        None => false,
    }
}

// This length, and a bitfile.
fn has_length_alone(contents: &Contents, length: u64) -> bool
    ensures { result ≡ is_offline_of length contents.now }
{
    match contents {
        Contents::Offline { len, bfid: _ } => *len == length,
        Contents::Regular { bytes: _ }
        | Contents::Making { bytes: _, bfid: _ }
        | Contents::Dual { bytes: _, bfid: _ } => false,
    }
}
