//! Steps of puts: one begins, a copy is stored, one ends.

ghost use Rattle.std.specs.Prelude.{◌≡◌, ◌&&◌, nat_eq, not};
ghost use Rattle.std.specs.List.{list_any};
ghost use Rattle.std.specs.Option.{option_copied};
ghost use Rattle.std.specs.FinMap as map;
ghost use Rattle.dm_durable.specs.Entries.{asks as asks_of, has_stored as has_stored_of, is_stored as is_stored_of};
ghost use Rattle.dm_daemon_tables.specs.Tables.{state_of};
ghost use Rattle.dm_daemon_conditions.specs.Tests.{are_groups as are_groups_of, are_one_or_two as are_one_or_two_of, is_group as is_group_of, is_making_if, is_making_of, is_next_bitfile as is_next_bitfile_of, may_be_asked as may_be_asked_of, is_stored_as as is_stored_as_of, may_be_made as may_be_made_of, may_be_made_if, may_begin_put as may_begin_put_of, may_store as may_store_of};

use crate::files::inode_named;
use dm_base::{Bfid, ENTRIES_LIMIT, GROUPS_LIMIT, GroupId, Ino, NUMBER_LIMIT, Path};
use dm_daemon_tables::Tables;
use dm_durable::{AskedCopy, Contents, Entry, Inode};

pub(crate) fn may_begin_put(tables: &Tables, path: &Path, bfid: Bfid, groups: &[GroupId]) -> bool
    ensures { result ≡ may_begin_put_of (state_of tables.now) path.now bfid groups.now }
{
    if !may_be_made(inode_named(tables, path)) {
        return false;
    }
    if !is_next_bitfile(tables, bfid) {
        return false;
    }
    if !may_be_asked(groups) {
        return false;
    }
    (tables.entries() as u64) < ENTRIES_LIMIT
}

// The bitfile is the site's next one, and its counter isn't past the last.
fn is_next_bitfile(tables: &Tables, bfid: Bfid) -> bool
    ensures { result ≡ is_next_bitfile_of (state_of tables.now) bfid }
{
    tables.counter() <= NUMBER_LIMIT && bfid.0 == Bfid::of(tables.site(), tables.counter()).0
}

// One group of those that there may be, or two that differ.
fn may_be_asked(groups: &[GroupId]) -> bool
    ensures { result ≡ may_be_asked_of groups.now }
{
    are_one_or_two(groups) && are_groups(groups)
}

// The file is regular, or of a put that has not ended.
fn may_be_made(inode: Option<&Inode>) -> bool
    ensures { result ≡ may_be_made_if (option_copied inode.entry) }
{
    match inode {
        Some(inode) => may_be_put(&inode.contents),
        None => false,
    }
}

fn may_be_put(contents: &Contents) -> bool
    ensures { result ≡ may_be_made_of contents.now }
{
    match contents {
        Contents::Regular { bytes: _ } | Contents::Making { bytes: _, bfid: _ } => true,
        Contents::Dual { bytes: _, bfid: _ } | Contents::Offline { len: _, bfid: _ } => false,
    }
}

// One group, or two that differ.
fn are_one_or_two(groups: &[GroupId]) -> bool
    ensures { result ≡ are_one_or_two_of groups.now }
{
    match groups {
        [_] => true,
        [first, second] => first.0 != second.0,
        _ => false,
    }
}

fn are_groups(groups: &[GroupId]) -> bool
    ensures { result ≡ are_groups_of groups.now }
{
    for group in groups {
        if !is_group(*group) {
            return false;
        }
    }
    true
}

fn is_group(group: GroupId) -> bool
    ensures { result ≡ is_group_of group }
{
    1 <= group.0 && group.0 <= GROUPS_LIMIT
}

// The entry isn't being dropped, and the group was asked for a copy that it hasn't stored.
pub(crate) fn may_store(entry: Option<&Entry>, group: GroupId) -> bool
    ensures { result ≡ may_store_of group.0 (option_copied entry.entry) }
{
    match entry {
        Some(entry) => waits_for(entry, group),
        None => false,
    }
}

fn waits_for(entry: &Entry, group: GroupId) -> bool
    ensures { result ≡ (not entry.now.dropping && (asks_of entry.now group.0 && not (has_stored_of entry.now group.0))) }
{
    if entry.dropping {
        return false;
    }
    let copies = entry.copies.as_slice();
    asks(copies, group) && !has_stored(copies, group)
}

fn asks(copies: &[AskedCopy], group: GroupId) -> bool
    ensures { result ≡ list_any (λ c. nat_eq c.group.0 group.0) copies.now }
{
    copies.iter().any(|copy| copy.group.0 == group.0)
}

fn has_stored(copies: &[AskedCopy], group: GroupId) -> bool
    ensures { result ≡ list_any (λ c. nat_eq c.group.0 group.0 && c.stored) copies.now }
{
    copies
        .iter()
        .any(|copy| copy.group.0 == group.0 && copy.stored)
}

// The inode's put of this bitfile has not ended, and its copies are all stored or not, as the record says.
pub(crate) fn may_end_put(tables: &Tables, ino: Ino, bfid: Bfid, dual: bool) -> bool
    ensures { result ≡ (is_making_if bfid (map.get (state_of tables.now).inodes ino.0) && is_stored_as_of dual (map.get (state_of tables.now).entries bfid.0)) }
{
    is_making(tables.inode(ino), bfid) && is_stored_as(tables.entry(bfid), dual)
}

fn is_making(inode: Option<&Inode>, bitfile: Bfid) -> bool
    ensures { result ≡ is_making_if bitfile (option_copied inode.entry) }
{
    match inode {
        Some(inode) => is_put_of(&inode.contents, bitfile),
        None => false,
    }
}

fn is_put_of(contents: &Contents, bitfile: Bfid) -> bool
    ensures { result ≡ is_making_of bitfile contents.now }
{
    match contents {
        Contents::Making { bytes: _, bfid } => bfid.0 == bitfile.0,
        Contents::Regular { bytes: _ }
        | Contents::Dual { bytes: _, bfid: _ }
        | Contents::Offline { len: _, bfid: _ } => false,
    }
}

fn is_stored_as(entry: Option<&Entry>, dual: bool) -> bool
    ensures { result ≡ is_stored_as_of dual (option_copied entry.entry) }
{
    match entry {
        Some(entry) => is_stored(entry) == dual,
        None => false,
    }
}

// Each group that was asked has stored its copy.
pub(crate) fn is_stored(entry: &Entry) -> bool
    ensures { result ≡ is_stored_of entry.now }
{
    entry.copies.as_slice().iter().all(|copy| copy.stored)
}
