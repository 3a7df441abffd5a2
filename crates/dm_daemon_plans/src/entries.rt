//! What the daemon knows of bitfiles, and the groups that are asked for copies.

ghost use Rattle.std.specs.Prelude.{◌≡◌, IfOk, map};
ghost use Rattle.std.specs.Option.{option_copied};
ghost use Rattle.dm_durable.specs.Entries.{asks as asks_of, has_stored as has_stored_of, is_due as is_due_of, is_old_at as is_old_at_time, is_stored as is_stored_of};
ghost use Rattle.dm_model.specs.DaemonCalls.{is_awaited as is_awaited_of, is_stored_if as is_stored_if_there};
ghost use Rattle.dm_model.specs.Files.{asked_by as asked_by_entry, groups_of as groups_in, places_of as places_of_groups};

use dm_base::{GroupId, Listed, NoMemory, Secs};
use dm_durable::{AskedCopy, Entry};
use std::alloc::{AllocError, Global};

fn asks(entry: &Entry, group: GroupId) -> bool
    ensures { result ≡ asks_of entry.now group.0 }
{
    entry
        .copies
        .as_slice()
        .iter()
        .any(|copy| copy.group.0 == group.0)
}

fn has_stored(entry: &Entry, group: GroupId) -> bool
    ensures { result ≡ has_stored_of entry.now group.0 }
{
    entry
        .copies
        .as_slice()
        .iter()
        .any(|copy| copy.group.0 == group.0 && copy.stored)
}

fn is_stored(entry: &Entry) -> bool
    ensures { result ≡ is_stored_of entry.now }
{
    entry.copies.as_slice().iter().all(|copy| copy.stored)
}

/// Whether the group is asked and hasn't stored.
pub(crate) fn is_awaited(entry: Option<&Entry>, group: GroupId) -> bool
    ensures { result ≡ is_awaited_of (option_copied entry.entry) group.0 }
{
    match entry {
        None => false,
        Some(entry) => asks(entry, group) && !has_stored(entry, group),
    }
}

pub(crate) fn is_stored_if(entry: Option<&Entry>) -> bool
    ensures { result ≡ is_stored_if_there (option_copied entry.entry) }
{
    match entry {
        None => false,
        Some(entry) => is_stored(entry),
    }
}

/// The groups of the two places that are filled.
pub(crate) fn groups_of(
    alloc: Global,
    asked: [Option<GroupId>; 2],
) -> Result<Listed<GroupId>, NoMemory>
    ensures { IfOk result (λ groups. groups ≡ groups_in asked) }
{
    let [first, second] = asked;
    match (first, second) {
        (None, None) => Ok(Listed::from_vec(Vec::new(alloc))),
        (Some(group), None) | (None, Some(group)) => {
            Ok(Listed::from_vec(Vec::from_slice(alloc, &[group])?))
        }
        (Some(first), Some(second)) => {
            Ok(Listed::from_vec(Vec::from_slice(alloc, &[first, second])?))
        }
    }
}

/// The two places that these groups fill, from the first on.
pub(crate) fn places_of(groups: &[GroupId]) -> [Option<GroupId>; 2]
    ensures { result ≡ places_of_groups groups.now }
{
    match groups {
        [] => [None, None],
        [group] => [Some(*group), None],
        [first, second, ..] => [Some(*first), Some(*second)],
    }
}

/// The groups that an entry asked, in order; none where there is no entry.
pub(crate) fn asked_by(alloc: Global, entry: Option<&Entry>) -> Result<Listed<GroupId>, NoMemory>
    ensures { IfOk result (λ groups. groups ≡ asked_by_entry (option_copied entry.entry)) }
{
    match entry {
        None => Ok(Listed::from_vec(Vec::new(alloc))),
        Some(entry) => Ok(Listed::from_vec(groups_asked(alloc, entry.copies.as_slice())?)),
    }
}

/// The groups that are asked for these copies.
pub(crate) fn groups_asked(alloc: Global, copies: &[AskedCopy]) -> Result<Vec<GroupId>, AllocError>
    ensures { IfOk result (λ groups. groups.items ≡ map (λ c. c.group) copies.now) }
{
    copies.iter().map(|copy| copy.group).collect(alloc)
}

/// Whether the entry may be taken by a hard delete at this time.
pub(crate) fn is_due(now: Secs, age: u64, entry: &Entry) -> bool
    ensures { result ≡ is_due_of now.0 age entry.now }
{
    !entry.dropping && is_old_at(now, age, entry.gone)
}

// Whether a deletion time is an age old, or older.
fn is_old_at(now: Secs, age: u64, gone: Option<Secs>) -> bool
    ensures { result ≡ is_old_at_time now.0 age gone }
{
    match gone {
        None => false,
        Some(since) => age <= now.0.saturating_sub(since.0),
    }
}
