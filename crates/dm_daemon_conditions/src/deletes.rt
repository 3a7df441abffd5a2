//! Steps that delete.

ghost use Rattle.std.specs.Prelude.{◌≡◌, nat_le};
ghost use Rattle.std.specs.Option.{option_copied};
ghost use Rattle.dm_durable.specs.Entries.{is_due as is_due_of, is_old_at};
ghost use Rattle.dm_daemon_tables.specs.Tables.{state_of};
ghost use Rattle.dm_daemon_conditions.specs.Tests.{is_due_if, is_dropping_if, least_after, may_hard_delete as may_hard_delete_of, may_take as may_take_of};

use dm_base::{Bfid, Secs};
use dm_daemon_tables::Tables;
use dm_durable::Entry;

// There is a bitfile, they ascend, and each may be taken.
pub(crate) fn may_hard_delete(tables: &Tables, now: Secs, bfids: &[Bfid]) -> bool
    ensures { result ≡ may_hard_delete_of (state_of tables.now) now.0 bfids.now }
{
    !bfids.is_empty() && may_take(tables, now, bfids)
}

fn may_take(tables: &Tables, now: Secs, bfids: &[Bfid]) -> bool
    ensures { result ≡ may_take_of (state_of tables.now) now.0 0 bfids.now }
{
    let mut last = None;
    for bfid in bfids {
        if !is_past(last, *bfid) || !is_due(tables.entry(*bfid), now, tables.age()) {
            return false;
        }
        last = Some(*bfid);
    }
    true
}

// The identifier lies past the one before it, if there is one.
fn is_past(last: Option<Bfid>, bfid: Bfid) -> bool
    ensures { result ≡ nat_le (least_after last) bfid.0 }
{
    match last {
        Some(last) => last.0 < bfid.0,
        None => true,
    }
}

// The entry may be taken by a hard delete.
fn is_due(entry: Option<&Entry>, now: Secs, age: u64) -> bool
    ensures { result ≡ is_due_if now.0 age (option_copied entry.entry) }
{
    match entry {
        Some(entry) => may_be_deleted(entry, now, age),
        None => false,
    }
}

fn may_be_deleted(entry: &Entry, now: Secs, age: u64) -> bool
    ensures { result ≡ is_due_of now.0 age entry.now }
{
    !entry.dropping && is_old(entry.gone, now, age)
}

// The deletion time is the age old.
fn is_old(gone: Option<Secs>, now: Secs, age: u64) -> bool
    ensures { result ≡ is_old_at now.0 age gone }
{
    match gone {
        Some(since) => age <= now.0.saturating_sub(since.0),
        None => false,
    }
}

pub(crate) fn is_dropping(entry: Option<&Entry>) -> bool
    ensures { result ≡ is_dropping_if (option_copied entry.entry) }
{
    match entry {
        Some(entry) => entry.dropping,
        None => false,
    }
}
