//! A record that may be next.

ghost use Rattle.std.specs.Prelude.{◌≡◌, ◌↔◌, IsTrue};
ghost use Rattle.dm_durable.specs.DaemonConditions.{MayFollow};
ghost use Rattle.dm_daemon_tables.specs.Tables.{state_of};
ghost use Rattle.dm_daemon_conditions.specs.Tests.{may_be_next, may_step as may_step_of};

use crate::{deletes, dumps, files, puts};
use dm_base::{AGE_LIMIT, Secs};
use dm_daemon_tables::Tables;
use dm_durable::{DaemonRecord, DaemonStep};

/// Whether the record may be next in the tables: its time isn't less than theirs, and its step may be done
/// (docs/DEFINITIONS.md, "The daemon's records"). It takes no memory.
pub fn may_follow(tables: &Tables, next: &DaemonRecord) -> bool
    ensures { IsTrue result ↔ MayFollow (state_of tables.now) next.now }
{
    may_come(tables, next)
}

// The same as the definition's test.
fn may_come(tables: &Tables, next: &DaemonRecord) -> bool
    ensures { result ≡ may_be_next (state_of tables.now) next.now }
{
    tables.time().0 <= next.time.0 && may_step(tables, next.time, &next.step)
}

// Whether the step may be done at the time of its record.
fn may_step(tables: &Tables, now: Secs, step: &DaemonStep) -> bool
    ensures { result ≡ may_step_of (state_of tables.now) now.0 step.now }
{
    match step {
        DaemonStep::Write {
            path,
            change,
            bytes,
        } => files::may_write(tables, path, *change, bytes),
        DaemonStep::Remove { path, change } => files::may_remove(tables, path, *change),
        DaemonStep::BeginPut { path, bfid, groups } => {
            puts::may_begin_put(tables, path, *bfid, groups.as_slice())
        }
        DaemonStep::Stored { bfid, group } => puts::may_store(tables.entry(*bfid), *group),
        DaemonStep::EndPut { ino, bfid, dual } => puts::may_end_put(tables, *ino, *bfid, *dual),
        DaemonStep::Release { path } => files::may_release(tables, path),
        DaemonStep::Taken { ino, bytes } => files::may_be_taken(tables, *ino, bytes),
        DaemonStep::Dump { name } => dumps::may_dump(tables, name),
        DaemonStep::Undump { name } => tables.dump(name.bytes()).is_some(),
        DaemonStep::Restore {
            name,
            path,
            target,
            change,
        } => dumps::may_restore(tables, now, name, path, target, *change),
        DaemonStep::HardDelete { bfids } => {
            deletes::may_hard_delete(tables, now, bfids.as_slice())
        }
        DaemonStep::Dropped { bfid } => deletes::is_dropping(tables.entry(*bfid)),
        DaemonStep::Restart => tables.has_making(),
        DaemonStep::Age { age } => *age <= AGE_LIMIT,
    }
}
