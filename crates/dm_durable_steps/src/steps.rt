//! All steps of the daemon's tables.

ghost use Rattle.std.specs.Prelude.{◌≡◌, IfOk};
ghost use Rattle.dm_durable.specs.Daemon.{after_record, after_step as after_step_of, after_stop, empty_tables};
ghost use Rattle.dm_durable_steps.specs.Steps.{IsLater};

use crate::entries::{StoredBy, drop_all};
use crate::inodes::{IsMaking, IsRecalled};
use crate::{dumps, files, puts, restart};
use dm_base::{NoMemory, Secs};
use dm_durable::{DaemonRecord, DaemonStep, DaemonTables};
use dm_tables::{Numbers, Texts};
use std::alloc::Global;

/// The tables of a site before the first record: no file, and puts count from `first`. It takes no memory.
pub fn empty_daemon(alloc: Global, site: u64, first: u64, age: u64) -> DaemonTables
    ensures { result ≡ empty_tables site first age }
{
    DaemonTables {
        site,
        first,
        begun_age: age,
        time: Secs(0),
        change: 0,
        counter: first,
        age,
        names: Texts::empty(alloc),
        inodes: Numbers::empty(alloc),
        entries: Numbers::empty(alloc),
        dumps: Texts::empty(alloc),
    }
}

/// The tables after the record: its time, and then its step. It is done whether it may follow or not: that is for the
/// caller to ask.
pub fn daemon_after_record(
    alloc: Global,
    mut tables: DaemonTables,
    journalled: DaemonRecord,
) -> Result<DaemonTables, NoMemory>
    ensures { IfOk result (λ t. t ≡ after_record tables journalled) }
{
    let DaemonRecord { time, step } = journalled;
    tables.time = time;
    after_step(alloc, tables, step)
}

/// What a stop and a start leave of the tables: each put that has not ended is over.
pub fn daemon_after_stop(alloc: Global, tables: DaemonTables) -> Result<DaemonTables, NoMemory>
    ensures { IfOk result (λ t. t ≡ after_stop tables) }
{
    if tables.inodes.any(&IsMaking) {
        return restart::restart(alloc, tables);
    }
    Ok(tables)
}

fn after_step(
    alloc: Global,
    mut tables: DaemonTables,
    step: DaemonStep,
) -> Result<DaemonTables, NoMemory>
    ensures { IfOk result (λ t. t ≡ after_step_of tables step) }
{
    match step {
        DaemonStep::Write {
            path,
            change,
            bytes,
        } => files::write(alloc, tables, &path, change, bytes),
        DaemonStep::Remove { path, change } => files::remove(tables, &path, change),
        DaemonStep::BeginPut { path, bfid, groups } => {
            puts::begin_put(alloc, tables, &path, bfid, groups.as_slice())
        }
        DaemonStep::Stored { bfid, group } => {
            tables.entries.edit(bfid.0, &StoredBy { alloc, group })?;
            Ok(tables)
        }
        DaemonStep::EndPut { ino, bfid, dual } => puts::end_put(tables, ino, bfid, dual),
        DaemonStep::Release { path } => files::release(tables, &path),
        DaemonStep::Taken { ino, bytes } => {
            tables
                .inodes
                .edit(u128::from(ino.0), &IsRecalled { alloc, bytes })?;
            Ok(tables)
        }
        rest @ (DaemonStep::Dump { .. }
        | DaemonStep::Undump { .. }
        | DaemonStep::Restore { .. }
        | DaemonStep::HardDelete { .. }
        | DaemonStep::Dropped { .. }
        | DaemonStep::Restart
        | DaemonStep::Age { .. }) => after_later_step(alloc, tables, rest),
    }
}

// The same of the steps on dumps, of a hard delete, of a start and of an age.
fn after_later_step(
    alloc: Global,
    mut tables: DaemonTables,
    step: DaemonStep,
) -> Result<DaemonTables, NoMemory>
    requires { IsLater step }
    ensures { IfOk result (λ t. t ≡ after_step_of tables step) }
{
    match step {
        DaemonStep::Write { .. }
        | DaemonStep::Remove { .. }
        | DaemonStep::BeginPut { .. }
        | DaemonStep::Stored { .. }
        | DaemonStep::EndPut { .. }
        | DaemonStep::Release { .. }
        | DaemonStep::Taken { .. } => unreachable!(),
        DaemonStep::Dump { name } => dumps::dump(alloc, tables, &name),
        DaemonStep::Undump { name } => {
            let _dump = tables.dumps.remove(name.bytes());
            Ok(tables)
        }
        DaemonStep::Restore {
            name,
            path,
            target,
            change,
        } => dumps::restore(alloc, tables, &name, &path, &target, change),
        DaemonStep::HardDelete { bfids } => {
            drop_all(&mut tables.entries, bfids.as_slice())?;
            Ok(tables)
        }
        DaemonStep::Dropped { bfid } => {
            let _entry = tables.entries.remove(bfid.0);
            Ok(tables)
        }
        DaemonStep::Restart => restart::restart(alloc, tables),
        DaemonStep::Age { age } => dumps::set_age(alloc, tables, age),
    }
}
