//! Steps of puts: one begins, or ends.

ghost use Rattle.std.specs.Prelude.{◌≡◌, ◌<◌, IfOk};
ghost use Rattle.std.specs.FinMap as map;
ghost use Rattle.dm_durable.specs.Daemon.{after_begin_put, after_begin_put_at, after_end_put};

use crate::entries::{let_go, let_go_if, new_entry};
use crate::files::ino_of;
use crate::inodes::{BeginsPut, EndsPut};
use dm_base::{Bfid, GroupId, Ino, NoMemory, Path};
use dm_durable::DaemonTables;
use dm_inodes::{bitfile, length_online};
use std::alloc::Global;

// A put of the file's bytes begins, if it is there: it names the bitfile, which has an entry.
pub(crate) fn begin_put(
    alloc: Global,
    tables: DaemonTables,
    path: &Path,
    bfid: Bfid,
    groups: &[GroupId],
) -> Result<DaemonTables, NoMemory>
    ensures { IfOk result (λ t. t ≡ after_begin_put_at tables bfid groups.now (map.get tables.names path.now)) }
{
    match ino_of(&tables.names, path) {
        Some(ino) => begin_put_of(alloc, tables, ino, bfid, groups),
        None => Ok(tables),
    }
}

// The same of its inode, if it is there.
fn begin_put_of(
    alloc: Global,
    mut tables: DaemonTables,
    ino: Ino,
    bfid: Bfid,
    groups: &[GroupId],
) -> Result<DaemonTables, NoMemory>
    ensures { IfOk result (λ t. t ≡ after_begin_put tables bfid groups.now ino.0 (map.get tables.inodes ino.0)) }
{
    let key = u128::from(ino.0);
    let Some(inode) = tables.inodes.get(key) else {
        return Ok(tables);
    };
    let named = bitfile(&inode.contents);
    let entry = new_entry(alloc, length_online(&inode.contents), groups)?;
    tables.counter = tables.counter.saturating_add(1);
    tables.inodes.edit(key, &BeginsPut { alloc, bfid })?;
    let_go_if(&mut tables.entries, &tables.inodes, tables.time, named)?;
    tables.entries.insert(bfid.0, entry)?;
    Ok(tables)
}

// A put ends: the inode is dual-state, or it is regular and lets the bitfile go.
pub(crate) fn end_put(
    mut tables: DaemonTables,
    ino: Ino,
    bfid: Bfid,
    dual: bool,
) -> Result<DaemonTables, NoMemory>
    ensures { IfOk result (λ t. t ≡ after_end_put tables ino.0 bfid.0 dual) }
{
    tables.inodes.edit(u128::from(ino.0), &EndsPut { dual })?;
    if dual {
        return Ok(tables);
    }
    let_go(&mut tables.entries, &tables.inodes, tables.time, bfid)?;
    Ok(tables)
}
