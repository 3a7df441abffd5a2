//! Steps on files: one is written, removed, released, or has its bytes again.

ghost use Rattle.std.specs.Prelude.{◌≡◌, ◌<◌, IfOk};
ghost use Rattle.std.specs.FinMap as map;
ghost use Rattle.dm_durable.specs.Daemon.{after_release, after_remove, after_write, number_or as number_or_of, with_inode as with_inode_of};

use crate::entries::let_go_if;
use crate::inodes::{LeavesDisk, bitfile_at};
use dm_base::{Bytes, Ino, NoMemory, Path};
use dm_durable::{Contents, DaemonTables, Inode};
use dm_tables::Texts;
use std::alloc::Global;

// A file is written: its inode, a new one where the path had none, is regular.
pub(crate) fn write(
    alloc: Global,
    mut tables: DaemonTables,
    path: &Path,
    change: u64,
    bytes: Bytes,
) -> Result<DaemonTables, NoMemory>
    ensures { IfOk result (λ t. t ≡ after_write tables path.now change bytes) }
{
    let ino = number_or(&tables.names, path, change);
    let name = name_of(alloc, path)?;
    tables.change = change;
    tables.names.insert(name, ino)?;
    let contents = Contents::Regular { bytes };
    with_inode(tables, ino, Inode { change, contents })
}

// The inode's row is this; what it named is let go.
fn with_inode(mut tables: DaemonTables, ino: Ino, inode: Inode) -> Result<DaemonTables, NoMemory>
    ensures { IfOk result (λ t. t ≡ with_inode_of tables ino.0 inode) }
{
    let key = u128::from(ino.0);
    let named = bitfile_at(&tables.inodes, key);
    tables.inodes.insert(key, inode)?;
    let_go_if(&mut tables.entries, &tables.inodes, tables.time, named)?;
    Ok(tables)
}

// A file is removed, if it is there.
pub(crate) fn remove(
    mut tables: DaemonTables,
    path: &Path,
    change: u64,
) -> Result<DaemonTables, NoMemory>
    ensures { IfOk result (λ t. t ≡ after_remove tables path.now change (map.get tables.names path.now)) }
{
    tables.change = change;
    let Some(ino) = ino_of(&tables.names, path) else {
        return Ok(tables);
    };
    let key = u128::from(ino.0);
    let named = bitfile_at(&tables.inodes, key);
    let _ = tables.names.remove(path.bytes());
    let _ = tables.inodes.remove(key);
    let_go_if(&mut tables.entries, &tables.inodes, tables.time, named)?;
    Ok(tables)
}

// The bytes of a file leave the disk, if it is there.
pub(crate) fn release(mut tables: DaemonTables, path: &Path) -> Result<DaemonTables, NoMemory>
    ensures { IfOk result (λ t. t ≡ after_release tables (map.get tables.names path.now)) }
{
    let Some(ino) = ino_of(&tables.names, path) else {
        return Ok(tables);
    };
    tables.inodes.edit(u128::from(ino.0), &LeavesDisk)?;
    Ok(tables)
}

// The number of the path's inode, if the path is there.
pub(crate) fn ino_of(names: &Texts<Ino>, path: &Path) -> Option<Ino>
    ensures { result ≡ map.get names.now path.now }
{
    names.get(path.bytes()).copied()
}

// The number of the path's inode, or that of a new one.
fn number_or(names: &Texts<Ino>, path: &Path, fresh: u64) -> Ino
    ensures { result.0 ≡ number_or_of (map.get names.now path.now) fresh }
{
    match ino_of(names, path) {
        Some(ino) => ino,
        None => Ino(fresh),
    }
}

// The path as the key of a table.
pub(crate) fn name_of(alloc: Global, path: &Path) -> Result<Bytes, NoMemory>
    ensures { IfOk result (λ name. name ≡ path.now) }
{
    Ok(Bytes::from_vec(Vec::from_slice(alloc, path.bytes())?))
}
