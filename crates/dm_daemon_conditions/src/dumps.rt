//! Steps on dumps.

ghost use Rattle.std.specs.Prelude.{◌≡◌, ◌&&◌, is_none, nat_lt};
ghost use Rattle.std.specs.Option.{option_copied};
ghost use Rattle.std.specs.FinMap as map;
ghost use Rattle.dm_base.specs.Limits.{dumps_limit};
ghost use Rattle.dm_durable.specs.Dumps.{is_young as is_young_of};
ghost use Rattle.dm_durable.specs.Entries.{is_complete as is_complete_of};
ghost use Rattle.dm_daemon_tables.specs.Tables.{state_of};
ghost use Rattle.dm_daemon_conditions.specs.Tests.{has_young as has_young_of, is_complete_if, is_there as is_there_of, is_there_if as is_there_if_of, may_restore as may_restore_of};

use crate::files::{has_room, is_next};
use crate::puts::is_stored;
use dm_base::{DUMPS_LIMIT, DumpName, Path, Secs};
use dm_daemon_tables::Tables;
use dm_dumps::KeptDump;
use dm_durable::{DumpInode, Entry};

pub(crate) fn may_dump(tables: &Tables, name: &DumpName) -> bool
    ensures { result ≡ (is_none (map.get (state_of tables.now).dumps name.now) && nat_lt (map.len (state_of tables.now).dumps) dumps_limit) }
{
    tables.dump(name.bytes()).is_none() && (tables.dumps() as u64) < DUMPS_LIMIT
}

pub(crate) fn may_restore(
    tables: &Tables,
    now: Secs,
    name: &DumpName,
    path: &Path,
    target: &Path,
    change: u64,
) -> bool
    ensures { result ≡ may_restore_of (state_of tables.now) now.0 name.now path.now target.now change }
{
    if !has_young(tables, now, path, tables.dump(name.bytes())) {
        return false;
    }
    if tables.ino(target.bytes()).is_some() {
        return false;
    }
    has_room(tables) && is_next(tables.change(), change)
}

// The dump has the path, is young, and the bytes of the file are there.
fn has_young(tables: &Tables, now: Secs, path: &Path, dump: Option<&KeptDump>) -> bool
    ensures { result ≡ has_young_of (state_of tables.now).entries now.0 path.now (option_copied dump.entry) }
{
    match dump {
        Some(dump) => is_young(dump, now) && is_there_if(tables, dump.get(path.bytes())),
        None => false,
    }
}

fn is_young(dump: &KeptDump, now: Secs) -> bool
    ensures { result ≡ is_young_of now.0 dump.now }
{
    now.0.saturating_sub(dump.made().0) < dump.least()
}

fn is_there_if(tables: &Tables, file: Option<&DumpInode>) -> bool
    ensures { result ≡ is_there_if_of (state_of tables.now).entries (option_copied file.entry) }
{
    match file {
        Some(file) => is_there(tables, file),
        None => false,
    }
}

fn is_there(tables: &Tables, file: &DumpInode) -> bool
    ensures { result ≡ is_there_of (state_of tables.now).entries file.now }
{
    match file {
        DumpInode::Kept { .. } => true,
        DumpInode::Named { bfid, .. } => has_complete(tables.entry(*bfid)),
    }
}

fn has_complete(entry: Option<&Entry>) -> bool
    ensures { result ≡ is_complete_if (option_copied entry.entry) }
{
    match entry {
        Some(entry) => is_complete(entry),
        None => false,
    }
}

fn is_complete(entry: &Entry) -> bool
    ensures { result ≡ is_complete_of entry.now }
{
    is_stored(entry) && !entry.dropping
}
