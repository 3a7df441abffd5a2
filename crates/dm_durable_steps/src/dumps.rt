//! Steps on dumps.

ghost use Rattle.std.specs.Prelude.{◌≡◌, IfOk, option_map};
ghost use Rattle.std.specs.FinMap as map;
ghost use Rattle.std.specs.Option.{option_copied};
ghost use Rattle.dm_durable.specs.Daemon.{after_restore};
ghost use Rattle.dm_durable.specs.Dumps.{as_restored as as_restored_of, bitfile_dumped as bitfile_dumped_of, file_dumped as file_dumped_of, file_dumped_if, file_in as file_in_of, files_dumped as files_dumped_of, new_dump as new_dump_of, with_least};
ghost use Rattle.dm_tables.specs.Rows.{map_values};

use crate::entries::name_if;
use crate::files::name_of;
use dm_base::{Bfid, Bytes, DumpName, Ino, NoMemory, Path, Secs};
use dm_durable::{Contents, DaemonTables, Dump, DumpInode, Inode};
use dm_tables::{Change, Numbers, Texts};
use std::alloc::Global;

// All files as they are now are kept under the name.
pub(crate) fn dump(
    alloc: Global,
    mut tables: DaemonTables,
    name: &DumpName,
) -> Result<DaemonTables, NoMemory>
    ensures { IfOk result (λ t. t ≡ record tables { dumps = map.insert tables.dumps name.now (new_dump_of tables.time.0 tables.age tables.names tables.inodes) }) }
{
    let made = tables.time;
    let dump = new_dump(alloc, made, tables.age, &tables.names, &tables.inodes)?;
    let key = Bytes::from_vec(Vec::from_slice(alloc, name.bytes())?);
    tables.dumps.insert(key, dump)?;
    Ok(tables)
}

fn new_dump(
    alloc: Global,
    made: Secs,
    age: u64,
    names: &Texts<Ino>,
    inodes: &Numbers<Inode>,
) -> Result<Dump, NoMemory>
    ensures { IfOk result (λ dump. dump ≡ new_dump_of made.0 age names.now inodes.now) }
{
    Ok(Dump {
        made,
        least: age,
        files: files_dumped(alloc, names, inodes)?,
    })
}

// All files, as a dump has them.
fn files_dumped(
    alloc: Global,
    names: &Texts<Ino>,
    inodes: &Numbers<Inode>,
) -> Result<Texts<DumpInode>, NoMemory>
    ensures { IfOk result (λ files. files ≡ files_dumped_of names.now inodes.now) }
{
    let mut files = Texts::empty(alloc);
    for (path, ino) in names.entries() {
        let file = file_dumped_of_ino(alloc, inodes, *ino)?;
        files.insert(path.copied(alloc)?, file)?;
    }
    Ok(files)
}

// The file of an inode as a dump has it. A name leads to an inode in every run.
fn file_dumped_of_ino(
    alloc: Global,
    inodes: &Numbers<Inode>,
    ino: Ino,
) -> Result<DumpInode, NoMemory>
    ensures { IfOk result (λ file. file ≡ file_dumped_if (map.get inodes.now ino.0)) }
{
    match inodes.get(u128::from(ino.0)) {
        Some(inode) => file_dumped(alloc, &inode.contents),
        None => Ok(DumpInode::Kept {
            bytes: Bytes::from_vec(Vec::new(alloc)),
        }),
    }
}

// A file as a dump has it: its bytes where they are on the disk alone, and else its bitfile.
fn file_dumped(alloc: Global, contents: &Contents) -> Result<DumpInode, NoMemory>
    ensures { IfOk result (λ file. file ≡ file_dumped_of contents.now) }
{
    match contents {
        Contents::Regular { bytes } | Contents::Making { bytes, bfid: _ } => Ok(DumpInode::Kept {
            bytes: bytes.copied(alloc)?,
        }),
        Contents::Dual { bytes, bfid } => Ok(DumpInode::Named {
            len: bytes.len() as u64,
            bfid: *bfid,
        }),
        Contents::Offline { len, bfid } => Ok(DumpInode::Named {
            len: *len,
            bfid: *bfid,
        }),
    }
}

// A file of the dump is a new file of the target path, if it is there.
pub(crate) fn restore(
    alloc: Global,
    mut tables: DaemonTables,
    name: &DumpName,
    path: &Path,
    target: &Path,
    change: u64,
) -> Result<DaemonTables, NoMemory>
    ensures { IfOk result (λ t. t ≡ after_restore tables target.now change (file_in_of (map.get tables.dumps name.now) path.now)) }
{
    tables.change = change;
    let Some(file) = file_in(&tables.dumps, name, path) else {
        return Ok(tables);
    };
    let named = bitfile_dumped(file);
    let contents = as_restored(alloc, file)?;
    tables.names.insert(name_of(alloc, target)?, Ino(change))?;
    tables
        .inodes
        .insert(u128::from(change), Inode { change, contents })?;
    name_if(&mut tables.entries, named)?;
    Ok(tables)
}

// The file of the path in the dump, where both are there.
fn file_in<'a>(dumps: &'a Texts<Dump>, name: &DumpName, path: &Path) -> Option<&'a DumpInode>
    ensures { option_copied result ≡ file_in_of (map.get dumps.now name.now) path.now }
{
    match dumps.get(name.bytes()) {
        Some(dump) => dump.files.get(path.bytes()),
        None => None,
    }
}

// The bitfile that it names.
fn bitfile_dumped(file: &DumpInode) -> Option<Bfid>
    ensures { option_map (λ b. b.0) result ≡ bitfile_dumped_of file.now }
{
    match file {
        DumpInode::Kept { bytes: _ } => None,
        DumpInode::Named { len: _, bfid } => Some(*bfid),
    }
}

// What it is as a file again.
fn as_restored(alloc: Global, file: &DumpInode) -> Result<Contents, NoMemory>
    ensures { IfOk result (λ contents. contents ≡ as_restored_of file.now) }
{
    match file {
        DumpInode::Kept { bytes } => Ok(Contents::Regular {
            bytes: bytes.copied(alloc)?,
        }),
        DumpInode::Named { len, bfid } => Ok(Contents::Offline {
            len: *len,
            bfid: *bfid,
        }),
    }
}

// The age in force is this from now on.
pub(crate) fn set_age(
    alloc: Global,
    mut tables: DaemonTables,
    age: u64,
) -> Result<DaemonTables, NoMemory>
    ensures { IfOk result (λ t. t ≡ record tables { age = age; dumps = map_values (λ name d. with_least age d) tables.dumps }) }
{
    tables.age = age;
    tables.dumps = tables.dumps.mapped(alloc, &NewAge { age })?;
    Ok(tables)
}

// The same, as a change of each dump.
#[derive(Drop)]
struct NewAge {
    age: u64,
}

impl Change<Dump> for NewAge {
    ghost use Rattle.dm_durable.specs.Dumps.{with_least};

    ghost changed = { λ it. with_least it.age };

    fn change(&self, row: Dump) -> Dump {
        Dump {
            least: row.least.min(self.age),
            ..row
        }
    }
}
