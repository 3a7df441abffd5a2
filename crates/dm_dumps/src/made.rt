//! How a dump is made.

ghost use Rattle.std.specs.Prelude.{◌≡◌, IfOk, OnOk};
ghost use Rattle.std.specs.Option.{option_copied};
ghost use Rattle.dm_durable.specs.Dumps.{file_dumped, file_dumped_if, new_dump};

use crate::dump::KeptDump;
use dm_base::{Bytes, Ino, NoMemory, Path, Secs};
use dm_durable::{Contents, DumpInode, Inode};
use dm_inodes::Inodes;
use dm_rows::TextRows;
use std::alloc::Global;

impl KeptDump {
    /// A dump of all files, at this time and with this age in force. Bytes are copied of the files that have them on
    /// the disk alone.
    pub fn of_files(
        alloc: Global,
        made: Secs,
        age: u64,
        names: &TextRows<Path, Ino>,
        inodes: &Inodes,
    ) -> Result<KeptDump, NoMemory>
        ensures { IfOk result (λ dump. dump ≡ new_dump made.0 age names.now.rows inodes.now.rows.rows) }
    {
        let mut dump = KeptDump::empty(alloc, made, age);
        for at in 0..names.len() {
            let Some((path, ino)) = names.entry(at) else {
                return Ok(dump);
            };
            let file = file_of(alloc, inodes.get(*ino))?;
            dump.insert(alloc, path.copied(alloc)?, file)?;
        }
        Ok(dump)
    }
}

// A file as a dump has it, of what its name leads to.
fn file_of(alloc: Global, inode: Option<&Inode>) -> Result<DumpInode, NoMemory>
    ensures { IfOk result (λ file. file ≡ file_dumped_if (option_copied inode.entry)) }
{
    match inode {
        Some(inode) => file_with(alloc, &inode.contents),
        None => Ok(DumpInode::Kept {
            bytes: Bytes::from_vec(Vec::new(alloc)),
        }),
    }
}

// A file as a dump has it, of what the file holds.
fn file_with(alloc: Global, contents: &Contents) -> Result<DumpInode, NoMemory>
    ensures { IfOk result (λ file. file ≡ file_dumped contents.now) }
{
    match contents {
        Contents::Regular { bytes } | Contents::Making { bytes, bfid: _ } => Ok(DumpInode::Kept {
            bytes: bytes.copied(alloc)?,
        }),
        Contents::Dual { bytes, bfid } => Ok(DumpInode::Named {
            len: bytes.len() as u64,
            bfid: *bfid,
        }),
        Contents::Offline { len, bfid } => Ok(DumpInode::Named {
            len: *len,
            bfid: *bfid,
        }),
    }
}
