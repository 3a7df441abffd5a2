//! Steps on files: write, remove, release, and a recall that ended.

ghost use Rattle.std.specs.Prelude.{◌≡◌, ◌<◌};
ghost use Rattle.std.specs.FinMap as map;
ghost use Rattle.dm_tables.specs.Rows.{adjust};
ghost use Rattle.dm_durable.specs.Inodes.{as_recalled, with_contents};
ghost use Rattle.dm_durable.specs.Daemon.{after_write, after_remove, after_release};
ghost use Rattle.dm_daemon_tables.specs.Tables.{state_of};

use crate::entries;
use crate::tables::{Tables, bitfile_in, number_or};
use dm_base::{Bytes, Ino, Path};
use dm_durable::{Contents, Inode};

impl Tables {
    // A file is written: its inode, a new one where the path had none, is regular.
    pub(crate) fn write(
        &mut self,
        mut name: Box<(Path, Ino)>,
        change: u64,
        bytes: Bytes,
        mut inode: Box<(u128, Inode)>,
    )
        requires name_place { 0 < self.old.names.spare }
        requires inode_place { 0 < self.old.inodes.rows.spare }
        ensures { state_of self.new ≡ after_write (state_of self.old) name.value.0 change bytes }
    {
        let ino = number_or(&self.names, name.0.bytes(), change);
        let named = bitfile_in(&self.inodes, ino);
        name_by(&mut name, ino);
        fill(
            &mut inode,
            ino,
            Inode {
                change,
                contents: Contents::Regular { bytes },
            },
        );
        self.change = change;
        self.names.insert_reserved(name);
        self.inodes.insert(inode);
        entries::let_go_if(&mut self.entries, &self.inodes, self.time, named);
    }

    // A file is removed, if it is there.
    pub(crate) fn remove(&mut self, path: &[u8], change: u64)
        ensures { state_of self.new ≡ after_remove (state_of self.old) path.now change (map.get (state_of self.old).names path.now) }
    {
        self.change = change;
        let Some(ino) = self.ino(path) else { return };
        let named = bitfile_in(&self.inodes, ino);
        let _name = self.names.take(path);
        self.inodes.remove(ino);
        entries::let_go_if(&mut self.entries, &self.inodes, self.time, named);
    }

    // The bytes of a file leave the disk, if it is there.
    pub(crate) fn release(&mut self, path: &[u8])
        ensures { state_of self.new ≡ after_release (state_of self.old) (map.get (state_of self.old).names path.now) }
    {
        let Some(ino) = self.ino(path) else { return };
        self.inodes.release(ino);
    }

    // The bytes of an inode were recalled.
    pub(crate) fn taken(&mut self, ino: Ino, bytes: Bytes)
        ensures { state_of self.new ≡ record (state_of self.old) { inodes = adjust (state_of self.old).inodes ino.0 (with_contents (as_recalled bytes)) } }
    {
        self.inodes.recall(ino, bytes);
    }
}

// The name leads to this inode.
pub(crate) fn name_by(row: &mut Box<(Path, Ino)>, ino: Ino)
    ensures path { row.new.value.0 ≡ row.old.value.0 }
    ensures ino { row.new.value.1 ≡ ino }
{
    row.1 = ino;
}

// The row is this inode's.
pub(crate) fn fill(row: &mut Box<(u128, Inode)>, ino: Ino, inode: Inode)
    ensures { row.new.value ≡ (ino.0, inode) }
{
    **row = (u128::from(ino.0), inode);
}

// The row is of this number.
pub(crate) fn number(row: &mut Box<(u128, Inode)>, ino: Ino)
    ensures key { row.new.value.0 ≡ ino.0 }
    ensures inode { row.new.value.1 ≡ row.old.value.1 }
{
    row.0 = u128::from(ino.0);
}
