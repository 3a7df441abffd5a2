//! Steps on dumps and ages.

ghost use Rattle.std.specs.Prelude.{◌≡◌, ◌<◌};
ghost use Rattle.std.specs.Option.{option_map};
ghost use Rattle.std.specs.FinMap as map;
ghost use Rattle.dm_tables.specs.Rows.{map_values};
ghost use Rattle.dm_durable.specs.Dumps.{file_in, new_dump, with_least};
ghost use Rattle.dm_durable.specs.Daemon.{after_restore};
ghost use Rattle.dm_daemon_tables.specs.Prepared.{restored_inode};
ghost use Rattle.dm_daemon_tables.specs.Tables.{state_of};

use crate::entries;
use crate::files::{name_by, number};
use crate::puts::count_by;
use crate::tables::Tables;
use dm_base::{DumpName, Ino, Path};
use dm_dumps::KeptDump;
use dm_durable::Inode;
use dm_inodes::bitfile;

impl Tables {
    // All files as they are now are kept under the name.
    pub(crate) fn add_dump(&mut self, row: Box<(DumpName, KeptDump)>)
        requires place { 0 < self.old.dumps.rows.spare }
        requires made { row.value.1 ≡ new_dump self.old.time.0 self.old.age self.old.names.rows self.old.inodes.rows.rows }
        ensures { state_of self.new ≡ record (state_of self.old) { dumps = map.insert (state_of self.old).dumps row.value.0 (new_dump self.old.time.0 self.old.age self.old.names.rows self.old.inodes.rows.rows) } }
    {
        self.dumps.insert(row);
    }

    // The dump is gone.
    pub(crate) fn undump(&mut self, name: &[u8])
        ensures { state_of self.new ≡ record (state_of self.old) { dumps = map.remove (state_of self.old).dumps name.now } }
    {
        self.dumps.remove(name);
    }

    // The age in force is this.
    pub(crate) fn set_age(&mut self, age: u64)
        ensures { state_of self.new ≡ record (state_of self.old) { age = age; dumps = map_values (λ name d. with_least age d) (state_of self.old).dumps } }
    {
        self.age = age;
        self.dumps.lower(age);
    }

    // The inode that was made of the dump's file of the path, if there was one, is a new file of the target path.
    pub(crate) fn restore(
        &mut self,
        _name: &[u8],
        _path: &[u8],
        mut target: Box<(Path, Ino)>,
        change: u64,
        inode: Option<Box<(u128, Inode)>>,
        mut count: Box<(u128, u64)>,
    )
        requires name_place { 0 < self.old.names.spare }
        requires inode_place { 0 < self.old.inodes.rows.spare }
        requires count_place { 0 < self.old.inodes.counts.spare }
        requires made { restored_inode change (file_in (map.get self.old.dumps.rows.rows _name.now) _path.now) ≡ option_map (λ row. row.value.1) inode }
        ensures { state_of self.new ≡ after_restore (state_of self.old) target.value.0 change (file_in (map.get (state_of self.old).dumps _name.now) _path.now) }
    {
        self.change = change;
        let Some(mut inode) = inode else { return };
        let ino = Ino(change);
        name_by(&mut target, ino);
        number(&mut inode, ino);
        let named = bitfile(&inode.1.contents);
        if let Some(bfid) = named {
            count_by(&mut count, bfid);
            self.inodes.know(count);
        }
        self.names.insert_reserved(target);
        self.inodes.insert(inode);
        entries::name_if(&mut self.entries, named);
    }
}
