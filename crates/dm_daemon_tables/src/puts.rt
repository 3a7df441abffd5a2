//! Steps of puts: one begins, a copy is stored, one ends.

ghost use Rattle.std.specs.Prelude.{◌≡◌, ◌<◌};
ghost use Rattle.std.specs.FinMap as map;
ghost use Rattle.dm_base.specs.declared.identifier.GroupId.{GroupId as Group};
ghost use Rattle.std.specs.Prelude.{List};
ghost use Rattle.dm_tables.specs.Rows.{adjust};
ghost use Rattle.dm_durable.specs.Entries.{new_entry, with_copy_of};
ghost use Rattle.dm_durable.specs.Daemon.{after_begin_put, after_begin_put_at, after_end_put};
ghost use Rattle.dm_daemon_tables.specs.Tables.{state_of};

use crate::entries::{self, StoredBy};
use crate::tables::Tables;
use dm_base::{Bfid, GroupId, Ino};
use dm_durable::Entry;
use dm_inodes::{bitfile, length_online};

impl Tables {
    // A put of the file's bytes begins, if it is there: it names the bitfile, which has this entry, with the length of
    // the file.
    pub(crate) fn begin_put(
        &mut self,
        path: &[u8],
        bfid: Bfid,
        groups: &[GroupId],
        entry: Box<(u128, Entry)>,
        count: Box<(u128, u64)>,
    )
        requires entry_place { 0 < self.old.entries.spare }
        requires count_place { 0 < self.old.inodes.counts.spare }
        requires fresh { entry.value.1 ≡ new_entry 0 groups.now }
        ensures { state_of self.new ≡ after_begin_put_at (state_of self.old) bfid groups.now (map.get (state_of self.old).names path.now) }
    {
        let Some(ino) = self.ino(path) else { return };
        self.begin_put_of(ino, bfid, groups, entry, count);
    }

    // The same of its inode, if it is there.
    fn begin_put_of(
        &mut self,
        ino: Ino,
        bfid: Bfid,
        groups: &[GroupId],
        mut entry: Box<(u128, Entry)>,
        mut count: Box<(u128, u64)>,
    )
        requires entry_place { 0 < self.old.entries.spare }
        requires count_place { 0 < self.old.inodes.counts.spare }
        requires fresh { entry.value.1 ≡ new_entry 0 groups.now }
        ensures { state_of self.new ≡ after_begin_put (state_of self.old) bfid groups.now ino.0 (map.get (state_of self.old).inodes ino.0) }
    {
        let Some(inode) = self.inodes.get(ino) else {
            return;
        };
        let named = bitfile(&inode.contents);
        enter(&mut entry, bfid, length_online(&inode.contents));
        count_by(&mut count, bfid);
        self.counter = self.counter.saturating_add(1);
        self.inodes.know(count);
        self.inodes.begin_put(self.alloc, ino, bfid);
        entries::let_go_if(&mut self.entries, &self.inodes, self.time, named);
        self.entries.insert_reserved(entry);
    }

    // The group has stored its copy of the bitfile.
    pub(crate) fn stored(&mut self, bfid: Bfid, group: GroupId)
        ensures { state_of self.new ≡ record (state_of self.old) { entries = adjust (state_of self.old).entries bfid.0 (with_copy_of group.0) } }
    {
        let by = StoredBy {
            alloc: self.alloc,
            group,
        };
        let _there = self.entries.change(bfid.0, &by);
    }

    // A put ends: the inode is dual-state, or it is regular and lets the bitfile go.
    pub(crate) fn end_put(&mut self, ino: Ino, bfid: Bfid, dual: bool)
        ensures { state_of self.new ≡ after_end_put (state_of self.old) ino.0 bfid.0 dual }
    {
        self.inodes.end_put(ino, dual);
        if dual {
            return;
        }
        entries::let_go_if(&mut self.entries, &self.inodes, self.time, Some(bfid));
    }
}

// The row is the bitfile's, of this length.
fn enter(row: &mut Box<(u128, Entry)>, bfid: Bfid, len: u64)
    ensures key { row.new.value.0 ≡ bfid.0 }
    ensures entry { row.new.value.1 ≡ record row.old.value.1 { len = len } }
{
    row.0 = bfid.0;
    row.1.len = len;
}

// The count is the bitfile's.
pub(crate) fn count_by(row: &mut Box<(u128, u64)>, bfid: Bfid)
    ensures { row.new.value.0 ≡ bfid.0 }
{
    row.0 = bfid.0;
}
