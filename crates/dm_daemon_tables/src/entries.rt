//! Entries of bitfiles, as steps change them.

ghost use Rattle.std.specs.Prelude.{◌≡◌, map as map_list, option_map};
ghost use Rattle.dm_durable.specs.Entries.{after_letting_go_if, copy_stored_by};
ghost use Rattle.dm_durable.specs.Daemon.{with_dropping, with_named};

use dm_base::{Bfid, GroupId, Listed, Secs};
use dm_durable::{AskedCopy, Entry};
use dm_inodes::Inodes;
use dm_rows::{Edit, NumberRows};
use std::alloc::Global;
use std::mem;

// The bitfile is let go, if there is one: where none of the inodes names it any more, its entry is deleted at this time.
pub(crate) fn let_go_if(
    entries: &mut NumberRows<Entry>,
    inodes: &Inodes,
    time: Secs,
    named: Option<Bfid>,
)
    ensures rows { entries.new.rows ≡ after_letting_go_if entries.old.rows inodes.now.rows.rows time.0 (option_map (λ b. b.0) named) }
    ensures spare { entries.new.spare ≡ entries.old.spare }
{
    let Some(bfid) = named else { return };
    if inodes.is_named(bfid) {
        return;
    }
    let _there = entries.change(bfid.0, &IsDeleted { time });
}

// The bitfile, if there is one, is named again.
pub(crate) fn name_if(entries: &mut NumberRows<Entry>, named: Option<Bfid>)
    ensures rows { entries.new.rows ≡ with_named entries.old.rows (option_map (λ b. b.0) named) }
{
    let Some(bfid) = named else { return };
    let _there = entries.change(bfid.0, &IsNamed);
}

// The copies of these bitfiles are being deleted.
pub(crate) fn drop_all(entries: &mut NumberRows<Entry>, bfids: &[Bfid])
    ensures { entries.new.rows ≡ with_dropping bfids.now entries.old.rows }
{
    for bfid in bfids {
        let _there = entries.change(bfid.0, &IsDropping);
    }
}

// An inode names the bitfile again.
struct IsNamed;

impl Edit<Entry> for IsNamed {
    ghost use Rattle.dm_durable.specs.Entries.{without_deletion_time};

    ghost edited = { λ _. without_deletion_time };

    fn edit(&self, row: &mut Entry) {
        row.gone = None;
    }
}

// The copies are being deleted.
struct IsDropping;

impl Edit<Entry> for IsDropping {
    ghost use Rattle.dm_durable.specs.Entries.{as_dropping};

    ghost edited = { λ _. as_dropping };

    fn edit(&self, row: &mut Entry) {
        row.dropping = true;
    }
}

// The last inode that named the bitfile let it go at this time.
#[derive(Drop)]
pub(crate) struct IsDeleted {
    pub(crate) time: Secs,
}

impl Edit<Entry> for IsDeleted {
    ghost use Rattle.dm_durable.specs.Entries.{with_deletion_time};

    ghost edited = { λ it. with_deletion_time it.time.0 };

    fn edit(&self, row: &mut Entry) {
        row.gone = Some(self.time);
    }
}

// The group has stored its copy.
#[derive(Drop)]
pub(crate) struct StoredBy {
    pub(crate) alloc: Global,
    pub(crate) group: GroupId,
}

impl Edit<Entry> for StoredBy {
    ghost use Rattle.dm_durable.specs.Entries.{with_copy_of};

    ghost edited = { λ it. with_copy_of it.group.0 };

    fn edit(&self, row: &mut Entry) {
        let nothing = Listed::from_vec(Vec::new(self.alloc));
        let mut copies = mem::replace(&mut row.copies, nothing).into_vec();
        mark(copies.as_mut_slice(), self.group);
        row.copies = Listed::from_vec(copies);
    }
}

// The copy of the group is stored.
fn mark(copies: &mut [AskedCopy], group: GroupId)
    ensures { copies.new ≡ map_list (copy_stored_by group.0) copies.old }
{
    for copy in copies.iter_mut() {
        mark_one(copy, group);
    }
}

fn mark_one(copy: &mut AskedCopy, group: GroupId)
    ensures { copy.new ≡ copy_stored_by group.0 copy.old }
{
    if copy.group.0 != group.0 {
        return;
    }
    copy.stored = true;
}
