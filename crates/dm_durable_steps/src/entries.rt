//! What the daemon knows of a bitfile, as steps change it.

ghost use Rattle.std.specs.Prelude.{◌≡◌, IfOk, OnOk, map as map_list, option_map};
ghost use Rattle.dm_durable.specs.Daemon.{with_dropping, with_named};
ghost use Rattle.dm_durable.specs.Entries.{after_letting_go, after_letting_go_if, copy_stored_by, new_entry as new_entry_of};

use crate::inodes::is_named;
use dm_base::{Bfid, GroupId, Listed, NoMemory, Secs};
use dm_durable::{AskedCopy, Entry, Inode};
use dm_tables::{Numbers, TryEdit};
use std::alloc::Global;

// The entry of a put that begins.
pub(crate) fn new_entry(alloc: Global, len: u64, groups: &[GroupId]) -> Result<Entry, NoMemory>
    ensures { IfOk result (λ entry. entry ≡ new_entry_of len groups.now) }
{
    let mut copies = Vec::new(alloc);
    for group in groups {
        copies.push(AskedCopy {
            group: *group,
            stored: false,
        })?;
    }
    Ok(Entry {
        len,
        copies: Listed::from_vec(copies),
        gone: None,
        dropping: false,
    })
}

// The bitfile is let go: where none of the inodes names it any more, its entry is deleted at this time.
pub(crate) fn let_go(
    entries: &mut Numbers<Entry>,
    inodes: &Numbers<Inode>,
    time: Secs,
    bfid: Bfid,
) -> Result<(), NoMemory>
    ensures { OnOk result (entries.new ≡ after_letting_go entries.old inodes.now time.0 bfid.0) }
{
    if is_named(inodes, bfid) {
        return Ok(());
    }
    entries.edit(bfid.0, &IsDeleted { time })
}

pub(crate) fn let_go_if(
    entries: &mut Numbers<Entry>,
    inodes: &Numbers<Inode>,
    time: Secs,
    bfid: Option<Bfid>,
) -> Result<(), NoMemory>
    ensures { OnOk result (entries.new ≡ after_letting_go_if entries.old inodes.now time.0 (option_map (λ b. b.0) bfid)) }
{
    match bfid {
        Some(bfid) => let_go(entries, inodes, time, bfid),
        None => Ok(()),
    }
}

// The bitfile, if there is one, is named again.
pub(crate) fn name_if(entries: &mut Numbers<Entry>, named: Option<Bfid>) -> Result<(), NoMemory>
    ensures { OnOk result (entries.new ≡ with_named entries.old (option_map (λ b. b.0) named)) }
{
    match named {
        Some(bfid) => entries.edit(bfid.0, &IsNamed),
        None => Ok(()),
    }
}

// The copies of these bitfiles are being deleted.
pub(crate) fn drop_all(entries: &mut Numbers<Entry>, bfids: &[Bfid]) -> Result<(), NoMemory>
    ensures { OnOk result (entries.new ≡ with_dropping bfids.now entries.old) }
{
    for bfid in bfids {
        entries.edit(bfid.0, &IsDropping)?;
    }
    Ok(())
}

// The last inode that named the bitfile let it go at this time.
#[derive(Drop)]
struct IsDeleted {
    time: Secs,
}

impl TryEdit<Entry> for IsDeleted {
    ghost use Rattle.dm_durable.specs.Entries.{with_deletion_time};

    ghost edited = { λ it. with_deletion_time it.time.0 };

    fn try_edit(&self, row: &mut Entry) -> Result<(), NoMemory> {
        row.gone = Some(self.time);
        Ok(())
    }
}

// An inode names the bitfile again.
struct IsNamed;

impl TryEdit<Entry> for IsNamed {
    ghost use Rattle.dm_durable.specs.Entries.{without_deletion_time};

    ghost edited = { λ _. without_deletion_time };

    fn try_edit(&self, row: &mut Entry) -> Result<(), NoMemory> {
        row.gone = None;
        Ok(())
    }
}

// The copies are being deleted.
struct IsDropping;

impl TryEdit<Entry> for IsDropping {
    ghost use Rattle.dm_durable.specs.Entries.{as_dropping};

    ghost edited = { λ _. as_dropping };

    fn try_edit(&self, row: &mut Entry) -> Result<(), NoMemory> {
        row.dropping = true;
        Ok(())
    }
}

// The group has stored its copy.
#[derive(Drop)]
pub(crate) struct StoredBy {
    pub(crate) alloc: Global,
    pub(crate) group: GroupId,
}

impl TryEdit<Entry> for StoredBy {
    ghost use Rattle.dm_durable.specs.Entries.{with_copy_of};

    ghost edited = { λ it. with_copy_of it.group.0 };

    fn try_edit(&self, row: &mut Entry) -> Result<(), NoMemory> {
        row.copies = copies_stored_by(self.alloc, row.copies.as_slice(), self.group)?;
        Ok(())
    }
}

// The copies, that of the group stored.
fn copies_stored_by(
    alloc: Global,
    copies: &[AskedCopy],
    group: GroupId,
) -> Result<Listed<AskedCopy>, NoMemory>
    ensures { IfOk result (λ stored. stored ≡ map_list (copy_stored_by group.0) copies.now) }
{
    let mut stored = Vec::new(alloc);
    for copy in copies {
        stored.push(stored_by(*copy, group))?;
    }
    Ok(Listed::from_vec(stored))
}

fn stored_by(copy: AskedCopy, group: GroupId) -> AskedCopy
    ensures { result ≡ copy_stored_by group.0 copy }
{
    AskedCopy {
        group: copy.group,
        stored: copy.group.0 == group.0 || copy.stored,
    }
}
