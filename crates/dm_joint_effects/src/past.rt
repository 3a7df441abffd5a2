//! What was done, which stays done: the history, which no component keeps.

ghost use Rattle.std.specs.Prelude.{◌≡◌, OnOk};
ghost use Rattle.std.specs.Option.{option_copied};
ghost use Rattle.dm_model.specs.Effects.{at_group_history, contents_with, group_history_or as group_history_or_of, history_after_group_step, history_after_step, with_taken};
ghost use Rattle.dm_model.specs.Files.{file_at, file_of};

use dm_base::{Bfid, Bytes, GroupId, Ino, NoMemory, Path};
use dm_durable::{DaemonStep, GroupStep, Inode};
use dm_durable_steps::bytes_online;
use dm_model::{Daemon, GroupHistory, History};
use dm_tables::{Numbers, TryEdit};
use std::alloc::Global;

// A step of the daemon, which looks at its files before the step.
pub(crate) fn note_step(
    alloc: Global,
    daemon: &Daemon,
    step: &DaemonStep,
    history: &mut History,
) -> Result<(), NoMemory>
    ensures { OnOk result (history.new ≡ history_after_step daemon.now step.now history.old) }
{
    match step {
        DaemonStep::BeginPut {
            path,
            bfid,
            groups: _,
        } => note_contents(alloc, daemon, path, *bfid, &mut history.contents),
        DaemonStep::HardDelete { bfids } => note_taken(bfids.as_slice(), &mut history.taken),
        DaemonStep::Write { .. } => Ok(()),
        DaemonStep::Remove { .. } => Ok(()),
        DaemonStep::Stored { .. } => Ok(()),
        DaemonStep::EndPut { .. } => Ok(()),
        DaemonStep::Release { .. } => Ok(()),
        DaemonStep::Taken { .. } => Ok(()),
        DaemonStep::Dump { .. } => Ok(()),
        DaemonStep::Undump { .. } => Ok(()),
        DaemonStep::Restore { .. } => Ok(()),
        DaemonStep::Dropped { .. } => Ok(()),
        DaemonStep::Restart => Ok(()),
        DaemonStep::Age { .. } => Ok(()),
    }
}

// The bytes of the bitfile are those of the path's file as its put begins.
fn note_contents(
    alloc: Global,
    daemon: &Daemon,
    path: &Path,
    bfid: Bfid,
    contents: &mut Numbers<Bytes>,
) -> Result<(), NoMemory>
    ensures { OnOk result (contents.new ≡ contents_with bfid.0 (file_at daemon.now path.now) contents.old) }
{
    match daemon.tables.names.get(path.bytes()) {
        Some(ino) => {
            let inode = daemon.tables.inodes.get(u128::from(ino.0));
            note_bytes(alloc, *ino, inode, bfid, contents)
        }
        None => Ok(()),
    }
}

fn note_bytes(
    alloc: Global,
    ino: Ino,
    inode: Option<&Inode>,
    bfid: Bfid,
    contents: &mut Numbers<Bytes>,
) -> Result<(), NoMemory>
    ensures { OnOk result (contents.new ≡ contents_with bfid.0 (file_of ino.0 (option_copied inode.entry)) contents.old) }
{
    match inode {
        Some(inode) => {
            contents.insert(bfid.0, bytes_online(alloc, &inode.contents)?)?;
            Ok(())
        }
        None => Ok(()),
    }
}

// A hard delete took these bitfiles.
fn note_taken(bfids: &[Bfid], taken: &mut Numbers<()>) -> Result<(), NoMemory>
    ensures { OnOk result (taken.new ≡ with_taken bfids.now taken.old) }
{
    match bfids {
        [] => Ok(()),
        [bfid, rest @ ..] => {
            taken.insert(bfid.0, ())?;
            note_taken(rest, taken)
        }
    }
}

// A step of a group.
pub(crate) fn note_group_step(
    alloc: Global,
    group: GroupId,
    step: &GroupStep,
    history: &mut History,
) -> Result<(), NoMemory>
    ensures { OnOk result (history.new ≡ history_after_group_step group.0 step.now history.old) }
{
    match step {
        GroupStep::Commit { bfid, .. } => {
            edit_past(alloc, group, &Commits { bfid: *bfid }, history)
        }
        GroupStep::Volume { .. } => Ok(()),
        GroupStep::Delete { .. } => Ok(()),
        GroupStep::Move { .. } => Ok(()),
        GroupStep::Free { .. } => Ok(()),
        GroupStep::Reuse { .. } => Ok(()),
    }
}

// What the group has done is edited.
pub(crate) fn edit_past<E: TryEdit<GroupHistory>>(
    alloc: Global,
    group: GroupId,
    edit: &E,
    history: &mut History,
) -> Result<(), NoMemory>
    ensures { OnOk result (history.new ≡ at_group_history group.0 (E.edited edit.now) history.old) }
{
    let key = u128::from(group.0);
    let mut done = group_history_or(alloc, history.groups.remove(key));
    edit.try_edit(&mut done)?;
    history.groups.insert(key, done)?;
    Ok(())
}

// The group had the bitfile.
#[derive(Drop)]
struct Commits {
    bfid: Bfid,
}

impl TryEdit<GroupHistory> for Commits {
    ghost use Rattle.dm_model.specs.Effects.{with_committed};

    ghost edited = { λ it. with_committed it.bfid.0 };

    fn try_edit(&self, row: &mut GroupHistory) -> Result<(), NoMemory> {
        row.committed.insert(self.bfid.0, ())?;
        Ok(())
    }
}

// The group was told to delete the bitfile.
#[derive(Drop)]
pub(crate) struct Deletes {
    pub(crate) bfid: Bfid,
}

impl TryEdit<GroupHistory> for Deletes {
    ghost use Rattle.dm_model.specs.Effects.{with_deleted};

    ghost edited = { λ it. with_deleted it.bfid.0 };

    fn try_edit(&self, row: &mut GroupHistory) -> Result<(), NoMemory> {
        row.deleted.insert(self.bfid.0, ())?;
        Ok(())
    }
}

// What the group has done; one of which nothing is known has done nothing.
fn group_history_or(alloc: Global, found: Option<GroupHistory>) -> GroupHistory
    ensures { result ≡ group_history_or_of found }
{
    match found {
        Some(done) => done,
        None => GroupHistory {
            committed: Numbers::empty(alloc),
            deleted: Numbers::empty(alloc),
        },
    }
}
