//! Copies of durable tables and of their records.

ghost use Rattle.std.specs.Prelude.{◌≡◌, IfOk};
ghost use Rattle.dm_state_copies.specs.Steps.{IsLater};

use crate::duplicate::Duplicate;
use dm_base::NoMemory;
use dm_durable::{
    BitfileRow, Contents, DaemonRecord, DaemonStep, DaemonTables, Dump, DumpInode, Entry,
    GroupRecord, GroupStep, GroupTables, Inode, VolumeRow,
};
use std::alloc::Global;

impl Duplicate for Contents {
    fn duplicate(&self, alloc: Global) -> Result<Contents, NoMemory> {
        match self {
            Contents::Regular { bytes } => Ok(Contents::Regular {
                bytes: bytes.copied(alloc)?,
            }),
            Contents::Making { bytes, bfid } => Ok(Contents::Making {
                bytes: bytes.copied(alloc)?,
                bfid: *bfid,
            }),
            Contents::Dual { bytes, bfid } => Ok(Contents::Dual {
                bytes: bytes.copied(alloc)?,
                bfid: *bfid,
            }),
            Contents::Offline { len, bfid } => Ok(Contents::Offline {
                len: *len,
                bfid: *bfid,
            }),
        }
    }
}

impl Duplicate for Inode {
    fn duplicate(&self, alloc: Global) -> Result<Inode, NoMemory> {
        Ok(Inode {
            change: self.change,
            contents: self.contents.duplicate(alloc)?,
        })
    }
}

impl Duplicate for Entry {
    fn duplicate(&self, alloc: Global) -> Result<Entry, NoMemory> {
        Ok(Entry {
            len: self.len,
            copies: self.copies.copied(alloc)?,
            gone: self.gone,
            dropping: self.dropping,
        })
    }
}

impl Duplicate for DumpInode {
    fn duplicate(&self, alloc: Global) -> Result<DumpInode, NoMemory> {
        match self {
            DumpInode::Kept { bytes } => Ok(DumpInode::Kept {
                bytes: bytes.copied(alloc)?,
            }),
            DumpInode::Named { len, bfid } => Ok(DumpInode::Named {
                len: *len,
                bfid: *bfid,
            }),
        }
    }
}

impl Duplicate for Dump {
    fn duplicate(&self, alloc: Global) -> Result<Dump, NoMemory> {
        Ok(Dump {
            made: self.made,
            least: self.least,
            files: self.files.duplicate(alloc)?,
        })
    }
}

impl Duplicate for DaemonTables {
    fn duplicate(&self, alloc: Global) -> Result<DaemonTables, NoMemory> {
        Ok(DaemonTables {
            site: self.site,
            first: self.first,
            begun_age: self.begun_age,
            time: self.time,
            change: self.change,
            counter: self.counter,
            age: self.age,
            names: self.names.duplicate(alloc)?,
            inodes: self.inodes.duplicate(alloc)?,
            entries: self.entries.duplicate(alloc)?,
            dumps: self.dumps.duplicate(alloc)?,
        })
    }
}

impl Duplicate for DaemonStep {
    fn duplicate(&self, alloc: Global) -> Result<DaemonStep, NoMemory> {
        match self {
            DaemonStep::Write {
                path,
                change,
                bytes,
            } => Ok(DaemonStep::Write {
                path: path.copied(alloc)?,
                change: *change,
                bytes: bytes.copied(alloc)?,
            }),
            DaemonStep::Remove { path, change } => Ok(DaemonStep::Remove {
                path: path.copied(alloc)?,
                change: *change,
            }),
            DaemonStep::BeginPut { path, bfid, groups } => Ok(DaemonStep::BeginPut {
                path: path.copied(alloc)?,
                bfid: *bfid,
                groups: groups.copied(alloc)?,
            }),
            DaemonStep::Stored { bfid, group } => Ok(DaemonStep::Stored {
                bfid: *bfid,
                group: *group,
            }),
            DaemonStep::EndPut { ino, bfid, dual } => Ok(DaemonStep::EndPut {
                ino: *ino,
                bfid: *bfid,
                dual: *dual,
            }),
            DaemonStep::Release { path } => Ok(DaemonStep::Release {
                path: path.copied(alloc)?,
            }),
            DaemonStep::Taken { ino, bytes } => Ok(DaemonStep::Taken {
                ino: *ino,
                bytes: bytes.copied(alloc)?,
            }),
            _ => later_step(self, alloc),
        }
    }
}

// A copy of a step on dumps, of a hard delete, of a start or of an age.
fn later_step(step: &DaemonStep, alloc: Global) -> Result<DaemonStep, NoMemory>
    requires { IsLater step.now }
    ensures { IfOk result (λ s. s ≡ step.now) }
{
    match step {
        DaemonStep::Write { .. }
        | DaemonStep::Remove { .. }
        | DaemonStep::BeginPut { .. }
        | DaemonStep::Stored { .. }
        | DaemonStep::EndPut { .. }
        | DaemonStep::Release { .. }
        | DaemonStep::Taken { .. } => unreachable!(),
        DaemonStep::Dump { name } => Ok(DaemonStep::Dump {
            name: name.copied(alloc)?,
        }),
        DaemonStep::Undump { name } => Ok(DaemonStep::Undump {
            name: name.copied(alloc)?,
        }),
        DaemonStep::Restore {
            name,
            path,
            target,
            change,
        } => Ok(DaemonStep::Restore {
            name: name.copied(alloc)?,
            path: path.copied(alloc)?,
            target: target.copied(alloc)?,
            change: *change,
        }),
        DaemonStep::HardDelete { bfids } => Ok(DaemonStep::HardDelete {
            bfids: bfids.copied(alloc)?,
        }),
        DaemonStep::Dropped { bfid } => Ok(DaemonStep::Dropped { bfid: *bfid }),
        DaemonStep::Restart => Ok(DaemonStep::Restart),
        DaemonStep::Age { age } => Ok(DaemonStep::Age { age: *age }),
    }
}

impl Duplicate for DaemonRecord {
    fn duplicate(&self, alloc: Global) -> Result<DaemonRecord, NoMemory> {
        Ok(DaemonRecord {
            time: self.time,
            step: self.step.duplicate(alloc)?,
        })
    }
}

impl Duplicate for VolumeRow {
    fn duplicate(&self, _alloc: Global) -> Result<VolumeRow, NoMemory> {
        Ok(*self)
    }
}

impl Duplicate for BitfileRow {
    fn duplicate(&self, alloc: Global) -> Result<BitfileRow, NoMemory> {
        Ok(BitfileRow {
            len: self.len,
            chunks: self.chunks.copied(alloc)?,
        })
    }
}

impl Duplicate for GroupTables {
    fn duplicate(&self, alloc: Global) -> Result<GroupTables, NoMemory> {
        Ok(GroupTables {
            group: self.group,
            time: self.time,
            volumes: self.volumes.duplicate(alloc)?,
            bitfiles: self.bitfiles.duplicate(alloc)?,
        })
    }
}

impl Duplicate for GroupStep {
    fn duplicate(&self, alloc: Global) -> Result<GroupStep, NoMemory> {
        match self {
            GroupStep::Volume {
                vsn,
                slot,
                version,
                size,
            } => Ok(GroupStep::Volume {
                vsn: *vsn,
                slot: *slot,
                version: *version,
                size: *size,
            }),
            GroupStep::Commit { bfid, len, chunks } => Ok(GroupStep::Commit {
                bfid: *bfid,
                len: *len,
                chunks: chunks.copied(alloc)?,
            }),
            GroupStep::Delete { bfid } => Ok(GroupStep::Delete { bfid: *bfid }),
            GroupStep::Move { bfid, from, to } => Ok(GroupStep::Move {
                bfid: *bfid,
                from: *from,
                to: *to,
            }),
            GroupStep::Free { vsn } => Ok(GroupStep::Free { vsn: *vsn }),
            GroupStep::Reuse {
                vsn,
                epoch,
                version,
            } => Ok(GroupStep::Reuse {
                vsn: *vsn,
                epoch: *epoch,
                version: *version,
            }),
        }
    }
}

impl Duplicate for GroupRecord {
    fn duplicate(&self, alloc: Global) -> Result<GroupRecord, NoMemory> {
        Ok(GroupRecord {
            time: self.time,
            step: self.step.duplicate(alloc)?,
        })
    }
}
