//! A step is prepared: its memory is taken, and the tables say what they said.

ghost use Rattle.std.specs.Prelude.{◌≡◌, IfOk, false, map as map_list};
ghost use Rattle.std.specs.Option.{option_map};
ghost use Rattle.std.specs.FinMap as map;
ghost use Rattle.dm_durable.specs.declared.daemon.DaemonStep.TheVariants.{Write as StepOfWrite, BeginPut as StepOfBegin, Dump as StepOfDump, Restore as StepOfRestore};
ghost use Rattle.dm_durable.specs.Dumps.{as_restored, file_in};
ghost use Rattle.dm_durable.specs.Entries.{new_entry as new_entry_of};
ghost use Rattle.dm_daemon_tables.specs.Prepared.{IsReady, IsReadyFor, record_of, restored_inode, step_of};
ghost use Rattle.dm_daemon_tables.specs.Tables.{state_of};

use crate::prepared::{Prepared, Step};
use crate::short_text::ShortText;
use crate::tables::Tables;
use dm_base::{Bfid, Bytes, DumpName, GroupId, Ino, Listed, NoMemory, Path, Secs};
use dm_dumps::KeptDump;
use dm_durable::{AskedCopy, Contents, DaemonRecord, DaemonStep, DumpInode, Entry, Inode};
use std::alloc::Global;

impl Tables {
    /// Prepares the step of a record: takes all the memory that it needs. The tables say what they said, also where
    /// memory is refused; the record is spent then.
    pub fn prepare(&mut self, next: DaemonRecord) -> Result<Prepared, NoMemory>
        ensures same { state_of self.new ≡ state_of self.old }
        ensures step { IfOk result (λ p. record_of p ≡ next) }
        ensures ready { IfOk result (λ p. IsReady self.new p) }
    {
        let DaemonRecord { time, step } = next;
        let step = self.prepare_step(time, step)?;
        Ok(Prepared { time, step })
    }

    // The same of the step alone, at the time of its record.
    fn prepare_step(&mut self, time: Secs, step: DaemonStep) -> Result<Step, NoMemory>
        ensures same { state_of self.new ≡ state_of self.old }
        ensures step { IfOk result (λ s. step_of s ≡ step) }
        ensures ready { IfOk result (λ s. IsReadyFor self.new time.0 s) }
    {
        match step {
            DaemonStep::Write {
                path,
                change,
                bytes,
            } => self.prepare_write(time, path, change, bytes),
            DaemonStep::Remove { path, change } => Ok(Step::Remove {
                path: ShortText::of(path.bytes()),
                change,
            }),
            DaemonStep::BeginPut { path, bfid, groups } => {
                self.prepare_begin_put(time, path, bfid, groups)
            }
            DaemonStep::Stored { bfid, group } => Ok(Step::Stored { bfid, group }),
            DaemonStep::EndPut { ino, bfid, dual } => Ok(Step::EndPut { ino, bfid, dual }),
            DaemonStep::Release { path } => Ok(Step::Release {
                path: ShortText::of(path.bytes()),
            }),
            DaemonStep::Taken { ino, bytes } => Ok(Step::Taken { ino, bytes }),
            DaemonStep::Dump { name } => self.prepare_dump(time, name),
            DaemonStep::Undump { name } => Ok(Step::Undump {
                name: ShortText::of(name.bytes()),
            }),
            DaemonStep::Restore {
                name,
                path,
                target,
                change,
            } => self.prepare_restore(time, name, path, target, change),
            DaemonStep::HardDelete { bfids } => Ok(Step::HardDelete { bfids }),
            DaemonStep::Dropped { bfid } => Ok(Step::Dropped { bfid }),
            DaemonStep::Restart => Ok(Step::Restart),
            DaemonStep::Age { age } => Ok(Step::Age { age }),
        }
    }

    // A write: the row of its name and that of its inode, which is filled as the step is done.
    fn prepare_write(
        &mut self,
        _time: Secs,
        path: Path,
        change: u64,
        bytes: Bytes,
    ) -> Result<Step, NoMemory>
        ensures same { state_of self.new ≡ state_of self.old }
        ensures step { IfOk result (λ s. step_of s ≡ StepOfWrite path change bytes) }
        ensures ready { IfOk result (λ s. IsReadyFor self.new _time.0 s) }
    {
        let blank = Inode {
            change,
            contents: Contents::Offline {
                len: 0,
                bfid: Bfid(0),
            },
        };
        let inode = Box::new(self.alloc, (0, blank))?;
        let name = Box::new(self.alloc, (path, Ino(change)))?;
        self.names.reserve(1)?;
        self.inodes.reserve(1, 0)?;
        Ok(Step::Write {
            name,
            change,
            bytes,
            inode,
        })
    }

    // A put that begins: the row of its entry, whose length is known as the step is done, and that of its count.
    fn prepare_begin_put(
        &mut self,
        _time: Secs,
        path: Path,
        bfid: Bfid,
        groups: Listed<GroupId>,
    ) -> Result<Step, NoMemory>
        ensures same { state_of self.new ≡ state_of self.old }
        ensures step { IfOk result (λ s. step_of s ≡ StepOfBegin path bfid groups) }
        ensures ready { IfOk result (λ s. IsReadyFor self.new _time.0 s) }
    {
        let entry = new_entry(self.alloc, groups.as_slice())?;
        let entry = Box::new(self.alloc, (bfid.0, entry))?;
        let count = Box::new(self.alloc, (bfid.0, 0))?;
        self.entries.reserve(1)?;
        self.inodes.reserve(0, 1)?;
        Ok(Step::BeginPut {
            path: ShortText::of(path.bytes()),
            bfid,
            groups,
            entry,
            count,
        })
    }

    // A dump: all of it, of the files as they are.
    fn prepare_dump(&mut self, time: Secs, name: DumpName) -> Result<Step, NoMemory>
        ensures same { state_of self.new ≡ state_of self.old }
        ensures step { IfOk result (λ s. step_of s ≡ StepOfDump name) }
        ensures ready { IfOk result (λ s. IsReadyFor self.new time.0 s) }
    {
        let dump = KeptDump::of_files(self.alloc, time, self.age, &self.names, &self.inodes)?;
        let row = Box::new(self.alloc, (name, dump))?;
        self.dumps.reserve(1)?;
        Ok(Step::Dump { row })
    }

    // A restore: the inode that the dump's file becomes, if there is such a file, and the rows of its name and of the
    // count of its bitfile.
    fn prepare_restore(
        &mut self,
        _time: Secs,
        name: DumpName,
        path: Path,
        target: Path,
        change: u64,
    ) -> Result<Step, NoMemory>
        ensures same { state_of self.new ≡ state_of self.old }
        ensures step { IfOk result (λ s. step_of s ≡ StepOfRestore name path target change) }
        ensures ready { IfOk result (λ s. IsReadyFor self.new _time.0 s) }
    {
        let inode = self.restored(name.bytes(), path.bytes(), change)?;
        let target = Box::new(self.alloc, (target, Ino(change)))?;
        let count = Box::new(self.alloc, (0, 0))?;
        self.names.reserve(1)?;
        self.inodes.reserve(1, 1)?;
        Ok(Step::Restore {
            name: ShortText::of(name.bytes()),
            path: ShortText::of(path.bytes()),
            target,
            change,
            inode,
            count,
        })
    }

    // The inode that a file of a dump becomes, if there is such a file.
    fn restored(
        &self,
        name: &[u8],
        path: &[u8],
        change: u64,
    ) -> Result<Option<Box<(u128, Inode)>>, NoMemory>
        ensures { IfOk result (λ o. restored_inode change (file_in (map.get self.now.dumps.rows.rows name.now) path.now) ≡ option_map (λ row. row.value.1) o) }
    {
        let Some(dump) = self.dumps.get(name) else {
            return Ok(None);
        };
        let Some(file) = dump.get(path) else {
            return Ok(None);
        };
        let contents = restored_contents(self.alloc, file)?;
        let inode = Inode { change, contents };
        let row = Box::new(self.alloc, (u128::from(change), inode))?;
        Ok(Some(row))
    }
}

// What a file of a dump is as a file again.
fn restored_contents(alloc: Global, file: &DumpInode) -> Result<Contents, NoMemory>
    ensures { IfOk result (λ contents. contents ≡ as_restored file.now) }
{
    match file {
        DumpInode::Kept { bytes } => Ok(Contents::Regular {
            bytes: bytes.copied(alloc)?,
        }),
        DumpInode::Named { len, bfid } => Ok(Contents::Offline {
            len: *len,
            bfid: *bfid,
        }),
    }
}

// The entry of a put that begins, of a length that is filled in later.
fn new_entry(alloc: Global, groups: &[GroupId]) -> Result<Entry, NoMemory>
    ensures { IfOk result (λ entry. entry ≡ new_entry_of 0 groups.now) }
{
    let copies = asked(alloc, groups)?;
    Ok(Entry {
        len: 0,
        copies: Listed::from_vec(copies),
        gone: None,
        dropping: false,
    })
}

// A copy is asked of each group, in order.
fn asked(alloc: Global, groups: &[GroupId]) -> Result<Vec<AskedCopy>, NoMemory>
    ensures { IfOk result (λ copies. copies.items ≡ map_list (λ g. record { group = g; stored = false }) groups.now) }
{
    let copies = groups
        .iter()
        .map(|group| AskedCopy {
            group: *group,
            stored: false,
        })
        .collect(alloc)?;
    Ok(copies)
}
