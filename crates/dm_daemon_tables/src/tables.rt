//! The tables.

ghost use Rattle.std.specs.Prelude.{◌≡◌, ◌+◌, ◌<◌, ◌^◌, option_map, slice_get};
ghost use Rattle.std.specs.Option.{option_copied};
ghost use Rattle.std.specs.FinMap as map;
ghost use Rattle.dm_durable.specs.Daemon.{empty_tables, size_of, number_or as number_or_of};
ghost use Rattle.dm_durable.specs.Inodes.{bitfile_in as bitfile_in_of, has_making as has_making_of, is_named as is_named_of};
ghost use Rattle.dm_tables.specs.Rows.{row_after};
ghost use Rattle.dm_daemon_tables.specs.Tables.{state_of};

use dm_base::{Bfid, DumpName, Ino, Path, Secs};
use dm_dumps::{Dumps, KeptDump};
use dm_durable::{Entry, Inode};
use dm_inodes::{Inodes, bitfile};
use dm_rows::{NumberRows, TextRows};
use std::alloc::Global;

/// The daemon's durable tables, with places kept for the step that was prepared.
#[derive(Drop)]
pub struct Tables {
    pub(crate) alloc: Global,
    pub(crate) site: u64,
    pub(crate) first: u64,
    pub(crate) begun_age: u64,
    pub(crate) time: Secs,
    pub(crate) change: u64,
    pub(crate) counter: u64,
    pub(crate) age: u64,
    pub(crate) names: TextRows<Path, Ino>,
    pub(crate) inodes: Inodes,
    pub(crate) entries: NumberRows<Entry>,
    pub(crate) dumps: Dumps,
}

impl Tables {
    /// The tables of a site before the first step. They take no memory.
    pub fn empty(alloc: Global, site: u64, first: u64, age: u64) -> Tables
        ensures { state_of result ≡ empty_tables site first age }
    {
        Tables {
            alloc,
            site,
            first,
            begun_age: age,
            time: Secs(0),
            change: 0,
            counter: first,
            age,
            names: TextRows::empty(alloc),
            inodes: Inodes::empty(alloc),
            entries: NumberRows::empty(alloc),
            dumps: Dumps::empty(alloc),
        }
    }

    /// The number of the site.
    pub fn site(&self) -> u64
        ensures { result ≡ (state_of self.now).site }
    {
        self.site
    }

    /// The counter of the site's first put.
    pub fn first(&self) -> u64
        ensures { result ≡ (state_of self.now).first }
    {
        self.first
    }

    /// The age that was configured as the journal was begun.
    pub fn begun_age(&self) -> u64
        ensures { result ≡ (state_of self.now).begun_age }
    {
        self.begun_age
    }

    /// The daemon's time.
    pub fn time(&self) -> Secs
        ensures { result ≡ (state_of self.now).time }
    {
        self.time
    }

    /// The daemon's time is this, without a step: what a load does where a journal begins, and where it goes on as one of
    /// another version.
    pub fn set_time(&mut self, time: Secs)
        ensures { state_of self.new ≡ record (state_of self.old) { time = time } }
    {
        self.time = time;
    }

    /// The number of the last change.
    pub fn change(&self) -> u64
        ensures { result ≡ (state_of self.now).change }
    {
        self.change
    }

    /// The counter of the next put.
    pub fn counter(&self) -> u64
        ensures { result ≡ (state_of self.now).counter }
    {
        self.counter
    }

    /// The age in force.
    pub fn age(&self) -> u64
        ensures { result ≡ (state_of self.now).age }
    {
        self.age
    }

    /// The number of a path's inode, or none.
    pub fn ino(&self, path: &[u8]) -> Option<Ino>
        ensures { result ≡ map.get (state_of self.now).names path.now }
    {
        self.names.get(path).copied()
    }

    /// The inode with this number, or none.
    pub fn inode(&self, ino: Ino) -> Option<&Inode>
        ensures { option_copied result ≡ map.get (state_of self.now).inodes ino.0 }
    {
        self.inodes.get(ino)
    }

    /// What is known of the bitfile, or none.
    pub fn entry(&self, bfid: Bfid) -> Option<&Entry>
        ensures { option_copied result ≡ map.get (state_of self.now).entries bfid.0 }
    {
        self.entries.get(bfid.0)
    }

    /// The dump of this name, or none.
    pub fn dump(&self, name: &[u8]) -> Option<&KeptDump>
        ensures { option_copied result ≡ map.get (state_of self.now).dumps name.now }
    {
        self.dumps.get(name)
    }

    /// How many files there are.
    pub fn files(&self) -> usize
        ensures { result ≡ map.len (state_of self.now).names }
    {
        self.names.len()
    }

    /// How many entries of bitfiles there are.
    pub fn entries(&self) -> usize
        ensures { result ≡ map.len (state_of self.now).entries }
    {
        self.entries.len()
    }

    /// How many dumps there are.
    pub fn dumps(&self) -> usize
        ensures { result ≡ map.len (state_of self.now).dumps }
    {
        self.dumps.len()
    }

    /// The file at this place in the order of the paths: its path, and the number of its inode.
    pub fn file_at(&self, at: usize) -> Option<(&Path, &Ino)>
        ensures { option_map (λ e. (e.0.now, e.1.now)) result ≡ slice_get (map.entries (state_of self.now).names) at }
    {
        self.names.entry(at)
    }

    /// The bitfile at this place in the order of the identifiers, with its entry.
    pub fn entry_at(&self, at: usize) -> Option<(u128, &Entry)>
        ensures { option_map (λ e. (e.0, e.1.now)) result ≡ slice_get (map.entries (state_of self.now).entries) at }
    {
        self.entries.entry(at)
    }

    /// The first entry past this bitfile, or the first of all.
    pub fn entry_after(&self, after: Option<u128>) -> Option<(u128, &Entry)>
        ensures { option_map (λ e. (e.0, e.1.now)) result ≡ row_after (state_of self.now).entries after }
    {
        self.entries.first_after(after)
    }

    /// The dump at this place in the order of the names, with its name.
    pub fn dump_at(&self, at: usize) -> Option<(&DumpName, &KeptDump)>
        ensures { option_map (λ e. (e.0.now, e.1.now)) result ≡ slice_get (map.entries (state_of self.now).dumps) at }
    {
        self.dumps.entry(at)
    }

    /// Whether an inode names the bitfile.
    pub fn is_named(&self, bfid: Bfid) -> bool
        ensures { result ≡ is_named_of (state_of self.now).inodes bfid.0 }
    {
        self.inodes.is_named(bfid)
    }

    /// Whether some put has not ended. It goes over the inodes, as a restart does.
    pub fn has_making(&self) -> bool
        ensures { result ≡ has_making_of (state_of self.now).inodes }
    {
        self.inodes.has_making()
    }

    /// The bytes of all files and those that dumps keep: their sum, where it is less than 2 to the 64th, as in each run
    /// of this product.
    pub fn size(&self) -> u64
        ensures { size_of (state_of self.now) < 2 ^ 64 → result ≡ size_of (state_of self.now) }
    {
        self.inodes.size().wrapping_add(self.dumps.size())
    }
}

// The number of the path's inode, or that of a new one.
pub(crate) fn number_or(names: &TextRows<Path, Ino>, path: &[u8], fresh: u64) -> Ino
    ensures { result.0 ≡ number_or_of (map.get names.now.rows path.now) fresh }
{
    match names.get(path) {
        Some(ino) => *ino,
        None => Ino(fresh),
    }
}

// The bitfile that the inode of this number names.
pub(crate) fn bitfile_in(inodes: &Inodes, ino: Ino) -> Option<Bfid>
    ensures { option_map (λ b. b.0) result ≡ bitfile_in_of (map.get inodes.now.rows.rows ino.0) }
{
    match inodes.get(ino) {
        Some(inode) => bitfile(&inode.contents),
        None => None,
    }
}
