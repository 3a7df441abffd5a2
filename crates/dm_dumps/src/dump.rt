//! One dump.

ghost use Rattle.std.specs.Prelude.{◌≡◌, ◌<◌, ◌%◌, ◌^◌, ℕ, length, option_map, slice_get, OnOk};
ghost use Rattle.std.specs.Option.{option_copied};
ghost use Rattle.std.specs.FinMap as map;
ghost use Rattle.dm_durable.specs.Dumps.{bitfile_dumped as bitfile_of_file, bytes_kept, dump_size, with_least};
ghost use Rattle.dm_tables.specs.Totals.{weight_at};

use dm_base::{Bfid, NoMemory, Path, Secs};
use dm_durable::DumpInode;
use dm_rows::TextRows;
use std::alloc::Global;
use std::marker::Model;

/// A dump, with the sum of the bytes that it keeps.
#[derive(Drop)]
pub struct KeptDump {
    made: Secs,
    least: u64,
    files: TextRows<Path, DumpInode>,
    // What 64 bits hold of the sum.
    size: u64,
}

impl Model for KeptDump {
    ghost use Rattle.std.specs.Prelude.{◌≡◌, ◌%◌, ◌^◌};
    ghost use Rattle.dm_durable.specs.declared.daemon.Dump.{Dump};
    ghost use Rattle.dm_durable.specs.contracts.daemon.Dump as rows_of_dumps;

    ghost Value = { Dump };

    ghost coded = { rows_of_dumps.the_row.coded };

    ghost use Rattle.dm_durable.specs.Dumps.{bytes_kept};
    ghost use Rattle.dm_tables.specs.Totals.{total};

    ghost view = { λ a. record { made = a.made; least = a.least; files = a.files.rows } };

    ghost invariant = { λ a. a.size ≡ total bytes_kept a.files.rows % 2 ^ 64 };
}

// How many bytes a file of a dump keeps.
fn length_kept(file: &DumpInode) -> u64
    ensures { result ≡ bytes_kept file.now }
{
    match file {
        DumpInode::Kept { bytes } => bytes.len() as u64,
        DumpInode::Named { len: _, bfid: _ } => 0,
    }
}

/// The bitfile that a file of a dump names.
pub fn bitfile_dumped(file: &DumpInode) -> Option<Bfid>
    ensures { option_map (λ b. b.0) result ≡ bitfile_of_file file.now }
{
    match file {
        DumpInode::Kept { bytes: _ } => None,
        DumpInode::Named { len: _, bfid } => Some(*bfid),
    }
}

impl KeptDump {
    /// A dump of no file. It takes no memory.
    pub fn empty(alloc: Global, made: Secs, least: u64) -> KeptDump
        ensures { result ≡ record { made = made; least = least; files = map.empty } }
    {
        KeptDump {
            made,
            least,
            files: TextRows::empty(alloc),
            size: 0,
        }
    }

    /// When it was made.
    pub fn made(&self) -> Secs
        ensures { result ≡ self.now.made }
    {
        self.made
    }

    /// The least age that was in force since then.
    pub fn least(&self) -> u64
        ensures { result ≡ self.now.least }
    {
        self.least
    }

    /// How many files it has.
    pub fn len(&self) -> usize
        ensures len { result ≡ map.len self.now.files }
        ensures small { result < 2 ^ 63 }
    {
        self.files.len()
    }

    /// The file of this path, or none.
    pub fn get(&self, path: &[u8]) -> Option<&DumpInode>
        ensures { option_copied result ≡ map.get self.now.files path.now }
    {
        self.files.get(path)
    }

    /// The file at this place in the order of the paths, with its path.
    pub fn entry(&self, at: usize) -> Option<(&Path, &DumpInode)>
        ensures { option_map (λ e. (e.0.now, e.1.now)) result ≡ slice_get (map.entries self.now.files) at }
    {
        self.files.entry(at)
    }

    /// The sum of the bytes that it keeps.
    pub fn size(&self) -> u64
        ensures { result ≡ dump_size self.now % 2 ^ 64 }
    {
        self.size
    }

    /// Puts a file in, in the place of the one of its path.
    pub fn insert(&mut self, alloc: Global, path: Path, file: DumpInode) -> Result<(), NoMemory>
        ensures { OnOk result (self.new ≡ record self.old { files = map.insert self.old.files path file }) }
    {
        let before = self.kept_at(path.bytes());
        let added = length_kept(&file);
        let row = Box::new(alloc, (path, file))?;
        self.files.reserve(1)?;
        self.size = self.size.wrapping_sub(before).wrapping_add(added);
        self.files.insert_reserved(row);
        Ok(())
    }

    // How many bytes the file of this path keeps, if it is there.
    fn kept_at(&self, path: &[u8]) -> u64
        ensures { result ≡ weight_at bytes_kept (map.get self.now.files path.now) }
    {
        match self.files.get(path) {
            Some(file) => length_kept(file),
            None => 0,
        }
    }

    /// The age in force is this from now on: where the least age is greater, it becomes this. It takes no memory.
    pub fn lower(&mut self, age: u64)
        ensures { self.new ≡ with_least age self.old }
    {
        self.least = self.least.min(age);
    }
}
