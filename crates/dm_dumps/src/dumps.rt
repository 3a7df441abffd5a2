//! All dumps.

ghost use Rattle.std.specs.Prelude.{◌≡◌, ◌<◌, ◌≤◌, ◌%◌, ◌^◌, ℕ, option_map, slice_get, OnOk, cond, is_some};
ghost use Rattle.std.specs.Option.{option_copied};
ghost use Rattle.std.specs.FinMap as map;
ghost use Rattle.dm_durable.specs.Dumps.{dump_size, with_least};
ghost use Rattle.dm_durable.specs.Daemon.{size_of_dumps};
ghost use Rattle.dm_tables.specs.Rows.{map_values};
ghost use Rattle.dm_tables.specs.Totals.{weight_at};

use crate::dump::KeptDump;
use dm_base::{DumpName, NoMemory};
use dm_rows::{Edit, TextRows};
use std::alloc::Global;

/// The dumps by name, with the sum of the bytes that they keep.
#[derive(Drop)]
pub struct Dumps {
    rows: TextRows<DumpName, KeptDump>,
    // What 64 bits hold of it: the sum itself where it is less than 2 to the 64th, as in each run of this product.
    size: u64,
    ghost sized: { size ≡ size_of_dumps rows.rows % 2 ^ 64 },
}

impl Dumps {
    /// No dump, and no place. It takes no memory.
    pub fn empty(alloc: Global) -> Dumps
        ensures { result.rows.rows ≡ map.empty }
    {
        Dumps {
            rows: TextRows::empty(alloc),
            size: 0,
        }
    }

    /// How many there are.
    pub fn len(&self) -> usize
        ensures len { result ≡ map.len self.now.rows.rows }
        ensures small { result < 2 ^ 63 }
    {
        self.rows.len()
    }

    /// The dump of this name, or none.
    pub fn get(&self, name: &[u8]) -> Option<&KeptDump>
        ensures { option_copied result ≡ map.get self.now.rows.rows name.now }
    {
        self.rows.get(name)
    }

    /// The dump at this place in the order of the names, with its name.
    pub fn entry(&self, at: usize) -> Option<(&DumpName, &KeptDump)>
        ensures { option_map (λ e. (e.0.now, e.1.now)) result ≡ slice_get (map.entries self.now.rows.rows) at }
    {
        self.rows.entry(at)
    }

    /// The sum of the bytes that all dumps keep.
    pub fn size(&self) -> u64
        ensures { size_of_dumps self.now.rows.rows < 2 ^ 64 → result ≡ size_of_dumps self.now.rows.rows }
    {
        self.size
    }

    /// Keeps places for so many dumps more, at least.
    pub fn reserve(&mut self, dumps: usize) -> Result<(), NoMemory>
        ensures rows { self.new.rows.rows ≡ self.old.rows.rows }
        ensures room { OnOk result (dumps ≤ self.new.rows.spare) }
        ensures kept { self.old.rows.spare ≤ self.new.rows.spare }
    {
        self.rows.reserve(dumps)
    }

    /// Puts the dump into a place that is kept, in the place of the one of its name. It takes no memory.
    pub fn insert(&mut self, row: Box<(DumpName, KeptDump)>)
        requires { 0 < self.old.rows.spare }
        ensures { self.new.rows.rows ≡ map.insert self.old.rows.rows row.value.0 row.value.1 }
    {
        let before = self.size_at(row.0.bytes());
        self.size = self.size.wrapping_sub(before).wrapping_add(row.1.size());
        self.rows.insert_reserved(row);
    }

    /// The dump is gone. It takes no memory.
    pub fn remove(&mut self, name: &[u8])
        ensures { self.new.rows.rows ≡ map.remove self.old.rows.rows name.now }
    {
        let before = self.size_at(name);
        self.size = self.size.wrapping_sub(before);
        let _old = self.rows.take(name);
    }

    // What 64 bits hold of the bytes that the dump of this name keeps, if it is there.
    fn size_at(&self, name: &[u8]) -> u64
        ensures { result ≡ weight_at dump_size (map.get self.now.rows.rows name.now) % 2 ^ 64 }
    {
        match self.rows.get(name) {
            Some(dump) => dump.size(),
            None => 0,
        }
    }

    /// The age in force is this from now on. It takes no memory.
    pub fn lower(&mut self, age: u64)
        ensures { self.new.rows.rows ≡ map_values (λ name d. with_least age d) self.old.rows.rows }
    {
        self.rows.change_all(&AgeIs { age });
    }
}

// The age in force is this.
#[derive(Drop)]
struct AgeIs {
    age: u64,
}

impl Edit<KeptDump> for AgeIs {
    ghost use Rattle.dm_durable.specs.Dumps.{with_least};

    ghost edited = { λ it. with_least it.age };

    fn edit(&self, row: &mut KeptDump) {
        row.lower(self.age);
    }
}
