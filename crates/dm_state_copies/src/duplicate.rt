//! What can be copied: plain values, lists and tables.

ghost use Rattle.std.specs.Prelude.{◌≡◌, IfOk};

use dm_base::{Bytes, Ino, NoMemory};
use dm_tables::{Numbers, Texts};
use std::alloc::Global;

/// A value of which there may be a second one, with memory of its own. The words have no functions, so the copies of
/// their values are a trait of the first crate above them.
pub trait Duplicate: Drop + Sized {
    /// A copy. It takes the memory that the value has.
    fn duplicate(&self, alloc: Global) -> Result<Self, NoMemory>
        ensures { IfOk result (λ copy. copy ≡ self.now) };
}

impl Duplicate for () {
    fn duplicate(&self, _alloc: Global) -> Result<(), NoMemory> {
        Ok(())
    }
}

impl Duplicate for u8 {
    fn duplicate(&self, _alloc: Global) -> Result<u8, NoMemory> {
        Ok(*self)
    }
}

impl Duplicate for u64 {
    fn duplicate(&self, _alloc: Global) -> Result<u64, NoMemory> {
        Ok(*self)
    }
}

impl Duplicate for Ino {
    fn duplicate(&self, _alloc: Global) -> Result<Ino, NoMemory> {
        Ok(*self)
    }
}

impl Duplicate for Bytes {
    fn duplicate(&self, alloc: Global) -> Result<Bytes, NoMemory> {
        self.copied(alloc)
    }
}

impl<T: Duplicate> Duplicate for Option<T> {
    fn duplicate(&self, alloc: Global) -> Result<Option<T>, NoMemory> {
        match self {
            Some(value) => Ok(Some(value.duplicate(alloc)?)),
            None => Ok(None),
        }
    }
}

impl<V: Duplicate> Duplicate for Numbers<V> {
    fn duplicate(&self, alloc: Global) -> Result<Numbers<V>, NoMemory> {
        let mut copy = Numbers::empty(alloc);
        for (key, row) in self.entries() {
            copy.insert(*key, row.duplicate(alloc)?)?;
        }
        Ok(copy)
    }
}

impl<V: Duplicate> Duplicate for Texts<V> {
    fn duplicate(&self, alloc: Global) -> Result<Texts<V>, NoMemory> {
        let mut copy = Texts::empty(alloc);
        for (key, row) in self.entries() {
            copy.insert(key.copied(alloc)?, row.duplicate(alloc)?)?;
        }
        Ok(copy)
    }
}
