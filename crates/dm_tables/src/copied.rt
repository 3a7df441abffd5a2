//! Copies of values that have memory of their own.

ghost use Rattle.std.specs.Prelude.{◌≡◌, IfOk};

use crate::numbers::Numbers;
use crate::texts::Texts;
use dm_base::{Bfid, Bytes, Chunk, GroupId, Ino, Listed, NoMemory, Path, Piece, Secs, Vsn};
use std::alloc::Global;

/// A value of which there may be a second one, with memory of its own.
pub trait Copied: Drop + Sized {
    /// A copy. It takes the memory that the value has.
    fn copied(&self, alloc: Global) -> Result<Self, NoMemory>
        ensures { IfOk result (λ copy. copy ≡ self.now) };
}

impl Copied for u8 {
    fn copied(&self, _alloc: Global) -> Result<u8, NoMemory> {
        Ok(*self)
    }
}

impl Copied for u32 {
    fn copied(&self, _alloc: Global) -> Result<u32, NoMemory> {
        Ok(*self)
    }
}

impl Copied for u64 {
    fn copied(&self, _alloc: Global) -> Result<u64, NoMemory> {
        Ok(*self)
    }
}

impl Copied for u128 {
    fn copied(&self, _alloc: Global) -> Result<u128, NoMemory> {
        Ok(*self)
    }
}

impl Copied for bool {
    fn copied(&self, _alloc: Global) -> Result<bool, NoMemory> {
        Ok(*self)
    }
}

impl Copied for Bfid {
    fn copied(&self, _alloc: Global) -> Result<Bfid, NoMemory> {
        Ok(*self)
    }
}

impl Copied for GroupId {
    fn copied(&self, _alloc: Global) -> Result<GroupId, NoMemory> {
        Ok(*self)
    }
}

impl Copied for Ino {
    fn copied(&self, _alloc: Global) -> Result<Ino, NoMemory> {
        Ok(*self)
    }
}

impl Copied for Secs {
    fn copied(&self, _alloc: Global) -> Result<Secs, NoMemory> {
        Ok(*self)
    }
}

impl Copied for Vsn {
    fn copied(&self, _alloc: Global) -> Result<Vsn, NoMemory> {
        Ok(*self)
    }
}

impl Copied for Piece {
    fn copied(&self, _alloc: Global) -> Result<Piece, NoMemory> {
        Ok(*self)
    }
}

impl Copied for Chunk {
    fn copied(&self, _alloc: Global) -> Result<Chunk, NoMemory> {
        Ok(*self)
    }
}

impl Copied for Bytes {
    fn copied(&self, alloc: Global) -> Result<Bytes, NoMemory> {
        Bytes::copied(self, alloc)
    }
}

impl Copied for Path {
    fn copied(&self, alloc: Global) -> Result<Path, NoMemory> {
        Path::copied(self, alloc)
    }
}

impl<T: Copy> Copied for Listed<T> {
    fn copied(&self, alloc: Global) -> Result<Listed<T>, NoMemory> {
        Listed::copied(self, alloc)
    }
}

impl<T: Copied> Copied for Option<T> {
    fn copied(&self, alloc: Global) -> Result<Option<T>, NoMemory> {
        match self {
            Some(value) => Ok(Some(value.copied(alloc)?)),
            None => Ok(None),
        }
    }
}

impl<V: Copied> Copied for Numbers<V> {
    fn copied(&self, alloc: Global) -> Result<Numbers<V>, NoMemory> {
        let mut copy = Numbers::empty(alloc);
        for (key, row) in self.entries() {
            copy.insert(*key, row.copied(alloc)?)?;
        }
        Ok(copy)
    }
}

impl<V: Copied> Copied for Texts<V> {
    fn copied(&self, alloc: Global) -> Result<Texts<V>, NoMemory> {
        let mut copy = Texts::empty(alloc);
        for (key, row) in self.entries() {
            copy.insert(key.copied(alloc)?, row.copied(alloc)?)?;
        }
        Ok(copy)
    }
}
