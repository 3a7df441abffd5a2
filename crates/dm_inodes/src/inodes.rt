//! The table of inodes.

ghost use Rattle.std.specs.Prelude.{◌≡◌, ◌<◌, ◌≤◌, ◌+◌, ◌^◌, ◌%◌, ℕ, [], length as length_of_list, is_some, IsSome, IfSome, OnSome, OnOk, IsOk, option_map, slice_get};
ghost use Rattle.std.specs.Option.{option_copied};
ghost use Rattle.std.specs.FinMap as map;
ghost use Rattle.dm_tables.specs.Rows.{adjust, map_values};
ghost use Rattle.dm_rows.specs.Places.{row_of, with_key};
ghost use Rattle.dm_durable.specs.Inodes.{bitfile_of, bitfile_in, has_making as has_making_of, is_named as is_named_of, with_contents, as_ended as as_ended_of, as_making as as_making_of, as_offline as as_offline_of, as_recalled as as_recalled_of};
ghost use Rattle.dm_durable.specs.Daemon.{size_of_files};
ghost use Rattle.dm_inodes.specs.Counts.{Counted, HasCount, KeepsCounts, let_go_by, made_at, ended_at, is_making_row};

use crate::contents::{bitfile, bitfile_made, length};
use crate::{contents, counts};
use dm_base::{Bfid, Bytes, Ino, NoMemory};
use dm_durable::Inode;
use dm_rows::{Edit, NumberRows};
use std::alloc::Global;

/// The inodes by number, with how many of them name each bitfile and the sum of the lengths of their files.
#[derive(Drop)]
pub struct Inodes {
    rows: NumberRows<Inode>,
    // By the bitfile's identifier. A bitfile that was named and isn't any more has 0 here, until it is forgotten.
    counts: NumberRows<u64>,
    // What 64 bits hold of it: the sum itself where it is less than 2 to the 64th, as in each run of this product.
    size: u64,
    ghost counted: { Counted counts.rows rows.rows },
    ghost sized: { size ≡ size_of_files rows.rows % 2 ^ 64 },
}

impl Inodes {
    /// No inode, and no place. It takes no memory.
    pub fn empty(alloc: Global) -> Inodes
        ensures { result.rows.rows ≡ map.empty }
    {
        Inodes {
            rows: NumberRows::empty(alloc),
            counts: NumberRows::empty(alloc),
            size: 0,
        }
    }

    /// How many there are.
    pub fn len(&self) -> usize
        ensures len { result ≡ map.len self.now.rows.rows }
        ensures small { result < 2 ^ 63 }
    {
        self.rows.len()
    }

    /// The inode with this number, or none.
    pub fn get(&self, ino: Ino) -> Option<&Inode>
        ensures { option_copied result ≡ map.get self.now.rows.rows ino.0 }
    {
        self.rows.get(u128::from(ino.0))
    }

    /// The inode at this place in the order of the numbers, with its number.
    pub fn entry(&self, at: usize) -> Option<(u128, &Inode)>
        ensures { option_map (λ e. (e.0, e.1.now)) result ≡ slice_get (map.entries self.now.rows.rows) at }
    {
        self.rows.entry(at)
    }

    /// Whether an inode names the bitfile.
    pub fn is_named(&self, bfid: Bfid) -> bool
        ensures { result ≡ is_named_of self.now.rows.rows bfid.0 }
    {
        match self.counts.get(bfid.0) {
            Some(count) => *count > 0,
            None => false,
        }
    }

    /// Whether some put has not ended. It goes over the inodes.
    pub fn has_making(&self) -> bool
        ensures { result ≡ has_making_of self.now.rows.rows }
    {
        for at in 0..self.rows.len() {
            if self.is_making_at(at) {
                return true;
            }
        }
        false
    }

    // Whether a put of the inode at this place has not ended.
    fn is_making_at(&self, at: usize) -> bool
        ensures { result ≡ is_making_row (slice_get (map.entries self.now.rows.rows) at) }
    {
        match self.rows.entry(at) {
            Some((_, inode)) => bitfile_made(&inode.contents).is_some(),
            None => false,
        }
    }

    /// The sum of the lengths of all files, online or not.
    pub fn size(&self) -> u64
        ensures { size_of_files self.now.rows.rows < 2 ^ 64 → result ≡ size_of_files self.now.rows.rows }
    {
        self.size
    }

    /// Keeps places for so many inodes more, and for the counts of so many bitfiles more, at least.
    pub fn reserve(&mut self, inodes: usize, bitfiles: usize) -> Result<(), NoMemory>
        ensures rows { self.new.rows.rows ≡ self.old.rows.rows }
        ensures room { OnOk result (inodes ≤ self.new.rows.spare) }
        ensures counts { OnOk result (bitfiles ≤ self.new.counts.spare) }
        ensures kept { self.old.rows.spare ≤ self.new.rows.spare }
        ensures counts_kept { self.old.counts.spare ≤ self.new.counts.spare }
    {
        self.rows.reserve(inodes)?;
        self.counts.reserve(bitfiles)
    }

    // Takes the inode out. One inode fewer names what it named.
    fn take(&mut self, key: u128) -> Option<Box<(u128, Inode)>>
        ensures row { option_map row_of result ≡ with_key key (map.get self.old.rows.rows key) }
        ensures rows { self.new.rows.rows ≡ map.remove self.old.rows.rows key }
        ensures place { OnSome result (0 < self.new.rows.spare) }
        ensures kept { self.old.rows.spare ≤ self.new.rows.spare }
        ensures known { IfSome result (λ row. HasCount self.new.counts.rows (bitfile_of row.value.1.contents)) }
        ensures counts { KeepsCounts self.old.counts.rows self.new.counts.rows }
        ensures counts_kept { self.new.counts.spare ≡ self.old.counts.spare }
    {
        let Some(row) = self.rows.take(key) else {
            return None;
        };
        counts::lower(&mut self.counts, bitfile(&row.1.contents));
        self.size = self.size.wrapping_sub(length(&row.1.contents));
        Some(row)
    }

    // Puts an inode in, where there is none of its number. One inode more names what it names.
    fn put(&mut self, row: Box<(u128, Inode)>)
        requires place { 0 < self.old.rows.spare }
        requires new { map.get self.old.rows.rows row.value.0 ≡ None }
        requires known { HasCount self.old.counts.rows (bitfile_of row.value.1.contents) }
        ensures rows { self.new.rows.rows ≡ map.insert self.old.rows.rows row.value.0 row.value.1 }
        ensures counts_kept { self.new.counts.spare ≡ self.old.counts.spare }
    {
        let _few = self.rows.len();
        counts::raise(&mut self.counts, bitfile(&row.1.contents));
        self.size = self.size.wrapping_add(length(&row.1.contents));
        self.rows.insert_reserved(row);
    }

    /// Keeps a count of the row's bitfile from now on. It takes no memory.
    pub fn know(&mut self, mut row: Box<(u128, u64)>)
        requires { 0 < self.old.counts.spare }
        ensures rows { self.new.rows ≡ self.old.rows }
        ensures known { IsSome (map.get self.new.counts.rows row.value.0) }
        ensures kept { KeepsCounts self.old.counts.rows self.new.counts.rows }
    {
        if self.counts.contains(row.0) {
            return;
        }
        row.1 = 0;
        self.counts.insert_reserved(row);
    }

    /// Keeps no count of the bitfile any more, if no inode names it. It takes no memory.
    pub fn forget(&mut self, bfid: Bfid)
        ensures rows { self.new.rows ≡ self.old.rows }
    {
        if self.is_named(bfid) {
            return;
        }
        let _count = self.counts.take(bfid.0);
    }

    /// Puts the inode into a place that is kept, in the place of the one of its number. It takes no memory.
    pub fn insert(&mut self, row: Box<(u128, Inode)>)
        requires place { 0 < self.old.rows.spare }
        requires known { HasCount self.old.counts.rows (bitfile_of row.value.1.contents) }
        ensures rows { self.new.rows.rows ≡ map.insert self.old.rows.rows row.value.0 row.value.1 }
    {
        let _old = self.take(row.0);
        self.put(row);
    }

    /// The inode is gone. It takes no memory.
    pub fn remove(&mut self, ino: Ino)
        ensures rows { self.new.rows.rows ≡ map.remove self.old.rows.rows ino.0 }
    {
        let _old = self.take(u128::from(ino.0));
    }

    /// A put of the inode's bytes begins, if the inode is there: it names the bitfile, of which a count is kept. It
    /// takes no memory.
    pub fn begin_put(&mut self, alloc: Global, ino: Ino, bfid: Bfid)
        requires { IsSome (map.get self.old.counts.rows bfid.0) }
        ensures rows { self.new.rows.rows ≡ adjust self.old.rows.rows ino.0 (with_contents (as_making_of bfid)) }
    {
        let Some(mut row) = self.take(u128::from(ino.0)) else {
            return;
        };
        contents::begin(&mut row.1, alloc, bfid);
        self.put(row);
    }

    /// The put of the inode ends, if the inode is there: with every copy stored, or not. It takes no memory.
    pub fn end_put(&mut self, ino: Ino, dual: bool)
        ensures rows { self.new.rows.rows ≡ adjust self.old.rows.rows ino.0 (with_contents (as_ended_of dual)) }
    {
        self.end_put_of(u128::from(ino.0), dual);
    }

    /// The put of the inode at this place in the order of the numbers ends, not with every copy stored. Answers the
    /// bitfile of the put, if one of that inode had not ended. It takes no memory.
    pub fn end_put_at(&mut self, at: usize) -> Option<Bfid>
        ensures named { option_map (λ b. b.0) result ≡ made_at (slice_get (map.entries self.old.rows.rows) at) }
        ensures rows { self.new.rows.rows ≡ ended_at self.old.rows.rows (slice_get (map.entries self.old.rows.rows) at) }
    {
        let Some((key, inode)) = self.rows.entry(at) else {
            return None;
        };
        let made = bitfile_made(&inode.contents);
        self.end_put_of(key, false);
        made
    }

    // The same of the inode of this number.
    fn end_put_of(&mut self, key: u128, dual: bool)
        ensures rows { self.new.rows.rows ≡ adjust self.old.rows.rows key (with_contents (as_ended_of dual)) }
    {
        let named = self.let_go(key, dual);
        counts::lower(&mut self.counts, named);
        let _there = self.rows.change(key, &PutEnds { dual });
    }

    // What the end of the put lets go.
    fn let_go(&self, key: u128, dual: bool) -> Option<Bfid>
        ensures { option_map (λ b. b.0) result ≡ let_go_by dual (map.get self.now.rows.rows key) }
    {
        if dual {
            return None;
        }
        match self.rows.get(key) {
            Some(inode) => bitfile_made(&inode.contents),
            None => None,
        }
    }

    /// The bytes of the inode leave the disk, if it is there. It takes no memory.
    pub fn release(&mut self, ino: Ino)
        ensures rows { self.new.rows.rows ≡ adjust self.old.rows.rows ino.0 (with_contents as_offline_of) }
    {
        let _there = self.rows.change(u128::from(ino.0), &LeavesDisk);
    }

    /// The bytes of the inode were recalled, if it is there. It takes no memory.
    pub fn recall(&mut self, ino: Ino, bytes: Bytes)
        ensures rows { self.new.rows.rows ≡ adjust self.old.rows.rows ino.0 (with_contents (as_recalled_of bytes)) }
    {
        let Some(mut row) = self.take(u128::from(ino.0)) else {
            return;
        };
        contents::recall(&mut row.1, bytes);
        self.put(row);
    }
}

// A put ends: with every copy stored, or not.
#[derive(Drop)]
struct PutEnds {
    dual: bool,
}

impl Edit<Inode> for PutEnds {
    ghost use Rattle.dm_durable.specs.Inodes.{as_ended, with_contents};

    ghost edited = { λ it. with_contents (as_ended it.dual) };

    fn edit(&self, row: &mut Inode) {
        contents::end(row, self.dual);
    }
}

// The bytes leave the disk.
struct LeavesDisk;

impl Edit<Inode> for LeavesDisk {
    ghost use Rattle.dm_durable.specs.Inodes.{as_offline, with_contents};

    ghost edited = { λ _. with_contents as_offline };

    fn edit(&self, row: &mut Inode) {
        contents::release(row);
    }
}
