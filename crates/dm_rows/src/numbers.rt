//! Rows by a number.

ghost use Rattle.std.specs.Prelude.{◌≡◌, ◌^◌, ◌<◌, ◌≤◌, ◌+◌, ℕ, cond, is_some, IsTrue, IsOk, OnOk, ◌↔◌, map as map_list, slice_get};
ghost use Rattle.std.specs.Option.{option_copied, option_map};
ghost use Rattle.std.specs.Ordering.{nat_cmp};
ghost use Rattle.std.specs.FinMap as map;
ghost use Rattle.std.specs.FinMap.{is_sorted};
ghost use Rattle.dm_tables.specs.Rows.{adjust, map_values, row_after};
ghost use Rattle.dm_rows.specs.Rows.{rank as rank_of};
ghost use Rattle.dm_rows.specs.Places.{place_of, row_of, with_key};

use crate::edit::Edit;
use crate::places;
use dm_base::NoMemory;
use std::alloc::Global;
use std::marker::Model;

/// Rows by numbers, in their order.
#[derive(Drop)]
pub struct NumberRows<V> {
    rows: Vec<Box<(u128, V)>>,
}

impl<V> Model for NumberRows<V> {
    ghost use Rattle.std.specs.Prelude.{◌-◌, IsTrue, ℕ, map as map_list};
    ghost use Rattle.std.specs.FinMap as map;
    ghost use Rattle.std.specs.FinMap.{is_sorted};
    ghost use Rattle.std.specs.Ordering.{nat_cmp};
    ghost use Rattle.std.specs.Coded.{coded_ℕ};
    ghost use Rattle.dm_rows.specs.Rows.{TableContents, contents_code};
    ghost use Rattle.dm_rows.specs.Places.{row_of};

    ghost Value = { TableContents nat_cmp V };

    ghost coded = { contents_code coded_ℕ V.code };

    ghost view = { λ a. record { rows = map.from_entries (map_list row_of a.rows.items); spare = a.rows.cap - a.rows.len } };

    ghost invariant = { λ a. IsTrue (is_sorted nat_cmp (map_list row_of a.rows.items)) };
}

// Where the row of the key stands, or where it would have to be put.
fn place<V>(rows: &[Box<(u128, V)>], key: u128) -> Result<usize, usize>
    requires { IsTrue (is_sorted nat_cmp (map_list row_of rows.now)) }
    ensures { result ≡ place_of nat_cmp key (map_list row_of rows.now) }
{
    rows.binary_search_by(|row| row.0.cmp(&key))
}

impl<V> NumberRows<V> {
    /// No rows, and no place. It takes no memory.
    pub fn empty(alloc: Global) -> NumberRows<V>
        ensures { result.rows ≡ map.empty }
    {
        NumberRows {
            rows: Vec::new(alloc),
        }
    }

    /// How many rows there are.
    pub fn len(&self) -> usize
        ensures len { result ≡ map.len self.now.rows }
        ensures small { result < 2 ^ 63 }
    {
        self.rows.len()
    }

    /// Whether there is no row.
    pub fn is_empty(&self) -> bool
        ensures { IsTrue result ↔ (self.now.rows ≡ map.empty) }
    {
        self.len() == 0
    }

    /// Keeps places for so many rows more, at least.
    pub fn reserve(&mut self, rows: usize) -> Result<(), NoMemory>
        ensures rows { self.new.rows ≡ self.old.rows }
        ensures room { OnOk result (rows ≤ self.new.spare) }
        ensures kept { self.old.spare ≤ self.new.spare }
        ensures succeeds { rows ≤ self.old.spare → IsOk result }
    {
        self.rows.reserve(rows)?;
        Ok(())
    }

    /// The row with this number, or none.
    pub fn get(&self, key: u128) -> Option<&V>
        ensures { option_copied result ≡ map.get self.now.rows key }
    {
        match place(self.rows.as_slice(), key) {
            Ok(at) => Some(&self.rows[at].1),
            Err(_) => None,
        }
    }

    /// Whether there is a row with this number.
    pub fn contains(&self, key: u128) -> bool
        ensures { result ≡ is_some (map.get self.now.rows key) }
    {
        self.get(key).is_some()
    }

    /// The row at this place in the order of the numbers, with its number.
    pub fn entry(&self, at: usize) -> Option<(u128, &V)>
        ensures { option_map (λ e. (e.0, e.1.now)) result ≡ slice_get (map.entries self.now.rows) at }
    {
        match self.rows.get(at) {
            Some(row) => Some((row.0, &row.1)),
            None => None,
        }
    }

    /// How many rows have a lesser number: the place of the number's row, if it is there.
    pub fn rank(&self, key: u128) -> usize
        ensures { result ≡ rank_of self.now.rows key }
    {
        match place(self.rows.as_slice(), key) {
            Ok(at) => at,
            Err(at) => at,
        }
    }

    /// The first row past this number, or the first of all; none where no row is left. So a loop goes
    /// over the rows and changes the table on its way.
    pub fn first_after(&self, key: Option<u128>) -> Option<(u128, &V)>
        ensures { option_map (λ e. (e.0, e.1.now)) result ≡ row_after self.now.rows key }
    {
        match key {
            None => self.entry(0),
            Some(key) => match place(self.rows.as_slice(), key) {
                Ok(at) => self.entry(at + 1),
                Err(at) => self.entry(at),
            },
        }
    }

    /// Puts the row into a place that is kept. Where there was a row with this number, it is dropped,
    /// and no place is used up. It takes no memory.
    pub fn insert_reserved(&mut self, row: Box<(u128, V)>)
    where
        V: Drop,
        requires { 0 < self.old.spare }
        ensures rows { self.new.rows ≡ map.insert self.old.rows row.value.0 row.value.1 }
        ensures spare { self.new.spare + 1 ≡ cond (is_some (map.get self.old.rows row.value.0)) (self.old.spare + 1) self.old.spare }
    {
        match place(self.rows.as_slice(), row.0) {
            Ok(at) => self.rows[at] = row,
            Err(at) => places::put(&mut self.rows, at, row),
        }
    }

    /// Takes the row out, in its box, and keeps its place. It takes no memory.
    pub fn take(&mut self, key: u128) -> Option<Box<(u128, V)>>
        ensures row { option_map row_of result ≡ with_key key (map.get self.old.rows key) }
        ensures rows { self.new.rows ≡ map.remove self.old.rows key }
        ensures spare { self.new.spare ≡ cond (is_some (map.get self.old.rows key)) (self.old.spare + 1) self.old.spare }
    {
        match place(self.rows.as_slice(), key) {
            Ok(at) => Some(self.rows.remove(at)),
            Err(_) => None,
        }
    }

    /// Takes the row out, and keeps its place. It takes no memory.
    pub fn remove(&mut self, key: u128) -> Option<V>
        ensures value { result ≡ map.get self.old.rows key }
        ensures rows { self.new.rows ≡ map.remove self.old.rows key }
        ensures spare { self.new.spare ≡ cond (is_some (map.get self.old.rows key)) (self.old.spare + 1) self.old.spare }
    {
        match self.take(key) {
            Some(row) => Some(Box::into_inner(row).1),
            None => None,
        }
    }

    /// Changes the row where it stands, and says whether it was there. It takes no memory.
    pub fn change<F: Edit<V>>(&mut self, key: u128, edit: &F) -> bool
        ensures there { result ≡ is_some (map.get self.old.rows key) }
        ensures rows { self.new.rows ≡ adjust self.old.rows key (F.edited edit.now) }
        ensures spare { self.new.spare ≡ self.old.spare }
    {
        match place(self.rows.as_slice(), key) {
            Ok(at) => {
                places::edit_at(self.rows.as_mut_slice(), at, edit);
                true
            }
            Err(_) => false,
        }
    }

    /// Changes each row where it stands. It takes no memory.
    pub fn change_all<F: Edit<V>>(&mut self, edit: &F)
        ensures rows { self.new.rows ≡ map_values (λ _. F.edited edit.now) self.old.rows }
        ensures spare { self.new.spare ≡ self.old.spare }
    {
        places::edit_all(self.rows.as_mut_slice(), edit);
    }
}
