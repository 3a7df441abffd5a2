//! Rows by a number.

ghost use Rattle.std.specs.Prelude.{◌≡◌, ◌^◌, ◌<◌, ℕ, is_some, IsTrue, ◌↔◌, IfNone, OnOk, OnErr, OnSome};
ghost use Rattle.std.specs.List.{All};
ghost use Rattle.std.specs.Option.{option_copied, option_map};
ghost use Rattle.std.specs.FinMap as map;
ghost use Rattle.std.specs.Map.Iter.{ShowsInOrder, deref_pair};
ghost use Rattle.dm_tables.specs.Rows.{adjust, row_after};

use crate::edit::TryEdit;
use dm_base::NoMemory;
use std::alloc::Global;
use std::collections::BTreeMap;
use std::collections::btree_map::{IntoIter, Iter};
use std::marker::Model;
use std::mem;
use std::ops::Bound;

/// Rows by their numbers.
#[derive(Drop)]
pub struct Numbers<V> {
    rows: BTreeMap<u128, V>,
}

impl<V> Model for Numbers<V> {
    ghost use Rattle.std.specs.FinMap as map;
    ghost use Rattle.std.specs.Ordering.{nat_cmp};
    ghost use Rattle.std.specs.Coded.{coded_ℕ};

    ghost Value = { map.FinMap nat_cmp V };

    ghost coded = { map.code coded_ℕ V.code };

    ghost view = { λ a. map.from_entries a.rows.entries };
}

impl<V> Numbers<V> {
    /// No rows. It takes no memory.
    pub fn empty(alloc: Global) -> Numbers<V>
        ensures { result ≡ map.empty }
    {
        Numbers {
            rows: BTreeMap::new(alloc),
        }
    }

    /// The row with this number, or none.
    pub fn get(&self, key: u128) -> Option<&V>
        ensures { option_copied result ≡ map.get self.now key }
    {
        self.rows.get(&key)
    }

    /// Whether there is a row with this number.
    pub fn contains(&self, key: u128) -> bool
        ensures { result ≡ is_some (map.get self.now key) }
    {
        self.get(key).is_some()
    }

    /// Puts the row there, in the place of the one that was. Where there was one, it takes no memory.
    pub fn insert(&mut self, key: u128, value: V) -> Result<(), NoMemory>
    where
        V: Drop,
        ensures ok { OnOk result (self.new ≡ map.insert self.old key value) }
        ensures err { OnErr result (self.new ≡ self.old) }
        ensures absent { OnErr result (map.get self.old key ≡ None) }
    {
        self.rows.insert(key, value)?;
        Ok(())
    }

    /// Puts the row in the place of the one with this number, which it gives back. Where there is
    /// none, nothing changes and the new row is dropped. It takes no memory.
    pub fn replace(&mut self, key: u128, value: V) -> Option<V>
    where
        V: Drop,
        ensures value { result ≡ map.get self.old key }
        ensures there { OnSome result (self.new ≡ map.insert self.old key value) }
        ensures absent { IfNone result (self.new ≡ self.old) }
    {
        match self.rows.get_mut(&key) {
            Some(row) => Some(mem::replace(row, value)),
            None => None,
        }
    }

    /// Changes the row with this number where it stands, if it is there. Only the change may take memory;
    /// where that is refused, nothing is said of the row.
    pub fn edit<E: TryEdit<V>>(&mut self, key: u128, edit: &E) -> Result<(), NoMemory>
        ensures { OnOk result (self.new ≡ adjust self.old key (E.edited edit.now)) }
    {
        match self.rows.get_mut(&key) {
            Some(row) => edit.try_edit(row),
            None => Ok(()),
        }
    }

    /// Takes the row out.
    pub fn remove(&mut self, key: u128) -> Option<V>
        ensures value { result ≡ map.get self.old key }
        ensures removed { self.new ≡ map.remove self.old key }
    {
        self.rows.remove(&key)
    }

    // The rows with their numbers, moved out, in the order of the numbers.
    pub(crate) fn into_entries(self) -> IntoIter<u128, V>
    where
        V: Drop,
        ensures { result ≡ map.entries self }
    {
        let Numbers { rows } = self;
        rows.into_iter()
    }

    /// How many rows there are.
    pub fn len(&self) -> usize
        ensures len { result ≡ map.len self.now }
        ensures small { result < 2 ^ 63 }
    {
        self.rows.len()
    }

    /// Whether there is no row.
    pub fn is_empty(&self) -> bool
        ensures { IsTrue result ↔ (self.now ≡ map.empty) }
    {
        self.len() == 0
    }

    /// The rows with their numbers, in the order of the numbers.
    pub fn entries(&self) -> Iter<'_, u128, V>
        ensures rest { result ≡ map.entries self.now }
        ensures runs { ShowsInOrder (deref_pair {K = ℕ} {X = V}) }
        ensures found { All (λ e. map.get self.now e.0 ≡ Some e.1) (map.entries self.now) }
        ensures small { map.len self.now < 2 ^ 63 }
    {
        self.rows.iter()
    }

    /// The first row past this number, or the first of all; none where no row is left. So a loop goes
    /// over the rows and changes the table on its way.
    pub fn first_after(&self, key: Option<u128>) -> Option<(u128, &V)>
        ensures { option_map (λ p. (p.0, p.1.now)) result ≡ row_after self.now key }
    {
        let start = match key {
            Some(key) => Bound::Excluded(key),
            None => Bound::Unbounded,
        };
        match self.rows.range((start, Bound::Unbounded)).next() {
            Some((key, row)) => Some((*key, row)),
            None => None,
        }
    }
}
