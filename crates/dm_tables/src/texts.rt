//! Rows by a text.

ghost use Rattle.std.specs.Prelude.{◌≡◌, ◌^◌, ◌<◌, ℕ, List, is_some, IsTrue, ◌↔◌, IfNone, OnOk, OnErr, OnSome};
ghost use Rattle.std.specs.List.{All};
ghost use Rattle.std.specs.Option.{option_copied, option_map};
ghost use Rattle.std.specs.FinMap as map;
ghost use Rattle.std.specs.Map.Iter.{ShowsInOrder, deref_pair};
ghost use Rattle.dm_tables.specs.Rows.{adjust, any as any_row, row_after};

use crate::each::Test;
use crate::edit::TryEdit;
use dm_base::{Bytes, NoMemory};
use std::alloc::Global;
use std::cmp::Ordering;
use std::collections::BTreeMap;
use std::collections::btree_map::{Comparable, IntoIter, Iter};
use std::marker::Model;
use std::mem;
use std::ops::Bound;

/// Rows by a text: a path, the name of a dump, a serial number.
#[derive(Drop)]
pub struct Texts<V> {
    rows: BTreeMap<Bytes, V>,
}

impl<V> Model for Texts<V> {
    ghost use Rattle.std.specs.FinMap as map;
    ghost use Rattle.std.specs.Ordering.{nat_cmp};
    ghost use Rattle.std.specs.Cmp.Lexicographic.{slice_cmp};
    ghost use Rattle.std.specs.Coded.{coded_ℕ, coded_list};

    ghost Value = { map.FinMap (slice_cmp nat_cmp) V };

    ghost coded = { map.code (coded_list coded_ℕ) V.code };

    ghost view = { λ a. map.from_entries a.rows.entries };
}

impl<V> Texts<V> {
    /// No rows. It takes no memory.
    pub fn empty(alloc: Global) -> Texts<V>
        ensures { result ≡ map.empty }
    {
        Texts {
            rows: BTreeMap::new(alloc),
        }
    }

    /// The row with this text, or none.
    pub fn get(&self, key: &[u8]) -> Option<&V>
        ensures { option_copied result ≡ map.get self.now key.now }
    {
        self.rows.get(Text(key))
    }

    /// Whether there is a row with this text.
    pub fn contains(&self, key: &[u8]) -> bool
        ensures { result ≡ is_some (map.get self.now key.now) }
    {
        self.get(key).is_some()
    }

    /// Puts the row there, in the place of the one that was. Where there was one, it takes no memory.
    pub fn insert(&mut self, key: Bytes, value: V) -> Result<(), NoMemory>
    where
        V: Drop,
        ensures ok { OnOk result (self.new ≡ map.insert self.old key value) }
        ensures err { OnErr result (self.new ≡ self.old) }
        ensures absent { OnErr result (map.get self.old key ≡ None) }
    {
        self.rows.insert(key, value)?;
        Ok(())
    }

    /// Puts the row in the place of the one with this text, which it gives back. Where there is
    /// none, nothing changes and the new row is dropped. It takes no memory.
    pub fn replace(&mut self, key: &[u8], value: V) -> Option<V>
    where
        V: Drop,
        ensures value { result ≡ map.get self.old key.now }
        ensures there { OnSome result (self.new ≡ map.insert self.old key.now value) }
        ensures absent { IfNone result (self.new ≡ self.old) }
    {
        match self.rows.get_mut(Text(key)) {
            Some(row) => Some(mem::replace(row, value)),
            None => None,
        }
    }

    /// Changes the row with this text where it stands, if it is there. Only the change may take memory;
    /// where that is refused, nothing is said of the row.
    pub fn edit<E: TryEdit<V>>(&mut self, key: &[u8], edit: &E) -> Result<(), NoMemory>
        ensures { OnOk result (self.new ≡ adjust self.old key.now (E.edited edit.now)) }
    {
        match self.rows.get_mut(Text(key)) {
            Some(row) => edit.try_edit(row),
            None => Ok(()),
        }
    }

    /// Takes the row out.
    pub fn remove(&mut self, key: &[u8]) -> Option<V>
        ensures value { result ≡ map.get self.old key.now }
        ensures removed { self.new ≡ map.remove self.old key.now }
    {
        self.rows.remove(Text(key))
    }

    // The rows with their texts, moved out, in the order of the texts.
    pub(crate) fn into_entries(self) -> IntoIter<Bytes, V>
    where
        V: Drop,
        ensures { result ≡ map.entries self }
    {
        let Texts { rows } = self;
        rows.into_iter()
    }

    /// How many rows there are.
    pub fn len(&self) -> usize
        ensures len { result ≡ map.len self.now }
        ensures small { result < 2 ^ 63 }
    {
        self.rows.len()
    }

    /// Whether there is no row.
    pub fn is_empty(&self) -> bool
        ensures { IsTrue result ↔ (self.now ≡ map.empty) }
    {
        self.len() == 0
    }

    /// The rows with their texts, in the order of the texts.
    pub fn entries(&self) -> Iter<'_, Bytes, V>
        ensures rest { result ≡ map.entries self.now }
        ensures runs { ShowsInOrder (deref_pair {K = List ℕ} {X = V}) }
        ensures found { All (λ e. map.get self.now e.0 ≡ Some e.1) (map.entries self.now) }
        ensures small { map.len self.now < 2 ^ 63 }
    {
        self.rows.iter()
    }

    /// The first row past this text, or the first of all; none where no row is left. So a loop goes
    /// over the rows and changes the table on its way.
    pub fn first_after(&self, key: Option<&Bytes>) -> Option<(&Bytes, &V)>
        ensures { option_map (λ p. (p.0.now, p.1.now)) result ≡ row_after self.now (option_copied key.entry) }
    {
        let start = match key {
            Some(key) => Bound::Excluded(key),
            None => Bound::Unbounded,
        };
        match self.rows.range((start, Bound::Unbounded)).next() {
            Some((key, row)) => Some((key, row)),
            None => None,
        }
    }

    /// Whether some row passes.
    pub fn any<T: Test<V>>(&self, test: &T) -> bool
        ensures { result ≡ any_row (λ _. T.passes test.now) self.now }
    {
        for (_, row) in self.entries() {
            if test.test(row) {
                return true;
            }
        }
        false
    }
}

// A text that is looked for, lent. It lies among the keys where the same bytes would.
#[derive(Clone, Copy)]
struct Text<'a>(&'a [u8]);

impl Comparable<Bytes> for Text<'_> {
    ghost use Rattle.std.specs.Ordering.{nat_cmp};
    ghost use Rattle.std.specs.Cmp.Lexicographic.{slice_cmp, nat_list_cmp_total};
    ghost use Rattle.std.specs.BTreeMap.Comparable.{le_lt_trans};

    ghost compare = { λ q k. slice_cmp nat_cmp q.0.now k };

    ghost respects_cmp = { λ q x y. nat_list_cmp_total.congr q.0.now x y };

    ghost below_greater = { λ q x y. le_lt_trans nat_list_cmp_total q.0.now x y };

    fn compare(&self, key: &Bytes) -> Ordering {
        self.0.cmp(key.as_slice())
    }
}
