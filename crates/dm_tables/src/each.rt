//! Methods that go over all rows: each is changed, one is looked for, or a weight is summed up.

ghost use Rattle.std.specs.Prelude.{◌≡◌, ℕ, Bool, IfOk};
ghost use Rattle.dm_tables.specs.Rows.{any as any_row, map_values};
ghost use Rattle.dm_tables.specs.Totals.{total as total_of};

use crate::edit::TryEditAt;
use crate::numbers::Numbers;
use crate::texts::Texts;
use dm_base::NoMemory;
use std::alloc::Global;

/// A change of a row.
pub trait Change<V> {
    ghost changed: { Self → V → V };

    /// The row as it is after the change.
    fn change(&self, row: V) -> V
        ensures { result ≡ changed self.now row };
}

/// A question that a row is asked.
pub trait Test<V> {
    ghost passes: { Self → V → Bool };

    /// Whether the row passes.
    fn test(&self, row: &V) -> bool
        ensures { result ≡ passes self.now row.now };
}

/// A number that each row adds to a sum.
pub trait Weight<V> {
    ghost weight: { Self → V → ℕ };

    /// What the row adds.
    fn weigh(&self, row: &V) -> u64
        ensures { result ≡ weight self.now row.now };
}

impl<V> Numbers<V> {
    /// The table with each row changed, in memory of its own.
    pub fn mapped<F: Change<V>>(self, alloc: Global, change: &F) -> Result<Numbers<V>, NoMemory>
    where
        V: Drop,
        ensures { IfOk result (λ changed. changed ≡ map_values (λ _. F.changed change.now) self) }
    {
        let mut changed = Numbers::empty(alloc);
        for (key, row) in self.into_entries() {
            changed.insert(key, change.change(row))?;
        }
        Ok(changed)
    }

    /// The table with each row edited, in memory of its own.
    pub fn edited<E: TryEditAt<V>>(self, alloc: Global, edit: &E) -> Result<Numbers<V>, NoMemory>
    where
        V: Drop,
        ensures { IfOk result (λ edited. edited ≡ map_values (E.edited edit.now) self) }
    {
        let mut edited = Numbers::empty(alloc);
        for (key, row) in self.into_entries() {
            let mut row = row;
            edit.try_edit_at(key, &mut row)?;
            edited.insert(key, row)?;
        }
        Ok(edited)
    }

    /// Whether some row passes.
    pub fn any<T: Test<V>>(&self, test: &T) -> bool
        ensures { result ≡ any_row (λ _. T.passes test.now) self.now }
    {
        for (_, row) in self.entries() {
            if test.test(row) {
                return true;
            }
        }
        false
    }

    /// The sum of what the rows add.
    pub fn total<W: Weight<V>>(&self, weight: &W) -> u128
        ensures { result ≡ total_of (W.weight weight.now) self.now }
    {
        let mut sum = 0;
        for (_, row) in self.entries() {
            sum += u128::from(weight.weigh(row));
        }
        sum
    }
}

impl<V> Texts<V> {
    /// The table with each row changed, in memory of its own.
    pub fn mapped<F: Change<V>>(self, alloc: Global, change: &F) -> Result<Texts<V>, NoMemory>
    where
        V: Drop,
        ensures { IfOk result (λ changed. changed ≡ map_values (λ _. F.changed change.now) self) }
    {
        let mut changed = Texts::empty(alloc);
        for (key, row) in self.into_entries() {
            let row = change.change(row);
            changed.insert(key, row)?;
        }
        Ok(changed)
    }
}
