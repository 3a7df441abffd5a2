//! Rows that are changed where they stand, by changes that may want memory.

ghost use Rattle.std.specs.Prelude.{◌≡◌, ℕ, OnOk};

use dm_base::NoMemory;

/// A change of a row where it stands, which may want memory. Where that is refused, nothing is said of the row.
pub trait TryEdit<V> {
    ghost edited: { Self → V → V };

    /// Changes the row.
    fn try_edit(&self, row: &mut V) -> Result<(), NoMemory>
        ensures { OnOk result (row.new ≡ edited self.now row.old) };
}

/// The same, where the change is told the row's number.
pub trait TryEditAt<V> {
    ghost edited: { Self → ℕ → V → V };

    /// Changes the row.
    fn try_edit_at(&self, key: u128, row: &mut V) -> Result<(), NoMemory>
        ensures { OnOk result (row.new ≡ edited self.now key row.old) };
}
