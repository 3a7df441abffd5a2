//! A change of a row where it stands.

ghost use Rattle.std.specs.Prelude.{◌≡◌};

/// A change of a row where it stands. It takes no memory and cannot be refused.
pub trait Edit<V> {
    ghost edited: { Self → V → V };

    /// Changes the row.
    fn edit(&self, row: &mut V)
        ensures { row.new ≡ edited self.now row.old };
}
