//! Tokens of one kind.

ghost use Rattle.std.specs.Prelude.{◌≡◌, ◌<◌, ◌≤◌, ◌+◌, ◌^◌, OnOk, IfSome};
ghost use Rattle.std.specs.Option.{option_copied, option_map};
ghost use Rattle.std.specs.FinMap as map;
ghost use Rattle.dm_rows.specs.Places.{row_of, with_key};
ghost use Rattle.dm_tables.specs.Rows.{any as any_row};
ghost use Rattle.dm_model.specs.Volumes.{is_being_reused as is_being_reused_of, is_mounted as is_mounted_of, is_reserved as is_reserved_of};

use crate::tests_of_rows::{HasPieceOn, IsMountOf, IsReuseOf};
use dm_base::{NoMemory, Vsn};
use dm_model::{Mounted, Reserved, Reusing};
use dm_rows::NumberRows;
use dm_tables::Test;
use std::alloc::Global;

/// The open tokens by number, and the number of the next.
#[derive(Drop)]
pub struct Tokens<V> {
    rows: NumberRows<V>,
    next: u128,
}

impl<V> Tokens<V> {
    /// No token. It takes no memory.
    pub fn empty(alloc: Global) -> Tokens<V>
        ensures rows { result.rows.rows ≡ map.empty }
        ensures next { result.next ≡ 0 }
    {
        Tokens {
            rows: NumberRows::empty(alloc),
            next: 0,
        }
    }

    /// How many are open.
    pub fn len(&self) -> usize
        ensures { result ≡ map.len self.now.rows.rows }
    {
        self.rows.len()
    }

    /// The token with this number, or none.
    pub fn get(&self, number: u64) -> Option<&V>
        ensures { option_copied result ≡ map.get self.now.rows.rows number }
    {
        self.rows.get(u128::from(number))
    }

    /// Keeps places for so many tokens more, at least.
    pub fn reserve(&mut self, tokens: usize) -> Result<(), NoMemory>
        ensures rows { self.new.rows.rows ≡ self.old.rows.rows }
        ensures next { self.new.next ≡ self.old.next }
        ensures room { OnOk result (tokens ≤ self.new.rows.spare) }
        ensures kept { self.old.rows.spare ≤ self.new.rows.spare }
    {
        self.rows.reserve(tokens)
    }

    /// The number of the next token; none where the numbers of 64 bits are used up, which no run comes to see.
    pub fn fresh(&self) -> Option<u64>
        ensures { IfSome result (λ number. number ≡ self.now.next) }
    {
        match u64::try_from(self.next) {
            Ok(number) => Some(number),
            Err(_) => None,
        }
    }

    /// The token of the row begins, with the number of the row, in a place that is kept. It takes no memory.
    pub fn begin(&mut self, row: Box<(u128, V)>)
    where
        V: Drop,
        requires place { 0 < self.old.rows.spare }
        requires small { row.value.0 < 2 ^ 64 }
        ensures rows { self.new.rows.rows ≡ map.insert self.old.rows.rows row.value.0 row.value.1 }
        ensures next { self.new.next ≡ row.value.0 + 1 }
        ensures places { self.old.rows.spare ≤ self.new.rows.spare + 1 }
    {
        self.next = row.0 + 1;
        self.rows.insert_reserved(row);
    }

    /// The token is over: it is handed out, in its box, if it is there. It takes no memory.
    pub fn end(&mut self, number: u64) -> Option<Box<(u128, V)>>
        ensures row { option_map row_of result ≡ with_key number (map.get self.old.rows.rows number) }
        ensures rows { self.new.rows.rows ≡ map.remove self.old.rows.rows number }
        ensures next { self.new.next ≡ self.old.next }
        ensures places { self.old.rows.spare ≤ self.new.rows.spare }
    {
        self.rows.take(u128::from(number))
    }

    // Whether some token passes.
    fn any<T: Test<V>>(&self, test: &T) -> bool
        ensures { result ≡ any_row (λ _. T.passes test.now) self.now.rows.rows }
    {
        for at in 0..self.rows.len() {
            let Some((_, row)) = self.rows.entry(at) else {
                return false;
            };
            if test.test(row) {
                return true;
            }
        }
        false
    }
}

impl Tokens<Mounted> {
    /// Whether the volume is mounted.
    pub fn is_mounted(&self, vsn: Vsn) -> bool
        ensures { result ≡ is_mounted_of self.now.rows.rows vsn.0 }
    {
        self.any(&IsMountOf { vsn })
    }
}

impl Tokens<Reserved> {
    /// Whether a reservation has a piece on the volume.
    pub fn is_reserved(&self, vsn: Vsn) -> bool
        ensures { result ≡ is_reserved_of self.now.rows.rows vsn.0 }
    {
        self.any(&HasPieceOn { vsn })
    }
}

impl Tokens<Reusing> {
    /// Whether the volume is about to be labelled anew.
    pub fn is_being_reused(&self, vsn: Vsn) -> bool
        ensures { result ≡ is_being_reused_of self.now.rows.rows vsn.0 }
    {
        self.any(&IsReuseOf { vsn })
    }
}
