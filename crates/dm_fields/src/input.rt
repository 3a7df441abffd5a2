//! Bytes that are read from the front.

ghost use Rattle.std.specs.Prelude.{◌≡◌, ◌<◌, ◌++◌, length, MatchOption, IsTrue, ◌↔◌, [], List};

use dm_base::NoMemory as Want;
use std::marker::Model;

/// Why a value was not read.
#[derive(Clone, Copy, Debug, PartialEq, Eq)]
pub enum ReadError {
    /// No value is spelled so.
    Damaged,
    /// Memory was refused. It is not known then whether a value is spelled there.
    NoMemory,
}

impl From<Want> for ReadError {
    ghost use Rattle.dm_fields.specs.declared.input.ReadError.TheVariants.{NoMemory};

    ghost from_gives = { λ _ e. e ≡ NoMemory };

    fn from(_refused: Want) -> ReadError {
        ReadError::NoMemory
    }
}

/// Bytes that are left to read. Contracts see them as their list.
#[derive(Drop)]
pub struct Input<'a> {
    rest: &'a [u8],
}

impl<'a> Model for Input<'a> {
    ghost use Rattle.std.specs.Prelude.{List, ℕ};

    ghost Value = { List ℕ };

    ghost view = { λ i. i.rest.now };
}

impl<'a> Input<'a> {
    /// All bytes of a record.
    pub fn of(bytes: &'a [u8]) -> Input<'a>
        ensures { result ≡ bytes.now }
    {
        Input { rest: bytes }
    }

    /// Whether no byte is left.
    pub fn is_empty(&self) -> bool
        ensures { IsTrue result ↔ (self.now ≡ []) }
    {
        self.rest.is_empty()
    }

    /// How many bytes are left.
    pub fn len(&self) -> usize
        ensures { result ≡ length self.now }
    {
        self.rest.len()
    }

    /// The next so many bytes, or none where fewer are left.
    pub fn take(&mut self, count: usize) -> Option<&'a [u8]>
        ensures { MatchOption result (length self.old < count)
            (λ bytes. (length bytes.now ≡ count) × (self.old ≡ bytes.now ++ self.new)) }
    {
        let (bytes, rest) = self.rest.split_at_checked(count)?;
        self.rest = rest;
        Some(bytes)
    }
}
