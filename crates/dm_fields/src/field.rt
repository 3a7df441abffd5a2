//! What a field is: it has a spelling, is written into room, and is read back.

ghost use Rattle.std.specs.Prelude.{◌≡◌, ◌<◌, ◌≤◌, ◌+◌, ◌^◌, ℕ, List, length};
ghost use Rattle.dm_fields.specs.Reading.{IsRead, IsSpelledOnce};
ghost use Rattle.dm_fields.specs.Writing.{IsPut};

use crate::input::{Input, ReadError};
use std::alloc::Global;

/// A value that has a spelling.
pub trait Spelled {
    ghost spelling: { Self → List ℕ };

    // Which values have one: those whose numbers have the width of their fields, and whose texts are in
    // their grammar.
    ghost fits: { Self → Type 0 };

    /// How many bytes it has.
    fn spelled_len(&self) -> usize
        requires { length (spelling self.now) < 2 ^ 64 }
        ensures { result ≡ length (spelling self.now) };

    /// Writes it behind the first `at` bytes, and answers where it ends. What stands from there on has no
    /// meaning.
    fn put(&self, out: &mut [u8], at: usize) -> usize
        requires fits { fits self.now }
        requires room { at + length (spelling self.now) ≤ length out.old }
        ensures { IsPut (spelling self.now) at out.old out.new result };
}

/// A value that can be read back.
pub trait Field: Spelled + Sized + Drop {
    /// The value that is spelled at the front of the input. After an error the input has no meaning.
    fn read(alloc: Global, input: &mut Input<'_>) -> Result<Self, ReadError>
        ensures { IsRead Self.spelling Self.fits input.old input.new result };

    ghost once: { IsSpelledOnce Self.spelling Self.fits };
}
