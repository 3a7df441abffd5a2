//! What a reader hears.
//!
//! The payload of a command is part of its item, so an item is whole once it is heard. A line outside
//! the grammar is an item too, since it is answered; it takes no payload with it.

ghost use Rattle.std.specs.Prelude.{◌≡◌};
ghost use Rattle.dm_proto.specs.declared.heard.InputError.TheVariants.{NoMemory};

use dm_base::{Command, NoMemory};
use std::alloc::AllocError;

/// One item of an input.
#[derive(Drop)]
pub enum Heard {
    /// A command, with its payload.
    Command(Command),
    /// A line with a word that is no command; no payload is read for it.
    Syntax,
}

/// Why a reader cannot go on.
#[derive(Clone, Copy, Debug, PartialEq, Eq)]
pub enum InputError {
    /// A line has more than 1,024 bytes.
    LongLine,
    /// Memory was refused.
    NoMemory,
}

impl From<NoMemory> for InputError {
    ghost from_gives = { λ _ e. e ≡ NoMemory };

    fn from(_refused: NoMemory) -> InputError {
        InputError::NoMemory
    }
}

impl From<AllocError> for InputError {
    ghost from_gives = { λ _ e. e ≡ NoMemory };

    fn from(_refused: AllocError) -> InputError {
        InputError::NoMemory
    }
}
