//! The names that a head and a state begin with: each tells the version of its journal.

ghost use Rattle.std.specs.Prelude.{◌≡◌, ℕ};

use dm_fields::{Field, Input, ReadError, Spelled};
use std::alloc::Global;

/// `DMDAEMN1`, the eight bytes of a number.
pub(crate) const FIRST_NAME: u64 = 0x444d_4441_454d_4e31;

/// `DMDAEMN2`, the same.
pub(crate) const SECOND_NAME: u64 = 0x444d_4441_454d_4e32;

/// The field `DMDAEMN1`, of version 1.
#[derive(Clone, Copy, Debug, PartialEq, Eq)]
pub struct FirstName;

/// The field `DMDAEMN2`, of version 2.
#[derive(Clone, Copy, Debug, PartialEq, Eq)]
pub struct SecondName;

impl Spelled for FirstName {
    ghost use Rattle.std.specs.Prelude.{⊤};
    ghost use Rattle.dm_durable.specs.declared.daemon_journal.JournalVersion.TheVariants.{First};
    ghost use Rattle.dm_records.specs.Names.{head_name};

    ghost spelling = { λ _. head_name First };

    ghost fits = { λ _. ⊤ };

    fn spelled_len(&self) -> usize {
        8
    }

    fn put(&self, out: &mut [u8], at: usize) -> usize {
        FIRST_NAME.put(out, at)
    }
}

impl Field for FirstName {
    ghost use Rattle.dm_records.specs.NamesOnce.{first_once};

    ghost once = { first_once };

    fn read(alloc: Global, input: &mut Input<'_>) -> Result<FirstName, ReadError> {
        match u64::read(alloc, input) {
            Ok(name) => {
                if name != FIRST_NAME {
                    return Err(ReadError::Damaged);
                }
                Ok(FirstName)
            }
            Err(error) => Err(error),
        }
    }
}

impl Spelled for SecondName {
    ghost use Rattle.std.specs.Prelude.{⊤};
    ghost use Rattle.dm_durable.specs.declared.daemon_journal.JournalVersion.TheVariants.{Second};
    ghost use Rattle.dm_records.specs.Names.{head_name};

    ghost spelling = { λ _. head_name Second };

    ghost fits = { λ _. ⊤ };

    fn spelled_len(&self) -> usize {
        8
    }

    fn put(&self, out: &mut [u8], at: usize) -> usize {
        SECOND_NAME.put(out, at)
    }
}

impl Field for SecondName {
    ghost use Rattle.dm_records.specs.NamesOnce.{second_once};

    ghost once = { second_once };

    fn read(alloc: Global, input: &mut Input<'_>) -> Result<SecondName, ReadError> {
        match u64::read(alloc, input) {
            Ok(name) => {
                if name != SECOND_NAME {
                    return Err(ReadError::Damaged);
                }
                Ok(SecondName)
            }
            Err(error) => Err(error),
        }
    }
}
