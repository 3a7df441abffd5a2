//! Why no zone was read.
ghost use Rattle.std.specs.Prelude.{◌≡◌};
ghost use Rattle.dm_zone.specs.declared.error.ZoneError.TheVariants.{NoMemory};

use std::alloc::{AllocError, AllocFailed};

/// Why bytes were not read as a zone.
#[derive(Clone, Copy, Debug, PartialEq, Eq)]
pub enum ZoneError {
    /// The bytes are no zone. The place is that of the first byte of the first field that is wrong;
    /// where the bytes end inside a field, it is their length.
    BadZone { place: u64 },
    /// Memory for the list of chunks was refused.
    NoMemory,
}

impl From<AllocError> for ZoneError {
    ghost from_gives = { λ _ e. e ≡ NoMemory };

    fn from(_: AllocError) -> ZoneError {
        ZoneError::NoMemory
    }
}

impl<T: Drop> From<AllocFailed<T>> for ZoneError {
    ghost from_gives = { λ _ e. e ≡ NoMemory };

    fn from(_: AllocFailed<T>) -> ZoneError {
        ZoneError::NoMemory
    }
}
