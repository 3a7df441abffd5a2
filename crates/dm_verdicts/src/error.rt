//! Why a call has no verdict.

use dm_base::NoMemory;

/// Why there is no verdict on a call.
#[derive(Clone, Copy, Debug, PartialEq, Eq)]
pub enum VerdictError {
    /// The call would tell of what can't be told, or make what can't be held: the state isn't in range. No run reaches such a state.
    OutOfRange,
    /// Memory was refused.
    NoMemory,
}

impl From<NoMemory> for VerdictError {
    ghost use Rattle.std.specs.Prelude.{◌≡◌};
    ghost use Rattle.dm_verdicts.specs.declared.error.VerdictError.TheVariants.{NoMemory as OutOfMemory};

    ghost from_gives = { λ _ e. e ≡ OutOfMemory };

    fn from(_refused: NoMemory) -> VerdictError {
        VerdictError::NoMemory
    }
}
