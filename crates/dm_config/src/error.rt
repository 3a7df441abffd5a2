//! Why a configuration was not read.

use dm_base::{ConfKey, NoMemory};
use thiserror::Error;

/// Why a configuration was not read.
#[derive(Clone, Copy, Debug, PartialEq, Eq, Error)]
pub enum ConfigError {
    /// The first row that the text violates.
    #[error("the configuration is refused for {key:?}")]
    BadConfig { key: ConfKey },
    /// Memory was refused.
    #[error("no memory for the configuration")]
    NoMemory,
}

impl From<NoMemory> for ConfigError {
    ghost use Rattle.std.specs.Prelude.{◌≡◌};
    ghost use Rattle.dm_config.specs.declared.error.ConfigError.TheVariants.{NoMemory};

    ghost from_gives = { λ _ e. e ≡ NoMemory };

    fn from(_refused: NoMemory) -> ConfigError {
        ConfigError::NoMemory
    }
}
