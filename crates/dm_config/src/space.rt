//! The rows of space management.

ghost use Rattle.std.specs.Prelude.{◌≡◌, ◌≤◌, Some, None, IfOk, IfErr, OnOk};
ghost use Rattle.toml.specs.View.{table_view};
ghost use Rattle.dm_config.specs.Rows.{first_violated, space_rows};
ghost use Rattle.dm_config.specs.Space.{HasSpace};

use crate::value::number_at;
use dm_base::{ConfKey, SpaceConf, WEIGHT_LIMIT};
use toml::Table;

/// What the rows say of bounds up to this cap and of weights, or the first of them that is violated.
pub fn read_space(table: &Table, cap: u64) -> Result<SpaceConf, ConfKey>
    ensures ok { IfOk result (HasSpace cap (table_view table.now)) }
    ensures met { OnOk result (first_violated (space_rows cap (table_view table.now)) ≡ None) }
    ensures err { IfErr result (λ key. first_violated (space_rows cap (table_view table.now)) ≡ Some key) }
{
    let Some(high) = number_at(table, "high", 0, cap, Some(cap)) else {
        return Err(ConfKey::SpaceHigh);
    };
    let Some(low) = number_at(table, "low", 0, high, Some(high)) else {
        return Err(ConfKey::SpaceLow);
    };
    let Some(ahead) = number_at(table, "ahead", 0, cap, Some(cap)) else {
        return Err(ConfKey::SpaceAhead);
    };
    let Some(age_weight) = number_at(table, "age_weight", 0, WEIGHT_LIMIT, Some(1)) else {
        return Err(ConfKey::SpaceAgeWeight);
    };
    let Some(size_weight) = number_at(table, "size_weight", 0, WEIGHT_LIMIT, Some(0)) else {
        return Err(ConfKey::SpaceSizeWeight);
    };
    Ok(SpaceConf {
        high,
        low,
        ahead,
        age_weight,
        size_weight,
    })
}
