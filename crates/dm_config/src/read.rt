//! The way from a text to a configuration.

ghost use Rattle.std.specs.Prelude.{◌≡◌, None, IfOk, IfErr, OnOk};
ghost use Rattle.toml.specs.View.{table_view};
ghost use Rattle.dm_config.specs.Config.{Configures, IsOf, RefusedFor};
ghost use Rattle.dm_config.specs.Misses.{Misses};
ghost use Rattle.dm_config.specs.Rows.{first_violated, groups_in, rows_of, space_in};

use crate::config::Config;
use crate::error::ConfigError;
use crate::groups::read_groups;
use crate::known::is_known;
use crate::space::read_space;
use crate::top::read_top;
use crate::value::{table_of, value_at};
use dm_base::{CONF_TEXT_LIMIT, ConfKey, Listed};
use std::alloc::Global;
use toml::Table;

/// The configuration of a site that a text says (docs/FORMATS.md, "Configuration").
///
/// `BadConfig` comes exactly where the text is outside its definition, with the first row that it violates. `NoMemory` is
/// tied to no cause. Nothing is kept of a text that is refused.
pub fn read_config(alloc: Global, text: &[u8]) -> Result<Config, ConfigError>
    ensures ok { IfOk result (Configures text.now) }
    ensures err { IfErr result (RefusedFor text.now) }
{
    if text.len() > CONF_TEXT_LIMIT {
        return Err(ConfigError::BadConfig {
            key: ConfKey::Length,
        });
    }
    match toml::table_from_slice(alloc, text) {
        Ok(table) => read_table(alloc, &table),
        Err(error) => {
            if error.is_memory() {
                return Err(ConfigError::NoMemory);
            }
            Err(ConfigError::BadConfig { key: ConfKey::Toml })
        }
    }
}

fn read_table(alloc: Global, table: &Table) -> Result<Config, ConfigError>
    ensures ok { IfOk result (IsOf (table_view table.now)) }
    ensures met { OnOk result (first_violated (rows_of (table_view table.now)) ≡ None) }
    ensures err { IfErr result (Misses (rows_of (table_view table.now))) }
{
    let none = Table::new(alloc);
    let groups = table_of(value_at(table, "group"), &none);
    let space = table_of(value_at(table, "space"), &none);
    read_parts(alloc, table, groups, space)
}

// The rows in their order: those at the top, of the groups, of space, and the keys that nobody knows.
fn read_parts(
    alloc: Global,
    table: &Table,
    groups: &Table,
    space: &Table,
) -> Result<Config, ConfigError>
    requires groups { table_view groups.now ≡ groups_in (table_view table.now) }
    requires space { table_view space.now ≡ space_in (table_view table.now) }
    ensures ok { IfOk result (IsOf (table_view table.now)) }
    ensures met { OnOk result (first_violated (rows_of (table_view table.now)) ≡ None) }
    ensures err { IfErr result (Misses (rows_of (table_view table.now))) }
{
    let top = match read_top(table, groups) {
        Ok(top) => top,
        Err(key) => return Err(ConfigError::BadConfig { key }),
    };
    let confs = match read_groups(alloc, groups) {
        Ok(confs) => confs,
        Err(error) => return Err(error),
    };
    let space = match read_space(space, top.daemon.cap) {
        Ok(space) => space,
        Err(key) => return Err(ConfigError::BadConfig { key }),
    };
    if !is_known(table, groups) {
        return Err(ConfigError::BadConfig {
            key: ConfKey::Unknown,
        });
    }
    let copies = top.copies;
    Ok(Config {
        daemon: top.daemon,
        sessions: top.sessions,
        copies,
        groups: Listed::from_vec(confs),
        space,
    })
}
