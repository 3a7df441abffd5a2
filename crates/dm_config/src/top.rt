//! The rows at the top of the configuration.

ghost use Rattle.std.specs.Prelude.{◌≡◌, Some, None, IfOk, IfErr, OnOk};
ghost use Rattle.toml.specs.View.{table_view};
ghost use Rattle.dm_config.specs.Top.{IsTop};
ghost use Rattle.dm_config.specs.Rows.{first_violated, top_rows, groups_in};

use crate::copies::copies_at;
use crate::known::are_groups;
use crate::value::number_at;
use dm_base::{AGE_LIMIT, CAP_LIMIT, ConfKey, DaemonConf, GroupId, NUMBER_LIMIT, SESSIONS_LIMIT};
use toml::Table;

/// The default age: 30 days.
const DEFAULT_AGE: u64 = 2_592_000;

/// The default cap: a quarter of the greatest.
const DEFAULT_CAP: u64 = 67_108_864;

/// What the rows at the top say.
#[derive(Clone, Copy)]
pub struct Top {
    pub daemon: DaemonConf,
    pub sessions: u8,
    pub copies: [Option<GroupId>; 2],
}

/// What the rows at the top say, or the first of them that is violated.
pub fn read_top(table: &Table, groups: &Table) -> Result<Top, ConfKey>
    requires { table_view groups.now ≡ groups_in (table_view table.now) }
    ensures ok { IfOk result (λ top. IsTop (table_view table.now) top) }
    ensures met { OnOk result (first_violated (top_rows (table_view table.now)) ≡ None) }
    ensures err { IfErr result (λ key. first_violated (top_rows (table_view table.now)) ≡ Some key) }
{
    let Some(site) = number_at(table, "site", 1, NUMBER_LIMIT, None) else {
        return Err(ConfKey::Site);
    };
    let Some(first) = number_at(table, "first", 1, NUMBER_LIMIT, Some(1)) else {
        return Err(ConfKey::First);
    };
    let Some(age) = number_at(table, "age", 0, AGE_LIMIT, Some(DEFAULT_AGE)) else {
        return Err(ConfKey::Age);
    };
    let Some(cap) = number_at(table, "cap", 1, CAP_LIMIT, Some(DEFAULT_CAP)) else {
        return Err(ConfKey::Cap);
    };
    let daemon = DaemonConf {
        site,
        first,
        age,
        cap,
    };
    let Some(sessions) = number_at(table, "sessions", 1, SESSIONS_LIMIT, Some(4)) else {
        return Err(ConfKey::Sessions);
    };
    let Some(copies) = copies_at(table, groups) else {
        return Err(ConfKey::Copies);
    };
    if !are_groups(groups) {
        return Err(ConfKey::Group);
    }
    Ok(Top {
        daemon,
        sessions: sessions as u8,
        copies,
    })
}
