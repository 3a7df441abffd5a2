//! The groups of the configuration, in ascending number.

ghost use Rattle.std.specs.Prelude.{◌≡◌, ◌+◌, ◌-◌, ◌≤◌, ◌++◌, ◌∷◌, [], Some, None, IfOk, IfErr, OnOk};
ghost use Rattle.toml.specs.View.{table_view, view};
ghost use Rattle.dm_config.specs.Groups.{AreGroups, Grows, NumberRead};
ghost use Rattle.dm_config.specs.Misses.{Misses};
ghost use Rattle.dm_config.specs.Rows.{counted, first_violated, group_in, rows_of_groups, rows_of_number, volumes_of_number};

use crate::copies::group_key;
use crate::error::ConfigError;
use crate::group::read_group;
use crate::value::{table_of, value_at};
use dm_base::{GROUPS_LIMIT, GroupConf, GroupId, Vsn};
use std::alloc::Global;
use toml::{Table, Value};

/// The groups, or the first row of theirs that is violated.
pub fn read_groups(alloc: Global, groups: &Table) -> Result<Vec<GroupConf>, ConfigError>
    ensures ok { IfOk result (λ confs. AreGroups (table_view groups.now) (1 ∷ 2 ∷ 3 ∷ 4 ∷ []) [] confs.items) }
    ensures met { OnOk result (first_violated (rows_of_groups (table_view groups.now) [] (1 ∷ 2 ∷ 3 ∷ 4 ∷ [])) ≡ None) }
    ensures err { IfErr result (Misses (rows_of_groups (table_view groups.now) [] (1 ∷ 2 ∷ 3 ∷ 4 ∷ []))) }
{
    let mut taken = Vec::new(alloc);
    let mut confs = Vec::new(alloc);
    match read_from(alloc, groups, 1, &mut taken, &mut confs) {
        Ok(()) => Ok(confs),
        Err(error) => Err(error),
    }
}

// The groups from this number on, behind those that were read.
fn read_from(
    alloc: Global,
    groups: &Table,
    number: u8,
    taken: &mut Vec<Vsn>,
    confs: &mut Vec<GroupConf>,
) -> Result<(), ConfigError>
    requires low { 1 ≤ number }
    requires high { number ≤ 5 }
    ensures ok { OnOk result (Grows (table_view groups.now) (counted (5 - number) number) taken.old.items confs.old.items confs.new.items) }
    ensures met { OnOk result (first_violated (rows_of_groups (table_view groups.now) taken.old.items (counted (5 - number) number)) ≡ None) }
    ensures err { IfErr result (Misses (rows_of_groups (table_view groups.now) taken.old.items (counted (5 - number) number))) }
{
    if number > GROUPS_LIMIT {
        return Ok(());
    }
    match read_number(alloc, groups, number, taken, confs) {
        Err(error) => Err(error),
        Ok(()) => read_from(alloc, groups, number + 1, taken, confs),
    }
}

// The group of this number, where it is configured.
fn read_number(
    alloc: Global,
    groups: &Table,
    number: u8,
    taken: &mut Vec<Vsn>,
    confs: &mut Vec<GroupConf>,
) -> Result<(), ConfigError>
    requires low { 1 ≤ number }
    requires high { number ≤ 4 }
    ensures ok { OnOk result (NumberRead (group_in (table_view groups.now) number) number taken.old.items taken.new.items confs.old.items confs.new.items) }
    ensures met { OnOk result (first_violated (rows_of_number (group_in (table_view groups.now) number) (record { 0 = number }) taken.old.items) ≡ None) }
    ensures err { IfErr result (Misses (rows_of_number (group_in (table_view groups.now) number) (record { 0 = number }) taken.old.items)) }
{
    match value_at(groups, group_key(number)) {
        None => Ok(()),
        Some(value) => read_value(alloc, GroupId(number), value, taken, confs),
    }
}

fn read_value(
    alloc: Global,
    group: GroupId,
    value: &Value,
    taken: &mut Vec<Vsn>,
    confs: &mut Vec<GroupConf>,
) -> Result<(), ConfigError>
    ensures ok { OnOk result (NumberRead (Some (view value.now)) group.0 taken.old.items taken.new.items confs.old.items confs.new.items) }
    ensures met { OnOk result (first_violated (rows_of_number (Some (view value.now)) group taken.old.items) ≡ None) }
    ensures err { IfErr result (Misses (rows_of_number (Some (view value.now)) group taken.old.items)) }
{
    let none = Table::new(alloc);
    match read_group(alloc, group, table_of(Some(value), &none), taken) {
        Err(error) => Err(error),
        Ok(conf) => keep(conf, confs),
    }
}

fn keep(conf: GroupConf, confs: &mut Vec<GroupConf>) -> Result<(), ConfigError>
    ensures ok { OnOk result (confs.new.items ≡ confs.old.items ++ conf ∷ []) }
    ensures err { IfErr result (λ error. error ≡ ConfigError.NoMemory) }
{
    match confs.push(conf) {
        Ok(()) => Ok(()),
        Err(_) => Err(ConfigError::NoMemory),
    }
}
