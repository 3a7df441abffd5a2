//! Which keys stand where.

ghost use Rattle.std.specs.Prelude.{◌≡◌, codes, Some};
ghost use Rattle.std.specs.List.{list_all};
ghost use Rattle.std.specs.BTreeMap.{values};
ghost use Rattle.toml.specs.Data.{get_member};
ghost use Rattle.toml.specs.View.{table_view, view};
ghost use Rattle.dm_config.specs.Value.{has_only as has_only_names};
ghost use Rattle.dm_config.specs.Rows.{are_groups as are_groups_in, group_is_known, groups_are_known as groups_are_known_in, groups_in, is_filled, is_known as is_known_in, space_is_known as space_is_known_in, top_names};

use crate::value::{are_tables, has_only, value_at};
use toml::{Table, Value};

/// Whether the table of groups is one: not empty, with the numbers of groups as keys, and tables as values.
pub fn are_groups(groups: &Table) -> bool
    ensures { result ≡ are_groups_in (table_view groups.now) }
{
    has_some(groups) && has_only(groups, &["1", "2", "3", "4"]) && are_tables(groups)
}

fn has_some(table: &Table) -> bool
    ensures { result ≡ is_filled (table_view table.now) }
{
    !table.is_empty()
}

/// Whether each key, at the top, in the groups and in the table of space, is known.
pub fn is_known(table: &Table, groups: &Table) -> bool
    requires { table_view groups.now ≡ groups_in (table_view table.now) }
    ensures { result ≡ is_known_in (table_view table.now) }
{
    has_top_names(table) && groups_are_known(groups) && space_is_known(table)
}

fn has_top_names(table: &Table) -> bool
    ensures { result ≡ has_only_names top_names (table_view table.now) }
{
    let names = [
        "site", "first", "age", "cap", "sessions", "copies", "group", "space",
    ];
    has_only(table, &names)
}

fn groups_are_known(groups: &Table) -> bool
    ensures { result ≡ groups_are_known_in (table_view groups.now) }
{
    all_groups_known(groups)
}

fn all_groups_known(groups: &Table) -> bool
    ensures { result ≡ list_all (λ v. group_is_known (view v)) (values groups.now) }
{
    groups.values().all(|group| is_known_group(group))
}

fn is_known_group(group: &Value) -> bool
    ensures { result ≡ group_is_known (view group.now) }
{
    match group.as_table() {
        None => true,
        Some(table) => {
            let names = [
                "drives", "chunk", "sparse", "hold", "volumes", "size", "format",
            ];
            has_only(table, &names)
        }
    }
}

fn space_is_known(table: &Table) -> bool
    ensures { result ≡ space_is_known_in (get_member (codes "space") (table_view table.now)) }
{
    match value_at(table, "space") {
        None => true,
        Some(space) => is_known_space(space),
    }
}

fn is_known_space(space: &Value) -> bool
    ensures { result ≡ space_is_known_in (Some (view space.now)) }
{
    match space.as_table() {
        None => false,
        Some(table) => has_only(
            table,
            &["high", "low", "ahead", "age_weight", "size_weight"],
        ),
    }
}
