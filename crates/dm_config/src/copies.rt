//! The groups that each file is stored in.

ghost use Rattle.std.specs.Prelude.{◌≡◌, ◌+◌, ◌≤◌, ◌∷◌, [], option_map, is_some, codes, Some};
ghost use Rattle.toml.specs.Data.{get_member};
ghost use Rattle.toml.specs.View.{view, items_view, table_view};
ghost use Rattle.dm_config.specs.Value.{configured_number, copies_in, copies_of as copies_of_items, copy_in, group_name, two_copies as two_copies_of};

use crate::value::value_at;
use dm_base::GroupId;
use toml::{Table, Value};

/// The key of a group in the table of groups.
pub fn group_key(number: u8) -> &'static str
    requires low { 1 ≤ number }
    requires high { number ≤ 4 }
    ensures { result.now ≡ group_name number }
{
    match number {
        1 => "1",
        2 => "2",
        3 => "3",
        _ => "4",
    }
}

/// The groups that the row names, where it is met.
pub fn copies_at(table: &Table, groups: &Table) -> Option<[Option<GroupId>; 2]>
    ensures { result ≡ copies_in (table_view groups.now) (get_member (codes "copies") (table_view table.now)) }
{
    match value_at(table, "copies") {
        None => None,
        Some(value) => copies_in_value(value, groups),
    }
}

fn copies_in_value(value: &Value, groups: &Table) -> Option<[Option<GroupId>; 2]>
    ensures { result ≡ copies_in (table_view groups.now) (Some (view value.now)) }
{
    match value.as_array() {
        None => None,
        Some(items) => copies_of(items.as_slice(), groups),
    }
}

fn copies_of(items: &[Value], groups: &Table) -> Option<[Option<GroupId>; 2]>
    ensures { result ≡ copies_of_items (table_view groups.now) (items_view items.now) }
{
    match items {
        [] => None,
        [only] => match copy_of(only, groups) {
            Some(group) => Some([Some(group), None]),
            None => None,
        },
        [first, second] => two_copies(copy_of(first, groups), copy_of(second, groups)),
        [_, _, _, ..] => None,
    }
}

fn two_copies(first: Option<GroupId>, second: Option<GroupId>) -> Option<[Option<GroupId>; 2]>
    ensures { result ≡ two_copies_of first second }
{
    match (first, second) {
        (Some(a), Some(b)) => {
            if a.0 == b.0 {
                return None;
            }
            Some([Some(a), Some(b)])
        }
        _ => None,
    }
}

fn copy_of(value: &Value, groups: &Table) -> Option<GroupId>
    ensures { result ≡ copy_in (table_view groups.now) (view value.now) }
{
    match value.as_integer() {
        None => None,
        Some(number) => configured(number, groups),
    }
}

fn configured(number: i64, groups: &Table) -> Option<GroupId>
    ensures { result ≡ configured_number (table_view groups.now) number }
{
    if number < 1 || number > 4 {
        return None;
    }
    let number = number as u8;
    match value_at(groups, group_key(number)) {
        None => None,
        Some(_) => Some(GroupId(number)),
    }
}
