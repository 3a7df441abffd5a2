//! What one value of TOML says.

ghost use Rattle.std.specs.Prelude.{◌≡◌, ◌+◌, ◌≤◌, length, option_map, map, nat_eq, string_bytes, is_some, IfSome, Some};
ghost use Rattle.std.specs.Option.{ForSome};
ghost use Rattle.std.specs.List.{list_all, list_any};
ghost use Rattle.std.specs.BTreeMap.{keys, values};
ghost use lib.Pointwise.{pointwise};
ghost use Rattle.toml.specs.Data.{get_member, as_table, no_members};
ghost use Rattle.toml.specs.View.{view, table_view};
ghost use Rattle.dm_config.specs.Value.{has_only as has_only_names, are_tables as are_tables_in, number_in, number_within, whole_within, members_in};

use std::alloc::Global;
use toml::{Table, Value};

/// The value at a key.
pub fn value_at<'a>(table: &'a Table, key: &str) -> Option<&'a Value>
    ensures { option_map (λ v. view v.now) result ≡ get_member key.now (table_view table.now) }
{
    table.get(key)
}

/// The table that a value is, or this one, which is empty.
pub fn table_of<'a>(found: Option<&'a Value>, none: &'a Table) -> &'a Table
    requires { table_view none.now ≡ no_members }
    ensures { table_view result.now ≡ members_in (option_map (λ v. view v.now) found.entry) }
{
    match found {
        None => none,
        Some(value) => table_in(value, none),
    }
}

fn table_in<'a>(value: &'a Value, none: &'a Table) -> &'a Table
    requires { table_view none.now ≡ no_members }
    ensures { table_view result.now ≡ members_in (Some (view value.now)) }
{
    match value.as_table() {
        None => none,
        Some(table) => table,
    }
}

/// The number at a key, if it lies in the range, or the default where the key is absent.
pub fn number_at(table: &Table, key: &str, low: u64, high: u64, default: Option<u64>) -> Option<u64>
    requires { ForSome default (λ n. n ≤ high) }
    ensures said { result ≡ number_in low high default (get_member key.now (table_view table.now)) }
    ensures fits { IfSome result (λ n. n ≤ high) }
{
    match value_at(table, key) {
        None => default,
        Some(value) => number(value, low, high),
    }
}

fn number(value: &Value, low: u64, high: u64) -> Option<u64>
    ensures said { result ≡ number_within low high (view value.now) }
    ensures fits { IfSome result (λ n. n ≤ high) }
{
    match value.as_integer() {
        None => None,
        Some(whole) => within(whole, low, high),
    }
}

fn within(whole: i64, low: u64, high: u64) -> Option<u64>
    ensures said { result ≡ whole_within low high whole }
    ensures fits { IfSome result (λ n. n ≤ high) }
{
    if whole < 0 {
        return None;
    }
    let number = whole.unsigned_abs();
    if low <= number && number <= high {
        Some(number)
    } else {
        None
    }
}

/// Whether each key of a table is one of these.
pub fn has_only(table: &Table, names: &[&str]) -> bool
    ensures { result ≡ has_only_names (map (λ s. s.now) names.now) (table_view table.now) }
{
    has_only_keys(table, names)
}

fn has_only_keys(table: &Table, names: &[&str]) -> bool
    ensures { result ≡ list_all (λ k. list_any (λ s. pointwise nat_eq (string_bytes k) s.now) names.now) (keys table.now) }
{
    table.keys().all(|key| is_one_of(names, key.as_str()))
}

fn is_one_of(names: &[&str], key: &str) -> bool
    ensures { result ≡ list_any (λ s. pointwise nat_eq key.now s.now) names.now }
{
    names.iter().any(|name| key == *name)
}

/// Whether each value of a table is a table.
pub fn are_tables(table: &Table) -> bool
    ensures { result ≡ are_tables_in (table_view table.now) }
{
    are_all_tables(table)
}

fn are_all_tables(table: &Table) -> bool
    ensures { result ≡ list_all (λ v. is_some (as_table (view v))) (values table.now) }
{
    table.values().all(|value| value.is_table())
}
