//! The serial numbers that a group lists.

ghost use Rattle.std.specs.Prelude.{◌≡◌, ◌≤◌, ◌++◌, ◌∷◌, [], option_map, option_and_then, IfOk, IfSome, OnErr, Some, nat_eq, vec_len, length, codes};
ghost use Rattle.std.specs.List.{list_any};
ghost use lib.Pointwise.{pointwise};
ghost use Rattle.toml.specs.Data.{as_str, get_member};
ghost use Rattle.toml.specs.View.{view, items_view, table_view};
ghost use Rattle.dm_config.specs.Value.{is_among as is_among_of, new_serial as new_serial_of, serials_in, volumes_in, volumes_of as volumes_of_items};

use crate::value::value_at;
use dm_base::{NoMemory, VOLUMES_LIMIT, Vsn};
use std::alloc::Global;
use toml::{Table, Value};

/// The volumes that the row lists, where it is met; they are taken from then on.
pub fn volumes_at(
    alloc: Global,
    table: &Table,
    taken: &mut Vec<Vsn>,
) -> Result<Option<Vec<Vsn>>, NoMemory>
    ensures said { IfOk result (λ found. option_map (λ v. v.items) found ≡ volumes_in taken.old.items (get_member (codes "volumes") (table_view table.now))) }
    ensures taken { IfOk result (λ found. IfSome found (λ v. taken.new.items ≡ taken.old.items ++ v.items)) }
    ensures few { IfOk result (λ found. IfSome found (λ v. vec_len v ≤ 16)) }
{
    match value_at(table, "volumes") {
        None => Ok(None),
        Some(value) => volumes_in_value(alloc, value, taken),
    }
}

fn volumes_in_value(
    alloc: Global,
    value: &Value,
    taken: &mut Vec<Vsn>,
) -> Result<Option<Vec<Vsn>>, NoMemory>
    ensures said { IfOk result (λ found. option_map (λ v. v.items) found ≡ volumes_in taken.old.items (Some (view value.now))) }
    ensures taken { IfOk result (λ found. IfSome found (λ v. taken.new.items ≡ taken.old.items ++ v.items)) }
    ensures few { IfOk result (λ found. IfSome found (λ v. vec_len v ≤ 16)) }
{
    match value.as_array() {
        None => Ok(None),
        Some(items) => volumes_of(alloc, items.as_slice(), taken),
    }
}

// The number of items is looked at first, so that a long list costs nothing.
fn volumes_of(
    alloc: Global,
    items: &[Value],
    taken: &mut Vec<Vsn>,
) -> Result<Option<Vec<Vsn>>, NoMemory>
    ensures said { IfOk result (λ found. option_map (λ v. v.items) found ≡ volumes_of_items taken.old.items (items_view items.now)) }
    ensures taken { IfOk result (λ found. IfSome found (λ v. taken.new.items ≡ taken.old.items ++ v.items)) }
    ensures few { IfOk result (λ found. IfSome found (λ v. vec_len v ≤ 16)) }
{
    if items.is_empty() {
        return Ok(None);
    }
    if items.len() > VOLUMES_LIMIT {
        return Ok(None);
    }
    serials_of(alloc, items, taken)
}

fn serials_of(
    alloc: Global,
    items: &[Value],
    taken: &mut Vec<Vsn>,
) -> Result<Option<Vec<Vsn>>, NoMemory>
    ensures said { IfOk result (λ found. option_map (λ v. v.items) found ≡ serials_in taken.old.items (items_view items.now)) }
    ensures taken { IfOk result (λ found. IfSome found (λ v. taken.new.items ≡ taken.old.items ++ v.items)) }
    ensures few { IfOk result (λ found. IfSome found (λ v. vec_len v ≤ length items.now)) }
{
    let mut volumes = Vec::new(alloc);
    for item in items {
        let Some(volume) = new_serial(item, taken) else {
            return Ok(None);
        };
        volumes.push(volume)?;
        taken.push(volume)?;
    }
    Ok(Some(volumes))
}

fn new_serial(value: &Value, taken: &[Vsn]) -> Option<Vsn>
    ensures { result ≡ option_and_then (new_serial_of taken.now) (as_str (view value.now)) }
{
    match value.as_str() {
        None => None,
        Some(text) => serial_of(text.as_bytes(), taken),
    }
}

fn serial_of(text: &[u8], taken: &[Vsn]) -> Option<Vsn>
    ensures { result ≡ new_serial_of taken.now text.now }
{
    let Some(volume) = Vsn::of_bytes(text) else {
        return None;
    };
    if is_among(text, taken) {
        return None;
    }
    Some(volume)
}

fn is_among(text: &[u8], taken: &[Vsn]) -> bool
    ensures { result ≡ is_among_of text.now taken.now }
{
    taken.iter().any(|volume| volume.0.as_slice() == text)
}
