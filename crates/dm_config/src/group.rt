//! The rows of one group.

ghost use Rattle.std.specs.Prelude.{◌≡◌, ◌≤◌, ◌++◌, ◌∷◌, [], length, Some, None, IfOk, IfErr, OnOk, unwrap_or};
ghost use Rattle.toml.specs.View.{table_view};
ghost use Rattle.dm_config.specs.Groups.{IsGroup};
ghost use Rattle.dm_config.specs.Misses.{Misses};
ghost use Rattle.dm_config.specs.Numbers.{HasNumbers, HasSize};
ghost use Rattle.dm_config.specs.Rows.{first_violated, group_rows, number_rows, size_in, size_rows};

use crate::error::ConfigError;
use crate::value::number_at;
use crate::volumes::volumes_at;
use dm_base::{
    AGE_LIMIT, CHUNK_LEAST, CHUNK_LIMIT, ConfKey, DRIVES_LEAST, DRIVES_LIMIT, FORMAT_LIMIT,
    GROUP_SIZE_LIMIT, GroupConf, GroupId, Listed, SPARSE_LIMIT, VOLUME_LEAST, VOLUME_LIMIT, Vsn,
};
use std::alloc::Global;
use toml::Table;

/// The default length of chunks.
const DEFAULT_CHUNK: u64 = 1_048_576;

/// The default hold: two days.
const DEFAULT_HOLD: u64 = 172_800;

/// The first numbers of a group.
#[derive(Clone, Copy)]
pub struct Numbers {
    pub drives: u8,
    pub chunk: u64,
    pub sparse: u64,
    pub hold: u64,
}

/// The last numbers of a group.
#[derive(Clone, Copy)]
pub struct Size {
    pub size: u64,
    pub format: u8,
}

/// What the rows of a group say, or the first of them that is violated. Its volumes are taken from then on.
pub fn read_group(
    alloc: Global,
    group: GroupId,
    table: &Table,
    taken: &mut Vec<Vsn>,
) -> Result<GroupConf, ConfigError>
    ensures ok { IfOk result (IsGroup group.0 taken.old.items (table_view table.now)) }
    ensures met { OnOk result (first_violated (group_rows group taken.old.items (table_view table.now)) ≡ None) }
    ensures taken { IfOk result (λ conf. taken.new.items ≡ taken.old.items ++ conf.volumes) }
    ensures err { IfErr result (Misses (group_rows group taken.old.items (table_view table.now))) }
{
    let numbers = match read_numbers(group, table) {
        Ok(numbers) => numbers,
        Err(key) => return Err(ConfigError::BadConfig { key }),
    };
    let Some(volumes) = volumes_at(alloc, table, taken)? else {
        return Err(ConfigError::BadConfig {
            key: ConfKey::GroupVolumes { group },
        });
    };
    let last = match read_size(group, table, volumes.len()) {
        Ok(last) => last,
        Err(key) => return Err(ConfigError::BadConfig { key }),
    };
    Ok(GroupConf {
        group,
        drives: numbers.drives,
        chunk: numbers.chunk,
        sparse: numbers.sparse,
        hold: numbers.hold,
        volumes: Listed::from_vec(volumes),
        size: last.size,
        format: last.format,
    })
}

fn read_numbers(group: GroupId, table: &Table) -> Result<Numbers, ConfKey>
    ensures ok { IfOk result (HasNumbers (table_view table.now)) }
    ensures met { OnOk result (first_violated (number_rows group (table_view table.now)) ≡ None) }
    ensures err { IfErr result (λ key. first_violated (number_rows group (table_view table.now)) ≡ Some key) }
{
    let drives = number_at(
        table,
        "drives",
        u64::from(DRIVES_LEAST),
        u64::from(DRIVES_LIMIT),
        Some(2),
    );
    let Some(drives) = drives else {
        return Err(ConfKey::GroupDrives { group });
    };
    let chunk = number_at(
        table,
        "chunk",
        CHUNK_LEAST,
        CHUNK_LIMIT,
        Some(DEFAULT_CHUNK),
    );
    let Some(chunk) = chunk else {
        return Err(ConfKey::GroupChunk { group });
    };
    let Some(sparse) = number_at(table, "sparse", 1, SPARSE_LIMIT, Some(50)) else {
        return Err(ConfKey::GroupSparse { group });
    };
    let Some(hold) = number_at(table, "hold", 0, AGE_LIMIT, Some(DEFAULT_HOLD)) else {
        return Err(ConfKey::GroupHold { group });
    };
    Ok(Numbers {
        drives: drives as u8,
        chunk,
        sparse,
        hold,
    })
}

fn read_size(group: GroupId, table: &Table, volumes: usize) -> Result<Size, ConfKey>
    requires { volumes ≤ 16 }
    ensures ok { IfOk result (HasSize volumes (table_view table.now)) }
    ensures met { OnOk result (first_violated (size_rows group volumes (table_view table.now)) ≡ None) }
    ensures err { IfErr result (λ key. first_violated (size_rows group volumes (table_view table.now)) ≡ Some key) }
{
    let Some(size) = size_at(table, volumes) else {
        return Err(ConfKey::GroupSize { group });
    };
    let Some(format) = number_at(table, "format", 1, u64::from(FORMAT_LIMIT), Some(1)) else {
        return Err(ConfKey::GroupFormat { group });
    };
    Ok(Size {
        size,
        format: format as u8,
    })
}

// The size, where so many volumes of it aren't too large together.
fn size_at(table: &Table, volumes: usize) -> Option<u64>
    requires { volumes ≤ 16 }
    ensures { result ≡ size_in volumes (table_view table.now) }
{
    match number_at(table, "size", VOLUME_LEAST, VOLUME_LIMIT, None) {
        None => None,
        Some(size) => {
            if size * volumes as u64 <= GROUP_SIZE_LIMIT {
                return Some(size);
            }
            None
        }
    }
}
