//! What a group tells of its tables.

ghost use Rattle.std.specs.Prelude.{◌≡◌, true, false, IfOk, IsErrOf};
ghost use Rattle.std.specs.Prelude as prelude;
ghost use Rattle.std.specs.FinMap as map;
ghost use Rattle.dm_group_usage.specs.Range.{are_serials_in};
ghost use Rattle.dm_model.specs.GroupCalls.{all_rows as all_rows_plan, bitfile_row as bitfile_row_of, rows_of as rows_of_group, volume_fact as volume_fact_of, volumes as volumes_plan};
ghost use Rattle.dm_model.specs.Plan.{no_needs};
ghost use Rattle.dm_verdicts.specs.Verdict.{verdict_on};

use crate::prepared::group_healing_plan;
use dm_base::{Bfid, BitRow, GroupId, GroupRows, Listed, NoMemory, VolFact, Vsn};
use dm_durable::{BitfileRow, VolumeRow};
use dm_group_usage::{Listing, all_volumes, are_serials, volumes_listed};
use dm_model::{Answer, Group};
use dm_tables::{Numbers, Texts};
use dm_verdicts::{Verdict, VerdictError, legal};
use std::alloc::Global;

pub(crate) fn volumes(alloc: Global, library: &Group, id: GroupId) -> Result<Verdict, NoMemory>
    ensures { IfOk result (λ v. v ≡ verdict_on (volumes_plan id library.now) no_needs) }
{
    let rows = all_volumes(alloc, library)?;
    Ok(legal(group_healing_plan(id, Answer::Volumes { rows })))
}

pub(crate) fn all_rows(alloc: Global, library: &Group, id: GroupId) -> Result<Verdict, VerdictError>
    ensures verdict { IfOk result (λ v. v ≡ verdict_on (all_rows_plan id library.now) no_needs) }
    ensures range { IsErrOf result VerdictError.OutOfRange → are_serials_in library.now.tables.volumes ≡ false }
{
    if !are_serials(&library.tables.volumes) {
        return Err(VerdictError::OutOfRange);
    }
    let rows = rows_of(alloc, library)?;
    Ok(legal(group_healing_plan(id, Answer::Rows { rows })))
}

fn rows_of(alloc: Global, library: &Group) -> Result<GroupRows, NoMemory>
    requires { are_serials_in library.now.tables.volumes ≡ true }
    ensures { IfOk result (λ rows. rows ≡ rows_of_group library.now) }
{
    Ok(GroupRows {
        time: library.tables.time,
        size: library.conf.size,
        volumes: volume_facts(alloc, &library.tables.volumes)?,
        files: bitfile_rows(alloc, &library.tables.bitfiles)?,
    })
}

// The volumes by serial number.
fn volume_facts(alloc: Global, volumes: &Texts<VolumeRow>) -> Result<Listed<VolFact>, NoMemory>
    requires { are_serials_in volumes.now ≡ true }
    ensures { IfOk result (λ facts. facts ≡ prelude.map (λ e. volume_fact_of e.0 e.1) (map.entries volumes.now)) }
{
    let facts = volumes_listed(alloc, volumes, &VolumeFacts)?;
    Ok(facts)
}

// What is told of each volume.
#[derive(Drop)]
struct VolumeFacts;

impl Listing<VolFact> for VolumeFacts {
    ghost use Rattle.std.specs.Prelude.{◌∷◌, []};
    ghost use Rattle.dm_model.specs.GroupCalls.{volume_fact};

    ghost listed = { λ it vsn v. volume_fact vsn v ∷ [] };

    fn list(&self, vsn: Vsn, row: &VolumeRow) -> Option<VolFact> {
        Some(VolFact {
            vsn,
            epoch: row.epoch,
            end: row.end,
            version: row.version,
        })
    }
}

// The bitfiles by identifier.
fn bitfile_rows(alloc: Global, bitfiles: &Numbers<BitfileRow>) -> Result<Listed<BitRow>, NoMemory>
    ensures { IfOk result (λ rows. rows ≡ prelude.map (λ e. bitfile_row_of e.0 e.1) (map.entries bitfiles.now)) }
{
    let mut rows = Vec::new(alloc);
    for (number, row) in bitfiles.entries() {
        rows.push(bitfile_row(alloc, *number, row)?)?;
    }
    Ok(Listed::from_vec(rows))
}

fn bitfile_row(alloc: Global, number: u128, row: &BitfileRow) -> Result<BitRow, NoMemory>
    ensures { IfOk result (λ told. told ≡ bitfile_row_of number row.now) }
{
    Ok(BitRow {
        bfid: Bfid(number),
        total: row.len,
        chunks: row.chunks.copied(alloc)?,
    })
}
