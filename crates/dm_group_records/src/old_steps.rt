//! The fields of records before there were versions and sums. They are read, and never written.

ghost use Rattle.std.specs.Prelude.{◌≡◌, IfOk, map as map_list};
ghost use Rattle.dm_fields.specs.Reading.{IsRead};
ghost use Rattle.dm_group_records.specs.OldSteps.{old_fields, IsOfOldKind};
ghost use Rattle.dm_group_records.specs.Chunks.{chunk_of};

use crate::kinds::OldKind;
use dm_base::{Bfid, Chunk, Listed, Vsn};
use dm_durable::GroupStep;
use dm_fields::{Field, Input, OldChunk, ReadError};
use std::alloc::Global;

/// The only version of volumes in those days.
pub(crate) const FIRST_VERSION: u8 = 1;

/// Reads the fields of a record of this kind.
pub fn read_old_fields(
    alloc: Global,
    kind: OldKind,
    input: &mut Input<'_>,
) -> Result<GroupStep, ReadError>
    ensures { IsRead old_fields (IsOfOldKind kind) input.old input.new result }
{
    match kind {
        OldKind::Volume => read_old_volume(alloc, input),
        OldKind::Commit => read_old_commit(alloc, input),
        OldKind::Move => read_old_move(alloc, input),
        OldKind::Reuse => read_old_reuse(alloc, input),
    }
}

/// The chunks, of which none has a sum.
pub fn chunks_of(alloc: Global, old: &Listed<OldChunk>) -> Result<Listed<Chunk>, ReadError>
    ensures ok { IfOk result (λ chunks. chunks ≡ map_list chunk_of old.now) }
    ensures err { result ≡ Err ReadError.Damaged → ⊥ }
{
    let mut chunks = Vec::new(alloc);
    for chunk in old.as_slice() {
        if chunks.push(chunk.chunk).is_err() {
            return Err(ReadError::NoMemory);
        }
    }
    Ok(Listed::from_vec(chunks))
}

fn read_old_commit(alloc: Global, input: &mut Input<'_>) -> Result<GroupStep, ReadError>
    ensures { IsRead old_fields (IsOfOldKind OldKind.Commit) input.old input.new result }
{
    match <(Bfid, (u64, Listed<OldChunk>))>::read(alloc, input) {
        Ok((bfid, (len, old))) => match chunks_of(alloc, &old) {
            Ok(chunks) => Ok(GroupStep::Commit { bfid, len, chunks }),
            Err(_) => Err(ReadError::NoMemory),
        },
        Err(error) => Err(error),
    }
}

fn read_old_volume(alloc: Global, input: &mut Input<'_>) -> Result<GroupStep, ReadError>
    ensures { IsRead old_fields (IsOfOldKind OldKind.Volume) input.old input.new result }
{
    match <(Vsn, (u8, u64))>::read(alloc, input) {
        Ok((vsn, (slot, size))) => Ok(GroupStep::Volume {
            vsn,
            slot,
            version: FIRST_VERSION,
            size,
        }),
        Err(error) => Err(error),
    }
}

fn read_old_move(alloc: Global, input: &mut Input<'_>) -> Result<GroupStep, ReadError>
    ensures { IsRead old_fields (IsOfOldKind OldKind.Move) input.old input.new result }
{
    match <(Bfid, (OldChunk, OldChunk))>::read(alloc, input) {
        Ok((bfid, (from, to))) => Ok(GroupStep::Move {
            bfid,
            from: from.chunk,
            to: to.chunk,
        }),
        Err(error) => Err(error),
    }
}

fn read_old_reuse(alloc: Global, input: &mut Input<'_>) -> Result<GroupStep, ReadError>
    ensures { IsRead old_fields (IsOfOldKind OldKind.Reuse) input.old input.new result }
{
    match <(Vsn, u64)>::read(alloc, input) {
        Ok((vsn, epoch)) => Ok(GroupStep::Reuse {
            vsn,
            epoch,
            version: FIRST_VERSION,
        }),
        Err(error) => Err(error),
    }
}
