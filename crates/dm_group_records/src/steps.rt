//! The fields of a group's records, kind by kind: what is written, and what is read back.

ghost use Rattle.std.specs.Prelude.{◌≤◌, ◌<◌, ◌+◌, ◌^◌, length, ◌≡◌};
ghost use Rattle.dm_durable.specs.Fields.{FitsGroupStep};
ghost use Rattle.dm_fields.specs.Reading.{IsRead};
ghost use Rattle.dm_fields.specs.Writing.{IsPut};
ghost use Rattle.dm_group_records.specs.Steps.{kind_of as kind_of_step, step_fields, IsOfKind};

use crate::kinds::StepKind;
use dm_base::{Bfid, Chunk, Listed, Vsn};
use dm_durable::GroupStep;
use dm_fields::{Field, Input, ReadError, Spelled};
use std::alloc::Global;

/// The kind of the record of a step.
pub fn kind_of(step: &GroupStep) -> StepKind
    ensures { result ≡ kind_of_step step.now }
{
    match step {
        GroupStep::Volume { .. } => StepKind::Volume,
        GroupStep::Commit { .. } => StepKind::Commit,
        GroupStep::Delete { .. } => StepKind::Delete,
        GroupStep::Move { .. } => StepKind::Move,
        GroupStep::Free { .. } => StepKind::Free,
        GroupStep::Reuse { .. } => StepKind::Reuse,
    }
}

/// How many bytes the fields of a step have.
pub fn fields_len(step: &GroupStep) -> usize
    requires { length (step_fields step.now) < 2 ^ 64 }
    ensures { result ≡ length (step_fields step.now) }
{
    match step {
        GroupStep::Volume {
            vsn,
            slot,
            version,
            size,
        } => (*vsn, (*slot, (*version, *size))).spelled_len(),
        GroupStep::Commit { bfid, len, chunks } => (*bfid, (*len, chunks)).spelled_len(),
        GroupStep::Delete { bfid } => bfid.spelled_len(),
        GroupStep::Move { bfid, from, to } => (*bfid, (*from, *to)).spelled_len(),
        GroupStep::Free { vsn } => vsn.spelled_len(),
        GroupStep::Reuse {
            vsn,
            epoch,
            version,
        } => (*vsn, (*epoch, *version)).spelled_len(),
    }
}

/// Writes the fields of a step.
pub fn put_fields(step: &GroupStep, out: &mut [u8], at: usize) -> usize
    requires fits { FitsGroupStep step.now }
    requires room { at + length (step_fields step.now) ≤ length out.old }
    ensures { IsPut (step_fields step.now) at out.old out.new result }
{
    match step {
        GroupStep::Volume {
            vsn,
            slot,
            version,
            size,
        } => (*vsn, (*slot, (*version, *size))).put(out, at),
        GroupStep::Commit { bfid, len, chunks } => (*bfid, (*len, chunks)).put(out, at),
        GroupStep::Delete { bfid } => bfid.put(out, at),
        GroupStep::Move { bfid, from, to } => (*bfid, (*from, *to)).put(out, at),
        GroupStep::Free { vsn } => vsn.put(out, at),
        GroupStep::Reuse {
            vsn,
            epoch,
            version,
        } => (*vsn, (*epoch, *version)).put(out, at),
    }
}

/// Reads the fields of a record of this kind.
pub fn read_fields(
    alloc: Global,
    kind: StepKind,
    input: &mut Input<'_>,
) -> Result<GroupStep, ReadError>
    ensures { IsRead step_fields (IsOfKind kind) input.old input.new result }
{
    match kind {
        StepKind::Volume => read_volume(alloc, input),
        StepKind::Commit => read_commit(alloc, input),
        StepKind::Delete => read_delete(alloc, input),
        StepKind::Move => read_move(alloc, input),
        StepKind::Free => read_free(alloc, input),
        StepKind::Reuse => read_reuse(alloc, input),
    }
}

fn read_volume(alloc: Global, input: &mut Input<'_>) -> Result<GroupStep, ReadError>
    ensures { IsRead step_fields (IsOfKind StepKind.Volume) input.old input.new result }
{
    match <(Vsn, (u8, (u8, u64)))>::read(alloc, input) {
        Ok((vsn, (slot, (version, size)))) => Ok(GroupStep::Volume {
            vsn,
            slot,
            version,
            size,
        }),
        Err(error) => Err(error),
    }
}

fn read_commit(alloc: Global, input: &mut Input<'_>) -> Result<GroupStep, ReadError>
    ensures { IsRead step_fields (IsOfKind StepKind.Commit) input.old input.new result }
{
    match <(Bfid, (u64, Listed<Chunk>))>::read(alloc, input) {
        Ok((bfid, (len, chunks))) => Ok(GroupStep::Commit { bfid, len, chunks }),
        Err(error) => Err(error),
    }
}

fn read_delete(alloc: Global, input: &mut Input<'_>) -> Result<GroupStep, ReadError>
    ensures { IsRead step_fields (IsOfKind StepKind.Delete) input.old input.new result }
{
    match Bfid::read(alloc, input) {
        Ok(bfid) => Ok(GroupStep::Delete { bfid }),
        Err(error) => Err(error),
    }
}

fn read_move(alloc: Global, input: &mut Input<'_>) -> Result<GroupStep, ReadError>
    ensures { IsRead step_fields (IsOfKind StepKind.Move) input.old input.new result }
{
    match <(Bfid, (Chunk, Chunk))>::read(alloc, input) {
        Ok((bfid, (from, to))) => Ok(GroupStep::Move { bfid, from, to }),
        Err(error) => Err(error),
    }
}

fn read_free(alloc: Global, input: &mut Input<'_>) -> Result<GroupStep, ReadError>
    ensures { IsRead step_fields (IsOfKind StepKind.Free) input.old input.new result }
{
    match Vsn::read(alloc, input) {
        Ok(vsn) => Ok(GroupStep::Free { vsn }),
        Err(error) => Err(error),
    }
}

fn read_reuse(alloc: Global, input: &mut Input<'_>) -> Result<GroupStep, ReadError>
    ensures { IsRead step_fields (IsOfKind StepKind.Reuse) input.old input.new result }
{
    match <(Vsn, (u64, u8))>::read(alloc, input) {
        Ok((vsn, (epoch, version))) => Ok(GroupStep::Reuse {
            vsn,
            epoch,
            version,
        }),
        Err(error) => Err(error),
    }
}
