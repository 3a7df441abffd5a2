//! The fields of the daemon's records, kind by kind: what is written, and what is read back.

ghost use Rattle.std.specs.Prelude.{◌≤◌, ◌<◌, ◌+◌, ◌^◌, length, ◌≡◌};
ghost use Rattle.dm_durable.specs.Fields.{FitsStep};
ghost use Rattle.dm_fields.specs.Reading.{IsRead};
ghost use Rattle.dm_fields.specs.Writing.{IsPut};
ghost use Rattle.dm_records.specs.Steps.{kind_of as kind_of_step, step_fields, IsOfKind};

use crate::kinds::StepKind;
use dm_base::{Bfid, Bytes, DumpName, GroupId, Ino, Listed, Path};
use dm_durable::DaemonStep;
use dm_fields::{Field, Input, ReadError, ShortList, ShortListOf, Spelled};
use std::alloc::Global;

/// The kind of the record of a step.
pub fn kind_of(step: &DaemonStep) -> StepKind
    ensures { result ≡ kind_of_step step.now }
{
    match step {
        DaemonStep::Write { .. } => StepKind::Write,
        DaemonStep::Remove { .. } => StepKind::Remove,
        DaemonStep::BeginPut { .. } => StepKind::BeginPut,
        DaemonStep::Stored { .. } => StepKind::Stored,
        DaemonStep::EndPut { .. } => StepKind::EndPut,
        DaemonStep::Release { .. } => StepKind::Release,
        DaemonStep::Taken { .. } => StepKind::Taken,
        DaemonStep::Dump { .. } => StepKind::Dump,
        DaemonStep::Undump { .. } => StepKind::Undump,
        DaemonStep::Restore { .. } => StepKind::Restore,
        DaemonStep::HardDelete { .. } => StepKind::HardDelete,
        DaemonStep::Dropped { .. } => StepKind::Dropped,
        DaemonStep::Restart => StepKind::Restart,
        DaemonStep::Age { .. } => StepKind::Age,
    }
}

/// How many bytes the fields of a step have.
pub fn fields_len(step: &DaemonStep) -> usize
    requires { length (step_fields step.now) < 2 ^ 64 }
    ensures { result ≡ length (step_fields step.now) }
{
    match step {
        DaemonStep::Write {
            path,
            change,
            bytes,
        } => (path, (*change, bytes)).spelled_len(),
        DaemonStep::Remove { path, change } => (path, *change).spelled_len(),
        DaemonStep::BeginPut { path, bfid, groups } => (
            path,
            (*bfid, ShortListOf { items: groups }),
        ).spelled_len(),
        DaemonStep::Stored { bfid, group } => (*bfid, *group).spelled_len(),
        DaemonStep::EndPut { ino, bfid, dual } => (*ino, (*bfid, *dual)).spelled_len(),
        DaemonStep::Release { path } => path.spelled_len(),
        DaemonStep::Taken { ino, bytes } => (*ino, bytes).spelled_len(),
        DaemonStep::Dump { name } => name.spelled_len(),
        DaemonStep::Undump { name } => name.spelled_len(),
        DaemonStep::Restore {
            name,
            path,
            target,
            change,
        } => (name, (path, (target, *change))).spelled_len(),
        DaemonStep::HardDelete { bfids } => bfids.spelled_len(),
        DaemonStep::Dropped { bfid } => bfid.spelled_len(),
        DaemonStep::Restart => ().spelled_len(),
        DaemonStep::Age { age } => age.spelled_len(),
    }
}

/// Writes the fields of a step.
pub fn put_fields(step: &DaemonStep, out: &mut [u8], at: usize) -> usize
    requires fits { FitsStep step.now }
    requires room { at + length (step_fields step.now) ≤ length out.old }
    ensures { IsPut (step_fields step.now) at out.old out.new result }
{
    match step {
        DaemonStep::Write {
            path,
            change,
            bytes,
        } => (path, (*change, bytes)).put(out, at),
        DaemonStep::Remove { path, change } => (path, *change).put(out, at),
        DaemonStep::BeginPut { path, bfid, groups } => (
            path,
            (*bfid, ShortListOf { items: groups }),
        ).put(out, at),
        DaemonStep::Stored { bfid, group } => (*bfid, *group).put(out, at),
        DaemonStep::EndPut { ino, bfid, dual } => (*ino, (*bfid, *dual)).put(out, at),
        DaemonStep::Release { path } => path.put(out, at),
        DaemonStep::Taken { ino, bytes } => (*ino, bytes).put(out, at),
        DaemonStep::Dump { name } => name.put(out, at),
        DaemonStep::Undump { name } => name.put(out, at),
        DaemonStep::Restore {
            name,
            path,
            target,
            change,
        } => (name, (path, (target, *change))).put(out, at),
        DaemonStep::HardDelete { bfids } => bfids.put(out, at),
        DaemonStep::Dropped { bfid } => bfid.put(out, at),
        DaemonStep::Restart => ().put(out, at),
        DaemonStep::Age { age } => age.put(out, at),
    }
}

/// Reads the fields of a record of this kind.
pub fn read_fields(
    alloc: Global,
    kind: StepKind,
    input: &mut Input<'_>,
) -> Result<DaemonStep, ReadError>
    ensures { IsRead step_fields (IsOfKind kind) input.old input.new result }
{
    match kind {
        StepKind::Write => read_write(alloc, input),
        StepKind::Remove => read_remove(alloc, input),
        StepKind::BeginPut => read_begin_put(alloc, input),
        StepKind::Stored => read_stored(alloc, input),
        StepKind::EndPut => read_end_put(alloc, input),
        StepKind::Release => read_release(alloc, input),
        StepKind::Taken => read_taken(alloc, input),
        StepKind::Dump => read_dump(alloc, input),
        StepKind::Undump => read_undump(alloc, input),
        StepKind::Restore => read_restore(alloc, input),
        StepKind::HardDelete => read_hard_delete(alloc, input),
        StepKind::Dropped => read_dropped(alloc, input),
        StepKind::Restart => read_restart(alloc, input),
        StepKind::Age => read_age(alloc, input),
    }
}

fn read_write(alloc: Global, input: &mut Input<'_>) -> Result<DaemonStep, ReadError>
    ensures { IsRead step_fields (IsOfKind StepKind.Write) input.old input.new result }
{
    match <(Path, (u64, Bytes))>::read(alloc, input) {
        Ok((path, (change, bytes))) => Ok(DaemonStep::Write {
            path,
            change,
            bytes,
        }),
        Err(error) => Err(error),
    }
}

fn read_remove(alloc: Global, input: &mut Input<'_>) -> Result<DaemonStep, ReadError>
    ensures { IsRead step_fields (IsOfKind StepKind.Remove) input.old input.new result }
{
    match <(Path, u64)>::read(alloc, input) {
        Ok((path, change)) => Ok(DaemonStep::Remove { path, change }),
        Err(error) => Err(error),
    }
}

fn read_begin_put(alloc: Global, input: &mut Input<'_>) -> Result<DaemonStep, ReadError>
    ensures { IsRead step_fields (IsOfKind StepKind.BeginPut) input.old input.new result }
{
    match <(Path, (Bfid, ShortList<GroupId>))>::read(alloc, input) {
        Ok((path, (bfid, groups))) => Ok(DaemonStep::BeginPut {
            path,
            bfid,
            groups: groups.items,
        }),
        Err(error) => Err(error),
    }
}

fn read_stored(alloc: Global, input: &mut Input<'_>) -> Result<DaemonStep, ReadError>
    ensures { IsRead step_fields (IsOfKind StepKind.Stored) input.old input.new result }
{
    match <(Bfid, GroupId)>::read(alloc, input) {
        Ok((bfid, group)) => Ok(DaemonStep::Stored { bfid, group }),
        Err(error) => Err(error),
    }
}

fn read_end_put(alloc: Global, input: &mut Input<'_>) -> Result<DaemonStep, ReadError>
    ensures { IsRead step_fields (IsOfKind StepKind.EndPut) input.old input.new result }
{
    match <(Ino, (Bfid, bool))>::read(alloc, input) {
        Ok((ino, (bfid, dual))) => Ok(DaemonStep::EndPut { ino, bfid, dual }),
        Err(error) => Err(error),
    }
}

fn read_release(alloc: Global, input: &mut Input<'_>) -> Result<DaemonStep, ReadError>
    ensures { IsRead step_fields (IsOfKind StepKind.Release) input.old input.new result }
{
    match Path::read(alloc, input) {
        Ok(path) => Ok(DaemonStep::Release { path }),
        Err(error) => Err(error),
    }
}

fn read_taken(alloc: Global, input: &mut Input<'_>) -> Result<DaemonStep, ReadError>
    ensures { IsRead step_fields (IsOfKind StepKind.Taken) input.old input.new result }
{
    match <(Ino, Bytes)>::read(alloc, input) {
        Ok((ino, bytes)) => Ok(DaemonStep::Taken { ino, bytes }),
        Err(error) => Err(error),
    }
}

fn read_dump(alloc: Global, input: &mut Input<'_>) -> Result<DaemonStep, ReadError>
    ensures { IsRead step_fields (IsOfKind StepKind.Dump) input.old input.new result }
{
    match DumpName::read(alloc, input) {
        Ok(name) => Ok(DaemonStep::Dump { name }),
        Err(error) => Err(error),
    }
}

fn read_undump(alloc: Global, input: &mut Input<'_>) -> Result<DaemonStep, ReadError>
    ensures { IsRead step_fields (IsOfKind StepKind.Undump) input.old input.new result }
{
    match DumpName::read(alloc, input) {
        Ok(name) => Ok(DaemonStep::Undump { name }),
        Err(error) => Err(error),
    }
}

fn read_restore(alloc: Global, input: &mut Input<'_>) -> Result<DaemonStep, ReadError>
    ensures { IsRead step_fields (IsOfKind StepKind.Restore) input.old input.new result }
{
    match <(DumpName, (Path, (Path, u64)))>::read(alloc, input) {
        Ok((name, (path, (target, change)))) => Ok(DaemonStep::Restore {
            name,
            path,
            target,
            change,
        }),
        Err(error) => Err(error),
    }
}

fn read_hard_delete(alloc: Global, input: &mut Input<'_>) -> Result<DaemonStep, ReadError>
    ensures { IsRead step_fields (IsOfKind StepKind.HardDelete) input.old input.new result }
{
    match <Listed<Bfid>>::read(alloc, input) {
        Ok(bfids) => Ok(DaemonStep::HardDelete { bfids }),
        Err(error) => Err(error),
    }
}

fn read_dropped(alloc: Global, input: &mut Input<'_>) -> Result<DaemonStep, ReadError>
    ensures { IsRead step_fields (IsOfKind StepKind.Dropped) input.old input.new result }
{
    match Bfid::read(alloc, input) {
        Ok(bfid) => Ok(DaemonStep::Dropped { bfid }),
        Err(error) => Err(error),
    }
}

fn read_restart(alloc: Global, input: &mut Input<'_>) -> Result<DaemonStep, ReadError>
    ensures { IsRead step_fields (IsOfKind StepKind.Restart) input.old input.new result }
{
    match <()>::read(alloc, input) {
        Ok(()) => Ok(DaemonStep::Restart),
        Err(error) => Err(error),
    }
}

fn read_age(alloc: Global, input: &mut Input<'_>) -> Result<DaemonStep, ReadError>
    ensures { IsRead step_fields (IsOfKind StepKind.Age) input.old input.new result }
{
    match u64::read(alloc, input) {
        Ok(age) => Ok(DaemonStep::Age { age }),
        Err(error) => Err(error),
    }
}
