//! The payloads of a group's log: heads and records, of now and of the time before versions and sums. Rows of checkpoints
//! are none.

ghost use Rattle.std.specs.Prelude.{◌≡◌, ◌≤◌, ◌<◌, ◌+◌, ◌^◌, length};
ghost use Rattle.dm_durable.specs.Fields.{FitsGroupPayload};
ghost use Rattle.dm_durable.specs.declared.group_journal.GroupPayload.TheVariants.{Head, Record};
ghost use Rattle.dm_fields.specs.Reading.{IsRead};
ghost use Rattle.dm_fields.specs.Whole.{IsWholeRead};
ghost use Rattle.dm_fields.specs.Writing.{IsPut};
ghost use Rattle.dm_group_records.specs.OldSteps.{old_byte};
ghost use Rattle.dm_group_records.specs.Payloads.{spelling, payload_fields, IsOfByte, FitsLog};
ghost use Rattle.dm_group_records.specs.Steps.{step_byte};

use crate::kinds::{OldKind, StepKind};
use crate::old_steps::read_old_fields;
use crate::steps::{fields_len, kind_of, put_fields, read_fields};
use dm_base::{GroupId, Secs};
use dm_durable::{GroupPayload, GroupRecord};
use dm_fields::{Field, Input, ReadError, Spelled};
use std::alloc::Global;

/// The kind of a head.
const HEAD: u8 = 1;

// `DMGROUP1`, the eight bytes of a number.
const NAME: u64 = 0x444d_4752_4f55_5031;

/// How many bytes a record has.
pub fn record_len(record: &GroupRecord) -> usize
    requires { length (spelling (Record record.now)) < 2 ^ 64 }
    ensures { result ≡ length (spelling (Record record.now)) }
{
    9 + fields_len(&record.step)
}

/// Writes a record behind the first `at` bytes, and answers where it ends.
pub fn put_record(record: &GroupRecord, out: &mut [u8], at: usize) -> usize
    requires fits { FitsGroupPayload (Record record.now) }
    requires room { at + length (spelling (Record record.now)) ≤ length out.old }
    ensures { IsPut (spelling (Record record.now)) at out.old out.new result }
{
    let behind = (kind_of(&record.step).byte(), record.time).put(out, at);
    put_fields(&record.step, out, behind)
}

/// Writes a head.
pub fn put_head(time: Secs, group: GroupId, out: &mut [u8], at: usize) -> usize
    requires { at + 18 ≤ length out.old }
    ensures { IsPut (spelling (Head time group)) at out.old out.new result }
{
    (HEAD, (time, (NAME, group))).put(out, at)
}

/// Reads a payload of a log: all the bytes are one.
pub fn read_log(alloc: Global, bytes: &[u8]) -> Result<GroupPayload, ReadError>
    ensures { IsWholeRead spelling FitsLog bytes.now result }
{
    let mut input = Input::of(bytes);
    match read_any(alloc, &mut input) {
        Ok(payload) => {
            if input.is_empty() {
                Ok(payload)
            } else {
                Err(ReadError::Damaged)
            }
        }
        Err(error) => Err(error),
    }
}

// Reads a payload at the front.
fn read_any(alloc: Global, input: &mut Input<'_>) -> Result<GroupPayload, ReadError>
    ensures { IsRead spelling FitsLog input.old input.new result }
{
    let byte = match u8::read(alloc, input) {
        Ok(byte) => byte,
        Err(error) => return Err(error),
    };
    read_body(alloc, byte, input)
}

// Reads what stands behind the kind.
fn read_body(alloc: Global, byte: u8, input: &mut Input<'_>) -> Result<GroupPayload, ReadError>
    ensures { IsRead payload_fields (IsOfByte byte) input.old input.new result }
{
    if byte == HEAD {
        return read_head(alloc, input);
    }
    match StepKind::of_byte(byte) {
        Some(kind) => read_record(alloc, kind, input),
        None => match OldKind::of_byte(byte) {
            Some(kind) => read_old_record(alloc, kind, input),
            None => Err(ReadError::Damaged),
        },
    }
}

fn read_record(
    alloc: Global,
    kind: StepKind,
    input: &mut Input<'_>,
) -> Result<GroupPayload, ReadError>
    ensures { IsRead payload_fields (IsOfByte (step_byte kind)) input.old input.new result }
{
    let time = match Secs::read(alloc, input) {
        Ok(time) => time,
        Err(error) => return Err(error),
    };
    match read_fields(alloc, kind, input) {
        Ok(step) => Ok(GroupPayload::Record {
            record: GroupRecord { time, step },
        }),
        Err(error) => Err(error),
    }
}

fn read_old_record(
    alloc: Global,
    kind: OldKind,
    input: &mut Input<'_>,
) -> Result<GroupPayload, ReadError>
    ensures { IsRead payload_fields (IsOfByte (old_byte kind)) input.old input.new result }
{
    let time = match Secs::read(alloc, input) {
        Ok(time) => time,
        Err(error) => return Err(error),
    };
    match read_old_fields(alloc, kind, input) {
        Ok(step) => Ok(GroupPayload::OldRecord {
            record: GroupRecord { time, step },
        }),
        Err(error) => Err(error),
    }
}

// The fields of a head, with its name as a number.
type HeadFields = (Secs, (u64, GroupId));

fn read_head(alloc: Global, input: &mut Input<'_>) -> Result<GroupPayload, ReadError>
    ensures { IsRead payload_fields (IsOfByte 1) input.old input.new result }
{
    match HeadFields::read(alloc, input) {
        Ok((time, (name, group))) => {
            if name != NAME {
                return Err(ReadError::Damaged);
            }
            Ok(GroupPayload::Head { time, group })
        }
        Err(error) => Err(error),
    }
}
