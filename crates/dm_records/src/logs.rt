//! The payloads of a log: heads, records and upgrades. Rows of checkpoints are `rows`'.

ghost use Rattle.std.specs.Prelude.{◌≡◌, ◌≤◌, ◌<◌, ◌+◌, ◌^◌, length, MatchOption};
ghost use Rattle.dm_durable.specs.Fields.{FitsPayload, FitsStep};
ghost use Rattle.dm_durable.specs.declared.daemon_journal.DaemonPayload.TheVariants.{Head, Record, Upgrade};
ghost use Rattle.dm_durable.specs.declared.daemon_journal.JournalVersion.TheVariants.{Second};
ghost use Rattle.dm_fields.specs.Reading.{IsRead};
ghost use Rattle.dm_fields.specs.Whole.{IsWholeRead};
ghost use Rattle.dm_fields.specs.Writing.{IsPut};
ghost use Rattle.dm_records.specs.Payloads.{spelling, payload_fields, IsOfByte, FitsLog};
ghost use Rattle.dm_records.specs.Steps.{step_byte};
ghost use Rattle.dm_records.specs.Names.{name_number};

use crate::kinds::StepKind;
use crate::names::{FIRST_NAME, SECOND_NAME};
use crate::steps::{fields_len, kind_of, put_fields, read_fields};
use dm_base::Secs;
use dm_durable::{DaemonHead, DaemonPayload, DaemonRecord, JournalVersion};
use dm_fields::{Field, Input, ReadError, Spelled};
use std::alloc::Global;

/// The kind of a head.
const HEAD: u8 = 1;

/// The kind of an upgrade.
const UPGRADE: u8 = 16;

/// How many bytes a record has, which tells the room that `put_record` needs.
pub fn record_len(record: &DaemonRecord) -> usize
    requires { length (spelling (Record record.now)) < 2 ^ 64 }
    ensures { result ≡ length (spelling (Record record.now)) }
{
    9 + fields_len(&record.step)
}

/// Writes a record behind the first `at` bytes, and answers where it ends (docs/FORMATS.md, "The daemon's payloads"). What
/// stands from there on has no meaning.
pub fn put_record(record: &DaemonRecord, out: &mut [u8], at: usize) -> usize
    requires fits { FitsPayload (Record record.now) }
    requires room { at + length (spelling (Record record.now)) ≤ length out.old }
    ensures { IsPut (spelling (Record record.now)) at out.old out.new result }
{
    let behind = (kind_of(&record.step).byte(), record.time).put(out, at);
    put_fields(&record.step, out, behind)
}

// The name of a version.
fn name_of(version: JournalVersion) -> u64
    ensures { result ≡ name_number version }
{
    match version {
        JournalVersion::First => FIRST_NAME,
        JournalVersion::Second => SECOND_NAME,
    }
}

// The version of a name.
fn version_of(name: u64) -> Option<JournalVersion>
    ensures { MatchOption result ((version : JournalVersion) → name_number version ≡ name → ⊥) (λ version. name_number version ≡ name) }
{
    if name == FIRST_NAME {
        return Some(JournalVersion::First);
    }
    if name == SECOND_NAME {
        return Some(JournalVersion::Second);
    }
    None
}

/// Writes a head. Only one of version 2 is written.
pub fn put_head(head: &DaemonHead, out: &mut [u8], at: usize) -> usize
    requires version { head.now.version ≡ Second }
    requires fits { FitsPayload (Head head.now) }
    requires room { at + 41 ≤ length out.old }
    ensures { IsPut (spelling (Head head.now)) at out.old out.new result }
{
    let name = name_of(head.version);
    (
        HEAD,
        (head.time, (name, (head.site, (head.first, head.age)))),
    )
        .put(out, at)
}

/// Writes an upgrade.
pub fn put_upgrade(time: Secs, out: &mut [u8], at: usize) -> usize
    requires { at + 9 ≤ length out.old }
    ensures { IsPut (spelling (Upgrade time)) at out.old out.new result }
{
    (UPGRADE, time).put(out, at)
}

/// Reads a payload of a log: all the bytes are one. `Damaged` says that they are none, `NoMemory` that memory was refused
/// and it is not known whether they are.
pub fn read_log(alloc: Global, bytes: &[u8]) -> Result<DaemonPayload, ReadError>
    ensures { IsWholeRead spelling FitsLog bytes.now result }
{
    let mut input = Input::of(bytes);
    match read_any(alloc, &mut input) {
        Ok(payload) => {
            if input.is_empty() {
                Ok(payload)
            } else {
                Err(ReadError::Damaged)
            }
        }
        Err(error) => Err(error),
    }
}

// Reads a payload at the front.
fn read_any(alloc: Global, input: &mut Input<'_>) -> Result<DaemonPayload, ReadError>
    ensures { IsRead spelling FitsLog input.old input.new result }
{
    let byte = match u8::read(alloc, input) {
        Ok(byte) => byte,
        Err(error) => return Err(error),
    };
    read_body(alloc, byte, input)
}

// Reads what stands behind the kind.
fn read_body(alloc: Global, byte: u8, input: &mut Input<'_>) -> Result<DaemonPayload, ReadError>
    ensures { IsRead payload_fields (IsOfByte byte) input.old input.new result }
{
    if byte == HEAD {
        return read_head(alloc, input);
    }
    if byte == UPGRADE {
        return read_upgrade(alloc, input);
    }
    match StepKind::of_byte(byte) {
        Some(kind) => read_record(alloc, kind, input),
        None => Err(ReadError::Damaged),
    }
}

fn read_record(
    alloc: Global,
    kind: StepKind,
    input: &mut Input<'_>,
) -> Result<DaemonPayload, ReadError>
    ensures { IsRead payload_fields (IsOfByte (step_byte kind)) input.old input.new result }
{
    let time = match Secs::read(alloc, input) {
        Ok(time) => time,
        Err(error) => return Err(error),
    };
    match read_fields(alloc, kind, input) {
        Ok(step) => Ok(DaemonPayload::Record {
            record: DaemonRecord { time, step },
        }),
        Err(error) => Err(error),
    }
}

fn read_upgrade(alloc: Global, input: &mut Input<'_>) -> Result<DaemonPayload, ReadError>
    ensures { IsRead payload_fields (IsOfByte 16) input.old input.new result }
{
    match Secs::read(alloc, input) {
        Ok(time) => Ok(DaemonPayload::Upgrade { time }),
        Err(error) => Err(error),
    }
}

// The fields of a head, with its name as a number.
type HeadFields = (Secs, (u64, (u64, (u64, u64))));

fn read_head(alloc: Global, input: &mut Input<'_>) -> Result<DaemonPayload, ReadError>
    ensures { IsRead payload_fields (IsOfByte 1) input.old input.new result }
{
    match HeadFields::read(alloc, input) {
        Ok((time, (name, (site, (first, age))))) => match version_of(name) {
            Some(version) => Ok(DaemonPayload::Head {
                head: DaemonHead {
                    time,
                    version,
                    site,
                    first,
                    age,
                },
            }),
            None => Err(ReadError::Damaged),
        },
        Err(error) => Err(error),
    }
}
