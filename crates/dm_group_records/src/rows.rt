//! The rows of a checkpoint of a group: what is written, and what is read back. Records of logs are none.

ghost use Rattle.std.specs.Prelude.{◌≡◌, ◌≤◌, ◌<◌, ◌+◌, ◌^◌, length};
ghost use Rattle.dm_durable.specs.Fields.{FitsGroupRow};
ghost use Rattle.dm_fields.specs.Reading.{IsRead};
ghost use Rattle.dm_fields.specs.Whole.{IsWholeRead};
ghost use Rattle.dm_fields.specs.Writing.{IsPut};
ghost use Rattle.dm_group_records.specs.Rows.{row_spelling, row_fields, row_of, volume_fields, IsOfRowByte};

use crate::kinds::{BITFILE_ROW, OLD_BITFILE_ROW, OLD_VOLUME_ROW, STATE_ROW, VOLUME_ROW};
use crate::old_steps::{FIRST_VERSION, chunks_of};
use dm_base::{Bfid, Chunk, GroupId, Listed, Secs, Vsn};
use dm_durable::{BitfileRow, GroupRow, VolumeRow};
use dm_fields::{Field, Input, OldChunk, ReadError, Spelled};
use std::alloc::Global;

/// A row to be written, of what the tables have; a bitfile is lent. No row of old is one of these.
#[derive(Drop)]
pub enum RowOf<'a> {
    State { time: Secs, group: GroupId },
    Volume { vsn: Vsn, volume: VolumeRow },
    Bitfile { bfid: Bfid, bitfile: &'a BitfileRow },
}

/// How many bytes a row has.
pub fn row_len(row: &RowOf<'_>) -> usize
    requires { length (row_spelling (row_of row.now)) < 2 ^ 64 }
    ensures { result ≡ length (row_spelling (row_of row.now)) }
{
    match row {
        RowOf::State { time, group } => (STATE_ROW, (*time, *group)).spelled_len(),
        RowOf::Volume { vsn, volume } => { (VOLUME_ROW, (*vsn, places_of(volume))).spelled_len() }
        RowOf::Bitfile { bfid, bitfile } => {
            (BITFILE_ROW, (*bfid, (bitfile.len, &bitfile.chunks))).spelled_len()
        }
    }
}

/// Writes a row behind the first `at` bytes, and answers where it ends.
pub fn put_row(row: &RowOf<'_>, out: &mut [u8], at: usize) -> usize
    requires fits { FitsGroupRow (row_of row.now) }
    requires room { at + length (row_spelling (row_of row.now)) ≤ length out.old }
    ensures { IsPut (row_spelling (row_of row.now)) at out.old out.new result }
{
    match row {
        RowOf::State { time, group } => (STATE_ROW, (*time, *group)).put(out, at),
        RowOf::Volume { vsn, volume } => (VOLUME_ROW, (*vsn, places_of(volume))).put(out, at),
        RowOf::Bitfile { bfid, bitfile } => {
            (BITFILE_ROW, (*bfid, (bitfile.len, &bitfile.chunks))).put(out, at)
        }
    }
}

/// Reads a row: all the bytes are one.
pub fn read_row(alloc: Global, bytes: &[u8]) -> Result<GroupRow, ReadError>
    ensures { IsWholeRead row_spelling FitsGroupRow bytes.now result }
{
    let mut input = Input::of(bytes);
    match read_any_row(alloc, &mut input) {
        Ok(row) => {
            if input.is_empty() {
                Ok(row)
            } else {
                Err(ReadError::Damaged)
            }
        }
        Err(error) => Err(error),
    }
}

// Reads a row at the front.
fn read_any_row(alloc: Global, input: &mut Input<'_>) -> Result<GroupRow, ReadError>
    ensures { IsRead row_spelling FitsGroupRow input.old input.new result }
{
    let byte = match u8::read(alloc, input) {
        Ok(byte) => byte,
        Err(error) => return Err(error),
    };
    read_row_fields(alloc, byte, input)
}

// Reads what stands behind the kind.
fn read_row_fields(alloc: Global, byte: u8, input: &mut Input<'_>) -> Result<GroupRow, ReadError>
    ensures { IsRead row_fields (IsOfRowByte byte) input.old input.new result }
{
    if byte == STATE_ROW {
        return read_state_row(alloc, input);
    }
    if byte == VOLUME_ROW {
        return read_volume_row(alloc, input);
    }
    if byte == BITFILE_ROW {
        return read_bitfile_row(alloc, input);
    }
    if byte == OLD_VOLUME_ROW {
        return read_old_volume_row(alloc, input);
    }
    if byte == OLD_BITFILE_ROW {
        return read_old_bitfile_row(alloc, input);
    }
    Err(ReadError::Damaged)
}

fn read_state_row(alloc: Global, input: &mut Input<'_>) -> Result<GroupRow, ReadError>
    ensures { IsRead row_fields (IsOfRowByte 40) input.old input.new result }
{
    match <(Secs, GroupId)>::read(alloc, input) {
        Ok((time, group)) => Ok(GroupRow::State { time, group }),
        Err(error) => Err(error),
    }
}

// The fields of a volume's row behind its serial number.
type VolumeFields = (u8, (u8, (u64, (u64, (u64, Option<Secs>)))));

fn places_of(volume: &VolumeRow) -> VolumeFields
    ensures { result ≡ volume_fields volume.now }
{
    (
        volume.slot,
        (
            volume.version,
            (volume.size, (volume.epoch, (volume.end, volume.held))),
        ),
    )
}

fn read_volume_row(alloc: Global, input: &mut Input<'_>) -> Result<GroupRow, ReadError>
    ensures { IsRead row_fields (IsOfRowByte 43) input.old input.new result }
{
    match <(Vsn, VolumeFields)>::read(alloc, input) {
        Ok((vsn, (slot, (version, (size, (epoch, (end, held))))))) => Ok(GroupRow::Volume {
            vsn,
            volume: VolumeRow {
                slot,
                version,
                size,
                epoch,
                end,
                held,
            },
        }),
        Err(error) => Err(error),
    }
}

fn read_bitfile_row(alloc: Global, input: &mut Input<'_>) -> Result<GroupRow, ReadError>
    ensures { IsRead row_fields (IsOfRowByte 44) input.old input.new result }
{
    match <(Bfid, (u64, Listed<Chunk>))>::read(alloc, input) {
        Ok((bfid, (len, chunks))) => Ok(GroupRow::Bitfile {
            bfid,
            bitfile: BitfileRow { len, chunks },
        }),
        Err(error) => Err(error),
    }
}

// The fields of a row of a volume before there were versions.
type OldVolumeFields = (Vsn, (u8, (u64, (u64, (u64, Option<Secs>)))));

fn read_old_volume_row(alloc: Global, input: &mut Input<'_>) -> Result<GroupRow, ReadError>
    ensures { IsRead row_fields (IsOfRowByte 41) input.old input.new result }
{
    match OldVolumeFields::read(alloc, input) {
        Ok((vsn, (slot, (size, (epoch, (end, held)))))) => Ok(GroupRow::OldVolume {
            vsn,
            volume: VolumeRow {
                slot,
                version: FIRST_VERSION,
                size,
                epoch,
                end,
                held,
            },
        }),
        Err(error) => Err(error),
    }
}

fn read_old_bitfile_row(alloc: Global, input: &mut Input<'_>) -> Result<GroupRow, ReadError>
    ensures { IsRead row_fields (IsOfRowByte 42) input.old input.new result }
{
    match <(Bfid, (u64, Listed<OldChunk>))>::read(alloc, input) {
        Ok((bfid, (len, old))) => match chunks_of(alloc, &old) {
            Ok(chunks) => Ok(GroupRow::OldBitfile {
                bfid,
                bitfile: BitfileRow { len, chunks },
            }),
            Err(_) => Err(ReadError::NoMemory),
        },
        Err(error) => Err(error),
    }
}
