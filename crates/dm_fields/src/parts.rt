//! The parts of rows: what a file holds, and a file of a dump.

ghost use Rattle.std.specs.Prelude.{◌≡◌};
ghost use Rattle.dm_fields.specs.Parts.{form_fields, IsOfForm, keeping_fields, IsOfKeeping};
ghost use Rattle.dm_fields.specs.Reading.{IsRead};

use crate::field::{Field, Spelled};
use crate::input::{Input, ReadError};
use crate::texts::{LongBytes, LongBytesOf};
use dm_base::Bfid;
use dm_durable::{Contents, DumpInode};
use std::alloc::Global;

impl Spelled for Contents {
    ghost use Rattle.dm_durable.specs.Fields.{FitsContents};
    ghost use Rattle.dm_fields.specs.Parts.{contents_field};

    ghost spelling = { contents_field };

    ghost fits = { FitsContents };

    fn spelled_len(&self) -> usize {
        match self {
            Contents::Regular { bytes } => { (0u8, (Bfid(0), LongBytesOf { bytes })).spelled_len() }
            Contents::Making { bytes, bfid } => {
                (1u8, (*bfid, LongBytesOf { bytes })).spelled_len()
            }
            Contents::Dual { bytes, bfid } => (2u8, (*bfid, LongBytesOf { bytes })).spelled_len(),
            Contents::Offline { len, bfid } => (3u8, (*bfid, *len)).spelled_len(),
        }
    }

    fn put(&self, out: &mut [u8], at: usize) -> usize {
        match self {
            Contents::Regular { bytes } => (0u8, (Bfid(0), LongBytesOf { bytes })).put(out, at),
            Contents::Making { bytes, bfid } => {
                (1u8, (*bfid, LongBytesOf { bytes })).put(out, at)
            }
            Contents::Dual { bytes, bfid } => (2u8, (*bfid, LongBytesOf { bytes })).put(out, at),
            Contents::Offline { len, bfid } => (3u8, (*bfid, *len)).put(out, at),
        }
    }
}

impl Field for Contents {
    ghost use Rattle.dm_fields.specs.PartsOnce.{contents_once};

    ghost once = { contents_once };

    fn read(alloc: Global, input: &mut Input<'_>) -> Result<Contents, ReadError> {
        let form = match u8::read(alloc, input) {
            Ok(form) => form,
            Err(error) => return Err(error),
        };
        read_form(alloc, form, input)
    }
}

// The fields behind the form.
fn read_form(alloc: Global, form: u8, input: &mut Input<'_>) -> Result<Contents, ReadError>
    ensures { IsRead form_fields (IsOfForm form) input.old input.new result }
{
    match form {
        0 => read_regular(alloc, input),
        1 => read_making(alloc, input),
        2 => read_dual(alloc, input),
        3 => read_offline(alloc, input),
        _ => Err(ReadError::Damaged),
    }
}

// A bitfile is named by no file that has none: its place has zeros.
fn read_regular(alloc: Global, input: &mut Input<'_>) -> Result<Contents, ReadError>
    ensures { IsRead form_fields (IsOfForm 0) input.old input.new result }
{
    match <(Bfid, LongBytes)>::read(alloc, input) {
        Ok((bfid, long)) => {
            if bfid.0 != 0 {
                return Err(ReadError::Damaged);
            }
            Ok(Contents::Regular { bytes: long.bytes })
        }
        Err(error) => Err(error),
    }
}

fn read_making(alloc: Global, input: &mut Input<'_>) -> Result<Contents, ReadError>
    ensures { IsRead form_fields (IsOfForm 1) input.old input.new result }
{
    match <(Bfid, LongBytes)>::read(alloc, input) {
        Ok((bfid, long)) => Ok(Contents::Making {
            bytes: long.bytes,
            bfid,
        }),
        Err(error) => Err(error),
    }
}

fn read_dual(alloc: Global, input: &mut Input<'_>) -> Result<Contents, ReadError>
    ensures { IsRead form_fields (IsOfForm 2) input.old input.new result }
{
    match <(Bfid, LongBytes)>::read(alloc, input) {
        Ok((bfid, long)) => Ok(Contents::Dual {
            bytes: long.bytes,
            bfid,
        }),
        Err(error) => Err(error),
    }
}

fn read_offline(alloc: Global, input: &mut Input<'_>) -> Result<Contents, ReadError>
    ensures { IsRead form_fields (IsOfForm 3) input.old input.new result }
{
    match <(Bfid, u64)>::read(alloc, input) {
        Ok((bfid, len)) => Ok(Contents::Offline { len, bfid }),
        Err(error) => Err(error),
    }
}

impl Spelled for DumpInode {
    ghost use Rattle.dm_durable.specs.Fields.{FitsDumpInode};
    ghost use Rattle.dm_fields.specs.Parts.{dump_inode_field};

    ghost spelling = { dump_inode_field };

    ghost fits = { FitsDumpInode };

    fn spelled_len(&self) -> usize {
        match self {
            DumpInode::Kept { bytes } => (0u8, (Bfid(0), LongBytesOf { bytes })).spelled_len(),
            DumpInode::Named { len, bfid } => (1u8, (*bfid, *len)).spelled_len(),
        }
    }

    fn put(&self, out: &mut [u8], at: usize) -> usize {
        match self {
            DumpInode::Kept { bytes } => (0u8, (Bfid(0), LongBytesOf { bytes })).put(out, at),
            DumpInode::Named { len, bfid } => (1u8, (*bfid, *len)).put(out, at),
        }
    }
}

impl Field for DumpInode {
    ghost use Rattle.dm_fields.specs.PartsOnce.{dump_inode_once};

    ghost once = { dump_inode_once };

    fn read(alloc: Global, input: &mut Input<'_>) -> Result<DumpInode, ReadError> {
        let keeping = match u8::read(alloc, input) {
            Ok(keeping) => keeping,
            Err(error) => return Err(error),
        };
        read_keeping(alloc, keeping, input)
    }
}

// The fields behind the byte that says whether the bytes are kept.
fn read_keeping(alloc: Global, keeping: u8, input: &mut Input<'_>) -> Result<DumpInode, ReadError>
    ensures { IsRead keeping_fields (IsOfKeeping keeping) input.old input.new result }
{
    match keeping {
        0 => read_kept(alloc, input),
        1 => read_named(alloc, input),
        _ => Err(ReadError::Damaged),
    }
}

fn read_kept(alloc: Global, input: &mut Input<'_>) -> Result<DumpInode, ReadError>
    ensures { IsRead keeping_fields (IsOfKeeping 0) input.old input.new result }
{
    match <(Bfid, LongBytes)>::read(alloc, input) {
        Ok((bfid, long)) => {
            if bfid.0 != 0 {
                return Err(ReadError::Damaged);
            }
            Ok(DumpInode::Kept { bytes: long.bytes })
        }
        Err(error) => Err(error),
    }
}

fn read_named(alloc: Global, input: &mut Input<'_>) -> Result<DumpInode, ReadError>
    ensures { IsRead keeping_fields (IsOfKeeping 1) input.old input.new result }
{
    match <(Bfid, u64)>::read(alloc, input) {
        Ok((bfid, len)) => Ok(DumpInode::Named { len, bfid }),
        Err(error) => Err(error),
    }
}
