//! The rows of a checkpoint: those that are written, lent as the tables have them, and all, as they are read back.

ghost use Rattle.std.specs.Prelude.{◌≡◌, ◌≤◌, ◌<◌, ◌+◌, ◌^◌, length};
ghost use Rattle.dm_durable.specs.Fields.{FitsRow};
ghost use Rattle.dm_fields.specs.Reading.{IsRead};
ghost use Rattle.dm_fields.specs.Whole.{IsWholeRead};
ghost use Rattle.dm_fields.specs.Writing.{IsPut};
ghost use Rattle.dm_records.specs.LentRows.{row_of};
ghost use Rattle.dm_records.specs.Rows.{row_kind, row_fields, row_spelling, IsOfRow, IsOfRowByte};

use crate::kinds::RowKind;
use crate::names::{FirstName, SecondName};
use dm_base::{Bfid, DumpName, Ino, Path, Secs};
use dm_durable::{Contents, DaemonRow, DumpInode, Entry, Inode};
use dm_fields::{Field, Input, ReadError, Spelled};
use std::alloc::Global;

/// A row that a checkpoint writes, lent by the tables (docs/FORMATS.md, "The daemon's payloads"). Rows of version 1 are not
/// among them: they are only read.
#[derive(Drop)]
pub enum LentRow<'a> {
    /// What the tables have once.
    State {
        time: Secs,
        change: u64,
        counter: u64,
        site: u64,
        first: u64,
        /// The age that was configured as the journal was begun.
        begun_age: u64,
        /// The age in force.
        age: u64,
    },
    /// A file, with the number of its inode.
    File {
        path: &'a Path,
        ino: Ino,
        inode: &'a Inode,
    },
    /// What is known of a bitfile.
    Bitfile {
        bfid: Bfid,
        entry: &'a Entry,
    },
    /// A dump.
    Dump {
        name: &'a DumpName,
        made: Secs,
        least: u64,
    },
    /// A file of a dump.
    DumpFile {
        name: &'a DumpName,
        path: &'a Path,
        file: &'a DumpInode,
    },
}

/// The kind of a row.
pub fn kind_of_row(row: &LentRow<'_>) -> RowKind
    ensures { result ≡ row_kind (row_of row.now) }
{
    match row {
        LentRow::State { .. } => RowKind::State,
        LentRow::File { .. } => RowKind::File,
        LentRow::Bitfile { .. } => RowKind::Bitfile,
        LentRow::Dump { .. } => RowKind::Dump,
        LentRow::DumpFile { .. } => RowKind::DumpFile,
    }
}

/// How many bytes a row has, which tells the room that `put_row` needs.
pub fn row_len(row: &LentRow<'_>) -> usize
    requires { length (row_spelling (row_of row.now)) < 2 ^ 64 }
    ensures { result ≡ length (row_spelling (row_of row.now)) }
{
    1 + row_fields_len(row)
}

/// Writes a row behind the first `at` bytes, and answers where it ends. What stands from there on has no meaning.
pub fn put_row(row: &LentRow<'_>, out: &mut [u8], at: usize) -> usize
    requires fits { FitsRow (row_of row.now) }
    requires room { at + length (row_spelling (row_of row.now)) ≤ length out.old }
    ensures { IsPut (row_spelling (row_of row.now)) at out.old out.new result }
{
    let behind = kind_of_row(row).byte().put(out, at);
    put_row_fields(row, out, behind)
}

/// Reads a row: all the bytes are one. `Damaged` says that they are none, `NoMemory` that memory was refused and it is not
/// known whether they are.
pub fn read_row(alloc: Global, bytes: &[u8]) -> Result<DaemonRow, ReadError>
    ensures { IsWholeRead row_spelling FitsRow bytes.now result }
{
    let mut input = Input::of(bytes);
    match read_any_row(alloc, &mut input) {
        Ok(row) => {
            if input.is_empty() {
                Ok(row)
            } else {
                Err(ReadError::Damaged)
            }
        }
        Err(error) => Err(error),
    }
}

// How many bytes the fields of a row have.
fn row_fields_len(row: &LentRow<'_>) -> usize
    requires { length (row_fields (row_of row.now)) < 2 ^ 64 }
    ensures { result ≡ length (row_fields (row_of row.now)) }
{
    match row {
        LentRow::State {
            time,
            change,
            counter,
            site,
            first,
            begun_age,
            age,
        } => state_fields(*time, *change, *counter, *site, *first, *begun_age, *age).spelled_len(),
        LentRow::File { path, ino, inode } => (
            *path,
            (*ino, (inode.change, &inode.contents)),
        ).spelled_len(),
        LentRow::Bitfile { bfid, entry } => (*bfid, *entry).spelled_len(),
        LentRow::Dump { name, made, least } => (*name, (*made, *least)).spelled_len(),
        LentRow::DumpFile { name, path, file } => (*name, (*path, *file)).spelled_len(),
    }
}

// Writes the fields of a row.
fn put_row_fields(row: &LentRow<'_>, out: &mut [u8], at: usize) -> usize
    requires fits { FitsRow (row_of row.now) }
    requires room { at + length (row_fields (row_of row.now)) ≤ length out.old }
    ensures { IsPut (row_fields (row_of row.now)) at out.old out.new result }
{
    match row {
        LentRow::State {
            time,
            change,
            counter,
            site,
            first,
            begun_age,
            age,
        } => state_fields(*time, *change, *counter, *site, *first, *begun_age, *age).put(out, at),
        LentRow::File { path, ino, inode } => (*path, (*ino, (inode.change, &inode.contents))).put(
            out, at,
        ),
        LentRow::Bitfile { bfid, entry } => (*bfid, *entry).put(out, at),
        LentRow::Dump { name, made, least } => (*name, (*made, *least)).put(out, at),
        LentRow::DumpFile { name, path, file } => (*name, (*path, *file)).put(out, at),
    }
}

// The fields of a state.
type StateFields = (Secs, (u64, (u64, (SecondName, (u64, (u64, (u64, u64)))))));

fn state_fields(
    time: Secs,
    change: u64,
    counter: u64,
    site: u64,
    first: u64,
    begun_age: u64,
    age: u64,
) -> StateFields
    ensures { result ≡ (time, (change, (counter, (record {}, (site, (first, (begun_age, age))))))) }
{
    (
        time,
        (
            change,
            (counter, (SecondName, (site, (first, (begun_age, age))))),
        ),
    )
}

// Reads a row at the front.
fn read_any_row(alloc: Global, input: &mut Input<'_>) -> Result<DaemonRow, ReadError>
    ensures { IsRead row_spelling FitsRow input.old input.new result }
{
    let byte = match u8::read(alloc, input) {
        Ok(byte) => byte,
        Err(error) => return Err(error),
    };
    read_row_body(alloc, byte, input)
}

// Reads what stands behind the kind.
fn read_row_body(alloc: Global, byte: u8, input: &mut Input<'_>) -> Result<DaemonRow, ReadError>
    ensures { IsRead row_fields (IsOfRowByte byte) input.old input.new result }
{
    match RowKind::of_byte(byte) {
        Some(kind) => read_row_fields(alloc, kind, input),
        None => Err(ReadError::Damaged),
    }
}

// Reads the fields of a row of this kind.
fn read_row_fields(
    alloc: Global,
    kind: RowKind,
    input: &mut Input<'_>,
) -> Result<DaemonRow, ReadError>
    ensures { IsRead row_fields (IsOfRow kind) input.old input.new result }
{
    match kind {
        RowKind::OldState => read_old_state(alloc, input),
        RowKind::File => read_file(alloc, input),
        RowKind::Bitfile => read_bitfile(alloc, input),
        RowKind::OldDump => read_old_dump(alloc, input),
        RowKind::DumpFile => read_dump_file(alloc, input),
        RowKind::State => read_state(alloc, input),
        RowKind::Dump => read_dump_row(alloc, input),
    }
}

fn read_state(alloc: Global, input: &mut Input<'_>) -> Result<DaemonRow, ReadError>
    ensures { IsRead row_fields (IsOfRow RowKind.State) input.old input.new result }
{
    match StateFields::read(alloc, input) {
        Ok((time, (change, (counter, (SecondName, (site, (first, (begun_age, age)))))))) => {
            Ok(DaemonRow::State {
                time,
                change,
                counter,
                site,
                first,
                begun_age,
                age,
            })
        }
        Err(error) => Err(error),
    }
}

// The fields of a state of version 1.
type OldStateFields = (Secs, (u64, (u64, (FirstName, (u64, (u64, u64))))));

fn read_old_state(alloc: Global, input: &mut Input<'_>) -> Result<DaemonRow, ReadError>
    ensures { IsRead row_fields (IsOfRow RowKind.OldState) input.old input.new result }
{
    match OldStateFields::read(alloc, input) {
        Ok((time, (change, (counter, (FirstName, (site, (first, age))))))) => {
            Ok(DaemonRow::OldState {
                time,
                change,
                counter,
                site,
                first,
                age,
            })
        }
        Err(error) => Err(error),
    }
}

fn read_file(alloc: Global, input: &mut Input<'_>) -> Result<DaemonRow, ReadError>
    ensures { IsRead row_fields (IsOfRow RowKind.File) input.old input.new result }
{
    match <(Path, (Ino, (u64, Contents)))>::read(alloc, input) {
        Ok((path, (ino, (change, contents)))) => Ok(DaemonRow::File {
            path,
            ino,
            inode: Inode { change, contents },
        }),
        Err(error) => Err(error),
    }
}

fn read_bitfile(alloc: Global, input: &mut Input<'_>) -> Result<DaemonRow, ReadError>
    ensures { IsRead row_fields (IsOfRow RowKind.Bitfile) input.old input.new result }
{
    match <(Bfid, Entry)>::read(alloc, input) {
        Ok((bfid, entry)) => Ok(DaemonRow::Bitfile { bfid, entry }),
        Err(error) => Err(error),
    }
}

fn read_dump_row(alloc: Global, input: &mut Input<'_>) -> Result<DaemonRow, ReadError>
    ensures { IsRead row_fields (IsOfRow RowKind.Dump) input.old input.new result }
{
    match <(DumpName, (Secs, u64))>::read(alloc, input) {
        Ok((name, (made, least))) => Ok(DaemonRow::Dump { name, made, least }),
        Err(error) => Err(error),
    }
}

fn read_old_dump(alloc: Global, input: &mut Input<'_>) -> Result<DaemonRow, ReadError>
    ensures { IsRead row_fields (IsOfRow RowKind.OldDump) input.old input.new result }
{
    match <(DumpName, Secs)>::read(alloc, input) {
        Ok((name, made)) => Ok(DaemonRow::OldDump { name, made }),
        Err(error) => Err(error),
    }
}

fn read_dump_file(alloc: Global, input: &mut Input<'_>) -> Result<DaemonRow, ReadError>
    ensures { IsRead row_fields (IsOfRow RowKind.DumpFile) input.old input.new result }
{
    match <(DumpName, (Path, DumpInode))>::read(alloc, input) {
        Ok((name, (path, file))) => Ok(DaemonRow::DumpFile { name, path, file }),
        Err(error) => Err(error),
    }
}
