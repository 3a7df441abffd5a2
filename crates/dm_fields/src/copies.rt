//! What is known of a bitfile: its length, its copies, and whether it is let go.

ghost use Rattle.std.specs.Prelude.{◌≡◌, ◌≤◌, ◌+◌, Bool, length, MatchOption};
ghost use Rattle.std.specs.List.{AllByRecursion, flat_map};
ghost use Rattle.dm_durable.specs.Fields.{FitsCopy};
ghost use Rattle.dm_fields.specs.Fields.{byte_field, flag_field};
ghost use Rattle.dm_fields.specs.Parts.{copy_group, copy_stored, AreCopies};
ghost use Rattle.dm_fields.specs.Writing.{IsPut};

use crate::field::{Field, Spelled};
use crate::input::{Input, ReadError};
use crate::numbers::{put_bytes, take_byte};
use dm_base::{GroupId, Listed, Secs};
use dm_durable::{AskedCopy, Entry};
use std::alloc::Global;

/// The copies of a bitfile: their number in one byte, their groups, and a flag for each that is stored.
#[derive(Drop)]
pub struct Copies {
    pub items: Listed<AskedCopy>,
}

/// The same, lent.
#[derive(Drop)]
pub struct CopiesOf<'a> {
    pub items: &'a Listed<AskedCopy>,
}

impl<'a> Spelled for CopiesOf<'a> {
    ghost use Rattle.dm_fields.specs.Parts.{copies_field, FitCopies};

    ghost spelling = { λ c. copies_field c.items.now };

    ghost fits = { λ c. FitCopies c.items.now };

    fn spelled_len(&self) -> usize {
        1 + 2 * self.items.len()
    }

    fn put(&self, out: &mut [u8], at: usize) -> usize {
        let copies = self.items.as_slice();
        let behind = put_bytes(out, at, &[copies.len() as u8]);
        let middle = put_groups(copies, out, behind);
        put_flags(copies, out, middle)
    }
}

// Writes the group of a copy.
fn put_group(copy: &AskedCopy, out: &mut [u8], at: usize) -> usize
    requires { at + length (copy_group copy.now) ≤ length out.old }
    ensures { IsPut (copy_group copy.now) at out.old out.new result }
{
    put_bytes(out, at, &[copy.group.0])
}

// Writes whether a copy is stored.
fn put_flag(copy: &AskedCopy, out: &mut [u8], at: usize) -> usize
    requires { at + length (copy_stored copy.now) ≤ length out.old }
    ensures { IsPut (copy_stored copy.now) at out.old out.new result }
{
    put_bytes(out, at, &[u8::from(copy.stored)])
}

// Writes the groups of the copies.
fn put_groups(copies: &[AskedCopy], out: &mut [u8], at: usize) -> usize
    requires fits { AllByRecursion FitsCopy copies.now }
    requires room { at + length (flat_map copy_group copies.now) ≤ length out.old }
    ensures { IsPut (flat_map copy_group copies.now) at out.old out.new result }
{
    let mut end = at;
    for copy in copies {
        end = put_group(copy, out, end);
    }
    end
}

// Writes a flag for each copy.
fn put_flags(copies: &[AskedCopy], out: &mut [u8], at: usize) -> usize
    requires fits { AllByRecursion FitsCopy copies.now }
    requires room { at + length (flat_map copy_stored copies.now) ≤ length out.old }
    ensures { IsPut (flat_map copy_stored copies.now) at out.old out.new result }
{
    let mut end = at;
    for copy in copies {
        end = put_flag(copy, out, end);
    }
    end
}

impl Spelled for Copies {
    ghost use Rattle.dm_fields.specs.Parts.{copies_field, FitCopies};

    ghost spelling = { λ c. copies_field c.items };

    ghost fits = { λ c. FitCopies c.items };

    fn spelled_len(&self) -> usize {
        CopiesOf { items: &self.items }.spelled_len()
    }

    fn put(&self, out: &mut [u8], at: usize) -> usize {
        CopiesOf { items: &self.items }.put(out, at)
    }
}

impl Field for Copies {
    ghost use Rattle.dm_fields.specs.PartsOnce.{wrapped_copies_once};

    ghost once = { wrapped_copies_once };

    fn read(alloc: Global, input: &mut Input<'_>) -> Result<Copies, ReadError> {
        let Some(count) = take_byte(input) else {
            return Err(ReadError::Damaged);
        };
        let Some(groups) = input.take(count as usize) else {
            return Err(ReadError::Damaged);
        };
        let Some(flags) = input.take(count as usize) else {
            return Err(ReadError::Damaged);
        };
        match copies_of(alloc, groups, flags) {
            Ok(items) => Ok(Copies { items }),
            Err(error) => Err(error),
        }
    }
}

// The flag of a byte, or none where it is no flag's.
fn flag_of(byte: u8) -> Option<bool>
    ensures { MatchOption result ((flag : Bool) → flag_field flag ≡ byte_field byte → ⊥) (λ flag. flag_field flag ≡ byte_field byte) }
{
    if byte == 0 {
        return Some(false);
    }
    if byte == 1 {
        return Some(true);
    }
    None
}

// The copies of these groups and flags.
fn copies_of(alloc: Global, groups: &[u8], flags: &[u8]) -> Result<Listed<AskedCopy>, ReadError>
    requires { length groups.now ≡ length flags.now }
    ensures { AreCopies groups.now flags.now result }
{
    let mut copies = Vec::new(alloc);
    for at in 0..groups.len() {
        let Some(stored) = flag_of(flags[at]) else {
            return Err(ReadError::Damaged);
        };
        let group = GroupId(groups[at]);
        if copies.push(AskedCopy { group, stored }).is_err() {
            return Err(ReadError::NoMemory);
        }
    }
    Ok(Listed::from_vec(copies))
}

impl Spelled for Entry {
    ghost use Rattle.dm_durable.specs.Fields.{FitsEntry};
    ghost use Rattle.dm_fields.specs.Parts.{entry_field};

    ghost spelling = { entry_field };

    ghost fits = { FitsEntry };

    fn spelled_len(&self) -> usize {
        let copies = CopiesOf {
            items: &self.copies,
        };
        (self.len, (copies, (self.gone, self.dropping))).spelled_len()
    }

    fn put(&self, out: &mut [u8], at: usize) -> usize {
        let copies = CopiesOf {
            items: &self.copies,
        };
        (self.len, (copies, (self.gone, self.dropping))).put(out, at)
    }
}

impl Field for Entry {
    ghost use Rattle.dm_fields.specs.PartsOnce.{entry_once};

    ghost once = { entry_once };

    fn read(alloc: Global, input: &mut Input<'_>) -> Result<Entry, ReadError> {
        match <(u64, (Copies, (Option<Secs>, bool)))>::read(alloc, input) {
            Ok((len, (copies, (gone, dropping)))) => Ok(Entry {
                len,
                copies: copies.items,
                gone,
                dropping,
            }),
            Err(error) => Err(error),
        }
    }
}
