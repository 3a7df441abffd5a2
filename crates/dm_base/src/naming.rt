//! Names of files and of dumps, and their grammar (docs/DEFINITIONS.md, "Names").
//!
//! A `Path` and a `DumpName` are in their grammar whoever holds them: it is the invariant of their
//! model, so a length, a record or a row that rests on it needs no test. Both are in the order of
//! their bytes, which is the order of every list of files and dumps.

ghost use Rattle.std.specs.Prelude.{◌≡◌, ◌↔◌, false, IsTrue, IfOk, IsErrOf};
ghost use Rattle.dm_base.specs.Naming.{IsDumpName, IsPath, is_all_name, is_dump_name_text};
ghost use Rattle.dm_base.specs.Naming.{is_name_byte as is_name_byte_of, is_path_text, is_spelled};

use crate::contents::Bytes;
use crate::memory::NoMemory;
use std::alloc::Global;
use std::marker::Model;

/// The most bytes that a path has.
pub const PATH_LIMIT: usize = 255;

/// The most bytes that the name of a dump has.
pub const DUMP_NAME_LIMIT: usize = 32;

/// Why a text was not taken as a name.
#[derive(Clone, Copy, Debug, PartialEq, Eq)]
pub enum TextError {
    /// The text is outside the grammar.
    Grammar,
    /// There was no memory for a copy of it. It is of the grammar.
    NoMemory,
}

/// A file's name: `/` and a name, once or more, 255 bytes at most.
#[derive(Drop, PartialEq, Eq, PartialOrd, Ord)]
pub struct Path {
    text: Bytes,
}

impl Model for Path {
    ghost use Rattle.std.specs.Prelude.{List, ℕ, IsTrue};
    ghost use Rattle.dm_base.specs.Naming.{is_path_text};

    ghost Value = { List ℕ };

    ghost view = { λ p. p.text };

    ghost invariant = { λ p. IsTrue (is_path_text p.text) };

    ghost inverse = { λ text. record { text = text } };
}

impl Path {
    /// The path of this text, of which it takes a copy.
    pub fn of_bytes(alloc: Global, text: &[u8]) -> Result<Path, TextError>
        ensures taken { IfOk result (λ name. (name ≡ text.now) × IsPath text.now) }
        ensures grammar { IsErrOf result TextError.Grammar ↔ (IsPath text.now → ⊥) }

        // Memory is asked only for a text of the grammar.
        ensures memory { IsErrOf result TextError.NoMemory → IsPath text.now }
    {
        if !is_path(text) {
            return Err(TextError::Grammar);
        }
        match Vec::from_slice(alloc, text) {
            Ok(copy) => Ok(Path {
                text: Bytes::from_vec(copy),
            }),
            Err(_) => Err(TextError::NoMemory),
        }
    }

    /// A copy. It takes memory of its own.
    pub fn copied(&self, alloc: Global) -> Result<Path, NoMemory>
        ensures { IfOk result (λ copy. copy ≡ self.now) }
    {
        Ok(Path {
            text: self.text.copied(alloc)?,
        })
    }

    /// The text.
    pub fn bytes(&self) -> &[u8]
        ensures text { result.now ≡ self.now }
        ensures grammar { IsPath result.now }
    {
        self.text.as_slice()
    }
}

/// The name of a dump, or of saved tables: 1 to 32 of the bytes that names are made of.
#[derive(Drop, PartialEq, Eq, PartialOrd, Ord)]
pub struct DumpName {
    text: Bytes,
}

impl Model for DumpName {
    ghost use Rattle.std.specs.Prelude.{List, ℕ, IsTrue};
    ghost use Rattle.dm_base.specs.Naming.{is_dump_name_text};

    ghost Value = { List ℕ };

    ghost view = { λ p. p.text };

    ghost invariant = { λ p. IsTrue (is_dump_name_text p.text) };

    ghost inverse = { λ text. record { text = text } };
}

impl DumpName {
    /// The dump's name of this text, of which it takes a copy.
    pub fn of_bytes(alloc: Global, text: &[u8]) -> Result<DumpName, TextError>
        ensures taken { IfOk result (λ name. (name ≡ text.now) × IsDumpName text.now) }
        ensures grammar { IsErrOf result TextError.Grammar ↔ (IsDumpName text.now → ⊥) }

        // Memory is asked only for a text of the grammar.
        ensures memory { IsErrOf result TextError.NoMemory → IsDumpName text.now }
    {
        if !is_dump_name(text) {
            return Err(TextError::Grammar);
        }
        match Vec::from_slice(alloc, text) {
            Ok(copy) => Ok(DumpName {
                text: Bytes::from_vec(copy),
            }),
            Err(_) => Err(TextError::NoMemory),
        }
    }

    /// A copy. It takes memory of its own.
    pub fn copied(&self, alloc: Global) -> Result<DumpName, NoMemory>
        ensures { IfOk result (λ copy. copy ≡ self.now) }
    {
        Ok(DumpName {
            text: self.text.copied(alloc)?,
        })
    }

    /// The text.
    pub fn bytes(&self) -> &[u8]
        ensures text { result.now ≡ self.now }
        ensures grammar { IsDumpName result.now }
    {
        self.text.as_slice()
    }
}

// Whether the text is a path.
fn is_path(text: &[u8]) -> bool
    ensures test { result ≡ is_path_text text.now }
    ensures grammar { IsTrue result ↔ IsPath text.now }
{
    let Some((first, rest)) = text.split_first() else {
        return false;
    };
    if *first != b'/' {
        return false;
    }
    if text.len() > PATH_LIMIT {
        return false;
    }
    is_name_list(rest)
}

// Whether the bytes are names with one slash between them.
fn is_name_list(bytes: &[u8]) -> bool
    ensures { result ≡ is_spelled false bytes.now }
{
    let mut named = false;
    for byte in bytes {
        match *byte {
            b'/' if named => named = false,
            b if is_name_byte(b) => named = true,
            _ => return false,
        }
    }
    named
}

fn is_name_byte(byte: u8) -> bool
    ensures { result ≡ is_name_byte_of byte }
{
    byte.is_ascii_alphanumeric() || matches!(byte, b'.' | b'_' | b'-')
}

// Whether the text is the name of a dump.
fn is_dump_name(text: &[u8]) -> bool
    ensures test { result ≡ is_dump_name_text text.now }
    ensures grammar { IsTrue result ↔ IsDumpName text.now }
{
    if text.is_empty() {
        return false;
    }
    if text.len() > DUMP_NAME_LIMIT {
        return false;
    }
    are_name_bytes(text)
}

fn are_name_bytes(text: &[u8]) -> bool
    ensures { result ≡ is_all_name text.now }
{
    for byte in text {
        if !is_name_byte(*byte) {
            return false;
        }
    }
    true
}
