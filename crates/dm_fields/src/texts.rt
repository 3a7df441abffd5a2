//! Texts and bytes, behind their lengths.

use crate::field::{Field, Spelled};
use crate::input::{Input, ReadError};
use crate::numbers::{
    put_be16, put_be32, put_be64, put_bytes, take_be16, take_be32, take_be64, take_byte,
};
use dm_base::{Bytes, DumpName, Path, TextError};
use std::alloc::Global;

#[tactic(auto, using(crate::specs::Once::widths))]
impl Spelled for Path {
    ghost use Rattle.dm_base.specs.Naming.{IsPath};
    ghost use Rattle.dm_fields.specs.Fields.{path_field};

    ghost spelling = { path_field };

    ghost fits = { IsPath };

    fn spelled_len(&self) -> usize {
        2 + self.bytes().len()
    }

    fn put(&self, out: &mut [u8], at: usize) -> usize {
        let text = self.bytes();
        let behind = put_be16(out, at, text.len() as u16);
        put_bytes(out, behind, text)
    }
}

impl Field for Path {
    ghost use Rattle.dm_fields.specs.Once.{path_once};

    ghost once = { path_once };

    fn read(alloc: Global, input: &mut Input<'_>) -> Result<Path, ReadError> {
        let Some(len) = take_be16(input) else {
            return Err(ReadError::Damaged);
        };
        let Some(text) = input.take(len as usize) else {
            return Err(ReadError::Damaged);
        };
        match Path::of_bytes(alloc, text) {
            Ok(path) => Ok(path),
            Err(TextError::Grammar) => Err(ReadError::Damaged),
            Err(TextError::NoMemory) => Err(ReadError::NoMemory),
        }
    }
}

impl Spelled for DumpName {
    ghost use Rattle.dm_base.specs.Naming.{IsDumpName};
    ghost use Rattle.dm_fields.specs.Fields.{name_field};

    ghost spelling = { name_field };

    ghost fits = { IsDumpName };

    fn spelled_len(&self) -> usize {
        1 + self.bytes().len()
    }

    fn put(&self, out: &mut [u8], at: usize) -> usize {
        let text = self.bytes();
        let behind = put_bytes(out, at, &[text.len() as u8]);
        put_bytes(out, behind, text)
    }
}

impl Field for DumpName {
    ghost use Rattle.dm_fields.specs.Once.{name_once};

    ghost once = { name_once };

    fn read(alloc: Global, input: &mut Input<'_>) -> Result<DumpName, ReadError> {
        let Some(len) = take_byte(input) else {
            return Err(ReadError::Damaged);
        };
        let Some(text) = input.take(len as usize) else {
            return Err(ReadError::Damaged);
        };
        match DumpName::of_bytes(alloc, text) {
            Ok(name) => Ok(name),
            Err(TextError::Grammar) => Err(ReadError::Damaged),
            Err(TextError::NoMemory) => Err(ReadError::NoMemory),
        }
    }
}

#[tactic(auto, using(crate::specs::Once::widths))]
impl Spelled for Bytes {
    ghost use Rattle.std.specs.Prelude.{◌<◌, ◌^◌, length};
    ghost use Rattle.dm_fields.specs.Fields.{content_field};

    ghost spelling = { content_field };

    ghost fits = { λ bytes. length bytes < 2 ^ 32 };

    fn spelled_len(&self) -> usize {
        4 + self.len()
    }

    fn put(&self, out: &mut [u8], at: usize) -> usize {
        let behind = put_be32(out, at, self.len() as u32);
        put_bytes(out, behind, self.as_slice())
    }
}

impl Field for Bytes {
    ghost use Rattle.dm_fields.specs.Once.{content_once};

    ghost once = { content_once };

    fn read(alloc: Global, input: &mut Input<'_>) -> Result<Bytes, ReadError> {
        let Some(len) = take_be32(input) else {
            return Err(ReadError::Damaged);
        };
        let Some(bytes) = input.take(len as usize) else {
            return Err(ReadError::Damaged);
        };
        match Vec::from_slice(alloc, bytes) {
            Ok(bytes) => Ok(Bytes::from_vec(bytes)),
            Err(_) => Err(ReadError::NoMemory),
        }
    }
}

/// Bytes behind their number in eight bytes, as rows have them.
#[derive(Drop)]
pub struct LongBytes {
    pub bytes: Bytes,
}

/// The same, lent.
#[derive(Drop)]
pub struct LongBytesOf<'a> {
    pub bytes: &'a Bytes,
}

#[tactic(auto, using(crate::specs::Once::widths))]
impl<'a> Spelled for LongBytesOf<'a> {
    ghost use Rattle.std.specs.Prelude.{◌<◌, ◌^◌, length};
    ghost use Rattle.dm_fields.specs.Parts.{long_content_field};

    ghost spelling = { λ l. long_content_field l.bytes.now };

    ghost fits = { λ l. length l.bytes.now < 2 ^ 64 };

    fn spelled_len(&self) -> usize {
        8 + self.bytes.len()
    }

    fn put(&self, out: &mut [u8], at: usize) -> usize {
        let behind = put_be64(out, at, self.bytes.len() as u64);
        put_bytes(out, behind, self.bytes.as_slice())
    }
}

impl Spelled for LongBytes {
    ghost use Rattle.std.specs.Prelude.{◌<◌, ◌^◌, length};
    ghost use Rattle.dm_fields.specs.Parts.{long_content_field};

    ghost spelling = { λ l. long_content_field l.bytes };

    ghost fits = { λ l. length l.bytes < 2 ^ 64 };

    fn spelled_len(&self) -> usize {
        LongBytesOf { bytes: &self.bytes }.spelled_len()
    }

    fn put(&self, out: &mut [u8], at: usize) -> usize {
        LongBytesOf { bytes: &self.bytes }.put(out, at)
    }
}

impl Field for LongBytes {
    ghost use Rattle.dm_fields.specs.PartsOnce.{long_bytes_once};

    ghost once = { long_bytes_once };

    fn read(alloc: Global, input: &mut Input<'_>) -> Result<LongBytes, ReadError> {
        let Some(len) = take_be64(input) else {
            return Err(ReadError::Damaged);
        };
        let Some(bytes) = input.take(len as usize) else {
            return Err(ReadError::Damaged);
        };
        match Vec::from_slice(alloc, bytes) {
            Ok(bytes) => Ok(LongBytes {
                bytes: Bytes::from_vec(bytes),
            }),
            Err(_) => Err(ReadError::NoMemory),
        }
    }
}
