//! Replacing a range of a file's bytes.

ghost use Rattle.std.specs.Prelude.{◌≡◌, ◌+◌, ◌≤◌, length, OnErr, OnOk};
ghost use Rattle.dm_base.specs.Limits.{file_limit};
ghost use Rattle.dm_plain.specs.Patching.{with_zeros, with_overlay, with_patch};

use dm_base::{Bytes, NoMemory};
use std::alloc::{AllocError, Global};
use std::mem;

/// Replaces the range that begins at `offset`, with zeros in the gap in front of it.
pub(crate) fn patch(
    alloc: Global,
    bytes: &mut Bytes,
    offset: u64,
    piece: &[u8],
) -> Result<(), NoMemory>
    requires { offset + length piece.now ≤ file_limit }
    ensures ok { OnOk result (bytes.new ≡ with_patch offset piece.now bytes.old) }
    ensures err { OnErr result (bytes.new ≡ bytes.old) }
{
    let mut items = mem::replace(bytes, Bytes::from_vec(Vec::new(alloc))).into_vec();
    let done = write_over(&mut items, offset as usize, piece);
    *bytes = Bytes::from_vec(items);
    done?;
    Ok(())
}

// Writes a piece over the bytes at a place, which are lengthened with zeros where it ends past their end.
fn write_over(bytes: &mut Vec<u8>, place: usize, piece: &[u8]) -> Result<(), AllocError>
    requires { place + length piece.now ≤ file_limit }
    ensures ok { OnOk result (bytes.new.items ≡ with_overlay place piece.now (with_zeros (place + length piece.now) bytes.old.items)) }
    ensures err { OnErr result (bytes.new.items ≡ bytes.old.items) }
{
    lengthen(bytes, place + piece.len())?;
    overlay(bytes, place, piece);
    Ok(())
}

fn lengthen(bytes: &mut Vec<u8>, end: usize) -> Result<(), AllocError>
    ensures ok { OnOk result (bytes.new.items ≡ with_zeros end bytes.old.items) }
    ensures err { OnErr result (bytes.new.items ≡ bytes.old.items) }
{
    if bytes.len() < end {
        bytes.resize(end, 0)?;
    }
    Ok(())
}

fn overlay(bytes: &mut [u8], place: usize, piece: &[u8])
    requires { place + length piece.now ≤ length bytes.old }
    ensures { bytes.new ≡ with_overlay place piece.now bytes.old }
{
    bytes[place..place + piece.len()].copy_from_slice(piece);
}
