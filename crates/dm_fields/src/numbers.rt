//! Fields that are numbers, and what is known by its number.

ghost use Rattle.std.specs.Prelude.{◌≡◌, ◌≤◌, ◌+◌, length, MatchOption, ◌++◌, ◌<◌, ◌^◌};
ghost use Rattle.dm_fields.specs.Fields.{byte_field};
ghost use Rattle.dm_fields.specs.Numbers.{be16, be32, be64, be128};
ghost use Rattle.dm_fields.specs.Writing.{IsPut};

use crate::field::{Field, Spelled};
use crate::input::{Input, ReadError};
use byteorder::{BigEndian, ByteOrder};
use dm_base::{Bfid, GroupId, Ino, Secs};
use std::alloc::Global;

// Writes the bytes behind the first `at`.
pub(crate) fn put_bytes(out: &mut [u8], at: usize, bytes: &[u8]) -> usize
    requires { at + length bytes.now ≤ length out.old }
    ensures { IsPut bytes.now at out.old out.new result }
{
    let end = at + bytes.len();
    out[at..end].copy_from_slice(bytes);
    end
}

#[tactic(auto, unfolding(crate::specs::Numbers::big_endian))]
pub(crate) fn put_be16(out: &mut [u8], at: usize, n: u16) -> usize
    requires { at + 2 ≤ length out.old }
    ensures { IsPut (be16 n) at out.old out.new result }
{
    let mut bytes = [0; 2];
    BigEndian::write_u16(&mut bytes, n);
    put_bytes(out, at, &bytes)
}

#[tactic(auto, unfolding(crate::specs::Numbers::big_endian))]
pub(crate) fn put_be32(out: &mut [u8], at: usize, n: u32) -> usize
    requires { at + 4 ≤ length out.old }
    ensures { IsPut (be32 n) at out.old out.new result }
{
    let mut bytes = [0; 4];
    BigEndian::write_u32(&mut bytes, n);
    put_bytes(out, at, &bytes)
}

#[tactic(auto, unfolding(crate::specs::Numbers::big_endian))]
pub(crate) fn put_be64(out: &mut [u8], at: usize, n: u64) -> usize
    requires { at + 8 ≤ length out.old }
    ensures { IsPut (be64 n) at out.old out.new result }
{
    let mut bytes = [0; 8];
    BigEndian::write_u64(&mut bytes, n);
    put_bytes(out, at, &bytes)
}

#[tactic(auto, unfolding(crate::specs::Numbers::big_endian))]
pub(crate) fn put_be128(out: &mut [u8], at: usize, n: u128) -> usize
    requires { at + 16 ≤ length out.old }
    ensures { IsPut (be128 n) at out.old out.new result }
{
    let mut bytes = [0; 16];
    BigEndian::write_u128(&mut bytes, n);
    put_bytes(out, at, &bytes)
}

// The next number, or none where too few bytes are left.
pub(crate) fn take_byte(input: &mut Input<'_>) -> Option<u8>
    ensures { MatchOption result (length input.old < 1) (λ n. (n < 2 ^ 8) × (input.old ≡ byte_field n ++ input.new)) }
{
    let bytes = input.take(1)?;
    Some(bytes[0])
}

// The number of 2 bytes.
fn be16_of(bytes: &[u8]) -> u16
    requires { length bytes.now ≡ 2 }
    ensures { be16 result ≡ bytes.now }
{
    BigEndian::read_u16(bytes)
}

pub(crate) fn take_be16(input: &mut Input<'_>) -> Option<u16>
    ensures { MatchOption result (length input.old < 2) (λ n. (n < 2 ^ 16) × (input.old ≡ be16 n ++ input.new)) }
{
    let bytes = input.take(2)?;
    Some(be16_of(bytes))
}

// The number of 4 bytes.
fn be32_of(bytes: &[u8]) -> u32
    requires { length bytes.now ≡ 4 }
    ensures { be32 result ≡ bytes.now }
{
    BigEndian::read_u32(bytes)
}

pub(crate) fn take_be32(input: &mut Input<'_>) -> Option<u32>
    ensures { MatchOption result (length input.old < 4) (λ n. (n < 2 ^ 32) × (input.old ≡ be32 n ++ input.new)) }
{
    let bytes = input.take(4)?;
    Some(be32_of(bytes))
}

// The number of 8 bytes.
fn be64_of(bytes: &[u8]) -> u64
    requires { length bytes.now ≡ 8 }
    ensures { be64 result ≡ bytes.now }
{
    BigEndian::read_u64(bytes)
}

pub(crate) fn take_be64(input: &mut Input<'_>) -> Option<u64>
    ensures { MatchOption result (length input.old < 8) (λ n. (n < 2 ^ 64) × (input.old ≡ be64 n ++ input.new)) }
{
    let bytes = input.take(8)?;
    Some(be64_of(bytes))
}

// The number of 16 bytes.
fn be128_of(bytes: &[u8]) -> u128
    requires { length bytes.now ≡ 16 }
    ensures { be128 result ≡ bytes.now }
{
    BigEndian::read_u128(bytes)
}

pub(crate) fn take_be128(input: &mut Input<'_>) -> Option<u128>
    ensures { MatchOption result (length input.old < 16) (λ n. (n < 2 ^ 128) × (input.old ≡ be128 n ++ input.new)) }
{
    let bytes = input.take(16)?;
    Some(be128_of(bytes))
}
