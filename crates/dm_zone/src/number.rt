//! Numbers as bytes, the highest first.

ghost use Rattle.std.specs.Prelude.{◌≡◌};
ghost use Rattle.std.specs.Int.{w32, w64, w128, to_be_bytes};

use byteorder::{BigEndian, ByteOrder};

pub(crate) fn four_bytes(n: u32) -> [u8; 4]
    ensures { result ≡ to_be_bytes w32 n }
{
    let mut bytes = [0; 4];
    BigEndian::write_u32(&mut bytes, n);
    bytes
}

pub(crate) fn eight_bytes(n: u64) -> [u8; 8]
    ensures { result ≡ to_be_bytes w64 n }
{
    let mut bytes = [0; 8];
    BigEndian::write_u64(&mut bytes, n);
    bytes
}

pub(crate) fn sixteen_bytes(n: u128) -> [u8; 16]
    ensures { result ≡ to_be_bytes w128 n }
{
    let mut bytes = [0; 16];
    BigEndian::write_u128(&mut bytes, n);
    bytes
}
