//! The sums of chunks.

ghost use Rattle.std.specs.Prelude.{◌≡◌, ◌+◌, ◌≤◌, take, drop, length, nat_eq};
ghost use lib.Pointwise.{pointwise};
ghost use Rattle.dm_rules.specs.Version.{sum_length};
ghost use Rattle.dm_rules.specs.Zone.{chunk_sum as sum_of, sum_text};
ghost use Rattle.dm_zone.specs.Fields.{sum_there};

use dm_rules::{CHUNK_FIELDS, has_sum};
use sha2::{Digest, Sha256};

/// The sum that the header of a chunk of these bytes has on a volume of this version: none in the first version, in the
/// second the SHA-256 of the bytes.
pub fn chunk_sum(version: u8, bytes: &[u8]) -> Option<[u8; 32]>
    ensures { result ≡ sum_of version bytes.now }
{
    if has_sum(version) {
        Some(Sha256::digest(bytes))
    } else {
        None
    }
}

// Whether this sum, if there is one, stands behind the fields of a chunk's header, with which the bytes begin.
pub(crate) fn sum_stands(bytes: &[u8], sum: Option<[u8; 32]>) -> bool
    requires { 48 + length (sum_text sum) ≤ length bytes.now }
    ensures { result ≡ pointwise nat_eq (take (length (sum_text sum)) (drop 48 bytes.now)) (sum_text sum) }
{
    match sum {
        None => true,
        Some(sum) => stands(bytes, &sum),
    }
}

fn stands(bytes: &[u8], sum: &[u8; 32]) -> bool
    requires { 80 ≤ length bytes.now }
    ensures { result ≡ pointwise nat_eq (take 32 (drop 48 bytes.now)) sum.now }
{
    let (_, rest) = bytes.split_at(CHUNK_FIELDS as usize);
    let (there, _) = rest.split_at(sum.len());
    there == sum.as_slice()
}

// The sum that stands behind the fields of a chunk's header, with which the bytes begin, on a volume of this version.
pub(crate) fn sum_in(bytes: &[u8], version: u8) -> Option<[u8; 32]>
    requires { 48 + sum_length version ≤ length bytes.now }
    ensures { result ≡ sum_there version bytes.now }
{
    if !has_sum(version) {
        return None;
    }
    let (_, rest) = bytes.split_at(CHUNK_FIELDS as usize);
    let (sum, _) = rest.split_first_chunk()?;
    Some(*sum)
}
