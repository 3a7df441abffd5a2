//! What the version of a volume decides for one who writes or reads its zones.

ghost use Rattle.std.specs.Prelude.{◌≡◌};
ghost use Rattle.dm_rules.specs.Version.{chunk_header as header_of, has_sum as has_sum_of};

/// The version whose chunks have no sums.
pub const FIRST_VERSION: u8 = 1;

/// The version whose chunks have sums.
pub const SECOND_VERSION: u8 = 2;

/// Whether the header of a chunk ends with the SHA-256 of the chunk's bytes on a volume of this version.
pub fn has_sum(version: u8) -> bool
    ensures { result ≡ has_sum_of version }
{
    version == SECOND_VERSION
}

/// The length of a chunk's header on a volume of this version.
pub fn chunk_header(version: u8) -> u64
    ensures { result ≡ header_of version }
{
    if has_sum(version) { 80 } else { 48 }
}
