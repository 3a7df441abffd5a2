//! What stands on a volume: its label, and the zones that hold pieces of bitfiles in chunks.
//!
//! A volume has a version. In the second a chunk's header ends with the SHA-256 of the chunk's bytes, so that damage to
//! them is found by whoever reads the zone. All calls take the version and there is one reader and one writer, so
//! volumes of both versions are read and written side by side. The bytes are those of docs/FORMATS.md; the relations
//! that the contracts cite are in dm_rules and in `specs/`. What is written is read again as it was, bytes are read in
//! one way, and bytes that are no zone have one first wrong field, which is told.
#![tactic(auto)]

mod contents;
mod decode;
mod encode;
mod error;
mod fields;
mod labels;
mod number;
mod rooms;
mod sums;

pub use contents::{Zone, ZoneChunk};
pub use decode::{decode_zone, zones_are_read_one_way};
pub use encode::encode_zone;
pub use error::ZoneError;
pub use labels::label;
pub use rooms::room;
pub use sums::chunk_sum;

#[cfg(test)]
mod tests;
