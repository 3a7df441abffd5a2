//! The rules that every layer cites: what stands on a volume, how much it takes, what state it is in, and what of it is
//! known.
//!
//! A crate above states in these words what it does; none of them is stated twice. A volume has a version, 1 or 2, and
//! what depends on it takes the version as its first argument, so that volumes of both stand side by side: the length of
//! a chunk's header and with it the length of a zone, the room of a volume and the weight of a chunk. The definitions
//! are in `specs/`, one file a subject, and in prose in docs/DEFINITIONS.md and docs/FORMATS.md.
#![tactic(auto)]

mod laws;
mod space;
mod version;

pub use laws::{rooms_are_as_worked, weights_are_zones};
pub use space::Space;
pub use version::{FIRST_VERSION, SECOND_VERSION, chunk_header, has_sum};

/// The length of a zone's header.
pub const ZONE_HEADER: u64 = 32;

/// The length of what a chunk's header has in both versions.
pub const CHUNK_FIELDS: u64 = 48;

/// The place of the first zone of a volume, behind its label.
pub const FIRST_ZONE: u64 = 64;
