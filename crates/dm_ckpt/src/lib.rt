//! A component's state as a list of payloads, over two areas and two logs of a bay: the rows of the area in use, a
//! snapshot, and then what was appended to the log of the same index since. A checkpoint puts a new snapshot into
//! the other area and goes on with the other, empty log.
//!
//! To a caller a store is that list alone. A crash at any moment leaves the list of the calls that succeeded, with or
//! without the payload that was being appended, or with a checkpoint's list in its place. No clause of a call that
//! changes something speaks of areas and generations.
//!
//! The order of a checkpoint's steps is what the proof rests on: `checkpoint.rt` has it, with the reason of each.
#![tactic(auto)]

mod area;
mod checkpoint;
mod doubt;
mod files;
mod loading;
mod opening;
mod rows;
mod store;
mod survey;

pub use dm_base::LoadError;
pub use loading::StoreLoading;
pub use rows::Rows;
pub use store::Store;

/// A checkpoint is due where the gate of a log stands here or beyond.
pub const DUE_PLACE: u64 = 67_108_864;

/// Behind a call that began with the gate before `DUE_PLACE` and appended once, the gate stands here or before.
pub const LAST_PLACE_BEHIND: u64 = 88_080_388;

/// The lengths of a snapshot's rows, with 4 for each, sum to less than this.
pub const BODY_LIMIT: u64 = 1 << 62;

#[cfg(test)]
mod tests;
