//! A journal of payloads in one file of a bay. A crash at any moment leaves the payloads of the appends that
//! succeeded, with or without the one that was under way.
//!
//! A frame is a commit marker `01`, called its gate, the length in four bytes, the highest first, and the payload.
//! The byte behind the last frame is the next gate; it is closed, so any byte but `01`. What follows a closed gate
//! has no meaning. An append writes the frame with the next gate closed, syncs, opens the gate before it, and syncs.
#![tactic(auto)]

mod frame;
mod journal;
mod loading;
mod reading;
pub mod steps;

pub use dm_base::LoadError;
pub use journal::Journal;
pub use loading::Loading;

/// The greatest length of a payload.
pub const MAX_PAYLOAD: u64 = 20_971_520;

#[cfg(test)]
mod tests;
