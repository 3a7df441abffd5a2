//! What the payloads of the daemon's log come to: the first is a head, each other is a record that may follow or the upgrade
//! of a journal of version 1.
//!
//! `Replayed` takes one payload after another as bytes, and answers `Damaged` exactly where one may not come. What a whole log
//! comes to is a relation of lists of payloads and states (`specs/Replay`). That it is what the calls answer one after another, and
//! that a log tells of one state, are laws. Where payloads stand in files is no matter of this crate.
#![tactic(auto)]

mod laws;
mod replayed;

pub use laws::{first_payload, last_payload, one_state};
pub use replayed::Replayed;

#[cfg(test)]
mod tests;
