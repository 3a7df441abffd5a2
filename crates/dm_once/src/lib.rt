//! Chunks that were once live: as long as their volume has the epoch that it had then, their bytes stay known, whatever becomes
//! of their bitfile. What is proved of whole events and of runs is the contract of a function that does nothing.
#![tactic(auto)]

mod laws;

pub use laws::{committed_alone, content_kept, missing_kept, once_live};
