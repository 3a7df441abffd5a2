//! The daemon's tables with their journal: a step is appended, and then done.
//!
//! This is the durable half of the daemon. `journal` appends the record of a step that was prepared and applies the step;
//! where the append fails, the step is in doubt and stays prepared. `settle` finds out what became of it and applies it where
//! its record landed. Between the two nothing of the tables changes.
//!
//! What the journal's payloads tell is said in `specs/Stored`, the one place where the store's words are used.
#![tactic(auto)]

mod journalled;
mod kept;

pub use kept::Journalled;
