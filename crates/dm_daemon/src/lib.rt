//! The daemon: its tables, its journal and its open requests, and the calls on them.
//!
//! Each call does what the machine's plan of it says (`specs/Calls`, docs/DEFINITIONS.md, "What a call of the daemon does"):
//! it settles the step in doubt, if one is, tries its refusals in order, and journals its record before it answers. `landed`
//! tells afterwards whether the step that was in doubt had landed.
//!
//! A call has two halves: the public one settles the step in doubt, and one behind it does the call where none is.
#![tactic(auto)]

mod ages;
mod changed;
mod daemon;
mod journal;
mod laws;
mod recalls;

pub use daemon::Daemon;
pub use laws::always_ready;

#[cfg(test)]
mod tests;
