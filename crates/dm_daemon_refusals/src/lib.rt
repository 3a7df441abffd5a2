//! The refusals of the daemon's calls, in the order in which they are tried.
//!
//! A function for each call answers why it is refused, or that it isn't: exactly the first refusal of the model's plan, so
//! each reads like the plan's own list of refusals. They look at the tables and the open requests, where no step is in doubt,
//! and change nothing. Want of memory and faults of the device are no matter of theirs.
#![tactic(auto)]

mod files;
mod first;
mod looks;
mod others;
mod sizes;

pub use files::{patch_refusal, put_refusal, release_refusal, remove_refusal, write_refusal};
pub use looks::{file, state};
pub use others::{age_refusal, changed_refusal, undump_refusal};
