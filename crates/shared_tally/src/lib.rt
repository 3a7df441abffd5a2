//! The smallest layer that shares a spine: a counter under a lock, and two workers that add to it in threads of their own.
//!
//! It is there for its contracts, which show that those of `dm_spine` are enough for a component whose state is the replay
//! of its own entries.
#![tactic(auto)]

mod counting;
mod lock;
mod run;
mod session;
mod tally;

pub use counting::{Added, Counting, Name};
pub use lock::{Fits, Loan, Lock};
pub use run::run_both;
pub use session::Session;
pub use tally::{Full, Place, Tally};

#[cfg(test)]
mod tests;
