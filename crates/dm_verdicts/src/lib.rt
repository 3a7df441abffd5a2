//! A call of the joint machine with every test made: what stands between the plan of a call, which is a definition, and
//! the program that does it (docs/DEFINITIONS.md, "The machine, whole").
//!
//! The crates that make a verdict on each call of the daemon, of a group and on a volume share what stands here.
#![tactic(auto)]

mod error;
mod guards;
mod prepared;
mod verdict;

pub use error::VerdictError;
pub use guards::lowest;
pub use prepared::{healing_plan, quiet_plan};
pub use verdict::{Verdict, guarded, judge, legal};
