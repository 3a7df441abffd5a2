//! Copies of the machine's words: of the durable tables and records, and of the joint state (docs/DEFINITIONS.md, "The
//! machine, whole"). A step works on a copy, so that a step for which memory is refused leaves the state as it was.
#![tactic(auto)]

mod duplicate;
mod durable;
mod joint;

pub use duplicate::Duplicate;
pub use joint::conf_copied;
