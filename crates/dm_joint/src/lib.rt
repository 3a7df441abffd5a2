//! The joint machine: what the daemon, the volume groups and their volumes do together, one event at a time.
//!
//! Which events may come, what each is answered and what stands after it is defined in `dm_model` (docs/DEFINITIONS.md, "The
//! machine, whole"). `Machine::step` is those words as a program, so that worked sessions run through the very definitions.
//! An event is looked at first, which gives a verdict on it; a legal one is then done on a copy of the state, and the
//! copy takes the state's place. So a step costs what the state costs to copy: that is what a definition that runs may
//! cost, and where memory is refused the state stands as it stood.
#![tactic(auto)]

mod machine;
mod outcome;

pub use machine::{Machine, StepError};
