//! What each call of a group comes to: the plans of a group and what they need of others (`dm_model`, GroupCalls), as a program
//! that looks at the joint state (docs/DEFINITIONS.md, "The machine, whole").
//!
//! A call is looked at in three steps. What it names is looked up; its guards and its refusals are tested, the refusals in
//! order; and what an accepted call does is built only where no refusal holds. Where a definition goes by cases on what was
//! looked up, the code has a function that takes it.
//!
//! The definitions are over all numbers and texts. A state that isn't in range (`IsGroupInRange` of `dm_group_usage`) has what can't be told or held: a
//! volume under a text that is no serial number, a place past 64 bits. A call that would have to answers `OutOfRange`. No run reaches such a state.
#![tactic(auto)]

mod calls;
mod commits;
mod copies;
mod merges;
mod mounts;
mod moves;
mod new_volumes;
mod prepared;
mod reuses;
mod rows;
mod zones;

pub use calls::group_verdict;
