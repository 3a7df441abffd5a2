//! What each call of the daemon comes to: the plans of the daemon and what they need of others (`dm_model`, DaemonCalls), as a
//! program that looks at the joint state (docs/DEFINITIONS.md, "The machine, whole").
//!
//! A call is looked at in three steps. What it names is looked up; its guards and its refusals are tested, the refusals in
//! order; and what an accepted call does is built only where no refusal holds, since what is built may not fit otherwise. Where
//! a definition goes by cases on what was looked up, the code has a function that takes it.
#![tactic(auto)]

mod calls;
mod deletes;
mod dumps;
mod entries;
mod files;
mod prepared;
mod puts;
mod recalls;
mod sizes;
mod writes;

pub use calls::daemon_verdict;
