//! When a record may follow in the daemon's tables, as a test: a journal in which one fails is damaged.
//!
//! The condition of each kind of record is a definition (docs/DEFINITIONS.md, "The daemon's records"), and `may_follow`
//! answers true exactly where it holds. A test looks up the few rows that its record names; one of a hard delete looks
//! up each bitfile of it, and one of a restart goes over the inodes, as the step itself does.
#![tactic(auto)]

mod conditions;
mod deletes;
mod dumps;
mod files;
mod puts;

pub use conditions::may_follow;
