//! The generated session: so many files are written and stored, a third of them removed, deleted and merged away, and the
//! others read.
//!
//! A plan is a counter and not a list: it makes each command when it is asked for it. What the session is, is one list in
//! `specs/Session.antt`; what the plan holds is the rest of that list.
#![tactic(auto)]

mod file;
mod plan;
mod stage;

pub use plan::{FILES_LIMIT, Plan};

#[cfg(test)]
mod tests;
