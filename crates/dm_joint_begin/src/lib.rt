//! The joint state before the first event, as a program (docs/DEFINITIONS.md, "The machine, whole").
#![tactic(auto)]

mod begin;

pub use begin::empty_joint;
