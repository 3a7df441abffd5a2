//! What users see of the joint machine: the plain namespace that a state stands for goes along with the plain steps of each
//! event, and what a read answers is what that namespace has.
//!
//! The proofs go by the contents of bitfiles: in a state that keeps the invariant the first copy of a file is its content, so
//! what the tables and the contents show is what the state stands for. What is proved of whole events and of runs is the
//! contract of functions that do nothing.
#![tactic(auto)]

mod laws;

pub use laws::{freed_dead, plain_kept, reads_right, request_there, young_kept};
