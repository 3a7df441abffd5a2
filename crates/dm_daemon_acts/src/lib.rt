//! What each call of the daemon does, said of the daemon alone.
//!
//! A component's contract cites the model's plan of a call by the words of `specs/Acts`: `Ready` (the condition), `Did` (the
//! whole call, the step in doubt settled first), `Does` (the call where no step is in doubt). That these are what the joint
//! machine does, and that the record which an accepted call journals may follow in the tables, are the contracts of the
//! functions here. The lemmas of `proofs/Plans` say what a plan comes to by what became of its step; whoever writes a call
//! cites them.
#![tactic(auto)]

mod laws;

pub use laws::{accepted_may_follow, acts_are_events, ready_may_follow};
