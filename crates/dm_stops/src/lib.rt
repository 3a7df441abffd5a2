//! What the end of the program keeps of the joint state, and the states in which a run begins.
//!
//! A stop takes all that is open and all steps in doubt, and a start journals that each put which had not ended is over
//! (`Restart`). What is left keeps the invariant; and so does an opened state. Both are contracts of functions that do
//! nothing, with their lemmas in `proofs/`.
#![tactic(auto)]

mod laws;

pub use laws::{example_opened, opened_kept, restart_lands, stop_keeps};
