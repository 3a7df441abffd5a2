//! The machine's history is lawful: between two legal pasts what an entry needs stays true in the larger. So the union of two
//! legal pasts that agree is legal, and all that holds of shared histories holds of the machine's. What is proved is the
//! contract of functions that do nothing.
#![tactic(auto)]

mod laws;

pub use laws::{history_lawful, needs_grow, union_legal};
