//! How a history begins in what was loaded.
//!
//! A program has its tables and what is on its volumes as it begins, and no more: not the content of each bitfile, nor what was done
//! before. So it stands for many opened states. What threads may then draw is what each of these allows, and what they have seen is a
//! legal run from each. What is proved is the contract of functions that do nothing.
#![tactic(auto)]

mod laws;

pub use laws::{each_opening, openings_alike, openings_kept, openings_lawful, past_is_run_of_each};
