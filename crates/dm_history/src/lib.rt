//! The events of the machine as the entries of a shared history, and what that gives: what a thread has seen is a legal run.
//!
//! The words are those of `dm_model` (what an event is about, makes and ends) and of `dm_spine` (pasts, and which are legal);
//! `specs/History` puts them together. What is proved is the contract of functions that do nothing.
#![tactic(auto)]

mod laws;

pub use laws::{kept_same, names_decided, names_lawful, names_told, past_is_run, past_kept};
