//! What stays as it is while something else is open: the spans of a bitfile's chunks while no hard delete has taken the bitfile, as
//! while a request of it is open. What is proved of events and of runs is the contract of a function that does nothing.
#![tactic(auto)]

mod laws;

pub use laws::{chunks_stay, tokens_rise};
