//! The numbered history that threads share, of which each knows a part.
//!
//! A spine counts the entries that were drawn. A pass is a thread's hold on it: it keeps names, and it alone draws
//! entries about these. What a pass has seen, its past, exists in contracts and proofs alone, and no list is stored.
#![tactic(auto)]

mod laws;
mod memory;
mod parts;
mod pass;
mod rule;
mod steps;

pub use laws::union_legal;
pub use memory::NoMemory;
pub use parts::{Note, Parts};
pub use pass::{Pass, Past, Spine};
pub use rule::View;

#[cfg(test)]
mod tests;
