//! The volumes of a group as the program keeps them.
//!
//! The rows lie in the order of the serial numbers, so that the k-th of them is there at once, as a checkpoint and every
//! plan over the volumes want it. A group has at most 16.
//!
//! No call but `reserve` takes memory: a volume that is added stands in a box that was made before it was journalled, and
//! all other steps change a row where it stands.
#![tactic(auto)]

mod edits;
mod volumes;

pub use volumes::{Volumes, new_volume};

#[cfg(test)]
mod tests;
