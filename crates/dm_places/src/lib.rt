//! The order in which a merge goes through a volume: by place.
//!
//! Each volume has a queue, which has at least the place of every chunk that lies there. A chunk that moves or is deleted
//! leaves its place in the queue until that comes to the front, where whoever asks for it looks the chunk up and drops the
//! place. So a commit, a move and a step of a merge each cost the logarithm of the queue's length, and none takes memory:
//! the places of chunks to come are kept beforehand, one for each chunk that is reserved for, and given back where it
//! doesn't come.
#![tactic(auto)]

mod queues;
mod spot;
mod spots;

pub use queues::Queues;
pub use spot::{Spot, Test};
pub use spots::Spots;

#[cfg(test)]
mod tests;
