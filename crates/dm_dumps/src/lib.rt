//! The dumps of the daemon: all files as they were at a time.
//!
//! A dump's files lie in the order of their paths, so that the k-th of them is there at once, as a checkpoint wants it.
//! Beside each dump the bytes that it keeps are summed up, and beside all dumps those of all, so that what a step adds
//! and what is left behind one is known without a look at every file.
//!
//! A dump copies the bytes of the files that have them on the disk alone. Both count for the cap on bytes, so what a
//! dump copies is at most half of the cap, once; bytes that are shared would make every other call pay for it.
#![tactic(auto)]

mod dump;
mod dumps;
mod made;

pub use dump::{KeptDump, bitfile_dumped};
pub use dumps::Dumps;

#[cfg(test)]
mod tests;
