//! The inodes of the daemon by number, with what a step must not look for in all of them.
//!
//! Two things are kept beside the table: how many inodes name each bitfile, so that to let a bitfile go costs a
//! look-up, and the sum of the lengths of all files. Every change of the table goes through two private functions, one
//! that takes an inode out and one that puts one in; both keep the two, so no caller can leave them behind.
//!
//! No call but `reserve` takes memory: what a step puts in stands in boxes that were made before it was journalled.
#![tactic(auto)]

mod contents;
mod counts;
mod inodes;

pub use contents::{bitfile, bitfile_made, length, length_online};
pub use inodes::Inodes;

#[cfg(test)]
mod tests;
