//! The open requests of the daemon: puts and recalls, by number.
//!
//! A request is lost as the program stops. Its number is the next of a count that only rises, so that none comes twice
//! while the program runs. What it found of its inode is kept in it: a change of an inode goes through all open requests,
//! and so do the questions after an open put, recall or request. There are as many as workers have one open, so at most
//! some dozens, however many files there are. No call but `reserve` takes memory.
#![tactic(auto)]

mod edits;
mod requests;
mod tests_of_rows;

pub use requests::Requests;

#[cfg(test)]
mod tests;
