//! One session over a storage device: it reads commands, does them and answers each.
//!
//! `run_script` is the program's call, and its contract is what the program promises. The modules below
//! it are a file table with a volume image (`archive`, `file`) and the loop over the input (`session`).
#![tactic(auto)]

mod archive;
mod file;
mod script;
mod session;
mod status;

pub use script::run_script;

#[cfg(test)]
mod tests;
