//! What is open in a group while the program runs: reservations, mounts, moves and reuses, each by its number.
//!
//! A token is lost as the program stops. Its number is the next of a count that only rises, so that none comes twice while
//! the program runs. There are as many mounts as drives at most, and a reservation for each copy that is being stored, so
//! whether a volume is mounted, reserved or about to be used anew is asked of each of them. No call but `reserve` takes
//! memory.
#![tactic(auto)]

mod mounting;
mod tests_of_rows;
mod tokens;

pub use mounting::{free_drives, mount_refusal};
pub use tokens::Tokens;

#[cfg(test)]
mod tests;
