//! Tables of rows: by a number, and by a text. Contracts see each as a finite map.
//!
//! The rows lie in the order of their keys, so a look-up and a step to the next row cost the
//! logarithm of what the table has. Only a row at a new key takes memory.
#![tactic(auto)]

mod copied;
mod each;
mod edit;
mod numbers;
mod texts;

pub use copied::Copied;
pub use each::{Change, Test, Weight};
pub use edit::{TryEdit, TryEditAt};
pub use numbers::Numbers;
pub use texts::Texts;

#[cfg(test)]
mod tests;
