//! The plain namespace, where nothing ever moves: what every store of files is measured by.
#![tactic(auto)]

mod dump;
mod namespace;
mod patch;
mod step;

pub use namespace::Plain;
pub use step::PlainStep;

#[cfg(test)]
mod tests;
