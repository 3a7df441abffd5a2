//! The image of a volume, in one file of a bay: its label, and zones behind it.
#![tactic(auto)]

mod image;
mod volume;

pub use volume::Volume;

#[cfg(test)]
mod tests;
