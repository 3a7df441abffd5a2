//! The product's shared history: what it begins with, and how the entries of calls are drawn.
//!
//! A `System` is what a spine of the product is begun with. A pass of such a spine draws the entries of the calls that its thread makes,
//! and what it has seen is then a legal run of the machine, from each opened state that what was loaded stands for. At run time a
//! draw adds one to a word; a note of a call is a few references and numbers, and nothing is stored.
#![tactic(auto)]

mod component_notes;
pub mod daemon_calls;
mod drawing;
pub mod group_calls;
mod laws;
mod names;
mod note;
mod system;
pub mod volume_calls;

pub use component_notes::{LandedNote, LookNote};
pub use drawing::{draw_call, draw_entry, has_room};
pub use laws::{past_is_run, union_legal};
pub use names::{Names, Owner};
pub use note::{Arguments, CallNote, Progress};
pub use system::System;

#[cfg(test)]
mod tests;
