//! The daemon's durable tables as the program keeps them, and each of its steps in two halves.
//!
//! A step is *prepared* before it is journalled: what it needs of memory is taken then, places in the tables, boxes for
//! its rows, copies of what it keeps; the tables say the same as before. It is *applied* when its record is known to stand
//! in the journal: that takes no memory and is never refused, so a step in doubt can be done at any time later. What was
//! prepared owns all that the step needs, and gives its record.
//!
//! Contracts see the tables as the record of dm_durable's definitions (`specs/Tables`), and a step that is applied does
//! exactly what its record does there.
#![tactic(auto)]

mod apply;
mod deletes;
mod dumps;
mod entries;
mod files;
mod prepare;
mod prepared;
mod puts;
mod short_text;
mod tables;

pub use prepared::Prepared;
pub use short_text::ShortText;
pub use tables::Tables;

#[cfg(test)]
mod tests;
