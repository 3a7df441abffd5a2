//! A group's durable tables as the program keeps them, and each of its steps in two halves.
//!
//! A step is *prepared* before it is journalled: what it needs of memory is taken then, places in the tables and boxes for
//! its rows; the tables say the same as before. It is *applied* when its record is known to stand in the journal: that
//! takes no memory and is never refused, so a step in doubt can be done at any time later. What was prepared owns all that
//! the step needs, and gives its record.
//!
//! Contracts see the tables as the record of dm_durable's definitions (`specs/Tables`), and a step that is applied does
//! exactly what its record does there. What older programs journalled are records of the same steps, of volumes of version
//! 1 and of chunks without sums, so it is prepared and applied in the same way.
#![tactic(auto)]

mod apply;
mod laws;
mod prepare;
mod prepared;
mod tables;

pub use laws::steps_that_may_follow_keep_bitfiles_whole;
pub use prepared::Prepared;
pub use tables::Tables;

#[cfg(test)]
mod tests;
