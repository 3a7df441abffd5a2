//! The fields that records are made of: each with its spelling, its writer and its reader.
//!
//! A record of a journal is a list of fields, and so is a row of a checkpoint. A field is spelled in one
//! way: its spelling tells the value and where it ends (`Field::once`), so what a list of fields spells is
//! known from its fields (`pairs`), and a codec of records has a line for each kind of record.
//!
//! Writing goes into bytes that have room, and takes no memory. Reading copies the bytes of a file
//! once. Nothing here knows a record.
#![tactic(auto)]

mod chunks;
mod copies;
mod field;
mod input;
mod lists;
mod numbers;
mod pairs;
mod parts;
mod scalars;
mod texts;

pub use chunks::{OldChunk, SUM_LENGTH};
pub use copies::{Copies, CopiesOf};
pub use field::{Field, Spelled};
pub use input::{Input, ReadError};
pub use lists::{ShortList, ShortListOf, items_len, put_items, read_items};
pub use texts::{LongBytes, LongBytesOf};

#[cfg(test)]
mod tests;
