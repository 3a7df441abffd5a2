//! Tables of rows in the order of their keys, with places kept for rows to come.
//!
//! A component takes all the memory of a step before it journals the step, and must then do it
//! without any: it makes the row's box and keeps a place for it (`reserve`), and later puts the box
//! in (`insert_reserved`), which cannot be refused. Contracts see a table as a finite map beside the
//! number of places that are kept.
//!
//! The rows lie in one vector of boxes, sorted by key. So a look-up is a binary search, the k-th row
//! is there at once, and a row put in or taken out moves 8 bytes for each row behind it. Rows whose
//! keys come in ascending order go to the end and move nothing. A map of the standard library would
//! not do: it can keep no place.
#![tactic(auto)]

mod edit;
mod numbers;
mod places;
mod text;
mod texts;

pub use edit::Edit;
pub use numbers::NumberRows;
pub use text::Text;
pub use texts::TextRows;

#[cfg(test)]
mod tests;
