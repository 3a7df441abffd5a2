//! The steps of a journal over a caller's numbers and buffer, for one who keeps several journals with one buffer.
//! Their clauses are those of `Journal` and `Loading`, at the file and the place that are handed in.

pub use crate::frame::{CAPACITY, OPEN, put_frame};
pub use crate::journal::{add, behind, look};
pub use crate::reading::{advance, open};
