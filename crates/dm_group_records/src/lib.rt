//! The payloads of a group's journal: how each is spelled, written and read back.
//!
//! As the crate of the daemon's payloads, over the same fields: specs/Steps, Rows and Payloads are the format, and
//! docs/FORMATS.md its tables. `logs` has the payloads of a log, and `rows` those of a checkpoint. The kinds of the time
//! before volumes had versions and chunks had sums are read and never written: `kinds`, and specs/OldSteps.
#![tactic(auto)]

mod kinds;
mod laws;
mod logs;
mod old_steps;
mod rows;
mod steps;
#[cfg(test)]
mod tests;

pub use kinds::{OldKind, StepKind};
pub use laws::{payloads_are_short, spelled_once};
pub use logs::{put_head, put_record, read_log, record_len};
pub use old_steps::{chunks_of, read_old_fields};
pub use rows::{RowOf, put_row, read_row, row_len};
pub use steps::{fields_len, kind_of, put_fields, read_fields};
