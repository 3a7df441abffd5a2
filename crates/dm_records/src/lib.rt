//! The payloads of the daemon's journal, of its log and of its checkpoints: how each is spelled, written and read back.
//!
//! A payload is a list of the fields of `dm_fields` behind its kind. `specs/Steps`, `Rows` and `Payloads` are the format,
//! and docs/FORMATS.md its tables. Writing takes no memory. Reading is exact: the bytes are one payload or none. What
//! holds of all of them is `laws`. Which kinds are written and which are only read: `kinds`.
#![tactic(auto)]

mod kinds;
mod laws;
mod logs;
mod names;
mod rows;
mod steps;

pub use kinds::{RowKind, StepKind};
pub use laws::{payloads_are_short, spelled_once};
pub use logs::{put_head, put_record, put_upgrade, read_log, record_len};
pub use names::{FirstName, SecondName};
pub use rows::{LentRow, kind_of_row, put_row, read_row, row_len};
pub use steps::{fields_len, kind_of, put_fields, read_fields};

#[cfg(test)]
mod tests;
