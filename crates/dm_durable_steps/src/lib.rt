//! What a record does to the durable tables, as a program (docs/DEFINITIONS.md, "The daemon's records", "A group's
//! records").
//!
//! The tables are those of the definitions themselves, and each function is equal to the definition of its name. So it
//! costs what the definition says and no less: to let a bitfile go looks at every inode. The daemon has tables of its
//! own for that (`dm_daemon_tables`); these are for the machine, whose state is the words'.
#![tactic(auto)]

mod dumps;
mod entries;
mod files;
mod group;
mod inodes;
mod puts;
mod restart;
mod steps;

pub use group::{empty_group, group_after_record};
pub use inodes::bytes_online;
pub use steps::{daemon_after_record, daemon_after_stop, empty_daemon};
