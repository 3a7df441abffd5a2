//! The durable words of the machine: the tables of the daemon and of a volume group, and the records that change them.
//!
//! The crate has types and definitions, and no function that runs. A component appends records to its journal; what a
//! record does to the tables and when it may follow, how a list of payloads is folded into tables, and which rows are
//! a state, is defined in `specs/` alone, a file for each subject, and in prose in docs/DEFINITIONS.md, "Durable
//! tables". The components, their codecs, the machine and the laws cite these definitions.
//!
//! The types are the definitions' states themselves: a component may keep rows of its own, whose model has one of
//! these as its value. A field that is added here is one that every payload and every law has to know.
#![tactic(auto)]

mod daemon;
mod daemon_journal;
mod group;
mod group_journal;

pub use daemon::{
    AskedCopy, Contents, DaemonRecord, DaemonStep, DaemonTables, Dump, DumpInode, Entry, Inode,
};
pub use daemon_journal::{DaemonHead, DaemonPayload, DaemonRow, JournalVersion};
pub use group::{BitfileRow, GroupRecord, GroupStep, GroupTables, VolumeRow};
pub use group_journal::{GroupPayload, GroupRow};
