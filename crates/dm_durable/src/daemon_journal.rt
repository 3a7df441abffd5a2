//! What stands in the daemon's journal: payloads, of which a log has heads and records, and a checkpoint has rows.
//!
//! Each payload is spelled in one way (docs/FORMATS.md), so what an older program spelled otherwise is a payload of its
//! own: a head and rows of version 1. A journal of version 1 has no age in its dumps, and so no record `Age` before an
//! `Upgrade`; which payloads may begin a list, and which may follow, is `specs/DaemonJournal.antt`.

use crate::daemon::{DaemonRecord, DumpInode, Entry, Inode};
use dm_base::{Bfid, DumpName, Ino, Path, Secs};

/// What a journal says of ages: in version 1 each dump has the one age that the journal was begun with.
#[derive(Clone, Copy, Debug, PartialEq, Eq)]
pub enum JournalVersion {
    First,
    Second,
}

/// The first payload of a journal: empty tables of this site, whose puts count from `first`.
#[derive(Clone, Copy, Debug, PartialEq, Eq)]
pub struct DaemonHead {
    pub time: Secs,
    pub version: JournalVersion,
    pub site: u64,
    pub first: u64,
    pub age: u64,
}

/// A row of a state that a checkpoint wrote.
#[derive(Drop)]
pub enum DaemonRow {
    /// What the tables have once. It stands first.
    State {
        time: Secs,
        change: u64,
        counter: u64,
        site: u64,
        first: u64,
        /// The age that was configured as the journal was begun.
        begun_age: u64,
        /// The age in force.
        age: u64,
    },
    /// The same of version 1, whose age in force is that which the journal was begun with.
    OldState {
        time: Secs,
        change: u64,
        counter: u64,
        site: u64,
        first: u64,
        age: u64,
    },
    /// A file, with the number of its inode.
    File {
        path: Path,
        ino: Ino,
        inode: Inode,
    },
    /// What is known of a bitfile.
    Bitfile {
        bfid: Bfid,
        entry: Entry,
    },
    /// A dump.
    Dump {
        name: DumpName,
        made: Secs,
        least: u64,
    },
    /// The same of version 1, whose `least` is the age of its state.
    OldDump {
        name: DumpName,
        made: Secs,
    },
    /// A file of a dump.
    DumpFile {
        name: DumpName,
        path: Path,
        file: DumpInode,
    },
}

/// A payload of the daemon's journal.
#[derive(Drop)]
pub enum DaemonPayload {
    /// A journal without a checkpoint begins.
    Head { head: DaemonHead },
    /// A step was done.
    Record { record: DaemonRecord },
    /// A journal of version 1 goes on as one of version 2. It changes no row; only a load writes it.
    Upgrade { time: Secs },
    /// A row of a checkpoint.
    Row { row: DaemonRow },
}
