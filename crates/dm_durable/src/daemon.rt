//! The daemon's durable tables, and the records that change them (docs/DEFINITIONS.md, "Durable tables").
//!
//! Names lead to inode numbers and not to inodes: a path never moves, but a request and a record of a put know an
//! inode by its number alone.

use dm_base::{Bfid, Bytes, DumpName, GroupId, Ino, Listed, Path, Secs};
use dm_tables::{Numbers, Texts};

/// What a file holds.
#[derive(Drop)]
pub enum Contents {
    /// Bytes alone.
    Regular { bytes: Bytes },
    /// Bytes, and the bitfile of a put of them that has not ended.
    Making { bytes: Bytes, bfid: Bfid },
    /// Bytes, and a bitfile of the same bytes.
    Dual { bytes: Bytes, bfid: Bfid },
    /// The length alone, and a bitfile.
    Offline { len: u64, bfid: Bfid },
}

/// A file. Its number is that of the change that made it.
#[derive(Drop)]
pub struct Inode {
    /// The number of its last change.
    pub change: u64,
    pub contents: Contents,
}

/// A group that was asked for a copy of a bitfile.
#[derive(Clone, Copy, Debug, PartialEq, Eq)]
pub struct AskedCopy {
    pub group: GroupId,
    /// Whether the group has stored it.
    pub stored: bool,
}

/// What the daemon knows of a bitfile.
#[derive(Drop)]
pub struct Entry {
    pub len: u64,
    /// The groups that were asked, in the order in which the copies are tried.
    pub copies: Listed<AskedCopy>,
    /// The deletion time: when the last inode that named the bitfile let it go.
    pub gone: Option<Secs>,
    /// Whether its copies are being deleted.
    pub dropping: bool,
}

/// A file of a dump.
#[derive(Drop)]
pub enum DumpInode {
    /// The bytes themselves, of a file that had them on the disk alone.
    Kept { bytes: Bytes },
    /// A bitfile of them. A dump's inode doesn't keep the bitfile's entry from its deletion time.
    Named { len: u64, bfid: Bfid },
}

/// All files as they were at a time.
#[derive(Drop)]
pub struct Dump {
    pub made: Secs,
    /// The least age that was in force since it was made. Nothing is restored from a dump of that age.
    pub least: u64,
    pub files: Texts<DumpInode>,
}

/// The daemon's durable tables.
#[derive(Drop)]
pub struct DaemonTables {
    /// The number of the site, the upper half of each bitfile identifier.
    pub site: u64,
    /// The counter of the site's first put.
    pub first: u64,
    /// The age that was configured as the journal was begun. Nothing but the rows of a state looks at it.
    pub begun_age: u64,
    pub time: Secs,
    /// The number of the last change.
    pub change: u64,
    /// The counter of the next put, the lower half of its bitfile identifier.
    pub counter: u64,
    /// The age in force: of a deletion time, from which on an entry may be taken, and the `least` of a new dump.
    pub age: u64,
    /// The numbers of the inodes by path.
    pub names: Texts<Ino>,
    /// The inodes by number.
    pub inodes: Numbers<Inode>,
    /// The entries by bitfile identifier.
    pub entries: Numbers<Entry>,
    /// The dumps by name.
    pub dumps: Texts<Dump>,
}

/// A step of the daemon's tables. What each does and when it may be done: docs/DEFINITIONS.md, "The daemon's records".
#[derive(Drop)]
pub enum DaemonStep {
    /// The file is regular with these bytes, whether it was there or not.
    Write {
        path: Path,
        change: u64,
        bytes: Bytes,
    },
    /// The file is gone.
    Remove {
        path: Path,
        change: u64,
    },
    /// A put of the file begins: a new entry that asks these groups.
    BeginPut {
        path: Path,
        bfid: Bfid,
        groups: Listed<GroupId>,
    },
    /// The group has stored its copy.
    Stored {
        bfid: Bfid,
        group: GroupId,
    },
    /// The put of the inode ends: with every copy stored, or not.
    EndPut {
        ino: Ino,
        bfid: Bfid,
        dual: bool,
    },
    /// The bytes of the file leave the disk.
    Release {
        path: Path,
    },
    /// The bytes of the inode were recalled.
    Taken {
        ino: Ino,
        bytes: Bytes,
    },
    /// All files as they are now are kept under the name.
    Dump {
        name: DumpName,
    },
    /// The dump is gone.
    Undump {
        name: DumpName,
    },
    /// A file of the dump is a new file of the target path.
    Restore {
        name: DumpName,
        path: Path,
        target: Path,
        change: u64,
    },
    /// The copies of these bitfiles, by ascending identifier, are being deleted from now on.
    HardDelete {
        bfids: Listed<Bfid>,
    },
    /// The copies of the bitfile are deleted: its entry is gone.
    Dropped {
        bfid: Bfid,
    },
    /// The program begins anew: each put that has not ended is over, with no copy that counts.
    Restart,
    /// The age in force is this.
    Age {
        age: u64,
    },
}

/// A step with the daemon's time after it, as it is journalled.
#[derive(Drop)]
pub struct DaemonRecord {
    pub time: Secs,
    pub step: DaemonStep,
}
