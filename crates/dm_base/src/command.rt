//! What a user asks for.
//!
//! One variant a command of docs/COMMANDS.md, with what its words say. Names and paths are in their
//! grammar by their types. What else a command says (a number of at most 19 digits, a group of 1 to 4,
//! two different groups) is said by `dm_proto`'s definition of what an input means.
//!
//! A write or patch of more bytes than a file may have is a command of its own, which has the number
//! and no bytes. So no variant ever holds more bytes than `FILE_LIMIT`, whoever made it by reading.

use crate::contents::Bytes;
use crate::identifier::{Bfid, GroupId};
use crate::naming::{DumpName, Path};

/// A command of a session (docs/COMMANDS.md).
#[derive(Drop)]
pub enum Command {
    /// Makes the file, or replaces all its bytes.
    Write {
        path: Path,
        bytes: Bytes,
    },
    /// A write of more bytes than a file may have. They were read off and kept nowhere.
    LongWrite {
        path: Path,
        len: u64,
    },
    /// Replaces the bytes from that offset on; recalled first where they are on volumes alone.
    Patch {
        path: Path,
        offset: u64,
        bytes: Bytes,
    },
    /// A patch of more bytes than a file may have. They were read off and kept nowhere.
    LongPatch {
        path: Path,
        offset: u64,
        len: u64,
    },
    /// Answers the file's bytes, recalled first where they are on volumes alone.
    Read {
        path: Path,
    },
    /// Stores the file's bytes on volumes.
    Put {
        path: Path,
    },
    /// Stores the file's bytes on volumes, and then releases them from the disk.
    PutRelease {
        path: Path,
    },
    /// Brings the file's bytes back to the disk.
    Get {
        path: Path,
    },
    /// Frees the disk of bytes that are on volumes.
    Release {
        path: Path,
    },
    /// Removes the file.
    Remove {
        path: Path,
    },
    /// Shows all files.
    List,
    /// Shows one file.
    Attr {
        path: Path,
    },
    /// Keeps all files as they are, under a name.
    Dump {
        name: DumpName,
    },
    /// Drops a dump.
    Undump {
        name: DumpName,
    },
    /// Makes the file `target` from what the dump keeps of `path`.
    Restore {
        name: DumpName,
        path: Path,
        target: Path,
    },
    /// Takes out what was deleted long enough ago, and drops its copies.
    HardDelete,
    /// Sets the age of hard deletion, in seconds.
    Age {
        age: u64,
    },
    /// Empties the group's sparse volumes.
    Merge {
        group: GroupId,
    },
    /// Labels the group's freed volumes anew, where they have waited long enough.
    Reuse {
        group: GroupId,
    },
    /// Shows the group's volumes.
    Volumes {
        group: GroupId,
    },
    /// Releases and stores files as the configuration's bounds of space ask.
    Space,
    /// Gives the offline files under a prefix new copies in this group, and in a second, other one.
    Move {
        prefix: Prefix,
        group: GroupId,
        second: Option<GroupId>,
    },
    /// Saves the group's tables under a name.
    Snap {
        group: GroupId,
        name: DumpName,
    },
    /// Drops saved tables.
    Unsnap {
        group: GroupId,
        name: DumpName,
    },
    /// Answers a bitfile's bytes by saved tables.
    Salvage {
        group: GroupId,
        name: DumpName,
        bfid: Bfid,
    },
    /// Looks for what is wrong in the tables.
    Audit,
    /// Looks for what is wrong in the tables and on the volumes.
    AuditDeep,
    /// Ends the session.
    Quit,
    /// Ends the session and, when serving, the daemon.
    Shutdown,
}

/// Where files are to be moved from: everywhere, or a file and what lies below its name.
#[derive(Drop)]
pub enum Prefix {
    /// `/`, under which each file is.
    Root,
    /// A path: the file of that name, and those whose names begin with it and a slash.
    Under(Path),
}

impl Prefix {
    ghost use Rattle.std.specs.Prelude.{◌≡◌};
    ghost use Rattle.dm_base.specs.Prefix.{prefix_text};

    /// The text: `/`, or that of the path.
    pub fn bytes(&self) -> &[u8]
        ensures { result.now ≡ prefix_text self.now }
    {
        match self {
            Prefix::Root => b"/",
            Prefix::Under(path) => path.bytes(),
        }
    }
}
