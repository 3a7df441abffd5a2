//! What a command is answered. docs/COMMANDS.md has the texts and when each comes.
//!
//! One variant a form of answer: first what is answered where the command was done, then the
//! refusals. A number has its meaning in its field's name. What each prints is `dm_reply`'s.

use crate::contents::{Bytes, Listed};
use crate::error::CopyFault;
use crate::finding::Finding;
use crate::identifier::{Bfid, GroupId, Secs};
use crate::request::FileRow;
use crate::serial::Vsn;
use crate::volume::VolRow;

/// The state of a file.
#[derive(Clone, Copy, Debug, PartialEq, Eq)]
pub enum FileState {
    /// Its bytes are on the disk alone.
    Regular,
    /// Its bytes are on the disk, and being stored.
    Migrating,
    /// Its bytes are on the disk and on a volume.
    Dual,
    /// Its bytes are on a volume alone.
    Offline,
    /// Its bytes are on a volume, and being recalled.
    Unmigrating,
}

/// An answer to a command, or to a line that is none.
#[derive(Drop)]
pub enum Reply {
    /// Done, with nothing to tell.
    Done,
    /// Done; the number of the change.
    Changed {
        change: u64,
    },
    /// Stored; the identifier of the bitfile.
    Stored {
        bfid: Bfid,
    },
    /// The bytes of a file, or of a bitfile that was salvaged.
    Content {
        bytes: Bytes,
    },
    /// All files, by path.
    Files {
        rows: Listed<FileRow>,
    },
    /// One file.
    File {
        row: FileRow,
    },
    /// A dump was made, of so many files.
    Dumped {
        files: u64,
    },
    /// So many entries were taken out by the hard delete.
    Deleted {
        entries: u64,
    },
    /// So many chunks were moved by a merge, and so many volumes freed.
    Merged {
        moved: u64,
        freed: u64,
    },
    /// The merge waits for the worker that does it.
    Queued,
    /// So many volumes were labelled anew.
    Reused {
        volumes: u64,
    },
    /// A group's volumes, by serial number.
    Volumes {
        rows: Listed<VolRow>,
    },
    /// What is wrong, in the order of findings.
    Findings {
        rows: Listed<Finding>,
    },
    /// What space management did: files released, files stored, files skipped.
    Spaced {
        released: u64,
        stored: u64,
        skipped: u64,
    },
    /// Files that were given new copies, and their lengths together.
    Moved {
        files: u64,
        bytes: u64,
    },
    /// The group's tables were saved, with so many bitfiles.
    Saved {
        bitfiles: u64,
    },
    /// There is no file of that name.
    NoFile,
    /// The file is in a state in which the command is refused.
    WrongState {
        found: FileState,
    },
    /// The file was changed meanwhile: by which change the command began, and by which it was changed
    /// last.
    ChangedMeanwhile {
        was: u64,
        found: u64,
    },
    /// The files and dumps would have more bytes than the cap.
    Full {
        have: u64,
        need: u64,
        cap: u64,
    },
    /// There is no dump of that name.
    NoDump,
    /// The dump is too old to restore from; `age` is the least that was in force since it was made.
    Expired {
        now: Secs,
        made: Secs,
        age: u64,
    },
    /// What is to be made is there.
    Exists,
    /// There are as many as there may be, or a number is too great or used up.
    Limit {
        limit: u64,
    },
    /// The daemon's device reported a fault.
    DaemonFault,
    /// Memory was refused.
    NoMemory,
    /// The volumes have less room than the file needs, both in bytes.
    NoRoom {
        have: u64,
        need: u64,
    },
    /// A device of that group reported a fault.
    GroupFault {
        group: GroupId,
    },
    /// A chunk on that volume, at that place, is damaged.
    Damaged {
        group: GroupId,
        vsn: Vsn,
        place: u64,
    },
    /// No copy could be read; why, for each copy, in the order in which they were asked for.
    AllCopies {
        copies: [Option<CopyFault>; 2],
    },
    /// That group isn't configured.
    NoGroup,
    /// The queue of merges is full.
    QueueFull,
    /// There are no saved tables of that name.
    NoSave,
    /// The saved tables don't have that bitfile.
    NoBitfile,
    /// That volume was written anew since its table was saved: its epoch then, and now.
    Rewritten {
        vsn: Vsn,
        was: u64,
        found: u64,
    },
    /// The line is no command.
    Syntax,
}
