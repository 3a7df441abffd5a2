//! Why a call is refused.

use crate::conf::ConfKey;
use crate::identifier::{GroupId, Secs};
use crate::reply::FileState;
use crate::request::Form;
use crate::serial::Vsn;
use crate::volume::Chunk;

/// Why a component's tables were not loaded.
#[derive(Clone, Copy, Debug, PartialEq, Eq)]
pub enum LoadError {
    /// The device reported a fault in this call.
    Failed,
    /// What stands at that place of that file was never written by this program.
    Damaged { file: u32, place: u64 },
    /// The tables don't fit the configuration.
    Conf { key: ConfKey },
    /// Memory was refused.
    NoMemory,
}

/// The inode is in a form in which the step is refused.
#[derive(Clone, Copy, Debug, PartialEq, Eq)]
pub struct WrongState {
    pub found: Form,
}

/// Why a name was not inserted.
#[derive(Clone, Copy, Debug, PartialEq, Eq)]
pub enum NamesError {
    TooMany { limit: u64 },
    NoMemory,
}

/// Why a step on dumps was refused.
#[derive(Clone, Copy, Debug, PartialEq, Eq)]
pub enum DumpError {
    /// There is a dump of that name.
    Exists,
    /// There is no dump of that name.
    NoDump,
    /// The dump has no file of that path.
    NoFile,
    TooMany { limit: u64 },
    NoMemory,
}

/// Why an entry was not made.
#[derive(Clone, Copy, Debug, PartialEq, Eq)]
pub enum EntryError {
    TooMany { limit: u64 },
    NoMemory,
}

/// Why no room was planned.
#[derive(Clone, Copy, Debug, PartialEq, Eq)]
pub enum PlanError {
    /// The volumes have less room than is needed, both in bytes.
    NoRoom { have: u64, need: u64 },
    NoMemory,
}

/// A volume can't be mounted now.
#[derive(Clone, Copy, Debug, PartialEq, Eq)]
pub struct NotYet {
    /// Whether the volume is mounted already.
    pub mounted: bool,
    /// How many drives are free.
    pub free: u8,
}

/// The chunk table doesn't have the chunk that was to be moved.
#[derive(Clone, Copy, Debug, PartialEq, Eq)]
pub struct NotThere {
    /// What it has at that offset.
    pub found: Option<Chunk>,
}

/// Why the daemon refused a call. After each but `DaemonFault` its tables are those before the call.
#[derive(Clone, Copy, Debug, PartialEq, Eq)]
pub enum DaemonError {
    /// There is no file of that path.
    NoFile,
    /// The file is in a state in which the call is refused.
    WrongState { found: FileState },
    /// The file was changed or removed since the request began: by which change it had begun, and
    /// by which it was changed last.
    Changed { was: u64, found: u64 },
    /// The files and dumps would have more bytes than the cap.
    Full { have: u64, need: u64, cap: u64 },
    /// There is no dump of that name.
    NoDump,
    /// The dump is too old to restore from; `age` is the least that was in force since it was made.
    Expired { now: Secs, made: Secs, age: u64 },
    /// What is to be made is there.
    Exists,
    /// There are as many as there may be, or the number is used up.
    TooMany { limit: u64 },
    /// The daemon's device reported a fault in this call. Whether the step was done is settled by the
    /// next call.
    DaemonFault,
    /// Memory was refused.
    NoMemory,
}

/// Why a library server refused a call. After each but `GroupFault` its tables are those before the
/// call.
#[derive(Clone, Copy, Debug, PartialEq, Eq)]
pub enum GroupError {
    /// The volumes have less room than is needed, both in bytes.
    NoRoom { have: u64, need: u64 },
    /// The volume is mounted already, or no drive is free.
    NotYet { mounted: bool, free: u8 },
    /// A device of the group reported a fault in this call.
    GroupFault,
    /// The chunk was moved or deleted meanwhile; what is there now.
    Moved { found: Option<Chunk> },
    /// Memory was refused.
    NoMemory,
}

/// Why a copy could not be read: its devices reported `faults` faults in this call, or a chunk of it,
/// on that volume at that place, was seen to have other bytes than were stored.
#[derive(Clone, Copy, Debug, PartialEq, Eq)]
pub struct CopyFault {
    pub group: GroupId,
    pub faults: u64,
    pub damaged: Option<(Vsn, u64)>,
}
