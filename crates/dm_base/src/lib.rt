//! The types that every layer of dmfd speaks of, with their texts.
//!
//! A type here is plain data: identifiers, names and their grammar, commands and replies. What a
//! reply prints is the crate `dm_reply`'s, how a command is read is `dm_proto`'s.
#![tactic(auto)]

mod command;
mod conf;
mod contents;
mod error;
mod finding;
mod identifier;
mod limits;
mod memory;
mod naming;
mod reply;
mod request;
mod serial;
mod volume;

pub use command::{Command, Prefix};
pub use conf::{ConfKey, DaemonConf, GroupConf, SpaceConf};
pub use contents::{Bytes, Listed};
pub use error::{
    CopyFault, DaemonError, DumpError, EntryError, GroupError, LoadError, NamesError, NotThere,
    NotYet, PlanError, WrongState,
};
pub use finding::Finding;
pub use identifier::{BFID_DIGITS, Bfid, GroupId, Ino, Secs};
pub use limits::{
    AGE_LIMIT, CAP_LIMIT, CHUNK_LEAST, CHUNK_LIMIT, CONF_TEXT_LIMIT, DIGITS_LIMIT, DRIVES_LEAST,
    DRIVES_LIMIT, DUMPS_LIMIT, ENTRIES_LIMIT, EPOCH_LIMIT, FILE_LIMIT, FILES_LIMIT, FORMAT_LIMIT,
    GROUP_SIZE_LIMIT, GROUPS_LIMIT, JOBS_LIMIT, LINE_LIMIT, NUMBER_LIMIT, SAVES_LIMIT,
    SESSIONS_LIMIT, SPARSE_LIMIT, VOLUME_LEAST, VOLUME_LIMIT, VOLUMES_LIMIT, WEIGHT_LIMIT,
};
pub use memory::NoMemory;
pub use naming::{DUMP_NAME_LIMIT, DumpName, PATH_LIMIT, Path, TextError};
pub use reply::{FileState, Reply};
pub use request::{Dropping, FileRow, Form, Found, PutEnd, PutStart, RecallStart, Request};
pub use serial::{VSN_LENGTH, Vsn};
pub use volume::{
    BitRow, Chunk, GroupRows, MergeNext, Mount, MoveJob, Next, Piece, Reservation, ReuseJob,
    SparseList, VolFact, VolLine, VolRow, VolState,
};

#[cfg(test)]
mod tests;
