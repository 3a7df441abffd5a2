//! Requests of the daemon, and what it answers of files.

use crate::contents::Bytes;
use crate::identifier::{Bfid, GroupId};
use crate::naming::Path;
use crate::reply::FileState;

/// An open put or recall. It can't be copied: it is spent by the call that ends it.
pub struct Request {
    pub number: u64,
}

/// A put that has begun.
pub struct PutStart {
    pub request: Request,
    /// The new bitfile.
    pub bfid: Bfid,
    /// The file's bytes, which are the bitfile's.
    pub bytes: Bytes,
    /// The file's last change.
    pub change: u64,
}

/// How a put ended.
#[derive(Clone, Copy, Debug, PartialEq, Eq)]
pub enum PutEnd {
    /// Every copy was stored: the file has its bytes on the disk and on volumes.
    Dual,
    /// Some copy was not: the file has its bytes on the disk alone.
    Regular,
}

/// What a read finds.
pub enum Found {
    /// The bytes, which are on the disk.
    Online(Bytes),
    /// The file is to be recalled.
    Offline(RecallStart),
}

/// A recall that has begun.
pub struct RecallStart {
    pub request: Request,
    pub bfid: Bfid,
    /// The length of the bitfile.
    pub len: u64,
    /// The groups that have a copy, in the order in which they are tried.
    pub asked: [Option<GroupId>; 2],
}

/// An entry whose copies are to be deleted.
#[derive(Clone, Copy, Debug, PartialEq, Eq)]
pub struct Dropping {
    pub bfid: Bfid,
    pub asked: [Option<GroupId>; 2],
}

/// What an inode holds, as it is kept on the disk.
#[derive(Clone, Copy, Debug, PartialEq, Eq)]
pub enum Form {
    /// The bytes alone.
    Regular,
    /// The bytes, and the bitfile of a put that has not ended.
    Making,
    /// The bytes, and a bitfile with the same bytes.
    Dual,
    /// The length alone, and a bitfile.
    Offline,
}

/// What a user is told of a file.
#[derive(Drop)]
pub struct FileRow {
    pub path: Path,
    pub state: FileState,
    pub len: u64,
    /// The number of its last change.
    pub change: u64,
    pub bfid: Option<Bfid>,
}
