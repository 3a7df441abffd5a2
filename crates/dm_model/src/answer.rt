//! What an event is answered.
//!
//! One variant a form of answer, with the fields of what the call returns; a token is there by its number. A refusal is
//! the component's own error. `Failed` stands for each error that reports a fault of a device, and want of memory is no
//! answer: a call that is refused for want of memory is no event.

use dm_base::{
    Bfid, Bytes, Chunk, DaemonError, Dropping, FileRow, GroupError, GroupId, GroupRows, Listed,
    Piece, PutEnd, VolRow, Vsn,
};

/// The answer of an event.
#[derive(Drop)]
pub enum Answer {
    PutBegun {
        request: u64,
        bfid: Bfid,
        bytes: Bytes,
        change: u64,
    },
    CopyStored,
    PutEnded {
        end: PutEnd,
    },
    Released,
    /// The bytes of the file, which are on the disk.
    Online {
        bytes: Bytes,
    },
    RecallBegun {
        request: u64,
        bfid: Bfid,
        len: u64,
        asked: Listed<GroupId>,
    },
    /// The bytes that the file then has.
    Recalled {
        bytes: Bytes,
    },
    RecallDropped,
    /// A file was written, patched, removed or restored; the number of the change.
    Changed {
        change: u64,
    },
    /// How many files the dump has.
    DumpMade {
        files: u64,
    },
    Undumped,
    AgeSet,
    /// How many entries were taken.
    HardDeleted {
        taken: u64,
    },
    NextDropping {
        dropping: Option<Dropping>,
    },
    /// Whether there was such an entry.
    Dropped {
        there: bool,
    },
    File {
        row: FileRow,
    },
    Files {
        rows: Listed<FileRow>,
    },
    DaemonRefused {
        error: DaemonError,
    },
    Missing {
        vsn: Option<Vsn>,
    },
    Mounted {
        mount: u64,
        vsn: Vsn,
        epoch: u64,
    },
    VolumeAdded,
    Reserved {
        reservation: u64,
        chunk: u64,
        pieces: Listed<Piece>,
    },
    /// The offset is the bitfile's length.
    AtEnd,
    AtChunk {
        mount: u64,
        epoch: u64,
        chunk: Chunk,
    },
    Unmounted,
    Committed,
    Aborted,
    /// Whether the group had the bitfile.
    Deleted {
        there: bool,
    },
    SparseVolumes {
        vsns: Listed<Vsn>,
    },
    /// The source has no chunk left.
    SourceEmpty,
    MoveBegun {
        job: u64,
        bfid: Bfid,
        /// The length of the bitfile.
        total: u64,
        from: Chunk,
        to: Chunk,
        /// The mount of the source, and the epoch that it has.
        source: u64,
        source_epoch: u64,
        target: u64,
        target_epoch: u64,
        /// The version of the target.
        version: u8,
    },
    Moved,
    MoveDropped,
    /// Whether the volume was freed.
    Freed {
        freed: bool,
    },
    /// No volume can be used again.
    NoneReusable,
    ReuseBegun {
        mount: u64,
        vsn: Vsn,
        epoch: u64,
        next_epoch: u64,
        version: u8,
    },
    Reused,
    Rows {
        rows: GroupRows,
    },
    Volumes {
        rows: Listed<VolRow>,
    },
    GroupRefused {
        error: GroupError,
    },
    ZoneWritten,
    ChunkRead {
        bytes: Bytes,
    },
    Labelled,
    /// A device reported a fault.
    Failed,
    Landed,
    Looked,
    Stopped,
}
