//! Volumes, the pieces of bitfiles on them, and the tokens of work on them.
//!
//! A volume has a version, which is its format: 1, or 2, in which each chunk has the SHA-256 of its
//! bytes beside it. What is planned for a volume carries the volume's version, so that whoever writes
//! it needs no look at the tables.

ghost use Rattle.std.specs.Prelude.{◌≤◌};

use crate::contents::Listed;
use crate::identifier::{Bfid, Secs};
use crate::serial::Vsn;

/// The state of a volume.
#[derive(Clone, Copy, Debug, PartialEq, Eq)]
pub enum VolState {
    /// Nothing was written since its label.
    Empty,
    /// It has room for a byte or more.
    Filling,
    /// It has no room left.
    Full,
    /// It was freed at that time, and waits before it is used again.
    Held(Secs),
}

/// A volume in a drive. It can't be copied: it is spent by the call that unmounts the volume.
pub struct Mount {
    pub number: u64,
    pub vsn: Vsn,
    /// The epoch that the volume had as it was mounted.
    pub epoch: u64,
}

/// A part of a bitfile that is to become one zone of a volume.
#[derive(Clone, Copy, Debug, PartialEq, Eq)]
pub struct Piece {
    pub vsn: Vsn,
    /// The place of the zone on the volume.
    pub zone: u64,
    /// The place of the part in the bitfile.
    pub offset: u64,
    pub len: u64,
    /// The volume's version.
    pub version: u8,
}

/// Room on volumes, kept for a bitfile until it is committed or given up.
pub struct Reservation {
    pub number: u64,
    pub bfid: Bfid,
    /// The length of the chunks that its zones are cut into.
    pub chunk: u64,
    pub pieces: Listed<Piece>,
}

/// Bytes of a bitfile on a volume.
#[derive(Clone, Copy, Debug, PartialEq, Eq)]
pub struct Chunk {
    /// The place of the bytes in the bitfile.
    pub offset: u64,
    pub len: u64,
    pub vsn: Vsn,
    /// The place of their zone on the volume.
    pub zone: u64,
    /// The place of the first of them on the volume.
    pub place: u64,
    /// The SHA-256 of the bytes, on a volume of version 2.
    pub sum: Option<[u8; 32]>,
}

/// The move of a chunk to another volume, with both volumes mounted.
pub struct MoveJob {
    pub number: u64,
    pub bfid: Bfid,
    /// The length of the bitfile.
    pub total: u64,
    pub from: Chunk,
    pub to: Chunk,
    pub source: Mount,
    pub target: Mount,
    /// The target's version.
    pub version: u8,
}

/// The reuse of a volume, which is mounted: one that was freed, or an empty one of an older version.
pub struct ReuseJob {
    pub mount: Mount,
    pub next_epoch: u64,
    /// The version that the volume gets.
    pub version: u8,
}

/// Volumes that a merge is to empty, at most 16.
#[derive(Clone, Copy, Debug)]
pub struct SparseList {
    pub count: u8,
    pub vsns: [Vsn; 16],
    ghost few: { count ≤ 16 },
}

impl SparseList {
    ghost use Rattle.std.specs.Prelude.{◌≡◌, take};

    /// The volumes: the first `count` of the places.
    pub fn as_slice(&self) -> &[Vsn]
        ensures { result.now ≡ take self.now.count self.now.vsns }
    {
        &self.vsns[..usize::from(self.count)]
    }
}

/// What a user is told of a volume.
#[derive(Clone, Copy, Debug, PartialEq, Eq)]
pub struct VolRow {
    pub vsn: Vsn,
    pub state: VolState,
    /// The place behind all that was written or is reserved.
    pub tip: u64,
    /// The sum of the lengths of its chunks in the chunk table.
    pub live: u64,
}

/// What the library server knows of a volume.
#[derive(Clone, Copy, Debug, PartialEq, Eq)]
pub struct VolLine {
    pub vsn: Vsn,
    /// Which of the group's devices it is on, 0 to 15.
    pub slot: u8,
    pub size: u64,
    pub epoch: u64,
    pub state: VolState,
    /// The place behind the last zone that was committed.
    pub end: u64,
    pub tip: u64,
    pub live: u64,
    pub version: u8,
}

/// What an audit and saved tables need of a volume.
#[derive(Clone, Copy, Debug, PartialEq, Eq)]
pub struct VolFact {
    pub vsn: Vsn,
    pub epoch: u64,
    /// The place behind the last zone that was committed.
    pub end: u64,
    pub version: u8,
}

/// A bitfile of a group, with its chunks by offset.
#[derive(Drop)]
pub struct BitRow {
    pub bfid: Bfid,
    /// The length of the bitfile.
    pub total: u64,
    pub chunks: Listed<Chunk>,
}

/// The tables of a group: its volumes by serial number, its bitfiles by identifier.
#[derive(Drop)]
pub struct GroupRows {
    /// The group's time.
    pub time: Secs,
    /// The size of each volume.
    pub size: u64,
    pub volumes: Listed<VolFact>,
    pub files: Listed<BitRow>,
}

/// How a read goes on at an offset of a bitfile.
pub enum Next {
    /// The offset is the bitfile's length.
    End,
    /// A chunk begins there, and its volume is mounted.
    At { mount: Mount, chunk: Chunk },
}

/// How a merge goes on with a volume.
pub enum MergeNext {
    /// It has no chunk left.
    Empty,
    /// Its next chunk is to be moved.
    Move(MoveJob),
}
