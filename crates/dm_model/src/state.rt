//! What each part of the product keeps while the program runs: the state of each name that an event may be about, of all
//! of them together, and what the laws know of the past.
//!
//! The tables of the daemon and of a group are durable (`dm_durable`); all else here is lost as the program stops. What a
//! component itself keeps is `Daemon` and `Group`: no more may be asked of it. What nothing but the laws looks at, or
//! what only the guards know of the past, is `History`: no component keeps it.
//!
//! The number of a token rises with each that a component makes and never comes again while the program runs. `next_..` is
//! the least that wasn't used; it has 128 bits, since it is one above the greatest number of 64 bits at the very end.

use dm_base::{Bfid, Bytes, Chunk, GroupConf, GroupId, Ino, Listed, Piece, Secs, Vsn};
use dm_durable::{DaemonRecord, DaemonTables, GroupRecord, GroupTables};
use dm_tables::{Numbers, Texts};

/// What a request is for.
#[derive(Clone, Copy, Debug, PartialEq, Eq)]
pub enum RequestKind {
    Put,
    Recall,
}

/// An open request.
#[derive(Clone, Copy, Debug, PartialEq, Eq)]
pub struct OpenRequest {
    pub ino: Ino,
    pub bfid: Bfid,
    /// The change that the inode had as the request began.
    pub was: u64,
    /// The last change of the inode since then.
    pub found: Option<u64>,
    pub kind: RequestKind,
}

/// The daemon.
#[derive(Drop)]
pub struct Daemon {
    /// The most bytes of all files and dumps together.
    pub cap: u64,
    pub tables: DaemonTables,
    /// The open requests by number.
    pub requests: Numbers<OpenRequest>,
    pub next_request: u128,
    /// The step of which it isn't known whether it is in the journal.
    pub doubt: Option<DaemonRecord>,
}

/// Room that a group keeps for a bitfile.
#[derive(Drop)]
pub struct Reserved {
    pub bfid: Bfid,
    pub len: u64,
    /// The length of the chunks.
    pub chunk: u64,
    pub pieces: Listed<Piece>,
}

/// A volume in a drive.
#[derive(Clone, Copy, Debug, PartialEq, Eq)]
pub struct Mounted {
    pub vsn: Vsn,
    pub epoch: u64,
}

/// The move of a chunk to another volume.
#[derive(Clone, Copy, Debug, PartialEq, Eq)]
pub struct Moving {
    pub bfid: Bfid,
    /// The length of the bitfile.
    pub total: u64,
    pub from: Chunk,
    /// Where the chunk is to stand, without a sum.
    pub to: Chunk,
    /// The version of the volume of `to`.
    pub version: u8,
    /// The mounts of the two volumes.
    pub source: u64,
    pub target: u64,
}

/// The reuse of a volume.
#[derive(Clone, Copy, Debug, PartialEq, Eq)]
pub struct Reusing {
    pub vsn: Vsn,
    pub next_epoch: u64,
    /// The version that the volume gets.
    pub version: u8,
}

/// A group's library server.
#[derive(Drop)]
pub struct Group {
    pub conf: GroupConf,
    pub tables: GroupTables,
    /// The place of the next zone of each volume, where it isn't the volume's end.
    pub tips: Texts<u64>,
    pub reservations: Numbers<Reserved>,
    pub next_reservation: u128,
    pub mounts: Numbers<Mounted>,
    pub next_mount: u128,
    pub moves: Numbers<Moving>,
    pub next_move: u128,
    /// By the number of the mount.
    pub reuses: Numbers<Reusing>,
    pub doubt: Option<GroupRecord>,
}

/// A volume.
#[derive(Drop)]
pub struct Image {
    pub size: u64,
    /// The bytes that are known, by place. At each other place may stand any byte.
    pub known: Numbers<u8>,
}

/// A zone that was written.
#[derive(Drop)]
pub struct WrittenZone {
    /// The epoch of the mount under which it was written.
    pub epoch: u64,
    pub zone: Bytes,
}

/// The reservation of a copy that is being stored.
#[derive(Drop)]
pub struct CopyReservation {
    pub number: u64,
    /// The open mounts of its pieces: which piece each is for.
    pub mounts: Numbers<u64>,
    /// By piece, the zone that its last write wrote, where that did not fail.
    pub written: Numbers<WrittenZone>,
}

/// A copy of a bitfile in a group, while its put is open.
#[derive(Drop)]
pub struct CopyState {
    /// The number of the put's request.
    pub request: u64,
    /// The length of the bitfile.
    pub len: u64,
    pub reservation: Option<CopyReservation>,
}

/// What made a mount.
#[derive(Clone, Copy, Debug, PartialEq, Eq)]
pub enum Origin {
    /// A mount of any configured volume: whether the group's tables had it, and the version that a volume gets that is
    /// labelled for the first time.
    New {
        listed: bool,
        format: u8,
    },
    /// The mount of a piece of a reservation, to write its zone with chunks of `chunk` bytes.
    Piece {
        bfid: Bfid,
        index: u64,
        piece: Piece,
        chunk: u64,
    },
    /// The mount of a chunk of a bitfile, to read it.
    Chunk {
        bfid: Bfid,
        chunk: Chunk,
    },
    /// The mount of a chunk that is to be moved, to read it.
    Source {
        job: u64,
        bfid: Bfid,
        chunk: Chunk,
    },
    /// The mount of the volume that it is to be moved to, to write it as a zone of its own.
    Target {
        job: u64,
        bfid: Bfid,
        /// The length of the bitfile.
        total: u64,
        chunk: Chunk,
        /// The version of the volume.
        version: u8,
    },
    /// The mount of a volume that is to be used anew, to label it with this epoch and version.
    Reuse {
        next_epoch: u64,
        version: u8,
        /// The clock reading of the call that made it.
        reading: Secs,
    },
}

/// What a label says of how often its volume was used, and of its format.
#[derive(Clone, Copy, Debug, PartialEq, Eq)]
pub struct Label {
    pub epoch: u64,
    pub version: u8,
}

/// An open mount.
#[derive(Drop)]
pub struct MountState {
    pub vsn: Vsn,
    pub epoch: u64,
    pub origin: Origin,
    /// Whether a read gives what is known: where the volume has version 1, or has version 2 and its file is faithful.
    pub bound: bool,
    /// What the last relabel under it wrote, where that did not fail.
    pub labelled: Option<Label>,
    /// Under the source of a move, the bytes that the last read of the chunk gave which counts: with the chunk's sum,
    /// where it has one.
    pub read: Option<Bytes>,
    /// Under the target of a move, the zone that the last write wrote, where that did not fail.
    pub written: Option<Bytes>,
}

/// A recall that a worker began.
#[derive(Drop)]
pub struct Recall {
    pub bfid: Bfid,
    pub len: u64,
    pub asked: Listed<GroupId>,
    /// By group and offset, the bytes that the worker's last read of the chunk there gave which counts: with the chunk's
    /// sum, where it has one.
    pub reads: Numbers<Numbers<Bytes>>,
}

/// A worker.
#[derive(Drop)]
pub struct Worker {
    /// The open recalls by request.
    pub recalls: Numbers<Recall>,
}

/// A group and all that happens on its volumes.
#[derive(Drop)]
pub struct Side {
    pub group: Group,
    /// The volumes that are configured.
    pub images: Texts<Image>,
    /// The slots whose files are faithful: each keeps the crash model while the program runs, and held each known byte as
    /// the program began. No event changes it.
    pub faithful: Listed<u8>,
    /// By bitfile, the copies that are being stored.
    pub copies: Numbers<CopyState>,
    pub mounts: Numbers<MountState>,
}

/// What a group has done, which stays true whatever it does next.
#[derive(Drop)]
pub struct GroupHistory {
    /// The bitfiles that it ever had.
    pub committed: Numbers<()>,
    /// The bitfiles that it was told to delete since a hard delete took them.
    pub deleted: Numbers<()>,
}

/// What was done, which stays true whatever is done next. Guards and laws look at it, and no component keeps it.
#[derive(Drop)]
pub struct History {
    /// The bytes of each bitfile: those of the file as its put began. They never change.
    pub contents: Numbers<Bytes>,
    /// The bitfiles that a hard delete took.
    pub taken: Numbers<()>,
    /// What each group has done, by its number.
    pub groups: Numbers<GroupHistory>,
}

/// The state of all names, and the history.
#[derive(Drop)]
pub struct Joint {
    pub daemon: Daemon,
    /// The groups by number.
    pub sides: Numbers<Side>,
    pub workers: Numbers<Worker>,
    pub history: History,
}
