//! The durable tables of a volume group, and the records that change them (docs/DEFINITIONS.md, "Durable tables").
//!
//! A volume's version decides the length of a chunk's header on it and whether its chunks have a sum. It changes only
//! together with the epoch, while no chunk is on the volume.

use dm_base::{Bfid, Chunk, GroupId, Listed, Secs, Vsn};
use dm_tables::{Numbers, Texts};

/// What a group knows of a volume.
#[derive(Clone, Copy, Debug, PartialEq, Eq)]
pub struct VolumeRow {
    /// Which of the group's devices it is on, 0 to 15.
    pub slot: u8,
    /// Its format, 1 or 2.
    pub version: u8,
    pub size: u64,
    /// It rises by one each time the volume is used anew.
    pub epoch: u64,
    /// The place behind the last zone that was committed.
    pub end: u64,
    /// When the volume was freed, if it waits to be used anew.
    pub held: Option<Secs>,
}

/// Where the bytes of a bitfile are.
#[derive(Drop)]
pub struct BitfileRow {
    pub len: u64,
    /// By ascending offset.
    pub chunks: Listed<Chunk>,
}

/// The durable tables of a group.
#[derive(Drop)]
pub struct GroupTables {
    pub group: GroupId,
    pub time: Secs,
    /// The volumes by serial number.
    pub volumes: Texts<VolumeRow>,
    /// The bitfiles by identifier.
    pub bitfiles: Numbers<BitfileRow>,
}

/// A step of a group's tables. What each does and when it may be done: docs/DEFINITIONS.md, "A group's records".
#[derive(Drop)]
pub enum GroupStep {
    /// A new volume, labelled with epoch 1.
    Volume {
        vsn: Vsn,
        slot: u8,
        version: u8,
        size: u64,
    },
    /// The bitfile stands on the volumes in these chunks, by ascending offset.
    Commit {
        bfid: Bfid,
        len: u64,
        chunks: Listed<Chunk>,
    },
    /// The bitfile is gone.
    Delete {
        bfid: Bfid,
    },
    /// A chunk of the bitfile stands elsewhere.
    Move {
        bfid: Bfid,
        from: Chunk,
        to: Chunk,
    },
    /// The volume waits to be used anew.
    Free {
        vsn: Vsn,
    },
    /// The volume is empty, labelled with this epoch.
    Reuse {
        vsn: Vsn,
        epoch: u64,
        version: u8,
    },
}

/// A step with the group's time after it, as it is journalled.
#[derive(Drop)]
pub struct GroupRecord {
    pub time: Secs,
    pub step: GroupStep,
}
