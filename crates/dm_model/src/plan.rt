//! What a call comes to: what it spends, journals, leaves behind and makes.
//!
//! Each is said in terms of the call's own component. What it means for the state of everything else stands in
//! `specs/Effects.antt`, and the worker who made the call is not part of it.

use crate::answer::Answer;
use crate::call::Component;
use crate::state::{Moving, OpenRequest, Origin, Recall, Reserved, Reusing};
use dm_base::{Bfid, Bytes, GroupId, Listed, Vsn};
use dm_durable::{DaemonRecord, GroupRecord};

/// A token that a call spends, in every answer.
#[derive(Drop)]
pub enum Ending {
    Nothing,
    /// A put request, and the copies of its bitfile in these groups.
    Put {
        request: u64,
        bfid: Bfid,
        groups: Listed<GroupId>,
    },
    /// A recall request, which the worker began.
    Recall {
        request: u64,
    },
    /// A reservation of the bitfile.
    Reservation {
        group: GroupId,
        number: u64,
        bfid: Bfid,
    },
    /// A mount, and the reuse of its volume, if it is for one.
    Mount {
        group: GroupId,
        number: u64,
    },
    /// A move, and its two mounts.
    Move {
        group: GroupId,
        number: u64,
        source: u64,
        target: u64,
    },
}

/// A record that a call journals.
#[derive(Drop)]
pub enum Payload {
    Daemon { record: DaemonRecord },
    Group { group: GroupId, record: GroupRecord },
}

/// Tokens that an accepted call makes.
#[derive(Drop)]
pub enum Opening {
    Nothing,
    /// A put request, with a copy of this length in each of the groups.
    Put {
        number: u64,
        request: OpenRequest,
        len: u64,
        groups: Listed<GroupId>,
    },
    /// A recall request of the worker.
    Recall {
        number: u64,
        request: OpenRequest,
        recall: Recall,
    },
    Reservation {
        group: GroupId,
        number: u64,
        reserved: Reserved,
    },
    Mount {
        group: GroupId,
        number: u64,
        vsn: Vsn,
        epoch: u64,
        origin: Origin,
    },
    /// A move, with its two mounts.
    Move {
        group: GroupId,
        number: u64,
        moving: Moving,
        source_epoch: u64,
        target_epoch: u64,
    },
    /// The reuse of a volume, with its mount, at this clock reading.
    Reuse {
        group: GroupId,
        number: u64,
        epoch: u64,
        reusing: Reusing,
        reading: u64,
    },
}

/// What a call leaves of a volume, of the work on it, and of the past.
#[derive(Drop)]
pub enum Mark {
    Nothing,
    /// The zone of a piece of the bitfile, written under the epoch.
    Zone {
        group: GroupId,
        vsn: Vsn,
        place: u64,
        zone: Bytes,
        bfid: Bfid,
        index: u64,
        epoch: u64,
    },
    /// The zone of a chunk that is moved, written under the mount.
    Target {
        group: GroupId,
        vsn: Vsn,
        mount: u64,
        place: u64,
        zone: Bytes,
    },
    /// The label with this epoch and version, written under the mount.
    Label {
        group: GroupId,
        vsn: Vsn,
        mount: u64,
        epoch: u64,
        version: u8,
        text: Bytes,
    },
    /// Bytes of the bitfile, which the worker read at the offset from the group's copy.
    Read {
        group: GroupId,
        bfid: Bfid,
        offset: u64,
        bytes: Bytes,
    },
    /// The bytes of a chunk that is to be moved, read under the mount.
    Source {
        group: GroupId,
        mount: u64,
        bytes: Bytes,
    },
    /// The group was told to delete the bitfile.
    Deleted {
        group: GroupId,
        bfid: Bfid,
    },
}

/// A call that was looked at: its plan, with the tests of its refusals made. Of one that is refused stay what it spends
/// and the refusal, which is its answer.
#[derive(Drop)]
pub struct Prepared {
    pub component: Component,
    pub heals: bool,
    pub ends: Ending,
    pub payload: Option<Payload>,
    pub mark: Mark,
    pub opens: Opening,
    pub answer: Answer,
}
