//! What may happen.
//!
//! One variant a call of a component, with the arguments of that call in the order in which it takes them. What a caller
//! can't know before the call is added, so that an event says all that is free in it: the number of each token that the
//! call makes, and the bytes that a read gave. `now` is always the clock reading of the command that the call is a step
//! of, and never a maximum with anything. Where a call is refused, the numbers that it would have made mean nothing.

use dm_base::{Bfid, Bytes, DumpName, GroupId, Listed, Path, Secs, Vsn};

/// A call of the daemon. A number in `request` of `BeginPut` and `BeginRecall` is that of the request which the call
/// opens, if it opens one; elsewhere it is that of an open request.
#[derive(Drop)]
pub enum DaemonCall {
    BeginPut {
        path: Path,
        asked: [Option<GroupId>; 2],
        now: Secs,
        request: u64,
    },
    CopyStored {
        request: u64,
        group: GroupId,
        now: Secs,
    },
    EndPut {
        request: u64,
        now: Secs,
    },
    Release {
        path: Path,
        now: Secs,
    },
    BeginRecall {
        path: Path,
        request: u64,
    },
    EndRecall {
        request: u64,
        bytes: Bytes,
        now: Secs,
    },
    DropRecall {
        request: u64,
    },
    Write {
        path: Path,
        bytes: Bytes,
        now: Secs,
    },
    Patch {
        path: Path,
        offset: u64,
        bytes: Bytes,
        now: Secs,
    },
    Remove {
        path: Path,
        now: Secs,
    },
    MakeDump {
        name: DumpName,
        now: Secs,
    },
    Undump {
        name: DumpName,
        now: Secs,
    },
    Restore {
        name: DumpName,
        path: Path,
        target: Path,
        now: Secs,
    },
    SetAge {
        age: u64,
        now: Secs,
    },
    HardDelete {
        now: Secs,
    },
    NextDropping {
        after: Option<Bfid>,
    },
    Dropped {
        bfid: Bfid,
        now: Secs,
    },
    Attributes {
        path: Path,
    },
    List,
}

/// A call of a group's library server. A number in `mount`, `source` or `target` of a mounting call, in `reservation` of
/// `Reserve` and in `job` of `MergeNext` is that of what the call makes, if it makes it; elsewhere it is that of an open
/// token. A volume's reuse is known by the number of its mount.
#[derive(Drop)]
pub enum GroupCall {
    Missing,
    MountNew {
        vsn: Vsn,
        mount: u64,
    },
    AddVolume {
        mount: u64,
        now: Secs,
    },
    Reserve {
        bfid: Bfid,
        len: u64,
        reservation: u64,
    },
    MountPiece {
        reservation: u64,
        piece: u64,
        mount: u64,
    },
    MountChunk {
        bfid: Bfid,
        offset: u64,
        mount: u64,
    },
    Unmount {
        mount: u64,
    },
    /// `sums` are the SHA-256 of the chunks that stand on volumes of version 2, by offset.
    Commit {
        reservation: u64,
        sums: Listed<[u8; 32]>,
        now: Secs,
    },
    Abort {
        reservation: u64,
    },
    Delete {
        bfid: Bfid,
        now: Secs,
    },
    MergeList,
    /// `list` are the volumes that this merge empties, among them the source.
    MergeNext {
        list: Listed<Vsn>,
        source: Vsn,
        job: u64,
        from: u64,
        to: u64,
    },
    /// `sum` is the SHA-256 of the bytes, where the target has version 2.
    MoveDone {
        job: u64,
        sum: Option<[u8; 32]>,
        now: Secs,
    },
    DropMove {
        job: u64,
    },
    Free {
        vsn: Vsn,
        now: Secs,
    },
    ReuseNext {
        mount: u64,
        now: Secs,
    },
    Reuse {
        mount: u64,
        now: Secs,
    },
    Rows,
    Volumes,
}

/// A call on a volume that is mounted.
#[derive(Drop)]
pub enum VolumeCall {
    WriteZone {
        mount: u64,
        place: u64,
        zone: Bytes,
    },
    /// `bytes` are those that it gave; they mean nothing where it failed.
    ReadChunk {
        mount: u64,
        place: u64,
        len: u64,
        bytes: Bytes,
    },
    Relabel {
        mount: u64,
        epoch: u64,
        version: u8,
    },
}

/// A call of a component.
#[derive(Drop)]
pub enum Call {
    Daemon {
        call: DaemonCall,
    },
    Group {
        group: GroupId,
        call: GroupCall,
    },
    Volume {
        group: GroupId,
        vsn: Vsn,
        call: VolumeCall,
    },
}

/// A component with a journal.
#[derive(Clone, Copy, Debug, PartialEq, Eq)]
pub enum Component {
    Daemon,
    Group { group: GroupId },
}

/// What happens at one moment. What a serving session hears, says and puts into the queue of jobs will be further
/// variants: events of a worker alone, which look at no other state and change none.
#[derive(Drop)]
pub enum Event {
    Call {
        call: Call,
    },
    /// The call failed: a device reported a fault in it. Whether it had settled the step in doubt before, and had
    /// done the checkpoint that was due.
    Fault {
        call: Call,
        healed: bool,
        checkpointed: bool,
    },
    /// The step in doubt was found to have landed.
    Landed {
        component: Component,
    },
    /// The component's state was copied, to be audited.
    Look {
        component: Component,
    },
    /// The program ended.
    Stop,
}
