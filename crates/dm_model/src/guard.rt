//! When an event is legal.
//!
//! Each event needs some of these guards, and is illegal where one is false; the lowest that is false is then named. The
//! numbers are those of docs/DEFINITIONS.md, "The machine, whole". 25 to 27 are kept for the events of a serving session.

/// A guard of an event.
#[derive(Clone, Copy, Debug, PartialEq, Eq)]
pub enum Guard {
    /// 1: the component is configured.
    Configured,
    /// 2: each token that it takes is open, and each number that it makes is a new one.
    Tokens,
    /// 3: a step is in doubt.
    InDoubt,
    /// 4: the asked groups are one or two, different and configured.
    AskedGroups,
    /// 5: a put, whose group is asked, has not stored and has committed the bitfile.
    CopyCommitted,
    /// 6: a put, of whose bitfile no reservation is open.
    NothingReserved,
    /// 7: a recall that its worker began, and the bytes that it read.
    RecallRead,
    /// 8: an entry that is being dropped, with every copy deleted.
    CopiesDeleted,
    /// 9: the volume is configured in the group.
    VolumeConfigured,
    /// 10: a volume that is new, and was labelled so.
    NewVolumeLabelled,
    /// 11: a put asks the group for a copy that it hasn't.
    CopyWanted,
    /// 12: the reservation has that piece.
    PieceReserved,
    /// 13: a recall that its worker began asks the group for a chunk that begins there.
    ChunkWanted,
    /// 14: every piece was written, and the sums are right.
    PiecesWritten,
    /// 15: no mount of the reservation is open.
    PiecesUnmounted,
    /// 16: a hard delete took the bitfile.
    HardDeleted,
    /// 17: the source is in the list, and the group has the volumes of the list.
    SourceListed,
    /// 18: the chunk was read and written, and the sum is right.
    ChunkMoved,
    /// 19: the group has the volume.
    VolumeKnown,
    /// 20: the volume was labelled anew, and the clock did not fall.
    VolumeRelabelled,
    /// 21: the mount isn't one of a move.
    NoMove,
    /// 22: the place and the length are those of the zone that the mount is for.
    ZonePlace,
    /// 23: the range may be read, and the bytes agree with what is known.
    RangeRead,
    /// 24: the label is the one that the mount is for.
    LabelPlanned,
    /// 28: a fault is of a call that uses a device.
    DeviceUsed,
}
