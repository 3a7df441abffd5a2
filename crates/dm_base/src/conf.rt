//! What a site is configured with (docs/DEFINITIONS.md, "Configuration").

use crate::contents::Listed;
use crate::identifier::GroupId;
use crate::serial::Vsn;

/// The daemon's part.
#[derive(Clone, Copy, Debug, PartialEq, Eq)]
pub struct DaemonConf {
    /// The number of the site, the upper half of each bitfile identifier.
    pub site: u64,
    /// The first counter, the lower half, where no put was begun yet.
    pub first: u64,
    /// The age of a deleted entry, in seconds, from which on its copies are deleted, and of a dump
    /// from which on nothing is restored from it. It is read only where nothing was journalled yet.
    pub age: u64,
    /// The most bytes of all files and dumps together.
    pub cap: u64,
}

/// A volume group's part.
#[derive(Drop)]
pub struct GroupConf {
    pub group: GroupId,
    /// How many volumes may be mounted at a time.
    pub drives: u8,
    /// The length of the chunks that bitfiles are cut into.
    pub chunk: u64,
    /// The percentage of live bytes below which a volume is merged.
    pub sparse: u64,
    /// How many seconds a freed volume waits before it is used again.
    pub hold: u64,
    pub volumes: Listed<Vsn>,
    /// The size of each volume.
    pub size: u64,
    /// The version that a volume gets as it is added or used again: 1 or 2.
    pub format: u8,
}

/// What space management is bounded and led by.
#[derive(Clone, Copy, Debug, PartialEq, Eq)]
pub struct SpaceConf {
    /// Files are released where more bytes than this are on the disk.
    pub high: u64,
    /// They are released until at most so many bytes are left on the disk.
    pub low: u64,
    /// Files are stored until at most so many bytes are on the disk alone.
    pub ahead: u64,
    /// How much each change since a file's own counts for its rank.
    pub age_weight: u64,
    /// How much each byte of a file counts for its rank.
    pub size_weight: u64,
}

/// What of a configuration is refused: the first of these that is violated, in this order, where those
/// of a group stand together, the groups by their numbers.
#[derive(Clone, Copy, Debug, PartialEq, Eq)]
pub enum ConfKey {
    /// The length of the whole text.
    Length,
    /// The text is none of the grammar.
    Toml,
    Site,
    First,
    Age,
    Cap,
    Sessions,
    Copies,
    Group,
    GroupDrives { group: GroupId },
    GroupChunk { group: GroupId },
    GroupSparse { group: GroupId },
    GroupHold { group: GroupId },
    GroupVolumes { group: GroupId },
    GroupSize { group: GroupId },
    GroupFormat { group: GroupId },
    SpaceHigh,
    SpaceLow,
    SpaceAhead,
    SpaceAgeWeight,
    SpaceSizeWeight,
    /// Any other key.
    Unknown,
}
