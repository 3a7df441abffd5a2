//! What an audit finds wrong. docs/DEFINITIONS.md, "Findings", says exactly where each comes.
//!
//! The variants stand in the order in which findings are shown, and so do their fields: findings come
//! by kind, then by their fields in ascending order, paths and names by their bytes. So the derived
//! order is the order in which an audit answers, and neither may be moved.

use crate::identifier::{Bfid, GroupId};
use crate::naming::{DumpName, Path};
use crate::serial::Vsn;

/// A finding of an audit.
#[derive(Drop, PartialEq, Eq, PartialOrd, Ord)]
pub enum Finding {
    /// The group should have a copy, and its chunk table doesn't have the bitfile.
    NoCopy {
        group: GroupId,
        bfid: Bfid,
    },
    /// The group's chunk table has a bitfile of which the daemon has no entry.
    Stray {
        group: GroupId,
        bfid: Bfid,
    },
    /// The bitfile's chunks join from 0 to `have` alone, and its length is `need`.
    Short {
        group: GroupId,
        bfid: Bfid,
        have: u64,
        need: u64,
    },
    /// Two live chunks share a byte; `place` is the lesser of their places.
    Overlap {
        group: GroupId,
        vsn: Vsn,
        place: u64,
        other: u64,
    },
    /// A live chunk ends past the volume's tip, or the volume is empty or held.
    Beyond {
        group: GroupId,
        vsn: Vsn,
        place: u64,
        tip: u64,
    },
    /// The sum of live lengths that is kept for the volume isn't that of its live chunks.
    LiveSum {
        group: GroupId,
        vsn: Vsn,
        kept: u64,
        sum: u64,
    },
    /// The file needs a bitfile of which there is no complete entry.
    NoEntry {
        path: Path,
        bfid: Bfid,
    },
    /// The file's bitfile has an entry that was deleted.
    Gone {
        path: Path,
        bfid: Bfid,
    },
    /// A young dump needs a bitfile that it may lose or has lost.
    Lost {
        name: DumpName,
        bfid: Bfid,
    },
    /// The volume's label isn't that of its row.
    BadLabel {
        group: GroupId,
        vsn: Vsn,
    },
    /// The chunk isn't on the volume at its place, or has other bytes than were stored.
    BadChunk {
        group: GroupId,
        vsn: Vsn,
        place: u64,
    },
}
