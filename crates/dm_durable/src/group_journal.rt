//! What stands in a group's journal: payloads, of which a log has heads and records, and a checkpoint has rows.
//!
//! Each payload is spelled in one way (docs/FORMATS.md). Programs that knew volumes of version 1 alone spelled four
//! kinds of records and two kinds of rows without versions and sums; these are payloads of their own, which are read
//! and never written. What they say is a step or a row of version 1 without sums: `specs/GroupJournal.antt`.

use crate::group::{BitfileRow, GroupRecord, VolumeRow};
use dm_base::{Bfid, GroupId, Secs, Vsn};

/// A row of a state that a checkpoint wrote.
#[derive(Drop)]
pub enum GroupRow {
    /// What the tables have once. It stands first.
    State { time: Secs, group: GroupId },
    /// A volume.
    Volume { vsn: Vsn, volume: VolumeRow },
    /// A bitfile.
    Bitfile { bfid: Bfid, bitfile: BitfileRow },
    /// A volume, of version 1, as it was spelled before there were versions.
    OldVolume { vsn: Vsn, volume: VolumeRow },
    /// A bitfile, whose chunks have no sum, as it was spelled before there were sums.
    OldBitfile { bfid: Bfid, bitfile: BitfileRow },
}

/// A payload of a group's journal.
#[derive(Drop)]
pub enum GroupPayload {
    /// A journal without a checkpoint begins: no volume and no bitfile.
    Head { time: Secs, group: GroupId },
    /// A step was done.
    Record { record: GroupRecord },
    /// A step was done, as it was spelled before there were versions and sums.
    OldRecord { record: GroupRecord },
    /// A row of a checkpoint.
    Row { row: GroupRow },
}
