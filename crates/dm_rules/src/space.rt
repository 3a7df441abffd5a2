//! Room on volumes.

use dm_base::Vsn;

/// A volume that may take a piece.
#[derive(Clone, Copy, Debug, PartialEq, Eq)]
pub struct Space {
    pub vsn: Vsn,
    /// The version that its label gives, 1 or 2.
    pub version: u8,
    /// The place of its next zone.
    pub tip: u64,
    /// The length of the longest piece that this zone can hold.
    pub room: u64,
}
