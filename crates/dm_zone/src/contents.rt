//! What a zone that was read holds.

use dm_base::{Bfid, Listed};

/// A zone that was read.
#[derive(Drop)]
pub struct Zone {
    /// The epoch of the volume when the zone was written.
    pub epoch: u64,
    /// Its chunks, one or more, in the order of their places.
    pub chunks: Listed<ZoneChunk>,
}

/// A chunk of a zone: bytes of one bitfile.
#[derive(Clone, Copy, Debug, PartialEq, Eq)]
pub struct ZoneChunk {
    /// Whose bytes they are.
    pub bfid: Bfid,
    /// The length of the whole bitfile.
    pub total: u64,
    /// The place of the first byte in the bitfile.
    pub offset: u64,
    /// The place of the first byte in the zone, behind the chunk's header.
    pub at: u64,
    /// How many bytes there are, one or more.
    pub len: u64,
    /// The sum of the bytes, on a volume of the second version. It was compared with them.
    pub sum: Option<[u8; 32]>,
}
