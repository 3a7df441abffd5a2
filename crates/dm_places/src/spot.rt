//! Where a chunk lies.

ghost use Rattle.std.specs.Prelude.{◌≡◌};

use dm_base::Bfid;

/// Where a chunk lies on a volume. Spots are ordered by place, then by bitfile, then by offset.
#[derive(Clone, Copy, Debug, PartialEq, Eq, PartialOrd, Ord)]
pub struct Spot {
    /// The place of the chunk's first byte on the volume.
    pub place: u64,
    pub bfid: Bfid,
    /// The place of the chunk's bytes in the bitfile.
    pub offset: u64,
}

/// A test of spots.
pub trait Test {
    ghost use Rattle.std.specs.Prelude.{Bool};
    ghost use Rattle.dm_places.specs.declared.spot.Spot.{Spot};

    ghost passes: { Self → Spot → Bool };

    /// Whether the spot passes.
    fn test(&self, spot: &Spot) -> bool
        ensures { result ≡ passes self.now spot.now };
}
