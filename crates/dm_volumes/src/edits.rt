//! What steps do to the row of a volume.

ghost use Rattle.std.specs.Prelude.{◌≡◌, ◌+◌};
ghost use Rattle.dm_rules.specs.Numbers.{as_word};

use dm_base::{Chunk, Secs};
use dm_durable::VolumeRow;
use dm_rows::Edit;

/// The length of a label, where the first zone begins.
pub(crate) const FIRST_ZONE: u64 = 64;

// The place behind a chunk.
fn end_of(chunk: &Chunk) -> u64
    ensures { result ≡ as_word (chunk.now.place + chunk.now.len) }
{
    chunk.place.saturating_add(chunk.len)
}

// The volume is written up to behind the chunk at least.
#[derive(Drop)]
pub(crate) struct IsWritten {
    pub(crate) chunk: Chunk,
}

impl Edit<VolumeRow> for IsWritten {
    ghost use Rattle.dm_durable.specs.Group.{with_end_behind};

    ghost edited = { λ it. with_end_behind it.chunk };

    fn edit(&self, row: &mut VolumeRow) {
        row.end = row.end.max(end_of(&self.chunk));
    }
}

// The volume was freed at this time.
#[derive(Drop)]
pub(crate) struct IsFreed {
    pub(crate) time: Secs,
}

impl Edit<VolumeRow> for IsFreed {
    ghost use Rattle.dm_durable.specs.Group.{as_held};

    ghost edited = { λ it. as_held it.time.0 };

    fn edit(&self, row: &mut VolumeRow) {
        row.held = Some(self.time);
    }
}

// The volume is empty under a new label.
#[derive(Drop)]
pub(crate) struct IsLabelled {
    pub(crate) epoch: u64,
    pub(crate) version: u8,
}

impl Edit<VolumeRow> for IsLabelled {
    ghost use Rattle.dm_durable.specs.Group.{as_reused};

    ghost edited = { λ it. as_reused it.epoch it.version };

    fn edit(&self, row: &mut VolumeRow) {
        row.epoch = self.epoch;
        row.version = self.version;
        row.end = FIRST_ZONE;
        row.held = None;
    }
}
