//! Ranges of an image, over numbers and slices: what a volume's calls promise is proved here, and the calls pass it on.

ghost use Rattle.std.specs.Prelude.{◌+◌, ◌<◌, ◌≤◌, length};
ghost use Rattle.dm_host.specs.Count.{HasCause};
ghost use Rattle.dm_volume.specs.Volume.{Reads, Replaces};

use dm_host::{Bay, Failed, write_synced};

// Writes the bytes at a place, and syncs.
pub(crate) fn replace<B: Bay>(
    bay: &mut B,
    file: u32,
    place: u64,
    bytes: &[u8],
) -> Result<(), Failed>
    requires file { file < 256 }
    requires range { place + length bytes.now ≤ 67108864 }
    ensures replaces { Replaces file place bytes.now (B.disk bay.old) (B.disk bay.new) result }
    ensures cause { HasCause (B.count bay.old) (B.count bay.new) result }
{
    write_synced(bay, file, place, bytes)
}

// Reads the bytes at a place, zeros past the end of the file.
pub(crate) fn fetch<B: Bay>(
    bay: &mut B,
    file: u32,
    place: u64,
    into: &mut [u8],
) -> Result<(), Failed>
    requires file { file < 256 }
    requires range { place + length into.old ≤ 67108864 }
    ensures reads { Reads file place (length into.old) into.new (B.disk bay.old) (B.disk bay.new) result }
    ensures cause { HasCause (B.count bay.old) (B.count bay.new) result }
{
    bay.read(file, place, into)
}
