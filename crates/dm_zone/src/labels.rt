//! The label of a volume.

ghost use Rattle.std.specs.Prelude.{◌≡◌, ◌≤◌, ◌+◌, ◌++◌, drop, length, take};
ghost use Rattle.dm_rules.specs.Label.{label as label_of};
ghost use Rattle.dm_rules.specs.Version.{IsVersion};

use crate::number::eight_bytes;
use dm_base::GroupId;

/// The bytes of a volume's label, which begins the volume.
pub fn label(vsn: &[u8; 6], group: GroupId, version: u8, epoch: u64, size: u64) -> [u8; 64]
    requires { IsVersion version }
    ensures { result ≡ label_of vsn.now group.0 version epoch size }
{
    let mut label = [0; 64];
    put(&mut label, 0, b"DMVOLIM1");
    put(&mut label, 8, vsn);
    put(&mut label, 14, &[group.0, version]);
    put(&mut label, 16, &eight_bytes(epoch));
    put(&mut label, 24, &eight_bytes(size));
    label
}

// Writes the bytes at a place.
fn put(label: &mut [u8], place: usize, bytes: &[u8])
    requires { place + length bytes.now ≤ length label.old }
    ensures { label.new ≡ take place label.old ++ bytes.now ++ drop (place + length bytes.now) label.old }
{
    label[place..place + bytes.len()].copy_from_slice(bytes);
}
