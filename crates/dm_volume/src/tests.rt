//! What no clause says: that calls succeed while nothing fails, and what a call that fails leaves. And a caller that is
//! generic in its bay.
ghost use Rattle.std.specs.Prelude.{◌≡◌, IsTrue, OnOk, length};
ghost use Rattle.dm_host.specs.Disk.{Tells};
ghost use Rattle.dm_rules.specs.Known.{Known, known_without_range, agrees_with_known, HasKnown};
ghost use Rattle.dm_volume.specs.Volume.{IsInZones, IsReadable};

use crate::Volume;
use dm_base::{GroupId, Mount, Vsn};
use dm_host::{Bay, Failed, MemBay};
use std::test::Fail;

const MOUNT: Mount = Mount {
    number: 1,
    vsn: Vsn(*b"AA0001"),
    epoch: 1,
};

// Writes a zone, which may fail, and reads a range.
fn write_and_read<B: Bay>(
    bay: &mut B,
    volume: &mut Volume,
    place: u64,
    zone: &[u8],
    start: u64,
    into: &mut [u8],
) -> Result<(), Failed>
    requires mount { MOUNT.vsn ≡ volume.old.vsn }
    requires zone { IsInZones volume.old.size place (length zone.now) }
    requires range { IsReadable volume.old.size start (length into.old) }
    ensures { Tells (B.disk bay.old) volume.old.file → (known : Known) → HasKnown known ((B.disk bay.old).seen volume.old.file)
        → OnOk result (IsTrue (agrees_with_known (known_without_range place (length zone.now) known) start into.new)) }
{
    let _ = volume.write_zone(bay, &MOUNT, place, zone);
    volume.read_chunk(bay, &MOUNT, start, into)
}

#[test]
fn a_zone_is_read_back(rt: HostRuntime) -> Result<(), Fail> {
    let mut bay = MemBay::empty(rt.alloc());
    let mut volume = Volume::of(Vsn(*b"AA0001"), GroupId(1), 16, 424);
    assert_eq!(rt; volume.vsn(), Vsn(*b"AA0001"));
    assert_eq!(rt; volume.size(), 424);
    volume.write_zone(&mut bay, &MOUNT, 420, b"last")?;
    volume.write_zone(&mut bay, &MOUNT, 64, b"first")?;
    let mut bytes = [9; 6];
    volume.read_chunk(&mut bay, &MOUNT, 418, &mut bytes)?;
    assert_eq!(rt; &bytes[2..], b"last".as_slice());
    write_and_read(&mut bay, &mut volume, 69, b"next", 64, &mut bytes)?;
    assert_eq!(rt; bytes, *b"firstn");
    assert_eq!(rt; bay.bytes(0), [].as_slice());
    Ok(())
}

#[test]
fn a_write_that_fails_spoils_its_range_alone(rt: HostRuntime) -> Result<(), Fail> {
    let alloc = rt.alloc();
    let mut bay = MemBay::empty(alloc);
    let mut volume = Volume::of(Vsn(*b"AA0001"), GroupId(1), 16, 424);
    volume.write_zone(&mut bay, &MOUNT, 64, b"first")?;
    volume.write_zone(&mut bay, &MOUNT, 69, b"second")?;
    bay.fail = [5, 8].to_vec(alloc)?;
    assert_eq!(rt;
        volume.write_zone(&mut bay, &MOUNT, 66, b"zone"),
        Err(Failed)
    );
    assert_eq!(rt; bay.faults(), 1);
    let mut bytes = [9; 11];
    volume.read_chunk(&mut bay, &MOUNT, 64, &mut bytes)?;
    // Half of the zone was written.
    assert_eq!(rt; bytes, *b"fizotsecond");
    // The seventh call writes the zone, and the eighth, which fails, is its sync.
    assert_eq!(rt;
        volume.write_zone(&mut bay, &MOUNT, 66, b"zone"),
        Err(Failed)
    );
    volume.read_chunk(&mut bay, &MOUNT, 64, &mut bytes)?;
    assert_eq!(rt; bytes, *b"fizoneecond");
    Ok(())
}

#[test]
fn a_read_fails(rt: HostRuntime) -> Result<(), Fail> {
    let alloc = rt.alloc();
    let mut bay = MemBay::empty(alloc);
    let mut volume = Volume::of(Vsn(*b"AA0001"), GroupId(1), 16, 424);
    bay.fuse = Some(0);
    let mut bytes = [9; 64];
    assert_eq!(rt;
        volume.read_chunk(&mut bay, &MOUNT, 0, &mut bytes),
        Err(Failed)
    );
    bay.fuse = None;
    volume.read_chunk(&mut bay, &MOUNT, 0, &mut bytes)?;
    assert_eq!(rt; bytes, [0; 64]);
    Ok(())
}

#[test]
fn a_label_is_written(rt: HostRuntime) -> Result<(), Fail> {
    let mut label = [0; 64];
    label[..32].copy_from_slice(&[
        0x44, 0x4d, 0x56, 0x4f, 0x4c, 0x49, 0x4d, 0x31, 0x41, 0x41, 0x30, 0x30, 0x30, 0x31, 1, 1,
        0, 0, 0, 0, 0, 0, 0, 1, 0, 0, 0, 0, 0, 0, 1, 0xa8,
    ]);
    let mut bay = MemBay::empty(rt.alloc());
    let mut volume = Volume::of(Vsn(*b"AA0001"), GroupId(1), 16, 424);
    volume.write_zone(&mut bay, &MOUNT, 64, b"zone")?;
    volume.relabel(&mut bay, &MOUNT, 1, 1)?;
    let mut bytes = [9; 64];
    volume.read_chunk(&mut bay, &MOUNT, 0, &mut bytes)?;
    assert_eq!(rt; bytes, label);
    label[15] = 2;
    label[23] = 7;
    volume.relabel(&mut bay, &MOUNT, 7, 2)?;
    volume.read_chunk(&mut bay, &MOUNT, 0, &mut bytes)?;
    assert_eq!(rt; bytes, label);
    assert_eq!(rt; &bay.bytes(16)[64..], b"zone".as_slice());
    Ok(())
}

// Of a file that rots nothing is promised but its faults: a read gives what stands there. The other file keeps what was
// written.
#[test]
fn one_file_rots_and_another_does_not(rt: HostRuntime) -> Result<(), Fail> {
    let alloc = rt.alloc();
    let mut bay = MemBay::empty(alloc);
    bay.rot = [(6, 16, 66, 0)].to_vec(alloc)?;
    let mut volume = Volume::of(Vsn(*b"AA0001"), GroupId(1), 16, 424);
    let mut beside = Volume::of(Vsn(*b"AA0001"), GroupId(1), 17, 424);
    volume.write_zone(&mut bay, &MOUNT, 64, b"first")?;
    beside.write_zone(&mut bay, &MOUNT, 64, b"first")?;
    let mut bytes = [9; 5];
    volume.read_chunk(&mut bay, &MOUNT, 64, &mut bytes)?;
    assert_eq!(rt; bytes, *b"first");
    volume.read_chunk(&mut bay, &MOUNT, 64, &mut bytes)?;
    assert_eq!(rt; bytes, *b"fi\0st");
    beside.read_chunk(&mut bay, &MOUNT, 64, &mut bytes)?;
    assert_eq!(rt; bytes, *b"first");
    assert_eq!(rt; bay.faults(), 0);
    Ok(())
}
