use super::*;
use dm_base::{Chunk, NoMemory, Secs, Vsn};
use dm_durable::VolumeRow;
use std::alloc::Global;
use std::test::Fail;

fn keep(volumes: &mut Volumes, alloc: Global, vsn: Vsn, row: VolumeRow) -> Result<(), NoMemory> {
    let row = Box::new(alloc, (vsn, row))?;
    volumes.reserve(1)?;
    volumes.add(row);
    Ok(())
}

// Volumes on the devices 0, 2 and 1, in this order.
fn three(alloc: Global) -> Result<Volumes, NoMemory> {
    let mut volumes = Volumes::empty(alloc);
    keep(&mut volumes, alloc, Vsn(*b"VOL003"), new_volume(0, 2, 4096))?;
    keep(&mut volumes, alloc, Vsn(*b"VOL001"), new_volume(2, 1, 4096))?;
    keep(&mut volumes, alloc, Vsn(*b"VOL002"), new_volume(1, 2, 4096))?;
    Ok(volumes)
}

fn chunk_at(vsn: Vsn, place: u64, len: u64) -> Chunk {
    Chunk {
        offset: 0,
        len,
        vsn,
        zone: 64,
        place,
        sum: None,
    }
}

#[test]
fn volumes_lie_by_serial_number_and_take_the_least_device(rt: HostRuntime) -> Result<(), Fail> {
    let alloc = rt.alloc();
    let mut volumes = Volumes::empty(alloc);
    assert_eq!(rt; volumes.free_slot(), 0);
    let kept = keep(&mut volumes, alloc, Vsn(*b"VOL009"), new_volume(1, 2, 4096));
    assert!(rt; kept.is_ok());
    assert_eq!(rt; volumes.free_slot(), 0);
    let volumes = three(alloc)?;
    assert_eq!(rt; volumes.free_slot(), 3);
    let first = volumes
        .entry(0)
        .is_some_and(|e| *e.0 == Vsn(*b"VOL001") && e.1.slot == 2);
    assert!(rt; first);
    assert_eq!(rt; volumes.len(), 3);
    Ok(())
}

#[test]
fn a_volume_is_written_freed_and_used_anew(rt: HostRuntime) -> Result<(), Fail> {
    let alloc = rt.alloc();
    let vsn = Vsn(*b"VOL001");
    let mut volumes = three(alloc)?;
    let new = volumes
        .get(vsn)
        .is_some_and(|v| v.epoch == 1 && v.end == 64 && v.held.is_none());
    assert!(rt; new);
    volumes.raise_ends(&[chunk_at(vsn, 144, 100), chunk_at(vsn, 100, 20)]);
    assert!(rt; volumes.get(vsn).is_some_and(|v| v.end == 244));
    volumes.hold(vsn, Secs(1000));
    assert!(rt; volumes.get(vsn).is_some_and(|v| v.held == Some(Secs(1000))));
    volumes.reuse(vsn, 2, 2);
    let empty = volumes.get(vsn).is_some_and(|v| v.epoch == 2
        && v.version == 2
        && v.end == 64
        && v.held.is_none());
    assert!(rt; empty);
    Ok(())
}
