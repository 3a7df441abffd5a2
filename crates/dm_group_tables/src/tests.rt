ghost use Rattle.std.specs.Prelude.{◌≡◌};

use super::*;
use dm_base::{Bfid, Chunk, GroupId, Listed, NoMemory, Secs, Vsn};
use dm_durable::{GroupRecord, GroupStep};
use std::alloc::Global;
use std::test::Fail;

const ONE: Vsn = Vsn(*b"VOL001");

const TWO: Vsn = Vsn(*b"VOL002");

fn add_volume(tables: &mut Tables, vsn: Vsn, version: u8) -> Result<(), NoMemory> {
    let slot = tables.free_slot();
    let step = GroupStep::Volume {
        vsn,
        slot,
        version,
        size: 4096,
    };
    let time = Secs(100);
    let prepared = tables.prepare(GroupRecord { time, step })?;
    tables.apply(prepared);
    Ok(())
}

fn chunk(offset: u64, len: u64, vsn: Vsn, zone: u64, place: u64) -> Chunk
    ensures offset { result.offset ≡ offset }
    ensures len { result.len ≡ len }
{
    Chunk {
        offset,
        len,
        vsn,
        zone,
        place,
        sum: None,
    }
}

// A bitfile of 150 bytes in two chunks, of one zone of a volume of version 1.
fn commit(tables: &mut Tables, alloc: Global, bfid: Bfid) -> Result<(), NoMemory> {
    let chunks = [chunk(0, 100, ONE, 64, 144), chunk(100, 50, ONE, 64, 292)];
    let chunks = Listed::from_vec(Vec::from_slice(alloc, &chunks)?);
    let step = GroupStep::Commit {
        bfid,
        len: 150,
        chunks,
    };
    let time = Secs(200);
    let prepared = tables.prepare(GroupRecord { time, step })?;
    tables.apply(prepared);
    Ok(())
}

// Two volumes, and a bitfile on the first.
fn one_bitfile(alloc: Global) -> Result<Tables, NoMemory> {
    let mut tables = Tables::empty(alloc, GroupId(3));
    add_volume(&mut tables, ONE, 1)?;
    add_volume(&mut tables, TWO, 2)?;
    commit(&mut tables, alloc, Bfid(7))?;
    Ok(tables)
}

fn end_of(tables: &Tables, vsn: Vsn) -> u64 {
    match tables.volume(vsn) {
        Some(volume) => volume.end,
        None => 0,
    }
}

#[test]
fn a_commit_raises_the_end_of_its_volume(rt: HostRuntime) -> Result<(), Fail> {
    let tables = one_bitfile(rt.alloc())?;
    assert_eq!(rt; end_of(&tables, ONE), 342);
    assert_eq!(rt; end_of(&tables, TWO), 64);
    assert_eq!(rt; tables.live(ONE), 150);
    assert_eq!(rt; tables.weight(1, ONE), 2 * 80 + 150);
    assert_eq!(rt; tables.free_slot(), 2);
    assert!(rt; tables.time() == Secs(200) && tables.group() == GroupId(3));
    let slots = tables.volume(ONE).is_some_and(|v| v.slot == 0)
        && tables.volume(TWO).is_some_and(|v| v.slot == 1);
    assert!(rt; slots);
    Ok(())
}

// The chunk at the offset goes to the second volume, whose chunks have sums.
fn move_chunk(tables: &mut Tables, bfid: Bfid, offset: u64) -> Result<(), NoMemory> {
    let Some(from) = tables.chunk(bfid, offset) else {
        return Ok(());
    };
    let to = Chunk {
        offset,
        vsn: TWO,
        zone: 64,
        place: 64 + 112,
        sum: Some([9; 32]),
        ..from
    };
    let step = GroupStep::Move { bfid, from, to };
    let time = Secs(300);
    let prepared = tables.prepare(GroupRecord { time, step })?;
    tables.apply(prepared);
    Ok(())
}

#[test]
fn a_move_takes_a_chunk_to_another_volume(rt: HostRuntime) -> Result<(), Fail> {
    let mut tables = one_bitfile(rt.alloc())?;
    let moved = move_chunk(&mut tables, Bfid(7), 100);
    assert!(rt; moved.is_ok());
    assert_eq!(rt; end_of(&tables, TWO), 64 + 112 + 50);
    assert_eq!(rt; tables.live(ONE), 100);
    assert_eq!(rt; tables.live(TWO), 50);
    let there = tables
        .chunk(Bfid(7), 100)
        .is_some_and(|c| c.vsn == TWO && c.place == 176 && c.sum.is_some());
    assert!(rt; there);
    assert!(rt; tables.chunk(Bfid(7), 0).is_some_and(|c| c.vsn == ONE));
    Ok(())
}

#[test]
fn a_volume_is_freed_and_used_anew(rt: HostRuntime) -> Result<(), Fail> {
    let mut tables = one_bitfile(rt.alloc())?;
    assert!(rt; tables.has_chunk_on(ONE));
    tables.apply(Prepared::delete(Secs(300), Bfid(7)));
    assert!(rt; !tables.has_chunk_on(ONE) && tables.bitfiles() == 0);
    tables.apply(Prepared::free(Secs(400), ONE));
    let held = tables
        .volume(ONE)
        .is_some_and(|v| v.held == Some(Secs(400)));
    assert!(rt; held);
    tables.apply(Prepared::reuse(Secs(500), ONE, 2, 2));
    let empty = tables.volume(ONE).is_some_and(|v| v.epoch == 2
        && v.version == 2
        && v.end == 64
        && v.held.is_none());
    assert!(rt; empty);
    Ok(())
}

#[test]
fn a_merge_begins_with_the_chunk_furthest_in_front(rt: HostRuntime) -> Result<(), Fail> {
    let mut tables = one_bitfile(rt.alloc())?;
    let first = tables.first_on(ONE).is_some_and(|live| live.bfid == Bfid(7)
        && live.total == 150
        && live.chunk.place == 144);
    assert!(rt; first);
    assert!(rt; tables.first_on(TWO).is_none());
    Ok(())
}

#[test]
fn a_step_that_is_abandoned_is_not_done(rt: HostRuntime) -> Result<(), Fail> {
    let mut tables = Tables::empty(rt.alloc(), GroupId(3));
    let step = GroupStep::Volume {
        vsn: ONE,
        slot: 0,
        version: 1,
        size: 4096,
    };
    let time = Secs(100);
    let prepared = tables.prepare(GroupRecord { time, step })?;
    tables.abandon(prepared);
    assert_eq!(rt; tables.volumes(), 0);
    Ok(())
}
