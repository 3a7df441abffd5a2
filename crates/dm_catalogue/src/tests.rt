ghost use Rattle.std.specs.Prelude.{◌≡◌};

use super::*;
use dm_base::{Bfid, Chunk, Listed, NoMemory, Vsn};
use dm_durable::BitfileRow;
use std::alloc::Global;
use std::test::Fail;

const ONE: Vsn = Vsn(*b"VOL001");

const TWO: Vsn = Vsn(*b"VOL002");

fn chunk(offset: u64, len: u64, vsn: Vsn, place: u64) -> Chunk
    ensures offset { result.offset ≡ offset }
    ensures len { result.len ≡ len }
{
    Chunk {
        offset,
        len,
        vsn,
        zone: 64,
        place,
        sum: None,
    }
}

// A bitfile in three chunks of 100, 100 and 60 bytes, the last of them on the second volume.
fn commit(catalogue: &mut Catalogue, alloc: Global, bfid: Bfid) -> Result<(), NoMemory> {
    let chunks = [
        chunk(0, 100, ONE, 144),
        chunk(100, 100, ONE, 292),
        chunk(200, 60, TWO, 176),
    ];
    let chunks = Listed::from_vec(Vec::from_slice(alloc, &chunks)?);
    let row = Box::new(alloc, (bfid.0, BitfileRow { len: 260, chunks }))?;
    catalogue.know(row.1.chunks.as_slice())?;
    catalogue.reserve()?;
    catalogue.insert(row);
    Ok(())
}

fn two(alloc: Global) -> Result<Catalogue, NoMemory> {
    let mut catalogue = Catalogue::empty(alloc);
    commit(&mut catalogue, alloc, Bfid(7))?;
    commit(&mut catalogue, alloc, Bfid(5))?;
    Ok(catalogue)
}

// The place of the chunk that begins at the offset.
fn place(catalogue: &Catalogue, bfid: Bfid, offset: u64) -> Option<u64> {
    match catalogue.chunk(bfid, offset) {
        Some(chunk) => Some(chunk.place),
        None => None,
    }
}

#[test]
fn chunks_are_found_by_offset(rt: HostRuntime) -> Result<(), Fail> {
    let catalogue = two(rt.alloc())?;
    assert!(rt; place(&catalogue, Bfid(7), 0) == Some(144));
    assert!(rt; place(&catalogue, Bfid(7), 200) == Some(176));
    assert!(rt; place(&catalogue, Bfid(7), 150).is_none());
    assert!(rt; place(&catalogue, Bfid(6), 0).is_none());
    assert!(rt; catalogue.entry(0).is_some_and(|e| e.0 == 5));
    Ok(())
}

#[test]
fn what_lies_on_volumes_is_kept(rt: HostRuntime) -> Result<(), Fail> {
    let mut catalogue = two(rt.alloc())?;
    assert_eq!(rt; catalogue.live(ONE), 400);
    assert_eq!(rt; catalogue.live(TWO), 120);
    assert_eq!(rt; catalogue.weight(1, ONE), 4 * 80 + 400);
    assert_eq!(rt; catalogue.weight(2, TWO), 2 * 112 + 120);
    catalogue.remove(Bfid(7));
    assert_eq!(rt; catalogue.live(ONE), 200);
    catalogue.remove(Bfid(5));
    assert!(rt; !catalogue.has_chunk_on(ONE) && !catalogue.has_chunk_on(TWO));
    Ok(())
}

// The first chunk of the bitfile goes to the second volume.
fn move_first(catalogue: &mut Catalogue, bfid: Bfid) -> Result<(), NoMemory> {
    let Some(from) = catalogue.chunk(bfid, 0) else {
        return Ok(());
    };
    let to = Chunk {
        offset: 0,
        vsn: TWO,
        place: 1000,
        ..from
    };
    catalogue.know(&[to])?;
    catalogue.move_chunk(bfid, to);
    Ok(())
}

#[test]
fn a_chunk_moves(rt: HostRuntime) -> Result<(), Fail> {
    let mut catalogue = two(rt.alloc())?;
    let moved = move_first(&mut catalogue, Bfid(7));
    assert!(rt; moved.is_ok());
    assert!(rt; place(&catalogue, Bfid(7), 0) == Some(1000));
    assert!(rt; place(&catalogue, Bfid(7), 100) == Some(292));
    assert_eq!(rt; catalogue.live(ONE), 300);
    assert_eq!(rt; catalogue.live(TWO), 220);
    Ok(())
}
