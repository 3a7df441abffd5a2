//! Each field against bytes that were worked out by hand from the table of fields: it is read to its end, written so again,
//! and refused where it is cut.
use super::*;
use dm_base::{Bfid, Bytes, Chunk, DumpName, GroupId, Ino, Listed, Path, Secs, Vsn};
use dm_durable::{Contents, DumpInode, Entry};
use std::alloc::Global;
use std::test::Fail;

const ROOM: usize = 128;

fn is_refused<T: Field>(alloc: Global, bytes: &[u8]) -> bool {
    let mut input = Input::of(bytes);
    match T::read(alloc, &mut input) {
        Ok(_) => false,
        Err(error) => error == ReadError::Damaged,
    }
}

fn is_refused_cut<T: Field>(alloc: Global, bytes: &[u8]) -> bool {
    for len in 0..bytes.len() {
        if !is_refused::<T>(alloc, &bytes[..len]) {
            return false;
        }
    }
    true
}

// Whether a value is spelled by all of the bytes and written as they are.
fn is_spelled<T: Field>(alloc: Global, bytes: &[u8]) -> bool {
    let mut input = Input::of(bytes);
    match T::read(alloc, &mut input) {
        Ok(value) => {
            let mut out = [0; ROOM];
            if !input.is_empty() || bytes.len() > ROOM || value.spelled_len() != bytes.len() {
                return false;
            }
            let end = value.put(&mut out, 0);
            end == bytes.len() && out.starts_with(bytes)
        }
        Err(_) => false,
    }
}

fn is_field<T: Field>(alloc: Global, bytes: &[u8]) -> bool {
    is_spelled::<T>(alloc, bytes) && is_refused_cut::<T>(alloc, bytes)
}

#[test]
fn numbers(rt: HostRuntime) -> Result<(), Fail> {
    let alloc = rt.alloc();
    assert!(rt; is_field::<u8>(alloc, b"\xff"));
    assert!(rt; is_field::<GroupId>(alloc, b"\x04"));
    assert!(rt; is_field::<bool>(alloc, b"\x01") && is_field::<bool>(alloc, b"\x00"));
    assert!(rt; is_refused::<bool>(alloc, b"\x02"));
    assert!(rt; is_field::<u64>(alloc, b"\x00\x00\x00\x00\x00\x00\x01\x02"));
    assert!(rt; is_field::<Secs>(alloc, b"\x00\x00\x00\x00\x00\x00\x01\x02"));
    assert!(rt; is_field::<Ino>(alloc, b"\x00\x00\x00\x00\x00\x00\x01\x02"));
    assert!(rt; is_field::<Bfid>(alloc, b"0123456789abcdef"));
    assert!(rt; is_field::<Option<Secs>>(alloc, b"\x01\x00\x00\x00\x00\x00\x00\x00\x09"));
    assert!(rt; is_field::<Option<Secs>>(alloc, b"\x00\x00\x00\x00\x00\x00\x00\x00\x00"));
    assert!(rt; is_refused::<Option<Secs>>(alloc, b"\x00\x00\x00\x00\x00\x00\x00\x00\x09"));
    assert_eq!(rt;
        u64::read(
            alloc,
            &mut Input::of(b"\x01\x00\x00\x00\x00\x00\x01\x02\xff")
        )?,
        72_057_594_037_928_194
    );
    Ok(())
}

#[test]
fn texts(rt: HostRuntime) -> Result<(), Fail> {
    let alloc = rt.alloc();
    assert!(rt; is_field::<Vsn>(alloc, b"AA0001"));
    assert!(rt; is_refused::<Vsn>(alloc, b"aa0001"));
    assert!(rt; is_field::<Path>(alloc, b"\x00\x04/a/b"));
    assert!(rt; is_refused::<Path>(alloc, b"\x00\x03a/b"));
    assert!(rt; is_field::<DumpName>(alloc, b"\x03mon"));
    assert!(rt; is_field::<Bytes>(alloc, b"\x00\x00\x00\x05hello"));
    assert!(rt; is_field::<LongBytes>(alloc, b"\x00\x00\x00\x00\x00\x00\x00\x05hello"));
    Ok(())
}

#[test]
fn lists_and_chunks(rt: HostRuntime) -> Result<(), Fail> {
    let alloc = rt.alloc();
    let chunk =
        b"\x00\x00\x00\x00\x00\x00\x00\x00\x00\x00\x00\x00\x00\x00\x00\x05AA0001\x00\x00\x00\x00\x00\x00\x00\x40\x00\x00\x00\x00\x00\x00\x00\x60\x00";
    assert!(rt; is_field::<Listed<GroupId>>(alloc, b"\x00\x00\x00\x02\x01\x03"));
    assert!(rt; is_field::<ShortList<GroupId>>(alloc, b"\x02\x01\x03"));
    assert!(rt; is_field::<(u8, ())>(alloc, b"\x07"));
    assert!(rt; is_field::<Chunk>(alloc, chunk));
    assert!(rt; is_field::<OldChunk>(alloc, &chunk[..38]));
    assert!(rt;
        is_field::<Option<[u8; SUM_LENGTH]>>(alloc, b"\x0101234567012345670123456701234567")
    );
    Ok(())
}

#[test]
fn parts_of_rows(rt: HostRuntime) -> Result<(), Fail> {
    let alloc = rt.alloc();
    let none =
        b"\x00\x00\x00\x00\x00\x00\x00\x00\x00\x00\x00\x00\x00\x00\x00\x00\x00\x00\x00\x00\x00\x00\x00\x00\x02hi";
    let named = b"\x010123456789abcdef\x00\x00\x00\x00\x00\x00\x00\x02";
    assert!(rt; is_field::<Contents>(alloc, none));
    assert!(rt;
        is_field::<Contents>(
            alloc,
            b"\x010123456789abcdef\x00\x00\x00\x00\x00\x00\x00\x02hi"
        )
    );
    assert!(rt;
        is_field::<Contents>(
            alloc,
            b"\x020123456789abcdef\x00\x00\x00\x00\x00\x00\x00\x02hi"
        )
    );
    assert!(rt;
        is_field::<Contents>(
            alloc,
            b"\x030123456789abcdef\x00\x00\x00\x00\x00\x00\x00\x02"
        )
    );
    assert!(rt;
        is_refused::<Contents>(
            alloc,
            b"\x000123456789abcdef\x00\x00\x00\x00\x00\x00\x00\x02hi"
        )
    );
    assert!(rt; is_field::<DumpInode>(alloc, none));
    assert!(rt; is_field::<DumpInode>(alloc, named));
    assert!(rt; is_field::<Copies>(alloc, b"\x02\x01\x03\x01\x00"));
    assert!(rt; is_refused::<Copies>(alloc, b"\x02\x01\x03\x01\x02"));
    assert!(rt;
        is_field::<Entry>(
            alloc,
            b"\x00\x00\x00\x00\x00\x00\x00\x05\x02\x01\x03\x01\x00\x01\x00\x00\x00\x00\x00\x00\x00\x09\x00"
        )
    );
    Ok(())
}
