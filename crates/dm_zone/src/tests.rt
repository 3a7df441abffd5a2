ghost use Rattle.std.specs.Prelude.{◌≡◌, ◌<◌, ◌≤◌, ◌+◌, ◌^◌, length, MatchResult};
ghost use Rattle.dm_rules.specs.Zone.{chunk_count, chunk_split, zone_header};
ghost use Rattle.dm_zone.specs.Reading.{entries};

use super::*;
use dm_base::{Bfid, GroupId, NoMemory};
use dm_rules::{FIRST_VERSION, SECOND_VERSION};
use std::alloc::Global;
use std::process::Abort;
use std::test::*;

// A zone of one chunk, `hello`, the whole of its bitfile.
const HELLO: [u8; 85] = [
    0x5a, 0x4f, 0x4e, 0x45, 0, 0, 0, 1, 0, 0, 0, 0, 0, 0, 0, 1, 0, 0, 0, 0, 0, 0, 0, 0x55, 0, 0, 0,
    0, 0, 0, 0, 0, 0x43, 0x48, 0x4e, 0x4b, 0, 0, 0, 0, 0, 0, 0, 0, 0, 0, 0, 1, 0, 0, 0, 0, 0, 0, 0,
    1, 0, 0, 0, 0, 0, 0, 0, 0, 0, 0, 0, 0, 0, 0, 0, 5, 0, 0, 0, 0, 0, 0, 0, 5, 0x68, 0x65, 0x6c,
    0x6c, 0x6f,
];

// The same on a volume of the second version. The sum is what `sha256sum` says of `hello`.
const HELLO_WITH_SUM: [u8; 117] = [
    0x5a, 0x4f, 0x4e, 0x45, 0, 0, 0, 1, 0, 0, 0, 0, 0, 0, 0, 1, 0, 0, 0, 0, 0, 0, 0, 0x75, 0, 0, 0,
    0, 0, 0, 0, 0, 0x43, 0x48, 0x4e, 0x4b, 0, 0, 0, 0, 0, 0, 0, 0, 0, 0, 0, 1, 0, 0, 0, 0, 0, 0, 0,
    1, 0, 0, 0, 0, 0, 0, 0, 0, 0, 0, 0, 0, 0, 0, 0, 5, 0, 0, 0, 0, 0, 0, 0, 5, 0x2c, 0xf2, 0x4d,
    0xba, 0x5f, 0xb0, 0xa3, 0x0e, 0x26, 0xe8, 0x3b, 0x2a, 0xc5, 0xb9, 0xe2, 0x9e, 0x1b, 0x16, 0x1e,
    0x5c, 0x1f, 0xa7, 0x42, 0x5e, 0x73, 0x04, 0x33, 0x62, 0x93, 0x8b, 0x98, 0x24, 0x68, 0x65, 0x6c,
    0x6c, 0x6f,
];

const SUM: [u8; 32] = [
    0x2c, 0xf2, 0x4d, 0xba, 0x5f, 0xb0, 0xa3, 0x0e, 0x26, 0xe8, 0x3b, 0x2a, 0xc5, 0xb9, 0xe2, 0x9e,
    0x1b, 0x16, 0x1e, 0x5c, 0x1f, 0xa7, 0x42, 0x5e, 0x73, 0x04, 0x33, 0x62, 0x93, 0x8b, 0x98, 0x24,
];

const LABEL: [u8; 64] = [
    0x44, 0x4d, 0x56, 0x4f, 0x4c, 0x49, 0x4d, 0x31, 0x41, 0x41, 0x30, 0x30, 0x30, 0x31, 1, 1, 0, 0,
    0, 0, 0, 0, 0, 1, 0, 0, 0, 0, 0, 0, 1, 0xa8, 0, 0, 0, 0, 0, 0, 0, 0, 0, 0, 0, 0, 0, 0, 0, 0, 0,
    0, 0, 0, 0, 0, 0, 0, 0, 0, 0, 0, 0, 0, 0, 0,
];

fn hello_zone(alloc: Global, version: u8) -> Result<Vec<u8>, &'static str> {
    encode_zone(alloc, 1, version, Bfid::of(1, 1), 5, 0, b"hello", 1000)
        .ok()
        .ok_or("there is memory")
}

#[test]
fn hello(rt: HostRuntime) -> Result<(), Fail> {
    assert_eq!(rt;
        hello_zone(rt.alloc(), FIRST_VERSION)?.as_slice(),
        HELLO.as_slice()
    );
    assert_eq!(rt;
        hello_zone(rt.alloc(), SECOND_VERSION)?.as_slice(),
        HELLO_WITH_SUM.as_slice()
    );
    assert_eq!(rt; chunk_sum(FIRST_VERSION, b"hello"), None);
    assert_eq!(rt; chunk_sum(SECOND_VERSION, b"hello"), Some(SUM));
    Ok(())
}

#[test]
fn label_of_a_volume(rt: HostRuntime) {
    assert_eq!(rt; label(b"AA0001", GroupId(1), FIRST_VERSION, 1, 424), LABEL);
    let mut second = LABEL;
    second[15] = 2;
    assert_eq!(rt;
        label(b"AA0001", GroupId(1), SECOND_VERSION, 1, 424),
        second
    );
}

#[test]
fn rooms(rt: HostRuntime) {
    assert_eq!(rt; room(FIRST_VERSION, 424, 64, 1000), 280);
    assert_eq!(rt; room(FIRST_VERSION, 424, 424, 1000), 0);
    assert_eq!(rt; room(FIRST_VERSION, 424, 64, 100), 200);
    // 248 bytes fill the volume, and a zone of one byte ends at 177.
    assert_eq!(rt; room(SECOND_VERSION, 424, 64, 1000), 248);
    assert_eq!(rt; room(SECOND_VERSION, 177, 64, 1000), 1);
    assert_eq!(rt; room(SECOND_VERSION, 176, 64, 1000), 0);
}

const HELLO_CHUNK: ZoneChunk = ZoneChunk {
    bfid: Bfid(0x1_0000_0000_0000_0001),
    total: 5,
    offset: 0,
    at: 80,
    len: 5,
    sum: None,
};

#[test]
fn hello_is_read(rt: HostRuntime) -> Result<(), Fail> {
    let zone = decode_zone(rt.alloc(), &HELLO, FIRST_VERSION)
        .ok()
        .ok_or("a zone")?;
    assert_eq!(rt; zone.epoch, 1);
    assert_eq!(rt; zone.chunks.as_slice(), [HELLO_CHUNK].as_slice());
    let zone = decode_zone(rt.alloc(), &HELLO_WITH_SUM, SECOND_VERSION)
        .ok()
        .ok_or("a zone")?;
    let chunk = ZoneChunk {
        at: 112,
        sum: Some(SUM),
        ..HELLO_CHUNK
    };
    assert_eq!(rt; zone.epoch, 1);
    assert_eq!(rt; zone.chunks.as_slice(), [chunk].as_slice());
    Ok(())
}

// Where the first wrong field stands in `hello`'s zone with one byte changed.
const WRONG: [(usize, u8, u64); 19] = [
    (0, 0x5b, 0),
    (3, 0, 0),
    (7, 0, 4),
    (16, 1, 16),
    (23, 0x54, 16),
    (24, 1, 24),
    (31, 1, 24),
    (32, 0, 32),
    (35, 0, 32),
    (36, 1, 36),
    (39, 1, 36),
    (71, 0, 64),
    (63, 1, 72),
    (56, 0xff, 72),
    (71, 6, 72),
    (64, 0xff, 72),
    (79, 4, 72),
    // a second chunk isn't there
    (7, 2, 85),
    (4, 0xff, 85),
];

#[test]
fn wrong_fields(rt: HostRuntime) {
    for (at, value, place) in WRONG {
        let mut bytes = HELLO;
        assert!(rt; at < bytes.len());
        bytes[at] = value;
        let answer = decode_zone(rt.alloc(), &bytes, FIRST_VERSION).err();
        assert_eq!(rt; answer, Some(ZoneError::BadZone { place }), "at {at}");
    }
}

// The same where only the second version differs: a sum is wrong at its place, whichever of its bytes or of the bytes
// that it is of was changed, and a second chunk that isn't there is cut at the end.
const WRONG_WITH_SUM: [(usize, u8, u64); 24] = [
    (0, 0x5b, 0),
    (3, 0, 0),
    (7, 0, 4),
    (16, 1, 16),
    (23, 0x74, 16),
    (24, 1, 24),
    (31, 1, 24),
    (32, 0, 32),
    (35, 0, 32),
    (36, 1, 36),
    (39, 1, 36),
    (71, 0, 64),
    (63, 1, 72),
    (56, 0xff, 72),
    (71, 6, 72),
    (64, 0xff, 72),
    (79, 4, 72),
    (80, 0x2d, 80),
    (111, 0x25, 80),
    (112, 0x69, 80),
    (116, 0x70, 80),
    // a sum of one byte more than the chunk has
    (71, 4, 80),
    (7, 2, 117),
    (4, 0xff, 117),
];

#[test]
fn wrong_fields_beside_sums(rt: HostRuntime) {
    for (at, value, place) in WRONG_WITH_SUM {
        let mut bytes = HELLO_WITH_SUM;
        assert!(rt; at < bytes.len());
        bytes[at] = value;
        let answer = decode_zone(rt.alloc(), &bytes, SECOND_VERSION).err();
        assert_eq!(rt; answer, Some(ZoneError::BadZone { place }), "at {at}");
    }
}

// Each zone cut at each place, the bytes of its chunk cut, and one byte left over. `len` is its length.
fn cut_or_left_over<R: Abort + AllocGlobal>(rt: &R, zone: &[u8], version: u8) -> Result<(), Fail> {
    for len in 0..zone.len() {
        let answer = decode_zone(rt.alloc(), &zone[..len], version).err();
        assert_eq!(rt; answer, Some(ZoneError::BadZone { place: len as u64 }));
    }
    let mut more = Vec::from_slice(rt.alloc(), zone)?;
    more.push(0)?;
    assert_eq!(rt;
        decode_zone(rt.alloc(), &more, version).err(),
        Some(ZoneError::BadZone {
            place: zone.len() as u64
        })
    );
    Ok(())
}

#[test]
fn cut_or_left_over_zones(rt: HostRuntime) -> Result<(), Fail> {
    cut_or_left_over(&rt, &HELLO, FIRST_VERSION)?;
    cut_or_left_over(&rt, &HELLO_WITH_SUM, SECOND_VERSION)?;
    let mut longer = HELLO_WITH_SUM;
    longer[71] = 6;
    longer[79] = 6;
    assert_eq!(rt;
        decode_zone(rt.alloc(), &longer, SECOND_VERSION).err(),
        Some(ZoneError::BadZone { place: 117 })
    );
    Ok(())
}

// A zone isn't one of the other version.
#[test]
fn versions_are_not_mistaken(rt: HostRuntime) {
    assert_eq!(rt;
        decode_zone(rt.alloc(), &HELLO, SECOND_VERSION).err(),
        Some(ZoneError::BadZone { place: 85 })
    );
    assert_eq!(rt;
        decode_zone(rt.alloc(), &HELLO_WITH_SUM, FIRST_VERSION).err(),
        Some(ZoneError::BadZone { place: 16 })
    );
}

// What was written is read again: a caller of both knows it by their contracts.
fn written_and_read(
    alloc: Global,
    epoch: u64,
    version: u8,
    bfid: Bfid,
    total: u64,
    offset: u64,
    bytes: &[u8],
    chunk: u64,
) -> Result<Zone, ZoneError>
    requires some { 0 < length bytes.now }
    requires chunk { 0 < chunk }
    requires within { offset + length bytes.now ≤ total }
    requires count { chunk_count chunk (length bytes.now) < 2 ^ 32 }
    ensures { MatchResult result (λ z. (z.epoch ≡ epoch) × (z.chunks ≡ entries version zone_header (chunk_split version bfid.0 total offset bytes.now chunk))) (λ e. e ≡ ZoneError.NoMemory) }
{
    let zone = match encode_zone(alloc, epoch, version, bfid, total, offset, bytes, chunk) {
        Ok(zone) => zone,
        Err(NoMemory) => return Err(ZoneError::NoMemory),
    };
    decode_zone(alloc, zone.as_slice(), version)
}

#[test]
fn several_chunks(rt: HostRuntime) -> Result<(), Fail> {
    let bfid = Bfid::of(1, 2);
    let zone = written_and_read(rt.alloc(), 9, 2, bfid, 100, 7, b"abcdefghijklm", 5)
        .ok()
        .ok_or("there is memory")?;
    assert_eq!(rt; zone.epoch, 9);
    let chunk = |offset, at, len, bytes: &[u8]| ZoneChunk {
        bfid,
        total: 100,
        offset,
        at,
        len,
        sum: chunk_sum(2, bytes),
    };
    let chunks = [
        chunk(7, 112, 5, b"abcde"),
        chunk(12, 197, 5, b"fghij"),
        chunk(17, 282, 3, b"klm"),
    ];
    assert_eq!(rt; zone.chunks.as_slice(), chunks.as_slice());
    Ok(())
}

// 262,144 chunks of 64 bytes.
#[test]
fn many_chunks(rt: HostRuntime) -> Result<(), Fail> {
    let bytes = vec![in rt.alloc(); 0x61; 16_777_216]?;
    let bfid = Bfid::of(1, 1);
    let zone = encode_zone(
        rt.alloc(),
        1,
        FIRST_VERSION,
        bfid,
        16_777_216,
        0,
        &bytes,
        64,
    )
    .ok()
    .ok_or("there is memory")?;
    let read = decode_zone(rt.alloc(), &zone, FIRST_VERSION)
        .ok()
        .ok_or("a zone")?;
    assert_eq!(rt; read.chunks.len(), 262_144);
    Ok(())
}
