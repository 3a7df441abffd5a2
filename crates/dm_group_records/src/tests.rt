//! One payload of each kind, of a log and of a checkpoint, with its bytes worked out from the tables of the format.
//!
//! What is read is owned by small functions with one way out: its drop is spelled out at each.

ghost use Rattle.std.specs.Prelude.{◌≡◌, ◌<◌, ◌^◌, length, IfSome};
ghost use Rattle.dm_durable.specs.Fields.{FitsGroupRow};
ghost use Rattle.dm_group_records.specs.Payloads.{spelling, FitsLog};
ghost use Rattle.dm_group_records.specs.Rows.{row_spelling, row_of};

use super::*;
use dm_base::{Bfid, Chunk, Vsn};
use dm_durable::{BitfileRow, GroupPayload, GroupRow, GroupStep, VolumeRow};
use dm_fields::ReadError;
use std::alloc::Global;
use std::test::*;

// The kind, the time 258, and then the fields of the kind.
const HEAD: &[u8] = b"\x01\0\0\0\0\0\0\x01\x02DMGROUP1\x03";

// The volume AA0001 in slot 5, of 424 bytes.
const OLD_VOLUME: &[u8] = b"\x02\0\0\0\0\0\0\x01\x02AA0001\x05\0\0\0\0\0\0\x01\xa8";

// The bitfile 772 of site 1, of 300 bytes in two chunks: 200 bytes in the zone at 64 of AA0001, and 100 in the zone at 256
// of BB0002.
const OLD_COMMIT: &[u8] = b"\x03\0\0\0\0\0\0\x01\x02\
    \0\0\0\0\0\0\0\x01\0\0\0\0\0\0\x03\x04\0\0\0\0\0\0\x01\x2c\0\0\0\x02\
    \0\0\0\0\0\0\0\0\0\0\0\0\0\0\0\xc8AA0001\0\0\0\0\0\0\0\x40\0\0\0\0\0\0\0\x90\
    \0\0\0\0\0\0\0\xc8\0\0\0\0\0\0\0\x64BB0002\0\0\0\0\0\0\x01\0\0\0\0\0\0\0\x01\x70";

const DELETE: &[u8] = b"\x04\0\0\0\0\0\0\x01\x02\0\0\0\0\0\0\0\x01\0\0\0\0\0\0\x03\x04";

const OLD_MOVE: &[u8] = b"\x05\0\0\0\0\0\0\x01\x02\0\0\0\0\0\0\0\x01\0\0\0\0\0\0\x03\x04\
    \0\0\0\0\0\0\0\0\0\0\0\0\0\0\0\xc8AA0001\0\0\0\0\0\0\0\x40\0\0\0\0\0\0\0\x90\
    \0\0\0\0\0\0\0\xc8\0\0\0\0\0\0\0\x64BB0002\0\0\0\0\0\0\x01\0\0\0\0\0\0\0\x01\x70";

const FREE: &[u8] = b"\x06\0\0\0\0\0\0\x01\x02AA0001";

const OLD_REUSE: &[u8] = b"\x07\0\0\0\0\0\0\x01\x02AA0001\0\0\0\0\0\0\x02\x09";

// The same with longer chunks, of which the second has a sum.
const COMMIT: &[u8] = b"\x08\0\0\0\0\0\0\x01\x02\
    \0\0\0\0\0\0\0\x01\0\0\0\0\0\0\x03\x04\0\0\0\0\0\0\x01\x2c\0\0\0\x02\
    \0\0\0\0\0\0\0\0\0\0\0\0\0\0\0\xc8AA0001\0\0\0\0\0\0\0\x40\0\0\0\0\0\0\0\x90\0\
    \0\0\0\0\0\0\0\xc8\0\0\0\0\0\0\0\x64BB0002\0\0\0\0\0\0\x01\0\0\0\0\0\0\0\x01\x70\x01\
    abcdefghijklmnopqrstuvwxyz012345";

const MOVE: &[u8] = b"\x09\0\0\0\0\0\0\x01\x02\0\0\0\0\0\0\0\x01\0\0\0\0\0\0\x03\x04\
    \0\0\0\0\0\0\0\0\0\0\0\0\0\0\0\xc8AA0001\0\0\0\0\0\0\0\x40\0\0\0\0\0\0\0\x90\0\
    \0\0\0\0\0\0\0\xc8\0\0\0\0\0\0\0\x64BB0002\0\0\0\0\0\0\x01\0\0\0\0\0\0\0\x01\x70\x01\
    abcdefghijklmnopqrstuvwxyz012345";

const VOLUME: &[u8] = b"\x0a\0\0\0\0\0\0\x01\x02AA0001\x05\x02\0\0\0\0\0\0\x01\xa8";

const REUSE: &[u8] = b"\x0b\0\0\0\0\0\0\x01\x02AA0001\0\0\0\0\0\0\x02\x09\x02";

// Rows have no time in front.
const STATE_ROW: &[u8] = b"\x28\0\0\0\0\0\0\x01\x02\x03";

// In epoch 521, with its end at 336, and freed at 257 or not at all.
const OLD_VOLUME_ROW: &[u8] =
    b"\x29AA0001\x05\0\0\0\0\0\0\x01\xa8\0\0\0\0\0\0\x02\x09\0\0\0\0\0\0\x01\x50\x01\0\0\0\0\0\0\x01\x01";

const OLD_BITFILE_ROW: &[u8] = b"\x2a\
    \0\0\0\0\0\0\0\x01\0\0\0\0\0\0\x03\x04\0\0\0\0\0\0\x01\x2c\0\0\0\x02\
    \0\0\0\0\0\0\0\0\0\0\0\0\0\0\0\xc8AA0001\0\0\0\0\0\0\0\x40\0\0\0\0\0\0\0\x90\
    \0\0\0\0\0\0\0\xc8\0\0\0\0\0\0\0\x64BB0002\0\0\0\0\0\0\x01\0\0\0\0\0\0\0\x01\x70";

const VOLUME_ROW: &[u8] =
    b"\x2bAA0001\x05\x02\0\0\0\0\0\0\x01\xa8\0\0\0\0\0\0\x02\x09\0\0\0\0\0\0\x01\x50\0\0\0\0\0\0\0\0\0";

const BITFILE_ROW: &[u8] = b"\x2c\
    \0\0\0\0\0\0\0\x01\0\0\0\0\0\0\x03\x04\0\0\0\0\0\0\x01\x2c\0\0\0\x02\
    \0\0\0\0\0\0\0\0\0\0\0\0\0\0\0\xc8AA0001\0\0\0\0\0\0\0\x40\0\0\0\0\0\0\0\x90\0\
    \0\0\0\0\0\0\0\xc8\0\0\0\0\0\0\0\x64BB0002\0\0\0\0\0\0\x01\0\0\0\0\0\0\0\x01\x70\x01\
    abcdefghijklmnopqrstuvwxyz012345";

// What a payload says, of which kind it is and whether of old. The numbers are the slot, the version, the size or the
// length, the epoch and the end; a head's and a state's group stands for a slot.
#[derive(Clone, Copy, Debug, PartialEq, Eq)]
struct Says {
    kind: u8,
    old: bool,
    time: u64,
    bfid: u128,
    vsn: [u8; 6],
    numbers: [u64; 5],
    held: Option<u64>,
    first: Option<Chunk>,
    second: Option<Chunk>,
}

const NOTHING: Says = Says {
    kind: 0,
    old: false,
    time: 0,
    bfid: 0,
    vsn: *b"......",
    numbers: [0; 5],
    held: None,
    first: None,
    second: None,
};

fn step_meaning(step: &GroupStep) -> Says {
    match step {
        GroupStep::Volume {
            vsn,
            slot,
            version,
            size,
        } => Says {
            kind: 10,
            vsn: vsn.0,
            numbers: [*slot as u64, *version as u64, *size, 0, 0],
            ..NOTHING
        },
        GroupStep::Commit { bfid, len, chunks } => Says {
            kind: 8,
            bfid: bfid.0,
            numbers: [0, 0, *len, 0, 0],
            first: chunks.as_slice().get(0).copied(),
            second: chunks.as_slice().get(1).copied(),
            ..NOTHING
        },
        GroupStep::Delete { bfid } => Says {
            kind: 4,
            bfid: bfid.0,
            ..NOTHING
        },
        GroupStep::Move { bfid, from, to } => Says {
            kind: 9,
            bfid: bfid.0,
            first: Some(*from),
            second: Some(*to),
            ..NOTHING
        },
        GroupStep::Free { vsn } => Says {
            kind: 6,
            vsn: vsn.0,
            ..NOTHING
        },
        GroupStep::Reuse {
            vsn,
            epoch,
            version,
        } => Says {
            kind: 11,
            vsn: vsn.0,
            numbers: [0, *version as u64, 0, *epoch, 0],
            ..NOTHING
        },
    }
}

fn payload_meaning(payload: &GroupPayload) -> Says {
    match payload {
        GroupPayload::Head { time, group } => Says {
            kind: 1,
            time: time.0,
            numbers: [group.0 as u64, 0, 0, 0, 0],
            ..NOTHING
        },
        GroupPayload::Record { record } => Says {
            time: record.time.0,
            ..step_meaning(&record.step)
        },
        GroupPayload::OldRecord { record } => Says {
            old: true,
            time: record.time.0,
            ..step_meaning(&record.step)
        },
        GroupPayload::Row { row: _ } => NOTHING,
    }
}

fn row_meaning(row: &GroupRow) -> Says {
    match row {
        GroupRow::State { time, group } => Says {
            kind: 40,
            time: time.0,
            numbers: [group.0 as u64, 0, 0, 0, 0],
            ..NOTHING
        },
        GroupRow::Volume { vsn, volume } => Says {
            kind: 43,
            ..volume_meaning(vsn, volume)
        },
        GroupRow::Bitfile { bfid, bitfile } => Says {
            kind: 44,
            ..bitfile_meaning(bfid, bitfile)
        },
        GroupRow::OldVolume { vsn, volume } => Says {
            kind: 43,
            old: true,
            ..volume_meaning(vsn, volume)
        },
        GroupRow::OldBitfile { bfid, bitfile } => Says {
            kind: 44,
            old: true,
            ..bitfile_meaning(bfid, bitfile)
        },
    }
}

fn volume_meaning(vsn: &Vsn, volume: &VolumeRow) -> Says {
    Says {
        vsn: vsn.0,
        numbers: [
            volume.slot as u64,
            volume.version as u64,
            volume.size,
            volume.epoch,
            volume.end,
        ],
        held: volume.held.map(|time| time.0),
        ..NOTHING
    }
}

fn bitfile_meaning(bfid: &Bfid, bitfile: &BitfileRow) -> Says {
    let chunks = bitfile.chunks.as_slice();
    Says {
        bfid: bfid.0,
        numbers: [0, 0, bitfile.len, 0, 0],
        first: chunks.get(0).copied(),
        second: chunks.get(1).copied(),
        ..NOTHING
    }
}

const FIRST: Chunk = Chunk {
    offset: 0,
    len: 200,
    vsn: Vsn(*b"AA0001"),
    zone: 64,
    place: 144,
    sum: None,
};

const SECOND: Chunk = Chunk {
    offset: 200,
    len: 100,
    vsn: Vsn(*b"BB0002"),
    zone: 256,
    place: 368,
    sum: None,
};

const SUMMED: Chunk = Chunk {
    sum: Some(*b"abcdefghijklmnopqrstuvwxyz012345"),
    ..SECOND
};

// 1 in the upper eight bytes, and 772 in the lower.
const OF_SITE: u128 = 0x0000_0000_0000_0001_0000_0000_0000_0304;

// What a log's payload of each kind says.
const LOG: [(&[u8], Says); 11] = [
    (
        HEAD,
        Says {
            kind: 1,
            numbers: [3, 0, 0, 0, 0],
            ..OF_LOG
        },
    ),
    (
        OLD_VOLUME,
        Says {
            kind: 10,
            old: true,
            vsn: *b"AA0001",
            numbers: [5, 1, 424, 0, 0],
            ..OF_LOG
        },
    ),
    (
        OLD_COMMIT,
        Says {
            kind: 8,
            old: true,
            bfid: OF_SITE,
            numbers: [0, 0, 300, 0, 0],
            first: Some(FIRST),
            second: Some(SECOND),
            ..OF_LOG
        },
    ),
    (
        DELETE,
        Says {
            kind: 4,
            bfid: OF_SITE,
            ..OF_LOG
        },
    ),
    (
        OLD_MOVE,
        Says {
            kind: 9,
            old: true,
            bfid: OF_SITE,
            first: Some(FIRST),
            second: Some(SECOND),
            ..OF_LOG
        },
    ),
    (
        FREE,
        Says {
            kind: 6,
            vsn: *b"AA0001",
            ..OF_LOG
        },
    ),
    (
        OLD_REUSE,
        Says {
            kind: 11,
            old: true,
            vsn: *b"AA0001",
            numbers: [0, 1, 0, 521, 0],
            ..OF_LOG
        },
    ),
    (
        COMMIT,
        Says {
            kind: 8,
            bfid: OF_SITE,
            numbers: [0, 0, 300, 0, 0],
            first: Some(FIRST),
            second: Some(SUMMED),
            ..OF_LOG
        },
    ),
    (
        MOVE,
        Says {
            kind: 9,
            bfid: OF_SITE,
            first: Some(FIRST),
            second: Some(SUMMED),
            ..OF_LOG
        },
    ),
    (
        VOLUME,
        Says {
            kind: 10,
            vsn: *b"AA0001",
            numbers: [5, 2, 424, 0, 0],
            ..OF_LOG
        },
    ),
    (
        REUSE,
        Says {
            kind: 11,
            vsn: *b"AA0001",
            numbers: [0, 2, 0, 521, 0],
            ..OF_LOG
        },
    ),
];

const OF_LOG: Says = Says {
    time: 258,
    ..NOTHING
};

// And a row of each kind.
const ROWS: [(&[u8], Says); 5] = [
    (
        STATE_ROW,
        Says {
            kind: 40,
            numbers: [3, 0, 0, 0, 0],
            ..OF_LOG
        },
    ),
    (
        OLD_VOLUME_ROW,
        Says {
            kind: 43,
            old: true,
            vsn: *b"AA0001",
            numbers: [5, 1, 424, 521, 336],
            held: Some(257),
            ..NOTHING
        },
    ),
    (
        OLD_BITFILE_ROW,
        Says {
            kind: 44,
            old: true,
            bfid: OF_SITE,
            numbers: [0, 0, 300, 0, 0],
            first: Some(FIRST),
            second: Some(SECOND),
            ..NOTHING
        },
    ),
    (
        VOLUME_ROW,
        Says {
            kind: 43,
            vsn: *b"AA0001",
            numbers: [5, 2, 424, 521, 336],
            ..NOTHING
        },
    ),
    (
        BITFILE_ROW,
        Says {
            kind: 44,
            bfid: OF_SITE,
            numbers: [0, 0, 300, 0, 0],
            first: Some(FIRST),
            second: Some(SUMMED),
            ..NOTHING
        },
    ),
];

// A case of a log, and one of rows.
fn log_case(k: usize) -> Option<(&'static [u8], Says)> {
    LOG.get(k).copied()
}

fn row_case(k: usize) -> Option<(&'static [u8], Says)> {
    ROWS.get(k).copied()
}

// What the bytes say as a payload of a log.
fn log_says(alloc: Global, bytes: &[u8]) -> Result<Says, ReadError> {
    match read_log(alloc, bytes) {
        Ok(payload) => Ok(payload_meaning(&payload)),
        Err(error) => Err(error),
    }
}

// And as a row.
fn row_says(alloc: Global, bytes: &[u8]) -> Result<Says, ReadError> {
    match read_row(alloc, bytes) {
        Ok(row) => Ok(row_meaning(&row)),
        Err(error) => Err(error),
    }
}

// Whether the bytes are damaged, as a row or as a payload of a log.
fn is_damaged(alloc: Global, bytes: &[u8], row: bool) -> bool {
    let says = if row {
        row_says(alloc, bytes)
    } else {
        log_says(alloc, bytes)
    };
    says == Err(ReadError::Damaged)
}

// Whether a case says what it is to say, and is none of the other sort.
fn log_is_read(alloc: Global, k: usize) -> bool {
    match log_case(k) {
        Some((bytes, says)) => log_says(alloc, bytes) == Ok(says) && is_damaged(alloc, bytes, true),
        None => false,
    }
}

fn row_is_read(alloc: Global, k: usize) -> bool {
    match row_case(k) {
        Some((bytes, says)) => row_says(alloc, bytes) == Ok(says)
            && is_damaged(alloc, bytes, false),
        None => false,
    }
}

#[test]
fn each_kind_is_read(rt: HostRuntime) {
    for k in 0..11 {
        assert!(rt; log_is_read(rt.alloc(), k), "payload {k}");
    }
    for k in 0..5 {
        assert!(rt; row_is_read(rt.alloc(), k), "row {k}");
    }
}

// Writes a payload of a log, if there is room and it isn't of old, and answers where it ends.
fn put_payload(payload: &GroupPayload, out: &mut [u8]) -> Option<usize>
    requires fits { FitsLog payload.now }
    requires short { length (spelling payload.now) < 2 ^ 64 }
{
    match payload {
        GroupPayload::Head { time, group } => {
            if out.len() < 18 {
                return None;
            }
            Some(put_head(*time, *group, out, 0))
        }
        GroupPayload::Record { record } => {
            if out.len() < record_len(record) {
                return None;
            }
            Some(put_record(record, out, 0))
        }
        GroupPayload::OldRecord { record: _ } => None,
        GroupPayload::Row { row: _ } => None,
    }
}

// The row as one to be written, if it isn't of old.
fn lent(row: &GroupRow) -> Option<RowOf<'_>>
    ensures { IfSome result (λ l. row_of l ≡ row.now) }
{
    match row {
        GroupRow::State { time, group } => Some(RowOf::State {
            time: *time,
            group: *group,
        }),
        GroupRow::Volume { vsn, volume } => Some(RowOf::Volume {
            vsn: *vsn,
            volume: *volume,
        }),
        GroupRow::Bitfile { bfid, bitfile } => Some(RowOf::Bitfile {
            bfid: *bfid,
            bitfile,
        }),
        GroupRow::OldVolume { vsn: _, volume: _ } => None,
        GroupRow::OldBitfile {
            bfid: _,
            bitfile: _,
        } => None,
    }
}

// And a row.
fn put_lent(row: &GroupRow, out: &mut [u8]) -> Option<usize>
    requires fits { FitsGroupRow row.now }
    requires short { length (row_spelling row.now) < 2 ^ 64 }
{
    match lent(row) {
        Some(l) => {
            if out.len() < row_len(&l) {
                return None;
            }
            Some(put_row(&l, out, 0))
        }
        None => None,
    }
}

// What is read of the bytes, written anew: where it ends.
fn log_again(alloc: Global, bytes: &[u8], out: &mut [u8]) -> Option<usize> {
    match read_log(alloc, bytes) {
        Ok(payload) => put_payload(&payload, out),
        Err(_) => None,
    }
}

fn row_again(alloc: Global, bytes: &[u8], out: &mut [u8]) -> Option<usize> {
    match read_row(alloc, bytes) {
        Ok(row) => put_lent(&row, out),
        Err(_) => None,
    }
}

// Whether what was written are these bytes.
fn same(out: &[u8], end: Option<usize>, bytes: &[u8]) -> bool {
    match end {
        Some(end) => out.get(..end) == Some(bytes),
        None => false,
    }
}

// Whether a case is written as the bytes that it is, and not written where it is of old.
fn log_is_written(alloc: Global, k: usize) -> bool {
    let mut out = [0; 200];
    match log_case(k) {
        Some((bytes, says)) => {
            let end = log_again(alloc, bytes, &mut out);
            (says.old && end.is_none()) || same(&out, end, bytes)
        }
        None => false,
    }
}

fn row_is_written(alloc: Global, k: usize) -> bool {
    let mut out = [0; 200];
    match row_case(k) {
        Some((bytes, says)) => {
            let end = row_again(alloc, bytes, &mut out);
            (says.old && end.is_none()) || same(&out, end, bytes)
        }
        None => false,
    }
}

#[test]
fn each_kind_is_written(rt: HostRuntime) {
    for k in 0..11 {
        assert!(rt; log_is_written(rt.alloc(), k), "payload {k}");
    }
    for k in 0..5 {
        assert!(rt; row_is_written(rt.alloc(), k), "row {k}");
    }
}

// Whether the bytes are damaged with one zero more.
fn no_more(alloc: Global, bytes: &[u8], row: bool) -> bool {
    let mut longer = [0; 200];
    let len = bytes.len();
    if len >= longer.len() {
        return false;
    }
    longer[..len].copy_from_slice(bytes);
    is_damaged(alloc, &longer[..len + 1], row)
}

// And at each shorter length.
fn no_less(alloc: Global, bytes: &[u8], row: bool) -> bool {
    for len in 0..bytes.len() {
        if !is_damaged(alloc, &bytes[..len], row) {
            return false;
        }
    }
    true
}

fn is_whole(alloc: Global, case: Option<(&[u8], Says)>, row: bool) -> bool {
    match case {
        Some((bytes, _)) => no_less(alloc, bytes, row) && no_more(alloc, bytes, row),
        None => false,
    }
}

#[test]
fn no_cut_is_read(rt: HostRuntime) {
    for k in 0..11 {
        assert!(rt; is_whole(rt.alloc(), log_case(k), false), "payload {k}");
    }
    for k in 0..5 {
        assert!(rt; is_whole(rt.alloc(), row_case(k), true), "row {k}");
    }
}

// Whether the bytes are damaged once one of them is changed.
fn is_spoiled(alloc: Global, bytes: &[u8], at: usize, byte: u8, row: bool) -> bool {
    let mut spoiled = [0; 200];
    let len = bytes.len();
    if len > spoiled.len() || at >= len {
        return false;
    }
    spoiled[..len].copy_from_slice(bytes);
    spoiled[at] = byte;
    is_damaged(alloc, &spoiled[..len], row)
}

// A kind that is none, a name that isn't a group's, a letter that is small, a number of chunks that is another, a flag, and
// a place without a time that isn't zero.
#[test]
fn one_byte_of_a_log_is_damage(rt: HostRuntime) {
    let alloc = rt.alloc();
    assert!(rt; is_spoiled(alloc, HEAD, 0, 0, false));
    assert!(rt; is_spoiled(alloc, HEAD, 0, 12, false));
    assert!(rt; is_spoiled(alloc, HEAD, 16, b'2', false));
    assert!(rt; is_spoiled(alloc, FREE, 9, b'a', false));
    assert!(rt; is_spoiled(alloc, COMMIT, 36, 1, false));
    assert!(rt; is_spoiled(alloc, COMMIT, 36, 3, false));
    assert!(rt; is_spoiled(alloc, COMMIT, 75, 2, false));
    assert!(rt; is_spoiled(alloc, COMMIT, 114, 0, false));
}

#[test]
fn one_byte_of_a_row_is_damage(rt: HostRuntime) {
    let alloc = rt.alloc();
    assert!(rt; is_spoiled(alloc, STATE_ROW, 0, 39, true));
    assert!(rt; is_spoiled(alloc, STATE_ROW, 0, 45, true));
    assert!(rt; is_spoiled(alloc, OLD_VOLUME_ROW, 32, 0, true));
    assert!(rt; is_spoiled(alloc, OLD_VOLUME_ROW, 32, 2, true));
    assert!(rt; is_spoiled(alloc, VOLUME_ROW, 41, 1, true));
    assert!(rt; is_spoiled(alloc, BITFILE_ROW, 28, 3, true));
}
