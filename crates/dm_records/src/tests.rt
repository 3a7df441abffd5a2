//! The formats against bytes that were worked out by hand from their tables: one payload of each kind, and each form of
//! what a file holds. Each is told right, is written so again, and is refused where it is cut or a byte is left over.
ghost use Rattle.std.specs.Prelude.{◌≡◌, IfSome};
ghost use Rattle.dm_durable.specs.Fields.{FitsRow};
ghost use Rattle.dm_records.specs.LentRows.{row_of};
ghost use Rattle.dm_records.specs.Payloads.{spelling, FitsLog};
ghost use Rattle.dm_records.specs.Rows.{row_spelling};

use super::*;
use dm_base::{Bfid, Bytes, DumpName, GroupId, Ino, Path, Secs};
use dm_durable::{
    AskedCopy, Contents, DaemonHead, DaemonPayload, DaemonRow, DaemonStep, DumpInode, Entry,
    JournalVersion,
};
use dm_fields::ReadError;
use std::alloc::Global;
use std::test::Fail;

const ROOM: usize = 128;

// The bytes of hexadecimal digits, and how many they are. Spaces part the fields.
fn bytes_of(text: &str) -> ([u8; ROOM], usize) {
    let mut bytes = [0; ROOM];
    let mut digits = 0usize;
    for digit in text.bytes() {
        if digit == b' ' {
            continue;
        }
        let value = if digit <= b'9' {
            digit.wrapping_sub(b'0')
        } else {
            digit.wrapping_sub(b'a').wrapping_add(10)
        };
        let at = digits / 2;
        if at >= ROOM {
            return (bytes, ROOM);
        }
        bytes[at] = bytes[at].wrapping_mul(16).wrapping_add(value);
        digits += 1;
    }
    (bytes, digits / 2)
}

// The first so many bytes.
fn front(bytes: &[u8], len: usize) -> &[u8] {
    match bytes.get(..len) {
        Some(front) => front,
        None => bytes,
    }
}

fn byte_at(bytes: &[u8], place: usize) -> u8 {
    match bytes.get(place) {
        Some(byte) => *byte,
        None => 255,
    }
}

// The bitfile 2 of site 1.
const BFID: Bfid = Bfid(0x0000_0000_0000_0001_0000_0000_0000_0002);

fn is_path(path: &Path) -> bool {
    path.bytes() == b"/a/b".as_slice()
}

fn is_name(name: &DumpName) -> bool {
    name.bytes() == b"mon".as_slice()
}

fn is_content(bytes: &Bytes) -> bool {
    bytes.as_slice() == b"hello".as_slice()
}

// ---- logs

// A payload of each kind, and a head of version 1.
fn logs() -> [&'static str; 17] {
    [
        "01 0000000000000000 444d4441454d4e32 0000000000000001 0000000000000001 0000000000000064",
        "01 0000000000000000 444d4441454d4e31 0000000000000001 0000000000000001 0000000000000064",
        "02 0000000000000005 0004 2f612f62 0000000000000007 00000005 68656c6c6f",
        "03 0000000000000005 0004 2f612f62 0000000000000007",
        "04 0000000000000005 0004 2f612f62 00000000000000010000000000000002 02 01 03",
        "05 0000000000000005 00000000000000010000000000000002 03",
        "06 0000000000000005 0000000000000004 00000000000000010000000000000002 01",
        "07 0000000000000005 0004 2f612f62",
        "08 0000000000000005 0000000000000004 00000005 68656c6c6f",
        "09 0000000000000005 03 6d6f6e",
        "0a 0000000000000005 03 6d6f6e",
        "0b 0000000000000005 03 6d6f6e 0004 2f612f62 0002 2f63 0000000000000007",
        "0c 0000000000000005 00000002 00000000000000010000000000000002 00000000000000010000000000000003",
        "0d 0000000000000005 00000000000000010000000000000002",
        "0e 0000000000000005",
        "0f 0000000000000005 0000000000015180",
        "10 0000000000000005",
    ]
}

fn is_head(head: &DaemonHead, last: u8) -> bool {
    let version = match head.version {
        JournalVersion::First => b'1',
        JournalVersion::Second => b'2',
    };
    version == last && head.time == Secs(0) && head.site == 1 && head.first == 1 && head.age == 100
}

fn is_step(step: &DaemonStep, kind: u8) -> bool {
    match step {
        DaemonStep::Write {
            path,
            change,
            bytes,
        } => kind == 2 && is_path(path) && *change == 7 && is_content(bytes),
        DaemonStep::Remove { path, change } => kind == 3 && is_path(path) && *change == 7,
        DaemonStep::BeginPut { path, bfid, groups } => {
            let asked = [GroupId(1), GroupId(3)];
            kind == 4 && is_path(path) && *bfid == BFID && groups.as_slice() == asked.as_slice()
        }
        DaemonStep::Stored { bfid, group } => kind == 5 && *bfid == BFID && *group == GroupId(3),
        DaemonStep::EndPut { ino, bfid, dual } => {
            kind == 6 && *ino == Ino(4) && *bfid == BFID && *dual
        }
        DaemonStep::Release { path } => kind == 7 && is_path(path),
        DaemonStep::Taken { ino, bytes } => kind == 8 && *ino == Ino(4) && is_content(bytes),
        DaemonStep::Dump { name } => kind == 9 && is_name(name),
        DaemonStep::Undump { name } => kind == 10 && is_name(name),
        DaemonStep::Restore {
            name,
            path,
            target,
            change,
        } => {
            kind == 11
                && is_name(name)
                && is_path(path)
                && target.bytes() == b"/c".as_slice()
                && *change == 7
        }
        DaemonStep::HardDelete { bfids } => {
            let two = [BFID, Bfid(BFID.0 + 1)];
            kind == 12 && bfids.as_slice() == two.as_slice()
        }
        DaemonStep::Dropped { bfid } => kind == 13 && *bfid == BFID,
        DaemonStep::Restart => kind == 14,
        DaemonStep::Age { age } => kind == 15 && *age == 86_400,
    }
}

fn is_log(payload: &DaemonPayload, bytes: &[u8]) -> bool {
    let kind = byte_at(bytes, 0);
    match payload {
        DaemonPayload::Head { head } => kind == 1 && is_head(head, byte_at(bytes, 16)),
        DaemonPayload::Record { record } => record.time == Secs(5) && is_step(&record.step, kind),
        DaemonPayload::Upgrade { time } => kind == 16 && *time == Secs(5),
        DaemonPayload::Row { .. } => false,
    }
}

// Whether it is written as these bytes. A head of version 1 never is.
fn is_log_written(payload: &DaemonPayload, bytes: &[u8]) -> bool
    requires fits { FitsLog payload.now }
    requires spelled { bytes.now ≡ spelling payload.now }
{
    let mut out = [0; ROOM];
    if bytes.len() > ROOM {
        return false;
    }
    let end = match payload {
        DaemonPayload::Head { head } => match head.version {
            JournalVersion::First => return true,
            JournalVersion::Second => put_head(head, &mut out, 0),
        },
        DaemonPayload::Record { record } => {
            if record_len(record) != bytes.len() {
                return false;
            }
            put_record(record, &mut out, 0)
        }
        DaemonPayload::Upgrade { time } => put_upgrade(*time, &mut out, 0),
        DaemonPayload::Row { .. } => return false,
    };
    front(&out, end) == bytes
}

fn is_log_told(alloc: Global, bytes: &[u8]) -> Result<bool, ReadError> {
    match read_log(alloc, bytes) {
        Ok(payload) => Ok(is_log(&payload, bytes) && is_log_written(&payload, bytes)),
        Err(error) => Err(error),
    }
}

fn is_log_refused(alloc: Global, bytes: &[u8]) -> bool {
    match read_log(alloc, bytes) {
        Ok(_) => false,
        Err(error) => error == ReadError::Damaged,
    }
}

fn is_log_refused_cut(alloc: Global, bytes: &[u8]) -> bool {
    for len in 0..bytes.len() {
        if !is_log_refused(alloc, front(bytes, len)) {
            return false;
        }
    }
    true
}

#[test]
fn payloads_of_a_log(rt: HostRuntime) -> Result<(), Fail> {
    let alloc = rt.alloc();
    for text in logs() {
        let (bytes, len) = bytes_of(text);
        let given = front(&bytes, len);
        assert_eq!(rt; is_log_told(alloc, given), Ok(true), "{text}");
        assert!(rt; is_log_refused_cut(alloc, given), "cut: {text}");
        let longer = front(&bytes, len.wrapping_add(1));
        assert!(rt; is_log_refused(alloc, longer), "left over: {text}");
    }
    Ok(())
}

// The file that a first load leaves: a frame with a head, and a closed marker.
#[test]
fn a_new_journal(rt: HostRuntime) -> Result<(), Fail> {
    let text =
        "01 00000029 01 0000000000000000 444d4441454d4e32 0000000000000001 0000000000000001 0000000000000064 00";
    let (bytes, len) = bytes_of(text);
    assert_eq!(rt; len, 47);
    assert_eq!(rt; front(&bytes, 5), [1, 0, 0, 0, 41].as_slice());
    assert_eq!(rt; byte_at(&bytes, 46), 0);
    let Some((_, payload)) = front(&bytes, 46).split_at_checked(5) else {
        return Err(Fail::from(ReadError::Damaged));
    };
    assert_eq!(rt; is_log_told(rt.alloc(), payload), Ok(true));
    Ok(())
}

// No kind, a row, another name, a flag that is none, a path without a slash, a name without a letter.
#[test]
fn no_payloads_of_a_log(rt: HostRuntime) -> Result<(), Fail> {
    for text in [
        "",
        "00 0000000000000005",
        "11 0000000000000005",
        "26 03 6d6f6e 0000000000000004 0000000000000064",
        "01 0000000000000000 444d4441454d4e33 0000000000000001 0000000000000001 0000000000000064",
        "06 0000000000000005 0000000000000004 00000000000000010000000000000002 02",
        "07 0000000000000005 0004 612f6262",
        "09 0000000000000005 00",
    ] {
        let (bytes, len) = bytes_of(text);
        assert!(rt; is_log_refused(rt.alloc(), front(&bytes, len)), "{text}");
    }
    Ok(())
}

// ---- rows

// A row of each kind, and in each form.
fn rows() -> [&'static str; 12] {
    [
        "25 0000000000000005 0000000000000007 0000000000000003 444d4441454d4e32 0000000000000001 0000000000000001 0000000000000064 0000000000015180",
        "20 0000000000000005 0000000000000007 0000000000000003 444d4441454d4e31 0000000000000001 0000000000000001 0000000000000064",
        "21 0004 2f612f62 0000000000000004 0000000000000007 00 00000000000000000000000000000000 0000000000000005 68656c6c6f",
        "21 0004 2f612f62 0000000000000004 0000000000000007 01 00000000000000010000000000000002 0000000000000005 68656c6c6f",
        "21 0004 2f612f62 0000000000000004 0000000000000007 02 00000000000000010000000000000002 0000000000000005 68656c6c6f",
        "21 0004 2f612f62 0000000000000004 0000000000000007 03 00000000000000010000000000000002 0000000000000005",
        "22 00000000000000010000000000000002 0000000000000005 02 01 03 01 00 01 0000000000000004 00",
        "22 00000000000000010000000000000002 0000000000000005 02 01 03 01 00 00 0000000000000000 01",
        "26 03 6d6f6e 0000000000000004 0000000000000064",
        "23 03 6d6f6e 0000000000000004",
        "24 03 6d6f6e 0004 2f612f62 00 00000000000000000000000000000000 0000000000000005 68656c6c6f",
        "24 03 6d6f6e 0004 2f612f62 01 00000000000000010000000000000002 0000000000000005",
    ]
}

fn is_contents(contents: &Contents, form: u8) -> bool {
    match contents {
        Contents::Regular { bytes } => form == 0 && is_content(bytes),
        Contents::Making { bytes, bfid } => form == 1 && is_content(bytes) && *bfid == BFID,
        Contents::Dual { bytes, bfid } => form == 2 && is_content(bytes) && *bfid == BFID,
        Contents::Offline { len, bfid } => form == 3 && *len == 5 && *bfid == BFID,
    }
}

fn is_file(file: &DumpInode, named: u8) -> bool {
    match file {
        DumpInode::Kept { bytes } => named == 0 && is_content(bytes),
        DumpInode::Named { len, bfid } => named == 1 && *len == 5 && *bfid == BFID,
    }
}

fn is_entry(entry: &Entry) -> bool {
    let asked = [
        AskedCopy {
            group: GroupId(1),
            stored: true,
        },
        AskedCopy {
            group: GroupId(3),
            stored: false,
        },
    ];
    let gone = if entry.dropping { None } else { Some(Secs(4)) };
    entry.len == 5 && entry.copies.as_slice() == asked.as_slice() && entry.gone == gone
}

fn is_row(row: &DaemonRow, bytes: &[u8]) -> bool {
    let kind = byte_at(bytes, 0);
    match row {
        DaemonRow::State {
            time,
            change,
            counter,
            site,
            first,
            begun_age,
            age,
        } => {
            kind == 37
                && is_begun(*time, *change, *counter, *site, *first, *begun_age)
                && *age == 86_400
        }
        DaemonRow::OldState {
            time,
            change,
            counter,
            site,
            first,
            age,
        } => kind == 32 && is_begun(*time, *change, *counter, *site, *first, *age),
        DaemonRow::File { path, ino, inode } => {
            kind == 33
                && is_path(path)
                && *ino == Ino(4)
                && inode.change == 7
                && is_contents(&inode.contents, byte_at(bytes, 23))
        }
        DaemonRow::Bitfile { bfid, entry } => kind == 34 && *bfid == BFID && is_entry(entry),
        DaemonRow::Dump { name, made, least } => {
            kind == 38 && is_name(name) && *made == Secs(4) && *least == 100
        }
        DaemonRow::OldDump { name, made } => kind == 35 && is_name(name) && *made == Secs(4),
        DaemonRow::DumpFile { name, path, file } => {
            kind == 36 && is_name(name) && is_path(path) && is_file(file, byte_at(bytes, 11))
        }
    }
}

fn is_begun(time: Secs, change: u64, counter: u64, site: u64, first: u64, age: u64) -> bool {
    time == Secs(5) && change == 7 && counter == 3 && site == 1 && first == 1 && age == 100
}

// The row, lent. One of version 1 is never written.
fn lent(row: &DaemonRow) -> Option<LentRow<'_>>
    ensures { IfSome result (λ lent. row_of lent ≡ row.now) }
{
    match row {
        DaemonRow::State {
            time,
            change,
            counter,
            site,
            first,
            begun_age,
            age,
        } => Some(LentRow::State {
            time: *time,
            change: *change,
            counter: *counter,
            site: *site,
            first: *first,
            begun_age: *begun_age,
            age: *age,
        }),
        DaemonRow::File { path, ino, inode } => Some(LentRow::File {
            path,
            ino: *ino,
            inode,
        }),
        DaemonRow::Bitfile { bfid, entry } => Some(LentRow::Bitfile { bfid: *bfid, entry }),
        DaemonRow::Dump { name, made, least } => Some(LentRow::Dump {
            name,
            made: *made,
            least: *least,
        }),
        DaemonRow::DumpFile { name, path, file } => Some(LentRow::DumpFile { name, path, file }),
        DaemonRow::OldState { .. } => None,
        DaemonRow::OldDump { .. } => None,
    }
}

// Whether it is written as these bytes.
fn is_row_written(row: &DaemonRow, bytes: &[u8]) -> bool
    requires fits { FitsRow row.now }
    requires spelled { bytes.now ≡ row_spelling row.now }
{
    let mut out = [0; ROOM];
    if bytes.len() > ROOM {
        return false;
    }
    match lent(row) {
        Some(lent) => {
            if row_len(&lent) != bytes.len() {
                return false;
            }
            let end = put_row(&lent, &mut out, 0);
            front(&out, end) == bytes
        }
        None => true,
    }
}

fn is_row_told(alloc: Global, bytes: &[u8]) -> Result<bool, ReadError> {
    match read_row(alloc, bytes) {
        Ok(row) => Ok(is_row(&row, bytes) && is_row_written(&row, bytes)),
        Err(error) => Err(error),
    }
}

fn is_row_refused(alloc: Global, bytes: &[u8]) -> bool {
    match read_row(alloc, bytes) {
        Ok(_) => false,
        Err(error) => error == ReadError::Damaged,
    }
}

fn is_row_refused_cut(alloc: Global, bytes: &[u8]) -> bool {
    for len in 0..bytes.len() {
        if !is_row_refused(alloc, front(bytes, len)) {
            return false;
        }
    }
    true
}

#[test]
fn rows_of_a_checkpoint(rt: HostRuntime) -> Result<(), Fail> {
    let alloc = rt.alloc();
    for text in rows() {
        let (bytes, len) = bytes_of(text);
        let given = front(&bytes, len);
        assert_eq!(rt; is_row_told(alloc, given), Ok(true), "{text}");
        assert!(rt; is_row_refused_cut(alloc, given), "cut: {text}");
        let longer = front(&bytes, len.wrapping_add(1));
        assert!(rt; is_row_refused(alloc, longer), "left over: {text}");
    }
    Ok(())
}

// No kind, a payload of a log, the names exchanged, a form that is none, a bitfile of a file that has none, a flag that is
// none, a time that isn't there and not zero.
#[test]
fn no_rows_of_a_checkpoint(rt: HostRuntime) -> Result<(), Fail> {
    for text in [
        "",
        "1f 03 6d6f6e 0000000000000004",
        "27 03 6d6f6e 0000000000000004",
        "0e 0000000000000005",
        "25 0000000000000005 0000000000000007 0000000000000003 444d4441454d4e31 0000000000000001 0000000000000001 0000000000000064 0000000000015180",
        "20 0000000000000005 0000000000000007 0000000000000003 444d4441454d4e32 0000000000000001 0000000000000001 0000000000000064",
        "21 0004 2f612f62 0000000000000004 0000000000000007 04 00000000000000010000000000000002 0000000000000005",
        "21 0004 2f612f62 0000000000000004 0000000000000007 00 00000000000000010000000000000002 0000000000000005 68656c6c6f",
        "22 00000000000000010000000000000002 0000000000000005 02 01 03 01 02 00 0000000000000000 01",
        "22 00000000000000010000000000000002 0000000000000005 02 01 03 01 00 00 0000000000000004 01",
        "24 03 6d6f6e 0004 2f612f62 02 00000000000000010000000000000002 0000000000000005",
    ] {
        let (bytes, len) = bytes_of(text);
        assert!(rt; is_row_refused(rt.alloc(), front(&bytes, len)), "{text}");
    }
    Ok(())
}
