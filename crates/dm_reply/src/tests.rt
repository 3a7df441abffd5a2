//! Each text once, with the bytes that docs/COMMANDS.md shows. Times are those of a calendar outside this project.

use super::*;
use dm_base::{
    Bfid, Bytes, ConfKey, CopyFault, DumpName, FileRow, FileState, Finding, GroupId, Listed, Path,
    Reply, Secs, TextError, VolRow, VolState, Vsn,
};
use dm_host::MemSink;
use std::alloc::Global;
use std::test::*;

const FIRST_VOLUME: Vsn = Vsn(*b"AA0001");

fn sink(alloc: Global, piece: usize) -> MemSink {
    MemSink {
        taken: Vec::new(alloc),
        piece,
        fail: Vec::new(alloc),
        calls: 0,
        count: 0,
    }
}

fn takes_as(alloc: Global, reply: &Reply, piece: usize, text: &[u8]) -> bool {
    let mut sink = sink(alloc, piece);
    say(&mut sink, reply).is_ok() && sink.taken.as_slice() == text
}

// Whether the reply's text is this one, taken whole, in pieces of 7 and byte by byte.
fn prints(alloc: Global, reply: Reply, text: &[u8]) -> bool {
    takes_as(alloc, &reply, 100_000, text)
        && takes_as(alloc, &reply, 7, text)
        && takes_as(alloc, &reply, 1, text)
}

#[test]
fn numbers(rt: HostRuntime) {
    let alloc = rt.alloc();
    assert!(rt; prints(alloc, Reply::Done, b"ok\n"));
    let change = 9_223_372_036_854_775_807;
    assert!(rt;
        prints(
            alloc,
            Reply::Changed { change },
            b"ok 9223372036854775807\n"
        )
    );
    assert!(rt; prints(alloc, Reply::Dumped { files: 1 }, b"ok 1\n"));
    assert!(rt; prints(alloc, Reply::Deleted { entries: 0 }, b"ok 0\n"));
    assert!(rt;
        prints(
            alloc,
            Reply::Merged {
                moved: 268,
                freed: 2
            },
            b"ok 268 2\n"
        )
    );
    assert!(rt; prints(alloc, Reply::Queued, b"ok queued\n"));
    assert!(rt; prints(alloc, Reply::Reused { volumes: 2 }, b"ok 2\n"));
    let spaced = Reply::Spaced {
        released: 2,
        stored: 3,
        skipped: 0,
    };
    assert!(rt; prints(alloc, spaced, b"ok 2 3 0\n"));
    assert!(rt; prints(alloc, Reply::Moved { files: 1, bytes: 5 }, b"ok 1 5\n"));
    assert!(rt; prints(alloc, Reply::Saved { bitfiles: 1 }, b"ok 1\n"));
}

#[test]
fn contents(rt: HostRuntime) -> Result<(), Fail> {
    let alloc = rt.alloc();
    let bfid = Bfid::of(1, 9_223_372_036_854_775_807);
    assert!(rt;
        prints(
            alloc,
            Reply::Stored { bfid },
            b"ok 00000000000000017fffffffffffffff\n"
        )
    );
    let bytes = Bytes::from_vec(Vec::from_slice(alloc, b"helXY")?);
    assert!(rt; prints(alloc, Reply::Content { bytes }, b"ok 5\nhelXY\n"));
    let none = Bytes::from_vec(Vec::new(alloc));
    assert!(rt; prints(alloc, Reply::Content { bytes: none }, b"ok 0\n\n"));
    Ok(())
}

#[test]
fn refusals_without_numbers(rt: HostRuntime) {
    let alloc = rt.alloc();
    assert!(rt; prints(alloc, Reply::NoFile, b"err nofile\n"));
    assert!(rt; prints(alloc, Reply::NoDump, b"err nodump\n"));
    assert!(rt; prints(alloc, Reply::Exists, b"err exists\n"));
    assert!(rt; prints(alloc, Reply::DaemonFault, b"err daemon\n"));
    assert!(rt; prints(alloc, Reply::NoMemory, b"err memory\n"));
    assert!(rt; prints(alloc, Reply::NoGroup, b"err nogroup\n"));
    assert!(rt; prints(alloc, Reply::QueueFull, b"err queue 16\n"));
    assert!(rt; prints(alloc, Reply::NoSave, b"err nosave\n"));
    assert!(rt; prints(alloc, Reply::NoBitfile, b"err nobitfile\n"));
    assert!(rt; prints(alloc, Reply::Syntax, b"err syntax\n"));
}

#[test]
fn refusals_with_numbers(rt: HostRuntime) {
    let alloc = rt.alloc();
    let changed = Reply::ChangedMeanwhile { was: 1, found: 2 };
    assert!(rt; prints(alloc, changed, b"err changed 1 2\n"));
    let full = Reply::Full {
        have: 8,
        need: 3,
        cap: 10,
    };
    assert!(rt; prints(alloc, full, b"err full 8 3 10\n"));
    let expired = Reply::Expired {
        now: Secs(5100),
        made: Secs(5000),
        age: 100,
    };
    assert!(rt; prints(alloc, expired, b"err expired 5100 5000 100\n"));
    assert!(rt;
        prints(
            alloc,
            Reply::NoRoom {
                have: 840,
                need: 841
            },
            b"err room 840 841\n"
        )
    );
    assert!(rt;
        prints(
            alloc,
            Reply::GroupFault { group: GroupId(2) },
            b"err group 2\n"
        )
    );
    let damaged = Reply::Damaged {
        group: GroupId(1),
        vsn: FIRST_VOLUME,
        place: 144,
    };
    assert!(rt; prints(alloc, damaged, b"err damage 1 AA0001 144\n"));
    let rewritten = Reply::Rewritten {
        vsn: FIRST_VOLUME,
        was: 1,
        found: 2,
    };
    assert!(rt; prints(alloc, rewritten, b"err rewritten AA0001 1 2\n"));
}

// Of files, dumps, saves, ages, numbers and of a payload.
#[test]
fn limits(rt: HostRuntime) {
    for (limit, text) in [
        (65_536, "err limit 65536\n"),
        (64, "err limit 64\n"),
        (4, "err limit 4\n"),
        (4_294_967_295, "err limit 4294967295\n"),
        (9_223_372_036_854_775_807, "err limit 9223372036854775807\n"),
        (16_777_216, "err limit 16777216\n"),
    ] {
        assert!(rt;
            prints(rt.alloc(), Reply::Limit { limit }, text.as_bytes()),
            "{text}"
        );
    }
}

fn names_state(alloc: Global, found: FileState, text: &[u8]) -> bool {
    prints(alloc, Reply::WrongState { found }, text)
}

#[test]
fn states(rt: HostRuntime) {
    let alloc = rt.alloc();
    assert!(rt; names_state(alloc, FileState::Regular, b"err state REG\n"));
    assert!(rt; names_state(alloc, FileState::Migrating, b"err state MIG\n"));
    assert!(rt; names_state(alloc, FileState::Dual, b"err state DUL\n"));
    assert!(rt; names_state(alloc, FileState::Offline, b"err state OFL\n"));
    assert!(rt; names_state(alloc, FileState::Unmigrating, b"err state UNM\n"));
}

// Copies are named in the order in which they were asked for, and not in that of their groups.
#[test]
fn copies(rt: HostRuntime) {
    let alloc = rt.alloc();
    let second = CopyFault {
        group: GroupId(2),
        faults: 3,
        damaged: None,
    };
    let first = CopyFault {
        group: GroupId(1),
        faults: 1,
        damaged: None,
    };
    let both = Reply::AllCopies {
        copies: [Some(second), Some(first)],
    };
    assert!(rt; prints(alloc, both, b"err copies 2:3 1:1\n"));
    let damaged = CopyFault {
        group: GroupId(1),
        faults: 0,
        damaged: Some((FIRST_VOLUME, 144)),
    };
    let one = Reply::AllCopies {
        copies: [Some(damaged), None],
    };
    assert!(rt; prints(alloc, one, b"err copies 1:damaged\n"));
}

fn file(
    alloc: Global,
    path: &[u8],
    state: FileState,
    len: u64,
    bfid: Option<Bfid>,
) -> Result<FileRow, TextError> {
    Ok(FileRow {
        path: Path::of_bytes(alloc, path)?,
        state,
        len,
        change: 2,
        bfid,
    })
}

#[test]
fn files(rt: HostRuntime) -> Result<(), Fail> {
    let alloc = rt.alloc();
    let mut rows = Vec::new(alloc);
    rows.push(file(alloc, b"/a", FileState::Offline, 6, None)?)?;
    rows.push(file(alloc, b"/c/d", FileState::Dual, 123_456_789_012_345, None)?)?;
    let text = b"ok 2\nOFL            6 /a\nDUL 123456789012345 /c/d\n";
    assert!(rt;
        prints(
            alloc,
            Reply::Files {
                rows: Listed::from_vec(rows)
            },
            text
        )
    );
    let none = Listed::from_vec(Vec::new(alloc));
    assert!(rt; prints(alloc, Reply::Files { rows: none }, b"ok 0\n"));
    let plain = file(alloc, b"/a", FileState::Regular, 5, None)?;
    assert!(rt; prints(alloc, Reply::File { row: plain }, b"ok REG 5 2 -\n"));
    let stored = file(alloc, b"/a", FileState::Offline, 5, Some(Bfid::of(1, 1)))?;
    let text = b"ok OFL 5 2 00000000000000010000000000000001\n";
    assert!(rt; prints(alloc, Reply::File { row: stored }, text));
    Ok(())
}

fn volume(state: VolState, tip: u64, live: u64) -> VolRow {
    VolRow {
        vsn: FIRST_VOLUME,
        state,
        tip,
        live,
    }
}

fn lists_volume(alloc: Global, row: VolRow, text: &[u8]) -> Result<bool, Fail> {
    let rows = Listed::from_vec(vec![in alloc; row]?);
    Ok(prints(alloc, Reply::Volumes { rows }, text))
}

#[test]
fn volumes(rt: HostRuntime) -> Result<(), Fail> {
    let alloc = rt.alloc();
    let empty = volume(VolState::Empty, 64, 0);
    assert!(rt;
        lists_volume(
            alloc,
            empty,
            b"ok 1\nAA0001 EMPTY         64          0 -\n"
        )?
    );
    let filling = volume(VolState::Filling, 149, 5);
    assert!(rt;
        lists_volume(
            alloc,
            filling,
            b"ok 1\nAA0001 FILL         149          5 -\n"
        )?
    );
    let full = volume(VolState::Full, 424, 280);
    assert!(rt; lists_volume(alloc, full, b"ok 1\nAA0001 FULL         424        280 -\n")?);
    let held = volume(VolState::Held(Secs(1000)), 149, 0);
    let text = b"ok 1\nAA0001 HELD         149          0 1970-01-01T00:16:40Z\n";
    assert!(rt; lists_volume(alloc, held, text)?);
    Ok(())
}

fn shows_time(alloc: Global, seconds: u64, text: &[u8]) -> Result<bool, Fail> {
    let mut row = Vec::from_slice(alloc, b"ok 1\nAA0001 HELD          64          0 ")?;
    row.extend_from_slice(text)?;
    row.push(b'\n')?;
    lists_volume(
        alloc,
        volume(VolState::Held(Secs(seconds)), 64, 0),
        row.as_slice(),
    )
}

#[test]
fn times(rt: HostRuntime) -> Result<(), Fail> {
    let alloc = rt.alloc();
    assert!(rt; shows_time(alloc, 0, b"1970-01-01T00:00:00Z")?);
    assert!(rt; shows_time(alloc, 951_782_400, b"2000-02-29T00:00:00Z")?);
    assert!(rt; shows_time(alloc, 4_107_542_399, b"2100-02-28T23:59:59Z")?);
    assert!(rt; shows_time(alloc, 4_107_542_400, b"2100-03-01T00:00:00Z")?);
    assert!(rt; shows_time(alloc, 253_370_764_799, b"9998-12-31T23:59:59Z")?);
    assert!(rt; shows_time(alloc, 253_370_764_800, b"253370764800s")?);
    assert!(rt; shows_time(alloc, 18_446_744_073_709_551_615, b"18446744073709551615s")?);
    Ok(())
}

fn finds(alloc: Global, finding: Finding, text: &[u8]) -> Result<bool, Fail> {
    let mut rows = Vec::new(alloc);
    rows.push(finding)?;
    Ok(prints(
        alloc,
        Reply::Findings {
            rows: Listed::from_vec(rows),
        },
        text,
    ))
}

#[test]
fn findings_of_groups(rt: HostRuntime) -> Result<(), Fail> {
    let alloc = rt.alloc();
    let group = GroupId(1);
    let vsn = FIRST_VOLUME;
    let bfid = Bfid::of(1, 1);
    let text = b"ok 1\nnocopy 1 00000000000000010000000000000001\n";
    assert!(rt; finds(alloc, Finding::NoCopy { group, bfid }, text)?);
    let text = b"ok 1\nstray 1 00000000000000010000000000000001\n";
    assert!(rt; finds(alloc, Finding::Stray { group, bfid }, text)?);
    let text = b"ok 1\nshort 1 00000000000000010000000000000001 4 5\n";
    assert!(rt;
        finds(
            alloc,
            Finding::Short {
                group,
                bfid,
                have: 4,
                need: 5
            },
            text
        )?
    );
    let overlap = Finding::Overlap {
        group,
        vsn,
        place: 144,
        other: 148,
    };
    assert!(rt; finds(alloc, overlap, b"ok 1\noverlap 1 AA0001 144 148\n")?);
    let beyond = Finding::Beyond {
        group,
        vsn,
        place: 144,
        tip: 64,
    };
    assert!(rt; finds(alloc, beyond, b"ok 1\nbeyond 1 AA0001 144 64\n")?);
    let live = Finding::LiveSum {
        group,
        vsn,
        kept: 5,
        sum: 6,
    };
    assert!(rt; finds(alloc, live, b"ok 1\nlive 1 AA0001 5 6\n")?);
    assert!(rt;
        finds(
            alloc,
            Finding::BadLabel { group, vsn },
            b"ok 1\nlabel 1 AA0001\n"
        )?
    );
    let chunk = Finding::BadChunk {
        group,
        vsn,
        place: 144,
    };
    assert!(rt; finds(alloc, chunk, b"ok 1\nchunk 1 AA0001 144\n")?);
    Ok(())
}

#[test]
fn findings_of_files(rt: HostRuntime) -> Result<(), Fail> {
    let alloc = rt.alloc();
    let bfid = Bfid::of(1, 1);
    let text = b"ok 1\nnoentry /a 00000000000000010000000000000001\n";
    let path = Path::of_bytes(alloc, b"/a")?;
    assert!(rt; finds(alloc, Finding::NoEntry { path, bfid }, text)?);
    let text = b"ok 1\ngone /a 00000000000000010000000000000001\n";
    let path = Path::of_bytes(alloc, b"/a")?;
    assert!(rt; finds(alloc, Finding::Gone { path, bfid }, text)?);
    let text = b"ok 1\nlost d 00000000000000010000000000000001\n";
    let name = DumpName::of_bytes(alloc, b"d")?;
    assert!(rt; finds(alloc, Finding::Lost { name, bfid }, text)?);
    Ok(())
}

// A short reply is one write, a longer file three, and many rows take a write for each 3,712 to 4,096 bytes.
#[test]
fn few_writes(rt: HostRuntime) -> Result<(), Fail> {
    let alloc = rt.alloc();
    let mut short = sink(alloc, 100_000);
    let mut long = sink(alloc, 100_000);
    let fits = Bytes::from_vec(vec![in alloc; 65; 400]?);
    let longer = Bytes::from_vec(vec![in alloc; 65; 5000]?);
    assert!(rt; say(&mut short, &Reply::Content { bytes: fits }).is_ok());
    assert!(rt; say(&mut long, &Reply::Content { bytes: longer }).is_ok());
    assert_eq!(rt; short.calls, 1);
    assert_eq!(rt; short.taken.len(), 408);
    assert_eq!(rt; long.calls, 3);
    assert_eq!(rt; long.taken.len(), 5009);
    let mut many = sink(alloc, 100_000);
    let rows = Listed::from_vec(vec![in alloc; volume(VolState::Empty, 64, 0); 1000]?);
    assert!(rt; say(&mut many, &Reply::Volumes { rows }).is_ok());
    assert_eq!(rt; many.taken.len(), 37_008);
    assert!(rt; many.calls <= 10);
    Ok(())
}

#[test]
fn a_write_fails(rt: HostRuntime) -> Result<(), Fail> {
    let alloc = rt.alloc();
    let mut sink = sink(alloc, 4);
    sink.fail.push(2)?;
    assert_eq!(rt; say(&mut sink, &Reply::NoFile), Err(SayError::Failed));
    assert_eq!(rt; sink.taken.as_slice(), b"err ".as_slice());
    assert_eq!(rt; sink.count, 1);
    Ok(())
}

#[test]
fn nothing_is_taken(rt: HostRuntime) {
    let mut sink = sink(rt.alloc(), 0);
    assert_eq!(rt; say(&mut sink, &Reply::NoFile), Err(SayError::NothingTaken));
    assert_eq!(rt; sink.taken.len(), 0);
}

fn tells(alloc: Global, fatal: Fatal, text: &[u8]) -> bool {
    let mut sink = sink(alloc, 7);
    say_fatal(&mut sink, &fatal).is_ok() && sink.taken.as_slice() == text
}

fn names_key(alloc: Global, key: ConfKey, text: &[u8]) -> bool {
    tells(alloc, Fatal::Config { key }, text)
}

// Each key once; the groups' with the numbers 1 to 4.
const KEYS: [(ConfKey, &str); 22] = [
    (ConfKey::Length, "fatal config length\n"),
    (ConfKey::Toml, "fatal config toml\n"),
    (ConfKey::Site, "fatal config site\n"),
    (ConfKey::First, "fatal config first\n"),
    (ConfKey::Age, "fatal config age\n"),
    (ConfKey::Cap, "fatal config cap\n"),
    (ConfKey::Sessions, "fatal config sessions\n"),
    (ConfKey::Copies, "fatal config copies\n"),
    (ConfKey::Group, "fatal config group\n"),
    (
        ConfKey::GroupDrives { group: GroupId(1) },
        "fatal config group.1.drives\n",
    ),
    (
        ConfKey::GroupChunk { group: GroupId(2) },
        "fatal config group.2.chunk\n",
    ),
    (
        ConfKey::GroupSparse { group: GroupId(3) },
        "fatal config group.3.sparse\n",
    ),
    (
        ConfKey::GroupHold { group: GroupId(4) },
        "fatal config group.4.hold\n",
    ),
    (
        ConfKey::GroupVolumes { group: GroupId(1) },
        "fatal config group.1.volumes\n",
    ),
    (
        ConfKey::GroupSize { group: GroupId(2) },
        "fatal config group.2.size\n",
    ),
    (
        ConfKey::GroupFormat { group: GroupId(3) },
        "fatal config group.3.format\n",
    ),
    (ConfKey::SpaceHigh, "fatal config space.high\n"),
    (ConfKey::SpaceLow, "fatal config space.low\n"),
    (ConfKey::SpaceAhead, "fatal config space.ahead\n"),
    (ConfKey::SpaceAgeWeight, "fatal config space.age_weight\n"),
    (ConfKey::SpaceSizeWeight, "fatal config space.size_weight\n"),
    (ConfKey::Unknown, "fatal config unknown\n"),
];

#[test]
fn keys(rt: HostRuntime) {
    for (key, text) in KEYS {
        assert!(rt; names_key(rt.alloc(), key, text.as_bytes()), "{text}");
    }
}

#[test]
fn fatal_lines(rt: HostRuntime) {
    let alloc = rt.alloc();
    assert!(rt;
        tells(
            alloc,
            Fatal::Damaged { file: 0, place: 0 },
            b"fatal damaged 0 0\n"
        )
    );
    let finding = Finding::Stray {
        group: GroupId(1),
        bfid: Bfid::of(1, 1),
    };
    let text = b"fatal tables stray 1 00000000000000010000000000000001\n";
    assert!(rt; tells(alloc, Fatal::Tables { finding }, text));
}
