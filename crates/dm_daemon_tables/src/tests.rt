use super::*;
use dm_base::{Bfid, Bytes, DumpName, GroupId, Ino, Listed, NoMemory, Path, Secs};
use dm_durable::{Contents, DaemonRecord, DaemonStep, Entry};
use std::alloc::Global;
use std::process::Abort;
use std::test::Fail;

const FIRST: Bfid = Bfid(18_446_744_073_709_551_617);

// The step is prepared and done; whether there was memory.
fn done(tables: &mut Tables, time: u64, step: DaemonStep) -> bool {
    let next = DaemonRecord {
        time: Secs(time),
        step,
    };
    match tables.prepare(next) {
        Ok(prepared) => {
            tables.apply(prepared);
            true
        }
        Err(_) => false,
    }
}

fn path(rt: &impl Abort, alloc: Global, text: &[u8]) -> Path {
    Path::of_bytes(alloc, text).expect(rt, "a path")
}

fn write(rt: &impl Abort, alloc: Global, text: &[u8], change: u64) -> DaemonStep {
    DaemonStep::Write {
        path: path(rt, alloc, text),
        change,
        bytes: Bytes::from_vec(Vec::from_slice(alloc, b"hello").expect(rt, "memory")),
    }
}

fn begin(rt: &impl Abort, alloc: Global, text: &[u8]) -> DaemonStep {
    let groups: [GroupId; 2] = [GroupId(1), GroupId(3)];
    DaemonStep::BeginPut {
        path: path(rt, alloc, text),
        bfid: FIRST,
        groups: Listed::from_vec(Vec::from_slice(alloc, &groups).expect(rt, "memory")),
    }
}

fn is_stored(entry: &Entry) -> bool {
    entry.copies.as_slice().iter().all(|copy| copy.stored)
}

#[test]
fn a_file_is_put_released_and_removed(rt: HostRuntime) {
    let alloc = rt.alloc();
    let mut tables = Tables::empty(alloc, 1, 1, 10);
    assert!(rt; done(&mut tables, 100, write(&rt, alloc, b"/a", 1)));
    assert!(rt; done(&mut tables, 101, begin(&rt, alloc, b"/a")));
    assert_eq!(rt; tables.counter(), 2);
    tables.apply(Prepared::stored(Secs(102), FIRST, GroupId(3)));
    assert!(rt;
        tables
            .entry(FIRST)
            .is_some_and(|entry| entry.len == 5 && !is_stored(entry))
    );
    tables.apply(Prepared::stored(Secs(102), FIRST, GroupId(1)));
    assert!(rt; tables.entry(FIRST).is_some_and(|entry| is_stored(entry)));
    tables.apply(Prepared::end_put(Secs(103), Ino(1), FIRST, true));
    tables.apply(Prepared::release(Secs(104), &path(&rt, alloc, b"/a")));
    let offline = tables.inode(Ino(1)).is_some_and(|inode| matches!(
        inode.contents,
        Contents::Offline { len: 5, bfid: _ }
    ));
    assert!(rt; offline);
    assert_eq!(rt; tables.size(), 5);
    tables.apply(Prepared::remove(Secs(105), &path(&rt, alloc, b"/a"), 2));
    assert!(rt;
        tables
            .entry(FIRST)
            .is_some_and(|entry| entry.gone == Some(Secs(105)))
    );
    assert!(rt; tables.files() == 0 && tables.size() == 0 && tables.change() == 2);
}

#[test]
fn a_restart_ends_puts(rt: HostRuntime) {
    let alloc = rt.alloc();
    let mut tables = Tables::empty(alloc, 1, 1, 10);
    assert!(rt; done(&mut tables, 100, write(&rt, alloc, b"/a", 1)));
    assert!(rt; done(&mut tables, 101, begin(&rt, alloc, b"/a")));
    assert!(rt; tables.is_named(FIRST));
    tables.apply(Prepared::restart(Secs(102)));
    assert!(rt; !tables.is_named(FIRST));
    assert!(rt;
        tables
            .entry(FIRST)
            .is_some_and(|entry| entry.gone == Some(Secs(102)))
    );
    assert!(rt;
        matches!(
            tables.entry_after(None),
            Some((18_446_744_073_709_551_617, _))
        )
    );
}

fn restore(rt: &impl Abort, alloc: Global) -> DaemonStep {
    DaemonStep::Restore {
        name: DumpName::of_bytes(alloc, b"d").expect(rt, "a name"),
        path: path(rt, alloc, b"/a"),
        target: path(rt, alloc, b"/b"),
        change: 3,
    }
}

fn dump(rt: &impl Abort, alloc: Global) -> DaemonStep {
    DaemonStep::Dump {
        name: DumpName::of_bytes(alloc, b"d").expect(rt, "a name"),
    }
}

#[test]
fn a_dump_gives_a_file_back(rt: HostRuntime) {
    let alloc = rt.alloc();
    let mut tables = Tables::empty(alloc, 1, 1, 10);
    assert!(rt; done(&mut tables, 100, write(&rt, alloc, b"/a", 1)));
    assert!(rt; done(&mut tables, 101, dump(&rt, alloc)));
    assert_eq!(rt; tables.size(), 10);
    tables.apply(Prepared::remove(Secs(102), &path(&rt, alloc, b"/a"), 2));
    assert!(rt; done(&mut tables, 103, restore(&rt, alloc)));
    assert_eq!(rt; tables.ino(b"/b"), Some(Ino(3)));
    tables.apply(Prepared::age(Secs(104), 4));
    assert!(rt; tables.age() == 4 && tables.dump(b"d").is_some_and(|dump| dump.least() == 4));
    tables.apply(Prepared::undump(
        Secs(105),
        &DumpName::of_bytes(alloc, b"d").expect(&rt, "a name"),
    ));
    assert!(rt; tables.dumps() == 0 && tables.size() == 5 && tables.time() == Secs(105));
}

#[test]
fn an_entry_is_taken_and_dropped(rt: HostRuntime) {
    let alloc = rt.alloc();
    let mut tables = Tables::empty(alloc, 1, 1, 10);
    assert!(rt; done(&mut tables, 100, write(&rt, alloc, b"/a", 1)));
    assert!(rt; done(&mut tables, 101, begin(&rt, alloc, b"/a")));
    tables.apply(Prepared::end_put(Secs(102), Ino(1), FIRST, false));
    let bfids: [Bfid; 1] = [FIRST];
    let list = Listed::from_vec(Vec::from_slice(alloc, &bfids).expect(&rt, "memory"));
    tables.apply(Prepared::hard_delete(Secs(120), list));
    assert!(rt; tables.entry(FIRST).is_some_and(|entry| entry.dropping));
    tables.apply(Prepared::dropped(Secs(121), FIRST));
    assert_eq!(rt; tables.entries(), 0);
}
