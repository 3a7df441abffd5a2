ghost use Rattle.std.specs.Prelude.{◌≡◌, ◌+◌, ◌≤◌, length, IfOk};

use super::*;
use dm_base::{Bytes, DumpName, NoMemory, Path, Secs};
use std::alloc::Global;
use std::test::*;

fn path(alloc: Global, text: &[u8]) -> Result<Path, NoMemory> {
    Path::of_bytes(alloc, text).map_err(|_| NoMemory)
}

fn name(alloc: Global, text: &[u8]) -> Result<DumpName, NoMemory> {
    DumpName::of_bytes(alloc, text).map_err(|_| NoMemory)
}

fn bytes(alloc: Global, text: &[u8]) -> Result<Bytes, NoMemory>
    ensures { IfOk result (λ bytes. bytes ≡ text.now) }
{
    Ok(Bytes::from_vec(Vec::from_slice(alloc, text)?))
}

fn write(alloc: Global, files: &mut Plain, text: &[u8], held: &[u8]) -> Result<(), NoMemory> {
    let step = PlainStep::Write {
        path: path(alloc, text)?,
        bytes: bytes(alloc, held)?,
    };
    files.apply(alloc, &step)
}

fn patch(
    alloc: Global,
    files: &mut Plain,
    text: &[u8],
    offset: u64,
    piece: &[u8],
) -> Result<(), NoMemory>
    requires { offset + length piece.now ≤ 16777216 }
{
    let step = PlainStep::Patch {
        path: path(alloc, text)?,
        offset,
        bytes: bytes(alloc, piece)?,
    };
    files.apply(alloc, &step)
}

fn remove(alloc: Global, files: &mut Plain, text: &[u8]) -> Result<(), NoMemory> {
    let step = PlainStep::Remove {
        path: path(alloc, text)?,
    };
    files.apply(alloc, &step)
}

fn dump(alloc: Global, files: &mut Plain, text: &[u8]) -> Result<(), NoMemory> {
    let step = PlainStep::Dump {
        name: name(alloc, text)?,
    };
    files.apply(alloc, &step)
}

fn undump(alloc: Global, files: &mut Plain, text: &[u8]) -> Result<(), NoMemory> {
    let step = PlainStep::Undump {
        name: name(alloc, text)?,
    };
    files.apply(alloc, &step)
}

fn restore(
    alloc: Global,
    files: &mut Plain,
    dump: &[u8],
    from: &[u8],
    to: &[u8],
) -> Result<(), NoMemory> {
    let step = PlainStep::Restore {
        name: name(alloc, dump)?,
        path: path(alloc, from)?,
        target: path(alloc, to)?,
    };
    files.apply(alloc, &step)
}

fn holds(alloc: Global, files: &Plain, text: &[u8], held: &[u8]) -> bool {
    let Ok(path) = path(alloc, text) else {
        return false;
    };
    match files.read(&path) {
        Some(found) => found == held,
        None => false,
    }
}

fn lacks(alloc: Global, files: &Plain, text: &[u8]) -> bool {
    match path(alloc, text) {
        Ok(path) => files.read(&path).is_none(),
        Err(_) => false,
    }
}

#[test]
fn writes_patches_and_removes(rt: HostRuntime) -> Result<(), Fail> {
    let alloc = rt.alloc();
    let mut files = Plain::empty(alloc, 10);
    write(alloc, &mut files, b"/b", b"one")?;
    write(alloc, &mut files, b"/a/b", b"two")?;
    write(alloc, &mut files, b"/b", b"three")?;
    assert!(rt; holds(alloc, &files, b"/b", b"three"));
    assert!(rt; holds(alloc, &files, b"/a/b", b"two"));
    assert!(rt; lacks(alloc, &files, b"/a"));

    write(alloc, &mut files, b"/a", b"hello")?;
    patch(alloc, &mut files, b"/a", 3, b"XY")?;
    assert!(rt; holds(alloc, &files, b"/a", b"helXY"));
    patch(alloc, &mut files, b"/a", 1, b"--")?;
    assert!(rt; holds(alloc, &files, b"/a", b"h--XY"));
    patch(alloc, &mut files, b"/a", 7, b"")?;
    assert!(rt; holds(alloc, &files, b"/a", b"h--XY\0\0"));
    patch(alloc, &mut files, b"/a", 8, b"Z")?;
    assert!(rt; holds(alloc, &files, b"/a", b"h--XY\0\0\0Z"));
    patch(alloc, &mut files, b"/c", 0, b"Z")?;
    assert!(rt; lacks(alloc, &files, b"/c"));

    remove(alloc, &mut files, b"/a")?;
    remove(alloc, &mut files, b"/c")?;
    assert!(rt; lacks(alloc, &files, b"/a"));
    assert!(rt; holds(alloc, &files, b"/b", b"three"));
    Ok(())
}

#[test]
fn an_age_leaves_files_and_dumps(rt: HostRuntime) -> Result<(), Fail> {
    let alloc = rt.alloc();
    let mut files = Plain::empty(alloc, 10);
    write(alloc, &mut files, b"/a", b"old")?;
    dump(alloc, &mut files, b"d")?;
    files.apply(alloc, &PlainStep::Age { age: 3 })?;
    dump(alloc, &mut files, b"e")?;
    files.apply(alloc, &PlainStep::Age { age: 200 })?;
    remove(alloc, &mut files, b"/a")?;
    restore(alloc, &mut files, b"d", b"/a", b"/b")?;
    restore(alloc, &mut files, b"e", b"/a", b"/c")?;
    assert!(rt; holds(alloc, &files, b"/b", b"old"));
    assert!(rt; holds(alloc, &files, b"/c", b"old"));
    Ok(())
}

#[test]
fn dumps_and_restores(rt: HostRuntime) -> Result<(), Fail> {
    let alloc = rt.alloc();
    let mut files = Plain::empty(alloc, 10);
    write(alloc, &mut files, b"/a", b"old")?;
    write(alloc, &mut files, b"/c", b"kept")?;
    files.apply(alloc, &PlainStep::Time { now: Secs(7) })?;
    dump(alloc, &mut files, b"d")?;
    write(alloc, &mut files, b"/a", b"new")?;
    remove(alloc, &mut files, b"/c")?;
    restore(alloc, &mut files, b"d", b"/a", b"/b")?;
    assert!(rt; holds(alloc, &files, b"/b", b"old"));
    assert!(rt; holds(alloc, &files, b"/a", b"new"));
    restore(alloc, &mut files, b"d", b"/c", b"/a")?;
    assert!(rt; holds(alloc, &files, b"/a", b"kept"));

    restore(alloc, &mut files, b"e", b"/a", b"/b")?;
    restore(alloc, &mut files, b"d", b"/e", b"/b")?;
    assert!(rt; holds(alloc, &files, b"/b", b"old"));

    dump(alloc, &mut files, b"d")?;
    restore(alloc, &mut files, b"d", b"/a", b"/b")?;
    assert!(rt; holds(alloc, &files, b"/b", b"kept"));
    undump(alloc, &mut files, b"d")?;
    restore(alloc, &mut files, b"d", b"/a", b"/e")?;
    assert!(rt; lacks(alloc, &files, b"/e"));
    Ok(())
}
