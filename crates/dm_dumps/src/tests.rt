use super::*;
use dm_base::{Bfid, Bytes, DumpName, Ino, NoMemory, Path, Secs};
use dm_durable::{Contents, DumpInode, Inode};
use dm_inodes::Inodes;
use dm_rows::TextRows;
use std::alloc::Global;
use std::process::Abort;
use std::test::Fail;

fn path(rt: &impl Abort, alloc: Global, text: &[u8]) -> Path {
    Path::of_bytes(alloc, text).expect(rt, "a path")
}

// A regular file.
fn add(
    alloc: Global,
    path: Path,
    names: &mut TextRows<Path, Ino>,
    inodes: &mut Inodes,
) -> Result<(), NoMemory> {
    let bytes = Bytes::from_vec(Vec::from_slice(alloc, b"hello")?);
    let inode = Inode {
        change: 1,
        contents: Contents::Regular { bytes },
    };
    let row = Box::new(alloc, (1, inode))?;
    let name = Box::new(alloc, (path, Ino(1)))?;
    names.reserve(1)?;
    inodes.reserve(1, 0)?;
    names.insert_reserved(name);
    inodes.insert(row);
    Ok(())
}

fn dump_of(alloc: Global, path: Path) -> Result<KeptDump, NoMemory> {
    let mut names = TextRows::empty(alloc);
    let mut inodes = Inodes::empty(alloc);
    add(alloc, path, &mut names, &mut inodes)?;
    KeptDump::of_files(alloc, Secs(100), 10, &names, &inodes)
}

fn add_offline(dump: &mut KeptDump, alloc: Global, path: Path) -> Result<(), NoMemory> {
    let file = DumpInode::Named {
        len: 9,
        bfid: Bfid(7),
    };
    dump.insert(alloc, path, file)
}

#[test]
fn a_dump_has_all_files(rt: HostRuntime) -> Result<(), Fail> {
    let alloc = rt.alloc();
    let mut dump = dump_of(alloc, path(&rt, alloc, b"/b"))?;
    let added = add_offline(&mut dump, alloc, path(&rt, alloc, b"/a"));
    assert!(rt; added.is_ok());
    assert_eq!(rt; dump.size(), 5);
    assert_eq!(rt; dump.len(), 2);
    let first = matches!(
        dump.entry(0),
        Some((
            _,
            DumpInode::Named {
                len: 9,
                bfid: Bfid(7)
            }
        ))
    );
    assert!(rt; first);
    let named = dump
        .get(b"/a")
        .is_some_and(|file| bitfile_dumped(file) == Some(Bfid(7)));
    assert!(rt; named);
    Ok(())
}

fn keep(dumps: &mut Dumps, alloc: Global, name: DumpName, dump: KeptDump) -> Result<(), NoMemory> {
    let row = Box::new(alloc, (name, dump))?;
    dumps.reserve(1)?;
    dumps.insert(row);
    Ok(())
}

#[test]
fn dumps_are_kept_by_name(rt: HostRuntime) -> Result<(), Fail> {
    let alloc = rt.alloc();
    let dump = dump_of(alloc, path(&rt, alloc, b"/b"))?;
    let name = DumpName::of_bytes(alloc, b"d").expect(&rt, "a name");
    let mut dumps = Dumps::empty(alloc);
    let kept = keep(&mut dumps, alloc, name, dump);
    assert!(rt; kept.is_ok());
    assert_eq!(rt; dumps.size(), 5);
    dumps.lower(4);
    let lowered = dumps
        .get(b"d")
        .is_some_and(|dump| dump.least() == 4 && dump.made() == Secs(100));
    assert!(rt; lowered);
    assert!(rt; dumps.entry(0).is_some() && dumps.len() == 1);
    dumps.remove(b"d");
    assert_eq!(rt; dumps.size(), 0);
    assert!(rt; dumps.get(b"d").is_none());
    Ok(())
}
