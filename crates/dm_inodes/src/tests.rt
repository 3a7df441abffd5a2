use super::*;
use dm_base::{Bfid, Bytes, Ino, NoMemory};
use dm_durable::{Contents, Inode};
use std::alloc::Global;
use std::test::Fail;

fn put(inodes: &mut Inodes, alloc: Global, number: u64, text: &[u8]) -> Result<(), NoMemory> {
    let bytes = Bytes::from_vec(Vec::from_slice(alloc, text)?);
    let contents = Contents::Regular { bytes };
    let row = Box::new(
        alloc,
        (
            u128::from(number),
            Inode {
                change: number,
                contents,
            },
        ),
    )?;
    inodes.reserve(1, 1)?;
    inodes.insert(row);
    Ok(())
}

fn begin(inodes: &mut Inodes, alloc: Global, number: u64, bitfile: u128) -> Result<(), NoMemory> {
    let row = Box::new(alloc, (bitfile, 7))?;
    inodes.reserve(0, 1)?;
    inodes.know(row);
    inodes.begin_put(alloc, Ino(number), Bfid(bitfile));
    Ok(())
}

#[test]
fn a_file_goes_through_its_forms(rt: HostRuntime) -> Result<(), Fail> {
    let alloc = rt.alloc();
    let mut inodes = Inodes::empty(alloc);
    put(&mut inodes, alloc, 1, b"hello")?;
    put(&mut inodes, alloc, 2, b"you")?;
    assert_eq!(rt; inodes.size(), 8);
    begin(&mut inodes, alloc, 1, 40)?;
    assert!(rt; inodes.is_named(Bfid(40)) && !inodes.is_named(Bfid(41)));
    inodes.end_put(Ino(1), true);
    inodes.release(Ino(1));
    assert_eq!(rt; inodes.size(), 8);
    let offline = matches!(
        inodes.get(Ino(1)),
        Some(Inode {
            change: 1,
            contents: Contents::Offline {
                len: 5,
                bfid: Bfid(40)
            }
        })
    );
    assert!(rt; offline);
    inodes.recall(Ino(1), Bytes::from_vec(Vec::from_slice(alloc, b"HELLO")?));
    let online = inodes
        .get(Ino(1))
        .is_some_and(|inode| length_online(&inode.contents) == 5);
    assert!(rt; online);
    inodes.remove(Ino(1));
    assert!(rt; !inodes.is_named(Bfid(40)));
    inodes.forget(Bfid(40));
    assert_eq!(rt; inodes.size(), 3);
    assert_eq!(rt; inodes.len(), 1);
    Ok(())
}

#[test]
fn a_bitfile_is_let_go_by_the_last_that_names_it(rt: HostRuntime) -> Result<(), Fail> {
    let alloc = rt.alloc();
    let mut inodes = Inodes::empty(alloc);
    put(&mut inodes, alloc, 1, b"a")?;
    put(&mut inodes, alloc, 2, b"bc")?;
    begin(&mut inodes, alloc, 1, 40)?;
    begin(&mut inodes, alloc, 2, 40)?;
    assert_eq!(rt; inodes.end_put_at(0), Some(Bfid(40)));
    assert!(rt; inodes.is_named(Bfid(40)));
    assert_eq!(rt; inodes.end_put_at(0), None);
    assert_eq!(rt; inodes.end_put_at(1), Some(Bfid(40)));
    assert_eq!(rt; inodes.end_put_at(2), None);
    assert!(rt; !inodes.is_named(Bfid(40)));
    assert!(rt; matches!(inodes.entry(1), Some((2, _))));
    put(&mut inodes, alloc, 2, b"longer")?;
    assert_eq!(rt; inodes.size(), 7);
    Ok(())
}
