use super::*;
use dm_base::{Bytes, DumpName, NoMemory, Path, Vsn};
use std::alloc::Global;
use std::process::Abort;
use std::test::Fail;

struct Add(u64);

impl Edit<u64> for Add {
    ghost use Rattle.std.specs.Prelude.{ℕ, ◌+◌, cond, nat_lt};

    ghost edited = { λ it row. cond (nat_lt row 1000) (cond (nat_lt it.0 1000) (row + it.0) row) row };

    fn edit(&self, row: &mut u64) {
        if *row < 1000 && self.0 < 1000 {
            *row += self.0;
        }
    }
}

fn put(rows: &mut NumberRows<u64>, alloc: Global, key: u128, value: u64) -> Result<bool, NoMemory> {
    let row = Box::new(alloc, (key, value))?;
    rows.reserve(1)?;
    rows.insert_reserved(row);
    Ok(true)
}

#[test]
fn rows_by_number_are_in_order(rt: HostRuntime) -> Result<(), Fail> {
    let alloc = rt.alloc();
    let mut rows = NumberRows::empty(alloc);
    assert!(rt; rows.is_empty());
    for (key, value) in [(30, 3u64), (10, 1), (20, 2), (10, 4)] {
        assert!(rt; put(&mut rows, alloc, key, value)?);
    }
    assert_eq!(rt; rows.len(), 3);
    assert_eq!(rt; rows.get(10).copied(), Some(4));
    assert_eq!(rt; rows.get(11).copied(), None);
    assert!(rt; rows.contains(30) && !rows.contains(31));
    assert!(rt; matches!(rows.entry(1), Some((20, 2))));
    assert!(rt; rows.entry(3).is_none());
    assert_eq!(rt; rows.rank(20), 1);
    assert_eq!(rt; rows.rank(21), 2);
    assert!(rt; matches!(rows.first_after(None), Some((10, 4))));
    assert!(rt; matches!(rows.first_after(Some(10)), Some((20, 2))));
    assert!(rt; matches!(rows.first_after(Some(15)), Some((20, 2))));
    assert!(rt; rows.first_after(Some(30)).is_none());
    Ok(())
}

#[test]
fn rows_by_number_are_changed_and_taken_out(rt: HostRuntime) -> Result<(), Fail> {
    let alloc = rt.alloc();
    let mut rows = NumberRows::empty(alloc);
    for key in 1..4u64 {
        assert!(rt; put(&mut rows, alloc, u128::from(key), key)?);
    }
    assert!(rt; rows.change(2, &Add(10)));
    assert!(rt; !rows.change(4, &Add(10)));
    rows.change_all(&Add(100));
    assert_eq!(rt; rows.get(1).copied(), Some(101));
    assert_eq!(rt; rows.get(2).copied(), Some(112));
    // The place of a row that was taken out serves for another.
    let Some(mut row) = rows.take(2) else {
        assert!(rt; false, "the row is there");
        return Ok(());
    };
    *row = (9, row.1);
    rows.insert_reserved(row);
    assert_eq!(rt; rows.get(9).copied(), Some(112));
    assert_eq!(rt; rows.remove(3), Some(103));
    assert_eq!(rt; rows.remove(3), None);
    assert!(rt; rows.take(3).is_none());
    assert_eq!(rt; rows.len(), 2);
    Ok(())
}

fn put_path(
    rt: &impl Abort,
    rows: &mut TextRows<Path, u64>,
    alloc: Global,
    key: &[u8],
    value: u64,
) -> Result<bool, NoMemory> {
    let path = Path::of_bytes(alloc, key).expect(rt, "a path");
    let row = Box::new(alloc, (path, value))?;
    rows.reserve(1)?;
    rows.insert_reserved(row);
    Ok(true)
}

#[test]
fn rows_by_path_are_in_order(rt: HostRuntime) -> Result<(), Fail> {
    let alloc = rt.alloc();
    let mut rows = TextRows::empty(alloc);
    assert!(rt; rows.is_empty());
    assert!(rt; put_path(&rt, &mut rows, alloc, b"/b", 1)?);
    assert!(rt; put_path(&rt, &mut rows, alloc, b"/a/c", 2)?);
    assert!(rt; put_path(&rt, &mut rows, alloc, b"/a", 3)?);
    assert!(rt; put_path(&rt, &mut rows, alloc, b"/b", 4)?);
    assert_eq!(rt; rows.len(), 3);
    assert_eq!(rt; rows.get(b"/b").copied(), Some(4));
    assert!(rt; rows.contains(b"/a") && !rows.contains(b"/"));
    assert_eq!(rt; rows.rank(b"/a/c"), 1);
    assert_eq!(rt; rows.rank(b"/c"), 3);
    let Some((path, value)) = rows.entry(1) else {
        assert!(rt; false, "a row is there");
        return Ok(());
    };
    assert_eq!(rt; path.bytes(), b"/a/c".as_slice());
    assert_eq!(rt; *value, 2);
    let Some((path, value)) = rows.first_after(Some(b"/a/c")) else {
        assert!(rt; false, "a row is left");
        return Ok(());
    };
    assert_eq!(rt; path.bytes(), b"/b".as_slice());
    assert_eq!(rt; *value, 4);
    assert!(rt; rows.first_after(Some(b"/b")).is_none());
    assert!(rt; rows.first_after(None).is_some());
    Ok(())
}

#[test]
fn rows_by_path_are_changed_and_taken_out(rt: HostRuntime) -> Result<(), Fail> {
    let alloc = rt.alloc();
    let mut rows = TextRows::empty(alloc);
    assert!(rt; put_path(&rt, &mut rows, alloc, b"/a", 1)?);
    assert!(rt; put_path(&rt, &mut rows, alloc, b"/b", 2)?);
    assert!(rt; rows.change(b"/b", &Add(10)));
    assert!(rt; !rows.change(b"/c", &Add(10)));
    rows.change_all(&Add(100));
    assert_eq!(rt; rows.get(b"/b").copied(), Some(112));
    let Some(row) = rows.take(b"/b") else {
        assert!(rt; false, "the row is there");
        return Ok(());
    };
    assert_eq!(rt; row.0.bytes(), b"/b".as_slice());
    rows.insert_reserved(row);
    assert_eq!(rt; rows.remove(b"/a"), Some(101));
    assert_eq!(rt; rows.remove(b"/a"), None);
    assert_eq!(rt; rows.len(), 1);
    Ok(())
}

#[test]
fn other_texts_are_keys_too(rt: HostRuntime) -> Result<(), Fail> {
    let alloc = rt.alloc();
    let mut dumps = TextRows::empty(alloc);
    let name = DumpName::of_bytes(alloc, b"d1").expect(&rt, "a name");
    let row = Box::new(alloc, (name, 1u8))?;
    dumps.reserve(1)?;
    dumps.insert_reserved(row);
    assert_eq!(rt; dumps.get(b"d1").copied(), Some(1));
    let mut volumes = TextRows::empty(alloc);
    let row = Box::new(alloc, (Vsn(*b"AA0001"), 2u8))?;
    volumes.reserve(1)?;
    volumes.insert_reserved(row);
    assert_eq!(rt; volumes.get(b"AA0001").copied(), Some(2));
    let mut texts = TextRows::empty(alloc);
    let row = Box::new(alloc, (Bytes::from_vec(Vec::from_slice(alloc, b"x")?), 3u8))?;
    texts.reserve(1)?;
    texts.insert_reserved(row);
    assert_eq!(rt; texts.get(b"x").copied(), Some(3));
    Ok(())
}
