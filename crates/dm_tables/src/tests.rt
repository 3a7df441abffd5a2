use super::*;
use dm_base::{Bytes, Listed, NoMemory};
use std::alloc::Global;
use std::test::Fail;

fn text(alloc: Global, bytes: &[u8]) -> Result<Bytes, NoMemory> {
    Ok(Bytes::from_vec(Vec::from_slice(alloc, bytes)?))
}

#[test]
fn keeps_rows_by_number(rt: HostRuntime) -> Result<(), Fail> {
    let alloc = rt.alloc();
    let mut ages = Numbers::empty(alloc);
    assert!(rt; ages.is_empty());
    for (key, value) in [(30, 3u8), (10, 1), (20, 2), (10, 4)] {
        ages.insert(key, value)?;
    }
    assert_eq!(rt; ages.len(), 3);
    assert_eq!(rt; ages.get(10).copied(), Some(4));
    assert_eq!(rt; ages.get(11).copied(), None);
    assert!(rt; ages.contains(30));
    assert_eq!(rt; ages.replace(20, 5), Some(2));
    assert_eq!(rt; ages.replace(21, 6), None);
    assert_eq!(rt; ages.remove(30), Some(3));
    assert_eq!(rt; ages.remove(30), None);
    let mut rows = Vec::new(alloc);
    for (key, value) in ages.entries() {
        rows.push((*key, *value))?;
    }
    assert_eq!(rt; rows.as_slice(), [(10, 4), (20, 5)].as_slice());
    assert!(rt; matches!(ages.first_after(None), Some((10, 4))));
    assert!(rt; matches!(ages.first_after(Some(10)), Some((20, 5))));
    assert!(rt; ages.first_after(Some(20)).is_none());
    Ok(())
}

#[test]
fn keeps_rows_by_text(rt: HostRuntime) -> Result<(), Fail> {
    let alloc = rt.alloc();
    let mut sizes = Texts::empty(alloc);
    assert!(rt; sizes.is_empty());
    for (name, size) in [("/b", 1u8), ("/a/c", 2), ("/a", 3), ("/b", 4)] {
        sizes.insert(text(alloc, name.as_bytes())?, size)?;
    }
    assert_eq!(rt; sizes.len(), 3);
    assert_eq!(rt; sizes.get(b"/b").copied(), Some(4));
    assert_eq!(rt; sizes.get(b"/").copied(), None);
    assert!(rt; sizes.contains(b"/a"));
    assert_eq!(rt; sizes.replace(b"/a/c", 5), Some(2));
    assert_eq!(rt; sizes.replace(b"/a/", 6), None);
    assert_eq!(rt; sizes.remove(b"/b"), Some(4));
    assert_eq!(rt; sizes.remove(b"/b"), None);
    let mut rows = Vec::new(alloc);
    for (name, size) in sizes.entries() {
        rows.push((name.as_slice(), *size))?;
    }
    assert_eq!(rt; rows.len(), 2);
    assert_eq!(rt; rows[0].0, b"/a".as_slice());
    assert_eq!(rt; rows[0].1, 3);
    assert_eq!(rt; rows[1].0, b"/a/c".as_slice());
    assert_eq!(rt; rows[1].1, 5);
    let first = text(alloc, b"/a")?;
    let Some((next, size)) = sizes.first_after(Some(&first)) else {
        assert!(rt; false, "a row is left");
        return Ok(());
    };
    assert_eq!(rt; next.as_slice(), b"/a/c".as_slice());
    assert_eq!(rt; *size, 5);
    assert!(rt; sizes.first_after(Some(next)).is_none());
    Ok(())
}

struct Twice;

impl Change<u64> for Twice {
    ghost use Rattle.std.specs.Prelude.{ℕ, ◌*◌, cond, nat_lt};

    ghost changed = { λ _ row. cond (nat_lt row 1000) (row * 2) row };

    fn change(&self, row: u64) -> u64 {
        if row < 1000 { row * 2 } else { row }
    }
}

struct Equal(u64);

impl Test<u64> for Equal {
    ghost use Rattle.std.specs.Prelude.{nat_eq};

    ghost passes = { λ it row. nat_eq row it.0 };

    fn test(&self, row: &u64) -> bool {
        *row == self.0
    }
}

struct Itself;

impl Weight<u64> for Itself {
    ghost weight = { λ _ row. row };

    fn weigh(&self, row: &u64) -> u64 {
        *row
    }
}

#[test]
fn changes_each_row_and_asks_it(rt: HostRuntime) -> Result<(), Fail> {
    let alloc = rt.alloc();
    let mut sizes = Numbers::empty(alloc);
    for (key, size) in [(7, 3), (5, 18_446_744_073_709_551_615), (9, 4)] {
        sizes.insert(key, size)?;
    }
    assert!(rt; sizes.any(&Equal(4)));
    assert!(rt; !sizes.any(&Equal(5)));
    assert_eq!(rt; sizes.total(&Itself), 18_446_744_073_709_551_622);
    let copy = sizes.copied(alloc)?;
    let sizes = sizes.mapped(alloc, &Twice)?;
    assert_eq!(rt; copy.len(), 3);
    assert_eq!(rt; copy.get(7).copied(), Some(3));
    assert_eq!(rt; sizes.len(), 3);
    assert_eq!(rt; sizes.get(7).copied(), Some(6));
    assert_eq!(rt; sizes.get(9).copied(), Some(8));
    Ok(())
}

impl TryEdit<u64> for Twice {
    ghost use Rattle.std.specs.Prelude.{ℕ, ◌*◌, cond, nat_lt};

    ghost edited = { λ _ row. cond (nat_lt row 1000) (row * 2) row };

    fn try_edit(&self, row: &mut u64) -> Result<(), NoMemory> {
        *row = self.change(*row);
        Ok(())
    }
}

struct Key;

impl TryEditAt<u128> for Key {
    ghost edited = { λ _ key row. key };

    fn try_edit_at(&self, key: u128, row: &mut u128) -> Result<(), NoMemory> {
        *row = key;
        Ok(())
    }
}

#[test]
fn edits_rows_where_they_stand(rt: HostRuntime) -> Result<(), Fail> {
    let alloc = rt.alloc();
    let mut sizes = Numbers::empty(alloc);
    sizes.insert(7, 3u64)?;
    sizes.insert(9, 4)?;
    sizes.edit(7, &Twice)?;
    sizes.edit(8, &Twice)?;
    assert_eq!(rt; sizes.get(7).copied(), Some(6));
    assert_eq!(rt; sizes.get(9).copied(), Some(4));
    assert_eq!(rt; sizes.len(), 2);
    let mut names = Texts::empty(alloc);
    names.insert(text(alloc, b"/a")?, 3u64)?;
    names.edit(b"/a", &Twice)?;
    names.edit(b"/b", &Twice)?;
    let names = names.mapped(alloc, &Twice)?;
    assert_eq!(rt; names.get(b"/a").copied(), Some(12));
    assert_eq!(rt; names.len(), 1);
    let mut keys = Numbers::empty(alloc);
    keys.insert(5, 0u128)?;
    let keys = keys.edited(alloc, &Key)?;
    assert_eq!(rt; keys.get(5).copied(), Some(5));
    Ok(())
}

#[test]
fn copies_rows_by_text(rt: HostRuntime) -> Result<(), Fail> {
    let alloc = rt.alloc();
    let mut sizes = Texts::empty(alloc);
    sizes.insert(text(alloc, b"/a")?, 3u64)?;
    sizes.insert(text(alloc, b"/b")?, 4)?;
    assert!(rt; sizes.any(&Equal(3)));
    assert!(rt; !sizes.any(&Equal(5)));
    let mut copy = sizes.copied(alloc)?;
    copy.insert(text(alloc, b"/a")?, 5)?;
    assert_eq!(rt; copy.len(), 2);
    assert_eq!(rt; copy.get(b"/a").copied(), Some(5));
    assert_eq!(rt; copy.get(b"/b").copied(), Some(4));
    assert_eq!(rt; sizes.get(b"/a").copied(), Some(3));
    Ok(())
}

#[test]
fn copies_plain_values(rt: HostRuntime) -> Result<(), Fail> {
    let alloc = rt.alloc();
    let name = Some(text(alloc, b"tape")?);
    let Some(copy) = Copied::copied(&name, alloc)? else {
        assert!(rt; false, "there is a name");
        return Ok(());
    };
    assert_eq!(rt; copy.as_slice(), b"tape".as_slice());
    let bytes = Listed::from_vec(Vec::from_slice(alloc, [1u8, 2].as_slice())?);
    let bytes = Copied::copied(&bytes, alloc)?;
    assert_eq!(rt; bytes.as_slice(), [1u8, 2].as_slice());
    Ok(())
}
