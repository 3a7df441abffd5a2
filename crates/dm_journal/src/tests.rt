//! What no clause says: that calls succeed while nothing fails, and the bytes of a file. And callers that are generic
//! in their bay: a loop that loads, and two journals that are appended to in turn.
ghost use Rattle.std.specs.Prelude.{◌≡◌, ◌≢◌, ◌<◌, ℕ, List, [], None, IfOk, IfSome};
ghost use Rattle.dm_host.specs.Disk.{Tells};
ghost use Rattle.dm_host.specs.Works.{Works, Every};
ghost use Rattle.dm_journal.specs.Grammar.{Fits, StandsFor};
ghost use Rattle.dm_journal.specs.State.{Keeps};
ghost use Rattle.dm_journal.specs.Pair.{IsPrefix};

use crate::{Journal, LoadError, Loading};
use dm_host::{Bay, Failed, MemBay};
use std::alloc::Global;
use std::test::Fail;

// Appends to one journal and then to the other, on another file.
fn append_both<B: Bay>(
    bay: &mut B,
    first: &mut Journal,
    second: &mut Journal,
    one: &[u8],
    two: &[u8],
) -> Result<(), Failed>
    requires apart { second.old.file ≢ first.old.file }
    requires settled { (first.old.doubt ≡ None) × (second.old.doubt ≡ None) }
    requires size { Fits one.now × Fits two.now }
    requires first { Tells (B.disk bay.old) first.old.file → (ps : List (List ℕ)) × Keeps (B.disk bay.old) first.old ps }
    requires second { Tells (B.disk bay.old) second.old.file → (qs : List (List ℕ)) × Keeps (B.disk bay.old) second.old qs }
    ensures any_moment { (ps qs : List (List ℕ)) → Keeps (B.disk bay.old) first.old ps → Keeps (B.disk bay.old) second.old qs
        → Works Every (B.disk bay.old) (B.disk bay.new) (λ x. IsPrefix ps one.now (x first.old.file) qs two.now (x second.old.file)) }
{
    first.append(bay, one)?;
    second.append(bay, two)
}

// The journal of a file of fewer payloads than these; `None` where there are more.
fn load<B: Bay>(
    alloc: Global,
    bay: &mut B,
    file: u32,
    limit: usize,
) -> Result<Option<Journal>, LoadError>
    requires { file < 256 }
    ensures kept { Tells (B.disk bay.old) file → IfOk result (λ found. IfSome found (λ j. (ps : List (List ℕ)) × Keeps (B.disk bay.new) j ps)) }
    ensures settled { IfOk result (λ found. IfSome found (λ j. j.doubt ≡ None)) }
    ensures same { Tells (B.disk bay.old) file → (ps : List (List ℕ)) → StandsFor ps ((B.disk bay.old).seen file) → IfOk result (λ found. IfSome found (λ j. Keeps (B.disk bay.new) j ps)) }
{
    let mut loading = Loading::begin(alloc, bay, file)?;
    for _ in 0..limit {
        match loading.next(bay)? {
            None => return Ok(Some(loading.ready())),
            Some(_) => {}
        }
    }
    Ok(None)
}

// The payload of a frame that stands at place 0, and `None` where there is none.
fn first(alloc: Global, bay: &mut MemBay, file: u32) -> Result<Option<Vec<u8>>, LoadError>
    requires { file < 256 }
{
    let mut loading = Loading::begin(alloc, bay, file)?;
    match loading.next(bay)? {
        None => Ok(None),
        Some(payload) => match payload.to_vec(alloc) {
            Ok(copy) => Ok(Some(copy)),
            Err(_) => Err(LoadError::NoMemory),
        },
    }
}

// What an append of two bytes to an empty file comes to where the bay fails after so many calls: whether it succeeded,
// what a heal answers, and what a load finds.
fn cut_short(alloc: Global, fuse: u64) -> Result<(bool, bool, Option<Vec<u8>>), Fail> {
    let mut bay = MemBay::empty(alloc);
    let Some(mut journal) = load(alloc, &mut bay, 0, 1)? else {
        return Ok((false, false, None));
    };
    bay.fuse = Some(fuse);
    let appended = journal.append(&mut bay, &[7, 8]).is_ok();
    bay.fuse = None;
    let landed = journal.heal(&mut bay)?;
    Ok((appended, landed, first(alloc, &mut bay, 0)?))
}

// The load takes five calls, and the append four more.
#[test]
fn an_append_is_cut_short_at_each_call(rt: HostRuntime) -> Result<(), Fail> {
    let alloc = rt.alloc();
    assert_eq!(rt; cut_short(alloc, 5)?, (false, false, None));
    assert_eq!(rt; cut_short(alloc, 6)?, (false, false, None));
    assert_eq!(rt; cut_short(alloc, 7)?, (false, false, None));
    assert_eq!(rt;
        cut_short(alloc, 8)?,
        (false, true, Some([7, 8].to_vec(alloc)?))
    );
    assert_eq!(rt;
        cut_short(alloc, 9)?,
        (true, false, Some([7, 8].to_vec(alloc)?))
    );
    Ok(())
}

#[test]
fn a_file_is_cut_at_each_length(rt: HostRuntime) -> Result<(), Fail> {
    let alloc = rt.alloc();
    let whole = [1, 0, 0, 0, 2, 7, 8, 0];
    for n in 0..whole.len() + 1 {
        let mut bay = MemBay::empty(alloc);
        bay.write(3, 0, &whole[..n])?;
        let found = first(alloc, &mut bay, 3);
        if n < 2 {
            assert_eq!(rt; found, Ok(None), "{n}");
        } else if n < 8 {
            assert_eq!(rt; found, Err(LoadError::Damaged { file: 3, place: 0 }), "{n}");
        } else {
            assert_eq!(rt; found, Ok(Some([7, 8].to_vec(alloc)?)), "{n}");
        }
    }
    Ok(())
}

#[test]
fn the_bytes_of_a_file_with_one_payload(rt: HostRuntime) -> Result<(), Fail> {
    let alloc = rt.alloc();
    let payload = [
        1, 0, 0, 0, 0, 0, 0, 0, 0, 0x44, 0x4d, 0x44, 0x41, 0x45, 0x4d, 0x4e, 0x31, 0, 0, 0, 0, 0,
        0, 0, 1, 0, 0, 0, 0, 0, 0, 0, 1, 0, 0, 0, 0, 0, 0, 0, 0x64,
    ];
    let mut bay = MemBay::empty(alloc);
    if let Some(mut journal) = load(alloc, &mut bay, 0, 1)? {
        journal.append(&mut bay, &payload)?;
        assert_eq!(rt; journal.place(), 46);
        assert_eq!(rt; journal.in_doubt(), false);
    }
    let mut bytes = [1, 0, 0, 0, 0x29].to_vec(alloc)?;
    bytes.extend_from_slice(&payload)?;
    bytes.push(0)?;
    assert_eq!(rt; bay.bytes(0), bytes.as_slice());
    Ok(())
}
