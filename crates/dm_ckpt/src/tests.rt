//! What no clause says: that calls succeed while nothing fails, the bytes of the four files, and what a load gives after
//! each call of the device that was the last. And a loop that loads, over any bay and for any state.
//!
//! A list of payloads is written as one number here: the bytes of each, behind their count.
ghost use Rattle.std.specs.Prelude.{◌≡◌, ◌⊎◌, ◌<◌, ℕ, List, [], ◌∷◌, ◌++◌, length, IfOk, IfSome};
ghost use Rattle.std.specs.List.{AllByRecursion};
ghost use Rattle.dm_host.specs.MemoryBay.{disk_of};
ghost use Rattle.dm_ckpt.specs.declared.doubt.Doubt.TheVariants.{Sure};
ghost use Rattle.dm_ckpt.specs.Area.{body_length, body_limit};
ghost use Rattle.dm_ckpt.specs.Files.{Mine, TellsMine};
ghost use Rattle.dm_host.specs.Works.{Works};
ghost use Rattle.dm_ckpt.specs.Meaning.{StandsForState, KeepsState};
ghost use Rattle.dm_journal.specs.Grammar.{Fits};
ghost use Rattle.dm_ckpt.specs.State.{Stands};

use crate::{LoadError, Rows, Store};
use dm_host::{Bay, Failed, MemBay};
use std::alloc::Global;
use std::test::Fail;

// The state of a list whose last payload begins with this byte. Its snapshot has two rows: the byte, and twice the byte.
#[derive(Clone, Copy)]
struct Tag(u8);

impl Rows for Tag {
    ghost use Rattle.std.specs.Prelude.{◌≡◌, ℕ, List, [], ◌∷◌, ◌++◌};

    ghost rows = { λ t. (t.0 ∷ []) ∷ (t.0 ∷ (t.0 ∷ [])) ∷ [] };

    ghost means = { λ t ps. (front : List (List ℕ)) × ((rest : List ℕ) × (ps ≡ front ++ (t.0 ∷ rest) ∷ [])) };

    fn count(&self) -> u64 {
        2
    }

    fn len(&self, k: u64) -> u32 {
        if k == 0 { 1 } else { 2 }
    }

    fn fill(&self, _k: u64, into: &mut [u8]) {
        into.fill(self.0);
    }
}

// The list of the payload 7, and that of the rows of `Tag(7)` and of `Tag(8)`.
const SEVEN: u128 = 0x0107;

const SEVENS: u128 = 0x0107_020707;

const EIGHTS: u128 = 0x0108_020808;

// The store of a component whose list has fewer payloads than these; `None` where it has more. Where the files stand for
// the state, the store keeps it.
fn reloaded<B: Bay, T: Rows>(
    alloc: Global,
    bay: &mut B,
    component: u8,
    limit: usize,
    _state: &T,
) -> Result<Option<Store>, LoadError>
    requires { component < 5 }
    ensures state { TellsMine (B.disk bay.old) component → StandsForState component (T.means _state.now) (B.disk bay.old).seen
        → IfOk result (λ found. IfSome found (λ s. KeepsState (B.disk bay.new) s (T.means _state.now))) }
    ensures settled { IfOk result (λ found. IfSome found (λ s. s.doubt ≡ Sure)) }
    ensures stands { IfOk result (λ found. IfSome found (λ s. Stands (B.disk bay.new) s)) }
{
    let mut loading = Store::open(alloc, bay, component)?;
    for _ in 0..limit {
        match loading.next(bay)? {
            None => return Ok(Some(loading.ready())),
            Some(_) => {}
        }
    }
    Ok(None)
}

// A checkpoint and then an append, as a call of a component makes them: a crash at any moment leaves the state before or
// the one after, and there is no third case.
fn checkpoint_and_append<B: Bay, T: Rows, U: Rows>(
    bay: &mut B,
    store: &mut Store,
    state: &T,
    payload: &[u8],
    _after: &U,
) -> Result<(), Failed>
    requires settled { store.old.doubt ≡ Sure }
    requires stands { Stands (B.disk bay.old) store.old }
    requires fits { AllByRecursion Fits (T.rows state.now) }
    requires small { body_length (T.rows state.now) < body_limit }
    requires size { Fits payload.now }
    ensures any_moment { T.means state.now (T.rows state.now)
        → ((ps : List (List ℕ)) → T.means state.now ps → U.means _after.now (ps ++ payload.now ∷ []))
        → KeepsState (B.disk bay.old) store.old (T.means state.now)
        → Works (Mine store.old.component) (B.disk bay.old) (B.disk bay.new)
        (λ x. StandsForState store.old.component (T.means state.now) x ⊎ StandsForState store.old.component (U.means _after.now) x) }
    ensures stands { Stands (B.disk bay.new) store.new }
{
    store.checkpoint(bay, state)?;
    store.append(bay, payload)
}

// A list with one payload more.
fn behind(list: u128, payload: &[u8]) -> u128 {
    let mut list = list << 8 | payload.len() as u128;
    for byte in payload {
        list = list << 8 | *byte as u128;
    }
    list
}

// The list of a component, which has at most eight payloads.
fn list_of(alloc: Global, bay: &mut MemBay, component: u8) -> Result<u128, LoadError>
    requires { component < 5 }
{
    let mut loading = Store::open(alloc, bay, component)?;
    let mut list = 0;
    for _ in 0..9 {
        match loading.next(bay)? {
            None => return Ok(list),
            Some(payload) => list = behind(list, payload),
        }
    }
    Ok(list)
}

// The store of component 0 with the payload 7, by 17 calls of an empty bay: a load of 13, and an append of 4.
fn begun(alloc: Global, bay: &mut MemBay) -> Result<Option<Store>, LoadError>
    ensures settled { IfOk result (λ found. IfSome found (λ s. s.doubt ≡ Sure)) }
    ensures stands { IfOk result (λ found. IfSome found (λ s. Stands (disk_of bay.new) s)) }
{
    let Some(mut store) = reloaded(alloc, bay, 0, 1, &Tag(7))? else {
        return Ok(None);
    };
    match store.append(bay, &[7]) {
        Err(_) => Err(LoadError::Failed),
        Ok(()) => Ok(Some(store)),
    }
}

// Whether a checkpoint succeeds where the bay fails after so many calls.
fn checkpoint_until(bay: &mut MemBay, store: &mut Store, fuse: u64, tag: u8) -> bool
    requires settled { store.old.doubt ≡ Sure }
    requires stands { Stands (disk_of bay.old) store.old }
    ensures stands { Stands (disk_of bay.new) store.new }
{
    bay.fuse = Some(fuse);
    let done = store.checkpoint(bay, &Tag(tag)).is_ok();
    bay.fuse = None;
    done
}

// Whether an append of the payload 8 succeeds so.
fn append_until(bay: &mut MemBay, store: &mut Store, fuse: u64) -> bool
    requires settled { store.old.doubt ≡ Sure }
    requires stands { Stands (disk_of bay.old) store.old }
    ensures stands { Stands (disk_of bay.new) store.new }
{
    bay.fuse = Some(fuse);
    let done = store.append(bay, &[8]).is_ok();
    bay.fuse = None;
    done
}

// A checkpoint that is cut short: whether it succeeded, whether it is in doubt, and what a load finds.
fn cut_checkpoint(alloc: Global, fuse: u64) -> Result<(bool, bool, u128), LoadError> {
    let mut bay = MemBay::empty(alloc);
    let Some(mut store) = begun(alloc, &mut bay)? else {
        return Ok((false, false, 0));
    };
    let done = checkpoint_until(&mut bay, &mut store, fuse, 7);
    Ok((done, store.in_doubt(), list_of(alloc, &mut bay, 0)?))
}

// The same, healed, and then an append of the payload 8: what the heal answers, and what a load finds.
fn healed_checkpoint(alloc: Global, fuse: u64) -> Result<(bool, u128), LoadError> {
    let mut bay = MemBay::empty(alloc);
    let Some(mut store) = begun(alloc, &mut bay)? else {
        return Ok((false, 0));
    };
    let _ = checkpoint_until(&mut bay, &mut store, fuse, 7);
    let Ok(landed) = store.heal(&mut bay) else {
        return Ok((false, 0));
    };
    let _ = append_until(&mut bay, &mut store, u64::MAX);
    Ok((landed, list_of(alloc, &mut bay, 0)?))
}

// The calls that a bay has made where it failed after so many, or did all that was asked in just as many.
fn calls_until(fuse: u64, done: bool) -> u64 {
    if done { fuse } else { fuse.saturating_add(1) }
}

// Cuts loads of component 0 short, after no call, after one, and so on, until one succeeds: what that finds. The bay has made
// so many calls. None of the loads before finds damage.
fn found_at_last(alloc: Global, bay: &mut MemBay, calls: u64) -> Result<u128, LoadError> {
    let mut calls = calls;
    for m in 0..64u64 {
        bay.fuse = Some(calls.saturating_add(m));
        match list_of(alloc, bay, 0) {
            Err(LoadError::Failed) => calls = calls.saturating_add(m + 1),
            found => {
                bay.fuse = None;
                return found;
            }
        }
    }
    Err(LoadError::NoMemory)
}

// The append behind a checkpoint, cut short: whether it succeeded, what a heal answers, and what a load finds, which was cut
// short at each call before.
fn cut_append(alloc: Global, fuse: u64) -> Result<(bool, bool, u128), LoadError> {
    let mut bay = MemBay::empty(alloc);
    let Some(mut store) = begun(alloc, &mut bay)? else {
        return Ok((false, false, 0));
    };
    if !checkpoint_until(&mut bay, &mut store, u64::MAX, 7) || store.in_doubt() {
        return Ok((false, false, 0));
    }
    let done = append_until(&mut bay, &mut store, fuse);
    let found = found_at_last(alloc, &mut bay, calls_until(fuse, done))?;
    let Ok(landed) = store.heal(&mut bay) else {
        return Ok((done, false, 0));
    };
    Ok((done, landed, found))
}

// A checkpoint that is cut short, a heal, and another one that is cut short: whether that succeeded, and what a load
// finds, which was cut short at each call before.
fn cut_again(alloc: Global, first: u64, second: u64) -> Result<(bool, u128), LoadError> {
    let mut bay = MemBay::empty(alloc);
    let Some(mut store) = begun(alloc, &mut bay)? else {
        return Ok((false, 0));
    };
    let _ = checkpoint_until(&mut bay, &mut store, first, 7);
    let Ok(_) = store.heal(&mut bay) else {
        return Ok((false, 0));
    };
    let done = checkpoint_until(&mut bay, &mut store, second, 8);
    let calls = calls_until(second, done);
    Ok((done, found_at_last(alloc, &mut bay, calls)?))
}

// A checkpoint that is cut short after n calls, and a load after m: what that finds, and what the next one does.
fn cut_load(alloc: Global, n: u64, m: u64) -> Result<(Result<u128, LoadError>, u128), LoadError>
    requires { (n < 11) × (m < 64) }
{
    let mut bay = MemBay::empty(alloc);
    let Some(mut store) = begun(alloc, &mut bay)? else {
        return Ok((Ok(0), 0));
    };
    let _ = checkpoint_until(&mut bay, &mut store, 17 + n, 7);
    bay.fuse = Some(17 + (n + 1).min(10) + m);
    let found = list_of(alloc, &mut bay, 0);
    bay.fuse = None;
    Ok((found, list_of(alloc, &mut bay, 0)?))
}

// A checkpoint takes ten calls, of which the ninth writes the gate that brings the rows into use.
#[test]
fn a_checkpoint_is_cut_short_at_each_call(rt: HostRuntime) -> Result<(), Fail> {
    let alloc = rt.alloc();
    for n in 0..11 {
        let list = if n < 9 { SEVEN } else { SEVENS };
        assert_eq!(rt;
            cut_checkpoint(alloc, 17 + n)?,
            (n == 10, n < 10, list),
            "{n}"
        );
    }
    Ok(())
}

#[test]
fn a_checkpoint_cut_short_is_healed(rt: HostRuntime) -> Result<(), Fail> {
    let alloc = rt.alloc();
    for n in 0..11 {
        let list = if n < 9 { SEVEN } else { SEVENS };
        assert_eq!(rt;
            healed_checkpoint(alloc, 17 + n)?,
            (false, behind(list, &[8])),
            "{n}"
        );
    }
    Ok(())
}

// An append takes four calls, of which the third writes the gate.
#[test]
fn the_append_behind_a_checkpoint_is_cut_short(rt: HostRuntime) -> Result<(), Fail> {
    let alloc = rt.alloc();
    for n in 0..5 {
        let list = if n < 3 { SEVENS } else { behind(SEVENS, &[8]) };
        assert_eq!(rt; cut_append(alloc, 27 + n)?, (n == 4, n == 3, list), "{n}");
    }
    Ok(())
}

// How many calls were made before the second checkpoint, where the first was cut short after n calls, and how many that
// takes. The heal takes one call where the first didn't come to the rows, and else two. The gate of the other area is
// written where it is open or not there.
fn second_checkpoint(n: u64) -> (u64, u64)
    requires { n < 11 }
    ensures start { result.0 < 64 }
    ensures calls { (1 < result.1) × (result.1 < 64) }
{
    let healed = match n {
        0..=5 => 1,
        6..=9 => 2,
        _ => 0,
    };
    let calls = if n > 2 && n < 9 { 8 } else { 10 };
    (17 + (n + 1).min(10) + healed, calls)
}

#[test]
fn another_checkpoint_is_cut_short_at_each_call(rt: HostRuntime) -> Result<(), Fail> {
    let alloc = rt.alloc();
    for n in 0..11 {
        let before = if n < 9 { SEVEN } else { SEVENS };
        let (start, calls) = second_checkpoint(n);
        for m in 0..calls + 1 {
            let list = if m < calls - 1 { before } else { EIGHTS };
            assert_eq!(rt;
                cut_again(alloc, 17 + n, start + m)?,
                (m == calls, list),
                "{n} {m}"
            );
        }
    }
    Ok(())
}

// A load takes 13 calls where it finds the payload, and 19 where it finds the rows.
fn load_calls(n: u64) -> u64
    ensures { result < 64 }
{
    if n < 9 { 13 } else { 19 }
}

#[test]
fn a_load_is_cut_short_at_each_call(rt: HostRuntime) -> Result<(), Fail> {
    let alloc = rt.alloc();
    for n in 0..11 {
        let list = if n < 9 { SEVEN } else { SEVENS };
        let calls = load_calls(n);
        for m in 0..calls + 1 {
            let found = if m < calls {
                Err(LoadError::Failed)
            } else {
                Ok(list)
            };
            assert_eq!(rt; cut_load(alloc, n, m)?, (found, list), "{n} {m}");
        }
    }
    Ok(())
}

// An area of generation 1 with the rows of `Tag(7)`, and one of generation 2 with those of `Tag(8)`.
const ONE: [u8; 28] = [
    1, 0, 0, 0, 0, 0, 0, 0, 1, 0, 0, 0, 0, 0, 0, 0, 11, 0, 0, 0, 1, 7, 0, 0, 0, 2, 7, 7,
];

const TWO: [u8; 28] = [
    1, 0, 0, 0, 0, 0, 0, 0, 2, 0, 0, 0, 0, 0, 0, 0, 11, 0, 0, 0, 1, 8, 0, 0, 0, 2, 8, 8,
];

// What a load of component 0 finds where its areas hold these bytes, and its logs none.
fn of_areas(alloc: Global, first: &[u8], second: &[u8]) -> Result<u128, LoadError>
    requires { (length first.now < 29) × (length second.now < 29) }
{
    let mut bay = MemBay::empty(alloc);
    if bay.write(128, 0, first).is_err() || bay.write(129, 0, second).is_err() {
        return Err(LoadError::Failed);
    }
    list_of(alloc, &mut bay, 0)
}

// The same with area `ONE` in the second place, where a byte of that was changed.
fn of_spoiled(alloc: Global, place: u64, byte: u8) -> Result<u128, LoadError>
    requires { place < 28 }
{
    let mut bay = MemBay::empty(alloc);
    let Ok(()) = bay.write(129, 0, &ONE) else {
        return Err(LoadError::Failed);
    };
    bay.set(129, place, byte);
    list_of(alloc, &mut bay, 0)
}

fn damaged(file: u32) -> Result<u128, LoadError> {
    Err(LoadError::Damaged { file, place: 0 })
}

#[test]
fn an_area_with_a_wrong_field(rt: HostRuntime) -> Result<(), Fail> {
    let alloc = rt.alloc();
    // The gate: no area. The generation: another one.
    assert_eq!(rt; of_spoiled(alloc, 0, 0), Ok(0));
    assert_eq!(rt; of_spoiled(alloc, 0, 2), Ok(0));
    assert_eq!(rt; of_spoiled(alloc, 1, 255), Ok(SEVENS));
    assert_eq!(rt; of_spoiled(alloc, 8, 0), Ok(SEVENS));
    // The length: past the file, within a row, and behind one.
    assert_eq!(rt; of_spoiled(alloc, 9, 128), damaged(129));
    assert_eq!(rt; of_spoiled(alloc, 16, 12), damaged(129));
    assert_eq!(rt; of_spoiled(alloc, 16, 10), damaged(129));
    assert_eq!(rt; of_spoiled(alloc, 16, 5), Ok(SEVEN));
    assert_eq!(rt; of_spoiled(alloc, 16, 0), Ok(0));
    Ok(())
}

#[test]
fn an_area_with_a_wrong_row(rt: HostRuntime) -> Result<(), Fail> {
    let alloc = rt.alloc();
    // The first length: too long, none, one too many, and all that is left.
    assert_eq!(rt; of_spoiled(alloc, 17, 2), damaged(129));
    assert_eq!(rt; of_spoiled(alloc, 20, 0), damaged(129));
    assert_eq!(rt; of_spoiled(alloc, 20, 2), damaged(129));
    assert_eq!(rt; of_spoiled(alloc, 20, 7), Ok(0x07_0700_0000_0207_07));
    // The second: one too few, and one too many.
    assert_eq!(rt; of_spoiled(alloc, 25, 1), damaged(129));
    assert_eq!(rt; of_spoiled(alloc, 25, 3), damaged(129));
    // A row's byte: another row.
    assert_eq!(rt; of_spoiled(alloc, 27, 9), Ok(0x0107_020709));
    Ok(())
}

// The same where area 1 is of one row of zeros, of 20,971,520 bytes and so many more.
fn of_long_row(alloc: Global, more: u8) -> Result<u128, LoadError>
    requires { more < 2 }
{
    let mut bay = MemBay::empty(alloc);
    let front = [
        1,
        0,
        0,
        0,
        0,
        0,
        0,
        0,
        1,
        0,
        0,
        0,
        0,
        1,
        64,
        0,
        4 + more,
        1,
        64,
        0,
        more,
    ];
    if bay.write(129, 0, &front).is_err() || bay.write(129, 20_971_541, &[0]).is_err() {
        return Err(LoadError::Failed);
    }
    list_of(alloc, &mut bay, 0)
}

// The zeros leave nothing of the count in the number.
#[test]
fn an_area_with_a_long_row(rt: HostRuntime) -> Result<(), Fail> {
    let alloc = rt.alloc();
    assert_eq!(rt; of_long_row(alloc, 0), Ok(0));
    assert_eq!(rt; of_long_row(alloc, 1), damaged(129));
    Ok(())
}

#[test]
fn two_areas(rt: HostRuntime) -> Result<(), Fail> {
    let alloc = rt.alloc();
    assert_eq!(rt; of_areas(alloc, &ONE, &TWO), Ok(EIGHTS));
    assert_eq!(rt; of_areas(alloc, &TWO, &ONE), Ok(EIGHTS));
    assert_eq!(rt; of_areas(alloc, &ONE, &ONE), damaged(128));
    assert_eq!(rt; of_areas(alloc, &TWO, &ONE[..27]), damaged(129));
    assert_eq!(rt; of_areas(alloc, &ONE[..27], &TWO), damaged(128));
    assert_eq!(rt; of_areas(alloc, &ONE[..27], &ONE[..27]), damaged(128));
    Ok(())
}

#[test]
fn an_area_is_cut_at_each_length(rt: HostRuntime) -> Result<(), Fail> {
    let alloc = rt.alloc();
    for n in 0..29 {
        let found = match n {
            0..=1 => Ok(0),
            2..=27 => damaged(129),
            _ => Ok(SEVENS),
        };
        assert_eq!(rt; of_areas(alloc, &[], &ONE[..n]), found, "{n}");
    }
    Ok(())
}

// The store of component 0, once it took a checkpoint to `Tag(7)`, an append of the payload 8, and, where that is asked
// for, a checkpoint to `Tag(8)`.
fn turned(alloc: Global, bay: &mut MemBay, again: bool) -> Result<Option<Store>, LoadError> {
    let Some(mut store) = begun(alloc, bay)? else {
        return Ok(None);
    };
    if !checkpoint_until(bay, &mut store, u64::MAX, 7) || store.in_doubt() {
        return Ok(None);
    }
    if !append_until(bay, &mut store, u64::MAX) || store.in_doubt() {
        return Ok(None);
    }
    if again && !checkpoint_until(bay, &mut store, u64::MAX, 8) {
        return Ok(None);
    }
    Ok(Some(store))
}

// The place of its log's gate.
fn gate_turned(alloc: Global, bay: &mut MemBay, again: bool) -> Result<u64, LoadError> {
    match turned(alloc, bay, again)? {
        Some(store) => Ok(store.log_gate()),
        None => Ok(u64::MAX),
    }
}

#[test]
fn the_bytes_behind_a_checkpoint(rt: HostRuntime) -> Result<(), Fail> {
    let alloc = rt.alloc();
    let mut bay = MemBay::empty(alloc);
    assert_eq!(rt; gate_turned(alloc, &mut bay, false)?, 6);
    assert_eq!(rt; bay.bytes(128).len(), 0);
    assert_eq!(rt; bay.bytes(0), [1, 0, 0, 0, 1, 7, 0].as_slice());
    assert_eq!(rt; bay.bytes(129), ONE.as_slice());
    assert_eq!(rt; bay.bytes(130), [1, 0, 0, 0, 1, 8, 0].as_slice());
    assert_eq!(rt; list_of(alloc, &mut bay, 0)?, behind(SEVENS, &[8]));
    Ok(())
}

#[test]
fn the_bytes_behind_another_checkpoint(rt: HostRuntime) -> Result<(), Fail> {
    let alloc = rt.alloc();
    let mut bay = MemBay::empty(alloc);
    assert_eq!(rt; gate_turned(alloc, &mut bay, true)?, 0);
    assert_eq!(rt; bay.bytes(128), TWO.as_slice());
    assert_eq!(rt; bay.bytes(0), [0, 0, 0, 0, 1, 7, 0].as_slice());
    assert_eq!(rt; bay.bytes(129), ONE.as_slice());
    assert_eq!(rt; bay.bytes(130), [1, 0, 0, 0, 1, 8, 0].as_slice());
    assert_eq!(rt; list_of(alloc, &mut bay, 0)?, EIGHTS);
    Ok(())
}

// Where the payloads of a component stand that were handed out: the numbers of their files, and their places.
fn places_of(alloc: Global, bay: &mut MemBay) -> Result<(bool, u128), LoadError> {
    let mut loading = Store::open(alloc, bay, 0)?;
    let mut places = 0;
    for _ in 0..4 {
        if loading.next(bay)?.is_none() {
            break;
        }
        places = places << 16 | (loading.file() as u128) << 8 | loading.place() as u128 & 255;
    }
    Ok((loading.has_area(), places))
}

#[test]
fn the_places_of_payloads(rt: HostRuntime) -> Result<(), Fail> {
    let alloc = rt.alloc();
    let mut bay = MemBay::empty(alloc);
    assert_eq!(rt; places_of(alloc, &mut bay)?, (false, 0));
    assert_eq!(rt; gate_turned(alloc, &mut bay, false)?, 6);
    assert_eq!(rt; places_of(alloc, &mut bay)?, (true, 0x8100_8100_8200));
    Ok(())
}

// Whether a checkpoint is due behind so many appends of a payload, and the place of the log's gate.
fn grown(alloc: Global, payload: &[u8], count: u64) -> Result<(bool, u64), LoadError>
    requires { Fits payload.now }
{
    let mut bay = MemBay::empty(alloc);
    let Some(mut store) = reloaded(alloc, &mut bay, 0, 1, &Tag(7))? else {
        return Ok((false, 0));
    };
    for _ in 0..count {
        if store.append(&mut bay, payload).is_err() {
            return Err(LoadError::Failed);
        }
    }
    Ok((store.is_due(&Tag(7)), store.log_gate()))
}

// A frame has five bytes more than its payload. A checkpoint is due from 67,108,864 on.
#[test]
fn a_checkpoint_is_due(rt: HostRuntime) -> Result<(), Fail> {
    let alloc = rt.alloc();
    let mut payload = Vec::new(alloc);
    payload.resize(16_777_216, 0)?;
    assert_eq!(rt; grown(alloc, &payload, 3)?, (false, 50_331_663));
    assert_eq!(rt; grown(alloc, &payload, 4)?, (true, 67_108_884));
    Ok(())
}

// What a load finds behind a checkpoint to `Tag(7)` and an append of the payload 8 in one call.
fn called(alloc: Global) -> Result<u128, LoadError> {
    let mut bay = MemBay::empty(alloc);
    let Some(mut store) = begun(alloc, &mut bay)? else {
        return Ok(0);
    };
    if checkpoint_and_append(&mut bay, &mut store, &Tag(7), &[8], &Tag(8)).is_err() {
        return Err(LoadError::Failed);
    }
    list_of(alloc, &mut bay, 0)
}

#[test]
fn a_call_takes_a_checkpoint_and_appends(rt: HostRuntime) -> Result<(), Fail> {
    assert_eq!(rt; called(rt.alloc()), Ok(behind(SEVENS, &[8])));
    Ok(())
}
