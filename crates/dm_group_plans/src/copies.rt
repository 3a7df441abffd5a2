//! What the calls on copies of bitfiles come to: reserving room, committing, giving up, and deleting.

ghost use Rattle.std.specs.Prelude.{◌≡◌, IfOk, IsErrOf, cond, true, false, None, Some};
ghost use Rattle.std.specs.Option.{option_copied};
ghost use Rattle.dm_durable.specs.declared.group.GroupStep.TheVariants as step;
ghost use Rattle.dm_model.specs.GroupCalls.{abort as abort_plan, abort_needs, commit as commit_plan, commit_needs, delete as delete_plan, delete_needs, group_journal_payload, is_unmounted as is_unmounted_of, may_reserve as may_reserve_of, reservation_in as reservation_in_copy, reserve as reserve_plan, reserve_needs};
ghost use Rattle.dm_group_plans.specs.Found.{commit_guards, reservation_of};
ghost use Rattle.dm_group_usage.specs.Range.{are_pieces_in_range, is_reserved_in_range};
ghost use Rattle.dm_model.specs.Guards.{lowest_false};
ghost use Rattle.dm_model.specs.Plan.{prepared_plan};
ghost use Rattle.dm_verdicts.specs.Verdict.{verdict_on};

use crate::commits::{all_written, are_sums_of, summed_chunks};
use crate::prepared::{
    group_healing_plan, group_quiet_plan, is_absent, is_new, journal_payload, no_token,
    refused_plan, step_plan,
};
use dm_base::{Bfid, Bytes, GroupError, GroupId, Listed, NoMemory, Piece, Secs};
use dm_durable::GroupStep;
use dm_group_usage::{are_in_range, as_word, pieces_of, rooms, spaces};
use dm_model::{
    Answer, CopyReservation, CopyState, Ending, Group, Guard, History, Mark, Opening, Payload,
    Prepared, Reserved, Side,
};
use dm_verdicts::{Verdict, VerdictError, guarded, judge};
use std::alloc::Global;

pub(crate) fn reserve(
    alloc: Global,
    library: &Group,
    id: GroupId,
    bfid: Bfid,
    len: u64,
    number: u64,
    copy: Option<&CopyState>,
) -> Result<Verdict, NoMemory>
    ensures { IfOk result (λ v. v ≡ verdict_on (reserve_plan id library.now bfid len number) (reserve_needs (option_copied copy.entry) len)) }
{
    let absent = is_absent(&library.tables.bitfiles, bfid.0);
    let absent = (absent, Guard::CopyWanted);
    let wanted = (may_reserve(copy, len), Guard::CopyWanted);
    let spaces = spaces(alloc, library)?;
    let have = rooms(spaces.as_slice());
    if have < u128::from(len) {
        let error = GroupError::NoRoom {
            have: as_word(have),
            need: len,
        };
        return Ok(guarded(&[absent, wanted], refused_plan(id, error)));
    }
    let pieces = pieces_of(alloc, spaces.as_slice(), len)?;
    let prepared = reservation(alloc, library, id, bfid, len, number, pieces)?;
    let new = is_new(library.next_reservation, u128::from(number));
    Ok(judge(&[absent, wanted, new], &[absent, wanted], prepared))
}

// The reservation of these pieces, which is made.
fn reservation(
    alloc: Global,
    library: &Group,
    id: GroupId,
    bfid: Bfid,
    len: u64,
    number: u64,
    pieces: Listed<Piece>,
) -> Result<Prepared, NoMemory>
    ensures { IfOk result (λ p. p ≡ reservation_of id library.now bfid len number pieces) }
{
    let chunk = library.conf.chunk;
    let reserved = Reserved {
        bfid,
        len,
        chunk,
        pieces: pieces.copied(alloc)?,
    };
    let answer = Answer::Reserved {
        reservation: number,
        chunk,
        pieces,
    };
    Ok(Prepared {
        opens: Opening::Reservation {
            group: id,
            number,
            reserved,
        },
        ..group_healing_plan(id, answer)
    })
}

// Whether the copy is being stored with this length, and has no reservation.
fn may_reserve(copy: Option<&CopyState>, len: u64) -> bool
    ensures { result ≡ may_reserve_of (option_copied copy.entry) len }
{
    match copy {
        None => false,
        Some(copy) => copy.len == len && copy.reservation.is_none(),
    }
}

pub(crate) fn commit(
    alloc: Global,
    history: &History,
    side: &Side,
    id: GroupId,
    number: u64,
    sums: &Listed<[u8; 32]>,
    now: Secs,
    reserved: Option<&Reserved>,
) -> Result<Verdict, VerdictError>
    ensures verdict { IfOk result (λ v. v ≡ verdict_on (commit_plan id side.now.group number sums.now now.0 (option_copied reserved.entry)) (commit_needs history.now.contents side.now.copies number sums.now (option_copied reserved.entry))) }
    ensures range { IsErrOf result VerdictError.OutOfRange → is_reserved_in_range (option_copied reserved.entry) ≡ false }
{
    let Some(reserved) = reserved else {
        return Ok(no_token(id));
    };
    if !are_in_range(reserved.chunk, reserved.pieces.as_slice()) {
        return Err(VerdictError::OutOfRange);
    }
    let sums = sums.as_slice();
    let bytes = history.contents.get(reserved.bfid.0);
    let copy = side.copies.get(reserved.bfid.0);
    let prepared = committed(alloc, &side.group, id, number, sums, now, reserved)?;
    Ok(commit_of(alloc, number, sums, reserved, bytes, copy, prepared)?)
}

// The commit of this reservation, which comes to this, given the bytes and the copy of its bitfile.
fn commit_of(
    alloc: Global,
    number: u64,
    sums: &[[u8; 32]],
    reserved: &Reserved,
    bytes: Option<&Bytes>,
    copy: Option<&CopyState>,
    prepared: Prepared,
) -> Result<Verdict, NoMemory>
    requires { are_pieces_in_range reserved.now.chunk reserved.now.pieces ≡ true }
    ensures { IfOk result (λ v. v ≡ record { illegal = lowest_false (commit_guards number sums.now reserved.now (option_copied bytes.entry) (option_copied copy.entry)); illegal_fault = lowest_false (commit_guards number sums.now reserved.now (option_copied bytes.entry) (option_copied copy.entry)); prepared = prepared }) }
{
    let reservation = reservation_in(copy);
    let written = all_written(alloc, bytes, reserved, reservation)?;
    let right = are_sums_of(alloc, bytes, reserved, sums)?;
    let guards = [
        (copy.is_some(), Guard::PiecesWritten),
        (is_unmounted(number, reservation), Guard::PiecesWritten),
        (written, Guard::PiecesWritten),
        (right, Guard::PiecesWritten),
    ];
    Ok(guarded(&guards, prepared))
}

// What the commit of this reservation comes to.
fn committed(
    alloc: Global,
    library: &Group,
    id: GroupId,
    number: u64,
    sums: &[[u8; 32]],
    now: Secs,
    reserved: &Reserved,
) -> Result<Prepared, NoMemory>
    requires { are_pieces_in_range reserved.now.chunk reserved.now.pieces ≡ true }
    ensures { IfOk result (λ p. p ≡ prepared_plan (commit_plan id library.now number sums.now now.0 (Some reserved.now))) }
{
    let bfid = reserved.bfid;
    let pieces = reserved.pieces.as_slice();
    let chunks = summed_chunks(alloc, reserved.chunk, pieces, sums)?;
    let step = GroupStep::Commit {
        bfid,
        len: reserved.len,
        chunks,
    };
    let payload = journal_payload(library, id, now, step);
    let ends = Ending::Reservation {
        group: id,
        number,
        bfid,
    };
    Ok(Prepared {
        ends,
        ..step_plan(id, payload, Answer::Committed)
    })
}

fn reservation_in(copy: Option<&CopyState>) -> Option<&CopyReservation>
    ensures { option_copied result ≡ reservation_in_copy (option_copied copy.entry) }
{
    match copy {
        None => None,
        Some(copy) => copy.reservation.as_ref(),
    }
}

// Whether it has this number, and no mount of it is open.
fn is_unmounted(number: u64, reservation: Option<&CopyReservation>) -> bool
    ensures { result ≡ is_unmounted_of number (option_copied reservation.entry) }
{
    match reservation {
        None => false,
        Some(reservation) => reservation.number == number && reservation.mounts.len() == 0,
    }
}

pub(crate) fn abort(side: &Side, id: GroupId, number: u64, reserved: Option<&Reserved>) -> Verdict
    ensures { result ≡ verdict_on (abort_plan id number (option_copied reserved.entry)) (abort_needs side.now.copies number (option_copied reserved.entry)) }
{
    let Some(reserved) = reserved else {
        return no_token(id);
    };
    let bfid = reserved.bfid;
    let reservation = reservation_in(side.copies.get(bfid.0));
    let unmounted = (is_unmounted(number, reservation), Guard::PiecesUnmounted);
    let prepared = Prepared {
        ends: Ending::Reservation {
            group: id,
            number,
            bfid,
        },
        ..group_quiet_plan(id, Answer::Aborted)
    };
    judge(
        &[unmounted],
        &[unmounted, (false, Guard::DeviceUsed)],
        prepared,
    )
}

pub(crate) fn delete(
    history: &History,
    library: &Group,
    id: GroupId,
    bfid: Bfid,
    now: Secs,
) -> Verdict
    ensures { result ≡ verdict_on (delete_plan id library.now bfid now.0) (delete_needs history.now bfid) }
{
    let taken = (history.taken.contains(bfid.0), Guard::HardDeleted);
    let there = library.tables.bitfiles.contains(bfid.0);
    let payload = delete_payload(library, id, bfid, now, there);
    let prepared = Prepared {
        mark: Mark::Deleted { group: id, bfid },
        ..step_plan(id, payload, Answer::Deleted { there })
    };
    guarded(&[taken], prepared)
}

// The deletion of a bitfile that is there.
fn delete_payload(
    library: &Group,
    id: GroupId,
    bfid: Bfid,
    now: Secs,
    there: bool,
) -> Option<Payload>
    ensures { result ≡ cond there (group_journal_payload id library.now now.0 (step.Delete bfid)) None }
{
    if there {
        journal_payload(library, id, now, GroupStep::Delete { bfid })
    } else {
        None
    }
}
