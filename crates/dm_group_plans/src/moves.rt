//! What the calls of the move of a chunk come to.

ghost use Rattle.std.specs.Prelude.{◌≡◌, Some, IfOk};
ghost use Rattle.std.specs.Option.{option_copied};
ghost use Rattle.dm_model.specs.GroupCalls.{chunk_in as chunk_in_row, drop_move as drop_move_plan, is_chunk as is_chunk_of, is_moved as is_moved_of, move_done as move_done_plan, move_done_needs, same_chunk as same_chunk_of, same_sum as same_sum_of, was_moved as was_moved_of};
ghost use Rattle.dm_model.specs.Plan.{no_needs};
ghost use Rattle.dm_model.specs.declared.plan.Ending.TheVariants as ending;
ghost use Rattle.dm_verdicts.specs.Verdict.{verdict_on};

use crate::mounts::chunk_at;
use crate::prepared::{group_quiet_plan, journal_payload, no_token, refused_plan, step_plan};
use crate::zones::moved_zone;
use dm_base::{Bytes, Chunk, GroupError, GroupId, NoMemory, Secs};
use dm_durable::{BitfileRow, GroupStep};
use dm_model::{Answer, Ending, Guard, MountState, Moving, Prepared, Side};
use dm_verdicts::{Verdict, guarded, judge};
use dm_zone::chunk_sum;
use std::alloc::Global;

pub(crate) fn move_done(
    alloc: Global,
    side: &Side,
    id: GroupId,
    job: u64,
    sum: Option<[u8; 32]>,
    now: Secs,
    moving: Option<Moving>,
) -> Result<Verdict, NoMemory>
    ensures { IfOk result (λ v. v ≡ verdict_on (move_done_plan id side.now.group job sum now.0 moving) (move_done_needs side.now.mounts sum moving)) }
{
    let Some(moving) = moving else {
        return Ok(no_token(id));
    };
    let source = side.mounts.get(u128::from(moving.source));
    let target = side.mounts.get(u128::from(moving.target));
    let moved = was_moved(alloc, &moving, sum, source, target)?;
    let guards = [(moved, Guard::ChunkMoved)];
    let ends = ending_of(id, job, &moving);
    let row = side.group.tables.bitfiles.get(moving.bfid.0);
    let found = chunk_in(moving.from.offset, row);
    if !is_chunk(moving.from, found) {
        let prepared = Prepared {
            ends,
            ..refused_plan(id, GroupError::Moved { found })
        };
        return Ok(guarded(&guards, prepared));
    }
    let step = GroupStep::Move {
        bfid: moving.bfid,
        from: moving.from,
        to: Chunk { sum, ..moving.to },
    };
    let payload = journal_payload(&side.group, id, now, step);
    let prepared = Prepared {
        ends,
        ..step_plan(id, payload, Answer::Moved)
    };
    Ok(guarded(&guards, prepared))
}

fn ending_of(id: GroupId, job: u64, moving: &Moving) -> Ending
    ensures { result ≡ ending.Move id job moving.now.source moving.now.target }
{
    Ending::Move {
        group: id,
        number: job,
        source: moving.source,
        target: moving.target,
    }
}

pub(crate) fn drop_move(id: GroupId, job: u64, moving: Option<Moving>) -> Verdict
    ensures { result ≡ verdict_on (drop_move_plan id job moving) no_needs }
{
    let Some(moving) = moving else {
        return no_token(id);
    };
    let prepared = Prepared {
        ends: ending_of(id, job, &moving),
        ..group_quiet_plan(id, Answer::MoveDropped)
    };
    judge(&[], &[(false, Guard::DeviceUsed)], prepared)
}

// The chunk that a bitfile has at the offset.
fn chunk_in(offset: u64, row: Option<&BitfileRow>) -> Option<Chunk>
    ensures { result ≡ chunk_in_row offset (option_copied row.entry) }
{
    match row {
        None => None,
        Some(row) => chunk_at(offset, row.chunks.as_slice()),
    }
}

fn is_chunk(chunk: Chunk, found: Option<Chunk>) -> bool
    ensures { result ≡ is_chunk_of chunk found }
{
    match found {
        None => false,
        Some(found) => same_chunk(chunk, found),
    }
}

// Whether two chunks are the same in all fields.
fn same_chunk(first: Chunk, second: Chunk) -> bool
    ensures { result ≡ same_chunk_of first second }
{
    first.offset == second.offset
        && first.len == second.len
        && first.vsn.0 == second.vsn.0
        && first.zone == second.zone
        && first.place == second.place
        && same_sum(first.sum, second.sum)
}

fn same_sum(first: Option<[u8; 32]>, second: Option<[u8; 32]>) -> bool
    ensures { result ≡ same_sum_of first second }
{
    match (first, second) {
        (None, None) => true,
        (None, Some(_)) | (Some(_), None) => false,
        (Some(first), Some(second)) => first == second,
    }
}

// Whether bytes were read, and the zone of them was written last.
fn was_moved(
    alloc: Global,
    moving: &Moving,
    sum: Option<[u8; 32]>,
    source: Option<&MountState>,
    target: Option<&MountState>,
) -> Result<bool, NoMemory>
    ensures { IfOk result (λ moved. moved ≡ was_moved_of moving.now sum (option_copied source.entry) (option_copied target.entry)) }
{
    let Some(source) = source else {
        return Ok(false);
    };
    let Some(target) = target else {
        return Ok(false);
    };
    let Some(bytes) = &source.read else {
        return Ok(false);
    };
    match &target.written {
        None => Ok(false),
        Some(zone) => is_moved(alloc, target.epoch, moving, sum, bytes.as_slice(), zone),
    }
}

// Whether this zone is the one that the bytes are to become under an epoch, and this the sum that its chunk then has.
fn is_moved(
    alloc: Global,
    epoch: u64,
    moving: &Moving,
    sum: Option<[u8; 32]>,
    bytes: &[u8],
    zone: &Bytes,
) -> Result<bool, NoMemory>
    ensures { IfOk result (λ moved. moved ≡ is_moved_of epoch moving.now sum bytes.now (Some zone.now)) }
{
    let right = moved_zone(alloc, epoch, moving, bytes)?;
    let same = zone.as_slice() == right.as_slice();
    Ok(same && same_sum(sum, chunk_sum(moving.version, bytes)))
}
