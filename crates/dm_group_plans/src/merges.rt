//! What the calls of a merge come to that look for volumes and chunks.

ghost use Rattle.std.specs.Prelude.{◌≡◌, ◌∷◌, [], true, false, Some, IfOk, IfSome, IfNone, IsErrOf, is_some};
ghost use Rattle.std.specs.FinMap as map;
ghost use Rattle.std.specs.List.{list_all};
ghost use Rattle.std.specs.Option.{option_map};
ghost use Rattle.dm_base.specs.declared.error.GroupError.TheVariants as error;
ghost use Rattle.dm_durable.specs.Volumes.{chunk_moved_to as chunk_moved_to_space};
ghost use Rattle.dm_group_plans.specs.Found.{merge_to_having};
ghost use Rattle.dm_group_usage.specs.Found.{live_chunk_of};
ghost use Rattle.dm_group_usage.specs.Range.{IsGroupInRange, is_space_in_range, is_target_in_range};
ghost use Rattle.dm_model.specs.GroupCalls.{group_refusal, merge_first as merge_first_plan, merge_list as merge_list_plan, merge_next as merge_next_plan, move_to as move_to_plan};
ghost use Rattle.dm_model.specs.Guards.{first_true};
ghost use Rattle.dm_model.specs.Plan.{no_needs, prepared_plan};
ghost use Rattle.dm_model.specs.Volumes.{mount_refusal as mount_refusal_of};
ghost use Rattle.dm_verdicts.specs.Verdict.{verdict_on};

use crate::prepared::{group_healing_plan, is_new, refused_plan};
use dm_base::{Chunk, GroupError, GroupId, Listed, NoMemory, Vsn};
use dm_durable::VolumeRow;
use dm_group_usage::{
    Live, destination, epoch_of, first_on, greatest_room, is_listed, mount_refusal, target_spaces,
};
use dm_model::{Answer, Group, Guard, Moving, Opening, Prepared};
use dm_rules::{Space, ZONE_HEADER, chunk_header};
use dm_tables::Texts;
use dm_verdicts::{Verdict, VerdictError, guarded, judge, legal};
use std::alloc::Global;

pub(crate) fn merge_list(alloc: Global, library: &Group, id: GroupId) -> Result<Verdict, NoMemory>
    ensures { IfOk result (λ v. v ≡ verdict_on (merge_list_plan id library.now) no_needs) }
{
    let vsns = dm_group_usage::merge_list(alloc, library)?;
    Ok(legal(group_healing_plan(id, Answer::SparseVolumes { vsns })))
}

/// The numbers of the tokens that a move makes.
#[derive(Clone, Copy, Debug, PartialEq, Eq)]
pub(crate) struct MoveTokens {
    pub(crate) job: u64,
    pub(crate) from: u64,
    pub(crate) to: u64,
}

pub(crate) fn merge_next(
    alloc: Global,
    library: &Group,
    id: GroupId,
    list: &Listed<Vsn>,
    source: Vsn,
    tokens: MoveTokens,
) -> Result<Verdict, VerdictError>
    ensures verdict { IfOk result (λ v. v ≡ verdict_on (merge_next_plan id library.now list.now source tokens.job tokens.from tokens.to) no_needs) }
    ensures range { IsErrOf result VerdictError.OutOfRange → IsGroupInRange library.now → ⊥ }
{
    let merged = list.as_slice();
    let listed = (is_listed(merged, source), Guard::SourceListed);
    let there = are_there(&library.tables.volumes, merged);
    let there = (there, Guard::SourceListed);
    let first = first_on(&library.tables.bitfiles, source);
    merge_first(alloc, library, id, merged, tokens, (listed, there), first)
}

// What is next of a merge, whose source has this chunk first.
fn merge_first(
    alloc: Global,
    library: &Group,
    id: GroupId,
    merged: &[Vsn],
    tokens: MoveTokens,
    own: ((bool, Guard), (bool, Guard)),
    first: Option<Live>,
) -> Result<Verdict, VerdictError>
    ensures verdict { IfOk result (λ v. v ≡ verdict_on (record (merge_first_plan id library.now merged.now tokens.job tokens.from tokens.to (option_map live_chunk_of first)) { own = own.0 ∷ own.1 ∷ [] }) no_needs) }
    ensures range { IsErrOf result VerdictError.OutOfRange → IsGroupInRange library.now → ⊥ }
{
    let (listed, there) = own;
    let Some(live) = first else {
        let prepared = group_healing_plan(id, Answer::SourceEmpty);
        return Ok(guarded(&[listed, there], prepared));
    };
    merge_live(alloc, library, id, merged, tokens, (listed, there), live)
}

// The same of a source that has this chunk first.
fn merge_live(
    alloc: Global,
    library: &Group,
    id: GroupId,
    merged: &[Vsn],
    tokens: MoveTokens,
    own: ((bool, Guard), (bool, Guard)),
    live: Live,
) -> Result<Verdict, VerdictError>
    ensures verdict { IfOk result (λ v. v ≡ verdict_on (record (merge_first_plan id library.now merged.now tokens.job tokens.from tokens.to (Some (live_chunk_of live))) { own = own.0 ∷ own.1 ∷ [] }) no_needs) }
    ensures range { IsErrOf result VerdictError.OutOfRange → IsGroupInRange library.now → ⊥ }
{
    let spaces = target_spaces(alloc, library, merged)?;
    let space = destination(live.chunk.len, spaces.as_slice());
    let have = greatest_room(spaces.as_slice());
    merge_to(library, id, live, tokens, own, space, have)
}

// The move of this chunk to this volume, if one has room; the greatest room is this.
fn merge_to(
    library: &Group,
    id: GroupId,
    live: Live,
    tokens: MoveTokens,
    own: ((bool, Guard), (bool, Guard)),
    space: Option<Space>,
    have: u64,
) -> Result<Verdict, VerdictError>
    ensures verdict { IfOk result (λ v. v ≡ verdict_on (record (merge_to_having id library.now (live_chunk_of live) tokens.job tokens.from tokens.to space have) { own = own.0 ∷ own.1 ∷ [] }) no_needs) }
    ensures range { IsErrOf result VerdictError.OutOfRange → is_target_in_range space ≡ false }
{
    let (listed, there) = own;
    let Some(space) = space else {
        let error = no_destination(library, live.chunk, have);
        return Ok(guarded(&[listed, there], refused_plan(id, error)));
    };
    if let Some(error) = mount_refusal(library, 1, live.chunk.vsn) {
        return Ok(guarded(&[listed, there], refused_plan(id, error)));
    }
    let Some(prepared) = move_to(library, id, live, space, tokens) else {
        return Err(VerdictError::OutOfRange);
    };
    let job = is_new(library.next_move, u128::from(tokens.job));
    let from = is_new(library.next_mount, u128::from(tokens.from));
    let to = is_new(u128::from(tokens.from) + 1, u128::from(tokens.to));
    Ok(judge(&[listed, there, job, from, to], &[listed, there], prepared))
}

// Why a chunk can't be moved for which no volume has room: its volume can't be mounted, or else that.
fn no_destination(library: &Group, chunk: Chunk, have: u64) -> GroupError
    ensures { Some (group_refusal result) ≡ first_true (mount_refusal_of 1 library.now chunk.vsn.0 ∷ (true, group_refusal (error.NoRoom have chunk.len)) ∷ []) }
{
    match mount_refusal(library, 1, chunk.vsn) {
        Some(error) => error,
        None => GroupError::NoRoom {
            have,
            need: chunk.len,
        },
    }
}

// What begins with the move of a chunk to this volume, if 64 bits hold its place there.
fn move_to(
    library: &Group,
    id: GroupId,
    live: Live,
    space: Space,
    tokens: MoveTokens,
) -> Option<Prepared>
    ensures there { IfSome result (λ p. p ≡ prepared_plan (move_to_plan id library.now (live_chunk_of live) space tokens.job tokens.from tokens.to)) }
    ensures none { IfNone result (is_space_in_range space ≡ false) }
{
    let to = chunk_moved_to(space, live.chunk)?;
    let source_epoch = epoch_of(library, live.chunk.vsn);
    let target_epoch = epoch_of(library, space.vsn);
    let moving = moving_of(live, space, to, tokens);
    let answer = Answer::MoveBegun {
        job: tokens.job,
        bfid: live.bfid,
        total: live.total,
        from: live.chunk,
        to,
        source: tokens.from,
        source_epoch,
        target: tokens.to,
        target_epoch,
        version: space.version,
    };
    Some(Prepared {
        opens: Opening::Move {
            group: id,
            number: tokens.job,
            moving,
            source_epoch,
            target_epoch,
        },
        ..group_healing_plan(id, answer)
    })
}

// The move of a chunk to a volume, where it is to stand as this one.
fn moving_of(live: Live, space: Space, to: Chunk, tokens: MoveTokens) -> Moving
    ensures { result ≡ record { bfid = live.bfid; total = live.total; from = live.chunk; to = to; version = space.version; source = tokens.from; target = tokens.to } }
{
    Moving {
        bfid: live.bfid,
        total: live.total,
        from: live.chunk,
        to,
        version: space.version,
        source: tokens.from,
        target: tokens.to,
    }
}

// The chunk as the only one of a zone at the tip of this volume, if 64 bits hold its place.
fn chunk_moved_to(space: Space, chunk: Chunk) -> Option<Chunk>
    ensures there { IfSome result (λ moved. moved ≡ chunk_moved_to_space space chunk) }
    ensures none { IfNone result (is_space_in_range space ≡ false) }
{
    let headers = ZONE_HEADER + chunk_header(space.version);
    let Some(place) = space.tip.checked_add(headers) else {
        return None;
    };
    Some(Chunk {
        offset: chunk.offset,
        len: chunk.len,
        vsn: space.vsn,
        zone: space.tip,
        place,
        sum: None,
    })
}

// Whether the tables have each of these volumes.
fn are_there(volumes: &Texts<VolumeRow>, merged: &[Vsn]) -> bool
    ensures { result ≡ list_all (λ v. is_some (map.get volumes.now v.0)) merged.now }
{
    merged.iter().all(|vsn| volumes.contains(&vsn.0))
}
