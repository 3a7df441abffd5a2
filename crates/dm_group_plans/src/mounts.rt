//! What the calls that mount and unmount a volume come to.

ghost use Rattle.std.specs.Prelude.{◌≡◌, ◌∷◌, [], nat_eq};
ghost use Rattle.std.specs.List.{list_any};
ghost use Rattle.std.specs.Option.{option_copied};
ghost use Rattle.dm_durable.specs.Group.{chunk_at as chunk_at_offset};
ghost use Rattle.dm_model.specs.GroupCalls.{is_of_move as is_of_move_of, may_unmount as may_unmount_of, mount_chunk as mount_chunk_plan, mount_chunk_needs, mount_chunk_of as mount_chunk_of_plan, mount_new as mount_new_plan, mount_piece as mount_piece_plan, mount_piece_of as mount_piece_of_plan, of_tokens, piece_at as piece_at_place, recalls_from as recalls_from_worker, unmount as unmount_plan, unmount_needs};
ghost use Rattle.dm_model.specs.Plan.{no_needs};
ghost use Rattle.dm_model.specs.Volumes.{epoch_of as epoch_of_volume};
ghost use Rattle.dm_model.specs.declared.answer.Answer.TheVariants as answer;
ghost use Rattle.dm_model.specs.declared.plan.Opening.TheVariants as opening;
ghost use Rattle.dm_verdicts.specs.Verdict.{verdict_on};

use crate::prepared::{
    group_healing_plan, group_quiet_plan, is_new, no_token, no_token_with, refused_plan,
};
use dm_base::{Bfid, Chunk, GroupId, Piece, Vsn};
use dm_durable::BitfileRow;
use dm_group_usage::{epoch_of, is_configured, mount_refusal};
use dm_model::{
    Answer, Ending, Group, Guard, MountState, Mounted, Opening, Origin, Prepared, Recall, Reserved,
    Worker,
};
use dm_tables::Test;
use dm_verdicts::{Verdict, guarded, judge};

pub(crate) fn mount_new(library: &Group, id: GroupId, vsn: Vsn, number: u64) -> Verdict
    ensures { result ≡ verdict_on (mount_new_plan id library.now vsn number) no_needs }
{
    let configured = (is_configured(library, vsn), Guard::VolumeConfigured);
    if let Some(error) = mount_refusal(library, 0, vsn) {
        return guarded(&[configured], refused_plan(id, error));
    }
    let origin = Origin::New {
        listed: library.tables.volumes.contains(&vsn.0),
        format: library.conf.format,
    };
    let prepared = Prepared {
        opens: mount_opening(library, id, number, vsn, origin),
        ..group_healing_plan(id, mounted_answer(library, number, vsn))
    };
    let new = is_new(library.next_mount, u128::from(number));
    judge(&[configured, new], &[configured], prepared)
}

fn mounted_answer(library: &Group, number: u64, vsn: Vsn) -> Answer
    ensures { result ≡ answer.Mounted number vsn (epoch_of_volume library.now vsn.0) }
{
    Answer::Mounted {
        mount: number,
        vsn,
        epoch: epoch_of(library, vsn),
    }
}

// The mount that is made, under the epoch that the volume has.
fn mount_opening(library: &Group, id: GroupId, number: u64, vsn: Vsn, origin: Origin) -> Opening
    ensures { result ≡ opening.Mount id number vsn (epoch_of_volume library.now vsn.0) origin }
{
    Opening::Mount {
        group: id,
        number,
        vsn,
        epoch: epoch_of(library, vsn),
        origin,
    }
}

pub(crate) fn mount_piece(
    library: &Group,
    id: GroupId,
    place: u64,
    number: u64,
    reserved: Option<&Reserved>,
) -> Verdict
    ensures { result ≡ verdict_on (mount_piece_plan id library.now place number (option_copied reserved.entry)) no_needs }
{
    let Some(reserved) = reserved else {
        return no_token(id);
    };
    let piece = piece_at(place, reserved.pieces.as_slice());
    mount_piece_of(library, id, reserved, place, number, piece)
}

// The mount of this piece of the reservation, if there is one at the place.
fn mount_piece_of(
    library: &Group,
    id: GroupId,
    reserved: &Reserved,
    place: u64,
    number: u64,
    piece: Option<Piece>,
) -> Verdict
    ensures { result ≡ verdict_on (mount_piece_of_plan id library.now reserved.now place number piece) no_needs }
{
    let new = is_new(library.next_mount, u128::from(number));
    let device = (false, Guard::DeviceUsed);
    let Some(piece) = piece else {
        let missing = (false, Guard::PieceReserved);
        let prepared = group_quiet_plan(id, Answer::Failed);
        return judge(&[missing, new], &[missing, device], prepared);
    };
    if let Some(error) = mount_refusal(library, 0, piece.vsn) {
        return judge(
            &[],
            &[device],
            group_quiet_plan(id, Answer::GroupRefused { error }),
        );
    }
    let origin = Origin::Piece {
        bfid: reserved.bfid,
        index: place,
        piece,
        chunk: reserved.chunk,
    };
    let prepared = Prepared {
        opens: mount_opening(library, id, number, piece.vsn, origin),
        ..group_quiet_plan(id, mounted_answer(library, number, piece.vsn))
    };
    judge(&[new], &[device], prepared)
}

// The piece at a place of a list.
fn piece_at(place: u64, pieces: &[Piece]) -> Option<Piece>
    ensures { result ≡ piece_at_place place pieces.now }
{
    let mut left = place;
    for piece in pieces {
        if left == 0 {
            return Some(*piece);
        }
        left -= 1;
    }
    None
}

pub(crate) fn mount_chunk(
    worker: Option<&Worker>,
    library: &Group,
    id: GroupId,
    bfid: Bfid,
    offset: u64,
    number: u64,
    row: Option<&BitfileRow>,
) -> Verdict
    ensures { result ≡ verdict_on (mount_chunk_plan id library.now bfid offset number (option_copied row.entry)) (mount_chunk_needs (option_copied worker.entry) id bfid) }
{
    let recalled = (recalls_from(worker, bfid, id), Guard::ChunkWanted);
    let Some(row) = row else {
        return mount_chunk_of(library, id, bfid, number, None, recalled);
    };
    if offset == row.len {
        return guarded(&[recalled], group_healing_plan(id, Answer::AtEnd));
    }
    let chunk = chunk_at(offset, row.chunks.as_slice());
    mount_chunk_of(library, id, bfid, number, chunk, recalled)
}

// The mount of this chunk of the bitfile, if there is one.
fn mount_chunk_of(
    library: &Group,
    id: GroupId,
    bfid: Bfid,
    number: u64,
    chunk: Option<Chunk>,
    recalled: (bool, Guard),
) -> Verdict
    ensures { result ≡ verdict_on (mount_chunk_of_plan id library.now bfid number chunk) (of_tokens (recalled ∷ [])) }
{
    let new = is_new(library.next_mount, u128::from(number));
    let Some(chunk) = chunk else {
        let missing = (false, Guard::ChunkWanted);
        let prepared = group_healing_plan(id, Answer::Failed);
        return judge(&[missing, recalled, new], &[missing, recalled], prepared);
    };
    if let Some(error) = mount_refusal(library, 0, chunk.vsn) {
        return guarded(&[recalled], refused_plan(id, error));
    }
    let answer = Answer::AtChunk {
        mount: number,
        epoch: epoch_of(library, chunk.vsn),
        chunk,
    };
    let origin = Origin::Chunk { bfid, chunk };
    let prepared = Prepared {
        opens: mount_opening(library, id, number, chunk.vsn, origin),
        ..group_healing_plan(id, answer)
    };
    judge(&[recalled, new], &[recalled], prepared)
}

/// The chunk that begins at an offset.
pub(crate) fn chunk_at(offset: u64, chunks: &[Chunk]) -> Option<Chunk>
    ensures { result ≡ chunk_at_offset offset chunks.now }
{
    for chunk in chunks {
        if chunk.offset == offset {
            return Some(*chunk);
        }
    }
    None
}

// Whether the worker has an open recall of the bitfile that asks the group.
fn recalls_from(worker: Option<&Worker>, bfid: Bfid, group: GroupId) -> bool
    ensures { result ≡ recalls_from_worker bfid.0 group.0 (option_copied worker.entry) }
{
    match worker {
        None => false,
        Some(worker) => worker.recalls.any(&RecallFrom { bfid, group }),
    }
}

// Is it a recall of this bitfile that asks this group?
#[derive(Drop)]
struct RecallFrom {
    bfid: Bfid,
    group: GroupId,
}

impl Test<Recall> for RecallFrom {
    ghost use Rattle.dm_model.specs.GroupCalls.{is_recall_from};

    ghost passes = { λ it recall. is_recall_from it.bfid.0 it.group.0 recall };

    fn test(&self, recall: &Recall) -> bool {
        recall.bfid.0 == self.bfid.0 && asks(recall, self.group)
    }
}

fn asks(recall: &Recall, group: GroupId) -> bool
    ensures { result ≡ list_any (λ h. nat_eq h.0 group.0) recall.now.asked }
{
    recall
        .asked
        .as_slice()
        .iter()
        .any(|asked| asked.0 == group.0)
}

pub(crate) fn unmount(
    id: GroupId,
    number: u64,
    mounted: Option<Mounted>,
    state: Option<&MountState>,
) -> Verdict
    ensures { result ≡ verdict_on (unmount_plan id number mounted) (unmount_needs (option_copied state.entry)) }
{
    let free = (may_unmount(state), Guard::NoMove);
    if mounted.is_none() {
        return no_token_with(id, free);
    }
    let prepared = Prepared {
        ends: Ending::Mount { group: id, number },
        ..group_quiet_plan(id, Answer::Unmounted)
    };
    judge(&[free], &[free, (false, Guard::DeviceUsed)], prepared)
}

// Whether the mount may be unmounted by itself: one of a move goes with it.
fn may_unmount(state: Option<&MountState>) -> bool
    ensures { result ≡ may_unmount_of (option_copied state.entry) }
{
    match state {
        None => true,
        Some(state) => !is_of_move(state.origin),
    }
}

fn is_of_move(origin: Origin) -> bool
    ensures { result ≡ is_of_move_of origin }
{
    match origin {
        Origin::Source { .. } | Origin::Target { .. } => true,
        Origin::New { .. } | Origin::Piece { .. } | Origin::Chunk { .. } | Origin::Reuse { .. } =>
            false,
    }
}
