//! What the reads of chunks and of labels come to.

ghost use Rattle.std.specs.Prelude.{◌≡◌, ◌∷◌, [], not, ◌||◌, length, nat_eq, IfOk};
ghost use Rattle.std.specs.FinMap as finmap;
ghost use Rattle.dm_model.specs.VolumeCalls.{has_sum_of as has_sum_of_chunk, is_of_any_volume as is_of_any_volume_of, is_range as is_range_of, is_read_of as is_read_of_chunk, read_chunk_needs, read_mark as read_mark_of};
ghost use Rattle.dm_model.specs.declared.guard.Guard.TheVariants as guard;
ghost use Rattle.dm_rules.specs.Known.{agrees_with_known as agrees_with_known_of, may_be as may_be_of};

use dm_base::{Bytes, Chunk, GroupId, NoMemory};
use dm_model::{Guard, Image, Mark, MountState, Origin};
use dm_rules::{FIRST_ZONE, SECOND_VERSION};
use dm_tables::Numbers;
use dm_zone::chunk_sum;
use std::alloc::Global;

/// What a read that counts leaves for the recalls of the worker, or for the move.
pub(crate) fn read_mark(
    alloc: Global,
    id: GroupId,
    number: u64,
    place: u64,
    len: u64,
    bytes: &Bytes,
    origin: Origin,
) -> Result<Mark, NoMemory>
    ensures { IfOk result (λ m. m ≡ read_mark_of id number place len bytes.now origin) }
{
    match origin {
        Origin::Chunk { bfid, chunk } => {
            if !is_read_of(chunk, place, len, bytes.as_slice()) {
                return Ok(Mark::Nothing);
            }
            Ok(Mark::Read {
                group: id,
                bfid,
                offset: chunk.offset,
                bytes: bytes.copied(alloc)?,
            })
        }
        Origin::Source { chunk, .. } => {
            if !is_read_of(chunk, place, len, bytes.as_slice()) {
                return Ok(Mark::Nothing);
            }
            Ok(Mark::Source {
                group: id,
                mount: number,
                bytes: bytes.copied(alloc)?,
            })
        }
        Origin::New { .. } | Origin::Piece { .. } | Origin::Target { .. } | Origin::Reuse { .. } =>
            Ok(Mark::Nothing),
    }
}

// Whether a read of this range, which gave these bytes, is one of the whole chunk that counts.
fn is_read_of(chunk: Chunk, place: u64, len: u64, bytes: &[u8]) -> bool
    ensures { result ≡ is_read_of_chunk chunk place len bytes.now }
{
    place == chunk.place && len == chunk.len && has_sum_of(chunk.sum, bytes)
}

// Whether bytes have the sum, where there is one.
fn has_sum_of(sum: Option<[u8; 32]>, bytes: &[u8]) -> bool
    ensures { result ≡ has_sum_of_chunk sum bytes.now }
{
    let Some(sum) = sum else {
        return true;
    };
    match chunk_sum(SECOND_VERSION, bytes) {
        None => false,
        Some(right) => sum == right,
    }
}

/// What a read needs of the image.
pub(crate) fn range_guard(image: &Image, place: u64, len: u64) -> (bool, Guard)
    ensures { result ≡ (is_range_of image.now.size place len, guard.RangeRead) }
{
    (is_range(image.size, place, len), Guard::RangeRead)
}

// The range lies behind the label within the volume, or is the label.
fn is_range(size: u64, place: u64, len: u64) -> bool
    ensures { result ≡ is_range_of size place len }
{
    let within = u128::from(place) + u128::from(len) <= u128::from(size);
    (FIRST_ZONE <= place && within) || (place == 0 && len == FIRST_ZONE)
}

/// What its answer needs: as many bytes as were asked for, which agree with what is known where the mount is bound to it.
pub(crate) fn bytes_guards(
    image: &Image,
    place: u64,
    len: u64,
    bytes: &[u8],
    bound: bool,
) -> ((bool, Guard), (bool, Guard))
    ensures whole { result.0 ≡ (nat_eq (length bytes.now) len, guard.RangeRead) }
    ensures known { result.1 ≡ (not bound || agrees_with_known_of image.now.known place bytes.now, guard.RangeRead) }
{
    let whole = bytes.len() as u64 == len;
    let known = !bound || agrees(&image.known, place, bytes);
    ((whole, Guard::RangeRead), (known, Guard::RangeRead))
}

// Whether the bytes agree, from `place` on, with each place that is known.
fn agrees(known: &Numbers<u8>, place: u64, bytes: &[u8]) -> bool
    ensures { result ≡ agrees_with_known_of known.now place bytes.now }
{
    for (index, byte) in bytes.iter().enumerate() {
        if !may_be(known, u128::from(place) + index as u128, *byte) {
            return false;
        }
    }
    true
}

// Whether this byte may stand at that place.
fn may_be(known: &Numbers<u8>, place: u128, byte: u8) -> bool
    ensures { result ≡ may_be_of (finmap.get known.now place) byte }
{
    match known.get(place) {
        None => true,
        Some(other) => *other == byte,
    }
}

/// What a read needs of the mount: the label is read under a mount of any volume alone.
pub(crate) fn mount_guard(place: u64, mount: &MountState) -> (bool, Guard)
    ensures { result ∷ [] ≡ read_chunk_needs place mount.now }
{
    (
        FIRST_ZONE <= place || is_of_any_volume(mount.origin),
        Guard::RangeRead,
    )
}

fn is_of_any_volume(origin: Origin) -> bool
    ensures { result ≡ is_of_any_volume_of origin }
{
    match origin {
        Origin::New { .. } => true,
        Origin::Piece { .. }
        | Origin::Chunk { .. }
        | Origin::Source { .. }
        | Origin::Target { .. }
        | Origin::Reuse { .. } => false,
    }
}
