//! Times that may be none, sums, and chunks.

ghost use Rattle.std.specs.Prelude.{◌≡◌, ◌<◌, ◌++◌, length, MatchOption};
ghost use Rattle.dm_fields.specs.Once.{chunk_fields};

use crate::field::{Field, Spelled};
use crate::input::{Input, ReadError};
use crate::numbers::{put_be64, put_bytes};
use dm_base::{Chunk, Secs, Vsn};
use std::alloc::Global;

#[tactic(auto, using(crate::specs::Once::widths))]
impl Spelled for Option<Secs> {
    ghost use Rattle.dm_durable.specs.Fields.{IsTimeOrNone};
    ghost use Rattle.dm_fields.specs.Fields.{moment_field};

    ghost spelling = { moment_field };

    ghost fits = { IsTimeOrNone };

    fn spelled_len(&self) -> usize {
        match self {
            None => 9,
            Some(_) => 9,
        }
    }

    fn put(&self, out: &mut [u8], at: usize) -> usize {
        match self {
            None => {
                let behind = put_bytes(out, at, &[0]);
                put_be64(out, behind, 0)
            }
            Some(time) => {
                let behind = put_bytes(out, at, &[1]);
                put_be64(out, behind, time.0)
            }
        }
    }
}

impl Field for Option<Secs> {
    ghost use Rattle.dm_fields.specs.Once.{moment_once};

    ghost once = { moment_once };

    fn read(alloc: Global, input: &mut Input<'_>) -> Result<Option<Secs>, ReadError> {
        match <(bool, u64)>::read(alloc, input) {
            Ok((there, time)) => {
                if there {
                    return Ok(Some(Secs(time)));
                }
                // Where there is no time its place has zeros.
                if time != 0 {
                    return Err(ReadError::Damaged);
                }
                Ok(None)
            }
            Err(error) => Err(error),
        }
    }
}

/// How many bytes the sum of a chunk has: it is its SHA-256.
pub const SUM_LENGTH: usize = 32;

impl Spelled for Option<[u8; SUM_LENGTH]> {
    ghost use Rattle.dm_durable.specs.Fields.{IsSumOrNone};
    ghost use Rattle.dm_fields.specs.Fields.{sum_field};

    ghost spelling = { sum_field };

    ghost fits = { IsSumOrNone };

    fn spelled_len(&self) -> usize {
        match self {
            None => 1,
            Some(sum) => {
                let bytes: &[u8] = sum;
                1 + bytes.len()
            }
        }
    }

    fn put(&self, out: &mut [u8], at: usize) -> usize {
        match self {
            None => put_bytes(out, at, &[0]),
            Some(sum) => {
                let behind = put_bytes(out, at, &[1]);
                put_bytes(out, behind, sum)
            }
        }
    }
}

// The bytes of a sum.
fn take_sum(input: &mut Input<'_>) -> Option<[u8; SUM_LENGTH]>
    ensures { MatchOption result (length input.old < 32) (λ sum. (length sum ≡ 32) × (input.old ≡ sum ++ input.new)) }
{
    let bytes = input.take(SUM_LENGTH)?;
    <[u8; SUM_LENGTH]>::try_from(bytes).ok()
}

impl Field for Option<[u8; SUM_LENGTH]> {
    ghost use Rattle.dm_fields.specs.Once.{sum_once};

    ghost once = { sum_once };

    fn read(alloc: Global, input: &mut Input<'_>) -> Result<Option<[u8; SUM_LENGTH]>, ReadError> {
        match bool::read(alloc, input) {
            Ok(false) => Ok(None),
            Ok(true) => match take_sum(input) {
                Some(sum) => Ok(Some(sum)),
                None => Err(ReadError::Damaged),
            },
            Err(error) => Err(error),
        }
    }
}

// The fields of a chunk without its sum.
type Place = (u64, (u64, (Vsn, (u64, u64))));

fn place_of(chunk: &Chunk) -> Place
    ensures { result ≡ chunk_fields chunk.now }
{
    (
        chunk.offset,
        (chunk.len, (chunk.vsn, (chunk.zone, chunk.place))),
    )
}

impl Spelled for Chunk {
    ghost use Rattle.dm_durable.specs.Fields.{FitsChunk};
    ghost use Rattle.dm_fields.specs.Fields.{longer_chunk_field};

    ghost spelling = { longer_chunk_field };

    ghost fits = { FitsChunk };

    fn spelled_len(&self) -> usize {
        (place_of(self), self.sum).spelled_len()
    }

    fn put(&self, out: &mut [u8], at: usize) -> usize {
        (place_of(self), self.sum).put(out, at)
    }
}

impl Field for Chunk {
    ghost use Rattle.dm_fields.specs.Once.{chunk_once};

    ghost once = { chunk_once };

    fn read(alloc: Global, input: &mut Input<'_>) -> Result<Chunk, ReadError> {
        match <(Place, Option<[u8; SUM_LENGTH]>)>::read(alloc, input) {
            Ok(((offset, (len, (vsn, (zone, place)))), sum)) => Ok(Chunk {
                offset,
                len,
                vsn,
                zone,
                place,
                sum,
            }),
            Err(error) => Err(error),
        }
    }
}

/// A chunk as it was spelled before there were sums. It has none.
#[derive(Clone, Copy, Debug, PartialEq, Eq)]
pub struct OldChunk {
    pub chunk: Chunk,
}

impl Spelled for OldChunk {
    ghost use Rattle.dm_durable.specs.Fields.{FitsChunk, HasNoSum};
    ghost use Rattle.dm_fields.specs.Fields.{chunk_field};

    ghost spelling = { λ c. chunk_field c.chunk };

    ghost fits = { λ c. FitsChunk c.chunk × HasNoSum c.chunk };

    fn spelled_len(&self) -> usize {
        place_of(&self.chunk).spelled_len()
    }

    fn put(&self, out: &mut [u8], at: usize) -> usize {
        place_of(&self.chunk).put(out, at)
    }
}

impl Field for OldChunk {
    ghost use Rattle.dm_fields.specs.Once.{old_chunk_once};

    ghost once = { old_chunk_once };

    fn read(alloc: Global, input: &mut Input<'_>) -> Result<OldChunk, ReadError> {
        match Place::read(alloc, input) {
            Ok((offset, (len, (vsn, (zone, place))))) => Ok(OldChunk {
                chunk: Chunk {
                    offset,
                    len,
                    vsn,
                    zone,
                    place,
                    sum: None,
                },
            }),
            Err(error) => Err(error),
        }
    }
}
