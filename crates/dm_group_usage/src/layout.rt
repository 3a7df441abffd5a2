//! How a bitfile is laid out: its pieces on volumes, and the chunks of a piece.

ghost use Rattle.std.specs.Prelude.{◌≡◌, true, IfOk};
ghost use Rattle.dm_group_usage.specs.Range.{are_pieces_in_range, is_piece_in_range};
ghost use Rattle.dm_rules.specs.Plan.{chunks_of as chunks_of_piece, pieces_of as pieces_in, rooms as rooms_of, zone_end as zone_end_of};
ghost use Rattle.dm_rules.specs.Version.{chunk_header as header_of};
ghost use Rattle.dm_rules.specs.Zone.{chunk_count as chunk_count_of};

use dm_base::{Chunk, Listed, NoMemory, Piece};
use dm_rules::{Space, ZONE_HEADER, chunk_header, has_sum};
use std::alloc::Global;

/// How many bytes the volumes can hold together.
pub fn rooms(spaces: &[Space]) -> u128
    ensures { result ≡ rooms_of spaces.now }
{
    let mut sum: u128 = 0;
    for space in spaces {
        sum += u128::from(space.room);
    }
    sum
}

/// The pieces of a bitfile of `len` bytes, as far as the volumes have room.
pub fn pieces_of(alloc: Global, spaces: &[Space], len: u64) -> Result<Listed<Piece>, NoMemory>
    ensures { IfOk result (λ pieces. pieces ≡ pieces_in spaces.now 0 len) }
{
    let mut pieces = Vec::new(alloc);
    let mut offset = 0;
    let mut left = len;
    for space in spaces {
        let taken = space.room.min(left);
        if taken > 0 {
            pieces.push(Piece {
                vsn: space.vsn,
                version: space.version,
                zone: space.tip,
                offset,
                len: taken,
            })?;
            offset += taken;
            left -= taken;
        }
    }
    Ok(Listed::from_vec(pieces))
}

/// Whether 64 bits hold each place of these pieces: of their zones, with chunks of `chunk` bytes, and in their bitfile.
pub fn are_in_range(chunk: u64, pieces: &[Piece]) -> bool
    ensures { result ≡ are_pieces_in_range chunk pieces.now }
{
    pieces.iter().all(|piece| is_in_range(chunk, *piece))
}

fn is_in_range(chunk: u64, piece: Piece) -> bool
    ensures { result ≡ is_piece_in_range chunk piece }
{
    let behind = u128::from(piece.offset) + u128::from(piece.len);
    zone_end(chunk, piece) <= u128::from(u64::MAX) && behind <= u128::from(u64::MAX)
}

// The place behind the zone of the piece.
fn zone_end(chunk: u64, piece: Piece) -> u128
    ensures { result ≡ zone_end_of chunk piece }
{
    let count = chunk_count(chunk, piece.len);
    let headers = u128::from(header(piece.version)) * u128::from(count);
    u128::from(piece.zone) + (u128::from(ZONE_HEADER) + headers + u128::from(piece.len))
}

// The length of a chunk's header, so narrow that its product with a number of chunks has 128 bits.
fn header(version: u8) -> u8
    ensures { result ≡ header_of version }
{
    if has_sum(version) { 80 } else { 48 }
}

/// The chunks of `chunk` bytes that the zone of the piece holds. Whether 64 bits hold their places is told by `are_in_range`.
pub fn chunks_of(alloc: Global, chunk: u64, piece: Piece) -> Result<Vec<Chunk>, NoMemory>
    requires { is_piece_in_range chunk piece ≡ true }
    ensures { IfOk result (λ chunks. chunks.items ≡ chunks_of_piece chunk piece) }
{
    let header = chunk_header(piece.version);
    let mut chunks = Vec::new(alloc);
    let mut offset = piece.offset;
    let mut left = piece.len;
    let mut place = piece.zone + ZONE_HEADER;
    for _ in 0..chunk_count(chunk, piece.len) {
        let taken = chunk.min(left);
        let bytes = place + header;
        chunks.push(Chunk {
            offset,
            len: taken,
            vsn: piece.vsn,
            zone: piece.zone,
            place: bytes,
            sum: None,
        })?;
        offset += taken;
        left -= taken;
        place = bytes + taken;
    }
    Ok(chunks)
}

// How many chunks of `chunk` bytes hold n bytes.
fn chunk_count(chunk: u64, n: u64) -> u64
    ensures { result ≡ chunk_count_of chunk n }
{
    if chunk == 0 {
        u64::from(n > 0)
    } else {
        n.div_ceil(chunk)
    }
}
