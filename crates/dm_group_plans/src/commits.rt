//! What a commit needs and journals: the zones that were written, and the sums of their chunks.

ghost use Rattle.std.specs.Prelude.{◌≡◌, ◌++◌, Some, cond, take, drop, slice_get, true, IfOk, OnOk};
ghost use Rattle.std.specs.Prelude as prelude;
ghost use Rattle.std.specs.FinMap as map;
ghost use Rattle.std.specs.List.{flat_map};
ghost use Rattle.std.specs.Option.{option_copied};
ghost use Rattle.dm_model.specs.GroupCalls.{all_written as all_written_of, are_sums_of as are_sums_of_pieces, are_written as are_written_of, is_part as is_part_of, is_zone_of as is_zone_of_piece, part_of as part_of_bytes, piece_sums as piece_sums_of, same_sums as same_sums_of, summed_chunks as summed_chunks_of, with_sums};
ghost use Rattle.dm_group_plans.specs.Found.{with_sum as with_sum_of};
ghost use Rattle.dm_group_usage.specs.Range.{are_pieces_in_range, is_piece_in_range};
ghost use Rattle.dm_rules.specs.Version.{has_sum as has_sum_of};
ghost use Rattle.sha2.specs.Sha256.{sha256};

use dm_base::{Bytes, Chunk, Listed, NoMemory, Piece};
use dm_group_usage::chunks_of;
use dm_model::{CopyReservation, Reserved, WrittenZone};
use dm_rules::has_sum;
use dm_tables::Numbers;
use dm_zone::encode_zone;
use sha2::{Digest, Sha256};
use std::alloc::Global;

/// Whether each piece of the reservation was written last with its zone of these bytes.
pub(crate) fn all_written(
    alloc: Global,
    bytes: Option<&Bytes>,
    reserved: &Reserved,
    reservation: Option<&CopyReservation>,
) -> Result<bool, NoMemory>
    ensures { IfOk result (λ all. all ≡ all_written_of (option_copied bytes.entry) reserved.now (option_copied reservation.entry)) }
{
    let Some(bytes) = bytes else {
        return Ok(false);
    };
    match reservation {
        None => Ok(false),
        Some(copy) => are_written(alloc, bytes.as_slice(), reserved, &copy.written),
    }
}

fn are_written(
    alloc: Global,
    bytes: &[u8],
    reserved: &Reserved,
    written: &Numbers<WrittenZone>,
) -> Result<bool, NoMemory>
    ensures { IfOk result (λ all. all ≡ are_written_of bytes.now reserved.now written.now 0 reserved.now.pieces) }
{
    for (index, piece) in reserved.pieces.as_slice().iter().enumerate() {
        let holds = is_written(alloc, bytes, reserved, *piece, written, index)?;
        if !holds {
            return Ok(false);
        }
    }
    Ok(true)
}

// Whether the piece, which has this place in the list, was written last with its zone.
fn is_written(
    alloc: Global,
    bytes: &[u8],
    reserved: &Reserved,
    piece: Piece,
    written: &Numbers<WrittenZone>,
    index: usize,
) -> Result<bool, NoMemory>
    ensures { IfOk result (λ holds. holds ≡ is_zone_of_piece bytes.now reserved.now piece (map.get written.now index)) }
{
    match written.get(index as u128) {
        None => Ok(false),
        Some(zone) => is_zone_of(alloc, bytes, reserved, piece, zone),
    }
}

// Whether this is the zone of the piece of these bytes.
fn is_zone_of(
    alloc: Global,
    bytes: &[u8],
    reserved: &Reserved,
    piece: Piece,
    written: &WrittenZone,
) -> Result<bool, NoMemory>
    ensures { IfOk result (λ holds. holds ≡ is_zone_of_piece bytes.now reserved.now piece (Some written.now)) }
{
    if !is_part(bytes, reserved, piece) {
        return Ok(false);
    }
    let start = piece.offset as usize;
    let part = &bytes[start..start + piece.len as usize];
    let zone = encode_zone(
        alloc,
        written.epoch,
        piece.version,
        reserved.bfid,
        reserved.len,
        piece.offset,
        part,
        reserved.chunk,
    )?;
    Ok(written.zone.as_slice() == zone.as_slice())
}

// Whether the piece is a part of these bytes, and can be one zone.
fn is_part(bytes: &[u8], reserved: &Reserved, piece: Piece) -> bool
    ensures { result ≡ is_part_of bytes.now reserved.now piece }
{
    let whole = bytes.len() as u64;
    let chunk = reserved.chunk;
    if whole != reserved.len || piece.len == 0 || chunk == 0 {
        return false;
    }
    if whole < piece.len || whole - piece.len < piece.offset {
        return false;
    }
    piece.len.div_ceil(chunk) <= u64::from(u32::MAX)
}

/// Whether these are the sums of the chunks on volumes whose chunks have sums.
pub(crate) fn are_sums_of(
    alloc: Global,
    bytes: Option<&Bytes>,
    reserved: &Reserved,
    sums: &[[u8; 32]],
) -> Result<bool, NoMemory>
    requires { are_pieces_in_range reserved.now.chunk reserved.now.pieces ≡ true }
    ensures { IfOk result (λ all. all ≡ are_sums_of_pieces (option_copied bytes.entry) reserved.now sums.now) }
{
    let Some(bytes) = bytes else {
        return Ok(false);
    };
    let right = all_sums(
        alloc,
        reserved.chunk,
        bytes.as_slice(),
        reserved.pieces.as_slice(),
    )?;
    Ok(same_sums(sums, right.as_slice()))
}

fn same_sums(sums: &[[u8; 32]], others: &[[u8; 32]]) -> bool
    ensures { result ≡ same_sums_of sums.now others.now }
{
    sums == others
}

// The sums of the chunks of all pieces.
fn all_sums(
    alloc: Global,
    chunk: u64,
    bytes: &[u8],
    pieces: &[Piece],
) -> Result<Vec<[u8; 32]>, NoMemory>
    requires { are_pieces_in_range chunk pieces.now ≡ true }
    ensures { IfOk result (λ sums. sums.items ≡ flat_map (piece_sums_of chunk bytes.now) pieces.now) }
{
    let mut sums = Vec::new(alloc);
    for piece in pieces {
        put_sums(alloc, &mut sums, chunk, bytes, *piece)?;
    }
    Ok(sums)
}

// Puts the sums of the chunks of a piece behind what is there.
fn put_sums(
    alloc: Global,
    sums: &mut Vec<[u8; 32]>,
    chunk: u64,
    bytes: &[u8],
    piece: Piece,
) -> Result<(), NoMemory>
    requires { is_piece_in_range chunk piece ≡ true }
    ensures { OnOk result (sums.new.items ≡ sums.old.items ++ piece_sums_of chunk bytes.now piece) }
{
    if !has_sum(piece.version) {
        return Ok(());
    }
    let chunks = chunks_of(alloc, chunk, piece)?;
    let right = sums_of(alloc, bytes, chunks.as_slice())?;
    sums.extend_from_slice(right.as_slice())?;
    Ok(())
}

fn sums_of(alloc: Global, bytes: &[u8], chunks: &[Chunk]) -> Result<Vec<[u8; 32]>, NoMemory>
    ensures { IfOk result (λ sums. sums.items ≡ prelude.map (λ c. sha256 (part_of_bytes bytes.now c.offset c.len)) chunks.now) }
{
    let mut sums = Vec::new(alloc);
    for chunk in chunks {
        sums.push(sum_at(bytes, chunk))?;
    }
    Ok(sums)
}

// The sum of the bytes of a chunk.
fn sum_at(bytes: &[u8], chunk: &Chunk) -> [u8; 32]
    ensures { result ≡ sha256 (part_of_bytes bytes.now chunk.now.offset chunk.now.len) }
{
    Sha256::digest(part_of(bytes, chunk.offset, chunk.len))
}

// These bytes of a bitfile, as far as they are there.
fn part_of(bytes: &[u8], offset: u64, len: u64) -> &[u8]
    ensures { result.now ≡ part_of_bytes bytes.now offset len }
{
    first_of(behind(bytes, offset), len)
}

fn behind(bytes: &[u8], offset: u64) -> &[u8]
    ensures { result.now ≡ drop offset bytes.now }
{
    if bytes.len() as u64 <= offset {
        return &[];
    }
    &bytes[offset as usize..]
}

fn first_of(bytes: &[u8], len: u64) -> &[u8]
    ensures { result.now ≡ take len bytes.now }
{
    if bytes.len() as u64 <= len {
        return bytes;
    }
    &bytes[..len as usize]
}

/// The chunks of all pieces, those on volumes whose chunks have sums with the sums, in order.
pub(crate) fn summed_chunks(
    alloc: Global,
    chunk: u64,
    pieces: &[Piece],
    sums: &[[u8; 32]],
) -> Result<Listed<Chunk>, NoMemory>
    requires { are_pieces_in_range chunk pieces.now ≡ true }
    ensures { IfOk result (λ chunks. chunks ≡ summed_chunks_of chunk pieces.now sums.now) }
{
    let mut chunks = Vec::new(alloc);
    let mut left = sums;
    for piece in pieces {
        let own = chunks_of(alloc, chunk, *piece)?;
        put_piece(&mut chunks, own.as_slice(), piece.version, left)?;
        left = sums_left(left, own.len(), piece.version);
    }
    Ok(Listed::from_vec(chunks))
}

// Puts the chunks of a piece behind what is there, with sums where they have sums.
fn put_piece(
    out: &mut Vec<Chunk>,
    chunks: &[Chunk],
    version: u8,
    sums: &[[u8; 32]],
) -> Result<(), NoMemory>
    ensures { OnOk result (out.new.items ≡ out.old.items ++ cond (has_sum_of version) (with_sums chunks.now sums.now) chunks.now) }
{
    if has_sum(version) {
        return put_chunks(out, chunks, sums);
    }
    out.extend_from_slice(chunks)?;
    Ok(())
}

// The sums that are left behind so many chunks.
fn sums_left(sums: &[[u8; 32]], count: usize, version: u8) -> &[[u8; 32]]
    ensures { result.now ≡ cond (has_sum_of version) (drop count sums.now) sums.now }
{
    if has_sum(version) {
        return sums_behind(sums, count);
    }
    sums
}

// Puts chunks with these sums, as far as there are any, behind what is there.
fn put_chunks(out: &mut Vec<Chunk>, chunks: &[Chunk], sums: &[[u8; 32]]) -> Result<(), NoMemory>
    ensures { OnOk result (out.new.items ≡ out.old.items ++ with_sums chunks.now sums.now) }
{
    let mut left = sums;
    for chunk in chunks {
        let (sum, behind) = first_sum(left);
        out.push(with_sum(*chunk, sum))?;
        left = behind;
    }
    Ok(())
}

// The first of these sums, if there is one, and those behind it.
fn first_sum(sums: &[[u8; 32]]) -> (Option<[u8; 32]>, &[[u8; 32]])
    ensures first { result.0 ≡ slice_get sums.now 0 }
    ensures behind { result.1.now ≡ drop 1 sums.now }
{
    match sums {
        [] => (None, sums),
        [first, rest @ ..] => (Some(*first), rest),
    }
}

// The chunk with this sum, if there is one.
fn with_sum(chunk: Chunk, sum: Option<[u8; 32]>) -> Chunk
    ensures { result ≡ with_sum_of chunk sum }
{
    match sum {
        None => chunk,
        Some(_) => Chunk { sum, ..chunk },
    }
}

fn sums_behind(sums: &[[u8; 32]], count: usize) -> &[[u8; 32]]
    ensures { result.now ≡ drop count sums.now }
{
    if sums.len() <= count {
        return &[];
    }
    &sums[count..]
}
