//! The places of the next zones of the volumes.

ghost use Rattle.std.specs.Prelude.{◌≡◌, OnOk};
ghost use Rattle.std.specs.FinMap as map;
ghost use Rattle.dm_model.specs.GroupShare.{tip_behind_moved, tips_behind};
ghost use Rattle.dm_rules.specs.Numbers.{as_word as as_word_of};
ghost use Rattle.dm_rules.specs.Plan.{zone_end as zone_end_of};
ghost use Rattle.dm_rules.specs.Zone.{chunk_count as chunk_count_of, weight as weight_of};

use dm_base::{Bytes, NoMemory, Piece, Vsn};
use dm_model::Moving;
use dm_rules::{ZONE_HEADER, chunk_header};
use dm_tables::Texts;
use std::alloc::Global;

// The next zone of the volume begins there.
pub(crate) fn move_tip(
    alloc: Global,
    tips: &mut Texts<u64>,
    vsn: Vsn,
    place: u64,
) -> Result<(), NoMemory>
    ensures { OnOk result (tips.new ≡ map.insert tips.old vsn.0 place) }
{
    let name = Bytes::from_vec(Vec::from_slice(alloc, &vsn.0)?);
    tips.insert(name, place)?;
    Ok(())
}

// Each piece moves the tip of its volume behind its zone.
pub(crate) fn move_tips_behind(
    alloc: Global,
    tips: &mut Texts<u64>,
    chunk: u64,
    pieces: &[Piece],
) -> Result<(), NoMemory>
    ensures { OnOk result (tips.new ≡ tips_behind chunk pieces.now tips.old) }
{
    match pieces {
        [] => Ok(()),
        [piece, rest @ ..] => {
            move_tip(alloc, tips, piece.vsn, as_word(zone_end(chunk, piece)))?;
            move_tips_behind(alloc, tips, chunk, rest)
        }
    }
}

// A chunk that is to be moved moves the tip of its target behind its zone, which has the one chunk.
pub(crate) fn move_tip_behind(
    alloc: Global,
    tips: &mut Texts<u64>,
    moving: &Moving,
) -> Result<(), NoMemory>
    ensures { OnOk result (tips.new ≡ tip_behind_moved moving.now tips.old) }
{
    let behind = u128::from(moving.to.zone) + weight(moving.version, moving.to.len);
    move_tip(alloc, tips, moving.to.vsn, as_word(behind))
}

// The place behind the zone of a piece.
fn zone_end(chunk: u64, piece: &Piece) -> u128
    ensures { result ≡ zone_end_of chunk piece.now }
{
    let headers = u128::from(chunk_header(piece.version))
        * u128::from(chunk_count(chunk, piece.len));
    u128::from(piece.zone) + (u128::from(ZONE_HEADER) + headers + u128::from(piece.len))
}

// How many chunks hold so many bytes; one, where the chunks would have no byte.
fn chunk_count(chunk: u64, len: u64) -> u64
    ensures { result ≡ chunk_count_of chunk len }
{
    if chunk == 0 {
        return len.min(1);
    }
    len.div_ceil(chunk)
}

// What a chunk of so many bytes weighs.
fn weight(version: u8, len: u64) -> u128
    ensures { result ≡ weight_of version len }
{
    u128::from(ZONE_HEADER) + u128::from(chunk_header(version)) + u128::from(len)
}

// The number as 64 bits hold it.
fn as_word(number: u128) -> u64
    ensures { result ≡ as_word_of number }
{
    number.min(u128::from(u64::MAX)) as u64
}
