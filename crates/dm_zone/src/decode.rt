//! Reading a zone. Each field stands at its place of the tables in docs/FORMATS.md, and they are
//! looked at in their order, so that an error names the first wrong one.

ghost use Rattle.std.specs.Prelude.{◌≡◌, ◌⊎◌, ◌<◌, ◌≤◌, ◌+◌, ◌^◌, drop, length, slice_index, List, ℕ, IfOk, MatchResult};
ghost use Rattle.std.specs.Int.{w64};
ghost use Rattle.dm_rules.specs.Zone.{SpelledChunk, zone, zone_header};
ghost use Rattle.dm_zone.specs.Fields.{AllRight, FirstWrong, chunk_fields, number_at, number_fields, zone_fields};
ghost use Rattle.dm_zone.specs.Grammar.{IsZone};
ghost use Rattle.dm_zone.specs.Reading.{AreNumbers, IsHeader, IsSpelled, ReadTo, SomeZone, Spells, Stops, WrongAt, entries, entry_at};

use crate::contents::{Zone, ZoneChunk};
use crate::error::ZoneError;
use crate::fields::{u32_at, u64_at, u128_at};
use crate::sums::{chunk_sum, sum_in, sum_stands};
use dm_base::{Bfid, Listed};
use dm_rules::{CHUNK_FIELDS, ZONE_HEADER, chunk_header};
use std::alloc::{AllocError, Global};

// `ZONE` and `CHNK` as numbers.
const ZONE_MARK: u32 = 0x5a4f_4e45;

const CHUNK_MARK: u32 = 0x4348_4e4b;

// The places of a zone's fields.
const COUNT: usize = 4;

const EPOCH: usize = 8;

const WHOLE: usize = 16;

const ZONE_ZEROS: usize = 24;

// The places of a chunk's fields.
const CHUNK_ZEROS: usize = 4;

const BFID: usize = 8;

const OFFSET: usize = 24;

const LENGTH: usize = 32;

const TOTAL: usize = 40;

/// The zone of a volume of this version that the bytes spell, all of them. A chunk's sum was compared with its bytes. An
/// error names the first wrong field; a sum is looked at once the bytes of its chunk are there. Memory is asked for last,
/// once for all chunks: that bytes are no zone is told whether there is memory or not.
pub fn decode_zone(alloc: Global, bytes: &[u8], version: u8) -> Result<Zone, ZoneError>
    // What is read is spelled so.
    ensures read { IfOk result (λ z.
        (chunks : List SpelledChunk) × Spells version bytes.now z.epoch z.chunks chunks) }
    // What is spelled so is read, unless memory is refused.
    ensures all { (epoch : ℕ) (chunks : List SpelledChunk) →
        IsZone version epoch chunks → bytes.now ≡ zone epoch chunks → MatchResult result
        (λ z. (z.epoch ≡ epoch) × (z.chunks ≡ entries version zone_header chunks))
        (λ e. e ≡ ZoneError.NoMemory) }
    // The place in an error is that of the first wrong field, and where there is one, it is told.
    ensures wrong { (place : ℕ) →
        result ≡ Err (ZoneError.BadZone place) → WrongAt version bytes.now place }
    ensures told { (place : ℕ) → WrongAt version bytes.now place →
        result ≡ Err (ZoneError.BadZone place) }
{
    read_zone(alloc, bytes, version)
}

fn read_zone(alloc: Global, bytes: &[u8], version: u8) -> Result<Zone, ZoneError>
    ensures read { IfOk result (λ z.
        (chunks : List SpelledChunk) × Spells version bytes.now z.epoch z.chunks chunks) }
    ensures wrong { (place : ℕ) →
        result ≡ Err (ZoneError.BadZone place) → WrongAt version bytes.now place }
    ensures memory { result ≡ Err ZoneError.NoMemory → SomeZone version bytes.now }
{
    let header = match zone_of(bytes, version) {
        Ok(header) => header,
        Err(place) => return Err(ZoneError::BadZone { place }),
    };
    let Ok(chunks) = chunks_of(alloc, bytes, version, header.count) else {
        return Err(ZoneError::NoMemory);
    };
    Ok(Zone {
        epoch: header.epoch,
        chunks: Listed::from_vec(chunks),
    })
}

// The numbers of a zone's header.
#[derive(Clone, Copy)]
struct Header {
    count: u32,
    epoch: u64,
    whole: u64,
}

// The header of the zone that the bytes spell, or the place of their first wrong field.
fn zone_of(bytes: &[u8], version: u8) -> Result<Header, u64>
    ensures { MatchResult result
        (λ h. IsSpelled version bytes.now h.epoch h.count)
        (WrongAt version bytes.now) }
{
    let header = header_of(bytes)?;
    let end = match chunks_end(bytes, version, header.count) {
        Ok(end) => end,
        Err(place) => return Err(place),
    };
    if header.whole != end {
        return Err(WHOLE as u64);
    }
    if end < bytes.len() as u64 {
        return Err(end);
    }
    Ok(header)
}

// The header of a zone, or the place of its first wrong field.
fn header_of(bytes: &[u8]) -> Result<Header, u64>
    ensures { MatchResult result
        (λ h. AllRight zone_fields bytes.now × IsHeader h.count h.epoch h.whole bytes.now)
        (FirstWrong zone_fields bytes.now) }
{
    let cut = bytes.len() as u64;
    if u32_at(bytes, 0).ok_or(cut)? != ZONE_MARK {
        return Err(0);
    }
    let count = u32_at(bytes, COUNT).ok_or(cut)?;
    if count == 0 {
        return Err(COUNT as u64);
    }
    let epoch = u64_at(bytes, EPOCH).ok_or(cut)?;
    let whole = u64_at(bytes, WHOLE).ok_or(cut)?;
    if u64_at(bytes, ZONE_ZEROS).ok_or(cut)? != 0 {
        return Err(ZONE_ZEROS as u64);
    }
    Ok(Header {
        count,
        epoch,
        whole,
    })
}

// The place behind `count` chunks that stand behind the header, or that of the first wrong field of the next.
fn chunks_end(bytes: &[u8], version: u8, count: u32) -> Result<u64, u64>
    requires { 32 ≤ length bytes.now }
    ensures { MatchResult result
        (ReadTo version bytes.now count)
        (Stops version (drop 32 bytes.now) count) }
{
    let header = chunk_header(version);
    let mut place = ZONE_HEADER;
    let (_, mut rest) = bytes.split_at(ZONE_HEADER as usize);
    for _ in 0..count {
        let text = match text_len(rest, version) {
            Ok(text) => text,
            Err(at) => return Err(place + at),
        };
        let len = header + text;
        let (_, after) = rest.split_at(len as usize);
        place += len;
        rest = after;
    }
    Ok(place)
}

// How many bytes the chunk has that stands first in the bytes, or where in the bytes its first wrong field stands.
fn text_len(bytes: &[u8], version: u8) -> Result<u64, u64>
    ensures { MatchResult result
        (λ n. AllRight (chunk_fields version) bytes.now × (n ≡ number_at w64 32 bytes.now))
        (FirstWrong (chunk_fields version) bytes.now) }
{
    let cut = bytes.len() as u64;
    let len = numbers_of(bytes)?.len;
    let header = chunk_header(version);
    if cut < header || cut - header < len {
        return Err(cut);
    }
    let (_, rest) = bytes.split_at(header as usize);
    let (text, _) = rest.split_at(len as usize);
    if !sum_stands(bytes, chunk_sum(version, text)) {
        return Err(CHUNK_FIELDS);
    }
    Ok(len)
}

// The numbers of a chunk's header.
#[derive(Clone, Copy)]
struct Numbers {
    bfid: u128,
    offset: u64,
    len: u64,
    total: u64,
}

// The numbers of the chunk's header that stands first in the bytes, or where in the bytes the first of its fields that
// is wrong stands. The sum and the bytes aren't looked at.
fn numbers_of(bytes: &[u8]) -> Result<Numbers, u64>
    ensures { MatchResult result
        (λ n. AllRight number_fields bytes.now × AreNumbers n.bfid n.offset n.len n.total bytes.now)
        (FirstWrong number_fields bytes.now) }
{
    let cut = bytes.len() as u64;
    if u32_at(bytes, 0).ok_or(cut)? != CHUNK_MARK {
        return Err(0);
    }
    if u32_at(bytes, CHUNK_ZEROS).ok_or(cut)? != 0 {
        return Err(CHUNK_ZEROS as u64);
    }
    let bfid = u128_at(bytes, BFID).ok_or(cut)?;
    let offset = u64_at(bytes, OFFSET).ok_or(cut)?;
    let len = u64_at(bytes, LENGTH).ok_or(cut)?;
    if len == 0 {
        return Err(LENGTH as u64);
    }
    let total = u64_at(bytes, TOTAL).ok_or(cut)?;
    if total < offset || total - offset < len {
        return Err(TOTAL as u64);
    }
    Ok(Numbers {
        bfid,
        offset,
        len,
        total,
    })
}

// What is told of the chunks of the zone that the bytes spell, of which there are `count`.
fn chunks_of(
    alloc: Global,
    bytes: &[u8],
    version: u8,
    count: u32,
) -> Result<Vec<ZoneChunk>, AllocError>
    requires { (epoch : ℕ) × IsSpelled version bytes.now epoch count }
    ensures { IfOk result (λ v. (epoch : ℕ) (chunks : List SpelledChunk) →
        IsZone version epoch chunks → bytes.now ≡ zone epoch chunks → v.items ≡ entries version zone_header chunks) }
{
    let mut chunks = Vec::with_capacity(alloc, count as usize)?;
    let header = chunk_header(version);
    let mut place = ZONE_HEADER;
    let (_, mut rest) = bytes.split_at(ZONE_HEADER as usize);
    for _ in 0..count {
        let chunk = chunk_of(rest, place, version);
        chunks.push(chunk)?;
        let len = header + chunk.len;
        let (_, after) = rest.split_at(len as usize);
        place += len;
        rest = after;
    }
    Ok(chunks)
}

// The chunk that stands first in the bytes, whose place in the zone this is. Its fields were looked at before.
fn chunk_of(bytes: &[u8], place: u64, version: u8) -> ZoneChunk
    requires right { AllRight (chunk_fields version) bytes.now }
    requires fits { place + length bytes.now < 2 ^ 64 }
    ensures { result ≡ entry_at version place bytes.now }
{
    let numbers = match numbers_of(bytes) {
        Ok(numbers) => numbers,
        Err(_) => unreachable!(),
    };
    ZoneChunk {
        bfid: Bfid(numbers.bfid),
        total: numbers.total,
        offset: numbers.offset,
        at: place + chunk_header(version),
        len: numbers.len,
        sum: sum_in(bytes, version),
    }
}

/// Bytes are one zone, or their first wrong field stands at one place, and never both. Nothing is
/// done: the contract is the law, for every list of bytes.
pub fn zones_are_read_one_way()
    ensures either { (version : ℕ) (bytes : List ℕ) → ((i : ℕ) → slice_index bytes i < 256) →
        ((epoch : ℕ) × (chunks : List SpelledChunk) × IsZone version epoch chunks × (bytes ≡ zone epoch chunks))
        ⊎ ((place : ℕ) × WrongAt version bytes place) }
    ensures one_zone { (version : ℕ) (bytes : List ℕ) (epoch other : ℕ) (chunks others : List SpelledChunk) →
        IsZone version epoch chunks → IsZone version other others →
        bytes ≡ zone epoch chunks → bytes ≡ zone other others →
        (epoch ≡ other) × (chunks ≡ others) }
    ensures zone_or_wrong { (version : ℕ) (bytes : List ℕ) (epoch place : ℕ) (chunks : List SpelledChunk) →
        IsZone version epoch chunks → bytes ≡ zone epoch chunks → WrongAt version bytes place → ⊥ }
    ensures one_place { (version : ℕ) (bytes : List ℕ) (place other : ℕ) →
        WrongAt version bytes place → WrongAt version bytes other → place ≡ other }
{}
