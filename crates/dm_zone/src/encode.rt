//! A zone: a header, and the chunks of a piece of a bitfile.

ghost use Rattle.std.specs.Prelude.{◌≡◌, ◌<◌, ◌≤◌, ◌+◌, ◌^◌, ◌++◌, drop, length, IfOk, OnOk};
ghost use Rattle.std.specs.List.{flat_map};
ghost use Rattle.dm_rules.specs.Version.{chunk_header as header_of};
ghost use Rattle.dm_rules.specs.Zone.{chunk_count, chunk_front, chunk_sum as sum_of, chunk_text, chunk_split, chunk_split_into, weight, zone_front, zone_header, zone_length, zone_of};
ghost use Rattle.dm_zone.specs.Grammar.{IsZone};

use crate::number::{eight_bytes, four_bytes, sixteen_bytes};
use crate::sums::chunk_sum;
use dm_base::{Bfid, NoMemory};
use dm_rules::{ZONE_HEADER, chunk_header};
use std::alloc::Global;

/// The zone that holds the bytes of a bitfile from `offset` on, in chunks of `chunk` bytes, for a volume of this version
/// and epoch.
pub fn encode_zone(
    alloc: Global,
    epoch: u64,
    version: u8,
    bfid: Bfid,
    total: u64,
    offset: u64,
    bytes: &[u8],
    chunk: u64,
) -> Result<Vec<u8>, NoMemory>
    requires some { 0 < length bytes.now }
    requires chunk { 0 < chunk }
    requires within { offset + length bytes.now ≤ total }
    requires count { chunk_count chunk (length bytes.now) < 2 ^ 32 }
    ensures spelled { IfOk result (λ v. v.items ≡ zone_of version epoch bfid.0 total offset bytes.now chunk) }
    // The chunks and the zone are of the grammar, so that `decode_zone` reads them again.
    ensures grammar { OnOk result (IsZone version epoch (chunk_split version bfid.0 total offset bytes.now chunk)) }
    ensures long { IfOk result (λ v. length v.items ≡ zone_length version chunk (length bytes.now)) }
    // Where one chunk holds them the bytes stand behind both headers.
    ensures one { length bytes.now ≤ chunk → IfOk result (λ v. (length v.items ≡ weight version (length bytes.now))
        × (drop (zone_header + header_of version) v.items ≡ bytes.now)) }
{
    let count = (bytes.len() as u64).div_ceil(chunk);
    let headers = ZONE_HEADER + chunk_header(version) * count;
    // No memory holds a zone whose length passes a u64.
    let Some(whole) = headers.checked_add(bytes.len() as u64) else {
        return Err(NoMemory);
    };
    let mut out = Vec::with_capacity(alloc, whole as usize)?;
    put_front(&mut out, epoch, count as u32, whole)?;
    put_chunks(&mut out, version, bfid, total, offset, bytes, chunk, count)?;
    Ok(out)
}

#[tactic(auto, unfolding(dm_rules::specs::Zone::zone_front))]
fn put_front(out: &mut Vec<u8>, epoch: u64, count: u32, whole: u64) -> Result<(), NoMemory>
    ensures { OnOk result (out.new.items ≡ out.old.items ++ zone_front epoch count whole) }
{
    out.extend_from_slice(b"ZONE")?;
    out.extend_from_slice(&four_bytes(count))?;
    out.extend_from_slice(&eight_bytes(epoch))?;
    out.extend_from_slice(&eight_bytes(whole))?;
    out.extend_from_slice(&[0; 8])?;
    Ok(())
}

// The chunks of the bytes, of which there are `count`.
fn put_chunks(
    out: &mut Vec<u8>,
    version: u8,
    bfid: Bfid,
    total: u64,
    offset: u64,
    bytes: &[u8],
    chunk: u64,
    count: u64,
) -> Result<(), NoMemory>
    requires { offset + length bytes.now < 2 ^ 64 }
    ensures { OnOk result (
        out.new.items ≡ out.old.items ++ flat_map chunk_text (chunk_split_into version count bfid.0 total offset bytes.now chunk)
        ) }
{
    let mut rest = bytes;
    let mut place = offset;
    for _ in 0..count {
        let (front, back) = rest.split_at((chunk as usize).min(rest.len()));
        put_chunk(out, version, bfid, total, place, front)?;
        place += front.len() as u64;
        rest = back;
    }
    Ok(())
}

fn put_chunk(
    out: &mut Vec<u8>,
    version: u8,
    bfid: Bfid,
    total: u64,
    offset: u64,
    bytes: &[u8],
) -> Result<(), NoMemory>
    ensures { OnOk result (
        out.new.items ≡ out.old.items ++ chunk_text (record { bfid = bfid.0; total = total; offset = offset; sum = sum_of version bytes.now; bytes = bytes.now })
        ) }
{
    put_chunk_front(out, bfid, total, offset, bytes.len() as u64)?;
    if let Some(sum) = chunk_sum(version, bytes) {
        out.extend_from_slice(&sum)?;
    }
    out.extend_from_slice(bytes)?;
    Ok(())
}

#[tactic(auto, unfolding(dm_rules::specs::Zone::chunk_front))]
fn put_chunk_front(
    out: &mut Vec<u8>,
    bfid: Bfid,
    total: u64,
    offset: u64,
    count: u64,
) -> Result<(), NoMemory>
    ensures { OnOk result (out.new.items ≡ out.old.items ++ chunk_front bfid.0 offset count total) }
{
    out.extend_from_slice(b"CHNK\0\0\0\0")?;
    out.extend_from_slice(&sixteen_bytes(bfid.0))?;
    out.extend_from_slice(&eight_bytes(offset))?;
    out.extend_from_slice(&eight_bytes(count))?;
    out.extend_from_slice(&eight_bytes(total))?;
    Ok(())
}
