//! The zone that the bytes of a moved chunk are to become.
//!
//! `encode_zone` of `dm_zone` is of bytes that a bitfile can have, one at least, as those of a run are. The definition of a move spells a
//! zone of any bytes, and so does this.

ghost use Rattle.std.specs.Prelude.{◌≡◌, ◌++◌, length, IfOk, OnOk};
ghost use Rattle.std.specs.Int.{to_be_bytes, w32, w64, w128};
ghost use Rattle.dm_rules.specs.Zone.{chunk_front, chunk_sum as sum_of_bytes, sum_text, zone_front, zone_of};

use byteorder::{BigEndian, ByteOrder};
use dm_base::{Bfid, NoMemory};
use dm_model::Moving;
use dm_rules::{ZONE_HEADER, chunk_header};
use dm_zone::chunk_sum;
use std::alloc::Global;

/// The zone of these bytes as one chunk, for a volume of the move's version that has this epoch.
pub(crate) fn moved_zone(
    alloc: Global,
    epoch: u64,
    moving: &Moving,
    bytes: &[u8],
) -> Result<Vec<u8>, NoMemory>
    ensures { IfOk result (λ zone. zone.items ≡ zone_of moving.now.version epoch moving.now.bfid.0 moving.now.total moving.now.from.offset bytes.now (length bytes.now)) }
{
    let mut zone = Vec::new(alloc);
    let len = bytes.len() as u64;
    if len == 0 {
        // No bytes are cut into no chunk.
        put_front(&mut zone, epoch, 0, ZONE_HEADER)?;
        return Ok(zone);
    }
    let whole = ZONE_HEADER + chunk_header(moving.version) + len;
    put_front(&mut zone, epoch, 1, whole)?;
    put_chunk_front(
        &mut zone,
        moving.bfid,
        moving.from.offset,
        len,
        moving.total,
    )?;
    put_sum(&mut zone, moving.version, bytes)?;
    zone.extend_from_slice(bytes)?;
    Ok(zone)
}

#[tactic(auto, unfolding(dm_rules::specs::Zone::zone_front))]
fn put_front(out: &mut Vec<u8>, epoch: u64, count: u32, whole: u64) -> Result<(), NoMemory>
    ensures { OnOk result (out.new.items ≡ out.old.items ++ zone_front epoch count whole) }
{
    out.extend_from_slice(b"ZONE")?;
    out.extend_from_slice(&four_bytes(count))?;
    out.extend_from_slice(&eight_bytes(epoch))?;
    out.extend_from_slice(&eight_bytes(whole))?;
    out.extend_from_slice(&[0; 8])?;
    Ok(())
}

#[tactic(auto, unfolding(dm_rules::specs::Zone::chunk_front))]
fn put_chunk_front(
    out: &mut Vec<u8>,
    bfid: Bfid,
    offset: u64,
    count: u64,
    total: u64,
) -> Result<(), NoMemory>
    ensures { OnOk result (out.new.items ≡ out.old.items ++ chunk_front bfid.0 offset count total) }
{
    out.extend_from_slice(b"CHNK\0\0\0\0")?;
    out.extend_from_slice(&sixteen_bytes(bfid.0))?;
    out.extend_from_slice(&eight_bytes(offset))?;
    out.extend_from_slice(&eight_bytes(count))?;
    out.extend_from_slice(&eight_bytes(total))?;
    Ok(())
}

// What stands in a chunk's header for the sum of these bytes.
fn put_sum(out: &mut Vec<u8>, version: u8, bytes: &[u8]) -> Result<(), NoMemory>
    ensures { OnOk result (out.new.items ≡ out.old.items ++ sum_text (sum_of_bytes version bytes.now)) }
{
    if let Some(sum) = chunk_sum(version, bytes) {
        out.extend_from_slice(&sum)?;
    }
    Ok(())
}

fn four_bytes(n: u32) -> [u8; 4]
    ensures { result ≡ to_be_bytes w32 n }
{
    let mut bytes = [0; 4];
    BigEndian::write_u32(&mut bytes, n);
    bytes
}

fn eight_bytes(n: u64) -> [u8; 8]
    ensures { result ≡ to_be_bytes w64 n }
{
    let mut bytes = [0; 8];
    BigEndian::write_u64(&mut bytes, n);
    bytes
}

fn sixteen_bytes(n: u128) -> [u8; 16]
    ensures { result ≡ to_be_bytes w128 n }
{
    let mut bytes = [0; 16];
    BigEndian::write_u128(&mut bytes, n);
    bytes
}
