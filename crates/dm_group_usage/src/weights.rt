//! What the chunks on a volume have and weigh.
//!
//! A sum may pass 128 bits; it then stands at their last value, which is beyond all that it is compared with.

ghost use Rattle.std.specs.Prelude.{◌≡◌, ◌+◌, ◌*◌, cond, nat_lt};
ghost use Rattle.dm_durable.specs.Group.{is_on};
ghost use Rattle.dm_durable.specs.Volumes.{live_on as live_on_volume, weight_on as weight_on_volume};
ghost use Rattle.dm_group_usage.specs.Measures.{measure_in, measure_on, summed};
ghost use Rattle.dm_rules.specs.Numbers.{as_word as word_of};
ghost use Rattle.dm_rules.specs.State.{used_bytes};

use dm_base::{Chunk, Vsn};
use dm_durable::BitfileRow;
use dm_rules::{FIRST_ZONE, ZONE_HEADER, chunk_header};
use dm_tables::Numbers;

/// The bytes of all chunks that stand on the volume, as 64 bits hold their number.
pub(crate) fn live_on(bitfiles: &Numbers<BitfileRow>, vsn: Vsn) -> u64
    ensures { result ≡ word_of (live_on_volume bitfiles.now vsn.0) }
{
    as_word(sum_on(bitfiles, 0, vsn))
}

/// What they weigh.
pub(crate) fn weight_on(bitfiles: &Numbers<BitfileRow>, version: u8, vsn: Vsn) -> u128
    ensures { result ≡ summed (weight_on_volume bitfiles.now version vsn.0) }
{
    sum_on(bitfiles, ZONE_HEADER + chunk_header(version), vsn)
}

// What the chunks on the volume come to, each its length and `more`.
fn sum_on(bitfiles: &Numbers<BitfileRow>, more: u64, vsn: Vsn) -> u128
    ensures { result ≡ summed (measure_on bitfiles.now more vsn.0) }
{
    let mut sum: u128 = 0;
    for (_, row) in bitfiles.entries() {
        sum = sum.saturating_add(sum_in(row.chunks.as_slice(), more, vsn));
    }
    sum
}

// The same of the chunks of one bitfile.
fn sum_in(chunks: &[Chunk], more: u64, vsn: Vsn) -> u128
    ensures { result ≡ summed (measure_in more vsn.0 chunks.now) }
{
    let mut sum: u128 = 0;
    for chunk in chunks {
        sum = with_chunk(sum, more, chunk, vsn);
    }
    sum
}

// The sum with one chunk more, if it is on the volume.
fn with_chunk(sum: u128, more: u64, chunk: &Chunk, vsn: Vsn) -> u128
    ensures { result ≡ cond (is_on vsn.0 chunk.now) (summed (sum + (more + chunk.now.len))) sum }
{
    if chunk.vsn.0 != vsn.0 {
        return sum;
    }
    sum.saturating_add(u128::from(more) + u128::from(chunk.len))
}

/// Whether this weighs less than this percentage of what the zones before the tip take.
pub(crate) fn is_below(threshold: u64, weighs: u128, tip: u64) -> bool
    ensures { result ≡ nat_lt (100 * weighs) (threshold * used_bytes tip) }
{
    let part = u128::from(threshold) * u128::from(tip.saturating_sub(FIRST_ZONE));
    match weighs.checked_mul(100) {
        None => false,
        Some(hundred) => hundred < part,
    }
}

/// The number as 64 bits hold it.
pub fn as_word(number: u128) -> u64
    ensures { result ≡ word_of number }
{
    number.min(u128::from(u64::MAX)) as u64
}
