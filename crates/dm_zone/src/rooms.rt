//! How much a volume still takes.

ghost use Rattle.std.specs.Prelude.{◌≡◌, ◌<◌, ◌≤◌, ◌+◌, ◌-◌, ◌^◌, ℕ};
ghost use Rattle.dm_rules.specs.Room.{most_bytes as most_of, room as room_of};
ghost use Rattle.dm_rules.specs.Zone.{zone_length};

use dm_rules::{ZONE_HEADER, chunk_header};

/// The longest piece of a bitfile that one zone of chunks of `chunk` bytes holds from `tip` to the
/// end of a volume of this version and of `size` bytes.
pub fn room(version: u8, size: u64, tip: u64, chunk: u64) -> u64
    ensures rule { result ≡ room_of version size tip chunk }
    ensures fits { 0 < chunk → 0 < result → zone_length version chunk result ≤ size - tip }
    ensures longest { (n : ℕ) → 0 < chunk → result < n → size - tip < zone_length version chunk n }
{
    let left = size.saturating_sub(tip);
    if left < ZONE_HEADER {
        0
    } else {
        most_bytes(chunk_header(version), left - ZONE_HEADER, chunk)
    }
}

// The most bytes whose chunks take `left` bytes or less with their headers of `header` bytes.
fn most_bytes(header: u64, left: u64, chunk: u64) -> u64
    requires header { (0 < header) × (header < 2 ^ 32) }
    requires left { left + 32 < 2 ^ 64 }
    ensures { result ≡ most_of header left chunk }
{
    let step = chunk.saturating_add(header);
    let whole = left / step;
    let rest = left % step;
    if rest > header {
        whole * chunk + (rest - header)
    } else {
        whole * chunk
    }
}
