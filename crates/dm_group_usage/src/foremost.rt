//! The chunk that a merge moves next.

ghost use Rattle.std.specs.Prelude.{◌≡◌, Some, cond, filter};
ghost use Rattle.std.specs.Prelude as prelude;
ghost use Rattle.std.specs.Option.{option_map};
ghost use Rattle.dm_durable.specs.Group.{is_on};
ghost use Rattle.dm_durable.specs.Volumes.{first_on as first_on_volume, live_chunk};
ghost use Rattle.dm_group_usage.specs.Found.{furthest, in_front as in_front_of, live_chunk_of};

use dm_base::{Bfid, Chunk, Vsn};
use dm_durable::BitfileRow;
use dm_tables::Numbers;

/// A chunk, with whose it is and the length of that bitfile.
#[derive(Clone, Copy, Debug, PartialEq, Eq)]
pub struct Live {
    pub bfid: Bfid,
    pub total: u64,
    pub chunk: Chunk,
}

/// The chunk that a merge of the volume moves next: the one that lies furthest in front.
pub fn first_on(bitfiles: &Numbers<BitfileRow>, vsn: Vsn) -> Option<Live>
    ensures { option_map live_chunk_of result ≡ first_on_volume bitfiles.now vsn.0 }
{
    let mut first = None;
    for (number, row) in bitfiles.entries() {
        first = first_in(first, *number, row, vsn);
    }
    first
}

// The one that lies furthest in front, of what was found and of the bitfile's chunks on the volume.
fn first_in(found: Option<Live>, number: u128, row: &BitfileRow, vsn: Vsn) -> Option<Live>
    ensures { option_map live_chunk_of result ≡ furthest (option_map live_chunk_of found) (prelude.map (live_chunk number row.now) (filter (is_on vsn.0) row.now.chunks)) }
{
    let mut first = found;
    for chunk in row.chunks.as_slice() {
        first = with_chunk(first, number, row, *chunk, vsn);
    }
    first
}

// The same of what was found and of one chunk more, if it is on the volume.
fn with_chunk(
    found: Option<Live>,
    number: u128,
    row: &BitfileRow,
    chunk: Chunk,
    vsn: Vsn,
) -> Option<Live>
    ensures { option_map live_chunk_of result ≡ cond (is_on vsn.0 chunk) (Some (in_front_of (option_map live_chunk_of found) (live_chunk number row.now chunk))) (option_map live_chunk_of found) }
{
    if chunk.vsn.0 != vsn.0 {
        return found;
    }
    let live = Live {
        bfid: Bfid(number),
        total: row.len,
        chunk,
    };
    Some(in_front(found, live))
}

fn in_front(found: Option<Live>, live: Live) -> Live
    ensures { live_chunk_of result ≡ in_front_of (option_map live_chunk_of found) (live_chunk_of live) }
{
    match found {
        None => live,
        Some(other) => {
            if other.chunk.place <= live.chunk.place {
                other
            } else {
                live
            }
        }
    }
}
