//! The chunks of one bitfile, by ascending offset.

ghost use Rattle.std.specs.Prelude.{◌≡◌, ◌<◌, IsTrue, map as map_list, slice_get, length};
ghost use Rattle.std.specs.Ordering.{nat_cmp};
ghost use Rattle.std.specs.FinMap.{is_sorted};
ghost use Rattle.dm_durable.specs.Group.{chunk_at};
ghost use Rattle.dm_rows.specs.Places.{place_of};
ghost use Rattle.dm_catalogue.specs.Sums.{by_offset, put_at};

use dm_base::{Bfid, Chunk, Listed};
use dm_durable::BitfileRow;
use dm_rows::Edit;
use std::alloc::Global;
use std::mem;

/// A chunk on a volume, with whose it is and the length of that bitfile.
#[derive(Clone, Copy, Debug, PartialEq, Eq)]
pub struct LiveChunk {
    pub bfid: Bfid,
    pub total: u64,
    pub chunk: Chunk,
}

// Where the chunk that begins at the offset stands, or where it would have to be put.
pub(crate) fn place(chunks: &[Chunk], offset: u64) -> Result<usize, usize>
    requires { IsTrue (is_sorted nat_cmp (map_list by_offset chunks.now)) }
    ensures { result ≡ place_of nat_cmp offset (map_list by_offset chunks.now) }
{
    chunks.binary_search_by(|chunk| chunk.offset.cmp(&offset))
}

// The chunk at this place of a bitfile is this one.
#[derive(Drop)]
pub(crate) struct Stands {
    pub(crate) alloc: Global,
    pub(crate) at: usize,
    pub(crate) chunk: Chunk,
}

impl Edit<BitfileRow> for Stands {
    ghost use Rattle.dm_catalogue.specs.Sums.{with_chunk_at};

    ghost edited = { λ it. with_chunk_at it.at it.chunk };

    fn edit(&self, row: &mut BitfileRow) {
        let nothing = Listed::from_vec(Vec::new(self.alloc));
        let mut chunks = mem::replace(&mut row.chunks, nothing).into_vec();
        put(chunks.as_mut_slice(), self.at, self.chunk);
        row.chunks = Listed::from_vec(chunks);
    }
}

fn put(chunks: &mut [Chunk], at: usize, chunk: Chunk)
    ensures { chunks.new ≡ put_at at chunk chunks.old }
{
    if at < chunks.len() {
        chunks[at] = chunk;
    }
}
