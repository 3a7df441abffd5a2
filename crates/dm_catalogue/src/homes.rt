//! What lies on each volume.

ghost use Rattle.std.specs.Prelude.{◌≡◌, IsSome, OnOk};
ghost use Rattle.std.specs.FinMap as map;
ghost use Rattle.dm_tables.specs.Rows.{adjust};
ghost use Rattle.dm_catalogue.specs.Sums.{KeepsHomes, Known, Same, with_all, with_fewer, with_more, without_all};

use dm_base::{Chunk, NoMemory, Vsn};
use dm_rows::{Edit, TextRows};
use std::alloc::Global;

/// How many chunks lie on a volume, and how many bytes they have.
#[derive(Clone, Copy, Debug, PartialEq, Eq)]
pub(crate) struct Live {
    pub(crate) chunks: u128,
    pub(crate) bytes: u128,
}

// A chunk of this length comes.
#[derive(Drop)]
struct Comes {
    len: u64,
}

impl Edit<Live> for Comes {
    ghost use Rattle.dm_catalogue.specs.Sums.{with_more};

    ghost edited = { λ it. with_more it.len };

    fn edit(&self, row: &mut Live) {
        row.chunks = row.chunks.saturating_add(1);
        row.bytes = row.bytes.saturating_add(u128::from(self.len));
    }
}

// A chunk of this length goes.
#[derive(Drop)]
struct Goes {
    len: u64,
}

impl Edit<Live> for Goes {
    ghost use Rattle.dm_catalogue.specs.Sums.{with_fewer};

    ghost edited = { λ it. with_fewer it.len };

    fn edit(&self, row: &mut Live) {
        row.chunks = row.chunks.saturating_sub(1);
        row.bytes = row.bytes.saturating_sub(u128::from(self.len));
    }
}

// The chunk comes.
fn add(homes: &mut TextRows<Vsn, Live>, chunk: &Chunk)
    ensures { homes.new.rows ≡ adjust homes.old.rows chunk.now.vsn.0 (with_more chunk.now.len) }
{
    let _there = homes.change(&chunk.vsn.0, &Comes { len: chunk.len });
}

// The chunk goes.
fn take(homes: &mut TextRows<Vsn, Live>, chunk: &Chunk)
    ensures { homes.new.rows ≡ adjust homes.old.rows chunk.now.vsn.0 (with_fewer chunk.now.len) }
{
    let _there = homes.change(&chunk.vsn.0, &Goes { len: chunk.len });
}

// These chunks come.
pub(crate) fn add_all(homes: &mut TextRows<Vsn, Live>, chunks: &[Chunk])
    ensures { homes.new.rows ≡ with_all chunks.now homes.old.rows }
{
    for chunk in chunks {
        add(homes, chunk);
    }
}

// These chunks go.
pub(crate) fn take_all(homes: &mut TextRows<Vsn, Live>, chunks: &[Chunk])
    ensures { homes.new.rows ≡ without_all chunks.now homes.old.rows }
{
    for chunk in chunks {
        take(homes, chunk);
    }
}

// A number is kept of the chunk's volume.
fn know(homes: &mut TextRows<Vsn, Live>, alloc: Global, vsn: Vsn) -> Result<(), NoMemory>
    ensures same { Same homes.old.rows homes.new.rows }
    ensures known { OnOk result (IsSome (map.get homes.new.rows vsn.0)) }
{
    if homes.contains(&vsn.0) {
        return Ok(());
    }
    let nothing = Live {
        chunks: 0,
        bytes: 0,
    };
    let row = Box::new(alloc, (vsn, nothing))?;
    homes.reserve(1)?;
    homes.insert_reserved(row);
    Ok(())
}

// Numbers are kept of the volumes of these chunks.
pub(crate) fn know_all(
    homes: &mut TextRows<Vsn, Live>,
    alloc: Global,
    chunks: &[Chunk],
) -> Result<(), NoMemory>
    ensures same { Same homes.old.rows homes.new.rows }
    ensures known { OnOk result (Known homes.new.rows chunks.now) }
{
    for chunk in chunks {
        know(homes, alloc, chunk.vsn)?;
    }
    Ok(())
}
