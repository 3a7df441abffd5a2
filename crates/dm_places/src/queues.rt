//! The spots of each volume.

ghost use Rattle.std.specs.Prelude.{◌≡◌, ◌<◌, ◌≤◌, [], ◌∷◌, IfNone, IfSome, OnErr, OnOk, IsSome, length, take};
ghost use Rattle.std.specs.FinMap as map;
ghost use Rattle.dm_places.specs.Chunks.{spot_of as spot_of_chunk};
ghost use Rattle.dm_places.specs.Order.{IsFirst};
ghost use Rattle.dm_places.specs.Queues.{Clears, Drops, HasPlaces, KeepsFewer, KeepsMore, Puts, PutsAll, places_on, spots_on};

use crate::spot::Spot;
use crate::spots::Spots;
use dm_base::{Bfid, Chunk, NoMemory, Vsn};
use dm_rows::TextRows;
use std::alloc::Global;

/// The spots of each volume, and places kept for more.
#[derive(Drop)]
pub struct Queues {
    alloc: Global,
    // By the volume's serial number. A volume without a row has no spot and no place.
    rows: TextRows<Vsn, Spots>,
}

impl Queues {
    /// No spot, and no place. It takes no memory.
    pub fn empty(alloc: Global) -> Queues
        ensures { result.rows.rows ≡ map.empty }
    {
        Queues {
            alloc,
            rows: TextRows::empty(alloc),
        }
    }

    /// How many spots the volume has.
    pub fn len(&self, vsn: Vsn) -> usize
        ensures { result ≡ length (spots_on self.now.rows.rows vsn.0) }
    {
        match self.rows.get(&vsn.0) {
            Some(spots) => spots.len(),
            None => 0,
        }
    }

    /// The least spot of the volume, or none where it has no spot.
    pub fn first(&self, vsn: Vsn) -> Option<Spot>
        ensures none { IfNone result (spots_on self.now.rows.rows vsn.0 ≡ []) }
        ensures first { IfSome result (IsFirst (spots_on self.now.rows.rows vsn.0)) }
    {
        match self.rows.get(&vsn.0) {
            Some(spots) => spots.first(),
            None => None,
        }
    }

    /// The least spot of the volume goes, and its place is kept. It takes no memory.
    pub fn drop_first(&mut self, vsn: Vsn)
        ensures { Drops self.old.rows.rows vsn.0 self.new.rows.rows }
    {
        let Some(mut row) = self.rows.take(&vsn.0) else {
            return;
        };
        row.1.drop_first();
        self.rows.insert_reserved(row);
    }

    /// No spot of the volume is left, and all places are kept. It takes no memory.
    pub fn clear(&mut self, vsn: Vsn)
        ensures { Clears self.old.rows.rows vsn.0 self.new.rows.rows }
    {
        let Some(mut row) = self.rows.take(&vsn.0) else {
            return;
        };
        row.1.clear();
        self.rows.insert_reserved(row);
    }

    // Puts the spot into a place that is kept.
    fn put(&mut self, vsn: Vsn, spot: Spot)
        requires { 0 < places_on self.old.rows.rows vsn.0 }
        ensures { Puts self.old.rows.rows vsn.0 spot self.new.rows.rows }
    {
        let Some(mut row) = self.rows.take(&vsn.0) else {
            unreachable!();
        };
        row.1.push(spot);
        self.rows.insert_reserved(row);
    }

    /// Puts the spots of a bitfile's chunks into places that are kept. It takes no memory.
    pub fn put_all(&mut self, bfid: Bfid, chunks: &[Chunk])
        requires { HasPlaces self.old.rows.rows chunks.now }
        ensures { PutsAll self.old.rows.rows bfid.0 chunks.now self.new.rows.rows }
    {
        for chunk in chunks {
            self.put(chunk.vsn, spot_of(bfid, chunk));
        }
    }

    /// Keeps so many places more on each volume as it has of these chunks. Where memory is refused, as many are kept as
    /// before.
    pub fn keep_all(&mut self, chunks: &[Chunk]) -> Result<(), NoMemory>
        ensures ok { OnOk result (KeepsMore self.old.rows.rows chunks.now self.new.rows.rows) }
        ensures err { OnErr result (KeepsMore self.old.rows.rows [] self.new.rows.rows) }
    {
        let kept = self.keep_some(chunks);
        if kept < chunks.len() {
            self.give_back_all(&chunks[..kept]);
            return Err(NoMemory);
        }
        Ok(())
    }

    // Keeps a place more for each of the first of these chunks, up to the one for which memory is refused; how many they are.
    fn keep_some(&mut self, chunks: &[Chunk]) -> usize
        ensures kept { KeepsMore self.old.rows.rows (take result chunks.now) self.new.rows.rows }
        ensures within { result ≤ length chunks.now }
    {
        for at in 0..chunks.len() {
            let Ok(()) = self.keep(&chunks[at]) else {
                return at;
            };
        }
        chunks.len()
    }

    /// So many places fewer are kept on each volume as it has of these chunks.
    pub fn give_back_all(&mut self, chunks: &[Chunk])
        ensures { KeepsFewer self.old.rows.rows chunks.now self.new.rows.rows }
    {
        for chunk in chunks {
            self.give_back(chunk);
        }
    }

    // A place more is kept on the chunk's volume.
    fn keep(&mut self, chunk: &Chunk) -> Result<(), NoMemory>
        ensures ok { OnOk result (KeepsMore self.old.rows.rows (chunk.now ∷ []) self.new.rows.rows) }
        ensures err { OnErr result (KeepsMore self.old.rows.rows [] self.new.rows.rows) }
    {
        self.know(chunk.vsn)?;
        let Some(mut row) = self.rows.take(&chunk.vsn.0) else {
            unreachable!();
        };
        let kept = row.1.keep_one();
        self.rows.insert_reserved(row);
        kept
    }

    // A place fewer is kept there.
    fn give_back(&mut self, chunk: &Chunk)
        ensures { KeepsFewer self.old.rows.rows (chunk.now ∷ []) self.new.rows.rows }
    {
        let Some(mut row) = self.rows.take(&chunk.vsn.0) else {
            return;
        };
        row.1.give_back();
        self.rows.insert_reserved(row);
    }

    // The volume has a row.
    fn know(&mut self, vsn: Vsn) -> Result<(), NoMemory>
        ensures same { KeepsMore self.old.rows.rows [] self.new.rows.rows }
        ensures known { OnOk result (IsSome (map.get self.new.rows.rows vsn.0)) }
    {
        if self.rows.contains(&vsn.0) {
            return Ok(());
        }
        let row = Box::new(self.alloc, (vsn, Spots::empty(self.alloc)))?;
        self.rows.reserve(1)?;
        self.rows.insert_reserved(row);
        Ok(())
    }
}

// The spot of a bitfile's chunk.
fn spot_of(bfid: Bfid, chunk: &Chunk) -> Spot
    ensures { result ≡ spot_of_chunk bfid.0 chunk.now }
{
    Spot {
        place: chunk.place,
        bfid,
        offset: chunk.offset,
    }
}
