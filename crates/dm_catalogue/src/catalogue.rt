//! The chunk table.

ghost use Rattle.std.specs.Prelude.{◌≡◌, ◌≢◌, ◌<◌, ◌≤◌, ◌+◌, ◌-◌, ◌^◌, ◌&&◌, false, nat_eq, None, Some, [], ◌∷◌, IfNone, IfSome, OnErr, OnOk, length, option_map, slice_get};
ghost use Rattle.std.specs.Option.{option_copied};
ghost use Rattle.std.specs.FinMap as map;
ghost use Rattle.dm_durable.specs.Group.{has_chunk_on as has_chunk_on_of, is_on, with_chunk};
ghost use Rattle.dm_durable.specs.GroupConditions.{Joins};
ghost use Rattle.dm_durable.specs.Volumes.{first_on as first_on_of, live_on, weight_on};
ghost use Rattle.dm_places.specs.Chunks.{EachSpotOn};
ghost use Rattle.dm_places.specs.Order.{IsFirst};
ghost use Rattle.dm_places.specs.Queues.{HasPlaces, KeepsFewer, KeepsMore, Queued, UsesPlaces, spots_on};
ghost use Rattle.dm_rules.specs.Numbers.{as_word};
ghost use Rattle.dm_tables.specs.Rows.{EachRow, adjust, row_after};
ghost use Rattle.std.proofs.Props.{props};
ghost use Rattle.dm_catalogue.specs.Props.{joins-prop};
ghost use Rattle.dm_catalogue.specs.Sums.{Finds, FitsInPlace, IsWhole, KeepsHomes, Known, Summed, chunk_in, count_on};
ghost use Rattle.dm_catalogue.specs.Merging.{IsThere, live_of};

use crate::chunks::{self, LiveChunk, Stands};
use crate::homes::{self, Live};
use dm_base::{Bfid, Chunk, NoMemory, Vsn};
use dm_durable::BitfileRow;
use dm_places::{Queues, Spot};
use dm_rows::{NumberRows, TextRows};
use dm_rules::{ZONE_HEADER, chunk_header};
use std::alloc::Global;

/// The bitfiles by identifier, and what of them lies on each volume.
#[derive(Drop)]
pub struct Catalogue {
    alloc: Global,
    rows: NumberRows<BitfileRow>,
    // By the volume's serial number. A volume on which nothing lies may have a row here, with zeros.
    homes: TextRows<Vsn, Live>,
    // Where the chunks lie, by volume and place. More may be there: what a chunk leaves goes when it comes to the front.
    queues: Queues,
    // How many of the places for bitfiles are kept for a bitfile that is reserved for.
    promised: usize,
    ghost whole: { EachRow rows.rows (λ b r. IsWhole r) } by { Prim.hlevel (props, joins-prop) },
    ghost summed: { Summed homes.rows rows.rows },
    ghost queued: { Queued queues.rows.rows rows.rows },
    ghost room: { promised ≤ rows.spare },
}

impl Catalogue {
    /// No bitfile, and no place. It takes no memory.
    pub fn empty(alloc: Global) -> Catalogue
        ensures { result.rows.rows ≡ map.empty }
    {
        Catalogue {
            alloc,
            rows: NumberRows::empty(alloc),
            homes: TextRows::empty(alloc),
            queues: Queues::empty(alloc),
            promised: 0,
        }
    }

    /// How many bitfiles there are.
    pub fn len(&self) -> usize
        ensures len { result ≡ map.len self.now.rows.rows }
        ensures small { result < 2 ^ 63 }
    {
        self.rows.len()
    }

    /// The bitfile, or none.
    pub fn get(&self, bfid: Bfid) -> Option<&BitfileRow>
        ensures { option_copied result ≡ map.get self.now.rows.rows bfid.0 }
    {
        self.rows.get(bfid.0)
    }

    /// The bitfile at this place in the order of the identifiers, with its own.
    pub fn entry(&self, at: usize) -> Option<(u128, &BitfileRow)>
        ensures { option_map (λ e. (e.0, e.1.now)) result ≡ slice_get (map.entries self.now.rows.rows) at }
    {
        self.rows.entry(at)
    }

    /// The first bitfile past this one, or the first of all.
    pub fn first_after(&self, after: Option<u128>) -> Option<(u128, &BitfileRow)>
        ensures { option_map (λ e. (e.0, e.1.now)) result ≡ row_after self.now.rows.rows after }
    {
        self.rows.first_after(after)
    }

    /// The chunk of the bitfile that begins at the offset, or none.
    pub fn chunk(&self, bfid: Bfid, offset: u64) -> Option<Chunk>
        ensures { result ≡ chunk_in offset (map.get self.now.rows.rows bfid.0) }
    {
        match self.find(bfid, offset) {
            Some((_, chunk)) => Some(chunk),
            None => None,
        }
    }

    // The same, and its place among the bitfile's chunks.
    fn find(&self, bfid: Bfid, offset: u64) -> Option<(usize, Chunk)>
        ensures none { IfNone result (chunk_in offset (map.get self.now.rows.rows bfid.0) ≡ None) }
        ensures found { IfSome result (λ f. Finds (map.get self.now.rows.rows bfid.0) offset f.0 f.1) }
    {
        let Some(row) = self.rows.get(bfid.0) else {
            return None;
        };
        let chunks = row.chunks.as_slice();
        let Ok(at) = chunks::place(chunks, offset) else {
            return None;
        };
        match chunks.get(at) {
            Some(chunk) => Some((at, *chunk)),
            None => None,
        }
    }

    /// The sum of the lengths of the chunks on the volume.
    pub fn live(&self, vsn: Vsn) -> u64
        ensures { result ≡ as_word (live_on self.now.rows.rows vsn.0) }
    {
        narrow(self.lies(vsn).bytes)
    }

    /// Whether a chunk is on the volume.
    pub fn has_chunk_on(&self, vsn: Vsn) -> bool
        ensures { result ≡ has_chunk_on_of self.now.rows.rows vsn.0 }
    {
        self.lies(vsn).chunks > 0
    }

    /// What the chunks on the volume weigh, by the version of a volume.
    pub fn weight(&self, version: u8, vsn: Vsn) -> u64
        ensures { result ≡ as_word (weight_on self.now.rows.rows version vsn.0) }
    {
        let live = self.lies(vsn);
        let front = u128::from(ZONE_HEADER + chunk_header(version));
        narrow(live.chunks.saturating_mul(front).saturating_add(live.bytes))
    }

    // What lies on the volume.
    fn lies(&self, vsn: Vsn) -> Live
        ensures chunks { result.chunks ≡ count_on self.now.rows.rows vsn.0 }
        ensures bytes { result.bytes ≡ live_on self.now.rows.rows vsn.0 }
    {
        match self.homes.get(&vsn.0) {
            Some(live) => *live,
            None => Live {
                chunks: 0,
                bytes: 0,
            },
        }
    }

    /// The chunk on the volume that lies furthest in front, the first of two at one place. The places in front of it that
    /// chunks have left are dropped, each once. It takes no memory.
    pub fn first_on(&mut self, vsn: Vsn) -> Option<LiveChunk>
        ensures first { option_map live_of result ≡ first_on_of self.old.rows.rows vsn.0 }
        ensures rows { self.new.rows ≡ self.old.rows }
        ensures homes { self.new.homes ≡ self.old.homes }
        ensures promised { self.new.promised ≡ self.old.promised }
        ensures places { UsesPlaces self.old.queues.rows.rows [] self.new.queues.rows.rows }
    {
        let mut left = self.queues.len(vsn);
        while left > 0 {
            let Some(spot) = self.queues.first(vsn) else {
                return None;
            };
            match self.first_or_skip(vsn, spot) {
                Some(found) => return Some(found),
                None => left -= 1,
            }
        }
        None
    }

    // The chunk at the first spot of the volume. Where none lies there any more, the spot is dropped.
    fn first_or_skip(&mut self, vsn: Vsn, spot: Spot) -> Option<LiveChunk>
        requires { IsFirst (spots_on self.old.queues.rows.rows vsn.0) spot }
        ensures found { IfSome result (λ l. Some (live_of l) ≡ first_on_of self.old.rows.rows vsn.0) }
        ensures skipped { IfNone result (length (spots_on self.new.queues.rows.rows vsn.0) + 1 ≡ length (spots_on self.old.queues.rows.rows vsn.0)) }
        ensures rows { self.new.rows ≡ self.old.rows }
        ensures homes { self.new.homes ≡ self.old.homes }
        ensures promised { self.new.promised ≡ self.old.promised }
        ensures places { UsesPlaces self.old.queues.rows.rows [] self.new.queues.rows.rows }
    {
        match self.there(vsn, spot) {
            Some(found) => Some(found),
            None => {
                self.queues.drop_first(vsn);
                None
            }
        }
    }

    // The chunk that lies at the spot on the volume, or none where none lies there any more.
    fn there(&self, vsn: Vsn, spot: Spot) -> Option<LiveChunk>
        ensures there { IfSome result (λ l. IsThere self.now.rows.rows vsn.0 spot l) }
        ensures gone { IfNone result (EachSpotOn self.now.rows.rows vsn.0 (λ s. s ≢ spot)) }
    {
        let Some((_, chunk)) = self.find(spot.bfid, spot.offset) else {
            return None;
        };
        let Some(row) = self.rows.get(spot.bfid.0) else {
            return None;
        };
        if lies_at(&chunk, vsn, spot.place) {
            return Some(LiveChunk {
                bfid: spot.bfid,
                total: row.len,
                chunk,
            });
        }
        None
    }

    /// Keeps a place for a bitfile more. Where memory is refused, as many are kept as before.
    pub fn reserve(&mut self) -> Result<(), NoMemory>
        ensures rows { self.new.rows.rows ≡ self.old.rows.rows }
        ensures ok { OnOk result (self.new.promised ≡ self.old.promised + 1) }
        ensures err { OnErr result (self.new.promised ≡ self.old.promised) }
        ensures homes { self.new.homes ≡ self.old.homes }
        ensures queues { self.new.queues ≡ self.old.queues }
    {
        let Some(promised) = self.promised.checked_add(1) else {
            return Err(NoMemory);
        };
        match self.rows.reserve(promised) {
            Ok(()) => {
                self.promised = promised;
                Ok(())
            }
            Err(refused) => Err(refused),
        }
    }

    /// A place for a bitfile fewer is kept, if one is.
    pub fn give_back(&mut self)
        ensures rows { self.new.rows ≡ self.old.rows }
        ensures promised { self.new.promised ≡ self.old.promised - 1 }
        ensures homes { self.new.homes ≡ self.old.homes }
        ensures queues { self.new.queues ≡ self.old.queues }
    {
        self.promised = self.promised.saturating_sub(1);
    }

    /// Keeps sums of the volumes of these chunks from now on, and a place for each of the chunks. Where memory is refused,
    /// as many places are kept as before.
    pub fn know(&mut self, chunks: &[Chunk]) -> Result<(), NoMemory>
        ensures rows { self.new.rows ≡ self.old.rows }
        ensures promised { self.new.promised ≡ self.old.promised }
        ensures known { OnOk result (Known self.new.homes.rows chunks.now) }
        ensures kept { KeepsHomes self.old.homes.rows self.new.homes.rows }
        ensures ok { OnOk result (KeepsMore self.old.queues.rows.rows chunks.now self.new.queues.rows.rows) }
        ensures err { OnErr result (KeepsMore self.old.queues.rows.rows [] self.new.queues.rows.rows) }
    {
        match homes::know_all(&mut self.homes, self.alloc, chunks) {
            Ok(()) => self.queues.keep_all(chunks),
            Err(refused) => Err(refused),
        }
    }

    /// No place is kept for these chunks any more.
    pub fn forget(&mut self, chunks: &[Chunk])
        ensures rows { self.new.rows ≡ self.old.rows }
        ensures promised { self.new.promised ≡ self.old.promised }
        ensures homes { self.new.homes ≡ self.old.homes }
        ensures places { KeepsFewer self.old.queues.rows.rows chunks.now self.new.queues.rows.rows }
    {
        self.queues.give_back_all(chunks);
    }

    /// A volume on which no chunk lies is used anew: where chunks lay there is forgotten. It takes no memory.
    pub fn clear(&mut self, vsn: Vsn)
        ensures rows { self.new.rows ≡ self.old.rows }
        ensures promised { self.new.promised ≡ self.old.promised }
        ensures homes { self.new.homes ≡ self.old.homes }
        ensures places { UsesPlaces self.old.queues.rows.rows [] self.new.queues.rows.rows }
        ensures spots { has_chunk_on_of self.old.rows.rows vsn.0 ≡ false → spots_on self.new.queues.rows.rows vsn.0 ≡ [] }
    {
        if self.has_chunk_on(vsn) {
            return;
        }
        self.queues.clear(vsn);
    }

    // Puts a bitfile in, where there is none of its identifier.
    fn put(&mut self, row: Box<(u128, BitfileRow)>)
        requires place { 0 < self.old.promised }
        requires new { map.get self.old.rows.rows row.value.0 ≡ None }
        requires whole { Joins 0 row.value.1.chunks row.value.1.len }
        requires known { Known self.old.homes.rows row.value.1.chunks }
        requires room { HasPlaces self.old.queues.rows.rows row.value.1.chunks }
        ensures rows { self.new.rows.rows ≡ map.insert self.old.rows.rows row.value.0 row.value.1 }
        ensures kept { KeepsHomes self.old.homes.rows self.new.homes.rows }
        ensures promised { self.new.promised + 1 ≡ self.old.promised }
        ensures places { UsesPlaces self.old.queues.rows.rows row.value.1.chunks self.new.queues.rows.rows }
    {
        let _few = self.rows.len();
        let _small = length(&row.1);
        homes::add_all(&mut self.homes, row.1.chunks.as_slice());
        self.queues.put_all(Bfid(row.0), row.1.chunks.as_slice());
        self.rows.insert_reserved(row);
        self.promised -= 1;
    }

    /// Puts the bitfile into a place that is kept, in the place of the one with its identifier. It takes no memory.
    pub fn insert(&mut self, row: Box<(u128, BitfileRow)>)
        requires place { 0 < self.old.promised }
        requires whole { Joins 0 row.value.1.chunks row.value.1.len }
        requires known { Known self.old.homes.rows row.value.1.chunks }
        requires room { HasPlaces self.old.queues.rows.rows row.value.1.chunks }
        ensures rows { self.new.rows.rows ≡ map.insert self.old.rows.rows row.value.0 row.value.1 }
        ensures kept { KeepsHomes self.old.homes.rows self.new.homes.rows }
        ensures promised { self.new.promised + 1 ≡ self.old.promised }
        ensures places { UsesPlaces self.old.queues.rows.rows row.value.1.chunks self.new.queues.rows.rows }
    {
        self.remove(Bfid(row.0));
        self.put(row);
    }

    /// The bitfile is gone. It takes no memory.
    pub fn remove(&mut self, bfid: Bfid)
        ensures rows { self.new.rows.rows ≡ map.remove self.old.rows.rows bfid.0 }
        ensures promised { self.new.promised ≡ self.old.promised }
        ensures kept { KeepsHomes self.old.homes.rows self.new.homes.rows }
        ensures queues { self.new.queues ≡ self.old.queues }
    {
        let Some(row) = self.rows.take(bfid.0) else {
            return;
        };
        homes::take_all(&mut self.homes, row.1.chunks.as_slice());
    }

    /// The chunk is put in the place of the one of the bitfile that begins where it does, if there is one. It takes no
    /// memory.
    pub fn move_chunk(&mut self, bfid: Bfid, to: Chunk)
        requires len { FitsInPlace (chunk_in to.offset (map.get self.old.rows.rows bfid.0)) to }
        requires known { Known self.old.homes.rows (to ∷ []) }
        requires room { HasPlaces self.old.queues.rows.rows (to ∷ []) }
        ensures rows { self.new.rows.rows ≡ adjust self.old.rows.rows bfid.0 (with_chunk to) }
        ensures promised { self.new.promised ≡ self.old.promised }
        ensures kept { KeepsHomes self.old.homes.rows self.new.homes.rows }
        ensures places { UsesPlaces self.old.queues.rows.rows (to ∷ []) self.new.queues.rows.rows }
    {
        let _few = self.rows.len();
        let Some((at, from)) = self.find(bfid, to.offset) else {
            return;
        };
        homes::take_all(&mut self.homes, &[from]);
        homes::add_all(&mut self.homes, &[to]);
        self.queues.put_all(bfid, &[to]);
        let stands = Stands {
            alloc: self.alloc,
            at,
            chunk: to,
        };
        let _there = self.rows.change(bfid.0, &stands);
    }
}

// Whether the chunk lies at this place of the volume.
fn lies_at(chunk: &Chunk, vsn: Vsn, place: u64) -> bool
    ensures { result ≡ (is_on vsn.0 chunk.now && nat_eq chunk.now.place place) }
{
    chunk.vsn == vsn && chunk.place == place
}

// A number as 64 bits hold it.
fn narrow(n: u128) -> u64
    ensures { result ≡ as_word n }
{
    match u64::try_from(n) {
        Ok(n) => n,
        Err(_) => u64::MAX,
    }
}

// The length of a bitfile.
fn length(row: &BitfileRow) -> u64
    ensures { result ≡ row.now.len }
{
    row.len
}
