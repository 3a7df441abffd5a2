//! The spots of a volume, least first.

ghost use Rattle.std.specs.Prelude.{◌≡◌, ◌+◌, ◌-◌, ◌≤◌, ◌<◌, [], ◌∷◌, IfNone, IfSome, IsOk, OnErr, OnOk, length};
ghost use Rattle.std.specs.List.{filter};
ghost use Rattle.std.specs.List.Sorted.{IsPermutation};
ghost use Rattle.dm_places.specs.Queue.{DropsSpot};
ghost use Rattle.dm_places.specs.Order.{IsFirst};

use crate::spot::{Spot, Test};
use dm_base::NoMemory;
use std::alloc::Global;
use std::cmp::Reverse;
use std::collections::BinaryHeap;
use std::marker::Model;

/// Spots, of which the least is at hand, and places kept for more. One spot may be there more than once.
#[derive(Drop)]
pub struct Spots {
    heap: BinaryHeap<Reverse<Spot>>,
    // For how many more spots there is room. The heap may have more room than this.
    kept: usize,
}

impl Model for Spots {
    ghost use Rattle.std.specs.Prelude.{◌+◌, ◌≤◌, map as map_list};
    ghost use Rattle.std.specs.BinaryHeap.{IsHeap, heap_capacity, heap_items, heap_len};
    ghost use Rattle.dm_places.specs.Queue.{Queue};

    ghost Value = { Queue };

    ghost use Rattle.dm_places.specs.Order.{latest_first};

    ghost view = { λ a. record { spots = map_list (λ r. r.0) (heap_items a.heap); spare = a.kept } };

    ghost invariant = { λ a. IsHeap latest_first (heap_items a.heap) × (heap_len a.heap + a.kept ≤ heap_capacity a.heap) };
}

impl Spots {
    /// No spot, and no place. It takes no memory.
    pub fn empty(alloc: Global) -> Spots
        ensures spots { result.spots ≡ [] }
        ensures spare { result.spare ≡ 0 }
    {
        Spots {
            heap: BinaryHeap::new(alloc),
            kept: 0,
        }
    }

    /// How many spots there are.
    pub fn len(&self) -> usize
        ensures { result ≡ length self.now.spots }
    {
        self.heap.len()
    }

    /// Keeps places for so many spots more, at least.
    pub fn reserve(&mut self, spots: usize) -> Result<(), NoMemory>
        ensures spots { self.new.spots ≡ self.old.spots }
        ensures room { OnOk result (spots ≤ self.new.spare) }
        ensures kept { self.old.spare ≤ self.new.spare }
        ensures succeeds { spots ≤ self.old.spare → IsOk result }
    {
        self.heap.reserve(spots)?;
        if self.kept < spots {
            self.kept = spots;
        }
        Ok(())
    }

    /// Keeps a place more. Where memory is refused, as many are kept as before.
    pub fn keep_one(&mut self) -> Result<(), NoMemory>
        ensures spots { self.new.spots ≡ self.old.spots }
        ensures ok { OnOk result (self.new.spare ≡ self.old.spare + 1) }
        ensures err { OnErr result (self.new.spare ≡ self.old.spare) }
    {
        let Some(kept) = self.kept.checked_add(1) else {
            return Err(NoMemory);
        };
        self.heap.reserve(kept)?;
        self.kept = kept;
        Ok(())
    }

    /// A place fewer is kept, if one is.
    pub fn give_back(&mut self)
        ensures spots { self.new.spots ≡ self.old.spots }
        ensures spare { self.new.spare ≡ self.old.spare - 1 }
    {
        self.kept = self.kept.saturating_sub(1);
    }

    /// Puts the spot into a place that is kept. It takes no memory.
    pub fn push(&mut self, spot: Spot)
        requires { 0 < self.old.spare }
        ensures spots { IsPermutation (spot ∷ self.old.spots) self.new.spots }
        ensures spare { self.new.spare + 1 ≡ self.old.spare }
    {
        match self.heap.push(Reverse(spot)) {
            Ok(()) => (),
            Err(_) => unreachable!(),
        }
        self.kept -= 1;
    }

    /// The least spot, or none where there is no spot.
    pub fn first(&self) -> Option<Spot>
        ensures none { IfNone result (self.now.spots ≡ []) }
        ensures first { IfSome result (IsFirst self.now.spots) }
    {
        match self.heap.peek() {
            Some(first) => Some(first.0),
            None => None,
        }
    }

    /// The least spot goes, and its place is kept. It takes no memory.
    pub fn drop_first(&mut self)
        ensures dropped { (x : Spot) → IsFirst self.old.spots x → DropsSpot self.old x self.new }
        ensures none { self.old.spots ≡ [] → self.new ≡ self.old }
        ensures len { length self.new.spots ≡ length self.old.spots - 1 }
        ensures places { self.new.spare + length self.new.spots ≡ self.old.spare + length self.old.spots }
    {
        if let Some(_gone) = self.heap.pop() {
            self.kept += 1;
        }
    }

    /// No spot is left, and all places are kept. It takes no memory.
    pub fn clear(&mut self)
        ensures spots { self.new.spots ≡ [] }
        ensures spare { self.new.spare ≡ self.old.spare + length self.old.spots }
    {
        self.kept += self.heap.len();
        self.heap.clear();
    }

    /// Those that pass the test stay, and the places of the others are kept. It takes no memory.
    pub fn retain<T: Test>(&mut self, test: &T)
        ensures spots { IsPermutation (filter (T.passes test.now) self.old.spots) self.new.spots }
        ensures places { self.new.spare + length self.new.spots ≡ self.old.spare + length self.old.spots }
    {
        let before = self.heap.len();
        self.heap.retain(|spot| test.test(&spot.0));
        self.kept += before - self.heap.len();
    }
}
