ghost use Rattle.std.specs.Prelude.{◌≡◌, ◌<◌, ◌≤◌, ◌+◌, ◌-◌, [], ◌∷◌, ◌++◌, length, take, slice_get, Some, OnOk};
ghost use Rattle.std.specs.Borrow.{Lends, sem};

use crate::chunk::{Chunk, SIZE};
use crate::mark::Mark;
use frp_base::{Memory, Place};
use std::alloc::Global;
use std::marker::Model;

/// The most chunks of a region, so that the number of its items, and the room, fit their type.
const MOST: usize = 144_115_188_075_855_871;

/// Items that never move, in the order in which they were put. The place of an item is its number in that order, from 0.
///
/// Contracts see the list of the items, and as `spare` how many more can be put without memory.
#[derive(Drop)]
pub struct Region<T> {
    alloc: Global,
    // Only full ones stand before one that is not.
    chunks: Vec<Chunk<T>>,
    // How many items the chunks hold.
    count: usize,
}

impl<T> Model for Region<T> {
    ghost use Rattle.std.specs.Prelude.{◌-◌, ◌*◌, ◌<◌, ◌^◌, length};
    ghost use Rattle.frp_region.specs.Chunks.{ArePacked, chunk_size, chunk_items};
    ghost use Rattle.frp_region.specs.Content.{Content, content_code};

    ghost Value = { Content T };

    ghost coded = { content_code T.code };

    ghost view = { λ r. record { items = chunk_items r.chunks.items; spare = chunk_size * length r.chunks.items - r.count } };

    ghost invariant = { λ r. ArePacked r.chunks.items r.count × (length r.chunks.items < 2 ^ 57) };
}

impl<T> Region<T> {
    ghost use Rattle.frp_region.specs.Content.{with_item};
    ghost use Rattle.frp_region.specs.contracts.region.Region.{the_row};

    /// A region without items. It takes no memory.
    pub fn new(alloc: Global) -> Region<T>
        ensures items { result.items ≡ [] }
        ensures spare { result.spare ≡ 0 }
    {
        Region {
            alloc,
            chunks: Vec::new(alloc),
            count: 0,
        }
    }

    /// Makes room for `n` more items. Where memory is wanting, the items are as before, and so is the room, or there is more.
    pub fn reserve(&mut self, n: u64) -> Result<(), Memory>
        ensures ok { OnOk result (n ≤ self.new.spare) }
        ensures items { self.new.items ≡ self.old.items }
        ensures spare { self.old.spare ≤ self.new.spare }
    {
        while self.spare() < n as usize {
            self.grow()?;
        }
        Ok(())
    }

    /// How many more items can be put without memory.
    #[tactic(auto, using(crate::proofs::Packing::packed_room))]
    fn spare(&self) -> usize
        ensures { result ≡ self.now.spare }
    {
        self.chunks.len() * SIZE - self.count
    }

    /// Makes room for the items of one chunk more.
    #[tactic(auto, using(crate::proofs::Packing::packed_more, crate::proofs::Packing::joined_more, crate::proofs::Packing::packed_room))]
    fn grow(&mut self) -> Result<(), Memory>
        ensures ok { OnOk result (self.old.spare < self.new.spare) }
        ensures items { self.new.items ≡ self.old.items }
        ensures spare { self.old.spare ≤ self.new.spare }
    {
        if self.chunks.len() >= MOST {
            return Err(Memory);
        }
        self.chunks.reserve(1)?;
        let chunk = Chunk::new(self.alloc)?;
        self.chunks.push_reserved(chunk);
        Ok(())
    }

    /// Appends an item, and gives its place. It takes no memory.
    #[tactic(auto, using(crate::proofs::Places::chunk_open, crate::proofs::Places::number_open, crate::proofs::Places::packed_pushed, crate::proofs::Places::joined_pushed, crate::proofs::Packing::packed_length))]
    pub fn put(&mut self, item: T) -> Place
        requires { 1 ≤ self.old.spare }
        ensures place { result.0 ≡ length self.old.items }
        ensures items { self.new.items ≡ self.old.items ++ item ∷ [] }
        ensures spare { self.new.spare + 1 ≡ self.old.spare }
    {
        let place = self.count;
        self.chunks[place / SIZE].put(item);
        self.count += 1;
        Place(place as u64)
    }

    /// The item at a place.
    #[tactic(auto, using(crate::proofs::Places::chunk_found, crate::proofs::Places::number_found, crate::proofs::Places::item_found))]
    pub fn get(&self, p: Place) -> &T
        requires { p.0 < length self.now.items }
        ensures { slice_get self.now.items p.0 ≡ Some result.now }
    {
        let place = p.0 as usize;
        self.chunks[place / SIZE].get(place % SIZE)
    }

    /// The item at a place, to write to.
    #[tactic(auto, using(crate::proofs::Places::chunk_found, crate::proofs::Places::number_found, crate::proofs::Places::item_found, crate::proofs::Places::packed_write, crate::proofs::Places::joined_write))]
    pub fn get_mut(&mut self, p: Place) -> &mut T
        requires { p.0 < length self.old.items }
        ensures* writes_back { sem 𝓛 (Lends (the_row T.row) T.row self.entry result (with_item self.entry.now p.0)) }
        ensures item { slice_get self.old.items p.0 ≡ Some result.now }
    {
        let place = p.0 as usize;
        let chunk = &mut self.chunks[place / SIZE];
        chunk.get_mut(place % SIZE)
    }

    /// How many items there are.
    #[tactic(auto, using(crate::proofs::Packing::packed_length))]
    pub fn len(&self) -> u64
        ensures { result ≡ length self.now.items }
    {
        self.count as u64
    }

    /// The present length, to which the region may be cut later.
    #[tactic(auto, using(crate::proofs::Packing::packed_length))]
    pub fn mark(&self) -> Mark
        ensures { result.length ≡ length self.now.items }
    {
        Mark {
            length: self.count as u64,
        }
    }
}

impl<T: Drop> Region<T> {
    /// Drops the items that were put after the mark was taken; their room is free again. It takes no memory.
    pub fn cut(&mut self, m: Mark)
        requires { m.length ≤ length self.old.items }
        ensures items { self.new.items ≡ take m.length self.old.items }
        ensures spare { self.new.spare ≡ self.old.spare + (length self.old.items - m.length) }
    {
        while self.len() > m.length {
            self.shorten(m.length as usize);
        }
    }

    /// Drops the items of the last chunk that has any, but those before the place `least`.
    #[tactic(auto, using(crate::proofs::Places::chunk_last, crate::proofs::Places::packed_shortened, crate::proofs::Places::joined_shortened, crate::proofs::Packing::packed_length))]
    fn shorten(&mut self, least: usize)
        requires { least < length self.old.items }
        ensures fewer { length self.new.items < length self.old.items }
        ensures least { least ≤ length self.new.items }
        ensures items { self.new.items ≡ take (length self.new.items) self.old.items }
        ensures spare { self.new.spare + length self.new.items ≡ self.old.spare + length self.old.items }
    {
        let number = (self.count - 1) / SIZE;
        let first = number * SIZE;
        let count = least.max(first);
        self.chunks[number].truncate(count - first);
        self.count = count;
    }
}
