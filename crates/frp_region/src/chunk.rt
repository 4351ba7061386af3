ghost use Rattle.std.specs.Prelude.{◌≡◌, ◌<◌, [], ◌∷◌, ◌++◌, length, take, slice_get, slice_set, Some, IfOk};
ghost use Rattle.std.specs.Borrow.{Lends, sem};

use frp_base::Memory;
use std::alloc::Global;
use std::marker::Model;

/// How many items a chunk holds.
pub const SIZE: usize = 64;

/// Room for `SIZE` items, all of it taken when the chunk is made. Contracts see the list of its items.
#[derive(Drop)]
pub struct Chunk<T> {
    items: Vec<T>,
}

impl<T> Model for Chunk<T> {
    ghost use Rattle.std.specs.Prelude.{List, ◌≤◌, vec_capacity};
    ghost use Rattle.std.specs.Coded.{coded_list};
    ghost use Rattle.frp_region.specs.Chunks.{chunk_size};

    ghost Value = { List T };

    ghost coded = { coded_list T.code };

    ghost view = { λ c. c.items.items };

    ghost invariant = { λ c. chunk_size ≤ vec_capacity c.items };
}

impl<T> Chunk<T> {
    ghost use Rattle.frp_region.specs.Chunks.{chunk_size};
    ghost use Rattle.frp_region.specs.contracts.chunk.Chunk.{the_row};

    /// A chunk without items.
    pub fn new(alloc: Global) -> Result<Chunk<T>, Memory>
        ensures { IfOk result (λ c. c ≡ []) }
    {
        let items = Vec::with_capacity(alloc, SIZE)?;
        Ok(Chunk { items })
    }

    /// Appends an item.
    pub fn put(&mut self, item: T)
        requires { length self.old < chunk_size }
        ensures { self.new ≡ self.old ++ item ∷ [] }
    {
        self.items.push_reserved(item);
    }

    /// The item of this number.
    pub fn get(&self, number: usize) -> &T
        requires { number < length self.now }
        ensures { slice_get self.now number ≡ Some result.now }
    {
        &self.items[number]
    }

    /// The item of this number, to write to.
    pub fn get_mut(&mut self, number: usize) -> &mut T
        requires { number < length self.old }
        ensures* writes_back { sem 𝓛 (Lends (the_row T.row) T.row self.entry result (slice_set self.entry.now number)) }
        ensures item { slice_get self.old number ≡ Some result.now }
    {
        &mut self.items[number]
    }
}

impl<T: Drop> Chunk<T> {
    /// Drops the items from the number `count` on.
    pub fn truncate(&mut self, count: usize)
        ensures { self.new ≡ take count self.old }
    {
        self.items.truncate(count);
    }
}
