ghost use Rattle.std.specs.Prelude.{◌≡◌, ◌<◌, ◌≤◌, ◌+◌, ◌^◌, ℕ, length, slice_index, slice_set, IfOk, map, All, IsTrue, ◌↔◌};
ghost use Rattle.std.specs.List.{list_any};
ghost use Rattle.frp_rank.specs.Order.{rank_of};
ghost use Rattle.frp_rank.specs.Search.{IsSearchable, IsSearch, searched, has_visit};
ghost use Rattle.frp_rank.specs.Plans.{IsPlan, written, AreInside, risen_writes, lower_writes};
ghost use Rattle.frp_rank.specs.Plans as def;
ghost use Rattle.std.specs.List.Sorted.{IsNonDecreasing};
ghost use Rattle.frp_rank.specs.Laws.{lower_count};

use crate::search::{Search, is_visited};
use crate::visit::Visit;
use crate::write::Write;
use frp_base::{Memory, Place, Seq};
use frp_region::Region;
use std::alloc::Global;

/// What a link does: it closes a chain, or new ranks let it lead lower.
#[derive(Drop)]
pub enum Plan {
    Closed(Seq<Place>),
    Open(Vec<Write>),
}

/// The limit of ranks.
pub const LIMIT: u64 = 0x1_0000_0000;

impl Search<'_> {
    /// What a link from the search's start to this place does.
    pub fn plan(&self, slots: &mut Region<u64>, to: u64, alloc: Global) -> Result<Plan, Memory>
        requires able { IsSearchable self.now }
        requires slots { length slots.old.items ≡ length self.now.ranks.now.items }
        requires to { to < length self.now.ranks.now.items }
        requires higher { slice_index self.now.ranks.now.items to < slice_index self.now.ranks.now.items self.now.from + self.now.by }
        ensures slots { length slots.new.items ≡ length slots.old.items }
        ensures plan { IfOk result (IsPlan (searched self.now) self.now.from to) }
    {
        let visits = self.reach(slots, alloc)?;
        if is_visited(slots, visits.as_slice(), to) {
            let chain = self.chain(slots, visits.as_slice(), to, alloc)?;
            return Ok(Plan::Closed(chain));
        }
        let writes = self.rises(visits.as_slice(), alloc)?;
        if has_high_write(writes.as_slice()) {
            let writes = self.renumbered(writes.as_slice(), alloc)?;
            return Ok(Plan::Open(writes));
        }
        Ok(Plan::Open(writes))
    }

    /// The new ranks of the visited places.
    fn rises(&self, visits: &[Visit], alloc: Global) -> Result<Vec<Write>, Memory>
        requires able { IsSearchable self.now }
        requires inside { All (λ v. v.place < length self.now.ranks.now.items) visits.now }
        ensures { IfOk result (λ writes. writes.items ≡ risen_writes self.now.ranks.now.items self.now.by visits.now) }
    {
        let mut writes = Vec::new(alloc);
        for visit in visits {
            let rank = *self.ranks.get(Place(visit.place));
            writes.push(Write {
                place: visit.place,
                rank: rank + self.by,
            })?;
        }
        Ok(writes)
    }

    /// New ranks for all places, in the order that they have once these are written.
    fn renumbered(&self, writes: &[Write], alloc: Global) -> Result<Vec<Write>, Memory>
        requires inside { AreInside writes.now (length self.now.ranks.now.items) }
        ensures { IfOk result (λ new. new.items ≡ lower_writes (written self.now.ranks.now.items writes.now)) }
    {
        let mut ranks = copied(self.ranks, alloc)?;
        write_over(ranks.as_mut_slice(), writes);
        let new = renumber(ranks.as_slice(), alloc)?;
        Ok(new)
    }
}

/// Whether a rank reaches the limit.
fn has_high_write(writes: &[Write]) -> bool
    ensures { result ≡ def.has_high_write writes.now }
{
    for write in writes {
        if write.rank >= LIMIT {
            return true;
        }
    }
    false
}

/// The ranks of all places.
fn copied(ranks: &Region<u64>, alloc: Global) -> Result<Vec<u64>, Memory>
    ensures { IfOk result (λ copy. copy.items ≡ ranks.now.items) }
{
    let mut copy = Vec::new(alloc);
    for place in 0..ranks.len() {
        copy.push(*ranks.get(Place(place)))?;
    }
    Ok(copy)
}

/// Writes the new ranks.
fn write_over(ranks: &mut [u64], writes: &[Write])
    requires inside { AreInside writes.now (length ranks.old) }
    ensures { ranks.new ≡ written ranks.old writes.now }
{
    for write in writes {
        ranks[write.place as usize] = write.rank;
    }
}

/// For each place the number of places that have a lower rank.
fn renumber(ranks: &[u64], alloc: Global) -> Result<Vec<Write>, Memory>
    ensures { IfOk result (λ new. new.items ≡ lower_writes ranks.now) }
{
    let mut sorted = Vec::from_slice(alloc, ranks)?;
    sorted.sort_unstable();
    let mut writes = Vec::new(alloc);
    for (place, rank) in ranks.iter().enumerate() {
        writes.push(Write {
            place: place as u64,
            rank: count_lower(sorted.as_slice(), *rank),
        })?;
    }
    Ok(writes)
}

/// How many of the ranks, which are sorted, are lower than this one.
fn count_lower(sorted: &[u64], rank: u64) -> u64
    requires { IsNonDecreasing sorted.now }
    ensures { result ≡ lower_count sorted.now rank }
{
    sorted.partition_point(|r| *r < rank) as u64
}
