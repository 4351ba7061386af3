ghost use Rattle.std.specs.Prelude.{◌≡◌, ◌<◌, ◌≤◌, ℕ, true, length, IfOk, slice_index, ◌⊎◌};
ghost use Rattle.frp_rank.specs.Chain.{is_linked, is_path, first_or, is_closed_chain, with_link, numbers};
ghost use Rattle.frp_rank.specs.Graph.{live_links};
ghost use Rattle.frp_rank.specs.Search.{has_visit, visit_at, IsSearchable, IsSearch, LeadsOn};

use crate::search::Search;
use crate::visit::Visit;
use frp_base::{Memory, Place, Seq};
use frp_region::Region;
use std::alloc::Global;

impl Search<'_> {
    /// The chain that a link from the search's start to a visited place closes, the least place first.
    pub fn chain(
        &self,
        slots: &Region<u64>,
        visits: &[Visit],
        to: u64,
        alloc: Global,
    ) -> Result<Seq<Place>, Memory>
        requires able { IsSearchable self.now }
        requires search { IsSearch self.now slots.now.items visits.now }
        requires visited { has_visit visits.now to ≡ true }
        ensures { IfOk result (λ chain. is_closed_chain (with_link (is_linked (live_links self.now.edges.now.items)) self.now.from to) (numbers chain) ≡ true) }
    {
        let mut places = self.way(slots, visits, to, alloc)?;
        places.push(Place(self.from))?;
        let least = number_of_least(places.as_slice());
        places.rotate_left(least);
        Ok(Seq::of(places))
    }

    /// The places on the way from a visited place to the search's start, that one not included.
    fn way(
        &self,
        slots: &Region<u64>,
        visits: &[Visit],
        to: u64,
        alloc: Global,
    ) -> Result<Vec<Place>, Memory>
        requires able { IsSearchable self.now }
        requires search { IsSearch self.now slots.now.items visits.now }
        requires visited { has_visit visits.now to ≡ true }
        ensures path { IfOk result (λ way. is_path (is_linked (live_links self.now.edges.now.items)) (numbers way.items) self.now.from ≡ true) }
        ensures first { IfOk result (λ way. first_or (numbers way.items) self.now.from ≡ to) }
    {
        let mut places = Vec::new(alloc);
        let mut at = to;
        while at != self.from {
            places.push(Place(at))?;
            at = self.next(slots, visits, at);
        }
        Ok(places)
    }

    /// The next place on the way to the search's start.
    fn next(&self, slots: &Region<u64>, visits: &[Visit], place: u64) -> u64
        requires able { IsSearchable self.now }
        requires search { IsSearch self.now slots.now.items visits.now }
        requires visited { has_visit visits.now place ≡ true }
        ensures { LeadsOn (live_links self.now.edges.now.items) self.now.from visits.now (record { place = place; through = result }) }
    {
        let slot = *slots.get(Place(place));
        visits[slot as usize].through
    }
}

/// Where the least of the places stands.
fn number_of_least(places: &[Place]) -> usize
    requires { 0 < length places.now }
    ensures inside { result < length places.now }
    ensures least { (k : ℕ) → k < length places.now → slice_index (numbers places.now) result ≤ slice_index (numbers places.now) k }
{
    let mut best = 0;
    for (i, place) in places.iter().enumerate() {
        if place.0 < places[best].0 {
            best = i;
        }
    }
    best
}
