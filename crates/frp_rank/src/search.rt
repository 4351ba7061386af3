ghost use Rattle.std.specs.Prelude.{◌≡◌, ◌<◌, ◌≤◌, ◌+◌, ◌^◌, ◌∷◌, [], ◌++◌, ℕ, true, length, All, IfOk, OnOk, slice_index, slice_set, slice_get, Some};
ghost use Rattle.frp_rank.specs.Graph.{end_of, edge_at};
ghost use Rattle.frp_rank.specs.Search.{has_visit, visit_at, IsSearchable, IsSearch, is_close, IsMet, AreMet, AreAllMet, Grows};

use crate::edge::Edge;
use crate::visit::Visit;
use frp_base::{Memory, Place};
use frp_region::Region;
use std::alloc::Global;

/// A search for the places that rise with one: those that lead to it by links that would else not lead lower.
#[derive(Clone, Copy)]
pub struct Search<'a> {
    pub ranks: &'a Region<u64>,
    pub last_in: &'a Region<u64>,
    pub edges: &'a Region<Edge>,
    /// The place that rises.
    pub from: u64,
    /// By how much.
    pub by: u64,
}

impl Search<'_> {
    /// The places that rise, `from` first.
    pub fn reach(&self, slots: &mut Region<u64>, alloc: Global) -> Result<Vec<Visit>, Memory>
        requires able { IsSearchable self.now }
        requires slots { length slots.old.items ≡ length self.now.ranks.now.items }
        ensures slots { length slots.new.items ≡ length slots.old.items }
        ensures search { IfOk result (λ visits. IsSearch self.now slots.new.items visits.items) }
        ensures met { IfOk result (λ visits. AreAllMet self.now visits.items) }
    {
        let mut visits = Vec::new(alloc);
        note(slots, &mut visits, self.from, self.from)?;
        let mut done = 0;
        while done < visits.len() {
            self.meet_all(slots, &mut visits, done)?;
            done += 1;
        }
        Ok(visits)
    }

    /// Visits the places that are linked too closely to the place of a visit.
    fn meet_all(
        &self,
        slots: &mut Region<u64>,
        visits: &mut Vec<Visit>,
        number: usize,
    ) -> Result<(), Memory>
        requires able { IsSearchable self.now }
        requires search { IsSearch self.now slots.old.items visits.old.items }
        requires number { number < length visits.old.items }
        ensures slots { length slots.new.items ≡ length slots.old.items }
        ensures search { OnOk result (IsSearch self.now slots.new.items visits.new.items) }
        ensures grows { OnOk result (Grows visits.old.items visits.new.items) }
        ensures met { OnOk result (AreMet self.now visits.new.items (visit_at visits.old.items number).place) }
    {
        let place = visits[number].place;
        let mut at = *self.last_in.get(Place(place));
        while at > 0 {
            self.meet(slots, visits, at - 1)?;
            at = self.edges.get(Place(at - 1)).earlier_in;
        }
        Ok(())
    }

    /// Visits the start of an edge, where that is too close.
    fn meet(
        &self,
        slots: &mut Region<u64>,
        visits: &mut Vec<Visit>,
        number: u64,
    ) -> Result<(), Memory>
        requires able { IsSearchable self.now }
        requires search { IsSearch self.now slots.old.items visits.old.items }
        requires number { number < length self.now.edges.now.items }
        requires reached { has_visit visits.old.items (end_of self.now.edges.now.items number) ≡ true }
        ensures slots { length slots.new.items ≡ length slots.old.items }
        ensures search { OnOk result (IsSearch self.now slots.new.items visits.new.items) }
        ensures grows { OnOk result (Grows visits.old.items visits.new.items) }
        ensures met { OnOk result (IsMet self.now visits.new.items number) }
    {
        let edge = *self.edges.get(Place(number));
        if self.is_close(edge) && !is_visited(slots, visits.as_slice(), edge.from) {
            note(slots, visits, edge.from, edge.to)?;
        }
        Ok(())
    }

    /// Whether the edge is a link that would not lead lower if its end rose alone.
    fn is_close(&self, edge: Edge) -> bool
        requires able { IsSearchable self.now }
        requires from { edge.from < length self.now.ranks.now.items }
        requires to { edge.to < length self.now.ranks.now.items }
        ensures { result ≡ is_close self.now.ranks.now.items self.now.by edge }
    {
        let low = *self.ranks.get(Place(edge.from));
        let high = *self.ranks.get(Place(edge.to));
        edge.live && low <= high + self.by
    }
}

/// Whether the place was visited.
pub fn is_visited(slots: &Region<u64>, visits: &[Visit], place: u64) -> bool
    requires place { place < length slots.now.items }
    requires slot { (j : ℕ) → j < length visits.now → slice_index slots.now.items (visit_at visits.now j).place ≡ j }
    ensures { result ≡ has_visit visits.now place }
{
    let slot = *slots.get(Place(place));
    slot < visits.len() as u64 && visits[slot as usize].place == place
}

/// Visits a place.
fn note(
    slots: &mut Region<u64>,
    visits: &mut Vec<Visit>,
    place: u64,
    through: u64,
) -> Result<(), Memory>
    requires { place < length slots.old.items }
    ensures length { length slots.new.items ≡ length slots.old.items }
    ensures slots { OnOk result (slots.new.items ≡ slice_set slots.old.items place (length visits.old.items)) }
    ensures visits { OnOk result (visits.new.items ≡ visits.old.items ++ (record { place = place; through = through }) ∷ []) }
{
    let number = visits.len() as u64;
    visits.push(Visit { place, through })?;
    *slots.get_mut(Place(place)) = number;
    Ok(())
}
