ghost use Rattle.std.specs.Prelude.{◌≡◌, ◌<◌, ◌≤◌, ◌+◌, ◌-◌, ◌∷◌, [], ◌++◌, ℕ, true, false, length, map, drop, IfOk, OnOk, MatchOption, slice_index, slice_set};
ghost use Rattle.frp_order.specs.declared.mark.Mark.TheVariants.{Unseen, Open, Done};
ghost use Rattle.frp_order.specs.Rings.{row, AreInside, IsRing};
ghost use Rattle.frp_order.specs.Found.{IsFound};
ghost use Rattle.frp_order.specs.Search.{mark_at, visit_at, top_of, is_unseen, is_done, state_of, unmet, IsSearch, Keeps, GoesOn, LeadsNext};

use crate::found::Found;
use crate::mark::Mark;
use crate::visit::Visit;
use frp_base::{Memory, Seq};
use std::alloc::Global;

/// An order of places in which each link leads back, or a ring of them where there is none. `rows` has for each place those to
/// which it is linked. The time is proportional to the places and links.
pub fn sort(alloc: Global, rows: &[Seq<usize>]) -> Result<Found, Memory>
    requires { AreInside rows.now }
    ensures { IfOk result (IsFound rows.now) }
{
    let mut search = Search::new(alloc, rows.len())?;
    for root in 0..rows.len() {
        if let Some(ring) = search.explore(rows, root, alloc)? {
            return Ok(Found::Ring(Seq::of(ring)));
        }
    }
    Ok(Found::Order(search.into_order()))
}

/// A search along links, depth first.
#[derive(Drop)]
pub struct Search {
    /// How far it has come with each place.
    pub marks: Vec<Mark>,
    /// The places on the way to the present one, each by the link that it is at.
    pub path: Vec<Visit>,
    /// The places that are done with, after all those to which they are linked.
    pub order: Vec<usize>,
}

impl Search {
    /// A search that has met none of so many places.
    fn new(alloc: Global, count: usize) -> Result<Search, Memory>
        ensures { IfOk result (λ s. state_of s ≡ unmet count) }
    {
        let mut marks = Vec::new(alloc);
        marks.resize(count, Mark::Unseen)?;
        Ok(Search {
            marks,
            path: Vec::new(alloc),
            order: Vec::new(alloc),
        })
    }

    /// Goes on until all places that links lead to from a place are done with, or a ring is found.
    fn explore(
        &mut self,
        rows: &[Seq<usize>],
        root: usize,
        alloc: Global,
    ) -> Result<Option<Vec<usize>>, Memory>
        requires inside { AreInside rows.now }
        requires search { IsSearch rows.now (state_of self.old) }
        requires start { self.old.path.items ≡ [] }
        requires root { root < length rows.now }
        ensures { IfOk result (λ o. MatchOption o (IsSearch rows.now (state_of self.new) × (self.new.path.items ≡ []) × Keeps (state_of self.old) (state_of self.new) × (is_done (mark_at self.new.marks.items root) ≡ true)) (λ ring. IsRing rows.now ring.items)) }
    {
        if !self.is_unseen(root) {
            return Ok(None);
        }
        self.open(rows, root)?;
        while !self.path.is_empty() {
            if let Some(ring) = self.step(rows, alloc)? {
                return Ok(Some(ring));
            }
        }
        Ok(None)
    }

    fn is_unseen(&self, place: usize) -> bool
        requires { place < length self.now.marks.items }
        ensures { result ≡ is_unseen (mark_at self.now.marks.items place) }
    {
        match self.marks[place] {
            Mark::Unseen => true,
            Mark::Open { .. } | Mark::Done { .. } => false,
        }
    }

    /// Goes along the next link of the last place on the path that doesn't lead to a place that is done with; without one, the
    /// place is done with.
    fn step(&mut self, rows: &[Seq<usize>], alloc: Global) -> Result<Option<Vec<usize>>, Memory>
        requires inside { AreInside rows.now }
        requires search { IsSearch rows.now (state_of self.old) }
        requires path { 0 < length self.old.path.items }
        ensures { IfOk result (λ o. MatchOption o (GoesOn rows.now (state_of self.old) (state_of self.new)) (λ ring. IsRing rows.now ring.items)) }
    {
        let top = self.path.len() - 1;
        let visit = self.path[top];
        let row = rows[visit.place].as_slice();
        let next = self.next_link(row, visit.next);
        self.path[top] = Visit {
            place: visit.place,
            next,
        };
        if next < row.len() {
            self.follow(rows, row[next], alloc)
        } else {
            self.finish(rows, visit.place)?;
            Ok(None)
        }
    }

    /// The number, from a first one on, of the first link to a place that is not done with; or how many links there are.
    fn next_link(&self, row: &[usize], first: usize) -> usize
        requires inside { (i : ℕ) → i < length row.now → slice_index row.now i < length self.now.marks.items }
        ensures from { first ≤ result }
        ensures passed { (i : ℕ) → first ≤ i → i < result → i < length row.now → is_done (mark_at self.now.marks.items (slice_index row.now i)) ≡ true }
        ensures at { result < length row.now → is_done (mark_at self.now.marks.items (slice_index row.now result)) ≡ false }
    {
        let mut next = first;
        while next < row.len() && self.is_done(row[next]) {
            next += 1;
        }
        next
    }

    fn is_done(&self, place: usize) -> bool
        requires { place < length self.now.marks.items }
        ensures { result ≡ is_done (mark_at self.now.marks.items place) }
    {
        match self.marks[place] {
            Mark::Done { .. } => true,
            Mark::Unseen | Mark::Open { .. } => false,
        }
    }

    /// Goes along the link of the last place on the path: to a place that was not met yet, or to one on the path, which closes
    /// a ring.
    fn follow(
        &mut self,
        rows: &[Seq<usize>],
        to: usize,
        alloc: Global,
    ) -> Result<Option<Vec<usize>>, Memory>
        requires search { IsSearch rows.now (state_of self.old) }
        requires to { to < length rows.now }
        requires new { is_done (mark_at self.old.marks.items to) ≡ false }
        requires path { 0 < length self.old.path.items }
        requires leads { LeadsNext rows.now (top_of self.old.path.items) to }
        ensures { IfOk result (λ o. MatchOption o (GoesOn rows.now (state_of self.old) (state_of self.new)) (λ ring. IsRing rows.now ring.items)) }
    {
        match self.marks[to] {
            Mark::Open { at } => Ok(Some(self.places_from(at, alloc)?)),
            Mark::Unseen | Mark::Done { .. } => {
                self.open(rows, to)?;
                Ok(None)
            }
        }
    }

    /// The places of the path, from a number on.
    fn places_from(&self, at: usize, alloc: Global) -> Result<Vec<usize>, Memory>
        requires { at ≤ length self.now.path.items }
        ensures { IfOk result (λ places. places.items ≡ map (λ v. v.place) (drop at self.now.path.items)) }
    {
        let mut places = Vec::new(alloc);
        for visit in &self.path[at..] {
            places.push(visit.place)?;
        }
        Ok(places)
    }

    /// A place that was not met yet comes to the end of the path.
    fn open(&mut self, rows: &[Seq<usize>], place: usize) -> Result<(), Memory>
        requires search { IsSearch rows.now (state_of self.old) }
        requires place { place < length rows.now }
        requires new { mark_at self.old.marks.items place ≡ Unseen }
        requires leads { 0 < length self.old.path.items → LeadsNext rows.now (top_of self.old.path.items) place }
        ensures goes { OnOk result (GoesOn rows.now (state_of self.old) (state_of self.new)) }
        ensures met { OnOk result (is_unseen (mark_at self.new.marks.items place) ≡ false) }
    {
        let _rows = rows;
        let at = self.path.len();
        self.path.push(Visit { place, next: 0 })?;
        self.marks[place] = Mark::Open { at };
        Ok(())
    }

    /// The last place on the path is done with.
    fn finish(&mut self, rows: &[Seq<usize>], place: usize) -> Result<(), Memory>
        requires search { IsSearch rows.now (state_of self.old) }
        requires path { 0 < length self.old.path.items }
        requires place { (top_of self.old.path.items).place ≡ place }
        requires passed { length (row rows.now place) ≤ (top_of self.old.path.items).next }
        ensures { OnOk result (GoesOn rows.now (state_of self.old) (state_of self.new)) }
    {
        let _rows = rows;
        let at = self.order.len();
        self.order.push(place)?;
        self.path.pop();
        self.marks[place] = Mark::Done { at };
        Ok(())
    }

    /// The places that are done with.
    fn into_order(self) -> Seq<usize>
        ensures { result ≡ self.order.items }
    {
        let Search { order, .. } = self;
        Seq::of(order)
    }
}
