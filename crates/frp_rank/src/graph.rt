ghost use Rattle.std.specs.Prelude.{◌≡◌, ◌<◌, ◌≤◌, ◌+◌, ◌^◌, ◌∷◌, [], ◌++◌, ◌⊎◌, ◌==◌, ◌&&◌, ℕ, length, take, slice_set, slice_index, vec_len, vec_capacity, OnOk, OnErr, IfOk, IfSome, IfNone, OnSome, Some, None, true, false};
ghost use Rattle.frp_rank.specs.Chain.{is_linked, is_closed_chain, with_link, without_link, numbers};
ghost use Rattle.frp_rank.specs.Order.{Raises};
ghost use Rattle.frp_rank.specs.Graph.{net_of, base_of, Net, IsKept, IsSound, edge_at, start_of, end_of, order_of, with_empty_place, with_live, Finds};
ghost use Rattle.frp_rank.specs.Plans.{IsPlan, written, AreInside};

use crate::change::Change;
use crate::edge::Edge;
use crate::plan::Plan;
use crate::search::Search;
use crate::write::Write;
use frp_base::{Memory, Place, Seq};
use frp_region::{Mark, Region};
use std::alloc::Global;

/// The most places, so that ranks that are renumbered stay below their limit.
const MOST_PLACES: u64 = 0xffff_ffff;

/// Ranks and links as they are kept, with what undoes the changes since the last commit.
#[derive(Drop)]
pub struct Graph {
    /// The rank of each place.
    pub ranks: Region<u64>,
    /// For each place one more than the number of the last edge that leads to it, or 0.
    pub last_in: Region<u64>,
    /// For each place one more than the number of the last edge that leads from it, or 0.
    pub last_out: Region<u64>,
    /// For each place the number of its visit in a search. Between two searches it means nothing.
    pub slots: Region<u64>,
    /// The links, and those that were removed.
    pub edges: Region<Edge>,
    /// What was overwritten since the last commit, the oldest first.
    pub changes: Vec<Change>,
    /// How many places there were at the last commit.
    pub places: Mark,
    /// How many edges there were at the last commit.
    pub links: Mark,
    pub alloc: Global,
}

impl Graph {
    /// Without places. It takes no memory.
    pub fn new(alloc: Global) -> Graph
        ensures kept { IsKept result }
        ensures now { net_of result ≡ record { ranks = []; last_in = []; last_out = []; edges = [] } }
        ensures base { base_of result ≡ record { ranks = []; last_in = []; last_out = []; edges = [] } }
    {
        let ranks = Region::new(alloc);
        let edges = Region::new(alloc);
        let places = ranks.mark();
        let links = edges.mark();
        Graph {
            ranks,
            last_in: Region::new(alloc),
            last_out: Region::new(alloc),
            slots: Region::new(alloc),
            edges,
            changes: Vec::new(alloc),
            places,
            links,
            alloc,
        }
    }

    /// One place more, at rank 0 and without links.
    pub fn add(&mut self) -> Result<Place, Memory>
        requires kept { IsKept self.old }
        ensures kept { IsKept self.new }
        ensures place { IfOk result (λ p. p.0 ≡ length self.old.ranks.items) }
        ensures now { OnOk result (net_of self.new ≡ with_empty_place (net_of self.old)) }
        ensures base { base_of self.new ≡ base_of self.old }
        ensures err { OnErr result (net_of self.new ≡ net_of self.old) }
    {
        if self.ranks.len() >= MOST_PLACES {
            return Err(Memory);
        }
        self.reserve_place()?;
        Ok(self.put_place())
    }

    /// Room for one place more.
    fn reserve_place(&mut self) -> Result<(), Memory>
        requires kept { IsKept self.old }
        ensures kept { IsKept self.new }
        ensures now { net_of self.new ≡ net_of self.old }
        ensures base { base_of self.new ≡ base_of self.old }
        ensures ranks { OnOk result (1 ≤ self.new.ranks.spare) }
        ensures last_in { OnOk result (1 ≤ self.new.last_in.spare) }
        ensures last_out { OnOk result (1 ≤ self.new.last_out.spare) }
        ensures slots { OnOk result (1 ≤ self.new.slots.spare) }
    {
        self.ranks.reserve(1)?;
        self.last_in.reserve(1)?;
        self.last_out.reserve(1)?;
        self.slots.reserve(1)?;
        Ok(())
    }

    /// One place more, for which there is room.
    fn put_place(&mut self) -> Place
        requires kept { IsKept self.old }
        requires few { length self.old.ranks.items + 1 < 2 ^ 32 }
        requires ranks { 1 ≤ self.old.ranks.spare }
        requires last_in { 1 ≤ self.old.last_in.spare }
        requires last_out { 1 ≤ self.old.last_out.spare }
        requires slots { 1 ≤ self.old.slots.spare }
        ensures kept { IsKept self.new }
        ensures place { result.0 ≡ length self.old.ranks.items }
        ensures now { net_of self.new ≡ with_empty_place (net_of self.old) }
        ensures base { base_of self.new ≡ base_of self.old }
    {
        self.last_in.put(0);
        self.last_out.put(0);
        self.slots.put(0);
        self.ranks.put(0)
    }

    /// The number of the edge between two places, live or not, where there is one.
    pub fn find(&self, from: u64, to: u64) -> Option<u64>
        requires kept { IsKept self.now }
        ensures { Finds self.now.edges.items from to result }
    {
        if from >= self.last_out.len() {
            return None;
        }
        let mut at = *self.last_out.get(Place(from));
        while at > 0 {
            let edge = *self.edges.get(Place(at - 1));
            if edge.to == to {
                return Some(at - 1);
            }
            at = edge.earlier_out;
        }
        None
    }

    /// Whether the edge that was found is a link.
    pub fn is_live(&self, found: Option<u64>) -> bool
        requires { IfSome found (λ i. i < length self.now.edges.items) }
        ensures none { IfNone found (result ≡ false) }
        ensures some { IfSome found (λ i. result ≡ (edge_at self.now.edges.items i).live) }
    {
        match found {
            Some(number) => self.edges.get(Place(number)).live,
            None => false,
        }
    }

    /// The link is there, and ranks rise so that it leads lower; or the chain that it closes.
    pub fn raise(&mut self, from: u64, to: u64) -> Result<Option<Seq<Place>>, Memory>
        requires kept { IsKept self.old }
        requires from { from < length self.old.ranks.items }
        requires to { to < length self.old.ranks.items }
        ensures kept { IsKept self.new }
        ensures base { base_of self.new ≡ base_of self.old }
        ensures chain { IfOk result (λ r. IfSome r (λ c. is_closed_chain (with_link (is_linked (order_of (net_of self.old)).links) from to) (numbers c) ≡ true)) }
        ensures refused { IfOk result (λ r. OnSome r (net_of self.new ≡ net_of self.old)) }
        ensures raised { IfOk result (λ r. IfNone r (Raises (order_of (net_of self.old)) (order_of (net_of self.new)) from to)) }
        ensures again { is_linked (order_of (net_of self.old)).links from to ≡ true → IfOk result (λ r. r ≡ None) × (net_of self.new ≡ net_of self.old) }
        ensures err { OnErr result (net_of self.new ≡ net_of self.old) }
    {
        let found = self.find(from, to);
        if self.is_live(found) {
            return Ok(None);
        }
        self.edges.reserve(1)?;
        match self.plan(from, to)? {
            Plan::Closed(chain) => Ok(Some(chain)),
            Plan::Open(writes) => {
                self.changes.reserve(writes.len() + 2)?;
                self.write_ranks(writes.as_slice());
                self.link(found, from, to);
                Ok(None)
            }
        }
    }

    /// What a link would do. A search is made only where the link does not lead lower already.
    fn plan(&mut self, from: u64, to: u64) -> Result<Plan, Memory>
        requires kept { IsKept self.old }
        requires from { from < length self.old.ranks.items }
        requires to { to < length self.old.ranks.items }
        ensures rest { self.new ≡ record self.old { slots = self.new.slots } }
        ensures slots { length self.new.slots.items ≡ length self.old.slots.items }
        ensures plan { IfOk result (IsPlan (order_of (net_of self.old)) from to) }
    {
        let low = *self.ranks.get(Place(from));
        let high = *self.ranks.get(Place(to));
        if high < low {
            return Ok(Plan::Open(Vec::new(self.alloc)));
        }
        let by = high + 1 - low;
        let search = Search {
            ranks: &self.ranks,
            last_in: &self.last_in,
            edges: &self.edges,
            from,
            by,
        };
        let plan = search.plan(&mut self.slots, to, self.alloc)?;
        Ok(plan)
    }

    /// Writes new ranks, for which room for the changes is there.
    fn write_ranks(&mut self, writes: &[Write])
        requires inside { AreInside writes.now (length self.old.ranks.items) }
        requires room { vec_len self.old.changes + length writes.now ≤ vec_capacity self.old.changes }
        ensures rest { self.new ≡ record self.old { ranks = self.new.ranks; changes = self.new.changes } }
        ensures ranks { self.new.ranks.items ≡ written self.old.ranks.items writes.now }
        ensures base { base_of self.new ≡ base_of self.old }
        ensures count { vec_len self.new.changes ≡ vec_len self.old.changes + length writes.now }
        ensures capacity { vec_capacity self.new.changes ≡ vec_capacity self.old.changes }
    {
        for write in writes {
            self.write_rank(write.place, write.rank);
        }
    }

    /// Writes the rank of a place. Room for the change is there.
    fn write_rank(&mut self, place: u64, rank: u64)
        requires place { place < length self.old.ranks.items }
        requires room { vec_len self.old.changes < vec_capacity self.old.changes }
        ensures rest { self.new ≡ record self.old { ranks = self.new.ranks; changes = self.new.changes } }
        ensures ranks { self.new.ranks.items ≡ slice_set self.old.ranks.items place rank }
        ensures base { base_of self.new ≡ base_of self.old }
        ensures count { vec_len self.new.changes ≡ vec_len self.old.changes + 1 }
        ensures capacity { vec_capacity self.new.changes ≡ vec_capacity self.old.changes }
    {
        let old = *self.ranks.get(Place(place));
        *self.ranks.get_mut(Place(place)) = rank;
        self.changes
            .push_reserved(Change::Ranked { place, rank: old });
    }
}
