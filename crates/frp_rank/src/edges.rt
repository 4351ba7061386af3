ghost use Rattle.std.specs.Prelude.{◌≡◌, ◌<◌, ◌≤◌, ◌+◌, ◌∷◌, [], ◌++◌, ℕ, length, slice_index, slice_set, vec_len, vec_capacity, OnOk, OnErr, None, true, false};
ghost use Rattle.frp_rank.specs.Chain.{is_linked, with_link, without_link};
ghost use Rattle.frp_rank.specs.Graph.{net_of, base_of, IsKept, edge_at, start_of, end_of, live_links, with_live, Finds};

use crate::change::Change;
use crate::edge::Edge;
use crate::graph::Graph;
use frp_base::{Memory, Place};

impl Graph {
    /// Removes a link. Where it isn't there all stays as it is.
    pub fn unlink(&mut self, from: u64, to: u64) -> Result<(), Memory>
        requires kept { IsKept self.old }
        ensures kept { IsKept self.new }
        ensures base { base_of self.new ≡ base_of self.old }
        ensures ranks { self.new.ranks ≡ self.old.ranks }
        ensures links { OnOk result ((a b : ℕ) → is_linked (live_links self.new.edges.items) a b ≡ without_link (is_linked (live_links self.old.edges.items)) from to a b) }
        ensures absent { is_linked (live_links self.old.edges.items) from to ≡ false → net_of self.new ≡ net_of self.old }
        ensures err { OnErr result (net_of self.new ≡ net_of self.old) }
    {
        if let Some(number) = self.find(from, to) {
            self.drop_link(number)?;
        }
        Ok(())
    }

    /// The edge is no link any longer.
    fn drop_link(&mut self, number: u64) -> Result<(), Memory>
        requires kept { IsKept self.old }
        requires number { number < length self.old.edges.items }
        ensures kept { IsKept self.new }
        ensures base { base_of self.new ≡ base_of self.old }
        ensures ranks { self.new.ranks ≡ self.old.ranks }
        ensures edges { OnOk result (self.new.edges.items ≡ with_live self.old.edges.items number false) }
        ensures absent { (edge_at self.old.edges.items number).live ≡ false → net_of self.new ≡ net_of self.old }
        ensures err { OnErr result (net_of self.new ≡ net_of self.old) }
    {
        if self.edges.get(Place(number)).live {
            self.changes.reserve(1)?;
            self.set_live(number, false);
        }
        Ok(())
    }

    /// The edge that was found, or a new one, is a link. Room is there.
    pub fn link(&mut self, found: Option<u64>, from: u64, to: u64)
        requires kept { IsKept self.old }
        requires found { Finds self.old.edges.items from to found }
        requires from { from < length self.old.ranks.items }
        requires to { to < length self.old.ranks.items }
        requires lower { slice_index self.old.ranks.items to < slice_index self.old.ranks.items from }
        requires edges { 1 ≤ self.old.edges.spare }
        requires changes { vec_len self.old.changes + 2 ≤ vec_capacity self.old.changes }
        ensures kept { IsKept self.new }
        ensures base { base_of self.new ≡ base_of self.old }
        ensures ranks { self.new.ranks ≡ self.old.ranks }
        ensures links { (a b : ℕ) → is_linked (live_links self.new.edges.items) a b ≡ with_link (is_linked (live_links self.old.edges.items)) from to a b }
    {
        match found {
            Some(number) => self.set_live(number, true),
            None => self.put_edge(from, to),
        }
    }

    /// Writes whether an edge is a link. Room for the change is there.
    fn set_live(&mut self, number: u64, live: bool)
        requires kept { IsKept self.old }
        requires number { number < length self.old.edges.items }
        requires lower { live ≡ true → slice_index self.old.ranks.items (end_of self.old.edges.items number) < slice_index self.old.ranks.items (start_of self.old.edges.items number) }
        requires changes { vec_len self.old.changes < vec_capacity self.old.changes }
        ensures kept { IsKept self.new }
        ensures base { base_of self.new ≡ base_of self.old }
        ensures ranks { self.new.ranks ≡ self.old.ranks }
        ensures edges { self.new.edges.items ≡ with_live self.old.edges.items number live }
    {
        let edge = *self.edges.get(Place(number));
        *self.edges.get_mut(Place(number)) = edge.with_live(live);
        self.changes.push_reserved(Change::Edged { number, edge });
    }

    /// A new edge that is a link. Room for it and for the changes is there.
    fn put_edge(&mut self, from: u64, to: u64)
        requires kept { IsKept self.old }
        requires new { Finds self.old.edges.items from to None }
        requires from { from < length self.old.ranks.items }
        requires to { to < length self.old.ranks.items }
        requires lower { slice_index self.old.ranks.items to < slice_index self.old.ranks.items from }
        requires edges { 1 ≤ self.old.edges.spare }
        requires changes { vec_len self.old.changes + 2 ≤ vec_capacity self.old.changes }
        ensures kept { IsKept self.new }
        ensures base { base_of self.new ≡ base_of self.old }
        ensures ranks { self.new.ranks ≡ self.old.ranks }
        ensures links { (a b : ℕ) → is_linked (live_links self.new.edges.items) a b ≡ with_link (is_linked (live_links self.old.edges.items)) from to a b }
    {
        let edge = Edge {
            from,
            to,
            live: true,
            earlier_in: *self.last_in.get(Place(to)),
            earlier_out: *self.last_out.get(Place(from)),
        };
        self.edges.put(edge);
        let last = self.edges.len();
        self.write_last_in(to, last);
        self.write_last_out(from, last);
    }

    /// Writes the last edge that leads to a place. Room for the change is there.
    fn write_last_in(&mut self, place: u64, edge: u64)
        requires place { place < length self.old.last_in.items }
        requires room { vec_len self.old.changes < vec_capacity self.old.changes }
        ensures rest { self.new ≡ record self.old { last_in = self.new.last_in; changes = self.new.changes } }
        ensures last_in { self.new.last_in.items ≡ slice_set self.old.last_in.items place edge }
        ensures base { base_of self.new ≡ base_of self.old }
        ensures count { vec_len self.new.changes ≡ vec_len self.old.changes + 1 }
        ensures capacity { vec_capacity self.new.changes ≡ vec_capacity self.old.changes }
    {
        let old = *self.last_in.get(Place(place));
        *self.last_in.get_mut(Place(place)) = edge;
        self.changes
            .push_reserved(Change::EndedBy { place, edge: old });
    }

    /// Writes the last edge that leads from a place. Room for the change is there.
    fn write_last_out(&mut self, place: u64, edge: u64)
        requires place { place < length self.old.last_out.items }
        requires room { vec_len self.old.changes < vec_capacity self.old.changes }
        ensures rest { self.new ≡ record self.old { last_out = self.new.last_out; changes = self.new.changes } }
        ensures last_out { self.new.last_out.items ≡ slice_set self.old.last_out.items place edge }
        ensures base { base_of self.new ≡ base_of self.old }
        ensures count { vec_len self.new.changes ≡ vec_len self.old.changes + 1 }
        ensures capacity { vec_capacity self.new.changes ≡ vec_capacity self.old.changes }
    {
        let old = *self.last_out.get(Place(place));
        *self.last_out.get_mut(Place(place)) = edge;
        self.changes
            .push_reserved(Change::StartedBy { place, edge: old });
    }
}
