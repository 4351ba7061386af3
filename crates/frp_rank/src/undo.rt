ghost use Rattle.std.specs.Prelude.{◌≡◌, ◌<◌, length, slice_set, [], vec_len};
ghost use Rattle.frp_rank.specs.Graph.{net_of, base_of, IsKept, undo};

use crate::change::Change;
use crate::edge::Edge;
use crate::graph::Graph;
use frp_base::Place;
use frp_region::Region;

impl Graph {
    /// Keeps all changes. It takes no memory.
    pub fn commit(&mut self)
        requires kept { IsKept self.old }
        ensures kept { IsKept self.new }
        ensures now { net_of self.new ≡ net_of self.old }
        ensures base { base_of self.new ≡ net_of self.old }
    {
        self.changes.clear();
        self.places = self.ranks.mark();
        self.links = self.edges.mark();
    }

    /// Undoes all changes since the last commit, the newest first. It takes no memory.
    pub fn roll_back(&mut self)
        requires kept { IsKept self.old }
        ensures kept { IsKept self.new }
        ensures now { net_of self.new ≡ base_of self.old }
        ensures base { base_of self.new ≡ base_of self.old }
    {
        self.ranks.cut(self.places);
        self.last_in.cut(self.places);
        self.last_out.cut(self.places);
        self.slots.cut(self.places);
        self.edges.cut(self.links);
        while let Some(change) = self.changes.pop() {
            self.undo(change);
        }
    }

    /// Undoes a change. One to what was cut away is passed over.
    fn undo(&mut self, change: Change)
        ensures now { net_of self.new ≡ undo change (net_of self.old) }
        ensures changes { self.new.changes ≡ self.old.changes }
        ensures slots { self.new.slots ≡ self.old.slots }
        ensures places { self.new.places ≡ self.old.places }
        ensures links { self.new.links ≡ self.old.links }
    {
        match change {
            Change::Ranked { place, rank } => write_back(&mut self.ranks, place, rank),
            Change::EndedBy { place, edge } => write_back(&mut self.last_in, place, edge),
            Change::StartedBy { place, edge } => write_back(&mut self.last_out, place, edge),
            Change::Edged { number, edge } => write_back(&mut self.edges, number, edge),
        }
    }
}

/// Writes an item back, where its place is still there.
fn write_back<T: Drop>(region: &mut Region<T>, place: u64, item: T)
    ensures { region.new.items ≡ slice_set region.old.items place item }
{
    if place < region.len() {
        *region.get_mut(Place(place)) = item;
    }
}
