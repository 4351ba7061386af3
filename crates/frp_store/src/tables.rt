ghost use Rattle.std.specs.Prelude.{◌≡◌, ◌<◌, ℕ, length, slice_get, slice_index_or, option_and_then, IfSome, OnOk, OnErr, IfOk, map, Some, None};
ghost use Rattle.std.specs.Option.{option_copied};
ghost use Rattle.frp_store.specs.State.{place_in, no_state};
ghost use Rattle.frp_store.specs.Kept.{state_of, base_of, IsKept, IsFindable, stands_at};
ghost use Rattle.frp_store.specs.Lists.{nodes_of};

use crate::change::Change;
use crate::edges::Edges;
use crate::held::Held;
use frp_base::{Name, Place, Time};
use frp_graph::Moment;
use frp_region::Region;
use std::alloc::Global;

/// A graph as it is kept, with what undoes the changes since the last commit.
#[derive(Drop)]
pub struct Tables {
    pub alloc: Global,
    /// The moments that ended.
    pub past: Vec<Moment>,
    /// The time of the moment that is begun.
    pub begun: Option<Time>,
    /// The number of the moment at the parent of that time.
    pub above: Option<u64>,
    /// How many nodes were live before the moment that is begun; where none is begun, all of them.
    pub first: u64,
    /// The live nodes.
    pub held: Region<Held>,
    /// The places that have an occurrence at the moment that is begun, in the order in which these came.
    pub fired: Vec<u64>,
    /// Which of them depend on which, and where they are found by name.
    pub edges: Edges,
    /// What undoes the changes since the last commit, the oldest first.
    pub changes: Vec<Change>,
}

impl Tables {
    /// Without nodes. It takes no memory.
    pub fn new(alloc: Global) -> Tables
        ensures kept { IsKept result }
        ensures now { state_of result ≡ no_state }
        ensures base { base_of result ≡ no_state }
    {
        Tables {
            alloc,
            past: Vec::new(alloc),
            begun: None,
            above: None,
            first: 0,
            held: Region::new(alloc),
            fired: Vec::new(alloc),
            edges: Edges::new(alloc),
            changes: Vec::new(alloc),
        }
    }

    /// The place of a live node. A node that stands at the number of its item is found by one comparison. It takes no memory.
    pub fn place(&self, name: &Name) -> Option<u64>
        requires findable { IsFindable (nodes_of self.now.held.items) self.now.edges.index }
        ensures place { result ≡ place_in (nodes_of self.now.held.items) name.now }
        ensures inside { IfSome result (λ p. p < length self.now.held.items) }
    {
        let item = name.item();
        if self.stands_at(item, name) {
            return Some(item);
        }
        self.edges.index.get(name).copied()
    }

    /// Whether a node of this name stands at a place. It takes no memory.
    fn stands_at(&self, place: u64, name: &Name) -> bool
        ensures { result ≡ stands_at self.now.held.items place name.now }
    {
        if place < self.held.len() {
            self.held.get(Place(place)).node.name.is(name)
        } else {
            false
        }
    }

    /// The live node of a name, as it is kept. It takes no memory.
    pub fn find(&self, name: &Name) -> Option<&Held>
        requires findable { IsFindable (nodes_of self.now.held.items) self.now.edges.index }
        ensures { option_copied result ≡ option_and_then (λ p. slice_get self.now.held.items p) (place_in (nodes_of self.now.held.items) name.now) }
    {
        match self.place(name) {
            Some(place) => Some(self.held.get(Place(place))),
            None => None,
        }
    }

    /// The place to which the node of a place was turned last.
    pub fn target(&self, place: u64) -> Option<u64>
        requires place { place < length self.now.held.items }
        ensures { slice_get (state_of self.now).targets place ≡ Some result }
    {
        self.held.get(Place(place)).target
    }
}
