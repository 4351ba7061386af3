ghost use Rattle.std.specs.Prelude.{◌≡◌, ◌<◌, ◌+◌, ◌∷◌, [], ◌++◌, ℕ, true, false, Some, None, is_some, IsTrue, option_map, map, slice_get, slice_index_or, length, IfOk, IfErr, IfSome, OnOk, OnErr};
ghost use Rattle.frp_store.specs.State.{no_state, place_in, sight};
ghost use Rattle.frp_store.specs.Seen.{IsAligned, ShowsNode, ShowsOcc, ShowsEnd};
ghost use Rattle.frp_store.specs.Calls.{IsAfter, begun_at, added, with_occ, turned, Ends};
ghost use Rattle.frp_store.specs.Dependents.{dependents_of, watchers_of};
ghost use Rattle.frp_store.specs.Places.{ArePlaces, numbers, number_of};
ghost use Rattle.frp_store.specs.Edges.{depends, watches};
ghost use Rattle.frp_base.specs.Name.{birth};

use crate::tables::Tables;
use frp_base::{Memory, Name, Place, Time, Val};
use frp_graph::{Moment, Node, Prog};
use std::alloc::Global;
use std::marker::Model;

/// The graph of a program: its live nodes by place, the trace of the moments that ended, and the moment that is begun, if any, with the
/// occurrences so far; undone back to the last commit.
///
/// Contracts see the program, and the state as it is and as it was at the last commit.
#[derive(Drop)]
pub struct Store {
    pub(crate) prog: Prog,
    // The time of the build.
    pub(crate) start: Time,
    pub(crate) tables: Tables,
}

impl Model for Store {
    ghost use Rattle.std.specs.Prelude.{◌≡◌, ◌∷◌, []};
    ghost use Rattle.frp_store.specs.State.{Versions, state_code, versions_code};
    ghost use Rattle.frp_graph.specs.contracts.prog.Prog.{the_row as prog_row};
    ghost use Rattle.frp_graph.specs.contracts.trace.Moment.{the_row as moment_row};
    ghost use Rattle.frp_graph.specs.contracts.trace.Node.{the_row as node_row};
    ghost use Rattle.frp_base.specs.contracts.val.Val.{the_row as val_row};

    ghost Value = { Versions };

    ghost coded = { versions_code prog_row.coded (state_code moment_row.coded node_row.coded val_row.coded) };

    ghost use Rattle.frp_store.specs.Kept.{state_of, base_of, IsKept};

    ghost view = { λ s. record { prog = s.prog; now = state_of s.tables; base = base_of s.tables } };

    ghost invariant = { λ s. (s.start ≡ 0 ∷ []) × IsKept s.tables };
}

impl Store {
    /// The graph of a program, without nodes, which counts as its first commit. It takes no memory.
    pub fn new(alloc: Global, prog: Prog) -> Store
        ensures prog { result.prog ≡ prog }
        ensures now { result.now ≡ no_state }
        ensures base { result.base ≡ no_state }
    {
        Store {
            prog,
            start: Time::top(alloc, 0),
            tables: Tables::new(alloc),
        }
    }

    /// How many nodes are live.
    pub fn count(&self) -> u64
        ensures count { result ≡ length self.now.now.nodes }
        ensures aligned { IsAligned self.now.now }
    {
        self.tables.held.len()
    }

    /// The moments that ended.
    pub fn trace(&self) -> &[Moment]
        ensures { result.now ≡ self.now.now.past }
    {
        self.tables.past.as_slice()
    }

    /// The place of a live node. It takes no memory.
    pub fn place(&self, n: &Name) -> Option<Place>
        ensures { option_map number_of result ≡ place_in self.now.now.nodes n.now }
    {
        match self.tables.place(n) {
            Some(place) => Some(Place(place)),
            None => None,
        }
    }

    /// The place to which the node of a place was turned last, if any.
    pub fn target(&self, p: Place) -> Option<Place>
        requires { p.0 < length self.now.now.nodes }
        ensures { slice_get self.now.now.targets p.0 ≡ Some (option_map number_of result) }
    {
        match self.tables.target(p.0) {
            Some(target) => Some(Place(target)),
            None => None,
        }
    }

    /// The places of the nodes that depend on the node of a place whatever a cell's value, or were turned to it last: each once, by
    /// rising place.
    pub fn dependents(&self, p: Place) -> &[Place]
        requires { p.0 < length self.now.now.nodes }
        ensures these { numbers result.now ≡ dependents_of self.now.now p.0 }
        ensures each { ArePlaces (numbers result.now) (depends self.now.now.nodes self.now.now.targets p.0) }
    {
        self.tables.edges.lists.get(p).nodes.as_slice()
    }

    /// The places of the nodes that watch the node of a place: the switches of streams whose own cell it is, and the splits whose source
    /// it is. They have no link to it. Each comes once, by rising place.
    pub fn watchers(&self, p: Place) -> &[Place]
        requires { p.0 < length self.now.now.nodes }
        ensures these { numbers result.now ≡ watchers_of self.now.now p.0 }
        ensures each { ArePlaces (numbers result.now) (watches self.now.now.nodes p.0) }
    {
        self.tables.edges.lists.get(p).watchers.as_slice()
    }

    /// Begins a moment at a time after that of the last one.
    pub fn begin(&mut self, t: &Time) -> Result<(), Memory>
        requires idle { self.old.now.begun ≡ None }
        requires later { IsAfter t.now self.old.now.past }
        ensures prog { self.new.prog ≡ self.old.prog }
        ensures now { OnOk result (self.new.now ≡ begun_at t.now self.old.now) }
        ensures base { self.new.base ≡ self.old.base }
        ensures err { OnErr result (self.new ≡ self.old) }
    {
        self.tables.begin(t)
    }

    /// One live node more, at the next place. It is born at the moment that is begun.
    pub fn add_node(&mut self, n: Node) -> Result<Place, (Memory, Node)>
        requires new { place_in self.old.now.nodes n.name ≡ None }
        requires born { self.old.now.begun ≡ Some (birth n.name) }
        ensures prog { self.new.prog ≡ self.old.prog }
        ensures place { IfOk result (λ p. p.0 ≡ length self.old.now.nodes) }
        ensures now { OnOk result (self.new.now ≡ added n self.old.now) }
        ensures shown { OnOk result (ShowsNode n (sight self.old.now) (sight self.new.now)) }
        ensures base { self.new.base ≡ self.old.base }
        ensures err { OnErr result (self.new ≡ self.old) }
        ensures back { IfErr result (λ e. e.1 ≡ n) }
    {
        match self.tables.add(n) {
            Ok(place) => Ok(Place(place)),
            Err(failed) => Err(failed),
        }
    }

    /// Gives the node of a place its occurrence at the moment that is begun, or none.
    pub fn set_occ(&mut self, p: Place, v: Option<Val>) -> Result<(), Memory>
        requires begun { IsTrue (is_some self.old.now.begun) }
        requires free { slice_get self.old.now.occs p.0 ≡ Some None }
        ensures prog { self.new.prog ≡ self.old.prog }
        ensures now { OnOk result (self.new.now ≡ with_occ p.0 v self.old.now) }
        ensures shown { OnOk result (ShowsOcc (slice_get self.old.now.nodes p.0) v (sight self.old.now) (sight self.new.now)) }
        ensures base { self.new.base ≡ self.old.base }
        ensures err { OnErr result (self.new ≡ self.old) }
    {
        self.tables.set_occ(p.0, v)
    }

    /// Turns the node of a place to another one, or to none.
    pub fn rewire(&mut self, p: Place, to: Option<Place>) -> Result<(), Memory>
        requires place { p.0 < length self.old.now.nodes }
        requires to { IfSome to (λ q. q.0 < length self.old.now.nodes) }
        ensures prog { self.new.prog ≡ self.old.prog }
        ensures now { OnOk result (self.new.now ≡ turned p.0 (option_map number_of to) self.old.now) }
        ensures shown { OnOk result (sight self.new.now ≡ sight self.old.now) }
        ensures base { self.new.base ≡ self.old.base }
        ensures err { OnErr result (self.new ≡ self.old) }
    {
        match to {
            Some(to) => self.tables.rewire(p.0, Some(to.0)),
            None => self.tables.rewire(p.0, None),
        }
    }

    /// Ends the moment that is begun. Its births and occurrences stand in the trace, and show what was seen.
    pub fn end_moment(&mut self) -> Result<(), Memory>
        requires { IsTrue (is_some self.old.now.begun) }
        ensures prog { self.new.prog ≡ self.old.prog }
        ensures now { OnOk result (Ends self.old.now self.new.now) }
        ensures shown { OnOk result (ShowsEnd (sight self.old.now) (sight self.new.now)) }
        ensures base { self.new.base ≡ self.old.base }
        ensures err { OnErr result (self.new ≡ self.old) }
    {
        self.tables.end_moment()
    }

    /// Keeps all changes since the last commit. It takes no memory.
    pub fn commit(&mut self)
        ensures prog { self.new.prog ≡ self.old.prog }
        ensures now { self.new.now ≡ self.old.now }
        ensures base { self.new.base ≡ self.old.now }
    {
        self.tables.commit();
    }

    /// Goes back to the last commit. It takes no memory.
    pub fn roll_back(&mut self)
        ensures prog { self.new.prog ≡ self.old.prog }
        ensures now { self.new.now ≡ self.old.base }
        ensures base { self.new.base ≡ self.old.base }
    {
        self.tables.roll_back();
    }
}
