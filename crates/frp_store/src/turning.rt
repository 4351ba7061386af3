ghost use Rattle.std.specs.Prelude.{◌≡◌, ◌<◌, ◌∷◌, [], ◌++◌, ℕ, length, slice_get, IfSome, OnOk, OnErr, Some, None};
ghost use Rattle.frp_store.specs.Calls.{turned};
ghost use Rattle.frp_store.specs.Items.{updated};
ghost use Rattle.frp_store.specs.Undo.{undo, set_target};
ghost use Rattle.frp_store.specs.Lists.{lists_of, nodes_of};
ghost use Rattle.frp_store.specs.Edges.{joined, unlinked, unturned, linked_by, HasRoomFor};
ghost use Rattle.frp_store.specs.Closing.{at, held_target};
ghost use Rattle.frp_store.specs.Kept.{state_of, base_of, IsKept, IsKeptBy};
ghost use Rattle.frp_store.specs.declared.change.Change.TheVariants.{Turned};

use crate::change::Change;
use crate::shapes::is_linked_to;
use crate::tables::Tables;
use crate::writing::put_target;
use frp_base::{Memory, Place};

impl Tables {
    /// Turns a node to another one, or to none.
    pub fn rewire(&mut self, place: u64, to: Option<u64>) -> Result<(), Memory>
        requires kept { IsKept self.old }
        requires place { place < length (state_of self.old).nodes }
        requires to { IfSome to (λ q. q < length (state_of self.old).nodes) }
        ensures kept { IsKept self.new }
        ensures now { OnOk result (state_of self.new ≡ turned place to (state_of self.old)) }
        ensures base { base_of self.new ≡ base_of self.old }
        ensures err { OnErr result (state_of self.new ≡ state_of self.old) }
    {
        self.changes.reserve(1)?;
        self.edges.reserve(to)?;
        let target = self.turn(place, to);
        self.changes.push_reserved(Change::Turned { place, target });
        Ok(())
    }

    /// Turns a node back.
    pub fn turn_back(&mut self, place: u64, target: Option<u64>)
        requires kept { IsKeptBy (self.old.changes.items ++ (Turned place target) ∷ []) self.old }
        ensures kept { IsKept self.new }
        ensures lists { lists_of self.new ≡ undo (Turned place target) (lists_of self.old) }
        ensures changes { self.new.changes ≡ self.old.changes }
    {
        if place < self.held.len() {
            let _ = self.turn(place, target);
        }
    }

    /// Turns a node, and gives where it was turned before. Room for it among the dependents is there.
    fn turn(&mut self, place: u64, to: Option<u64>) -> Option<u64>
        requires place { place < length self.old.held.items }
        requires count { length self.old.edges.lists.items ≡ length self.old.held.items }
        requires from { IfSome (at held_target self.old.held.items place) (λ q. q < length self.old.held.items) }
        requires to { IfSome to (λ q. q < length self.old.held.items) }
        requires room { HasRoomFor to place (unturned self.old.held.items place self.old.edges.lists.items) }
        ensures from { result ≡ at held_target self.old.held.items place }
        ensures held { self.new.held.items ≡ updated place (set_target to) self.old.held.items }
        ensures lists { self.new.edges.lists.items ≡ joined to place (unturned self.old.held.items place self.old.edges.lists.items) }
        ensures edges { self.new.edges ≡ record self.old.edges { lists = self.new.edges.lists } }
        ensures rest { self.new ≡ record self.old { held = self.new.held; edges = self.new.edges } }
    {
        let from = self.target(place);
        let left = self.unlinked(place, from);
        self.edges.leave(left, place);
        self.edges.join(to, place);
        put_target(&mut self.held, place, to)
    }

    /// The place to which a node was turned, if it is not linked to it by its shape too.
    fn unlinked(&self, place: u64, from: Option<u64>) -> Option<u64>
        requires place { place < length self.now.held.items }
        requires from { IfSome from (λ e. e < length self.now.held.items) }
        ensures { result ≡ unlinked (nodes_of self.now.held.items) place from }
    {
        match from {
            Some(end) => self.unless_linked(place, end),
            None => None,
        }
    }

    /// This place, if the shape of the other one's node has no link to it.
    fn unless_linked(&self, place: u64, end: u64) -> Option<u64>
        requires place { place < length self.now.held.items }
        requires end { end < length self.now.held.items }
        ensures { result ≡ unlinked (nodes_of self.now.held.items) place (Some end) }
    {
        if self.is_linked(place, end) {
            None
        } else {
            Some(end)
        }
    }

    /// Whether the node of a place is linked to another one by its shape. It takes no memory.
    fn is_linked(&self, place: u64, end: u64) -> bool
        requires place { place < length self.now.held.items }
        requires end { end < length self.now.held.items }
        ensures { result ≡ linked_by (slice_get (nodes_of self.now.held.items) end) (slice_get (nodes_of self.now.held.items) place) }
    {
        let shape = &self.held.get(Place(place)).node.shape;
        is_linked_to(shape, &self.held.get(Place(end)).node.name)
    }
}
