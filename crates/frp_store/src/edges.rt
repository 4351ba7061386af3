ghost use Rattle.std.specs.Prelude.{◌≡◌, ◌<◌, [], length, IfSome, OnOk};
ghost use Rattle.frp_store.specs.Edges.{joined, left, joined_watcher, left_watcher, HasRoomFor, HasRoomForWatcher, HasSpare, HasSpareForWatcher, IsRoomier};

use crate::places::Places;
use frp_base::{Memory, Name, Place};
use frp_region::Region;
use std::alloc::Global;
use std::collections::BTreeMap;

/// What depends on a node.
#[derive(Drop)]
pub struct Dependents {
    /// The places of the nodes that depend on it.
    pub nodes: Places,
    /// The places of the nodes that watch it.
    pub watchers: Places,
}

/// Which nodes depend on which, and where nodes are found by name.
#[derive(Drop)]
pub struct Edges {
    /// By place, what depends on the node.
    pub lists: Region<Dependents>,
    /// The places of nodes that were linked to a name of no live node when they were added. Some may be linked to live nodes alone by
    /// now; one that isn't is among them.
    pub wanting: Places,
    /// The place of each node that does not stand at the number of the item with which its name begins.
    pub index: BTreeMap<Name, u64>,
}

impl Edges {
    /// Of no nodes. It takes no memory.
    pub fn new(alloc: Global) -> Edges
        ensures lists { result.lists.items ≡ [] }
        ensures wanting { result.wanting.items ≡ [] }
        ensures index { result.index.entries ≡ [] }
    {
        Edges {
            lists: Region::new(alloc),
            wanting: Places::new(alloc),
            index: BTreeMap::new(alloc),
        }
    }

    /// The node of a place depends on another one, if any.
    pub fn join(&mut self, end: Option<u64>, place: u64)
        requires inside { IfSome end (λ e. e < length self.old.lists.items) }
        requires room { HasRoomFor end place self.old.lists.items }
        ensures lists { self.new.lists.items ≡ joined end place self.old.lists.items }
        ensures rest { self.new ≡ record self.old { lists = self.new.lists } }
    {
        if let Some(end) = end {
            self.lists.get_mut(Place(end)).nodes.insert(place);
        }
    }

    /// The node of a place depends no more on another one, if any.
    pub fn leave(&mut self, end: Option<u64>, place: u64)
        requires inside { IfSome end (λ e. e < length self.old.lists.items) }
        ensures lists { self.new.lists.items ≡ left end place self.old.lists.items }
        ensures rest { self.new ≡ record self.old { lists = self.new.lists } }
    {
        if let Some(end) = end {
            self.lists.get_mut(Place(end)).nodes.remove(place);
        }
    }

    /// The node of a place watches another one, if any.
    pub fn join_watcher(&mut self, end: Option<u64>, place: u64)
        requires inside { IfSome end (λ e. e < length self.old.lists.items) }
        requires room { HasRoomForWatcher end place self.old.lists.items }
        ensures lists { self.new.lists.items ≡ joined_watcher end place self.old.lists.items }
        ensures rest { self.new ≡ record self.old { lists = self.new.lists } }
    {
        if let Some(end) = end {
            self.lists.get_mut(Place(end)).watchers.insert(place);
        }
    }

    /// The node of a place watches another one no more, if any.
    pub fn leave_watcher(&mut self, end: Option<u64>, place: u64)
        requires inside { IfSome end (λ e. e < length self.old.lists.items) }
        ensures lists { self.new.lists.items ≡ left_watcher end place self.old.lists.items }
        ensures rest { self.new ≡ record self.old { lists = self.new.lists } }
    {
        if let Some(end) = end {
            self.lists.get_mut(Place(end)).watchers.remove(place);
        }
    }

    /// Room for one more dependent of a node, if any.
    pub fn reserve(&mut self, end: Option<u64>) -> Result<(), Memory>
        requires inside { IfSome end (λ e. e < length self.old.lists.items) }
        ensures ok { OnOk result (HasSpare end self.new.lists.items) }
        ensures roomier { IsRoomier self.old.lists.items self.new.lists.items }
        ensures rest { self.new ≡ record self.old { lists = self.new.lists } }
    {
        if let Some(end) = end {
            self.lists.get_mut(Place(end)).nodes.reserve()?;
        }
        Ok(())
    }

    /// Room for one more node that watches a node, if any.
    pub fn reserve_watcher(&mut self, end: Option<u64>) -> Result<(), Memory>
        requires inside { IfSome end (λ e. e < length self.old.lists.items) }
        ensures ok { OnOk result (HasSpareForWatcher end self.new.lists.items) }
        ensures roomier { IsRoomier self.old.lists.items self.new.lists.items }
        ensures rest { self.new ≡ record self.old { lists = self.new.lists } }
    {
        if let Some(end) = end {
            self.lists.get_mut(Place(end)).watchers.reserve()?;
        }
        Ok(())
    }
}
