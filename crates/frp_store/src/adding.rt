ghost use Rattle.std.specs.Prelude.{◌≡◌, ◌<◌, ◌≤◌, ◌+◌, ◌∷◌, [], ◌++◌, ◌&&◌, ℕ, option_and_then, length, slice_get, is_some, IfSome, OnOk, OnErr, IfOk, IfErr, IsTrue, map, Some, None, if◌then◌else◌, vec_len, vec_capacity};
ghost use Rattle.std.specs.Option.{option_copied};
ghost use Rattle.std.specs.List.{AllByRecursion};
ghost use Rattle.std.specs.BTreeMap.{get};
ghost use Rattle.frp_base.specs.declared.name.Name.{Name};
ghost use Rattle.frp_base.specs.Name.{name_cmp};
ghost use Rattle.frp_graph.specs.declared.trace.Node.{Node as NodeSpec};
ghost use Rattle.frp_store.specs.State.{place_in};
ghost use Rattle.frp_store.specs.Calls.{added};
ghost use Rattle.frp_store.specs.Places.{ArePlaces, has, with_place, without_place};
ghost use Rattle.frp_store.specs.Edges.{HasEntered, HasForgotten, HasRoomToFile, HasSpareToFile, IsRoomier, AreLinkedBefore, end_at, left, filed, unfiled, links_to, watches_by};
ghost use Rattle.frp_store.specs.Closing.{at, held_target};
ghost use Rattle.frp_store.specs.Lists.{lists_of, nodes_of};
ghost use Rattle.frp_store.specs.Adding.{IsPrepared, IsReady};
ghost use Rattle.frp_store.specs.Kept.{state_of, base_of, IsKept, IsKeptBy, IsFindable};
ghost use Rattle.frp_store.specs.Dependents.{is_unknown, wants, own_links, watched};
ghost use Rattle.frp_store.specs.Undo.{undo};
ghost use Rattle.frp_store.specs.declared.change.Change.TheVariants.{Added};

use crate::change::Change;
use crate::copies::copy_option;
use crate::edges::Dependents;
use crate::held::{Ends, Held};
use crate::places::Places;
use crate::shapes::{first_link, is_linked_to, is_watching, second_link, watched_node};
use crate::tables::Tables;
use frp_base::{Memory, Name, Place, Val};
use frp_graph::Node;
use frp_region::Mark;

/// What is kept beside a node from its birth on.
#[derive(Drop)]
struct Birth {
    before: Option<Val>,
    dependents: Dependents,
}

impl Tables {
    /// One live node more, at the next place.
    pub fn add(&mut self, node: Node) -> Result<u64, (Memory, Node)>
        requires kept { IsKept self.old }
        requires begun { IsTrue (is_some self.old.begun) }
        requires new { place_in (state_of self.old).nodes node.name ≡ None }
        ensures kept { IsKept self.new }
        ensures place { IfOk result (λ p. p ≡ length (state_of self.old).nodes) }
        ensures now { OnOk result (state_of self.new ≡ added node (state_of self.old)) }
        ensures base { base_of self.new ≡ base_of self.old }
        ensures err { OnErr result (state_of self.new ≡ state_of self.old) }
        ensures back { IfErr result (λ e. e.1 ≡ node) }
    {
        let birth = match self.prepare(&node) {
            Ok(birth) => birth,
            Err(memory) => return Err((memory, node)),
        };
        match self.enter(&node.name) {
            Ok(()) => Ok(self.put(node, birth)),
            Err(memory) => Err((memory, node)),
        }
    }

    /// All the memory that a node takes, but for its name in the index.
    fn prepare(&mut self, node: &Node) -> Result<Birth, Memory>
        requires kept { IsKept self.old }
        ensures kept { IsKept self.new }
        ensures lists { lists_of self.new ≡ lists_of self.old }
        ensures changes { self.new.changes.items ≡ self.old.changes.items }
        ensures before { IfOk result (λ b. b.before ≡ node.now.first) }
        ensures dependents { IfOk result (λ b.
            AreLinkedBefore (nodes_of self.new.held.items) self.new.edges.wanting.items node.now.name b.dependents) }
        ensures room { OnOk result (IsPrepared node.now self.new) }
    {
        self.make_room(node)?;
        let birth = self.birth(node)?;
        Ok(birth)
    }

    /// Room for a node, but for what is kept beside it.
    fn make_room(&mut self, node: &Node) -> Result<(), Memory>
        requires kept { IsKept self.old }
        ensures kept { IsKept self.new }
        ensures lists { lists_of self.new ≡ lists_of self.old }
        ensures changes { self.new.changes.items ≡ self.old.changes.items }
        ensures room { OnOk result (IsPrepared node.now self.new) }
    {
        self.reserve_ends(node)?;
        self.reserve_one()?;
        Ok(())
    }

    /// Room for one node more in each list.
    fn reserve_one(&mut self) -> Result<(), Memory>
        ensures lists { lists_of self.new ≡ lists_of self.old }
        ensures changes { self.new.changes.items ≡ self.old.changes.items }
        ensures ends { self.new.edges.lists.items ≡ self.old.edges.lists.items }
        ensures wanting { self.new.edges.wanting.items ≡ self.old.edges.wanting.items }
        ensures index { self.new.edges.index ≡ self.old.edges.index }
        ensures held_room { OnOk result (1 ≤ self.new.held.spare) }
        ensures ends_room { OnOk result (1 ≤ self.new.edges.lists.spare) }
        ensures wanting_room { OnOk result (length self.new.edges.wanting.items < self.new.edges.wanting.room) }
        ensures changes_room { OnOk result (vec_len self.new.changes < vec_capacity self.new.changes) }
    {
        self.held.reserve(1)?;
        self.edges.lists.reserve(1)?;
        self.edges.wanting.reserve()?;
        self.changes.reserve(1)?;
        Ok(())
    }

    /// What is kept beside a node that is to be added: those that were linked to its name before it was live depend on it.
    fn birth(&self, node: &Node) -> Result<Birth, Memory>
        requires inside { AllByRecursion (λ p. p < length self.now.held.items) self.now.edges.wanting.items }
        ensures before { IfOk result (λ b. b.before ≡ node.now.first) }
        ensures dependents { IfOk result (λ b.
            AreLinkedBefore (nodes_of self.now.held.items) self.now.edges.wanting.items node.now.name b.dependents) }
    {
        let mut nodes = self.linked_before(&node.name)?;
        let mut watchers = self.watching_before(&node.name)?;
        nodes.reserve()?;
        watchers.reserve()?;
        let before = copy_option(self.alloc, &node.first)?;
        let dependents = Dependents { nodes, watchers };
        Ok(Birth { before, dependents })
    }

    /// The nodes that were linked to a name before its node was live.
    fn linked_before(&self, name: &Name) -> Result<Places, Memory>
        requires inside { AllByRecursion (λ p. p < length self.now.held.items) self.now.edges.wanting.items }
        ensures { IfOk result (λ ps. ArePlaces ps.items (λ p.
            has self.now.edges.wanting.items p && links_to (slice_get (nodes_of self.now.held.items) p) name.now)) }
    {
        let mut nodes = Places::new(self.alloc);
        for place in self.edges.wanting.as_slice() {
            let shape = &self.held.get(*place).node.shape;
            add_where(is_linked_to(shape, name), *place, &mut nodes)?;
        }
        Ok(nodes)
    }

    /// The nodes that watched a name before its node was live.
    fn watching_before(&self, name: &Name) -> Result<Places, Memory>
        requires inside { AllByRecursion (λ p. p < length self.now.held.items) self.now.edges.wanting.items }
        ensures { IfOk result (λ ps. ArePlaces ps.items (λ p.
            has self.now.edges.wanting.items p && watches_by (slice_get (nodes_of self.now.held.items) p) name.now)) }
    {
        let mut watchers = Places::new(self.alloc);
        for place in self.edges.wanting.as_slice() {
            let shape = &self.held.get(*place).node.shape;
            add_where(is_watching(shape, name), *place, &mut watchers)?;
        }
        Ok(watchers)
    }

    /// Room for one more dependent of each node that a node is linked to, and of the one that it watches.
    fn reserve_ends(&mut self, node: &Node) -> Result<(), Memory>
        requires findable { IsFindable (nodes_of self.old.held.items) self.old.edges.index }
        requires count { length self.old.edges.lists.items ≡ length self.old.held.items }
        ensures ok { OnOk result (HasSpareToFile (nodes_of self.old.held.items) node.now self.new.edges.lists.items) }
        ensures roomier { IsRoomier self.old.edges.lists.items self.new.edges.lists.items }
        ensures edges { self.new.edges ≡ record self.old.edges { lists = self.new.edges.lists } }
        ensures rest { self.new ≡ record self.old { edges = self.new.edges } }
    {
        let ends = self.ends_of(node);
        self.edges.reserve(ends.first)?;
        self.edges.reserve(ends.second)?;
        self.edges.reserve_watcher(ends.watching)?;
        Ok(())
    }

    /// Enters the name of the next node into the index, where it is not found by its item's number.
    fn enter(&mut self, name: &Name) -> Result<(), Memory>
        requires new { get name_cmp self.old.edges.index name.now ≡ None }
        ensures entered { OnOk result (HasEntered self.old.edges.index self.new.edges.index name.now (length self.old.held.items)) }
        ensures err { OnErr result ((m : Name) → get name_cmp self.new.edges.index m ≡ get name_cmp self.old.edges.index m) }
        ensures edges { self.new.edges ≡ record self.old.edges { index = self.new.edges.index } }
        ensures rest { self.new ≡ record self.old { edges = self.new.edges } }
    {
        let place = self.held.len();
        if name.item() != place {
            self.edges.index.insert(name.copy()?, place)?;
        }
        Ok(())
    }

    /// Puts the node, for which all memory is there, and whose name was entered.
    fn put(&mut self, node: Node, birth: Birth) -> u64
        requires ready { IsReady node birth.before birth.dependents self.old }
        ensures kept { IsKept self.new }
        ensures place { result ≡ length self.old.held.items }
        ensures now { state_of self.new ≡ added node (state_of self.old) }
        ensures base { base_of self.new ≡ base_of self.old }
    {
        let Birth { before, dependents } = birth;
        self.edges.lists.put(dependents);
        let place = self
            .held
            .put(Held {
                node,
                before,
                occ: None,
                target: None,
            })
            .0;
        self.file(place);
        self.changes.push_reserved(Change::Added);
        place
    }

    /// The places to which a node is linked.
    pub fn ends_of(&self, node: &Node) -> Ends
        requires findable { IsFindable (nodes_of self.now.held.items) self.now.edges.index }
        ensures first { result.first ≡ end_at (nodes_of self.now.held.items) (slice_get (own_links node.now.shape) 0) }
        ensures second { result.second ≡ end_at (nodes_of self.now.held.items) (slice_get (own_links node.now.shape) 1) }
        ensures watching { result.watching ≡ end_at (nodes_of self.now.held.items) (slice_get (watched node.now.shape) 0) }
        ensures wants { result.wants ≡ wants (nodes_of self.now.held.items) node.now.shape }
        ensures first_inside { IfSome result.first (λ p. p < length self.now.held.items) }
        ensures second_inside { IfSome result.second (λ p. p < length self.now.held.items) }
        ensures watching_inside { IfSome result.watching (λ p. p < length self.now.held.items) }
    {
        let first = first_link(&node.shape);
        let second = second_link(&node.shape);
        let watching = watched_node(&node.shape);
        Ends {
            first: self.place_of(first),
            second: self.place_of(second),
            watching: self.place_of(watching),
            wants: self.is_unknown(first) || self.is_unknown(second) || self.is_unknown(watching),
        }
    }

    /// The place of a name, where there is one.
    fn place_of(&self, name: Option<&Name>) -> Option<u64>
        requires findable { IsFindable (nodes_of self.now.held.items) self.now.edges.index }
        ensures inside { IfSome result (λ p. p < length self.now.held.items) }
        ensures place { result ≡ end_at (nodes_of self.now.held.items) (option_copied name.entry) }
    {
        match name {
            Some(name) => self.place(name),
            None => None,
        }
    }

    /// Whether there is a name, but of no live node.
    fn is_unknown(&self, name: Option<&Name>) -> bool
        requires findable { IsFindable (nodes_of self.now.held.items) self.now.edges.index }
        ensures { result ≡ is_unknown (nodes_of self.now.held.items) (option_copied name.entry) }
    {
        match name {
            Some(name) => self.place(name).is_none(),
            None => false,
        }
    }

    /// Files the last node at each place to which it is linked.
    fn file(&mut self, place: u64)
        requires findable { IsFindable (nodes_of self.old.held.items) self.old.edges.index }
        requires count { length self.old.edges.lists.items ≡ length self.old.held.items }
        requires place { place < length self.old.held.items }
        requires room { (x : NodeSpec) → slice_get (nodes_of self.old.held.items) place ≡ Some x
            → HasRoomToFile (nodes_of self.old.held.items) x place self.old.edges.lists.items }
        requires wanting { length self.old.edges.wanting.items < self.old.edges.wanting.room }
        ensures lists { (x : NodeSpec) → slice_get (nodes_of self.old.held.items) place ≡ Some x
            → self.new.edges.lists.items ≡ filed (nodes_of self.old.held.items) x place self.old.edges.lists.items }
        ensures wanting { (x : NodeSpec) → slice_get (nodes_of self.old.held.items) place ≡ Some x
            → self.new.edges.wanting.items
            ≡ (if wants (nodes_of self.old.held.items) x.shape then with_place place self.old.edges.wanting.items else self.old.edges.wanting.items) }
        ensures index { self.new.edges.index ≡ self.old.edges.index }
        ensures rest { self.new ≡ record self.old { edges = self.new.edges } }
    {
        let ends = self.ends_of(&self.held.get(Place(place)).node);
        self.edges.join(ends.first, place);
        self.edges.join(ends.second, place);
        self.edges.join_watcher(ends.watching, place);
        if ends.wants {
            self.edges.wanting.insert(place);
        }
    }

    /// Takes the last node away again, from where it is filed too.
    pub fn remove_last(&mut self)
        requires kept { IsKeptBy (self.old.changes.items ++ Added ∷ []) self.old }
        ensures kept { IsKept self.new }
        ensures lists { lists_of self.new ≡ undo Added (lists_of self.old) }
        ensures changes { self.new.changes ≡ self.old.changes }
    {
        let count = self.held.len();
        if count > 0 {
            self.unfile(count - 1);
            self.held.cut(Mark { length: count - 1 });
            self.edges.lists.cut(Mark { length: count - 1 });
        }
    }

    /// Takes the last node away from where it is filed, and from the node to which it is turned.
    fn unfile(&mut self, place: u64)
        requires findable { IsFindable (nodes_of self.old.held.items) self.old.edges.index }
        requires count { length self.old.edges.lists.items ≡ length self.old.held.items }
        requires place { place < length self.old.held.items }
        requires target { IfSome (at held_target self.old.held.items place) (λ q. q < length self.old.held.items) }
        ensures lists { (x : NodeSpec) → slice_get (nodes_of self.old.held.items) place ≡ Some x
            → self.new.edges.lists.items
            ≡ unfiled (nodes_of self.old.held.items) x place (left (at held_target self.old.held.items place) place self.old.edges.lists.items) }
        ensures wanting { self.new.edges.wanting.items ≡ without_place place self.old.edges.wanting.items }
        ensures index { (x : NodeSpec) → slice_get (nodes_of self.old.held.items) place ≡ Some x
            → HasForgotten self.old.edges.index self.new.edges.index x.name place }
        ensures rest { self.new ≡ record self.old { edges = self.new.edges } }
    {
        let target = self.target(place);
        let ends = self.ends_of(&self.held.get(Place(place)).node);
        self.edges.leave(target, place);
        self.edges.leave(ends.first, place);
        self.edges.leave(ends.second, place);
        self.edges.leave_watcher(ends.watching, place);
        self.edges.wanting.remove(place);
        self.leave_index(place);
    }

    /// The index forgets the last node.
    fn leave_index(&mut self, place: u64)
        requires place { place < length self.old.held.items }
        ensures index { (x : NodeSpec) → slice_get (nodes_of self.old.held.items) place ≡ Some x
            → HasForgotten self.old.edges.index self.new.edges.index x.name place }
        ensures edges { self.new.edges ≡ record self.old.edges { index = self.new.edges.index } }
        ensures rest { self.new ≡ record self.old { edges = self.new.edges } }
    {
        let name = &self.held.get(Place(place)).node.name;
        if name.item() != place {
            self.edges.index.remove(name);
        }
    }
}

/// Puts in a place, if it is to be there.
#[tactic(auto, using(crate::proofs::Rising::length_with))]
fn add_where(there: bool, place: Place, places: &mut Places) -> Result<(), Memory>
    ensures { OnOk result (places.new.items ≡ (if there then with_place place.0 places.old.items else places.old.items)) }
{
    if there {
        places.reserve()?;
        places.insert(place.0);
    }
    Ok(())
}
