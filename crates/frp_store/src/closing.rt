ghost use Rattle.std.specs.Prelude.{◌≡◌, ◌<◌, ◌≤◌, ◌+◌, ◌∷◌, ◌++◌, [], ℕ, List, drop, length, slice_get, OnOk, OnErr, IfOk, IfSome, IsTrue, is_some, map, Some, None, vec_len, vec_capacity};
ghost use Rattle.std.specs.List.{AllByRecursion};
ghost use Rattle.std.specs.List.Sorted.{IsStrictlySortedBy};
ghost use Rattle.frp_base.specs.declared.name.Name.{Name};
ghost use Rattle.frp_base.specs.Name.{name_cmp};
ghost use Rattle.frp_graph.specs.declared.trace.Node.{Node};
ghost use Rattle.frp_graph.specs.declared.trace.Fact.{Fact};
ghost use Rattle.frp_graph.specs.Trace.{node_in, fact_in};
ghost use Rattle.frp_graph.specs.Links.{are_distinct};
ghost use Rattle.frp_store.specs.declared.held.Held.{Held};
ghost use Rattle.frp_store.specs.State.{names};
ghost use Rattle.frp_store.specs.Items.{updated};
ghost use Rattle.frp_store.specs.Places.{has};
ghost use Rattle.frp_store.specs.Lists.{lists_of, nodes_of};
ghost use Rattle.frp_store.specs.Undo.{undo_all, set_occ};
ghost use Rattle.frp_store.specs.Calls.{Ends};
ghost use Rattle.frp_store.specs.Closing.{at, held_occ, held_before, IsPrepared, ArePrepared, HasClosed, facts_from, steps_from, stepped_at, taken_at, taken_steps, ended_lists};
ghost use Rattle.frp_store.specs.Kept.{state_of, base_of, IsKept};
ghost use Rattle.frp_store.specs.declared.change.Change.TheVariants.{Ended};

use crate::change::Change;
use crate::copies::{copy_node, copy_option};
use crate::held::{Closing, Held, Step};
use crate::tables::Tables;
use crate::writing::{put_before, put_occ};
use frp_base::{Memory, Name, Place, Seq, Val};
use frp_graph::{Fact, Moment, Node};
use frp_region::Region;
use std::mem;

impl Tables {
    /// Ends the moment that is begun: its births and occurrences stand in the trace.
    pub fn end_moment(&mut self) -> Result<(), Memory>
        requires kept { IsKept self.old }
        requires begun { IsTrue (is_some (state_of self.old).begun) }
        ensures kept { IsKept self.new }
        ensures now { OnOk result (Ends (state_of self.old) (state_of self.new)) }
        ensures base { base_of self.new ≡ base_of self.old }
        ensures err { OnErr result (state_of self.new ≡ state_of self.old) }
    {
        let born = self.born()?;
        let closings = self.closings()?;
        let facts = Vec::with_capacity(self.alloc, closings.len())?;
        let steps = Vec::with_capacity(self.alloc, closings.len())?;
        self.past.reserve(1)?;
        self.changes.reserve(1)?;
        self.close(born, closings, facts, steps);
        Ok(())
    }

    /// Copies of the nodes that were born since the moment was begun, by rising name.
    fn born(&self) -> Result<Vec<Node>, Memory>
        requires distinct { IsTrue (are_distinct (names (nodes_of self.now.held.items))) }
        requires first { self.now.first ≤ length self.now.held.items }
        ensures rising { IfOk result (λ v. IsStrictlySortedBy name_cmp (names v.items)) }
        ensures nodes { IfOk result (λ v. (n : Name) → node_in v.items n ≡ node_in (drop self.now.first (nodes_of self.now.held.items)) n) }
    {
        let mut born = self.copies()?;
        sort_nodes(&mut born);
        Ok(born)
    }

    /// Copies of the nodes that were born since the moment was begun, by place.
    fn copies(&self) -> Result<Vec<Node>, Memory>
        requires first { self.now.first ≤ length self.now.held.items }
        ensures { IfOk result (λ v. v.items ≡ drop self.now.first (nodes_of self.now.held.items)) }
    {
        let mut born = Vec::new(self.alloc);
        let mut place = self.first;
        while place < self.held.len() {
            born.push(copy_node(self.alloc, &self.held.get(Place(place)).node)?)?;
            place += 1;
        }
        Ok(born)
    }

    /// What the end of the moment takes of the nodes that have an occurrence, in the order in which these came.
    fn closings(&self) -> Result<Vec<Closing>, Memory>
        requires inside { AllByRecursion (λ p. p < length self.now.held.items) self.now.fired.items }
        ensures { IfOk result (λ v. ArePrepared self.now.held.items self.now.fired.items v.items) }
    {
        let mut closings = Vec::new(self.alloc);
        let mut number = 0;
        while number < self.fired.len() {
            closings.push(self.closing(self.fired[number])?)?;
            number += 1;
        }
        Ok(closings)
    }

    /// What the end of the moment takes of the node of a place.
    fn closing(&self, place: u64) -> Result<Closing, Memory>
        requires place { place < length self.now.held.items }
        ensures { IfOk result (λ c. IsPrepared (slice_get self.now.held.items place) c) }
    {
        let held = self.held.get(Place(place));
        let name = held.node.name.copy()?;
        let after = match held.before {
            Some(_) => copy_option(self.alloc, &held.occ)?,
            None => None,
        };
        Ok(Closing { name, after })
    }

    /// Ends the moment, for which all memory is there.
    fn close(
        &mut self,
        born: Vec<Node>,
        closings: Vec<Closing>,
        mut facts: Vec<Fact>,
        mut steps: Vec<Step>,
    )
        requires kept { IsKept self.old }
        requires begun { IsTrue (is_some self.old.begun) }
        requires rising { IsStrictlySortedBy name_cmp (names born.items) }
        requires nodes { (n : Name) → node_in born.items n ≡ node_in (drop self.old.first (nodes_of self.old.held.items)) n }
        requires prepared { ArePrepared self.old.held.items self.old.fired.items closings.items }
        requires no_facts { facts.items ≡ [] }
        requires no_steps { steps.items ≡ [] }
        requires facts_fit { vec_len closings ≤ vec_capacity facts }
        requires steps_fit { vec_len closings ≤ vec_capacity steps }
        requires past_fits { vec_len self.old.past < vec_capacity self.old.past }
        requires changes_fit { vec_len self.old.changes < vec_capacity self.old.changes }
        ensures kept { IsKept self.new }
        ensures now { Ends (state_of self.old) (state_of self.new) }
        ensures base { base_of self.new ≡ base_of self.old }
    {
        take_occs(
            &mut self.held,
            self.fired.as_slice(),
            closings,
            &mut facts,
            &mut steps,
        );
        sort_facts(&mut facts);
        self.conclude(born, facts, steps);
    }

    /// The moment that is begun is over, with these births and facts.
    fn conclude(&mut self, born: Vec<Node>, facts: Vec<Fact>, steps: Vec<Step>)
        requires begun { IsTrue (is_some self.old.begun) }
        requires past_fits { vec_len self.old.past < vec_capacity self.old.past }
        requires changes_fit { vec_len self.old.changes < vec_capacity self.old.changes }
        ensures lists { IfSome self.old.begun (λ t. lists_of self.new ≡ ended_lists (record { time = t; born = born.items; fired = facts.items }) (lists_of self.old)) }
        ensures changes { self.new.changes.items ≡ self.old.changes.items ++ (Ended self.old.fired steps self.old.above self.old.first) ∷ [] }
        ensures edges { self.new.edges ≡ self.old.edges }
    {
        let time = match self.begun.take() {
            Some(time) => time,
            None => unreachable!(),
        };
        self.past.push_reserved(Moment {
            time,
            born: Seq::of(born),
            fired: Seq::of(facts),
        });
        let above = self.above.take();
        let first = mem::replace(&mut self.first, self.held.len());
        let fired = mem::replace(&mut self.fired, Vec::new(self.alloc));
        self.changes.push_reserved(Change::Ended {
            fired,
            steps,
            above,
            first,
        });
    }
}

/// Takes the occurrences from the places that have one: they are facts, and the values after the moment of those that are cells stand
/// in the place of those before it, which are steps.
fn take_occs(
    held: &mut Region<Held>,
    fired: &[u64],
    mut closings: Vec<Closing>,
    facts: &mut Vec<Fact>,
    steps: &mut Vec<Step>,
)
    requires distinct { IsTrue (are_distinct (names (nodes_of held.old.items))) }
    requires listed { (p : ℕ) (h : Held) → slice_get held.old.items p ≡ Some h → IsTrue (is_some h.occ) → IsTrue (has fired.now p) }
    requires prepared { ArePrepared held.old.items fired.now closings.items }
    requires no_facts { facts.old.items ≡ [] }
    requires no_steps { steps.old.items ≡ [] }
    requires facts_fit { vec_len closings ≤ vec_capacity facts.old }
    requires steps_fit { vec_len closings ≤ vec_capacity steps.old }
    ensures { HasClosed held.old.items held.new.items facts.new.items steps.new.items }
{
    while let Some(closing) = closings.pop() {
        take_occ(held, fired[closings.len()], closing, facts, steps);
    }
}

/// Takes the occurrence of a place, where it has one.
fn take_occ(
    held: &mut Region<Held>,
    place: u64,
    closing: Closing,
    facts: &mut Vec<Fact>,
    steps: &mut Vec<Step>,
)
    requires facts_fit { vec_len facts.old < vec_capacity facts.old }
    requires steps_fit { vec_len steps.old < vec_capacity steps.old }
    ensures held { held.new.items ≡ taken_at place (at held_occ held.old.items place) closing.after (updated place (set_occ None) held.old.items) }
    ensures facts { facts.new.items ≡ facts.old.items ++ facts_from closing.name (at held_occ held.old.items place) }
    ensures steps { steps.new.items ≡ steps.old.items ++ taken_steps place (at held_occ held.old.items place) closing.after (at held_before held.old.items place) }
    ensures facts_room { (vec_len facts.new ≤ vec_len facts.old + 1) × (vec_capacity facts.new ≡ vec_capacity facts.old) }
    ensures steps_room { (vec_len steps.new ≤ vec_len steps.old + 1) × (vec_capacity steps.new ≡ vec_capacity steps.old) }
{
    let Closing { name, after } = closing;
    if let Some(value) = put_occ(held, place, None) {
        facts.push_reserved(Fact { node: name, value });
        step(held, place, after, steps);
    }
}

/// Steps the cell of a place to a value, if any, and puts the one that it had among the steps.
fn step(held: &mut Region<Held>, place: u64, after: Option<Val>, steps: &mut Vec<Step>)
    requires steps_fit { vec_len steps.old < vec_capacity steps.old }
    ensures held { held.new.items ≡ stepped_at place after held.old.items }
    ensures steps { steps.new.items ≡ steps.old.items ++ steps_from place after (at held_before held.old.items place) }
    ensures steps_room { (vec_len steps.new ≤ vec_len steps.old + 1) × (vec_capacity steps.new ≡ vec_capacity steps.old) }
{
    if let Some(after) = after {
        if let Some(value) = put_before(held, place, Some(after)) {
            steps.push_reserved(Step { place, value });
        }
    }
}

/// Sorts facts by name.
fn sort_facts(facts: &mut Vec<Fact>)
    requires once { IsTrue (are_distinct (map (λ (f : Fact). f.node) facts.old.items)) }
    ensures rising { IsStrictlySortedBy name_cmp (map (λ (f : Fact). f.node) facts.new.items) }
    ensures facts { (n : Name) → fact_in facts.new.items n ≡ fact_in facts.old.items n }
{
    facts.sort_unstable_by(|a, b| a.node.cmp(&b.node));
}

/// Sorts nodes by name.
fn sort_nodes(nodes: &mut Vec<Node>)
    requires once { IsTrue (are_distinct (names nodes.old.items)) }
    ensures rising { IsStrictlySortedBy name_cmp (names nodes.new.items) }
    ensures nodes { (n : Name) → node_in nodes.new.items n ≡ node_in nodes.old.items n }
{
    nodes.sort_unstable_by(|a, b| a.name.cmp(&b.name));
}
