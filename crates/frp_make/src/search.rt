//! First values, each found once those on which it depends are there.
ghost use Rattle.std.specs.Prelude.{◌≡◌, ◌<◌, [], length, replicate, Some, None, IfOk, OnOk, slice_get};
ghost use Rattle.std.specs.BTreeMap.{get};
ghost use Rattle.frp_base.specs.Name.{name_cmp};
ghost use Rattle.frp_graph.specs.declared.trace.Node.{Node};
ghost use Rattle.frp_graph.specs.WellFormed.{HasFirsts};
ghost use Rattle.frp_make.specs.Firsts.{awaited_in};
ghost use Rattle.frp_make.specs.Search.{state_of, IsUnsettled, pushed, is_missing, missing_among, IsSearch, Awaits, GoesOn, Ends};

use crate::firsts::{awaited, first_value};
use frp_base::{Memory, Name, Seq, Ty, Val};
use frp_graph::{Node, View};
use std::alloc::Global;
use std::collections::BTreeMap;

/// A search for the first values of nodes that are born, along the links of Birth.
#[derive(Drop)]
pub struct Search {
    /// The nodes, with the first values that are found so far.
    pub nodes: Vec<Node>,
    /// The places of cells that may have all that their first values need.
    pub todo: Vec<usize>,
    /// For each place, those of the cells that wait for the first value there.
    pub waiting: Vec<Seq<usize>>,
}

impl Search {
    /// A search that has found nothing yet.
    pub fn new(alloc: Global, nodes: Vec<Node>) -> Result<Search, Memory>
        ensures { IfOk result (λ s. IsUnsettled nodes.items (state_of s)) }
    {
        let todo = missing(alloc, nodes.as_slice())?;
        let waiting = rows(alloc, nodes.len())?;
        Ok(Search {
            nodes,
            todo,
            waiting,
        })
    }

    /// Goes on until each cell has its first value, or waits for another that has none.
    pub fn run<V: View>(
        &mut self,
        alloc: Global,
        view: &V,
        index: &BTreeMap<Name, usize>,
    ) -> Result<(), Memory>
        requires firsts { HasFirsts (V.sight view.now) }
        requires search { IsSearch (V.prog_of view.now) (V.sight view.now) (get name_cmp index.now) (state_of self.old) }
        ensures { OnOk result (Ends (V.prog_of view.now) (V.sight view.now) (get name_cmp index.now) (state_of self.old) (state_of self.new)) }
    {
        while let Some(place) = self.todo.pop() {
            self.step(alloc, view, index, place)?;
        }
        Ok(())
    }

    /// Looks at the cell at a place that was to be looked at: it waits for another, or its first value is found.
    fn step<V: View>(
        &mut self,
        alloc: Global,
        view: &V,
        index: &BTreeMap<Name, usize>,
        place: usize,
    ) -> Result<(), Memory>
        requires firsts { HasFirsts (V.sight view.now) }
        requires search { IsSearch (V.prog_of view.now) (V.sight view.now) (get name_cmp index.now) (pushed (state_of self.old) place) }
        ensures { OnOk result (GoesOn (V.prog_of view.now) (V.sight view.now) (get name_cmp index.now) (pushed (state_of self.old) place) (state_of self.new)) }
    {
        match awaited(view, self.nodes.as_slice(), index, place) {
            Some(next) => self.wait(view, index, place, next),
            None => self.finish(alloc, view, index, place),
        }
    }

    /// The cell at a place waits for the first value of another.
    fn wait<V: View>(
        &mut self,
        view: &V,
        index: &BTreeMap<Name, usize>,
        place: usize,
        next: usize,
    ) -> Result<(), Memory>
        requires firsts { HasFirsts (V.sight view.now) }
        requires search { IsSearch (V.prog_of view.now) (V.sight view.now) (get name_cmp index.now) (pushed (state_of self.old) place) }
        requires waits { Awaits (V.sight view.now) (get name_cmp index.now) self.old.nodes.items place next }
        ensures { OnOk result (GoesOn (V.prog_of view.now) (V.sight view.now) (get name_cmp index.now) (pushed (state_of self.old) place) (state_of self.new)) }
    {
        let _view = view;
        let _index = index;
        self.waiting[next].add(place)?;
        Ok(())
    }

    /// The first value of the cell at a place is found, and those that wait for it are to be looked at again.
    fn finish<V: View>(
        &mut self,
        alloc: Global,
        view: &V,
        index: &BTreeMap<Name, usize>,
        place: usize,
    ) -> Result<(), Memory>
        requires firsts { HasFirsts (V.sight view.now) }
        requires search { IsSearch (V.prog_of view.now) (V.sight view.now) (get name_cmp index.now) (pushed (state_of self.old) place) }
        requires ready { (x : Node) → slice_get self.old.nodes.items place ≡ Some x → awaited_in (V.sight view.now) (get name_cmp index.now) self.old.nodes.items x.shape ≡ None }
        ensures { OnOk result (GoesOn (V.prog_of view.now) (V.sight view.now) (get name_cmp index.now) (pushed (state_of self.old) place) (state_of self.new)) }
    {
        let first = first_value(alloc, view, self.nodes.as_slice(), index, place)?;
        give(&mut self.nodes[place], first);
        self.todo.extend_from_slice(self.waiting[place].as_slice())?;
        self.waiting[place] = Seq::new(alloc);
        Ok(())
    }
}

/// Gives a node its first value.
fn give(node: &mut Node, first: Option<Val>)
    ensures { node.new ≡ record { name = node.old.name; shape = node.old.shape; ty = node.old.ty; first = first } }
{
    node.first = first;
}

/// The places of the cells that have no first value.
fn missing(alloc: Global, nodes: &[Node]) -> Result<Vec<usize>, Memory>
    ensures { IfOk result (λ places. places.items ≡ missing_among nodes.now) }
{
    let mut places = Vec::new(alloc);
    for (place, node) in nodes.iter().enumerate() {
        if is_missing(node) {
            places.push(place)?;
        }
    }
    Ok(places)
}

/// Whether a node is a cell that has no first value.
fn is_missing(node: &Node) -> bool
    ensures { result ≡ is_missing node.now }
{
    matches!(node.ty, Ty::Cell(_)) && node.first.is_none()
}

/// So many empty rows.
fn rows(alloc: Global, count: usize) -> Result<Vec<Seq<usize>>, Memory>
    ensures { IfOk result (λ rows. rows.items ≡ replicate count []) }
{
    let mut rows = Vec::new(alloc);
    for _row in 0..count {
        rows.push(Seq::new(alloc))?;
    }
    Ok(rows)
}
