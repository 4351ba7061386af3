//! The nodes that a body makes, with their first values, or a closed chain of Birth among them.
ghost use Rattle.std.specs.Prelude.{◌≡◌, ◌<◌, ℕ, List, length, map, reverse, IfOk, slice_index};
ghost use Rattle.std.specs.BTreeMap.{get};
ghost use Rattle.frp_base.specs.Name.{name_cmp};
ghost use Rattle.frp_graph.specs.Births.{Plan};
ghost use Rattle.frp_graph.specs.WellFormed.{HasFirsts};
ghost use Rattle.frp_order.specs.Rings.{AreInside};
ghost use Rattle.frp_make.specs.Lines.{draft_of};
ghost use Rattle.frp_make.specs.Making.{IsFirstOut};
ghost use Rattle.frp_make.specs.Firsts.{IsIndex, AreApart, name_at};
ghost use Rattle.frp_make.specs.Search.{AreDrafts, state_of};
ghost use Rattle.frp_make.specs.Told.{Tells};

use crate::chaining::closed_chain;
use crate::made::FirstOut;
use crate::search::Search;
use frp_base::{Memory, Name, Seq};
use frp_graph::{Node, View};
use frp_order::{Found, sort};
use std::alloc::Global;
use std::collections::BTreeMap;

/// What is born of drafts: the nodes with their first values, or the nodes and a closed chain of Birth among them, exactly where
/// there is one.
pub fn births<V: View>(alloc: Global, view: &V, drafts: Vec<Node>) -> Result<FirstOut, Memory>
    requires firsts { HasFirsts (V.sight view.now) }
    requires drafts { AreDrafts (V.prog_of view.now) (V.sight view.now) drafts.items }
    ensures { IfOk result (λ out. (plans : List Plan) → drafts.items ≡ map draft_of plans → IsFirstOut (V.prog_of view.now) (V.sight view.now) plans out) }
{
    let index = index(alloc, drafts.as_slice())?;
    let mut search = Search::new(alloc, drafts)?;
    search.run(alloc, view, &index)?;
    told(alloc, search)
}

/// Where each node stands, by its name.
fn index(alloc: Global, nodes: &[Node]) -> Result<BTreeMap<Name, usize>, Memory>
    requires { AreApart nodes.now }
    ensures { IfOk result (λ index. IsIndex nodes.now (get name_cmp index)) }
{
    let mut index = BTreeMap::new(alloc);
    for (place, node) in nodes.iter().enumerate() {
        index.insert(node.name.copy()?, place)?;
    }
    Ok(index)
}

/// What a search at its end tells. Cells that still wait are on a closed chain, or lead to one.
fn told(alloc: Global, search: Search) -> Result<FirstOut, Memory>
    requires inside { AreInside search.waiting.items }
    requires rows { length search.waiting.items ≡ length search.nodes.items }
    ensures { IfOk result (Tells (state_of search)) }
{
    let Search { nodes, waiting, .. } = search;
    match sort(alloc, waiting.as_slice())? {
        Found::Order(_) => Ok(FirstOut::Made(Seq::of(nodes))),
        Found::Ring(ring) => {
            let names = names_back(alloc, nodes.as_slice(), ring.as_slice())?;
            Ok(FirstOut::Chain(Seq::of(nodes), closed_chain(names)))
        }
    }
}

/// The names of the nodes at these places, last place first.
fn names_back(alloc: Global, nodes: &[Node], places: &[usize]) -> Result<Vec<Name>, Memory>
    requires { (i : ℕ) → i < length places.now → slice_index places.now i < length nodes.now }
    ensures { IfOk result (λ names. names.items ≡ reverse (map (name_at nodes.now) places.now)) }
{
    let mut names = Vec::new(alloc);
    for place in places {
        names.push(nodes[*place].name.copy()?)?;
    }
    names.reverse();
    Ok(names)
}
