//! Places of live nodes, by their names, and the links between places.

ghost use Rattle.std.specs.Prelude.{◌≡◌, List, length, map, take, Some, IfOk, IsTrue};
ghost use Rattle.std.specs.BTreeMap.{get};
ghost use Rattle.frp_base.specs.Name.{name_cmp};
ghost use Rattle.frp_graph.specs.Views.{AreLive};
ghost use Rattle.frp_links.specs.References.{SwitchesRefer};
ghost use Rattle.frp_links.specs.Chains.{HaveBefores};
ghost use Rattle.frp_links.specs.Places.{IsIndex, places_of, rows_of};

use crate::links::links_of;
use frp_base::{Memory, Name, Seq};
use frp_graph::{Phase, View};
use std::alloc::Global;
use std::collections::BTreeMap;

/// The place of each live node, which is its number in the view's order, by its name.
pub fn index<V: View>(alloc: Global, view: &V) -> Result<BTreeMap<Name, usize>, Memory>
    ensures places { IfOk result (λ index. IsIndex (V.nodes view.now) (get name_cmp index)) }
    ensures live { AreLive (V.sight view.now) (V.nodes view.now) }
{
    let mut index = BTreeMap::new(alloc);
    for place in 0..view.live() {
        index.insert(view.nth(place).name.copy()?, place as usize)?;
    }
    Ok(index)
}

/// For each live node the places of those to which it is linked in a phase.
pub fn rows<V: View>(
    alloc: Global,
    view: &V,
    index: &BTreeMap<Name, usize>,
    phase: Phase,
) -> Result<Seq<Seq<usize>>, Memory>
    requires befores { HaveBefores (V.sight view.now) }
    requires switches { SwitchesRefer (V.sight view.now) }
    ensures { IfOk result (λ rows. rows ≡ rows_of (V.sight view.now) phase (get name_cmp index.now) (V.nodes view.now)) }
{
    let mut rows = Seq::new(alloc);
    for place in 0..view.live() {
        let links = links_of(alloc, view, view.nth(place), phase)?;
        rows.add(places(alloc, index, links.as_slice())?)?;
    }
    Ok(rows)
}

/// The places of the names that have one.
fn places(
    alloc: Global,
    index: &BTreeMap<Name, usize>,
    names: &[Name],
) -> Result<Seq<usize>, Memory>
    ensures { IfOk result (λ places. places ≡ places_of (get name_cmp index.now) names.now) }
{
    let mut places = Seq::new(alloc);
    for name in names {
        if let Some(place) = index.get(name) {
            places.add(*place)?;
        }
    }
    Ok(places)
}
