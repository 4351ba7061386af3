//! A closed chain of a phase.

ghost use Rattle.std.specs.Prelude.{◌≡◌, ◌<◌, ◌≤◌, ◌++◌, ℕ, List, length, map, drop, take, false, IfOk, slice_index, slice_index_or};
ghost use Rattle.std.specs.Ordering.{is_lt};
ghost use Rattle.frp_base.specs.Name.{name_cmp};
ghost use Rattle.frp_links.specs.References.{SwitchesRefer};
ghost use Rattle.frp_links.specs.Chains.{AreNamed, HaveBefores, IsChain};
ghost use Rattle.frp_links.specs.Places.{name_at, IsLeast};

use crate::indexing::{index, rows};
use frp_base::{Memory, Name, Seq};
use frp_graph::{Phase, View};
use frp_order::{Found, sort};
use std::alloc::Global;

/// A closed chain of a phase: distinct names, the least first, each linked to the next and the last to the first. There is none
/// exactly where the phase has none. The time is proportional to the live nodes and their links, and to the logarithm of their
/// number.
pub fn chain<V: View>(alloc: Global, view: &V, phase: Phase) -> Result<Option<Seq<Name>>, Memory>
    requires named { AreNamed (V.sight view.now) }
    requires befores { HaveBefores (V.sight view.now) }
    requires switches { SwitchesRefer (V.sight view.now) }
    ensures { IfOk result (IsChain (V.sight view.now) phase) }
{
    let index = index(alloc, view)?;
    let rows = rows(alloc, view, &index, phase)?;
    match sort(alloc, rows.as_slice())? {
        Found::Ring(ring) => Ok(Some(turned(names_at(alloc, view, ring.as_slice())?))),
        Found::Order(_) => Ok(None),
    }
}

/// The names of the nodes at these places.
fn names_at<V: View>(alloc: Global, view: &V, places: &[usize]) -> Result<Vec<Name>, Memory>
    requires { (i : ℕ) → i < length places.now → slice_index places.now i < length (V.nodes view.now) }
    ensures { IfOk result (λ names. names.items ≡ map (name_at (V.nodes view.now)) places.now) }
{
    let mut names = Vec::new(alloc);
    for place in places {
        names.push(view.nth(*place as u64).name.copy()?)?;
    }
    Ok(names)
}

/// The names, turned to begin with the least.
fn turned(mut names: Vec<Name>) -> Seq<Name>
    requires { 0 < length names.items }
    ensures { (i : ℕ) × (i < length names.items) × IsLeast names.items i × (result ≡ drop i names.items ++ take i names.items) }
{
    let least = number_of_least(names.as_slice());
    names.rotate_left(least);
    Seq::of(names)
}

/// Where the least of the names stands.
fn number_of_least(names: &[Name]) -> usize
    requires { 0 < length names.now }
    ensures inside { result < length names.now }
    ensures least { IsLeast names.now result }
{
    let mut best = 0;
    for (i, name) in names.iter().enumerate() {
        if name.cmp(&names[best]).is_lt() {
            best = i;
        }
    }
    best
}
