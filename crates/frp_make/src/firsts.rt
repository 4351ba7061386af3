//! First values of nodes that are born, over the first values that are found so far.
ghost use Rattle.std.specs.Prelude.{◌≡◌, ◌<◌, [], ◌∷◌, length, Some, None, slice_get, option_map, option_and_then, IfOk};
ghost use Rattle.std.specs.Option.{option_copied};
ghost use Rattle.std.specs.BTreeMap.{get};
ghost use Rattle.frp_base.specs.Name.{name_cmp};
ghost use Rattle.frp_graph.specs.declared.trace.Node.{Node};
ghost use Rattle.frp_graph.specs.Trace.{or_else, node_first};
ghost use Rattle.frp_graph.specs.Applied.{call, applied};
ghost use Rattle.frp_graph.specs.FirstValues.{first_value};
ghost use Rattle.frp_make.specs.Making.{with_born};
ghost use Rattle.frp_make.specs.Firsts.{IsIndex, missing_in, awaited_in, IsRead, IsReadable};

use crate::lines::referred;
use frp_base::{Memory, Name, Val};
use frp_fire::{call_one, copied, function};
use frp_graph::{Lam, Node, Prog, Shape, View};
use std::alloc::Global;
use std::collections::BTreeMap;

/// The place of the node on whose first value that of the node at a place waits, where there is one: the first of its links of
/// Birth that leads to a node without a first value so far.
pub fn awaited<V: View>(
    view: &V,
    nodes: &[Node],
    index: &BTreeMap<Name, usize>,
    place: usize,
) -> Option<usize>
    requires place { place < length nodes.now }
    requires index { IsIndex nodes.now (get name_cmp index.now) }
    requires readable { (x : Node) → slice_get nodes.now place ≡ Some x → IsReadable (V.sight view.now) (get name_cmp index.now) nodes.now x.shape }
    ensures { (x : Node) → slice_get nodes.now place ≡ Some x → result ≡ awaited_in (V.sight view.now) (get name_cmp index.now) nodes.now x.shape }
{
    match &nodes[place].shape {
        Shape::Mapc { c, .. } => missing(nodes, index, c),
        Shape::Apply { cf, ca } => first_missing(nodes, index, cf, ca),
        Shape::Loop { to } => missing(nodes, index, to),
        Shape::Switchc { c } => match before(view, nodes, index, c) {
            Some(inner) => missing(nodes, index, referred(inner)),
            None => missing(nodes, index, c),
        },
        _ => None,
    }
}

/// The place of the node of a name, where it is one of those that are born and has no first value so far.
fn missing(nodes: &[Node], index: &BTreeMap<Name, usize>, name: &Name) -> Option<usize>
    requires { IsIndex nodes.now (get name_cmp index.now) }
    ensures { result ≡ missing_in (get name_cmp index.now) nodes.now name.now }
{
    match index.get(name) {
        Some(place) => if nodes[*place].first.is_some() {
            None
        } else {
            Some(*place)
        },
        None => None,
    }
}

fn first_missing(
    nodes: &[Node],
    index: &BTreeMap<Name, usize>,
    name: &Name,
    other: &Name,
) -> Option<usize>
    requires { IsIndex nodes.now (get name_cmp index.now) }
    ensures { result ≡ or_else (missing_in (get name_cmp index.now) nodes.now name.now) (missing_in (get name_cmp index.now) nodes.now other.now) }
{
    match missing(nodes, index, name) {
        Some(place) => Some(place),
        None => missing(nodes, index, other),
    }
}

/// The value of a cell before the time: its first value where it is one of those that are born.
fn before<'a, V: View>(
    view: &'a V,
    nodes: &'a [Node],
    index: &BTreeMap<Name, usize>,
    c: &Name,
) -> Option<&'a Val>
    requires index { IsIndex nodes.now (get name_cmp index.now) }
    requires read { IsRead (V.sight view.now) (get name_cmp index.now) c.now }
    ensures { option_copied result ≡ (with_born (V.sight view.now) nodes.now).pre c.now }
{
    match index.get(c) {
        Some(place) => nodes[*place].first.as_ref(),
        None => Some(view.pre(c)),
    }
}

/// The first value of a node, where it is there.
fn first_of<'a, V: View>(
    view: &'a V,
    nodes: &'a [Node],
    index: &BTreeMap<Name, usize>,
    n: &Name,
) -> Option<&'a Val>
    requires { IsIndex nodes.now (get name_cmp index.now) }
    ensures { option_copied result ≡ option_and_then node_first ((with_born (V.sight view.now) nodes.now).node n.now) }
{
    match index.get(n) {
        Some(place) => nodes[*place].first.as_ref(),
        None => match view.node(n) {
            Some(node) => node.first.as_ref(),
            None => None,
        },
    }
}

/// The first value of the node at a place, where those on which it depends are there.
pub fn first_value<V: View>(
    alloc: Global,
    view: &V,
    nodes: &[Node],
    index: &BTreeMap<Name, usize>,
    place: usize,
) -> Result<Option<Val>, Memory>
    requires place { place < length nodes.now }
    requires index { IsIndex nodes.now (get name_cmp index.now) }
    requires readable { (x : Node) → slice_get nodes.now place ≡ Some x → IsReadable (V.sight view.now) (get name_cmp index.now) nodes.now x.shape }
    ensures { IfOk result (λ o. (x : Node) → slice_get nodes.now place ≡ Some x → o ≡ first_value (V.prog_of view.now) (with_born (V.sight view.now) nodes.now) None x.shape) }
{
    match &nodes[place].shape {
        Shape::Mapc { f, c } => mapped(alloc, view.program(), f, before(view, nodes, index, c)),
        Shape::Apply { cf, ca } => applied(
            alloc,
            view.program(),
            before(view, nodes, index, cf),
            before(view, nodes, index, ca),
        ),
        Shape::Loop { to } => copied(alloc, first_of(view, nodes, index, to)),
        Shape::Switchc { c } => match before(view, nodes, index, c) {
            Some(inner) => copied(alloc, before(view, nodes, index, referred(inner))),
            None => Ok(None),
        },
        _ => Ok(None),
    }
}

/// An expression of a value, where it is there.
fn mapped(alloc: Global, prog: &Prog, f: &Lam, value: Option<&Val>) -> Result<Option<Val>, Memory>
    ensures { IfOk result (λ o. o ≡ option_map (λ v. call prog.now f.now (v ∷ [])) (option_copied value.entry)) }
{
    match value {
        Some(v) => Ok(Some(call_one(alloc, prog, f, v)?)),
        None => Ok(None),
    }
}

/// A function of a value, where both are there.
fn applied(
    alloc: Global,
    prog: &Prog,
    f: Option<&Val>,
    value: Option<&Val>,
) -> Result<Option<Val>, Memory>
    ensures { IfOk result (λ o. o ≡ option_and_then (λ f. option_and_then (applied prog.now f) (option_copied value.entry)) (option_copied f.entry)) }
{
    match f {
        Some(f) => match value {
            Some(v) => function(alloc, prog, f, v),
            None => Ok(None),
        },
        None => Ok(None),
    }
}
