//! The links of one node, by phase.

ghost use Rattle.std.specs.Prelude.{◌≡◌, [], ◌∷◌, ◌++◌, filter, is_some, Some, IfOk, IsTrue, if◌then◌else◌};
ghost use Rattle.std.specs.Option.{option_copied, option_to_list};
ghost use Rattle.frp_base.specs.declared.ty.Ty.{Ty};
ghost use Rattle.frp_base.specs.declared.val.Val.{out-Val};
ghost use Rattle.frp_base.specs.Name.{maker};
ghost use Rattle.frp_graph.specs.Trace.{post_in};
ghost use Rattle.frp_graph.specs.Applied as apply;
ghost use Rattle.frp_graph.specs.Links as graph;
ghost use Rattle.frp_links.specs.Chains.{HaveBefores};
ghost use Rattle.frp_links.specs.References.{refers_in, is_reference_or_none, SwitchRefers, SwitchesRefer};

use frp_base::{Memory, Name, Seq, Ty, Val};
use frp_graph::{Node, Phase, Shape, View};
use std::alloc::Global;

/// The links of a live node in a phase, in the definition's order.
pub fn links_of<V: View>(
    alloc: Global,
    view: &V,
    node: &Node,
    phase: Phase,
) -> Result<Seq<Name>, Memory>
    requires befores { HaveBefores (V.sight view.now) }
    requires switches { SwitchesRefer (V.sight view.now) }
    requires live { (V.sight view.now).node node.now.name ≡ Some node.now }
    ensures { IfOk result (λ ns. ns ≡ graph.links (V.sight view.now) phase node.now) }
{
    match phase {
        Phase::During => during(alloc, view, node),
        Phase::After => after_links(alloc, view, &node.shape),
        Phase::Birth => birth(alloc, view, node),
    }
}

/// The links of a node during the moment: those of its shape, and the one to its maker where it was born at the time.
fn during<V: View>(alloc: Global, view: &V, node: &Node) -> Result<Seq<Name>, Memory>
    requires befores { HaveBefores (V.sight view.now) }
    requires switch { SwitchRefers (V.sight view.now) node.now.shape }
    ensures { IfOk result (λ ns. ns ≡ graph.links (V.sight view.now) Phase.During node.now) }
{
    let mut links = during_links(alloc, view, &node.shape)?;
    if is_new(view, &node.name) {
        if let Some(maker) = node.name.maker()? {
            links.add(maker)?;
        }
    }
    Ok(links)
}

/// The links of a node among cells that are born.
fn birth<V: View>(alloc: Global, view: &V, node: &Node) -> Result<Seq<Name>, Memory>
    requires befores { HaveBefores (V.sight view.now) }
    requires switch { SwitchRefers (V.sight view.now) node.now.shape }
    ensures { IfOk result (λ ns. ns ≡ graph.links (V.sight view.now) Phase.Birth node.now) }
{
    if is_new_cell(view, Some(node)) {
        let links = birth_links(alloc, view, &node.shape)?;
        new_cells(alloc, view, links.as_slice())
    } else {
        Ok(Seq::new(alloc))
    }
}

/// Those of the names that are of cells that were born at the time.
fn new_cells<V: View>(alloc: Global, view: &V, names: &[Name]) -> Result<Seq<Name>, Memory>
    ensures { IfOk result (λ ns. ns ≡ filter (λ n. graph.is_new_cell (V.sight view.now) ((V.sight view.now).node n)) names.now) }
{
    let mut cells = Seq::new(alloc);
    for name in names {
        if is_new_cell(view, view.node(name)) {
            cells.add(name.copy()?)?;
        }
    }
    Ok(cells)
}

/// Whether a node is a cell that was born at the time.
fn is_new_cell<V: View>(view: &V, node: Option<&Node>) -> bool
    ensures { result ≡ graph.is_new_cell (V.sight view.now) (option_copied node.entry) }
{
    match node {
        Some(node) => is_new(view, &node.name) && matches!(node.ty, Ty::Cell(_)),
        None => false,
    }
}

/// Whether the node of a name was born at the time.
fn is_new<V: View>(view: &V, name: &Name) -> bool
    ensures { result ≡ graph.is_new (V.sight view.now) name.now }
{
    name.birth().is(view.time())
}

/// The links of a shape during the moment.
fn during_links<V: View>(alloc: Global, view: &V, shape: &Shape) -> Result<Seq<Name>, Memory>
    requires befores { HaveBefores (V.sight view.now) }
    requires switch { SwitchRefers (V.sight view.now) shape.now }
    ensures { IfOk result (λ ns. ns ≡ graph.during_links (V.sight view.now) (post_in (V.sight view.now)) shape.now) }
{
    match shape {
        Shape::Switchs { c } => targets(alloc, before(view, c)),
        Shape::Switchc { c } => with_targets(alloc, c, after(view, c)),
        _ => fixed_links(alloc, shape),
    }
}

/// The links of a shape after the moment.
fn after_links<V: View>(alloc: Global, view: &V, shape: &Shape) -> Result<Seq<Name>, Memory>
    requires befores { HaveBefores (V.sight view.now) }
    requires switch { SwitchRefers (V.sight view.now) shape.now }
    ensures { IfOk result (λ ns. ns ≡ graph.after_links (V.sight view.now) (post_in (V.sight view.now)) shape.now) }
{
    match shape {
        Shape::Switchs { c } => targets(alloc, after(view, c)),
        Shape::Switchc { c } => with_targets(alloc, c, after(view, c)),
        _ => fixed_links(alloc, shape),
    }
}

/// The links of a shape at birth.
fn birth_links<V: View>(alloc: Global, view: &V, shape: &Shape) -> Result<Seq<Name>, Memory>
    requires befores { HaveBefores (V.sight view.now) }
    requires switch { SwitchRefers (V.sight view.now) shape.now }
    ensures { IfOk result (λ ns. ns ≡ graph.birth_links (V.sight view.now) (post_in (V.sight view.now)) shape.now) }
{
    match shape {
        Shape::Mapc { c, .. } => one(alloc, c),
        Shape::Apply { cf, ca } => two(alloc, cf, ca),
        Shape::Loop { to } => one(alloc, to),
        Shape::Switchc { c } => with_targets(alloc, c, before(view, c)),
        _ => Ok(Seq::new(alloc)),
    }
}

/// The links of a shape that are the same during the moment and after it.
fn fixed_links(alloc: Global, shape: &Shape) -> Result<Seq<Name>, Memory>
    ensures { IfOk result (λ ns. ns ≡ graph.fixed_links shape.now) }
{
    match shape {
        Shape::Sink | Shape::Never | Shape::Constant | Shape::Split { .. } => Ok(Seq::new(alloc)),
        Shape::Switchs { .. } | Shape::Switchc { .. } => Ok(Seq::new(alloc)),
        Shape::Map { s, .. } | Shape::Filter { s, .. } | Shape::Filteropt { s } => one(alloc, s),
        Shape::Snapshot { s, .. } | Shape::Hold { s } | Shape::Execute { s, .. } => one(alloc, s),
        Shape::Updates { c } | Shape::Value { c } | Shape::Mapc { c, .. } => one(alloc, c),
        Shape::Loop { to } => one(alloc, to),
        Shape::Merge { a, b, .. } => two(alloc, a, b),
        Shape::Apply { cf, ca } => two(alloc, cf, ca),
    }
}

fn one(alloc: Global, name: &Name) -> Result<Seq<Name>, Memory>
    ensures { IfOk result (λ ns. ns ≡ name.now ∷ []) }
{
    let mut names = Seq::new(alloc);
    names.add(name.copy()?)?;
    Ok(names)
}

fn two(alloc: Global, name: &Name, other: &Name) -> Result<Seq<Name>, Memory>
    ensures { IfOk result (λ ns. ns ≡ name.now ∷ other.now ∷ []) }
{
    let mut names = one(alloc, name)?;
    names.add(other.copy()?)?;
    Ok(names)
}

/// The node that a value refers to, where there is one.
fn targets(alloc: Global, value: Option<&Val>) -> Result<Seq<Name>, Memory>
    requires { IsTrue (is_reference_or_none (option_copied value)) }
    ensures { IfOk result (λ ns. ns ≡ graph.targets (option_copied value.entry)) }
{
    match value {
        Some(v) => one(alloc, target(v)),
        None => Ok(Seq::new(alloc)),
    }
}

/// A name, and the node that a value refers to, where there is one.
fn with_targets(alloc: Global, name: &Name, value: Option<&Val>) -> Result<Seq<Name>, Memory>
    requires { IsTrue (is_reference_or_none (option_copied value)) }
    ensures { IfOk result (λ ns. ns ≡ name.now ∷ graph.targets (option_copied value.entry)) }
{
    match value {
        Some(v) => two(alloc, name, target(v)),
        None => one(alloc, name),
    }
}

/// The node that a reference names.
fn target(value: &Val) -> &Name
    requires { IsTrue (refers_in (out-Val value.now)) }
    ensures { result.now ≡ apply.target value.now }
{
    match value {
        Val::Stream(n) => n,
        Val::Cell(n) => n,
        _ => unreachable!(),
    }
}

/// The value before the time of a live cell, where it has one.
fn before<'a, V: View>(view: &'a V, c: &Name) -> Option<&'a Val>
    requires befores { HaveBefores (V.sight view.now) }
    requires live { IsTrue (is_some ((V.sight view.now).node c.now)) }
    ensures { option_copied result ≡ (V.sight view.now).pre c.now }
{
    match view.node(c) {
        Some(node) => match &node.first {
            Some(_) => Some(view.pre(c)),
            None => None,
        },
        None => None,
    }
}

/// The value after the time of a live cell, where it has one.
fn after<'a, V: View>(view: &'a V, c: &Name) -> Option<&'a Val>
    requires befores { HaveBefores (V.sight view.now) }
    requires live { IsTrue (is_some ((V.sight view.now).node c.now)) }
    ensures { option_copied result ≡ post_in (V.sight view.now) c.now }
{
    match view.occ(c) {
        Some(v) => Some(v),
        None => before(view, c),
    }
}
