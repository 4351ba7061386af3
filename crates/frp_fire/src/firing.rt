ghost use Rattle.std.specs.Prelude.{◌≡◌, [], IfOk, IsTrue};
ghost use Rattle.frp_graph.specs.Roles.{role};
ghost use Rattle.frp_graph.specs.Equations.{row};
ghost use Rattle.frp_graph.specs.Evidence.{has_reads};
ghost use Rattle.frp_graph.specs.WellFormed.{IsWellFormed, HasFirsts};
ghost use Rattle.frp_fire.specs.Fires.{is_fired, IsFiredAt, row_at, has_target};

use crate::rows::{
    applied, copied, filtered, mapped, merged, present, snapshot, split_item, switchc, switchs,
    value,
};
use frp_base::{Memory, Name, Val};
use frp_graph::{Node, Shape, View};
use std::alloc::Global;

/// The value of a live node at the time of the view, by its row, as things stand: a stream's occurrence, or a cell's step. A
/// node that is not live has none.
pub fn fire<V: View>(alloc: Global, view: &V, n: &Name) -> Result<Option<Val>, Memory>
    requires formed { IsWellFormed (V.prog_of view.now) (V.sight view.now) }
    requires firsts { HasFirsts (V.sight view.now) }
    requires fired { IsFiredAt (V.sight view.now) n.now }
    ensures { IfOk result (λ o. o ≡ row_at (V.prog_of view.now) (V.sight view.now) n.now) }
{
    match view.node(n) {
        Some(node) => row(alloc, view, node),
        None => Ok(None),
    }
}

/// What the row of a node gives.
fn row<V: View>(alloc: Global, view: &V, node: &Node) -> Result<Option<Val>, Memory>
    requires fired { IsTrue (is_fired (role node.now.shape)) }
    requires reads { IsTrue (has_reads (V.prog_of view.now) (V.sight view.now) node.now node.now.shape) }
    requires target { IsTrue (has_target (V.sight view.now) node.now.shape) }
    ensures { IfOk result (λ o. o ≡ row (V.prog_of view.now) [] (V.sight view.now) node.now node.now.shape) }
{
    match &node.shape {
        Shape::Never | Shape::Constant => Ok(None),
        Shape::Map { f, s } => mapped(alloc, view, f, s),
        Shape::Filter { f, s } => filtered(alloc, view, f, s),
        Shape::Filteropt { s } => present(alloc, view, s),
        Shape::Merge { f, a, b } => merged(alloc, view, f, a, b),
        Shape::Snapshot { f, s, c } => snapshot(alloc, view, f, s, c),
        Shape::Updates { c } => copied(alloc, view.occ(c)),
        Shape::Value { c } => value(alloc, view, node, c),
        Shape::Loop { to } => copied(alloc, view.occ(to)),
        Shape::Hold { s } => copied(alloc, view.occ(s)),
        Shape::Mapc { f, c } => mapped(alloc, view, f, c),
        Shape::Apply { cf, ca } => applied(alloc, view, cf, ca),
        Shape::Switchs { c } => switchs(alloc, view, c),
        Shape::Switchc { c } => switchc(alloc, view, node, c),
        Shape::Split { s } => split_item(alloc, view, node, s),
        Shape::Sink | Shape::Execute { .. } => unreachable!(),
    }
}
