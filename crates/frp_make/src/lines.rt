//! The node that a line makes, over the values before it.
ghost use Rattle.std.specs.Prelude.{◌≡◌, ◌≤◌, length, map, take, slice_index_or, IfOk, IsTrue};
ghost use Rattle.frp_expr.specs.Eval.{eval};
ghost use Rattle.frp_expr.specs.Parts.{zero_val};
ghost use Rattle.frp_graph.specs.declared.shape.Shape.TheVariants as shapes;
ghost use Rattle.frp_graph.specs.Applied.{target};
ghost use Rattle.frp_graph.specs.Births.{lam_of, node_of, shape_of, given_by};
ghost use Rattle.frp_make.specs.Lines.{is_reference, refers, has_operands, draft_of};

use frp_base::{Memory, Name, Seq, Ty, Val};
use frp_expr::{Expr, eval};
use frp_graph::{Lam, LineLam, LineShape, Node, Shape};
use std::alloc::Global;

/// The node of a line of this type and shape, the values before which are the first of all the values of the body. It has no
/// first value yet, but where the line gives one.
pub fn draft(
    alloc: Global,
    all: &[Val],
    before: usize,
    name: Name,
    ty: &Ty,
    shape: &LineShape,
) -> Result<Node, Memory>
    requires before { before ≤ length all.now }
    requires operands { IsTrue (has_operands all.now (take before all.now) shape.now) }
    ensures { IfOk result (λ x. x ≡ draft_of (record { name = name; shape = shape_of all.now (take before all.now) shape.now; ty = ty.now; given = given_by (take before all.now) shape.now })) }
{
    let values = &all[..before];
    let ty = ty.copy(alloc)?;
    let first = given(alloc, values, shape)?;
    let shape = shape_over(alloc, all, values, shape)?;
    Ok(Node {
        name,
        shape,
        ty,
        first,
    })
}

/// The first value that a line gives its node.
fn given(alloc: Global, values: &[Val], shape: &LineShape) -> Result<Option<Val>, Memory>
    ensures { IfOk result (λ o. o ≡ given_by values.now shape.now) }
{
    match shape {
        LineShape::Constant { o } | LineShape::Hold { o, .. } => {
            Ok(Some(eval(alloc, o.get(), values)?))
        }
        _ => Ok(None),
    }
}

/// The shape of a line, with the nodes that its operands refer to.
fn shape_over(
    alloc: Global,
    all: &[Val],
    values: &[Val],
    shape: &LineShape,
) -> Result<Shape, Memory>
    requires { IsTrue (has_operands all.now values.now shape.now) }
    ensures { IfOk result (λ r. r ≡ shape_of all.now values.now shape.now) }
{
    match shape {
        LineShape::Sink => Ok(Shape::Sink),
        LineShape::Never => Ok(Shape::Never),
        LineShape::Constant { .. } => Ok(Shape::Constant),
        LineShape::Map { f, s } => map(alloc, values, f, s.get()),
        LineShape::Filter { f, s } => filter(alloc, values, f, s.get()),
        LineShape::Filteropt { s } => filteropt(alloc, values, s.get()),
        LineShape::Merge { f, a, b } => merge(alloc, values, f, a.get(), b.get()),
        LineShape::Snapshot { f, s, c } => snapshot(alloc, values, f, s.get(), c.get()),
        LineShape::Split { s } => split(alloc, values, s.get()),
        LineShape::Updates { c } => updates(alloc, values, c.get()),
        LineShape::Value { c } => value(alloc, values, c.get()),
        LineShape::Loop { to } => tied(all, *to),
        LineShape::Hold { s, .. } => hold(alloc, values, s.get()),
        LineShape::Mapc { f, c } => mapc(alloc, values, f, c.get()),
        LineShape::Apply { cf, ca } => apply(alloc, values, cf.get(), ca.get()),
        LineShape::Switchs { c } => switchs(alloc, values, c.get()),
        LineShape::Switchc { c } => switchc(alloc, values, c.get()),
        LineShape::Execute { s, template, kept } => {
            execute(alloc, values, s.get(), *template, kept.as_slice())
        }
    }
}

fn map(alloc: Global, values: &[Val], f: &LineLam, s: &Expr) -> Result<Shape, Memory>
    requires { IsTrue (refers values.now s.now) }
    ensures { IfOk result (λ r. r ≡ shapes.Map (lam_of values.now f.now) (node_of values.now s.now)) }
{
    let f = lam(alloc, values, f)?;
    let s = operand(alloc, values, s)?;
    Ok(Shape::Map { f, s })
}

fn filter(alloc: Global, values: &[Val], f: &LineLam, s: &Expr) -> Result<Shape, Memory>
    requires { IsTrue (refers values.now s.now) }
    ensures { IfOk result (λ r. r ≡ shapes.Filter (lam_of values.now f.now) (node_of values.now s.now)) }
{
    let f = lam(alloc, values, f)?;
    let s = operand(alloc, values, s)?;
    Ok(Shape::Filter { f, s })
}

fn filteropt(alloc: Global, values: &[Val], s: &Expr) -> Result<Shape, Memory>
    requires { IsTrue (refers values.now s.now) }
    ensures { IfOk result (λ r. r ≡ shapes.Filteropt (node_of values.now s.now)) }
{
    let s = operand(alloc, values, s)?;
    Ok(Shape::Filteropt { s })
}

fn merge(alloc: Global, values: &[Val], f: &LineLam, a: &Expr, b: &Expr) -> Result<Shape, Memory>
    requires left { IsTrue (refers values.now a.now) }
    requires right { IsTrue (refers values.now b.now) }
    ensures { IfOk result (λ r. r ≡ shapes.Merge (lam_of values.now f.now) (node_of values.now a.now) (node_of values.now b.now)) }
{
    let f = lam(alloc, values, f)?;
    let a = operand(alloc, values, a)?;
    let b = operand(alloc, values, b)?;
    Ok(Shape::Merge { f, a, b })
}

fn snapshot(alloc: Global, values: &[Val], f: &LineLam, s: &Expr, c: &Expr) -> Result<Shape, Memory>
    requires stream { IsTrue (refers values.now s.now) }
    requires cell { IsTrue (refers values.now c.now) }
    ensures { IfOk result (λ r. r ≡ shapes.Snapshot (lam_of values.now f.now) (node_of values.now s.now) (node_of values.now c.now)) }
{
    let f = lam(alloc, values, f)?;
    let s = operand(alloc, values, s)?;
    let c = operand(alloc, values, c)?;
    Ok(Shape::Snapshot { f, s, c })
}

fn split(alloc: Global, values: &[Val], s: &Expr) -> Result<Shape, Memory>
    requires { IsTrue (refers values.now s.now) }
    ensures { IfOk result (λ r. r ≡ shapes.Split (node_of values.now s.now)) }
{
    let s = operand(alloc, values, s)?;
    Ok(Shape::Split { s })
}

fn updates(alloc: Global, values: &[Val], c: &Expr) -> Result<Shape, Memory>
    requires { IsTrue (refers values.now c.now) }
    ensures { IfOk result (λ r. r ≡ shapes.Updates (node_of values.now c.now)) }
{
    let c = operand(alloc, values, c)?;
    Ok(Shape::Updates { c })
}

fn value(alloc: Global, values: &[Val], c: &Expr) -> Result<Shape, Memory>
    requires { IsTrue (refers values.now c.now) }
    ensures { IfOk result (λ r. r ≡ shapes.Value (node_of values.now c.now)) }
{
    let c = operand(alloc, values, c)?;
    Ok(Shape::Value { c })
}

/// A loop to the node that is the value of this number among all the values of the body.
fn tied(all: &[Val], to: u64) -> Result<Shape, Memory>
    requires { IsTrue (is_reference (slice_index_or all.now to zero_val)) }
    ensures { IfOk result (λ r. r ≡ shapes.Loop (target (slice_index_or all.now to zero_val))) }
{
    let to = referred(&all[to as usize]).copy()?;
    Ok(Shape::Loop { to })
}

fn hold(alloc: Global, values: &[Val], s: &Expr) -> Result<Shape, Memory>
    requires { IsTrue (refers values.now s.now) }
    ensures { IfOk result (λ r. r ≡ shapes.Hold (node_of values.now s.now)) }
{
    let s = operand(alloc, values, s)?;
    Ok(Shape::Hold { s })
}

fn mapc(alloc: Global, values: &[Val], f: &LineLam, c: &Expr) -> Result<Shape, Memory>
    requires { IsTrue (refers values.now c.now) }
    ensures { IfOk result (λ r. r ≡ shapes.Mapc (lam_of values.now f.now) (node_of values.now c.now)) }
{
    let f = lam(alloc, values, f)?;
    let c = operand(alloc, values, c)?;
    Ok(Shape::Mapc { f, c })
}

fn apply(alloc: Global, values: &[Val], cf: &Expr, ca: &Expr) -> Result<Shape, Memory>
    requires function { IsTrue (refers values.now cf.now) }
    requires argument { IsTrue (refers values.now ca.now) }
    ensures { IfOk result (λ r. r ≡ shapes.Apply (node_of values.now cf.now) (node_of values.now ca.now)) }
{
    let cf = operand(alloc, values, cf)?;
    let ca = operand(alloc, values, ca)?;
    Ok(Shape::Apply { cf, ca })
}

fn switchs(alloc: Global, values: &[Val], c: &Expr) -> Result<Shape, Memory>
    requires { IsTrue (refers values.now c.now) }
    ensures { IfOk result (λ r. r ≡ shapes.Switchs (node_of values.now c.now)) }
{
    let c = operand(alloc, values, c)?;
    Ok(Shape::Switchs { c })
}

fn switchc(alloc: Global, values: &[Val], c: &Expr) -> Result<Shape, Memory>
    requires { IsTrue (refers values.now c.now) }
    ensures { IfOk result (λ r. r ≡ shapes.Switchc (node_of values.now c.now)) }
{
    let c = operand(alloc, values, c)?;
    Ok(Shape::Switchc { c })
}

fn execute(
    alloc: Global,
    values: &[Val],
    s: &Expr,
    template: u32,
    kept: &[Expr],
) -> Result<Shape, Memory>
    requires { IsTrue (refers values.now s.now) }
    ensures { IfOk result (λ r. r ≡ shapes.Execute (node_of values.now s.now) template (map (λ e. eval e values.now) kept.now)) }
{
    let kept = evaluated(alloc, values, kept)?;
    let s = operand(alloc, values, s)?;
    Ok(Shape::Execute { s, template, kept })
}

/// An expression of the program with the values that it keeps, by their positions. A position past the end counts as 0.
fn lam(alloc: Global, values: &[Val], f: &LineLam) -> Result<Lam, Memory>
    ensures { IfOk result (λ l. l ≡ lam_of values.now f.now) }
{
    let mut kept = Seq::new(alloc);
    for position in f.kept.as_slice() {
        kept.add(at(alloc, values, *position)?)?;
    }
    Ok(Lam { code: f.code, kept })
}

/// A copy of the value at a position; 0 past the end.
fn at(alloc: Global, values: &[Val], position: u64) -> Result<Val, Memory>
    ensures { IfOk result (λ v. v ≡ slice_index_or values.now position zero_val) }
{
    match values.get(position as usize) {
        Some(value) => value.copy(alloc),
        None => Ok(Val::Int(0)),
    }
}

/// The values of expressions.
fn evaluated(alloc: Global, values: &[Val], es: &[Expr]) -> Result<Seq<Val>, Memory>
    ensures { IfOk result (λ vs. vs ≡ map (λ e. eval e values.now) es.now) }
{
    let mut results = Seq::new(alloc);
    for e in es {
        results.add(eval(alloc, e, values)?)?;
    }
    Ok(results)
}

/// The node that an operand refers to.
pub fn operand(alloc: Global, values: &[Val], e: &Expr) -> Result<Name, Memory>
    requires { IsTrue (refers values.now e.now) }
    ensures { IfOk result (λ n. n ≡ node_of values.now e.now) }
{
    let value = eval(alloc, e, values)?;
    referred(&value).copy()
}

/// The node that a reference names.
pub fn referred(value: &Val) -> &Name
    requires { IsTrue (is_reference value.now) }
    ensures { result.now ≡ target value.now }
{
    match value {
        Val::Stream(n) => n,
        Val::Cell(n) => n,
        _ => unreachable!(),
    }
}
