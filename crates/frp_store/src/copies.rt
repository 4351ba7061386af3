ghost use Rattle.std.specs.Prelude.{◌≡◌, IfOk};
ghost use Rattle.frp_graph.specs.declared.shape.Shape.TheVariants.{Map, Filter, Merge, Snapshot, Mapc, Apply, Execute};

use frp_base::{Memory, Name, Seq, Val};
use frp_graph::{Lam, Node, Shape};
use std::alloc::Global;

/// A node equal to this one.
pub fn copy_node(alloc: Global, node: &Node) -> Result<Node, Memory>
    ensures { IfOk result (λ x. x ≡ node.now) }
{
    let name = node.name.copy()?;
    let ty = node.ty.copy(alloc)?;
    let first = copy_option(alloc, &node.first)?;
    let shape = copy_shape(alloc, &node.shape)?;
    Ok(Node {
        name,
        shape,
        ty,
        first,
    })
}

/// A value equal to this one, where there is one.
pub fn copy_option(alloc: Global, value: &Option<Val>) -> Result<Option<Val>, Memory>
    ensures { IfOk result (λ o. o ≡ value.now) }
{
    match value {
        Some(value) => Ok(Some(value.copy(alloc)?)),
        None => Ok(None),
    }
}

/// A shape equal to this one.
fn copy_shape(alloc: Global, shape: &Shape) -> Result<Shape, Memory>
    ensures { IfOk result (λ s. s ≡ shape.now) }
{
    match shape {
        Shape::Sink => Ok(Shape::Sink),
        Shape::Never => Ok(Shape::Never),
        Shape::Constant => Ok(Shape::Constant),
        Shape::Map { f, s } => copy_map(alloc, f, s),
        Shape::Filter { f, s } => copy_filter(alloc, f, s),
        Shape::Filteropt { s } => Ok(Shape::Filteropt { s: s.copy()? }),
        Shape::Merge { f, a, b } => copy_merge(alloc, f, a, b),
        Shape::Snapshot { f, s, c } => copy_snapshot(alloc, f, s, c),
        Shape::Split { s } => Ok(Shape::Split { s: s.copy()? }),
        Shape::Updates { c } => Ok(Shape::Updates { c: c.copy()? }),
        Shape::Value { c } => Ok(Shape::Value { c: c.copy()? }),
        Shape::Loop { to } => Ok(Shape::Loop { to: to.copy()? }),
        Shape::Hold { s } => Ok(Shape::Hold { s: s.copy()? }),
        Shape::Mapc { f, c } => copy_mapc(alloc, f, c),
        Shape::Apply { cf, ca } => copy_apply(cf, ca),
        Shape::Switchs { c } => Ok(Shape::Switchs { c: c.copy()? }),
        Shape::Switchc { c } => Ok(Shape::Switchc { c: c.copy()? }),
        Shape::Execute { s, template, kept } => copy_execute(alloc, s, *template, kept.as_slice()),
    }
}

fn copy_map(alloc: Global, f: &Lam, s: &Name) -> Result<Shape, Memory>
    ensures { IfOk result (λ shape. shape ≡ Map f.now s.now) }
{
    let s = s.copy()?;
    let f = copy_lam(alloc, f)?;
    Ok(Shape::Map { f, s })
}

fn copy_filter(alloc: Global, f: &Lam, s: &Name) -> Result<Shape, Memory>
    ensures { IfOk result (λ shape. shape ≡ Filter f.now s.now) }
{
    let s = s.copy()?;
    let f = copy_lam(alloc, f)?;
    Ok(Shape::Filter { f, s })
}

fn copy_merge(alloc: Global, f: &Lam, a: &Name, b: &Name) -> Result<Shape, Memory>
    ensures { IfOk result (λ shape. shape ≡ Merge f.now a.now b.now) }
{
    let a = a.copy()?;
    let b = b.copy()?;
    let f = copy_lam(alloc, f)?;
    Ok(Shape::Merge { f, a, b })
}

fn copy_snapshot(alloc: Global, f: &Lam, s: &Name, c: &Name) -> Result<Shape, Memory>
    ensures { IfOk result (λ shape. shape ≡ Snapshot f.now s.now c.now) }
{
    let s = s.copy()?;
    let c = c.copy()?;
    let f = copy_lam(alloc, f)?;
    Ok(Shape::Snapshot { f, s, c })
}

fn copy_mapc(alloc: Global, f: &Lam, c: &Name) -> Result<Shape, Memory>
    ensures { IfOk result (λ shape. shape ≡ Mapc f.now c.now) }
{
    let c = c.copy()?;
    let f = copy_lam(alloc, f)?;
    Ok(Shape::Mapc { f, c })
}

fn copy_apply(cf: &Name, ca: &Name) -> Result<Shape, Memory>
    ensures { IfOk result (λ shape. shape ≡ Apply cf.now ca.now) }
{
    let cf = cf.copy()?;
    let ca = ca.copy()?;
    Ok(Shape::Apply { cf, ca })
}

fn copy_execute(alloc: Global, s: &Name, template: u32, kept: &[Val]) -> Result<Shape, Memory>
    ensures { IfOk result (λ shape. shape ≡ Execute s.now template kept.now) }
{
    let s = s.copy()?;
    let kept = copy_values(alloc, kept)?;
    Ok(Shape::Execute { s, template, kept })
}

fn copy_lam(alloc: Global, f: &Lam) -> Result<Lam, Memory>
    ensures { IfOk result (λ g. g ≡ f.now) }
{
    let kept = copy_values(alloc, f.kept.as_slice())?;
    Ok(Lam { code: f.code, kept })
}

fn copy_values(alloc: Global, values: &[Val]) -> Result<Seq<Val>, Memory>
    ensures { IfOk result (λ copies. copies ≡ values.now) }
{
    let mut copies = Seq::new(alloc);
    for value in values {
        copies.add(value.copy(alloc)?)?;
    }
    Ok(copies)
}
