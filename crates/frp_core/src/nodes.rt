//! The nodes of a file, as its lines make them.

ghost use Rattle.std.specs.Prelude.{◌≡◌, ◌++◌, ◌∷◌, [], IsTrue, IfOk, OnOk, length, slice_index_or};
ghost use Rattle.frp_base.specs.Name.{declared_name};
ghost use Rattle.frp_expr.specs.Parts.{zero_val};
ghost use Rattle.frp_graph.specs.TypedProg.{IsTypedProg};
ghost use Rattle.frp_graph.specs.Births.{reference, lam_of, node_of, shape_of, given_by};
ghost use Rattle.frp_core.specs.Small.{is_built, IsEarlier, IsSmall, AreSmallFrom};
ghost use Rattle.frp_core.specs.Nodes.{line_node, line_nodes, AreReady};

use frp_base::{Memory, Name, Seq, Ty, Val};
use frp_expr::eval;
use frp_graph::{Expr, Lam, Line3, LineLam, LineShape, Node, Prog, Shape};
use std::alloc::Global;

/// The nodes of a program's file, in the order of its lines.
pub fn first_nodes(alloc: Global, prog: &Prog) -> Result<Seq<Node>, Memory>
    requires typed { IsTypedProg prog.now }
    requires built { IsTrue (is_built prog.now) }
    ensures nodes { IfOk result (λ nodes. nodes ≡ line_nodes [] prog.now.body.lines) }
    ensures small { IfOk result (λ nodes. AreSmallFrom 0 nodes) }
{
    nodes_of(alloc, prog.body.lines.as_slice())
}

/// The nodes of lines whose operands refer to earlier ones.
fn nodes_of(alloc: Global, lines: &[Line3]) -> Result<Seq<Node>, Memory>
    requires { AreReady [] lines.now }
    ensures { IfOk result (λ nodes. nodes ≡ line_nodes [] lines.now) }
{
    let mut refs = Seq::new(alloc);
    let mut nodes = Seq::new(alloc);
    for line in lines {
        match line {
            Line3::Node { ty, shape } => {
                add_node(alloc, refs.as_slice(), ty, shape, &mut nodes)?;
                add_reference(alloc, ty, &mut refs)?;
            }
            Line3::Get { .. } => unreachable!(),
        }
    }
    Ok(nodes)
}

/// Adds the node of a line of this type and shape.
fn add_node(
    alloc: Global,
    refs: &[Val],
    ty: &Ty,
    shape: &LineShape,
    nodes: &mut Seq<Node>,
) -> Result<(), Memory>
    requires { IsSmall (length refs.now) (shape_of refs.now refs.now shape.now) }
    ensures { OnOk result (nodes.new ≡ nodes.old ++ line_node refs.now ty.now shape.now ∷ []) }
{
    let node = node(alloc, refs, ty, shape)?;
    nodes.add(node)
}

/// Adds the reference to the next node, which is of this type.
fn add_reference(alloc: Global, ty: &Ty, refs: &mut Seq<Val>) -> Result<(), Memory>
    ensures { OnOk result (refs.new ≡ refs.old ++ reference ty.now (declared_name (length refs.old)) ∷ []) }
{
    let name = Name::declared(alloc, refs.as_slice().len() as u64)?;
    refs.add(reference(ty, name))
}

/// The node of a line of this type and shape, over references to the nodes of the lines before it.
fn node(alloc: Global, refs: &[Val], ty: &Ty, shape: &LineShape) -> Result<Node, Memory>
    requires { IsSmall (length refs.now) (shape_of refs.now refs.now shape.now) }
    ensures { IfOk result (λ node. node ≡ line_node refs.now ty.now shape.now) }
{
    let name = Name::declared(alloc, refs.len() as u64)?;
    let ty = ty.copy(alloc)?;
    let first = given_by(alloc, refs, shape)?;
    let shape = node_shape(alloc, refs, shape)?;
    Ok(Node {
        name,
        shape,
        ty,
        first,
    })
}

/// The reference to a node of this type.
fn reference(ty: &Ty, name: Name) -> Val
    ensures { result ≡ reference ty.now name }
{
    if let Ty::Cell(_) = ty {
        Val::Cell(name)
    } else {
        Val::Stream(name)
    }
}

/// The shape of a line, with its operands.
fn node_shape(alloc: Global, refs: &[Val], shape: &LineShape) -> Result<Shape, Memory>
    requires { IsSmall (length refs.now) (shape_of refs.now refs.now shape.now) }
    ensures { IfOk result (λ s. s ≡ shape_of refs.now refs.now shape.now) }
{
    match shape {
        LineShape::Sink => Ok(Shape::Sink),
        LineShape::Never => Ok(Shape::Never),
        LineShape::Map { f, s } => Ok(Shape::Map {
            f: lam(alloc, refs, f)?,
            s: operand(alloc, refs, s.get())?,
        }),
        LineShape::Filter { f, s } => Ok(Shape::Filter {
            f: lam(alloc, refs, f)?,
            s: operand(alloc, refs, s.get())?,
        }),
        LineShape::Hold { s, .. } => Ok(Shape::Hold {
            s: operand(alloc, refs, s.get())?,
        }),
        _ => unreachable!(),
    }
}

/// The first value that a line gives its node, if any.
fn given_by(alloc: Global, refs: &[Val], shape: &LineShape) -> Result<Option<Val>, Memory>
    ensures { IfOk result (λ first. first ≡ given_by refs.now shape.now) }
{
    match shape {
        LineShape::Constant { o } => Ok(Some(eval(alloc, o.get(), refs)?)),
        LineShape::Hold { o, .. } => Ok(Some(eval(alloc, o.get(), refs)?)),
        _ => Ok(None),
    }
}

/// An expression of the program with its kept values.
fn lam(alloc: Global, refs: &[Val], f: &LineLam) -> Result<Lam, Memory>
    ensures { IfOk result (λ g. g ≡ lam_of refs.now f.now) }
{
    let mut kept = Seq::new(alloc);
    for position in f.kept.as_slice() {
        kept.add(value_or_zero(alloc, refs, *position)?)?;
    }
    Ok(Lam { code: f.code, kept })
}

/// The value at a position, or 0 where there is none.
fn value_or_zero(alloc: Global, values: &[Val], position: u64) -> Result<Val, Memory>
    ensures { IfOk result (λ v. v ≡ slice_index_or values.now position zero_val) }
{
    match values.get(position as usize) {
        Some(value) => value.copy(alloc),
        None => Ok(Val::Int(0)),
    }
}

/// The node that an operand refers to.
fn operand(alloc: Global, refs: &[Val], e: &Expr) -> Result<Name, Memory>
    requires { IsEarlier (length refs.now) (node_of refs.now e.now) }
    ensures { IfOk result (λ n. n ≡ node_of refs.now e.now) }
{
    match eval(alloc, e, refs)? {
        Val::Stream(name) => Ok(name),
        Val::Cell(name) => Ok(name),
        _ => unreachable!(),
    }
}
