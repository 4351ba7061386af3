//! The values of a body and the nodes that its lines make.
ghost use Rattle.std.specs.Prelude.{◌≡◌, ◌≤◌, ◌+◌, ◌++◌, [], ◌∷◌, length, map, Some, is_some, IfOk, OnOk, IsTrue};
ghost use Rattle.std.specs.Option.{option_copied};
ghost use Rattle.frp_graph.specs.Births.{reference, node_of, size_of, values_from, plans_from};
ghost use Rattle.frp_make.specs.Lines.{name_by, refers, draft_of, HasValue, value_of, AreReady, HasAll};

use crate::lines::{draft, operand};
use frp_base::{Memory, Name, Seq, Ty, Val};
use frp_expr::Expr;
use frp_graph::{Line3, Node, View};
use std::alloc::Global;

/// The name of the node of item `item`: of the file, or of the body that a node makes at the time.
fn name_of<V: View>(
    alloc: Global,
    view: &V,
    maker: Option<&Name>,
    item: u64,
) -> Result<Name, Memory>
    ensures { IfOk result (λ n. n ≡ name_by (option_copied maker.entry) (V.sight view.now).time item) }
{
    match maker {
        Some(maker) => maker.made(view.time(), item),
        None => Name::declared(alloc, item),
    }
}

/// All the values of a body: those that it is given, and for each line the reference to its node or the value that is got.
pub fn values<V: View>(
    alloc: Global,
    view: &V,
    maker: Option<&Name>,
    given: Seq<Val>,
    lines: &[Line3],
) -> Result<Seq<Val>, Memory>
    requires { HasAll (name_by (option_copied maker) (V.sight view.now).time) (V.sight view.now).pre given lines.now }
    ensures { IfOk result (λ vs. values_from (name_by (option_copied maker.entry) (V.sight view.now).time) (V.sight view.now).pre 0 given lines.now ≡ Some vs) }
{
    let mut values = given;
    let mut made = 0;
    for line in lines {
        values.add(value(alloc, view, maker, made, values.as_slice(), line)?)?;
        made += nodes_of(line);
    }
    Ok(values)
}

/// How many nodes these lines make.
pub fn size(lines: &[Line3]) -> u64
    ensures { result ≡ size_of lines.now }
{
    let mut size = 0;
    for line in lines {
        size += nodes_of(line);
    }
    size
}

/// How many nodes a line makes.
fn nodes_of(line: &Line3) -> u64
    ensures { result ≡ size_of (line.now ∷ []) }
{
    match line {
        Line3::Node { .. } => 1,
        Line3::Get { .. } => 0,
    }
}

/// The value of a line after `made` nodes, over the values before it.
fn value<V: View>(
    alloc: Global,
    view: &V,
    maker: Option<&Name>,
    made: u64,
    values: &[Val],
    line: &Line3,
) -> Result<Val, Memory>
    requires { HasValue (V.sight view.now).pre values.now line.now }
    ensures { IfOk result (λ v. value_of (name_by (option_copied maker.entry) (V.sight view.now).time) (V.sight view.now).pre made values.now line.now ≡ Some v) }
{
    match line {
        Line3::Node { ty, .. } => Ok(reference(ty, name_of(alloc, view, maker, made)?)),
        Line3::Get { c } => got(alloc, view, values, c.get()),
    }
}

/// The value before the time of the cell that an operand refers to.
fn got<V: View>(alloc: Global, view: &V, values: &[Val], c: &Expr) -> Result<Val, Memory>
    requires refers { IsTrue (refers values.now c.now) }
    requires there { IsTrue (is_some ((V.sight view.now).pre (node_of values.now c.now))) }
    ensures { IfOk result (λ v. (V.sight view.now).pre (node_of values.now c.now) ≡ Some v) }
{
    let cell = operand(alloc, values, c)?;
    view.pre(&cell).copy(alloc)
}

/// The reference to a node of a type.
fn reference(ty: &Ty, name: Name) -> Val
    ensures { result ≡ reference ty.now name }
{
    match ty {
        Ty::Cell(_) => Val::Cell(name),
        _ => Val::Stream(name),
    }
}

/// The nodes of the lines, each without its first value but where that is given; `given` are the values before the lines.
pub fn drafts<V: View>(
    alloc: Global,
    view: &V,
    maker: Option<&Name>,
    all: &[Val],
    given: usize,
    lines: &[Line3],
) -> Result<Vec<Node>, Memory>
    requires ready { AreReady all.now given lines.now }
    requires long { length all.now ≡ given + length lines.now }
    ensures { IfOk result (λ nodes. nodes.items ≡ map draft_of (plans_from (name_by (option_copied maker.entry) (V.sight view.now).time) all.now 0 given lines.now)) }
{
    let mut nodes = Vec::new(alloc);
    for (i, line) in lines.iter().enumerate() {
        add_draft(alloc, view, maker, all, given + i, line, &mut nodes)?;
    }
    Ok(nodes)
}

/// Adds the node of a line, where it makes one, to those before; `before` is the number of the line's value.
fn add_draft<V: View>(
    alloc: Global,
    view: &V,
    maker: Option<&Name>,
    all: &[Val],
    before: usize,
    line: &Line3,
    nodes: &mut Vec<Node>,
) -> Result<(), Memory>
    requires ready { AreReady all.now before (line.now ∷ []) }
    requires long { before ≤ length all.now }
    ensures { OnOk result (nodes.new.items ≡ nodes.old.items ++ map draft_of (plans_from (name_by (option_copied maker.entry) (V.sight view.now).time) all.now (length nodes.old.items) before (line.now ∷ []))) }
{
    match line {
        Line3::Node { ty, shape } => {
            let name = name_of(alloc, view, maker, nodes.len() as u64)?;
            nodes.push(draft(alloc, all, before, name, ty, shape)?)?;
            Ok(())
        }
        Line3::Get { .. } => Ok(()),
    }
}
