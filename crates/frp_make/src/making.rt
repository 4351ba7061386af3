//! The nodes of the file, and those of an instance.
ghost use Rattle.std.specs.Prelude.{◌≡◌, ◌<◌, ◌∷◌, length, slice_get, Some, None, is_some, option_map, IfOk, IsTrue};
ghost use Rattle.std.specs.Option.{option_copied};
ghost use Rattle.frp_base.specs.declared.name.Name.{Name};
ghost use Rattle.frp_base.specs.Name.{made_name};
ghost use Rattle.frp_expr.specs.Eval.{eval};
ghost use Rattle.frp_graph.specs.declared.prog.Body.{Body};
ghost use Rattle.frp_graph.specs.TypedProg.{IsTypedProg};
ghost use Rattle.frp_graph.specs.WellFormed.{IsWellFormed, HasFirsts};
ghost use Rattle.frp_graph.specs.Births.{Instance, build, size_of, plans_from, file_plans};
ghost use Rattle.frp_make.specs.Lines.{name_by};
ghost use Rattle.frp_make.specs.Making.{CanMake, HasNotMade, instance_of, IsMakeOut, IsFirstOut};
ghost use Rattle.frp_make.specs.Bodies.{ArePlanned, CanBeMade, IsInstanceOver};

use crate::body::{drafts, size, values};
use crate::finding::births;
use crate::made::{FirstOut, Made, MakeOut};
use frp_base::{Memory, Name, Seq, Val};
use frp_expr::{Expr, eval};
use frp_graph::{Body, Line3, Prog, Shape, View};
use std::alloc::Global;

/// How many nodes an instance of a template has.
pub fn instance_size(prog: &Prog, template: u32) -> u64
    requires { template < length prog.now.templates }
    ensures { (body : Body) → slice_get prog.now.templates template ≡ Some body → result ≡ size_of body.lines }
{
    size(
        prog.templates.as_slice()[template as usize]
            .lines
            .as_slice(),
    )
}

/// What the template of a live execute makes of a value at the time of the view: its nodes with their first values and what it
/// gives, or the nodes and a closed chain of Birth among them, exactly where there is one.
pub fn instance<V: View>(
    alloc: Global,
    view: &V,
    maker: &Name,
    value: &Val,
) -> Result<MakeOut, Memory>
    requires formed { IsWellFormed (V.prog_of view.now) (V.sight view.now) }
    requires firsts { HasFirsts (V.sight view.now) }
    requires execute { CanMake (V.prog_of view.now) (V.sight view.now) maker.now value.now }
    requires fresh { HasNotMade (V.sight view.now) maker.now }
    ensures { IfOk result (IsMakeOut (V.prog_of view.now) (V.sight view.now) (instance_of (V.prog_of view.now) (V.sight view.now) maker.now value.now)) }
{
    match view.node(maker) {
        Some(node) => match &node.shape {
            Shape::Execute { template, kept, .. } => {
                let given = given(alloc, value, kept.as_slice())?;
                let body = &view.program().templates.as_slice()[*template as usize];
                of_template(alloc, view, maker, given, body)
            }
            _ => unreachable!(),
        },
        None => unreachable!(),
    }
}

/// The values that a template's body is given: the one that the execute's source has, and the kept ones.
fn given(alloc: Global, value: &Val, kept: &[Val]) -> Result<Seq<Val>, Memory>
    ensures { IfOk result (λ vs. vs ≡ value.now ∷ kept.now) }
{
    let mut given = Seq::new(alloc);
    given.add(value.copy(alloc)?)?;
    for value in kept {
        given.add(value.copy(alloc)?)?;
    }
    Ok(given)
}

/// What the body of a template makes, over the values that it is given.
fn of_template<V: View>(
    alloc: Global,
    view: &V,
    maker: &Name,
    given: Seq<Val>,
    body: &Body,
) -> Result<MakeOut, Memory>
    requires firsts { HasFirsts (V.sight view.now) }
    requires body { CanBeMade (V.prog_of view.now) (V.sight view.now) (made_name maker.now (V.sight view.now).time) given body.now.lines }
    requires gives { IsTrue (is_some body.now.give) }
    ensures { IfOk result (λ out. (i : Instance) → IsInstanceOver (V.sight view.now) maker.now given body.now i → IsMakeOut (V.prog_of view.now) (V.sight view.now) (Some i) out) }
{
    let before = given.as_slice().len();
    let lines = body.lines.as_slice();
    let values = values(alloc, view, Some(maker), given, lines)?;
    match born(alloc, view, Some(maker), values.as_slice(), before, lines)? {
        FirstOut::Made(nodes) => {
            let result = result(alloc, values.as_slice(), &body.give)?;
            Ok(MakeOut::Made(Made { nodes, result }))
        }
        FirstOut::Chain(nodes, chain) => Ok(MakeOut::Chain(nodes, chain)),
    }
}

/// What a template gives, over the values of its body.
fn result(alloc: Global, values: &[Val], give: &Option<Expr>) -> Result<Val, Memory>
    requires { IsTrue (is_some give.now) }
    ensures { IfOk result (λ v. option_map (λ e. eval e values.now) give.now ≡ Some v) }
{
    match give {
        Some(e) => eval(alloc, e, values),
        None => unreachable!(),
    }
}

/// The nodes of the file with their first values, at the build, or the nodes and a closed chain of Birth among them, exactly where
/// there is one.
pub fn first_nodes<V: View>(alloc: Global, view: &V) -> Result<FirstOut, Memory>
    requires program { IsTypedProg (V.prog_of view.now) }
    requires time { (V.sight view.now).time ≡ build }
    requires empty { (n : Name) → (V.sight view.now).node n ≡ None }
    ensures { IfOk result (IsFirstOut (V.prog_of view.now) (V.sight view.now) (file_plans (V.prog_of view.now))) }
{
    let lines = view.program().body.lines.as_slice();
    let values = values(alloc, view, None, Seq::new(alloc), lines)?;
    born(alloc, view, None, values.as_slice(), 0, lines)
}

/// The nodes of a body's lines with their first values, or the nodes and a closed chain of Birth among them, exactly where there is
/// one. `all` are the values of the body, of which the first, `given` many, stand before the lines.
fn born<V: View>(
    alloc: Global,
    view: &V,
    maker: Option<&Name>,
    all: &[Val],
    given: usize,
    lines: &[Line3],
) -> Result<FirstOut, Memory>
    requires firsts { HasFirsts (V.sight view.now) }
    requires lines { ArePlanned (V.prog_of view.now) (V.sight view.now) (name_by (option_copied maker) (V.sight view.now).time) all.now given lines.now }
    ensures { IfOk result (IsFirstOut (V.prog_of view.now) (V.sight view.now) (plans_from (name_by (option_copied maker.entry) (V.sight view.now).time) all.now 0 given lines.now)) }
{
    let drafts = drafts(alloc, view, maker, all, given, lines)?;
    births(alloc, view, drafts)
}
