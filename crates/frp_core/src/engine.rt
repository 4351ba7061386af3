//! The plain engine: at each moment it takes all nodes in the order of the items.

ghost use Rattle.std.specs.Prelude.{◌≡◌, [], ◌∷◌, IfOk, Some, length};
ghost use Rattle.std.specs.Option.{option_copied};
ghost use Rattle.frp_graph.specs.Applied.{code_on};
ghost use Rattle.frp_base.specs.declared.val.Val.{out-Val};
ghost use Rattle.frp_graph.specs.Equations.{row, keep_if};
ghost use Rattle.frp_expr.specs.Parts.{bool_in};
ghost use Rattle.frp_core.specs.Small.{AreSmallFrom, IsSmall};
ghost use Rattle.frp_core.specs.Engine.{occ_at, sent_to, sends_of_fact, sees, AreSettled, facts_of, AreFacts};

use frp_base::{Memory, Name, Seq, Val};
use frp_expr::eval;
use frp_graph::{Expr, Fact, Lam, Node, Prog, Shape};
use std::alloc::Global;

/// The facts of the moment at the time of `place`, where this is sent.
pub fn settle(
    alloc: Global,
    prog: &Prog,
    nodes: &[Node],
    place: u64,
    sent: Option<&Fact>,
) -> Result<Seq<Fact>, Memory>
    requires { AreSmallFrom 0 nodes.now }
    ensures { IfOk result (λ fs. AreFacts prog.now nodes.now place (option_copied sent.entry) fs) }
{
    let occs = occurrences(alloc, prog, nodes, place, sent)?;
    facts(alloc, nodes, occs.as_slice())
}

/// Each node's occurrence or none, in the order of the nodes.
fn occurrences(
    alloc: Global,
    prog: &Prog,
    nodes: &[Node],
    place: u64,
    sent: Option<&Fact>,
) -> Result<Seq<Option<Val>>, Memory>
    requires { AreSmallFrom 0 nodes.now }
    ensures { IfOk result (λ os. AreSettled prog.now place (option_copied sent.entry) [] nodes.now os) }
{
    let mut occs = Seq::new(alloc);
    for node in nodes {
        let occ = occurrence(alloc, prog, place, sent, occs.as_slice(), node)?;
        occs.add(occ)?;
    }
    Ok(occs)
}

/// The occurrence of a node over those of the nodes before it.
#[tactic(auto, using(crate::proofs::Settling::one_sent))]
fn occurrence(
    alloc: Global,
    prog: &Prog,
    place: u64,
    sent: Option<&Fact>,
    occs: &[Option<Val>],
    node: &Node,
) -> Result<Option<Val>, Memory>
    requires { IsSmall (length occs.now) node.now.shape }
    ensures { IfOk result (λ o. o ≡ row prog.now (sends_of_fact place (option_copied sent.entry)) (sees place occs.now) node.now node.now.shape) }
{
    match &node.shape {
        Shape::Sink => sent_to(alloc, sent, &node.name),
        Shape::Never => Ok(None),
        Shape::Map { f, s } => match occurrence_of(occs, s) {
            Some(value) => Ok(Some(code_on(alloc, prog.codes.as_slice(), f, value)?)),
            None => Ok(None),
        },
        Shape::Filter { f, s } => match occurrence_of(occs, s) {
            Some(value) => kept(alloc, prog.codes.as_slice(), f, value),
            None => Ok(None),
        },
        Shape::Hold { s } => match occurrence_of(occs, s) {
            Some(value) => Ok(Some(value.copy(alloc)?)),
            None => Ok(None),
        },
        _ => unreachable!(),
    }
}

/// What is sent to a sink of this name.
fn sent_to(alloc: Global, sent: Option<&Fact>, name: &Name) -> Result<Option<Val>, Memory>
    ensures { IfOk result (λ o. o ≡ sent_to (option_copied sent.entry) name.now) }
{
    match sent {
        Some(fact) => {
            if fact.node.is(name) {
                Ok(Some(fact.value.copy(alloc)?))
            } else {
                Ok(None)
            }
        }
        None => Ok(None),
    }
}

/// The occurrence of a declared node, by the number of its item.
fn occurrence_of<'a>(occs: &'a [Option<Val>], name: &Name) -> Option<&'a Val>
    ensures { option_copied result ≡ occ_at occs.now name.now }
{
    match occs.get(name.item() as usize) {
        Some(Some(value)) => Some(value),
        _ => None,
    }
}

/// An argument that an expression of the program holds of, or none.
fn kept(alloc: Global, codes: &[Expr], f: &Lam, argument: &Val) -> Result<Option<Val>, Memory>
    ensures { IfOk result (λ o. o ≡ keep_if (bool_in (out-Val (code_on codes.now f.now (argument.now ∷ [])))) (Some argument.now)) }
{
    if is_true(&code_on(alloc, codes, f, argument)?) {
        Ok(Some(argument.copy(alloc)?))
    } else {
        Ok(None)
    }
}

/// Whether a value is the truth.
fn is_true(value: &Val) -> bool
    ensures { result ≡ bool_in (out-Val value.now) }
{
    if let Val::Bool(b) = value { *b } else { false }
}

/// An expression of the program on an argument.
fn code_on(alloc: Global, codes: &[Expr], f: &Lam, argument: &Val) -> Result<Val, Memory>
    ensures { IfOk result (λ v. v ≡ code_on codes.now f.now (argument.now ∷ [])) }
{
    let mut values = Seq::new(alloc);
    for kept in f.kept.as_slice() {
        values.add(kept.copy(alloc)?)?;
    }
    values.add(argument.copy(alloc)?)?;
    match codes.get(f.code as usize) {
        Some(e) => eval(alloc, e, values.as_slice()),
        None => eval(alloc, &Expr::Int(0), values.as_slice()),
    }
}

/// The facts of the nodes that have an occurrence, in the order of the nodes.
fn facts(alloc: Global, nodes: &[Node], occs: &[Option<Val>]) -> Result<Seq<Fact>, Memory>
    requires { length nodes.now ≡ length occs.now }
    ensures { IfOk result (λ fs. fs ≡ facts_of nodes.now occs.now) }
{
    let mut fired = Seq::new(alloc);
    for (i, node) in nodes.iter().enumerate() {
        if let Some(value) = &occs[i] {
            fired.add(Fact {
                node: node.name.copy()?,
                value: value.copy(alloc)?,
            })?;
        }
    }
    Ok(fired)
}
