//! The checker: what a file means, or its first fault.

ghost use Rattle.std.specs.Prelude.{◌≡◌, ◌<◌, ◌≤◌, ◌^◌, [], ◌∷◌, length, map, IsTrue, IfOk, Err};
ghost use Rattle.frp_expr.specs.declared.fault.TypeFault.{TypeFault as Found};
ghost use Rattle.std.specs.List.{list_all};
ghost use Rattle.frp_expr.specs.Gives.{ExprGives};
ghost use Rattle.frp_expr.specs.Raw.{is_lawful};
ghost use Rattle.frp_type.specs.Core.{is_core, is_core_decl, is_core_sender};
ghost use Rattle.frp_type.specs.Faults.{all_tied, listened, all_sent, scripted, checked};
ghost use Rattle.frp_type.specs.Known.{nothing, all_declared};
ghost use Rattle.frp_type.specs.Known.{named};
ghost use Rattle.frp_type.specs.Meaning.{node_named, sent_over, labels_from, references_from, tied_to};
ghost use Rattle.frp_type.specs.States.{known_of, StandsFor, IsTypedFile, tie_line, prog_in};
ghost use Rattle.frp_graph.specs.Births as births;
ghost use Rattle.frp_expr.specs.Scope.{names_of, number_of};
ghost use Rattle.frp_base.specs.Name.{declared_name};

use crate::decls::declare;
use crate::names::named;
use crate::operands::operand;
use crate::state::{Loop, State};
use crate::typed::{Label, Typed};
use frp_base::{Memory, Name, Seq, Text, Ty, Val};
use frp_expr::{ExprStop, Scope, Spot, TypeKind, eval, stop};
use frp_file::{Decl, File, Listen, RawSend, Sender};
use frp_graph::{Body, Fact, Line3, LineShape, Prog};
use std::alloc::Global;

/// The most declarations: a function's number has 32 bits.
const MOST: usize = (1 << 32) - 1;

/// What a file of core items means, or its first fault. Each written expression is lawful, no item is a derived form, and there
/// are no templates yet. More than 2^32 - 1 declarations want more memory than is taken.
pub fn check(alloc: Global, file: &File) -> Result<Typed, ExprStop>
    requires core { IsTrue (is_core file.now) }
    ensures typed { IfOk result (λ t. IsTypedFile file.now t) }
    ensures fault { (f : Found) → result ≡ Err (ExprStop.Fault f) → checked file.now ≡ Err f }
{
    let decls = file.graph.decls.as_slice();
    if decls.len() > MOST {
        return Err(ExprStop::Memory);
    }
    let state = all_declared(alloc, decls)?;
    all_tied(state.loops.as_slice())?;
    let listens = listens(alloc, &state, file.listens.as_slice())?;
    let references = references(alloc, state.scope.names.as_slice())?;
    let scripts = scripts(
        alloc,
        &state,
        references.as_slice(),
        file.senders.as_slice(),
    )?;
    let labels = labels(alloc, state.scope.names.as_slice())?;
    Ok(Typed {
        prog: program(alloc, state),
        labels,
        listens,
        scripts,
    })
}

/// What is known after all declarations, and what they stand for.
fn all_declared(alloc: Global, decls: &[Decl]) -> Result<State, ExprStop>
    requires core { IsTrue (list_all is_core_decl decls.now) }
    requires few { length decls.now < 2 ^ 32 }
    ensures known { ExprGives known_of result (all_declared nothing decls.now) }
    ensures holds { IfOk result (λ s. StandsFor s decls.now) }
    ensures few { IfOk result (λ s. length s.scope.funs ≤ length decls.now) }
{
    let mut state = State {
        scope: Scope {
            names: Seq::new(alloc),
            funs: Seq::new(alloc),
        },
        loops: Seq::new(alloc),
        lines: Seq::new(alloc),
        codes: Seq::new(alloc),
        funs: Seq::new(alloc),
        ties: Seq::new(alloc),
    };
    for d in decls {
        declare(alloc, &mut state, d)?;
    }
    Ok(state)
}

/// Stops at the first loop that is not tied.
fn all_tied(loops: &[Loop]) -> Result<(), ExprStop>
    ensures { ExprGives (λ _. tt) result (all_tied loops.now) }
{
    match loops {
        [first, ..] => stop(first.at, TypeKind::Untied),
        _ => Ok(()),
    }
}

/// The node of a name of the graph, or a fault.
fn node_named(alloc: Global, state: &State, n: &Spot) -> Result<Name, ExprStop>
    ensures fault { ExprGives (λ _. number_of n.now.text (names_of state.now.scope.names)) result (named (known_of state.now) n.now) }
    ensures node { IfOk result (λ r. r ≡ node_named (known_of state.now) n.now) }
{
    let position = named(state.scope.names.as_slice(), n)?;
    Ok(Name::declared(alloc, position as u64)?)
}

/// The nodes that are listened to, in order, or the first fault.
fn listens(alloc: Global, state: &State, listens: &[Listen]) -> Result<Seq<Name>, ExprStop>
    ensures fault { ExprGives (λ _. tt) result (listened (known_of state.now) listens.now) }
    ensures nodes { IfOk result (λ r. r ≡ map (λ l. node_named (known_of state.now) l.name) listens.now) }
{
    let mut nodes = Seq::new(alloc);
    for l in listens {
        nodes.add(node_named(alloc, state, &l.name)?)?;
    }
    Ok(nodes)
}

/// What a send sends, over the references of the nodes, or its first fault.
fn sent(alloc: Global, state: &State, references: &[Val], s: &RawSend) -> Result<Fact, ExprStop>
    requires lawful { IsTrue (is_lawful s.now.value) }
    requires funs { length state.now.scope.funs < 2 ^ 32 }
    ensures fault { ExprGives (λ _. tt) result (all_sent (known_of state.now) (s.now ∷ [])) }
    ensures fact { IfOk result (λ r. r ≡ sent_over (known_of state.now) references.now s.now) }
{
    let node = node_named(alloc, state, &s.name)?;
    let (e, _) = operand(alloc, &state.scope, s.value.get())?;
    let value = eval(alloc, e.get(), references)?;
    Ok(Fact { node, value })
}

/// What a sender sends, in order, or the first fault.
fn script(
    alloc: Global,
    state: &State,
    references: &[Val],
    sends: &[RawSend],
) -> Result<Seq<Fact>, ExprStop>
    requires lawful { IsTrue (list_all (λ x. is_lawful x.value) sends.now) }
    requires funs { length state.now.scope.funs < 2 ^ 32 }
    ensures fault { ExprGives (λ _. tt) result (all_sent (known_of state.now) sends.now) }
    ensures facts { IfOk result (λ r. r ≡ map (sent_over (known_of state.now) references.now) sends.now) }
{
    let mut facts = Seq::new(alloc);
    for s in sends {
        facts.add(sent(alloc, state, references, s)?)?;
    }
    Ok(facts)
}

/// What each sender sends, in order, or the first fault.
fn scripts(
    alloc: Global,
    state: &State,
    references: &[Val],
    senders: &[Sender],
) -> Result<Seq<Seq<Fact>>, ExprStop>
    requires lawful { IsTrue (list_all is_core_sender senders.now) }
    requires funs { length state.now.scope.funs < 2 ^ 32 }
    ensures fault { ExprGives (λ _. tt) result (scripted (known_of state.now) senders.now) }
    ensures scripts { IfOk result (λ r. r ≡ map (λ s. map (sent_over (known_of state.now) references.now) s.sends) senders.now) }
{
    let mut scripts = Seq::new(alloc);
    for s in senders {
        scripts.add(script(alloc, state, references, s.sends.as_slice())?)?;
    }
    Ok(scripts)
}

/// The references of the nodes of these names, of which the first is that of item 0.
fn references(alloc: Global, names: &[(Text, Ty)]) -> Result<Seq<Val>, Memory>
    ensures { IfOk result (λ r. r ≡ references_from 0 names.now) }
{
    let mut all = Seq::new(alloc);
    for (i, entry) in names.iter().enumerate() {
        let node = Name::declared(alloc, i as u64)?;
        all.add(reference(&entry.1, node))?;
    }
    Ok(all)
}

/// The reference to a node of this type.
fn reference(ty: &Ty, node: Name) -> Val
    ensures { result ≡ births.reference ty.now node }
{
    if let Ty::Cell(_) = ty {
        Val::Cell(node)
    } else {
        Val::Stream(node)
    }
}

/// The labels of the nodes of these names, of which the first is that of item 0.
fn labels(alloc: Global, names: &[(Text, Ty)]) -> Result<Seq<Label>, Memory>
    ensures { IfOk result (λ r. r ≡ labels_from 0 names.now) }
{
    let mut all = Seq::new(alloc);
    for (i, entry) in names.iter().enumerate() {
        all.add(label(alloc, i as u64, entry)?)?;
    }
    Ok(all)
}

/// The label of the node of an item.
fn label(alloc: Global, i: u64, entry: &(Text, Ty)) -> Result<Label, Memory>
    ensures { IfOk result (λ r. r ≡ record { name = declared_name i; text = entry.now.0; ty = entry.now.1 }) }
{
    let name = Name::declared(alloc, i)?;
    let text = entry.0.copy()?;
    let ty = entry.1.copy(alloc)?;
    Ok(Label { name, text, ty })
}

/// The program of a state in which all loops are tied.
fn program(alloc: Global, state: State) -> Prog
    ensures { result ≡ prog_in state }
{
    let State {
        scope: _,
        loops: _,
        lines,
        codes,
        funs,
        ties,
    } = state;
    Prog {
        codes,
        funs,
        templates: Seq::new(alloc),
        body: Body {
            param: None,
            kept: Seq::new(alloc),
            lines: tied_lines(lines, ties.as_slice()),
            give: None,
        },
        joins: Seq::new(alloc),
    }
}

/// These lines, with each loop tied to what the ties say.
fn tied_lines(lines: Seq<Line3>, ties: &[(u64, u64)]) -> Seq<Line3>
    ensures { result ≡ map (tie_line ties.now) lines }
{
    let mut lines = lines.into_vec();
    for line in lines.iter_mut() {
        tie_line(line, ties);
    }
    Seq::of(lines)
}

/// Ties a line that is a loop to what the ties say.
fn tie_line(line: &mut Line3, ties: &[(u64, u64)])
    ensures { line.new ≡ tie_line ties.now line.old }
{
    if let Line3::Node {
        shape: LineShape::Loop { to },
        ..
    } = line
    {
        *to = tied_to(ties, *to);
    }
}

/// What the loop at a position is tied to; itself where no tie says it.
fn tied_to(ties: &[(u64, u64)], position: u64) -> u64
    ensures { result ≡ tied_to ties.now position }
{
    for tie in ties {
        if tie.0 == position {
            return tie.1;
        }
    }
    position
}
