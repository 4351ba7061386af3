//! Declarations: what is known after each, and what it stands for.

ghost use Rattle.std.specs.Prelude.{◌≡◌, ◌<◌, ◌^◌, [], ◌∷◌, length, not, slice_get, IsTrue, IfOk, OnOk};
ghost use Rattle.frp_expr.specs.Gives.{ExprGives};
ghost use Rattle.frp_expr.specs.Raw.{is_lawful, typing};
ghost use Rattle.frp_expr.specs.Scope.{types_of};
ghost use Rattle.frp_expr.specs.TypeOf.{IsTypingOf};
ghost use Rattle.frp_file.specs.declared.file.ItemForm.TheVariants as form;
ghost use Rattle.frp_type.specs.Core.{is_core_item, is_core_decl, is_core_shape};
ghost use Rattle.frp_type.specs.Known.{params, fun_known, item_known, declared, is_loop, is_untied, fault_if, loop_of, target_of, same_type, tying};
ghost use Rattle.frp_file.specs.declared.file.Decl.TheVariants as decl;
ghost use Rattle.frp_type.specs.States.{known_of, with_typed_line, with_fun, Adds};

use crate::names::{is_untied, named, new_fun, new_name, without};
use crate::shapes::{Line, shape_line};
use crate::state::{Loop, State};
use crate::types::{boxed_type, copied};
use frp_base::{Boxed, Memory, Seq, Text, Ty};
use frp_expr::{ExprStop, Raw, RawTy, Spot, TypeKind, Typing, stop, type_of};
use frp_file::{Decl, Function, Item, ItemForm, Param, RawShape, ShapeForm};
use frp_graph::{FunDef, Line3, LineShape};
use std::alloc::Global;
use std::mem::replace;

/// Adds a name with its written type, where it is new.
fn param(alloc: Global, p: &Param, names: &mut Seq<(Text, Ty)>) -> Result<(), ExprStop>
    ensures { ExprGives (λ _. names.new) result (params names.old (p.now ∷ [])) }
{
    new_name(names.as_slice(), &p.name)?;
    let text = p.name.text.copy()?;
    let ty = boxed_type(alloc, p.ty.get())?;
    names.add((text, ty.into_inner()))?;
    Ok(())
}

/// Adds names with their written types, in order, where each is new.
fn all_params(alloc: Global, ps: &[Param], names: &mut Seq<(Text, Ty)>) -> Result<(), ExprStop>
    ensures { ExprGives (λ _. names.new) result (params names.old ps.now) }
{
    for p in ps {
        param(alloc, p, names)?;
    }
    Ok(())
}

/// An input.
fn sink(alloc: Global, state: &mut State, at: u64, n: &Spot, ty: &RawTy) -> Result<(), ExprStop>
    ensures known { ExprGives (λ _. known_of state.new) result (item_known (known_of state.old) (form.Sink n.now ty.now)) }
    ensures adds { OnOk result (Adds state.old state.new (decl.Item (record { at = at; form = form.Sink n.now ty.now }))) }
{
    new_name(state.scope.names.as_slice(), n)?;
    let text = n.text.copy()?;
    let item = boxed_type(alloc, ty)?;
    let node = Boxed::new(alloc, Ty::Stream(item))?;
    let line = Line {
        ty: node.get().copy(alloc)?,
        shape: LineShape::Sink,
    };
    add_node(state, text, node, line)?;
    Ok(())
}

/// Adds a node of the body.
fn add_node(state: &mut State, name: Text, ty: Boxed<Ty>, line: Line) -> Result<(), Memory>
    ensures { OnOk result (state.new ≡ with_typed_line state.old name ty line) }
{
    let Line { ty: node, shape } = line;
    state.lines.add(Line3::Node { ty: node, shape })?;
    state.scope.names.add((name, ty.into_inner()))
}

/// Adds the node of a line.
fn add_line(alloc: Global, state: &mut State, name: Text, line: Line) -> Result<(), Memory>
    ensures { OnOk result (state.new ≡ with_typed_line state.old name line.ty line) }
{
    let ty = type_copy(alloc, &line.ty)?;
    add_node(state, name, ty, line)
}

/// An equal type, in a box.
fn type_copy(alloc: Global, ty: &Ty) -> Result<Boxed<Ty>, Memory>
    ensures { IfOk result (λ t. t ≡ ty.now) }
{
    let ty = ty.copy(alloc)?;
    Boxed::new(alloc, ty)
}

/// A node of a shape.
fn bound(
    alloc: Global,
    state: &mut State,
    at: u64,
    n: &Spot,
    shape: &RawShape,
) -> Result<(), ExprStop>
    requires core { IsTrue (is_core_shape shape.now.form) }
    requires funs { length state.old.scope.funs < 2 ^ 32 }
    requires codes { length state.old.codes < 2 ^ 32 }
    ensures known { ExprGives (λ _. known_of state.new) result (item_known (known_of state.old) (form.Let n.now shape.now)) }
    ensures adds { OnOk result (Adds state.old state.new (decl.Item (record { at = at; form = form.Let n.now shape.now }))) }
{
    new_name(state.scope.names.as_slice(), n)?;
    let text = n.text.copy()?;
    let position = state.scope.names.as_slice().len() as u64;
    let line = shape_line(alloc, &mut state.scope, &mut state.codes, &shape.form)?;
    add_line(alloc, state, text, line)?;
    if is_loop(&shape.form) {
        state.loops.add(Loop { position, at: n.at })?;
    }
    Ok(())
}

/// Whether a shape is a loop.
fn is_loop(shape: &ShapeForm) -> bool
    ensures { result ≡ is_loop shape.now }
{
    match shape {
        ShapeForm::Loops { .. } => true,
        ShapeForm::Loopc { .. } => true,
        _ => false,
    }
}

/// A loop that is tied.
fn tie(alloc: Global, state: &mut State, at: u64, l: &Spot, x: &Spot) -> Result<(), ExprStop>
    ensures known { ExprGives (λ _. known_of state.new) result (item_known (known_of state.old) (form.Tie l.now x.now)) }
    ensures adds { OnOk result (Adds state.old state.new (decl.Item (record { at = at; form = form.Tie l.now x.now }))) }
{
    let (from, to) = tying(state, l, x)?;
    state.ties.add((from, to))?;
    state.loops = without(alloc, state.loops.as_slice(), from)?;
    Ok(())
}

/// The positions of a loop that is not tied yet, and of what it is tied to.
fn tying(state: &State, l: &Spot, x: &Spot) -> Result<(u64, u64), ExprStop>
    ensures { ExprGives (λ r. r) result (tying (known_of state.now) l.now x.now) }
{
    let from = loop_of(state, l)?;
    let to = target_of(state, x, from)?;
    Ok((from as u64, to as u64))
}

/// The position of a loop that is not tied yet.
fn loop_of(state: &State, l: &Spot) -> Result<usize, ExprStop>
    ensures place { ExprGives (λ r. r) result (loop_of (known_of state.now) l.now) }
    ensures within { IfOk result (λ i. i < length state.now.scope.names) }
{
    let position = named(state.scope.names.as_slice(), l)?;
    let tied = is_tied(state, position);
    fault_if(tied, l.at, TypeKind::Tied)?;
    Ok(position)
}

/// Whether there is no loop at this position that is not tied yet.
fn is_tied(state: &State, position: usize) -> bool
    ensures { result ≡ not (is_untied (known_of state.now) position) }
{
    !is_untied(state.loops.as_slice(), position as u64)
}

/// The position of a name of the type of this other one.
fn target_of(state: &State, x: &Spot, from: usize) -> Result<usize, ExprStop>
    requires { from < length state.now.scope.names }
    ensures { ExprGives (λ r. r) result (target_of (known_of state.now) x.now from) }
{
    let names = state.scope.names.as_slice();
    let position = named(names, x)?;
    let other = !have_one_type(names, position, from);
    fault_if(other, x.at, TypeKind::Type)?;
    Ok(position)
}

/// Whether two names have one type.
fn have_one_type(names: &[(Text, Ty)], i: usize, j: usize) -> bool
    requires i { i < length names.now }
    requires j { j < length names.now }
    ensures { result ≡ same_type (slice_get (types_of names.now) i) (slice_get (types_of names.now) j) }
{
    names[i].1.is(&names[j].1)
}

/// Stops at a fault of this kind where the test holds.
fn fault_if(holds: bool, at: u64, kind: TypeKind) -> Result<(), ExprStop>
    ensures { ExprGives (λ _. tt) result (fault_if holds at kind) }
{
    if holds { stop(at, kind) } else { Ok(()) }
}

/// A declared function.
fn function(alloc: Global, state: &mut State, f: &Function) -> Result<(), ExprStop>
    requires core { IsTrue (is_lawful f.now.e) }
    requires funs { length state.old.scope.funs < 2 ^ 32 }
    ensures known { ExprGives (λ _. known_of state.new) result (fun_known (known_of state.old) f.now) }
    ensures adds { OnOk result (Adds state.old state.new (decl.Function f.now)) }
{
    defined(
        alloc,
        state,
        f.at,
        &f.name,
        f.kept.as_slice(),
        f.arg.get(),
        f.e.get(),
    )
}

/// A function of this name, with these kept names, this argument and this expression.
fn defined(
    alloc: Global,
    state: &mut State,
    at: u64,
    name: &Spot,
    kept: &[Param],
    arg: &Param,
    e: &Raw,
) -> Result<(), ExprStop>
    requires core { IsTrue (is_lawful e.now) }
    requires funs { length state.old.scope.funs < 2 ^ 32 }
    ensures known { ExprGives (λ _. known_of state.new) result (fun_known (known_of state.old) (record { at = at; name = name.now; kept = kept.now; arg = arg.now; e = e.now })) }
    ensures adds { OnOk result (Adds state.old state.new (decl.Function (record { at = at; name = name.now; kept = kept.now; arg = arg.now; e = e.now }))) }
{
    new_fun(state.scope.funs.as_slice(), name)?;
    let mut names = Seq::new(alloc);
    all_params(alloc, kept, &mut names)?;
    let kept = types_of(alloc, names.as_slice())?;
    let again = types_of(alloc, names.as_slice())?;
    new_name(names.as_slice(), &arg.name)?;
    let text = name.text.copy()?;
    let ty = boxed_type(alloc, arg.ty.get())?;
    let taken = copied(alloc, &ty)?;
    names.add((arg.name.text.copy()?, taken.into_inner()))?;
    let typing = over(alloc, state, names, e)?;
    add_fun(alloc, state, text, kept, again, ty, typing)?;
    Ok(())
}

/// The typing of an expression over these names alone.
fn over(
    alloc: Global,
    state: &mut State,
    names: Seq<(Text, Ty)>,
    e: &Raw,
) -> Result<Boxed<Typing>, ExprStop>
    requires lawful { IsTrue (is_lawful e.now) }
    requires funs { length state.old.scope.funs < 2 ^ 32 }
    ensures ty { ExprGives (λ t. t.ty) result (typing state.old.scope.funs e.now names) }
    ensures typing { IfOk result (λ t. IsTypingOf (record { names = names; funs = state.old.scope.funs }) e.now t) }
    ensures state { OnOk result (state.new ≡ state.old) }
{
    let body = replace(&mut state.scope.names, names);
    let typing = Boxed::new(alloc, type_of(alloc, e, &state.scope)?)?;
    let _ = replace(&mut state.scope.names, body);
    Ok(typing)
}

/// Adds a function.
fn add_fun(
    alloc: Global,
    state: &mut State,
    name: Text,
    kept: Seq<Ty>,
    again: Seq<Ty>,
    arg: Boxed<Ty>,
    typing: Boxed<Typing>,
) -> Result<(), Memory>
    ensures { OnOk result (state.new ≡ with_fun state.old name kept again arg typing) }
{
    let result = Boxed::new(alloc, typing.get().ty.copy(alloc)?)?;
    let taken = copied(alloc, &arg)?;
    state
        .scope
        .funs
        .add((name, kept, taken.into_inner(), result.into_inner()))?;
    let Typing { expr, ty, used: _ } = typing.into_inner();
    state.funs.add(FunDef {
        kept: again,
        arg: arg.into_inner(),
        result: ty,
        e: expr,
    })
}

/// The types of these names, in order.
fn types_of(alloc: Global, names: &[(Text, Ty)]) -> Result<Seq<Ty>, Memory>
    ensures { IfOk result (λ r. r ≡ types_of names.now) }
{
    let mut types = Seq::new(alloc);
    for entry in names {
        types.add(entry.1.copy(alloc)?)?;
    }
    Ok(types)
}

/// An item of the graph.
fn item(alloc: Global, state: &mut State, item: &Item) -> Result<(), ExprStop>
    requires core { IsTrue (is_core_item item.now.form) }
    requires funs { length state.old.scope.funs < 2 ^ 32 }
    requires codes { length state.old.codes < 2 ^ 32 }
    ensures known { ExprGives (λ _. known_of state.new) result (item_known (known_of state.old) item.now.form) }
    ensures adds { OnOk result (Adds state.old state.new (decl.Item item.now)) }
{
    match &item.form {
        ItemForm::Sink { name, ty } => sink(alloc, state, item.at, name, ty.get()),
        ItemForm::Let { name, shape } => bound(alloc, state, item.at, name, shape.get()),
        ItemForm::Tie { from, to } => tie(alloc, state, item.at, from, to),
        _ => unreachable!(),
    }
}

/// What is known after a declaration, and what it stands for.
pub fn declare(alloc: Global, state: &mut State, decl: &Decl) -> Result<(), ExprStop>
    requires core { IsTrue (is_core_decl decl.now) }
    requires funs { length state.old.scope.funs < 2 ^ 32 }
    requires codes { length state.old.codes < 2 ^ 32 }
    ensures known { ExprGives (λ _. known_of state.new) result (declared (known_of state.old) decl.now) }
    ensures adds { OnOk result (Adds state.old state.new decl.now) }
{
    match decl {
        Decl::Function(f) => function(alloc, state, f),
        Decl::Item(i) => item(alloc, state, i),
        Decl::Template(_) => unreachable!(),
    }
}
