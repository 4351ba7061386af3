//! The types of written expressions.

ghost use Rattle.std.specs.Prelude.{◌≡◌, ◌<◌, ◌++◌, [], ◌∷◌, map, drop, length, IsTrue, IfOk, OnOk, Err};
ghost use Rattle.frp_expr.specs.Types as spec;
ghost use Rattle.frp_base.specs.declared.ty.Ty.{Ty};
ghost use Rattle.frp_base.specs.declared.ty.Ty.TheVariants as t;
ghost use Rattle.frp_expr.specs.Raw.{ty_part, typing, part_of, part_by, part_as, items_as, list_of, kept_as, close_of, closing, named_type, nil_type};
ghost use Rattle.frp_expr.specs.Forms.{is_unary, is_binary, is_agreeing};
ghost use Rattle.frp_expr.specs.Gives.{ExprGives};

use crate::fault::{ExprStop, TypeKind};
use crate::faults::{given, right, stop};
use crate::names::{fun_named, named};
use crate::raw::{Raw, RawForm, RawTy, Spot};
use crate::scope::Scope;
use crate::types::{
    first_type, has_length, is_comparable, is_list, is_plain, item_type, second_type,
};
use crate::written::item_type as written_items;
use frp_base::{Boxed, Memory, Seq, Text, Ty};
use std::alloc::Global;

/// The type of a written expression over the names of the scope and those that `let` has bound, or its first fault.
#[cycle(typing)]
pub fn typing(
    alloc: Global,
    raw: &Raw,
    scope: &Scope,
    bound: &mut Seq<(Text, Ty)>,
) -> Result<Ty, ExprStop>
    ensures ty { ExprGives (λ t. t) result (typing scope.now.funs raw.now (scope.now.names ++ bound.old)) }
    ensures bound { OnOk result (bound.new ≡ bound.old) }
{
    match &raw.form {
        RawForm::Int(_) => Ok(Ty::Int),
        RawForm::Bool(_) => Ok(Ty::Bool),
        RawForm::Text(_) => Ok(Ty::Text),
        RawForm::Name(name) => variable(alloc, raw.at, name, scope, bound.as_slice()),
        RawForm::Let(name, a, b) => {
            let ty = typing(alloc, a.get(), scope, bound)?;
            within(alloc, b.get(), name, ty, scope, bound)
        }
        RawForm::List(items) => list(alloc, raw.at, items.as_slice(), scope, bound),
        RawForm::Nil(ty) => nil(alloc, ty),
        RawForm::Close(name, kept) => close(alloc, kept.as_slice(), name, scope, bound),
        RawForm::Neg(_)
        | RawForm::Not(_)
        | RawForm::First(_)
        | RawForm::Second(_)
        | RawForm::Len(_)
        | RawForm::Show(_) => unary(alloc, raw, scope, bound),
        RawForm::Add(_, _)
        | RawForm::Sub(_, _)
        | RawForm::Mul(_, _)
        | RawForm::Div(_, _)
        | RawForm::Rem(_, _)
        | RawForm::Lt(_, _)
        | RawForm::And(_, _)
        | RawForm::Or(_, _)
        | RawForm::Cat(_, _) => binary(alloc, raw, scope, bound),
        RawForm::Eq(_, _)
        | RawForm::Pair(_, _)
        | RawForm::Append(_, _)
        | RawForm::If(_, _, _)
        | RawForm::At(_, _, _) => agreeing(alloc, raw, scope, bound),
    }
}

/// The type of an operator with one part.
#[cycle(typing)]
fn unary(
    alloc: Global,
    raw: &Raw,
    scope: &Scope,
    bound: &mut Seq<(Text, Ty)>,
) -> Result<Ty, ExprStop>
    requires { IsTrue (is_unary raw.now) }
    ensures ty { ExprGives (λ t. t) result (typing scope.now.funs raw.now (scope.now.names ++ bound.old)) }
    ensures bound { OnOk result (bound.new ≡ bound.old) }
{
    match &raw.form {
        RawForm::Neg(a) => {
            int(alloc, a.get(), scope, bound)?;
            Ok(Ty::Int)
        }
        RawForm::Not(a) => {
            bool(alloc, a.get(), scope, bound)?;
            Ok(Ty::Bool)
        }
        RawForm::First(a) => {
            let ty = typing(alloc, a.get(), scope, bound)?;
            right(first_type(ty), a.get().at)
        }
        RawForm::Second(a) => {
            let ty = typing(alloc, a.get(), scope, bound)?;
            right(second_type(ty), a.get().at)
        }
        RawForm::Len(a) => {
            let ty = typing(alloc, a.get(), scope, bound)?;
            right(given(has_length(&ty), Ty::Int), a.get().at)
        }
        RawForm::Show(a) => {
            int(alloc, a.get(), scope, bound)?;
            Ok(Ty::Text)
        }
        _ => unreachable!(),
    }
}

/// The type of an operator with two parts of one given type.
#[cycle(typing)]
fn binary(
    alloc: Global,
    raw: &Raw,
    scope: &Scope,
    bound: &mut Seq<(Text, Ty)>,
) -> Result<Ty, ExprStop>
    requires { IsTrue (is_binary raw.now) }
    ensures ty { ExprGives (λ t. t) result (typing scope.now.funs raw.now (scope.now.names ++ bound.old)) }
    ensures bound { OnOk result (bound.new ≡ bound.old) }
{
    match &raw.form {
        RawForm::Add(a, b) => {
            int(alloc, a.get(), scope, bound)?;
            int(alloc, b.get(), scope, bound)?;
            Ok(Ty::Int)
        }
        RawForm::Sub(a, b) => {
            int(alloc, a.get(), scope, bound)?;
            int(alloc, b.get(), scope, bound)?;
            Ok(Ty::Int)
        }
        RawForm::Mul(a, b) => {
            int(alloc, a.get(), scope, bound)?;
            int(alloc, b.get(), scope, bound)?;
            Ok(Ty::Int)
        }
        RawForm::Div(a, b) => {
            int(alloc, a.get(), scope, bound)?;
            int(alloc, b.get(), scope, bound)?;
            Ok(Ty::Int)
        }
        RawForm::Rem(a, b) => {
            int(alloc, a.get(), scope, bound)?;
            int(alloc, b.get(), scope, bound)?;
            Ok(Ty::Int)
        }
        RawForm::Lt(a, b) => {
            int(alloc, a.get(), scope, bound)?;
            int(alloc, b.get(), scope, bound)?;
            Ok(Ty::Bool)
        }
        RawForm::And(a, b) => {
            bool(alloc, a.get(), scope, bound)?;
            bool(alloc, b.get(), scope, bound)?;
            Ok(Ty::Bool)
        }
        RawForm::Or(a, b) => {
            bool(alloc, a.get(), scope, bound)?;
            bool(alloc, b.get(), scope, bound)?;
            Ok(Ty::Bool)
        }
        RawForm::Cat(a, b) => {
            text(alloc, a.get(), scope, bound)?;
            text(alloc, b.get(), scope, bound)?;
            Ok(Ty::Text)
        }
        _ => unreachable!(),
    }
}

/// The type of an operator with parts whose types follow from one another.
#[cycle(typing)]
fn agreeing(
    alloc: Global,
    raw: &Raw,
    scope: &Scope,
    bound: &mut Seq<(Text, Ty)>,
) -> Result<Ty, ExprStop>
    requires { IsTrue (is_agreeing raw.now) }
    ensures ty { ExprGives (λ t. t) result (typing scope.now.funs raw.now (scope.now.names ++ bound.old)) }
    ensures bound { OnOk result (bound.new ≡ bound.old) }
{
    match &raw.form {
        RawForm::Eq(a, b) => {
            let ty = typing(alloc, a.get(), scope, bound)?;
            let ty = right(given(is_comparable(&ty), ty), a.get().at)?;
            is_part(alloc, b.get(), &ty, scope, bound)?;
            Ok(Ty::Bool)
        }
        RawForm::Pair(a, b) => {
            let first = typing(alloc, a.get(), scope, bound)?;
            let second = typing(alloc, b.get(), scope, bound)?;
            Ok(pair_type(alloc, first, second)?)
        }
        RawForm::Append(a, b) => {
            let ty = typing(alloc, a.get(), scope, bound)?;
            let ty = right(given(is_list(&ty), ty), a.get().at)?;
            part(alloc, b.get(), ty, scope, bound)
        }
        RawForm::If(c, a, b) => {
            bool(alloc, c.get(), scope, bound)?;
            let ty = typing(alloc, a.get(), scope, bound)?;
            part(alloc, b.get(), ty, scope, bound)
        }
        RawForm::At(a, i, d) => {
            let ty = typing(alloc, a.get(), scope, bound)?;
            let ty = right(item_type(ty), a.get().at)?;
            int(alloc, i.get(), scope, bound)?;
            part(alloc, d.get(), ty, scope, bound)
        }
        _ => unreachable!(),
    }
}

/// The type of a part that has this type, or the part's first fault.
#[cycle(typing)]
fn part(
    alloc: Global,
    raw: &Raw,
    ty: Ty,
    scope: &Scope,
    bound: &mut Seq<(Text, Ty)>,
) -> Result<Ty, ExprStop>
    ensures ty { ExprGives (λ t. t) result (part_as ty (part_of scope.now.funs raw.now) (scope.now.names ++ bound.old)) }
    ensures bound { OnOk result (bound.new ≡ bound.old) }
{
    let found = typing(alloc, raw, scope, bound)?;
    right(given(found.is(&ty), ty), raw.at)
}

/// Tests that a part is a number.
#[cycle(typing)]
fn int(alloc: Global, raw: &Raw, scope: &Scope, bound: &mut Seq<(Text, Ty)>) -> Result<(), ExprStop>
    ensures ty { ExprGives (λ _. t.Int) result (part_as t.Int (part_of scope.now.funs raw.now) (scope.now.names ++ bound.old)) }
    ensures bound { OnOk result (bound.new ≡ bound.old) }
{
    is_part(alloc, raw, &Ty::Int, scope, bound)
}

/// Tests that a part is a truth.
#[cycle(typing)]
fn bool(
    alloc: Global,
    raw: &Raw,
    scope: &Scope,
    bound: &mut Seq<(Text, Ty)>,
) -> Result<(), ExprStop>
    ensures ty { ExprGives (λ _. t.Bool) result (part_as t.Bool (part_of scope.now.funs raw.now) (scope.now.names ++ bound.old)) }
    ensures bound { OnOk result (bound.new ≡ bound.old) }
{
    is_part(alloc, raw, &Ty::Bool, scope, bound)
}

/// Tests that a part is a text.
#[cycle(typing)]
fn text(
    alloc: Global,
    raw: &Raw,
    scope: &Scope,
    bound: &mut Seq<(Text, Ty)>,
) -> Result<(), ExprStop>
    ensures ty { ExprGives (λ _. t.Text) result (part_as t.Text (part_of scope.now.funs raw.now) (scope.now.names ++ bound.old)) }
    ensures bound { OnOk result (bound.new ≡ bound.old) }
{
    is_part(alloc, raw, &Ty::Text, scope, bound)
}

/// The type of an expression where one more name is bound.
#[cycle(typing)]
#[tactic(auto, using(std::proofs::Common::append_assoc))]
fn within(
    alloc: Global,
    raw: &Raw,
    name: &Spot,
    ty: Ty,
    scope: &Scope,
    bound: &mut Seq<(Text, Ty)>,
) -> Result<Ty, ExprStop>
    ensures ty { ExprGives (λ t. t) result (typing scope.now.funs raw.now (scope.now.names ++ bound.old ++ (name.now.text, ty) ∷ [])) }
    ensures bound { OnOk result (bound.new ≡ bound.old) }
{
    bound.add((name.text.copy()?, ty))?;
    let found = typing(alloc, raw, scope, bound)?;
    let _ = bound.pop();
    Ok(found)
}

/// The type of a list of these items, at its place.
#[cycle(typing)]
fn list(
    alloc: Global,
    at: u64,
    items: &[Raw],
    scope: &Scope,
    bound: &mut Seq<(Text, Ty)>,
) -> Result<Ty, ExprStop>
    ensures ty { ExprGives (λ t. t) result (list_of at (map (part_of scope.now.funs) items.now) (scope.now.names ++ bound.old)) }
    ensures bound { OnOk result (bound.new ≡ bound.old) }
{
    if items.is_empty() {
        return stop(at, TypeKind::Type);
    }
    let ty = plain(alloc, &items[0], scope, bound)?;
    items_of(alloc, items, &ty, scope, bound)?;
    Ok(list_type(alloc, ty)?)
}

/// The plain type of a part.
#[cycle(typing)]
fn plain(
    alloc: Global,
    raw: &Raw,
    scope: &Scope,
    bound: &mut Seq<(Text, Ty)>,
) -> Result<Ty, ExprStop>
    ensures ty { ExprGives (λ t. t) result (part_by (λ x. spec.given (spec.is_plain x) x) (part_of scope.now.funs raw.now) (scope.now.names ++ bound.old)) }
    ensures bound { OnOk result (bound.new ≡ bound.old) }
{
    let ty = typing(alloc, raw, scope, bound)?;
    right(given(is_plain(&ty), ty), raw.at)
}

/// Tests that the items after the first have this type.
#[cycle(typing)]
fn items_of(
    alloc: Global,
    items: &[Raw],
    ty: &Ty,
    scope: &Scope,
    bound: &mut Seq<(Text, Ty)>,
) -> Result<(), ExprStop>
    requires { 0 < length items.now }
    ensures ty { ExprGives (λ _. t.List ty.now) result (items_as ty.now (map (part_of scope.now.funs) (drop 1 items.now)) (scope.now.names ++ bound.old)) }
    ensures bound { OnOk result (bound.new ≡ bound.old) }
{
    for i in 1..items.len() {
        is_part(alloc, &items[i], ty, scope, bound)?;
    }
    Ok(())
}

/// Tests that a part has this type.
#[cycle(typing)]
fn is_part(
    alloc: Global,
    raw: &Raw,
    ty: &Ty,
    scope: &Scope,
    bound: &mut Seq<(Text, Ty)>,
) -> Result<(), ExprStop>
    ensures ty { ExprGives (λ _. ty.now) result (part_as ty.now (part_of scope.now.funs raw.now) (scope.now.names ++ bound.old)) }
    ensures bound { OnOk result (bound.new ≡ bound.old) }
{
    let found = typing(alloc, raw, scope, bound)?;
    if found.is(ty) {
        Ok(())
    } else {
        stop(raw.at, TypeKind::Type)
    }
}

/// The type of a function value with these kept values.
#[cycle(typing)]
fn close(
    alloc: Global,
    kept: &[Raw],
    name: &Spot,
    scope: &Scope,
    bound: &mut Seq<(Text, Ty)>,
) -> Result<Ty, ExprStop>
    ensures ty { ExprGives (λ t. t) result (closing scope.now.funs name.now (map (part_of scope.now.funs) kept.now) (scope.now.names ++ bound.old)) }
    ensures bound { OnOk result (bound.new ≡ bound.old) }
{
    match fun_named(scope.funs.as_slice(), &name.text) {
        None => stop(name.at, TypeKind::Unknown),
        Some(f) => closed(
            alloc,
            kept,
            name.at,
            &scope.funs.as_slice()[f],
            scope,
            bound,
        ),
    }
}

/// The type of a function value of this function, at the place of the function's name.
#[cycle(typing)]
fn closed(
    alloc: Global,
    kept: &[Raw],
    at: u64,
    fun: &(Text, Seq<Ty>, Ty, Ty),
    scope: &Scope,
    bound: &mut Seq<(Text, Ty)>,
) -> Result<Ty, ExprStop>
    ensures ty { ExprGives (λ t. t) result (close_of at fun.now (map (part_of scope.now.funs) kept.now) (scope.now.names ++ bound.old)) }
    ensures bound { OnOk result (bound.new ≡ bound.old) }
{
    if kept.len() != fun.1.as_slice().len() {
        return stop(at, TypeKind::Arity);
    }
    kept_of(alloc, kept, fun, scope, bound)?;
    Ok(fun_type(alloc, &fun.2, &fun.3)?)
}

/// Tests that kept values have the types of the function's, one by one, of which there are as many.
#[cycle(typing)]
fn kept_of(
    alloc: Global,
    kept: &[Raw],
    fun: &(Text, Seq<Ty>, Ty, Ty),
    scope: &Scope,
    bound: &mut Seq<(Text, Ty)>,
) -> Result<(), ExprStop>
    requires { length kept.now ≡ length fun.now.1 }
    ensures ty { ExprGives (λ _. t.Fun fun.now.2 fun.now.3) result (kept_as fun.now.1 (map (part_of scope.now.funs) kept.now) (scope.now.names ++ bound.old) (t.Fun fun.now.2 fun.now.3)) }
    ensures bound { OnOk result (bound.new ≡ bound.old) }
{
    for (i, value) in kept.iter().enumerate() {
        is_part(alloc, value, &fun.1.as_slice()[i], scope, bound)?;
    }
    Ok(())
}

/// The type of pairs of these.
fn pair_type(alloc: Global, first: Ty, second: Ty) -> Result<Ty, Memory>
    ensures { IfOk result (λ x. x ≡ t.Pair first second) }
{
    Ok(Ty::Pair(Boxed::new(alloc, first)?, Boxed::new(alloc, second)?))
}

/// The type of lists of these.
fn list_type(alloc: Global, item: Ty) -> Result<Ty, Memory>
    ensures { IfOk result (λ x. x ≡ t.List item) }
{
    Ok(Ty::List(Boxed::new(alloc, item)?))
}

/// The type of functions of this argument and result.
fn fun_type(alloc: Global, arg: &Ty, gives: &Ty) -> Result<Ty, Memory>
    ensures { IfOk result (λ x. x ≡ t.Fun arg.now gives.now) }
{
    let arg = arg.copy(alloc)?;
    let gives = gives.copy(alloc)?;
    Ok(Ty::Fun(Boxed::new(alloc, arg)?, Boxed::new(alloc, gives)?))
}

/// The type of a name at its place.
fn variable(
    alloc: Global,
    at: u64,
    name: &Text,
    scope: &Scope,
    bound: &[(Text, Ty)],
) -> Result<Ty, ExprStop>
    ensures { ExprGives (λ x. x) result (named_type at name.now (scope.now.names ++ bound.now)) }
{
    match named(scope.names.as_slice(), bound, name) {
        Some((_, ty)) => Ok(ty.copy(alloc)?),
        None => stop(at, TypeKind::Unknown),
    }
}

/// The type of an empty list of items of the type that is written.
fn nil(alloc: Global, ty: &RawTy) -> Result<Ty, ExprStop>
    ensures { ExprGives (λ x. x) result (nil_type (ty_part ty.now)) }
{
    let ty = written_items(alloc, ty)?;
    Ok(list_type(alloc, ty)?)
}
