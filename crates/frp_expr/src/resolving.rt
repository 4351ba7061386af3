//! The expressions that written expressions stand for.

ghost use Rattle.std.specs.Prelude.{◌≡◌, ◌<◌, ◌^◌, ◌++◌, [], ◌∷◌, map, length, IsTrue, IfOk, OnOk};
ghost use Rattle.frp_expr.specs.declared.expr.Expr.TheVariants as x;
ghost use Rattle.frp_expr.specs.Forms.{is_unary, is_binary, is_agreeing};
ghost use Rattle.frp_expr.specs.Standing.{standing_of_one, standing_of_two, of_three};
ghost use Rattle.frp_expr.specs.Scope.{number_of, names_of, fun_names};
ghost use Rattle.frp_expr.specs.Raw.{ty_of, resolve, each_resolved};

use crate::expr::Expr;
use crate::names::{fun_number, number};
use crate::raw::{Raw, RawForm, RawTy, Spot};
use crate::scope::Scope;
use crate::written::stripped;
use frp_base::{Boxed, Memory, Seq, Text};
use std::alloc::Global;

/// The expression that a written expression stands for, over the names of the scope and those that `let` has bound.
#[cycle(resolve)]
pub fn resolve(
    alloc: Global,
    raw: &Raw,
    scope: &Scope,
    bound: &mut Seq<Text>,
) -> Result<Expr, Memory>
    requires { length scope.now.funs < 2 ^ 32 }
    ensures expr { IfOk result (λ e. e ≡ resolve (fun_names scope.now.funs) raw.now (names_of scope.now.names ++ bound.old)) }
    ensures bound { OnOk result (bound.new ≡ bound.old) }
{
    match &raw.form {
        RawForm::Int(n) => Ok(Expr::Int(*n)),
        RawForm::Bool(b) => Ok(Expr::Bool(*b)),
        RawForm::Text(text) => literal(text),
        RawForm::Name(name) => {
            Ok(Expr::Var(number(scope.names.as_slice(), bound.as_slice(), name)))
        }
        RawForm::Neg(_)
        | RawForm::Not(_)
        | RawForm::First(_)
        | RawForm::Second(_)
        | RawForm::Len(_)
        | RawForm::Show(_) => unary(alloc, raw, scope, bound),
        RawForm::Let(name, a, b) => {
            let a = part(alloc, a.get(), scope, bound)?;
            let b = within(alloc, b.get(), name, scope, bound)?;
            Ok(Expr::Let(a, b))
        }
        RawForm::Add(_, _)
        | RawForm::Sub(_, _)
        | RawForm::Mul(_, _)
        | RawForm::Div(_, _)
        | RawForm::Rem(_, _)
        | RawForm::Lt(_, _)
        | RawForm::And(_, _)
        | RawForm::Or(_, _)
        | RawForm::Cat(_, _) => binary(alloc, raw, scope, bound),
        RawForm::Eq(_, _)
        | RawForm::Pair(_, _)
        | RawForm::Append(_, _)
        | RawForm::If(_, _, _)
        | RawForm::At(_, _, _) => agreeing(alloc, raw, scope, bound),
        RawForm::List(items) => list(alloc, items.as_slice(), scope, bound),
        RawForm::Nil(ty) => nil(alloc, ty),
        RawForm::Close(name, kept) => close(alloc, name, kept.as_slice(), scope, bound),
    }
}

/// A literal text.
fn literal(text: &Text) -> Result<Expr, Memory>
    ensures { IfOk result (λ e. e ≡ x.Text text.now) }
{
    Ok(Expr::Text(text.copy()?))
}

/// An empty list.
fn nil(alloc: Global, ty: &RawTy) -> Result<Expr, Memory>
    ensures { IfOk result (λ e. e ≡ x.Nil (ty_of ty.now)) }
{
    Ok(Expr::Nil(stripped(alloc, ty)?))
}

/// What a list stands for.
#[cycle(resolve)]
fn list(alloc: Global, items: &[Raw], scope: &Scope, bound: &mut Seq<Text>) -> Result<Expr, Memory>
    requires { length scope.now.funs < 2 ^ 32 }
    ensures expr { IfOk result (λ e. e ≡ x.List (each_resolved (map (resolve (fun_names scope.now.funs)) items.now) (names_of scope.now.names ++ bound.old))) }
    ensures bound { OnOk result (bound.new ≡ bound.old) }
{
    let items = each(alloc, items, scope, bound)?;
    Ok(Expr::List(items))
}

/// What a function value stands for.
#[cycle(resolve)]
fn close(
    alloc: Global,
    name: &Spot,
    kept: &[Raw],
    scope: &Scope,
    bound: &mut Seq<Text>,
) -> Result<Expr, Memory>
    requires { length scope.now.funs < 2 ^ 32 }
    ensures expr { IfOk result (λ e. e ≡ x.Close (number_of name.now.text (fun_names scope.now.funs)) (each_resolved (map (resolve (fun_names scope.now.funs)) kept.now) (names_of scope.now.names ++ bound.old))) }
    ensures bound { OnOk result (bound.new ≡ bound.old) }
{
    let kept = each(alloc, kept, scope, bound)?;
    Ok(Expr::Close(fun_number(scope.funs.as_slice(), &name.text), kept))
}

/// What an operator with one part stands for.
#[cycle(resolve)]
fn unary(alloc: Global, raw: &Raw, scope: &Scope, bound: &mut Seq<Text>) -> Result<Expr, Memory>
    requires funs { length scope.now.funs < 2 ^ 32 }
    requires form { IsTrue (is_unary raw.now) }
    ensures expr { IfOk result (λ e. e ≡ resolve (fun_names scope.now.funs) raw.now (names_of scope.now.names ++ bound.old)) }
    ensures bound { OnOk result (bound.new ≡ bound.old) }
{
    match &raw.form {
        RawForm::Neg(a)
        | RawForm::Not(a)
        | RawForm::First(a)
        | RawForm::Second(a)
        | RawForm::Len(a)
        | RawForm::Show(a) => {
            let a = part(alloc, a.get(), scope, bound)?;
            Ok(of_one(raw, a))
        }
        _ => unreachable!(),
    }
}

/// What an operator with two parts of one given type stands for.
#[cycle(resolve)]
fn binary(alloc: Global, raw: &Raw, scope: &Scope, bound: &mut Seq<Text>) -> Result<Expr, Memory>
    requires funs { length scope.now.funs < 2 ^ 32 }
    requires form { IsTrue (is_binary raw.now) }
    ensures expr { IfOk result (λ e. e ≡ resolve (fun_names scope.now.funs) raw.now (names_of scope.now.names ++ bound.old)) }
    ensures bound { OnOk result (bound.new ≡ bound.old) }
{
    match &raw.form {
        RawForm::Add(a, b)
        | RawForm::Sub(a, b)
        | RawForm::Mul(a, b)
        | RawForm::Div(a, b)
        | RawForm::Rem(a, b)
        | RawForm::Lt(a, b)
        | RawForm::And(a, b)
        | RawForm::Or(a, b)
        | RawForm::Cat(a, b) => {
            let a = part(alloc, a.get(), scope, bound)?;
            let b = part(alloc, b.get(), scope, bound)?;
            Ok(of_two(raw, a, b))
        }
        _ => unreachable!(),
    }
}

/// What an operator with parts whose types follow from one another stands for.
#[cycle(resolve)]
fn agreeing(alloc: Global, raw: &Raw, scope: &Scope, bound: &mut Seq<Text>) -> Result<Expr, Memory>
    requires funs { length scope.now.funs < 2 ^ 32 }
    requires form { IsTrue (is_agreeing raw.now) }
    ensures expr { IfOk result (λ e. e ≡ resolve (fun_names scope.now.funs) raw.now (names_of scope.now.names ++ bound.old)) }
    ensures bound { OnOk result (bound.new ≡ bound.old) }
{
    match &raw.form {
        RawForm::Eq(a, b) | RawForm::Pair(a, b) | RawForm::Append(a, b) => {
            let a = part(alloc, a.get(), scope, bound)?;
            let b = part(alloc, b.get(), scope, bound)?;
            Ok(of_two(raw, a, b))
        }
        RawForm::If(a, b, c) | RawForm::At(a, b, c) => {
            let a = part(alloc, a.get(), scope, bound)?;
            let b = part(alloc, b.get(), scope, bound)?;
            let c = part(alloc, c.get(), scope, bound)?;
            Ok(of_three(raw, a, b, c))
        }
        _ => unreachable!(),
    }
}

/// The expression of a written operator on this part.
fn of_one(raw: &Raw, a: Boxed<Expr>) -> Expr
    ensures { result ≡ standing_of_one raw.now a }
{
    match &raw.form {
        RawForm::Neg(_) => Expr::Neg(a),
        RawForm::Not(_) => Expr::Not(a),
        RawForm::First(_) => Expr::First(a),
        RawForm::Second(_) => Expr::Second(a),
        RawForm::Len(_) => Expr::Len(a),
        _ => Expr::Show(a),
    }
}

/// The expression of a written operator on these parts.
fn of_two(raw: &Raw, a: Boxed<Expr>, b: Boxed<Expr>) -> Expr
    ensures { result ≡ standing_of_two raw.now a b }
{
    match &raw.form {
        RawForm::Add(_, _) => Expr::Add(a, b),
        RawForm::Sub(_, _) => Expr::Sub(a, b),
        RawForm::Mul(_, _) => Expr::Mul(a, b),
        RawForm::Div(_, _) => Expr::Div(a, b),
        RawForm::Rem(_, _) => Expr::Rem(a, b),
        RawForm::Lt(_, _) => Expr::Lt(a, b),
        RawForm::And(_, _) => Expr::And(a, b),
        RawForm::Or(_, _) => Expr::Or(a, b),
        RawForm::Cat(_, _) => Expr::Cat(a, b),
        RawForm::Eq(_, _) => Expr::Eq(a, b),
        RawForm::Pair(_, _) => Expr::Pair(a, b),
        _ => Expr::Append(a, b),
    }
}

/// The expression of a written operator on these parts.
fn of_three(raw: &Raw, a: Boxed<Expr>, b: Boxed<Expr>, c: Boxed<Expr>) -> Expr
    ensures { result ≡ of_three raw.now a b c }
{
    match &raw.form {
        RawForm::If(_, _, _) => Expr::If(a, b, c),
        _ => Expr::At(a, b, c),
    }
}

/// What a part stands for.
#[cycle(resolve)]
fn part(
    alloc: Global,
    raw: &Raw,
    scope: &Scope,
    bound: &mut Seq<Text>,
) -> Result<Boxed<Expr>, Memory>
    requires { length scope.now.funs < 2 ^ 32 }
    ensures expr { IfOk result (λ e. e ≡ resolve (fun_names scope.now.funs) raw.now (names_of scope.now.names ++ bound.old)) }
    ensures bound { OnOk result (bound.new ≡ bound.old) }
{
    let expr = resolve(alloc, raw, scope, bound)?;
    Boxed::new(alloc, expr)
}

/// What a part stands for where one more name is bound.
#[cycle(resolve)]
#[tactic(auto, using(std::proofs::Common::append_assoc))]
fn within(
    alloc: Global,
    raw: &Raw,
    name: &Spot,
    scope: &Scope,
    bound: &mut Seq<Text>,
) -> Result<Boxed<Expr>, Memory>
    requires { length scope.now.funs < 2 ^ 32 }
    ensures expr { IfOk result (λ e. e ≡ resolve (fun_names scope.now.funs) raw.now (names_of scope.now.names ++ bound.old ++ name.now.text ∷ [])) }
    ensures bound { OnOk result (bound.new ≡ bound.old) }
{
    bound.add(name.text.copy()?)?;
    let found = part(alloc, raw, scope, bound)?;
    let _ = bound.pop();
    Ok(found)
}

/// What each of several parts stands for, in order.
#[cycle(resolve)]
fn each(
    alloc: Global,
    parts: &[Raw],
    scope: &Scope,
    bound: &mut Seq<Text>,
) -> Result<Seq<Expr>, Memory>
    requires { length scope.now.funs < 2 ^ 32 }
    ensures exprs { IfOk result (λ es. es ≡ each_resolved (map (resolve (fun_names scope.now.funs)) parts.now) (names_of scope.now.names ++ bound.old)) }
    ensures bound { OnOk result (bound.new ≡ bound.old) }
{
    let mut all = Seq::new(alloc);
    for raw in parts {
        let found = resolve(alloc, raw, scope, bound)?;
        all.add(found)?;
    }
    Ok(all)
}
