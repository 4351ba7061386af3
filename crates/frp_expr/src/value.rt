//! The values of expressions.

ghost use Rattle.std.specs.Prelude.{◌≡◌, [], ◌∷◌, ◌++◌, map, slice_index_or, IsTrue, IfOk, OnOk};
ghost use Rattle.std.specs.Fmt.{signed_decimal};
ghost use Rattle.frp_base.specs.declared.val.Val.TheVariants as val;
ghost use Rattle.frp_expr.specs.Operators.{appended as put_together, cut};
ghost use Rattle.frp_expr.specs.Parts.{zero_val, int_of, bool_of, text_of, items_of};
ghost use Rattle.frp_expr.specs.Eval.{eval, each_value, of_one, of_two, of_two_seen, has_one, has_two};

use crate::expr::Expr;
use crate::operators::{
    append, cat, difference, divided, first, is_less, item, left_over, length, negated, number,
    product, second, sum, truth,
};
use frp_base::{Boxed, Memory, Seq, Text, Val};
use std::alloc::Global;

/// The value of an expression over these values, of which item i is that of `Var(i)`. Where the expression has a type over
/// the types of the values, its value is of that type. Other expressions have a value too: a variable without a value, and
/// an operand of another kind than its operator's, count as 0, false, no text or no items.
pub fn eval(alloc: Global, e: &Expr, env: &[Val]) -> Result<Val, Memory>
    ensures { IfOk result (λ v. v ≡ eval e.now env.now) }
{
    value(alloc, e, env, &mut Seq::new(alloc))
}

/// The value of an expression over these values and those that `let` has bound.
#[cycle(value)]
fn value(alloc: Global, e: &Expr, env: &[Val], bound: &mut Seq<Val>) -> Result<Val, Memory>
    ensures value { IfOk result (λ v. v ≡ eval e.now (env.now ++ bound.old)) }
    ensures bound { OnOk result (bound.new ≡ bound.old) }
{
    match e {
        Expr::Int(n) => Ok(Val::Int(*n)),
        Expr::Bool(b) => Ok(Val::Bool(*b)),
        Expr::Text(t) => text_value(t),
        Expr::Var(i) => variable(alloc, *i, env, bound.as_slice()),
        Expr::Neg(_)
        | Expr::Not(_)
        | Expr::First(_)
        | Expr::Second(_)
        | Expr::Len(_)
        | Expr::Show(_) => unary(alloc, e, env, bound),
        Expr::Add(_, _)
        | Expr::Sub(_, _)
        | Expr::Mul(_, _)
        | Expr::Div(_, _)
        | Expr::Rem(_, _)
        | Expr::Lt(_, _)
        | Expr::Eq(_, _)
        | Expr::And(_, _)
        | Expr::Or(_, _)
        | Expr::Pair(_, _)
        | Expr::Append(_, _)
        | Expr::Cat(_, _) => binary(alloc, e, env, bound),
        Expr::Let(a, b) => {
            let a = value(alloc, a.get(), env, bound)?;
            within(alloc, b.get(), env, bound, a)
        }
        Expr::If(c, a, b) => {
            if test(alloc, c.get(), env, bound)? {
                value(alloc, a.get(), env, bound)
            } else {
                value(alloc, b.get(), env, bound)
            }
        }
        Expr::At(a, i, d) => {
            let a = boxed(alloc, a.get(), env, bound)?;
            let i = index(alloc, i.get(), env, bound)?;
            let d = value(alloc, d.get(), env, bound)?;
            Ok(item(alloc, a.into_inner(), &Val::Int(i), d))
        }
        Expr::List(es) => list(alloc, es.as_slice(), env, bound),
        Expr::Nil(_) => Ok(Val::List(Seq::new(alloc))),
        Expr::Close(f, es) => close(alloc, *f, es.as_slice(), env, bound),
    }
}

#[cycle(value)]
fn unary(alloc: Global, e: &Expr, env: &[Val], bound: &mut Seq<Val>) -> Result<Val, Memory>
    requires { IsTrue (has_one e.now) }
    ensures value { IfOk result (λ x. x ≡ eval e.now (env.now ++ bound.old)) }
    ensures bound { OnOk result (bound.new ≡ bound.old) }
{
    match e {
        Expr::Neg(a)
        | Expr::Not(a)
        | Expr::First(a)
        | Expr::Second(a)
        | Expr::Len(a)
        | Expr::Show(a) => {
            let a = value(alloc, a.get(), env, bound)?;
            of_one(alloc, e, a)
        }
        _ => unreachable!(),
    }
}

#[cycle(value)]
fn binary(alloc: Global, e: &Expr, env: &[Val], bound: &mut Seq<Val>) -> Result<Val, Memory>
    requires { IsTrue (has_two e.now) }
    ensures value { IfOk result (λ x. x ≡ eval e.now (env.now ++ bound.old)) }
    ensures bound { OnOk result (bound.new ≡ bound.old) }
{
    match e {
        Expr::Add(a, b)
        | Expr::Sub(a, b)
        | Expr::Mul(a, b)
        | Expr::Div(a, b)
        | Expr::Rem(a, b)
        | Expr::Lt(a, b)
        | Expr::Eq(a, b)
        | Expr::And(a, b)
        | Expr::Or(a, b)
        | Expr::Pair(a, b)
        | Expr::Append(a, b)
        | Expr::Cat(a, b) => {
            let a = value(alloc, a.get(), env, bound)?;
            let b = value(alloc, b.get(), env, bound)?;
            of_two(alloc, e, a, b)
        }
        _ => unreachable!(),
    }
}

#[cycle(value)]
fn test(alloc: Global, c: &Expr, env: &[Val], bound: &mut Seq<Val>) -> Result<bool, Memory>
    ensures value { IfOk result (λ x. x ≡ bool_of (eval c.now (env.now ++ bound.old))) }
    ensures bound { OnOk result (bound.new ≡ bound.old) }
{
    let c = value(alloc, c, env, bound)?;
    Ok(truth(&c))
}

#[cycle(value)]
fn index(alloc: Global, c: &Expr, env: &[Val], bound: &mut Seq<Val>) -> Result<i64, Memory>
    ensures value { IfOk result (λ x. x ≡ int_of (eval c.now (env.now ++ bound.old))) }
    ensures bound { OnOk result (bound.new ≡ bound.old) }
{
    let c = value(alloc, c, env, bound)?;
    Ok(number(&c))
}

#[cycle(value)]
fn boxed(alloc: Global, e: &Expr, env: &[Val], bound: &mut Seq<Val>) -> Result<Boxed<Val>, Memory>
    ensures value { IfOk result (λ x. x ≡ eval e.now (env.now ++ bound.old)) }
    ensures bound { OnOk result (bound.new ≡ bound.old) }
{
    let found = value(alloc, e, env, bound)?;
    Boxed::new(alloc, found)
}

#[cycle(value)]
fn list(alloc: Global, es: &[Expr], env: &[Val], bound: &mut Seq<Val>) -> Result<Val, Memory>
    ensures value { IfOk result (λ x. x ≡ val.List (each_value (map eval es.now) (env.now ++ bound.old))) }
    ensures bound { OnOk result (bound.new ≡ bound.old) }
{
    let all = values(alloc, es, env, bound)?;
    Ok(Val::List(all))
}

#[cycle(value)]
fn close(
    alloc: Global,
    f: u32,
    es: &[Expr],
    env: &[Val],
    bound: &mut Seq<Val>,
) -> Result<Val, Memory>
    ensures value { IfOk result (λ x. x ≡ val.Fun f (each_value (map eval es.now) (env.now ++ bound.old))) }
    ensures bound { OnOk result (bound.new ≡ bound.old) }
{
    let all = values(alloc, es, env, bound)?;
    Ok(Val::Fun(f, all))
}

/// A copy of a literal text.
fn text_value(t: &Text) -> Result<Val, Memory>
    ensures { IfOk result (λ x. x ≡ val.Text t.now) }
{
    Ok(Val::Text(t.copy()?))
}

/// The value of an expression where one more value is bound.
#[cycle(value)]
#[tactic(auto, using(std::proofs::Common::append_assoc))]
fn within(
    alloc: Global,
    e: &Expr,
    env: &[Val],
    bound: &mut Seq<Val>,
    more: Val,
) -> Result<Val, Memory>
    ensures value { IfOk result (λ v. v ≡ eval e.now (env.now ++ bound.old ++ more ∷ [])) }
    ensures bound { OnOk result (bound.new ≡ bound.old) }
{
    bound.add(more)?;
    let found = value(alloc, e, env, bound)?;
    let _ = bound.pop();
    Ok(found)
}

/// The values of several expressions, in order.
#[cycle(value)]
fn values(alloc: Global, es: &[Expr], env: &[Val], bound: &mut Seq<Val>) -> Result<Seq<Val>, Memory>
    ensures values { IfOk result (λ vs. vs ≡ each_value (map eval es.now) (env.now ++ bound.old)) }
    ensures bound { OnOk result (bound.new ≡ bound.old) }
{
    let mut all = Seq::new(alloc);
    for e in es {
        let found = value(alloc, e, env, bound)?;
        all.add(found)?;
    }
    Ok(all)
}

/// The value of a variable, over these values and those that are bound; 0 where it has none.
fn variable(alloc: Global, i: u64, env: &[Val], bound: &[Val]) -> Result<Val, Memory>
    ensures { IfOk result (λ v. v ≡ slice_index_or (env.now ++ bound.now) i zero_val) }
{
    let i = i as usize;
    if i < env.len() {
        return env[i].copy(alloc);
    }
    match bound.get(i - env.len()) {
        Some(value) => value.copy(alloc),
        None => Ok(Val::Int(0)),
    }
}

/// The value of an operator on one value.
fn of_one(alloc: Global, e: &Expr, a: Val) -> Result<Val, Memory>
    ensures { IfOk result (λ x. x ≡ of_one e.now a) }
{
    match e {
        Expr::Neg(_) => Ok(Val::Int(negated(&a))),
        Expr::Not(_) => Ok(Val::Bool(!truth(&a))),
        Expr::Len(_) => Ok(Val::Int(length(&a))),
        Expr::First(_) => Ok(first(a)),
        Expr::Second(_) => Ok(second(a)),
        _ => shown(alloc, &a),
    }
}

/// The text of a number.
fn shown(alloc: Global, a: &Val) -> Result<Val, Memory>
    ensures { IfOk result (λ x. x ≡ val.Text (signed_decimal (int_of a.now))) }
{
    Ok(Val::Text(Text::of(number(a).to_string(alloc)?)))
}

/// The value of an operator on two values.
fn of_two(alloc: Global, e: &Expr, a: Val, b: Val) -> Result<Val, Memory>
    ensures { IfOk result (λ x. x ≡ of_two e.now a b) }
{
    match e {
        Expr::Pair(_, _) => paired(alloc, a, b),
        Expr::Append(_, _) => appended(alloc, a, b),
        Expr::Cat(_, _) => joined(alloc, a, b),
        _ => Ok(of_two_seen(e, &a, &b)),
    }
}

/// The value of an operator that looks at two values.
fn of_two_seen(e: &Expr, a: &Val, b: &Val) -> Val
    ensures { result ≡ of_two_seen e.now a.now b.now }
{
    match e {
        Expr::Add(_, _) => Val::Int(sum(a, b)),
        Expr::Sub(_, _) => Val::Int(difference(a, b)),
        Expr::Mul(_, _) => Val::Int(product(a, b)),
        Expr::Div(_, _) => Val::Int(divided(a, b)),
        Expr::Rem(_, _) => Val::Int(left_over(a, b)),
        Expr::Lt(_, _) => Val::Bool(is_less(a, b)),
        Expr::Eq(_, _) => Val::Bool(a.is(b)),
        Expr::And(_, _) => Val::Bool(truth(a) && truth(b)),
        _ => Val::Bool(truth(a) || truth(b)),
    }
}

/// The list of the items of two lists.
fn appended(alloc: Global, a: Val, b: Val) -> Result<Val, Memory>
    ensures { IfOk result (λ x. x ≡ val.List (put_together (items_of a) (items_of b))) }
{
    Ok(Val::List(append(alloc, a, b)?))
}

/// The text of two texts.
fn joined(alloc: Global, a: Val, b: Val) -> Result<Val, Memory>
    ensures { IfOk result (λ x. x ≡ val.Text (cut (text_of a ++ text_of b))) }
{
    Ok(Val::Text(cat(alloc, a, b)?))
}

/// The pair of two values.
fn paired(alloc: Global, a: Val, b: Val) -> Result<Val, Memory>
    ensures { IfOk result (λ x. x ≡ val.Pair a b) }
{
    let a = Boxed::new(alloc, a)?;
    let b = Boxed::new(alloc, b)?;
    Ok(Val::Pair(a, b))
}
