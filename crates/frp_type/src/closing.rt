//! Expressions over what they use of a body.

ghost use Rattle.std.specs.Prelude.{◌≡◌, filter, nat_lt, map, IsTrue, IfOk};
ghost use Rattle.frp_expr.specs.declared.expr.Expr.TheVariants as x;
ghost use Rattle.frp_expr.specs.Eval.{has_one, has_two};
ghost use Rattle.frp_type.specs.Closed.{position, kept_number, renumbered_vars};
ghost use Rattle.frp_type.specs.Rebuilding.{is_branching, over_one, over_two, over_three};

use frp_base::{Boxed, Memory, Seq, Text, Ty};
use frp_expr::Expr;
use std::alloc::Global;

/// An expression over n values and others after them, as one over those of the n that are kept, and the others. `kept` are
/// the positions of those that are kept, in their new order. A variable whose new number is past 64 bits, which can be only
/// where more are kept than there are, counts as want of memory.
#[cycle(closed)]
pub fn closed(alloc: Global, e: &Expr, n: u64, kept: &[u64]) -> Result<Expr, Memory>
    ensures { IfOk result (λ r. r ≡ renumbered_vars (kept_number n kept.now) e.now) }
{
    match e {
        Expr::Int(i) => Ok(Expr::Int(*i)),
        Expr::Bool(b) => Ok(Expr::Bool(*b)),
        Expr::Text(text) => literal(text),
        Expr::Var(i) => variable(*i, n, kept),
        Expr::Neg(_)
        | Expr::Not(_)
        | Expr::First(_)
        | Expr::Second(_)
        | Expr::Len(_)
        | Expr::Show(_) => unary(alloc, e, n, kept),
        Expr::Add(_, _)
        | Expr::Sub(_, _)
        | Expr::Mul(_, _)
        | Expr::Div(_, _)
        | Expr::Rem(_, _)
        | Expr::Lt(_, _)
        | Expr::Eq(_, _)
        | Expr::And(_, _)
        | Expr::Or(_, _)
        | Expr::Pair(_, _)
        | Expr::Append(_, _)
        | Expr::Cat(_, _) => binary(alloc, e, n, kept),
        Expr::Let(_, _) | Expr::If(_, _, _) | Expr::At(_, _, _) => branching(alloc, e, n, kept),
        Expr::List(es) => list(alloc, es.as_slice(), n, kept),
        Expr::Nil(ty) => nil(alloc, ty),
        Expr::Close(f, es) => close(alloc, *f, es.as_slice(), n, kept),
    }
}

/// The same literal text.
fn literal(text: &Text) -> Result<Expr, Memory>
    ensures { IfOk result (λ r. r ≡ x.Text text.now) }
{
    Ok(Expr::Text(text.copy()?))
}

/// The variable of the new number.
fn variable(i: u64, n: u64, kept: &[u64]) -> Result<Expr, Memory>
    ensures { IfOk result (λ r. r ≡ x.Var (kept_number n kept.now i)) }
{
    Ok(Expr::Var(number(i, n, kept)?))
}

/// The same empty list.
fn nil(alloc: Global, ty: &Ty) -> Result<Expr, Memory>
    ensures { IfOk result (λ r. r ≡ x.Nil ty.now) }
{
    Ok(Expr::Nil(ty.copy(alloc)?))
}

/// A list of the items as they are renumbered.
#[cycle(closed)]
fn list(alloc: Global, es: &[Expr], n: u64, kept: &[u64]) -> Result<Expr, Memory>
    ensures { IfOk result (λ r. r ≡ x.List (map (renumbered_vars (kept_number n kept.now)) es.now)) }
{
    Ok(Expr::List(each(alloc, es, n, kept)?))
}

/// A function value whose kept values are as they are renumbered.
#[cycle(closed)]
fn close(alloc: Global, f: u32, es: &[Expr], n: u64, kept: &[u64]) -> Result<Expr, Memory>
    ensures { IfOk result (λ r. r ≡ x.Close f (map (renumbered_vars (kept_number n kept.now)) es.now)) }
{
    Ok(Expr::Close(f, each(alloc, es, n, kept)?))
}

/// The same for an operator on one part.
#[cycle(closed)]
fn unary(alloc: Global, e: &Expr, n: u64, kept: &[u64]) -> Result<Expr, Memory>
    requires { IsTrue (has_one e.now) }
    ensures { IfOk result (λ r. r ≡ renumbered_vars (kept_number n kept.now) e.now) }
{
    match e {
        Expr::Neg(a)
        | Expr::Not(a)
        | Expr::First(a)
        | Expr::Second(a)
        | Expr::Len(a)
        | Expr::Show(a) => {
            let a = part(alloc, a.get(), n, kept)?;
            Ok(over_one(e, a))
        }
        _ => unreachable!(),
    }
}

/// The same for an operator on two parts.
#[cycle(closed)]
fn binary(alloc: Global, e: &Expr, n: u64, kept: &[u64]) -> Result<Expr, Memory>
    requires { IsTrue (has_two e.now) }
    ensures { IfOk result (λ r. r ≡ renumbered_vars (kept_number n kept.now) e.now) }
{
    match e {
        Expr::Add(a, b)
        | Expr::Sub(a, b)
        | Expr::Mul(a, b)
        | Expr::Div(a, b)
        | Expr::Rem(a, b)
        | Expr::Lt(a, b)
        | Expr::Eq(a, b)
        | Expr::And(a, b)
        | Expr::Or(a, b)
        | Expr::Pair(a, b)
        | Expr::Append(a, b)
        | Expr::Cat(a, b) => {
            let a = part(alloc, a.get(), n, kept)?;
            let b = part(alloc, b.get(), n, kept)?;
            Ok(over_two(e, a, b))
        }
        _ => unreachable!(),
    }
}

/// The same for a `let`, an `if` and an item of a list.
#[cycle(closed)]
fn branching(alloc: Global, e: &Expr, n: u64, kept: &[u64]) -> Result<Expr, Memory>
    requires { IsTrue (is_branching e.now) }
    ensures { IfOk result (λ r. r ≡ renumbered_vars (kept_number n kept.now) e.now) }
{
    match e {
        Expr::Let(a, b) => {
            let a = part(alloc, a.get(), n, kept)?;
            let b = part(alloc, b.get(), n, kept)?;
            Ok(Expr::Let(a, b))
        }
        Expr::If(a, b, c) | Expr::At(a, b, c) => {
            let a = part(alloc, a.get(), n, kept)?;
            let b = part(alloc, b.get(), n, kept)?;
            let c = part(alloc, c.get(), n, kept)?;
            Ok(over_three(e, a, b, c))
        }
        _ => unreachable!(),
    }
}

/// The operator over this part.
fn over_one(e: &Expr, a: Boxed<Expr>) -> Expr
    ensures { result ≡ over_one e.now a }
{
    match e {
        Expr::Neg(_) => Expr::Neg(a),
        Expr::Not(_) => Expr::Not(a),
        Expr::First(_) => Expr::First(a),
        Expr::Second(_) => Expr::Second(a),
        Expr::Len(_) => Expr::Len(a),
        _ => Expr::Show(a),
    }
}

/// The operator over these parts.
fn over_two(e: &Expr, a: Boxed<Expr>, b: Boxed<Expr>) -> Expr
    ensures { result ≡ over_two e.now a b }
{
    match e {
        Expr::Add(_, _) => Expr::Add(a, b),
        Expr::Sub(_, _) => Expr::Sub(a, b),
        Expr::Mul(_, _) => Expr::Mul(a, b),
        Expr::Div(_, _) => Expr::Div(a, b),
        Expr::Rem(_, _) => Expr::Rem(a, b),
        Expr::Lt(_, _) => Expr::Lt(a, b),
        Expr::Eq(_, _) => Expr::Eq(a, b),
        Expr::And(_, _) => Expr::And(a, b),
        Expr::Or(_, _) => Expr::Or(a, b),
        Expr::Pair(_, _) => Expr::Pair(a, b),
        Expr::Append(_, _) => Expr::Append(a, b),
        _ => Expr::Cat(a, b),
    }
}

/// The operator over these parts.
fn over_three(e: &Expr, a: Boxed<Expr>, b: Boxed<Expr>, c: Boxed<Expr>) -> Expr
    ensures { result ≡ over_three e.now a b c }
{
    match e {
        Expr::If(_, _, _) => Expr::If(a, b, c),
        _ => Expr::At(a, b, c),
    }
}

/// The same for a part.
#[cycle(closed)]
fn part(alloc: Global, e: &Expr, n: u64, kept: &[u64]) -> Result<Boxed<Expr>, Memory>
    ensures { IfOk result (λ r. r ≡ renumbered_vars (kept_number n kept.now) e.now) }
{
    let e = closed(alloc, e, n, kept)?;
    Boxed::new(alloc, e)
}

/// The same for each of several, in order.
#[cycle(closed)]
fn each(alloc: Global, es: &[Expr], n: u64, kept: &[u64]) -> Result<Seq<Expr>, Memory>
    ensures { IfOk result (λ rs. rs ≡ map (renumbered_vars (kept_number n kept.now)) es.now) }
{
    let mut all = Seq::new(alloc);
    for e in es {
        let found = closed(alloc, e, n, kept)?;
        all.add(found)?;
    }
    Ok(all)
}

/// The new number of a variable.
fn number(i: u64, n: u64, kept: &[u64]) -> Result<u64, Memory>
    ensures { IfOk result (λ r. r ≡ kept_number n kept.now i) }
{
    if i < n {
        return Ok(position(i, kept));
    }
    match (i - n).checked_add(kept.len() as u64) {
        Some(r) => Ok(r),
        None => Err(Memory),
    }
}

/// The position of the first of these that is i; their number where none is.
fn position(i: u64, kept: &[u64]) -> u64
    ensures { result ≡ position i kept.now }
{
    for (at, k) in kept.iter().enumerate() {
        if *k == i {
            return at as u64;
        }
    }
    kept.len() as u64
}

/// Those of these that are below n, in their order.
pub fn kept_below(alloc: Global, used: &[u64], n: u64) -> Result<Seq<u64>, Memory>
    ensures { IfOk result (λ r. r ≡ filter (λ i. nat_lt i n) used.now) }
{
    let mut below = Seq::new(alloc);
    for i in used {
        if *i < n {
            below.add(*i)?;
        }
    }
    Ok(below)
}
