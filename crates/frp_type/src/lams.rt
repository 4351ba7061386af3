//! Expressions of shapes, over their variables.

ghost use Rattle.std.specs.Prelude.{◌≡◌, ◌<◌, ◌^◌, ◌++◌, [], ◌∷◌, length, filter, nat_lt, IsTrue, IfOk, OnOk};
ghost use Rattle.frp_expr.specs.Gives.{ExprGives};
ghost use Rattle.frp_expr.specs.Raw.{is_lawful, typing};
ghost use Rattle.frp_expr.specs.TypeOf.{IsTypingOf};
ghost use Rattle.frp_type.specs.Closed.{kept_number, renumbered_vars};
ghost use Rattle.frp_type.specs.Meaning.{code, line_lam};
ghost use Rattle.frp_type.specs.States.{here};

use crate::closing::{closed, kept_below};
use frp_base::{Boxed, Memory, Seq, Text, Ty};
use frp_expr::{Expr, ExprStop, Raw, Scope, Typing, type_of};
use frp_graph::LineLam;
use std::alloc::Global;

/// The typing of an expression where one more name is in scope.
fn over_one(
    alloc: Global,
    scope: &mut Scope,
    x: &Text,
    a: Boxed<Ty>,
    e: &Raw,
) -> Result<Boxed<Typing>, ExprStop>
    requires lawful { IsTrue (is_lawful e.now) }
    requires funs { length scope.old.funs < 2 ^ 32 }
    ensures ty { ExprGives (λ t. t.ty) result (typing scope.old.funs e.now (scope.old.names ++ (x.now, a) ∷ [])) }
    ensures typing { IfOk result (λ t. IsTypingOf (record { names = scope.old.names ++ (x.now, a) ∷ []; funs = scope.old.funs }) e.now t) }
    ensures scope { OnOk result (scope.new ≡ scope.old) }
{
    let x = x.copy()?;
    scope.names.add((x, a.into_inner()))?;
    let typing = Boxed::new(alloc, type_of(alloc, e, scope)?)?;
    let _ = scope.names.pop();
    Ok(typing)
}

/// The typing of an expression where two more names are in scope.
#[tactic(auto, using(std::proofs::Common::append_assoc))]
fn over_two(
    alloc: Global,
    scope: &mut Scope,
    x: &Text,
    a: Boxed<Ty>,
    y: &Text,
    b: Boxed<Ty>,
    e: &Raw,
) -> Result<Boxed<Typing>, ExprStop>
    requires lawful { IsTrue (is_lawful e.now) }
    requires funs { length scope.old.funs < 2 ^ 32 }
    ensures ty { ExprGives (λ t. t.ty) result (typing scope.old.funs e.now (scope.old.names ++ (x.now, a) ∷ (y.now, b) ∷ [])) }
    ensures typing { IfOk result (λ t. IsTypingOf (record { names = scope.old.names ++ (x.now, a) ∷ (y.now, b) ∷ []; funs = scope.old.funs }) e.now t) }
    ensures scope { OnOk result (scope.new ≡ scope.old) }
{
    let x = x.copy()?;
    scope.names.add((x, a.into_inner()))?;
    let typing = over_one(alloc, scope, y, b, e)?;
    let _ = scope.names.pop();
    Ok(typing)
}

/// Makes an expression the next of the program, over those of the first n names that it uses and its variables.
fn close_over(
    alloc: Global,
    codes: &mut Seq<Expr>,
    n: u64,
    typing: &Typing,
) -> Result<LineLam, Memory>
    requires { length codes.old < 2 ^ 32 }
    ensures stands { IfOk result (λ r. r ≡ record { code = length codes.old; kept = filter (λ i. nat_lt i n) typing.now.used }) }
    ensures codes { OnOk result (codes.new ≡ codes.old ++ renumbered_vars (kept_number n (filter (λ i. nat_lt i n) typing.now.used)) typing.now.expr ∷ []) }
{
    let kept = kept_below(alloc, typing.used.as_slice(), n)?;
    let code = codes.as_slice().len() as u32;
    let closed = closed(alloc, &typing.expr, n, kept.as_slice())?;
    codes.add(closed)?;
    Ok(LineLam { code, kept })
}

/// The expression of a shape with one variable, which becomes the next of the program, and its type.
pub fn lam_one(
    alloc: Global,
    scope: &mut Scope,
    codes: &mut Seq<Expr>,
    x: &Text,
    a: Boxed<Ty>,
    e: &Raw,
) -> Result<(LineLam, Boxed<Ty>), ExprStop>
    requires lawful { IsTrue (is_lawful e.now) }
    requires funs { length scope.old.funs < 2 ^ 32 }
    requires codes { length codes.old < 2 ^ 32 }
    ensures ty { ExprGives (λ r. r.1) result (typing scope.old.funs e.now (scope.old.names ++ (x.now, a) ∷ [])) }
    ensures stands { IfOk result (λ r. r.0 ≡ line_lam (here scope.old codes.old) (x.now ∷ []) e.now) }
    ensures codes { OnOk result (codes.new ≡ codes.old ++ code (here scope.old codes.old) (x.now ∷ []) e.now ∷ []) }
    ensures scope { OnOk result (scope.new ≡ scope.old) }
{
    let n = scope.names.as_slice().len() as u64;
    let typing = over_one(alloc, scope, x, a, e)?;
    let f = close_over(alloc, codes, n, typing.get())?;
    let ty = Boxed::new(alloc, typing.get().ty.copy(alloc)?)?;
    Ok((f, ty))
}

/// The same for a shape with two variables.
pub fn lam_two(
    alloc: Global,
    scope: &mut Scope,
    codes: &mut Seq<Expr>,
    x: &Text,
    a: Boxed<Ty>,
    y: &Text,
    b: Boxed<Ty>,
    e: &Raw,
) -> Result<(LineLam, Boxed<Ty>), ExprStop>
    requires lawful { IsTrue (is_lawful e.now) }
    requires funs { length scope.old.funs < 2 ^ 32 }
    requires codes { length codes.old < 2 ^ 32 }
    ensures ty { ExprGives (λ r. r.1) result (typing scope.old.funs e.now (scope.old.names ++ (x.now, a) ∷ (y.now, b) ∷ [])) }
    ensures stands { IfOk result (λ r. r.0 ≡ line_lam (here scope.old codes.old) (x.now ∷ y.now ∷ []) e.now) }
    ensures codes { OnOk result (codes.new ≡ codes.old ++ code (here scope.old codes.old) (x.now ∷ y.now ∷ []) e.now ∷ []) }
    ensures scope { OnOk result (scope.new ≡ scope.old) }
{
    let n = scope.names.as_slice().len() as u64;
    let typing = over_two(alloc, scope, x, a, y, b, e)?;
    let f = close_over(alloc, codes, n, typing.get())?;
    let ty = Boxed::new(alloc, typing.get().ty.copy(alloc)?)?;
    Ok((f, ty))
}
