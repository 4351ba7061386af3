//! Expressions of the program, applied to values.

ghost use Rattle.std.specs.Prelude.{◌≡◌, [], ◌∷◌, ◌++◌, slice_get, slice_index_or, pos, option_map, IfOk, Some};
ghost use Rattle.frp_base.specs.declared.val.Val.{out-Val};
ghost use Rattle.frp_expr.specs.declared.expr.Expr.TheVariants as ex;
ghost use Rattle.frp_expr.specs.Eval.{eval};
ghost use Rattle.frp_expr.specs.Parts.{bool_in};
ghost use Rattle.frp_graph.specs.Applied.{call, applied};

use frp_base::{Memory, Seq, Val};
use frp_expr::{Expr, eval};
use frp_graph::{Lam, Prog};
use std::alloc::Global;

/// An expression of the program on one argument.
pub fn call_one(alloc: Global, prog: &Prog, f: &Lam, a: &Val) -> Result<Val, Memory>
    ensures { IfOk result (λ v. v ≡ call prog.now f.now (a.now ∷ [])) }
{
    let mut env = kept(alloc, f.kept.as_slice())?;
    env.add(a.copy(alloc)?)?;
    code(alloc, prog, f.code, env.as_slice())
}

/// An expression of the program on two arguments.
pub fn call_two(alloc: Global, prog: &Prog, f: &Lam, a: &Val, b: &Val) -> Result<Val, Memory>
    ensures { IfOk result (λ v. v ≡ call prog.now f.now (a.now ∷ b.now ∷ [])) }
{
    let mut env = kept(alloc, f.kept.as_slice())?;
    env.add(a.copy(alloc)?)?;
    env.add(b.copy(alloc)?)?;
    code(alloc, prog, f.code, env.as_slice())
}

/// Copies of kept values.
fn kept(alloc: Global, values: &[Val]) -> Result<Seq<Val>, Memory>
    ensures { IfOk result (λ vs. vs ≡ values.now) }
{
    let mut kept = Seq::new(alloc);
    for value in values {
        kept.add(value.copy(alloc)?)?;
    }
    Ok(kept)
}

/// An expression of the program over these values.
fn code(alloc: Global, prog: &Prog, number: u32, env: &[Val]) -> Result<Val, Memory>
    ensures { IfOk result (λ v. v ≡ eval (slice_index_or prog.now.codes number (ex.Int (pos 0))) env.now) }
{
    match prog.codes.as_slice().get(number as usize) {
        Some(e) => eval(alloc, e, env),
        None => eval(alloc, &Expr::Int(0), env),
    }
}

/// A function value on its argument; a value that is no function of the program gives none.
pub fn function(alloc: Global, prog: &Prog, f: &Val, a: &Val) -> Result<Option<Val>, Memory>
    ensures { IfOk result (λ o. o ≡ applied prog.now f.now a.now) }
{
    match f {
        Val::Fun(number, values) => numbered(alloc, prog, *number, values.as_slice(), a),
        _ => Ok(None),
    }
}

/// The function of a number, with these kept values, on its argument.
fn numbered(
    alloc: Global,
    prog: &Prog,
    number: u32,
    values: &[Val],
    a: &Val,
) -> Result<Option<Val>, Memory>
    ensures { IfOk result (λ o. o ≡ option_map (λ d. eval d.e (values.now ++ a.now ∷ [])) (slice_get prog.now.funs number)) }
{
    match prog.funs.as_slice().get(number as usize) {
        Some(d) => {
            let mut env = kept(alloc, values)?;
            env.add(a.copy(alloc)?)?;
            Ok(Some(eval(alloc, &d.e, env.as_slice())?))
        }
        None => Ok(None),
    }
}

/// Whether a value is the truth.
pub fn truth(value: &Val) -> bool
    ensures { result ≡ bool_in (out-Val value.now) }
{
    if let Val::Bool(b) = value { *b } else { false }
}
