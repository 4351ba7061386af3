//! The entries of a scope that an expression uses.

ghost use Rattle.std.specs.Prelude.{◌≡◌, ◌==◌, map, OnOk};
ghost use Rattle.std.specs.List.{list_any};
ghost use Rattle.frp_expr.specs.Uses.{note, noting, each_noted};

use crate::expr::Expr;
use frp_base::{Memory, Seq};

/// Adds the entries below n that an expression uses and that are not among these yet, in the order of first use.
#[cycle(uses)]
pub fn note_uses(e: &Expr, n: u64, used: &mut Seq<u64>) -> Result<(), Memory>
    ensures { OnOk result (used.new ≡ noting n e.now used.old) }
{
    match e {
        Expr::Int(_) | Expr::Bool(_) | Expr::Text(_) | Expr::Nil(_) => Ok(()),
        Expr::Var(i) => note_var(*i, n, used),
        Expr::Neg(a)
        | Expr::Not(a)
        | Expr::First(a)
        | Expr::Second(a)
        | Expr::Len(a)
        | Expr::Show(a) => note_uses(a.get(), n, used),
        Expr::Let(a, b)
        | Expr::Add(a, b)
        | Expr::Sub(a, b)
        | Expr::Mul(a, b)
        | Expr::Div(a, b)
        | Expr::Rem(a, b)
        | Expr::Lt(a, b)
        | Expr::Eq(a, b)
        | Expr::And(a, b)
        | Expr::Or(a, b)
        | Expr::Pair(a, b)
        | Expr::Append(a, b)
        | Expr::Cat(a, b) => {
            note_uses(a.get(), n, used)?;
            note_uses(b.get(), n, used)
        }
        Expr::If(a, b, c) | Expr::At(a, b, c) => {
            note_uses(a.get(), n, used)?;
            note_uses(b.get(), n, used)?;
            note_uses(c.get(), n, used)
        }
        Expr::List(es) | Expr::Close(_, es) => note_all(es.as_slice(), n, used),
    }
}

/// The same for several expressions, in order.
#[cycle(uses)]
fn note_all(es: &[Expr], n: u64, used: &mut Seq<u64>) -> Result<(), Memory>
    ensures { OnOk result (used.new ≡ each_noted (map (noting n) es.now) used.old) }
{
    for e in es {
        note_uses(e, n, used)?;
    }
    Ok(())
}

/// The same for a variable.
fn note_var(i: u64, n: u64, used: &mut Seq<u64>) -> Result<(), Memory>
    ensures { OnOk result (used.new ≡ note n used.old i) }
{
    if i < n && !contains(used.as_slice(), i) {
        used.add(i)
    } else {
        Ok(())
    }
}

fn contains(used: &[u64], i: u64) -> bool
    ensures { result ≡ list_any (λ j. j == i) used.now }
{
    used.iter().any(|j| *j == i)
}
