//! Names: new ones, and where they stand in a body.

ghost use Rattle.std.specs.Prelude.{◌≡◌, ◌<◌, ◌==◌, filter, not, length, IfOk};
ghost use Rattle.std.specs.List.{list_any};
ghost use Rattle.frp_expr.specs.Gives.{ExprGives};
ghost use Rattle.frp_expr.specs.Raw.{or_fault};
ghost use Rattle.frp_expr.specs.Scope.{text_eq, place_of, names_of, fun_names};
ghost use Rattle.frp_type.specs.Known.{unless_taken};

use crate::state::Loop;
use frp_base::{Memory, Seq, Text, Ty};
use frp_expr::{ExprStop, Spot, TypeKind, place_of, stop};
use std::alloc::Global;

/// Stops where a name is among these already.
pub fn new_name(names: &[(Text, Ty)], n: &Spot) -> Result<(), ExprStop>
    ensures { ExprGives (λ _. tt) result (unless_taken (names_of names.now) n.now) }
{
    if is_declared(names, &n.text) {
        stop(n.at, TypeKind::Twice)
    } else {
        Ok(())
    }
}

/// Whether a name is among these.
fn is_declared(names: &[(Text, Ty)], name: &Text) -> bool
    ensures { result ≡ list_any (λ m. text_eq m name.now) (names_of names.now) }
{
    for entry in names {
        if entry.0 == *name {
            return true;
        }
    }
    false
}

/// Stops where a function of this name is among these already.
pub fn new_fun(funs: &[(Text, Seq<Ty>, Ty, Ty)], n: &Spot) -> Result<(), ExprStop>
    ensures { ExprGives (λ _. tt) result (unless_taken (fun_names funs.now) n.now) }
{
    if is_fun(funs, &n.text) {
        stop(n.at, TypeKind::Twice)
    } else {
        Ok(())
    }
}

/// Whether a function of this name is among these.
fn is_fun(funs: &[(Text, Seq<Ty>, Ty, Ty)], name: &Text) -> bool
    ensures { result ≡ list_any (λ m. text_eq m name.now) (fun_names funs.now) }
{
    for entry in funs {
        if entry.0 == *name {
            return true;
        }
    }
    false
}

/// The position of a name of the body, or a fault.
pub fn named(names: &[(Text, Ty)], n: &Spot) -> Result<usize, ExprStop>
    ensures place { ExprGives (λ i. i) result (or_fault n.now.at TypeKind.Unknown (place_of n.now.text (names_of names.now))) }
    ensures within { IfOk result (λ i. i < length names.now) }
{
    match place_of(names, &n.text) {
        Some(i) => Ok(i),
        None => stop(n.at, TypeKind::Unknown),
    }
}

/// Whether the loop at this position is among these.
pub fn is_untied(loops: &[Loop], position: u64) -> bool
    ensures { result ≡ list_any (λ l. l.position == position) loops.now }
{
    loops.iter().any(|l| l.position == position)
}

/// These loops without that at this position.
pub fn without(alloc: Global, loops: &[Loop], position: u64) -> Result<Seq<Loop>, Memory>
    ensures { IfOk result (λ r. r ≡ filter (λ m. not (m.position == position)) loops.now) }
{
    let mut others = Seq::new(alloc);
    for l in loops {
        if l.position != position {
            others.add(*l)?;
        }
    }
    Ok(others)
}
