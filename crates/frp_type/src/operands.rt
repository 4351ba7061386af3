//! Operands and expressions of shapes.

ghost use Rattle.std.specs.Prelude.{◌≡◌, ◌<◌, ◌^◌, length, IsTrue, IfOk};
ghost use Rattle.frp_base.specs.Ty.{ty_eq};
ghost use Rattle.frp_expr.specs.Gives.{ExprGives};
ghost use Rattle.frp_expr.specs.Raw.{is_lawful, or_fault, resolve, typing};
ghost use Rattle.frp_expr.specs.Types.{given};
ghost use Rattle.frp_expr.specs.Scope.{names_of, fun_names};
ghost use Rattle.frp_graph.specs.TypedProg.{stream_item, cell_item};
ghost use Rattle.frp_type.specs.Known.{operand_seen, of_type};

use crate::types::{cell_item, stream_item};
use frp_base::{Boxed, Ty};
use frp_expr::{Expr, ExprStop, Raw, Scope, TypeKind, Typing, stop, type_of};
use std::alloc::Global;

/// An operand's expression and its type.
pub fn operand(
    alloc: Global,
    scope: &Scope,
    raw: &Raw,
) -> Result<(Boxed<Expr>, Boxed<Ty>), ExprStop>
    requires lawful { IsTrue (is_lawful raw.now) }
    requires funs { length scope.now.funs < 2 ^ 32 }
    ensures ty { ExprGives (λ r. r.1) result (typing scope.now.funs raw.now scope.now.names) }
    ensures stands { IfOk result (λ r. r.0 ≡ resolve (fun_names scope.now.funs) raw.now (names_of scope.now.names)) }
{
    let Typing { expr, ty, used: _ } = type_of(alloc, raw, scope)?;
    let expr = Boxed::new(alloc, expr)?;
    Ok((expr, Boxed::new(alloc, ty)?))
}

/// A stream's expression and the type of what it holds.
pub fn stream(alloc: Global, scope: &Scope, raw: &Raw) -> Result<(Boxed<Expr>, Boxed<Ty>), ExprStop>
    requires lawful { IsTrue (is_lawful raw.now) }
    requires funs { length scope.now.funs < 2 ^ 32 }
    ensures ty { ExprGives (λ r. r.1) result (operand_seen scope.now.funs scope.now.names stream_item raw.now) }
    ensures stands { IfOk result (λ r. r.0 ≡ resolve (fun_names scope.now.funs) raw.now (names_of scope.now.names)) }
{
    let (e, ty) = operand(alloc, scope, raw)?;
    match stream_item(ty.into_inner()) {
        Some(a) => Ok((e, a)),
        None => stop(raw.at, TypeKind::Type),
    }
}

/// A cell's expression and the type of what it holds.
pub fn cell(alloc: Global, scope: &Scope, raw: &Raw) -> Result<(Boxed<Expr>, Boxed<Ty>), ExprStop>
    requires lawful { IsTrue (is_lawful raw.now) }
    requires funs { length scope.now.funs < 2 ^ 32 }
    ensures ty { ExprGives (λ r. r.1) result (operand_seen scope.now.funs scope.now.names cell_item raw.now) }
    ensures stands { IfOk result (λ r. r.0 ≡ resolve (fun_names scope.now.funs) raw.now (names_of scope.now.names)) }
{
    let (e, ty) = operand(alloc, scope, raw)?;
    match cell_item(ty.into_inner()) {
        Some(a) => Ok((e, a)),
        None => stop(raw.at, TypeKind::Type),
    }
}

/// The expression of an operand of this type.
pub fn operand_of(alloc: Global, scope: &Scope, raw: &Raw, ty: &Ty) -> Result<Boxed<Expr>, ExprStop>
    requires lawful { IsTrue (is_lawful raw.now) }
    requires funs { length scope.now.funs < 2 ^ 32 }
    ensures ty { ExprGives (λ r. ty.now) result (of_type scope.now.funs scope.now.names ty.now raw.now) }
    ensures stands { IfOk result (λ r. r ≡ resolve (fun_names scope.now.funs) raw.now (names_of scope.now.names)) }
{
    let (e, found) = operand(alloc, scope, raw)?;
    same_type(found.get(), ty, raw.at)?;
    Ok(e)
}

/// Stops at a fault of a type at this place where a type is another than this one.
pub fn same_type(found: &Ty, ty: &Ty, at: u64) -> Result<(), ExprStop>
    ensures { ExprGives (λ _. ty.now) result (or_fault at TypeKind.Type (given (ty_eq found.now ty.now) ty.now)) }
{
    if found.is(ty) {
        Ok(())
    } else {
        stop(at, TypeKind::Type)
    }
}
