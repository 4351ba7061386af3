//! What is looked at in types, and types that are made.

ghost use Rattle.std.specs.Prelude.{◌≡◌, MatchOption, None, Some, IfOk};
ghost use Rattle.frp_base.specs.declared.ty.Ty.TheVariants as t;
ghost use Rattle.frp_expr.specs.Gives.{ExprGives};
ghost use Rattle.frp_expr.specs.Raw.{or_fault, type_written};
ghost use Rattle.frp_expr.specs.Types as spec;
ghost use Rattle.frp_expr.specs.Typing.{◌>>=◌ as ◌>>?◌};
ghost use Rattle.frp_graph.specs.TypedProg.{stream_item, cell_item};
ghost use Rattle.frp_type.specs.Known.{fun_parts};

use frp_base::{Boxed, Memory, Ty};
use frp_expr::{ExprStop, RawTy, TypeKind, stop, written_type};
use std::alloc::Global;

/// The type of what a stream holds.
pub fn stream_item(ty: Ty) -> Option<Boxed<Ty>>
    ensures { MatchOption result (stream_item ty ≡ None) (λ a. stream_item ty ≡ Some a) }
{
    match ty {
        Ty::Stream(a) => Some(a),
        _ => None,
    }
}

/// The type of what a cell holds.
pub fn cell_item(ty: Ty) -> Option<Boxed<Ty>>
    ensures { MatchOption result (cell_item ty ≡ None) (λ a. cell_item ty ≡ Some a) }
{
    match ty {
        Ty::Cell(a) => Some(a),
        _ => None,
    }
}

/// The type of the items of a list.
fn list_item(ty: Ty) -> Option<Boxed<Ty>>
    ensures { MatchOption result (spec.item_type ty ≡ None) (λ a. spec.item_type ty ≡ Some a) }
{
    match ty {
        Ty::List(a) => Some(a),
        _ => None,
    }
}

/// The argument and the result of a function.
fn fun_parts(ty: Ty) -> Option<(Boxed<Ty>, Boxed<Ty>)>
    ensures { MatchOption result (fun_parts ty ≡ None) (λ r. fun_parts ty ≡ Some (r.0, r.1)) }
{
    match ty {
        Ty::Fun(a, b) => Some((a, b)),
        _ => None,
    }
}

/// The type of the items of the lists that a stream gives, or a fault at this place.
pub fn split_type(ty: Ty, at: u64) -> Result<Boxed<Ty>, ExprStop>
    ensures { ExprGives (λ x. x) result (or_fault at TypeKind.Type (stream_item ty >>? spec.item_type)) }
{
    if let Some(a) = stream_item(ty) {
        if let Some(b) = list_item(a.into_inner()) {
            return Ok(b);
        }
    }
    stop(at, TypeKind::Type)
}

/// The type of what the streams that a cell holds give, or a fault at this place.
pub fn held_stream_item(ty: Ty, at: u64) -> Result<Boxed<Ty>, ExprStop>
    ensures { ExprGives (λ x. x) result (or_fault at TypeKind.Type (cell_item ty >>? stream_item)) }
{
    if let Some(a) = cell_item(ty) {
        if let Some(b) = stream_item(a.into_inner()) {
            return Ok(b);
        }
    }
    stop(at, TypeKind::Type)
}

/// The type of what the cells that a cell holds hold, or a fault at this place.
pub fn held_cell_item(ty: Ty, at: u64) -> Result<Boxed<Ty>, ExprStop>
    ensures { ExprGives (λ x. x) result (or_fault at TypeKind.Type (cell_item ty >>? cell_item)) }
{
    if let Some(a) = cell_item(ty) {
        if let Some(b) = cell_item(a.into_inner()) {
            return Ok(b);
        }
    }
    stop(at, TypeKind::Type)
}

/// The argument and the result of the functions that a cell holds, or a fault at this place.
pub fn held_fun_parts(ty: Ty, at: u64) -> Result<(Boxed<Ty>, Boxed<Ty>), ExprStop>
    ensures { ExprGives (λ r. (r.0, r.1)) result (or_fault at TypeKind.Type (cell_item ty >>? fun_parts)) }
{
    if let Some(f) = cell_item(ty) {
        if let Some(parts) = fun_parts(f.into_inner()) {
            return Ok(parts);
        }
    }
    stop(at, TypeKind::Type)
}

/// The type of streams of these.
pub fn stream_type(alloc: Global, item: &Boxed<Ty>) -> Result<Boxed<Ty>, Memory>
    ensures { IfOk result (λ x. x ≡ t.Stream item.now) }
{
    let item = copied(alloc, item)?;
    Boxed::new(alloc, Ty::Stream(item))
}

/// A copy of a type.
pub fn copied(alloc: Global, ty: &Boxed<Ty>) -> Result<Boxed<Ty>, Memory>
    ensures { IfOk result (λ x. x ≡ ty.now) }
{
    Boxed::new(alloc, ty.get().copy(alloc)?)
}

/// The type that is written, or its first fault.
pub fn boxed_type(alloc: Global, ty: &RawTy) -> Result<Boxed<Ty>, ExprStop>
    ensures { ExprGives (λ x. x) result (type_written ty.now) }
{
    Ok(Boxed::new(alloc, written_type(alloc, ty)?)?)
}
