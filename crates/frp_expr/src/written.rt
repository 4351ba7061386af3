//! The types that are written.

ghost use Rattle.frp_expr.specs.Raw.{type_written, item_by, ty_part, ty_of};
ghost use Rattle.std.specs.Prelude.{◌≡◌, IfOk};
ghost use Rattle.frp_expr.specs.Gives.{ExprGives};

use crate::fault::ExprStop;
use crate::faults::{given, right};
use crate::raw::{RawTy, TyForm};
use crate::types::is_plain;
use frp_base::{Boxed, Memory, Ty};
use std::alloc::Global;

/// The type that is written, or its first fault: the items of a list are of a plain type.
#[cycle(written)]
pub fn written(alloc: Global, raw: &RawTy) -> Result<Ty, ExprStop>
    ensures { ExprGives (λ x. x) result (type_written raw.now) }
{
    match &raw.form {
        TyForm::Int => Ok(Ty::Int),
        TyForm::Bool => Ok(Ty::Bool),
        TyForm::Text => Ok(Ty::Text),
        TyForm::Pair(a, b) => {
            let a = part(alloc, a.get())?;
            let b = part(alloc, b.get())?;
            Ok(Ty::Pair(a, b))
        }
        TyForm::List(a) => {
            let a = item_part(alloc, a.get())?;
            Ok(Ty::List(a))
        }
        TyForm::Stream(a) => {
            let a = part(alloc, a.get())?;
            Ok(Ty::Stream(a))
        }
        TyForm::Cell(a) => {
            let a = part(alloc, a.get())?;
            Ok(Ty::Cell(a))
        }
        TyForm::Fun(a, b) => {
            let a = part(alloc, a.get())?;
            let b = part(alloc, b.get())?;
            Ok(Ty::Fun(a, b))
        }
    }
}

/// The type that is written, in a box.
#[cycle(written)]
fn part(alloc: Global, raw: &RawTy) -> Result<Boxed<Ty>, ExprStop>
    ensures { ExprGives (λ x. x) result (type_written raw.now) }
{
    let ty = written(alloc, raw)?;
    Ok(Boxed::new(alloc, ty)?)
}

/// The type that is written for the items of a list, in a box.
#[cycle(written)]
fn item_part(alloc: Global, raw: &RawTy) -> Result<Boxed<Ty>, ExprStop>
    ensures { ExprGives (λ x. x) result (item_by (ty_part raw.now)) }
{
    let ty = item_type(alloc, raw)?;
    Ok(Boxed::new(alloc, ty)?)
}

/// The type that is written for the items of a list, or its first fault.
#[cycle(written)]
pub fn item_type(alloc: Global, raw: &RawTy) -> Result<Ty, ExprStop>
    ensures { ExprGives (λ x. x) result (item_by (ty_part raw.now)) }
{
    let ty = written(alloc, raw)?;
    let plain = is_plain(&ty);
    right(given(plain, ty), raw.at)
}

/// The type that is written, without its places.
#[cycle(stripped)]
pub fn stripped(alloc: Global, raw: &RawTy) -> Result<Ty, Memory>
    ensures { IfOk result (λ t. t ≡ ty_of raw.now) }
{
    match &raw.form {
        TyForm::Int => Ok(Ty::Int),
        TyForm::Bool => Ok(Ty::Bool),
        TyForm::Text => Ok(Ty::Text),
        TyForm::Pair(a, b) => {
            let a = stripped_part(alloc, a.get())?;
            let b = stripped_part(alloc, b.get())?;
            Ok(Ty::Pair(a, b))
        }
        TyForm::List(a) => Ok(Ty::List(stripped_part(alloc, a.get())?)),
        TyForm::Stream(a) => Ok(Ty::Stream(stripped_part(alloc, a.get())?)),
        TyForm::Cell(a) => Ok(Ty::Cell(stripped_part(alloc, a.get())?)),
        TyForm::Fun(a, b) => {
            let a = stripped_part(alloc, a.get())?;
            let b = stripped_part(alloc, b.get())?;
            Ok(Ty::Fun(a, b))
        }
    }
}

#[cycle(stripped)]
fn stripped_part(alloc: Global, raw: &RawTy) -> Result<Boxed<Ty>, Memory>
    ensures { IfOk result (λ t. t ≡ ty_of raw.now) }
{
    let ty = stripped(alloc, raw)?;
    Boxed::new(alloc, ty)
}
