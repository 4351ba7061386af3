//! Stopping at a fault.

ghost use Rattle.std.specs.Prelude.{◌≡◌, Err};
ghost use Rattle.frp_expr.specs.Raw.{or_fault};
ghost use Rattle.frp_expr.specs.Gives.{ExprGives};
ghost use Rattle.frp_expr.specs.Types.{given};

use crate::fault::{ExprStop, TypeFault, TypeKind};
use frp_base::Ty;

/// Stops at a fault of this kind.
pub fn stop<T>(place: u64, kind: TypeKind) -> Result<T, ExprStop>
    ensures { result ≡ Err (ExprStop.Fault (record { place = place; kind = kind })) }
{
    Err(ExprStop::Fault(TypeFault { place, kind }))
}

/// The type that there is, else a fault of a type at this place.
pub fn right(found: Option<Ty>, place: u64) -> Result<Ty, ExprStop>
    ensures { ExprGives (λ x. x) result (or_fault place TypeKind.Type found) }
{
    match found {
        Some(ty) => Ok(ty),
        None => stop(place, TypeKind::Type),
    }
}

/// The type where the test holds, else none.
pub fn given(holds: bool, ty: Ty) -> Option<Ty>
    ensures { result ≡ given holds ty }
{
    if holds { Some(ty) } else { None }
}
