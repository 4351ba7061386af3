//! The typing of a written expression, or its first fault.

ghost use Rattle.std.specs.Prelude.{◌≡◌, ◌<◌, ◌^◌, length, IsTrue, IfOk, Err};
ghost use Rattle.frp_expr.specs.declared.fault.TypeFault.{TypeFault as Found};
ghost use Rattle.frp_expr.specs.Raw.{is_lawful};
ghost use Rattle.frp_expr.specs.TypeOf.{IsTypingOf, IsFirstFault};

use crate::fault::ExprStop;
use crate::raw::Raw;
use crate::resolving::resolve;
use crate::scope::{Scope, Typing};
use crate::typing::typing;
use crate::uses::note_uses;
use frp_base::Seq;
use std::alloc::Global;

/// The typing of a written expression in a scope, or its first fault, from the left: each part with its own parts first, then
/// its own type in its place, all before the next part. The literal texts are printable and have at most 1,024 bytes, and
/// each list form has 1 to 1,024 items.
pub fn type_of(alloc: Global, raw: &Raw, scope: &Scope) -> Result<Typing, ExprStop>
    requires lawful { IsTrue (is_lawful raw.now) }
    requires funs { length scope.now.funs < 2 ^ 32 }
    ensures typing { IfOk result (λ t. IsTypingOf scope.now raw.now t) }
    ensures fault { (f : Found) → result ≡ Err (ExprStop.Fault f) → IsFirstFault scope.now raw.now f }
{
    let ty = match typing(alloc, raw, scope, &mut Seq::new(alloc)) {
        Ok(ty) => ty,
        Err(stop) => return Err(stop),
    };
    let expr = resolve(alloc, raw, scope, &mut Seq::new(alloc))?;
    let mut used = Seq::new(alloc);
    note_uses(&expr, scope.names.as_slice().len() as u64, &mut used)?;
    Ok(Typing { expr, ty, used })
}
