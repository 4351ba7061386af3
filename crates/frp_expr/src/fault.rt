use frp_base::Memory;
use std::alloc::{AllocError, AllocFailed};

/// What is wrong with a name or a type of a file.
#[derive(Clone, Copy, Debug, PartialEq, Eq)]
pub enum TypeKind {
    /// A name that is not declared before, in its space.
    Unknown,
    /// A name that is declared again in its space and body.
    Twice,
    /// Another number of kept values than declared.
    Arity,
    /// A template that executes others more than eight deep.
    Templates,
    /// A `get` that names a node of its own body.
    Sample,
    /// A `tie` of what is no loop of its body, or is tied already.
    Tied,
    /// An operand of a wrong type, or a list of items of no plain type.
    Type,
    /// A loop that is not tied.
    Untied,
}

/// The first fault of an expression or a file: the place of its first byte in the input, from 0, and its kind.
#[derive(Clone, Copy, Debug, PartialEq, Eq)]
pub struct TypeFault {
    pub place: u64,
    pub kind: TypeKind,
}

/// Why an expression has no typing.
#[derive(Clone, Copy, Debug, PartialEq, Eq)]
pub enum ExprStop {
    /// Its first fault.
    Fault(TypeFault),
    /// Memory is wanting.
    Memory,
}

impl From<Memory> for ExprStop {
    ghost use Rattle.std.specs.Prelude.{◌≡◌};
    ghost use Rattle.frp_expr.specs.declared.fault.ExprStop.TheVariants as stop;

    ghost from_gives = { λ _ e. e ≡ stop.Memory };

    fn from(_error: Memory) -> ExprStop {
        ExprStop::Memory
    }
}

impl From<AllocError> for ExprStop {
    ghost use Rattle.std.specs.Prelude.{◌≡◌};
    ghost use Rattle.frp_expr.specs.declared.fault.ExprStop.TheVariants as stop;

    ghost from_gives = { λ _ e. e ≡ stop.Memory };

    fn from(_error: AllocError) -> ExprStop {
        ExprStop::Memory
    }
}

impl<T: Drop> From<AllocFailed<T>> for ExprStop {
    ghost use Rattle.std.specs.Prelude.{◌≡◌};
    ghost use Rattle.frp_expr.specs.declared.fault.ExprStop.TheVariants as stop;

    ghost from_gives = { λ _ e. e ≡ stop.Memory };

    fn from(_failed: AllocFailed<T>) -> ExprStop {
        ExprStop::Memory
    }
}
