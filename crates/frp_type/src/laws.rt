//! Laws of the checker's definitions, each as what a function without a body ensures.

ghost use Rattle.frp_type.specs.Laws.{FaultlessIsTyped};

/// The program of a file of core items without a fault is typed.
pub fn faultless_is_typed()
    ensures { FaultlessIsTyped }
{}
