//! Laws of the definitions, each as what a function without a body ensures.

ghost use Rattle.frp_expr.specs.Laws.{EvalIsTyped, TypingAgrees, ValuesStay};

/// An expression of a type, over values of the types of its variables, has a value of its type, references in it included.
pub fn eval_is_typed()
    ensures { EvalIsTyped }
{}

/// A written expression has a type, and so no fault, exactly where the expression that it stands for has that type.
pub fn typing_agrees()
    ensures { TypingAgrees }
{}

/// A value of a type among some nodes is one among more.
pub fn values_stay()
    ensures { ValuesStay }
{}
