//! Expressions: as they are written, with their types, and their values.
#![tactic(auto)]

mod answer;
mod expr;
mod fault;
mod faults;
mod lawful;
mod laws;
mod names;
mod operators;
mod raw;
mod resolving;
mod scope;
mod types;
mod typing;
mod uses;
mod value;
mod written;

pub use answer::type_of;
pub use expr::Expr;
pub use fault::{ExprStop, TypeFault, TypeKind};
pub use faults::{given, right, stop};
pub use lawful::{is_lawful, is_text};
pub use laws::{eval_is_typed, typing_agrees, values_stay};
pub use names::place_of;
pub use raw::{Raw, RawForm, RawTy, Spot, TyForm, copy_raws};
pub use scope::{Scope, Typing};
pub use types::item_type;
pub use value::eval;
pub use written::written as written_type;
