//! The checker of names and types: the program that a file means, or its first fault.
#![tactic(auto)]

mod checking;
mod closing;
mod core_files;
mod decls;
mod lams;
mod laws;
mod names;
mod operands;
mod shapes;
mod state;
mod typed;
mod types;

pub use checking::check;
pub use core_files::is_core;
pub use frp_expr::ExprStop as CheckStop;
pub use laws::faultless_is_typed;
pub use typed::{Label, Typed};
