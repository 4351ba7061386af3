//! The value of one node at a time, over any view of its graph.
#![tactic(auto)]

mod calls;
mod firing;
mod rows;

pub use calls::{call_one, function};
pub use firing::fire;
pub use rows::copied;
