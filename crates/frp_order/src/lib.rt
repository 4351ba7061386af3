//! Places with links between them: an order in which each link leads back, or a ring of links.
#![tactic(auto)]

mod found;
mod mark;
mod search;
mod visit;

pub use found::Found;
pub use search::sort;
