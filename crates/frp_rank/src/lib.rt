//! Ranks of places between which there are links, such that each link leads to a lower rank.
#![tactic(auto)]

mod chain;
mod change;
mod edge;
mod edges;
mod graph;
mod laws;
mod plan;
mod ranks;
mod search;
mod undo;
mod visit;
mod write;

pub use laws::{
    lift_keeps_lower, no_chain_where_lower, renumbering_keeps_order, turned_path_is_closed,
};
pub use ranks::Ranks;

#[cfg(test)]
mod tests;
