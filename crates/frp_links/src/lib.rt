//! Links between the nodes of a graph at a time, and closed chains of them, over any view.
#![tactic(auto)]

mod chains;
mod indexing;
mod laws;
mod links;

pub use chains::chain;
pub use laws::formed_graphs_refer;
pub use links::links_of;
