//! A graph as it is kept: its nodes by place, the moments that ended, and the one that is begun; undone back to the last commit.
#![tactic(auto)]

mod adding;
mod change;
mod closing;
mod copies;
mod edges;
mod held;
mod moments;
mod places;
mod shapes;
mod store;
mod tables;
mod turning;
mod undo;
mod view;
mod writing;

pub use store::Store;
