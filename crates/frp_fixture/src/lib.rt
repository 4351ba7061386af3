//! Graphs for tests, each from a table of lines, kept in a store.
#![tactic(auto)]

mod building;
mod line;
mod reading;

pub use building::{empty, play};
pub use line::{Called, Given, Kind, Line};
pub use reading::can_read;
