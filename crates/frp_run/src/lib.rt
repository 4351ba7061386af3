//! Reading a graph file, running it, and writing its report.
#![tactic(auto)]

mod answer;
mod lines;
mod modes;
mod outside;
mod plain;
mod refused;
mod runs;
mod text;
mod understood;

pub use plain::frp_plain;
