//! Graph files that are drawn from a starting number, for tests of any size.
#![tactic(auto)]

mod draws;
mod generator;
mod item;

pub use generator::generate;

#[cfg(test)]
mod tests;
