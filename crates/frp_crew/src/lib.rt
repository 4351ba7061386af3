//! Crews: a function mapped over a list, on the caller's thread or by several workers.
#![tactic(auto)]

mod by_halves;
mod crew;
mod one_by_one;
mod pairs;
mod plan;
mod solo;
mod spread_out;
mod wide;

pub use crew::Crew;
pub use pairs::Pairs;
pub use plan::Plan;
pub use solo::Solo;
pub use wide::Wide;

#[cfg(test)]
mod tests;
