//! A store whose items never move, with marks to which it can be cut.
#![tactic(auto)]

mod chunk;
mod mark;
mod region;

pub use mark::Mark;
pub use region::Region;

#[cfg(test)]
mod tests;
