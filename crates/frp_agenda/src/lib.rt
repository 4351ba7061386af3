//! The due times of a transaction: the children that splits make, in their order.
#![tactic(auto)]

mod agenda;

pub use agenda::Agenda;

#[cfg(test)]
mod tests;
