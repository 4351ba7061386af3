//! Tests of the listeners: who joins, takes and leaves, line by line, and what each is given.
#![tactic(auto)]

#[cfg(test)]
mod cases;
#[cfg(test)]
mod lines;
