//! Tests of the room, over a counter with a limit.
#![tactic(auto)]

#[cfg(test)]
mod counter;
#[cfg(test)]
mod room;
