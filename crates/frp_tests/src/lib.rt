//! Tests that go through several crates: the program over sources and sinks in memory, with their faults, and texts as files.
#![tactic(auto)]

#[cfg(test)]
mod checker;
#[cfg(test)]
mod derived;
#[cfg(test)]
mod forms;
#[cfg(test)]
mod graphs;
#[cfg(test)]
mod histories;
#[cfg(test)]
mod program;
#[cfg(test)]
mod texts;
#[cfg(test)]
mod writing;
