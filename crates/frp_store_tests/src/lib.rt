//! Tests of the store: what is done to it, line by line, and what it shows then.
#![tactic(auto)]

#[cfg(test)]
mod cases;
#[cfg(test)]
mod lines;
#[cfg(test)]
mod shown;
