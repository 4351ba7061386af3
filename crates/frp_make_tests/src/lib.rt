//! Tests of the first nodes of files.
#![tactic(auto)]

#[cfg(test)]
mod cases;
mod shown;
