//! Tests of links and closed chains, over graphs from tables of lines.
#![tactic(auto)]

#[cfg(test)]
mod cases;
#[cfg(test)]
mod shown;
