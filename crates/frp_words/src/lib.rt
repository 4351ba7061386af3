//! The words of the command line.
#![tactic(auto)]

mod command;
mod parser;
mod setting;
mod state;

pub use command::{Line, Mode, WordsStop};
pub use parser::line;

#[cfg(test)]
mod tests;
