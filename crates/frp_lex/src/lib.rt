//! The tokens of a list of bytes, and the one line that tokens are written on.
#![tactic(auto)]

mod atom;
mod bytes;
mod fault;
mod front;
mod laws;
mod lexer;
mod number;
mod quoted;
mod speller;
mod token;

pub use fault::{Lex, LexKind, LexStop};
pub use laws::{
    canonical_is_one, fault_is_first, lexed_is_canonical, lexed_is_written, spelled_is_lexed,
};
pub use lexer::lex;
pub use speller::spell;
pub use token::{Kind, Token};

#[cfg(test)]
mod tests;
