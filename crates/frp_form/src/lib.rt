//! Files as tokens: reading a file exactly.
#![tactic(auto)]

mod decls;
mod exprs;
mod fault;
mod file;
mod heads;
mod item_heads;
mod items;
mod lawful_laws;
mod laws;
mod lists;
mod over;
mod reading;
mod shape_heads;
mod shapes;
mod tokens;
mod ty_word;
mod types;

pub use fault::{FormFault, FormKind, FormStop};
pub use file::read;
pub use lawful_laws::{listens_are_few, parts_are_lawful, tokens_are_few};
pub use laws::{grammar_is_read, read_is_grammar};
pub use reading::Reading;
pub use tokens::is_literal;
pub use types::LEVELS;
