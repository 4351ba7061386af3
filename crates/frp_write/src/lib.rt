//! The one canonical text of a file, and how it is read back.
#![tactic(auto)]

mod decls;
mod exprs;
mod file;
mod lawful;
mod round_trip;
mod shapes;
mod tokens;
mod types;

pub use file::write;
pub use lawful::is_lawful_file;
pub use round_trip::{canonical_is_read, canonical_tells, read_is_lawful, written_is_read};
