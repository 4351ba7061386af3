//! The report of a history and a trace.
#![tactic(auto)]

mod text;

pub use text::report;
