//! Histories: commands, replies and entries, what listeners are given, and the definition of a legal history (in `specs/`).
#![tactic(auto)]

mod history;
mod laws;

pub use history::{Cmd, Delivered, Entry, Key, No, Reply};
pub use laws::{
    legal_after, legal_before, only_sends_have_moments, sends_are_sendable, windows_end,
};
