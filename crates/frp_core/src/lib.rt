//! The core: a program with the history of the commands to it and its trace, which stay legal together.
#![tactic(auto)]

mod engine;
mod fits;
mod listeners;
mod machine;
mod nodes;
mod stop;
mod windows;

pub use machine::Core;
pub use stop::Stop;
