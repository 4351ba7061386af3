//! The listeners of a core: who listens to which node, and what each is still to be given.
#![tactic(auto)]

mod listeners;
mod passing;
mod state;
mod stop;

pub use listeners::Listeners;
pub use state::ListenerState;
pub use stop::DueStop;
