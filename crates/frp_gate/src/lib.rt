//! A room: callers on any threads call one machine, one at a time, and the calls entered are one history.
#![tactic(auto)]

mod entry;
mod gate;
mod laws;
mod machine;
mod outcome;
mod pass;
mod room;
mod rule;
mod seats;
mod threads;
mod turn;
mod view;

pub use entry::Entry;
pub use laws::own_entries_stand;
pub use machine::Machine;
pub use outcome::{Outcome, Receipt};
pub use pass::Pass;
pub use room::Room;
pub use threads::rooms_cross_threads;
