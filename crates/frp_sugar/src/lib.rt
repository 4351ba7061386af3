//! Derived forms: the core file that a file stands for.
#![tactic(auto)]

mod expanding;
mod items;
mod lawful_law;
mod laws;
mod made;
mod rows;
mod shapes;
mod site;

pub use expanding::expand;
pub use lawful_law::{expanded_is_lawful, senders_stay};
pub use laws::{core_stays, expanded_is_core};
