//! One moment. So far: the laws of what stands while it is settled.
#![tactic(auto)]

mod laws;

pub use laws::{
    birth_keeps, end_settles, evidence_shows, loosening_keeps, shapes_are_ground, taking_keeps,
    tightening_keeps,
};
