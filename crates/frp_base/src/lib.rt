//! Times, names, types and values, and the small containers that they are made of.
#![tactic(auto)]

mod boxed;
mod laws;
mod memory;
mod name;
mod place;
mod seq;
mod steps;
mod text;
mod time;
mod ty;
mod val;

pub use boxed::Boxed;
pub use laws::{
    children_have_parents, made_names_have_makers, names_are_ordered, texts_tell, times_are_ordered,
};
pub use memory::Memory;
pub use name::{Name, Stage};
pub use place::Place;
pub use seq::Seq;
pub use steps::Steps;
pub use text::Text;
pub use time::Time;
pub use ty::Ty;
pub use val::Val;

#[cfg(test)]
mod tests;
