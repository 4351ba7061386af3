//! The nodes that a body makes, with their first values: those of the file, and those of an instance of a template.
#![tactic(auto)]

mod body;
mod chaining;
mod finding;
mod firsts;
mod lines;
mod made;
mod making;
mod search;

pub use made::{FirstOut, Made, MakeOut};
pub use making::{first_nodes, instance, instance_size};
