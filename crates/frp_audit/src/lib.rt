//! The laws of the definitions alone: for given sends there is one trace, and none within the limits where there is true evidence.
#![tactic(auto)]

mod laws;

pub use laws::{
    chains_exclude, endless_excludes, full_excludes, one_trace, one_verdict, too_large_excludes,
};
