use crate::held::Step;

/// A change, with what undoes it.
#[derive(Drop)]
pub enum Change {
    /// A moment was begun.
    Began,
    /// A node was added.
    Added,
    /// The node of a place got an occurrence.
    Occurred {
        place: u64,
    },
    /// The node of a place was turned; before, it was turned to this one.
    Turned {
        place: u64,
        target: Option<u64>,
    },
    /// The moment ended. These places had an occurrence, in the order in which they came; these were the values before of the cells
    /// that stepped; and this was the number of the moment at the parent of its time, and of the first node that was born.
    Ended {
        fired: Vec<u64>,
        steps: Vec<Step>,
        above: Option<u64>,
        first: u64,
    },
}
