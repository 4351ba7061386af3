use frp_base::{Name, Val};
use frp_graph::Node;

/// A live node as it is kept at its place.
#[derive(Drop)]
pub struct Held {
    pub node: Node,
    /// A cell's value before the moment that is begun, or after the last one.
    pub before: Option<Val>,
    /// The occurrence at the moment that is begun.
    pub occ: Option<Val>,
    /// The place to which the node was turned last.
    pub target: Option<u64>,
}

/// What the end of a moment takes of a node that has an occurrence: its name, and of a cell its value after the moment.
#[derive(Drop)]
pub struct Closing {
    pub name: Name,
    pub after: Option<Val>,
}

/// The value that a cell had before a moment, by its place.
#[derive(Drop)]
pub struct Step {
    pub place: u64,
    pub value: Val,
}

/// The places to which a node is linked by its shape.
#[derive(Clone, Copy, Drop)]
pub struct Ends {
    pub first: Option<u64>,
    pub second: Option<u64>,
    /// The node that it watches.
    pub watching: Option<u64>,
    /// Whether one of the linked nodes is not live.
    pub wants: bool,
}
