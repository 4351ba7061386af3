use crate::shape::Shape;
use frp_base::{Name, Seq, Time, Ty, Val};

/// A live node. `first` is a cell's first value; a stream has none.
#[derive(Drop)]
pub struct Node {
    pub name: Name,
    pub shape: Shape,
    pub ty: Ty,
    pub first: Option<Val>,
}

/// An occurrence of a stream, or a step of a cell.
#[derive(Drop)]
pub struct Fact {
    pub node: Name,
    pub value: Val,
}

/// What happened at one time: the nodes that were born, and the streams and cells that fired, both by rising name.
#[derive(Drop)]
pub struct Moment {
    pub time: Time,
    pub born: Seq<Node>,
    pub fired: Seq<Fact>,
}

/// A value that was sent to a sink: the place in the history of the command that sent it, from 1, and its number among the sends
/// of that command, from 0.
#[derive(Drop)]
pub struct Sent {
    pub place: u64,
    pub part: u64,
    pub sink: Name,
    pub value: Val,
}
