use frp_base::{Name, Seq, Time, Val};
use frp_graph::{Evidence, Fact};

/// The key of a listener: the place of its join in the history, from 1, and its slot among the listeners.
#[derive(Clone, Copy, Debug, PartialEq, Eq)]
pub struct Key {
    pub slot: u64,
    pub place: u64,
}

/// What a listener is given: an occurrence or a step, or the value of a cell as the listener joined.
#[derive(Drop)]
pub struct Delivered {
    pub time: Time,
    pub value: Val,
}

/// A command of a caller: a value for a sink; several values for sinks, at one time; a listener that joins a node; the next
/// items of a listener, at most `max`; a listener that leaves.
#[derive(Drop)]
pub enum Cmd {
    Send { sink: Name, value: Val },
    Group { sends: Seq<Fact> },
    Join { node: Name },
    Take { key: Key, max: u64 },
    Leave { key: Key },
}

/// Why a command is refused. The numbers 1 to 8 are those of the first eight variants, in order; 9 is a full history, which
/// is no reply; `Twice` has the number 10.
#[derive(Drop)]
pub enum No {
    /// There is no live sink of the name.
    UnknownSink,
    /// The value is not of the sink's type among the live nodes.
    WrongType,
    /// A closed chain arises.
    Cyclic(Evidence),
    /// The transaction has as many moments as the limit, and one more is due.
    Endless(Evidence),
    /// With an instance there would be more nodes than the limit.
    Full(Evidence),
    /// There is no live node of the name.
    UnknownNode,
    /// No listener has the key.
    UnknownListener,
    /// Another caller joined the listener.
    NotYours,
    /// The sink is sent to twice in one group, and has no combining expression.
    Twice(Name),
}

/// The reply to a command: the number of moments of an accepted send; why the command is refused; the key of a listener
/// that joined; the items that a listener takes; all that a listener that left was still to be given.
#[derive(Drop)]
pub enum Reply {
    Accepted { moments: u64 },
    Refused(No),
    Joined(Key),
    Given(Seq<Delivered>),
    Left(Seq<Delivered>),
}

/// An entry of a history. Its place is its position, from 1.
#[derive(Drop)]
pub struct Entry {
    pub caller: u32,
    pub cmd: Cmd,
    pub reply: Reply,
}
