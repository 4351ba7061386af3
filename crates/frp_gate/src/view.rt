// What the seats of a room's table know. No value of these types is made, but of `Start`.
use std::collections::LinkedList;
use std::snapshot::Snapshot;

/// What a pass knows. Its ticket is counted without end, and means something while the pass waits.
pub struct PassView<M> {
    pub number: u64,
    /// How many numbers it stands for, from its own on: one, but while passes are made.
    pub block: u64,
    /// The passes that were joined into it.
    pub kept: LinkedList<JoinedPass<M>>,
    /// The machine as it was when this pass last had it.
    pub known: M,
    /// The machine as it was when the room was made.
    pub first: M,
    /// A length of the history.
    pub seen: u64,
    /// Whether it drew a ticket that was not passed on.
    pub waits: bool,
    pub ticket: u64,
    /// Whether its ticket is the one that is served.
    pub turn: bool,
    /// Whether it has the machine.
    pub away: bool,
}

/// What a pass knew that was joined into another.
pub struct JoinedPass<M> {
    pub number: u64,
    pub known: M,
    pub seen: u64,
}

/// How many passes a room has, and its machine as it was at first.
#[derive(Drop)]
pub struct Start<M> {
    pub callers: u32,
    pub machine: Snapshot<M>,
}
