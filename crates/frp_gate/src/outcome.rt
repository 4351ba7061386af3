use crate::Machine;

/// Where an entry stands in the history: its place, from 1.
#[derive(Clone, Copy, Debug, PartialEq, Eq)]
pub struct Receipt {
    pub place: u64,
}

/// How a call ended.
#[derive(Drop)]
pub enum Outcome<M: Machine> {
    /// The call stands in the history, and was replied to.
    Entered(Receipt, M::Reply),
    /// The machine stopped, and the command comes back.
    NotEntered(M::Stop, M::Cmd),
}
