use crate::trace::Moment;
use frp_base::{Name, Seq};

/// Which links a closed chain is of: those among cells that are born, those on which the occurrences of a moment depend,
/// or those that hold after it.
#[derive(Clone, Copy, Debug, PartialEq, Eq)]
pub enum Phase {
    Birth,
    During,
    After,
}

/// Why a transaction is refused: a closed chain, given with its least name first; one more moment than the limit; or an
/// instance, of the execute `node`, with which there would be more nodes than the limit.
#[derive(Drop)]
pub enum Why {
    Chain { phase: Phase, names: Seq<Name> },
    Endless { limit: u64 },
    Full { node: Name, limit: u64 },
}

/// A live node and its rank.
#[derive(Drop)]
pub struct Ranked {
    pub node: Name,
    pub rank: u64,
}

/// What shows that a transaction is refused: the moments that it finished, the births and facts of the time at which it
/// ended, a rank for each node live then, and the level below which the nodes of that time are settled.
#[derive(Drop)]
pub struct Evidence {
    pub done: Seq<Moment>,
    pub last: Moment,
    pub ranks: Seq<Ranked>,
    pub level: u64,
    pub why: Why,
}
