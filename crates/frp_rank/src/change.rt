use crate::edge::Edge;

/// A change, by what was there before.
#[derive(Clone, Copy, Debug, Drop)]
pub enum Change {
    /// The rank of a place.
    Ranked { place: u64, rank: u64 },
    /// The last edge that leads to a place.
    EndedBy { place: u64, edge: u64 },
    /// The last edge that leads from a place.
    StartedBy { place: u64, edge: u64 },
    /// The edge of a number.
    Edged { number: u64, edge: Edge },
}
