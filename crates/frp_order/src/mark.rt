/// How far a search has come with a place.
#[derive(Clone, Copy, Debug)]
pub enum Mark {
    /// It was not met yet.
    Unseen,
    /// It stands on the path, at this number.
    Open { at: usize },
    /// It stands in the order, at this number.
    Done { at: usize },
}
