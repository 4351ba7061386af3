/// A length of a region, to which it may be cut later.
#[derive(Clone, Copy, Debug, PartialEq, Eq)]
pub struct Mark {
    /// How many items the region had.
    pub length: u64,
}
