/// A place that was found by a search, and the place through which: a link leads there.
#[derive(Clone, Copy, Debug)]
pub struct Visit {
    pub place: u64,
    pub through: u64,
}
