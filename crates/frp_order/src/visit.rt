/// A place on the path of a search, and the number of the first of its links that is not done with.
#[derive(Clone, Copy, Debug)]
pub struct Visit {
    pub place: usize,
    pub next: usize,
}
