/// A name.
#[derive(Clone, Copy)]
pub enum Called {
    Declared(u64),
    /// That of an item which the declared node `by` made at `[at]`.
    Made { by: u64, at: u64, item: u64 },
}

/// A value.
#[derive(Clone, Copy)]
pub enum Given {
    Int(i64),
    Stream(Called),
    Cell(Called),
}

/// A shape, without the expression that it applies.
#[derive(Clone, Copy)]
pub enum Kind {
    Sink,
    Constant,
    Map(Called),
    Merge(Called, Called),
    Snapshot(Called, Called),
    Loop(Called),
    Hold(Called),
    Mapc(Called),
    Switchs(Called),
    Switchc(Called),
}

/// What is done to a store.
#[derive(Clone, Copy)]
pub enum Line {
    /// A stream is born.
    Stream(Called, Kind),
    /// A cell is born, with its first value, or without one.
    Cell(Called, Kind, Option<Given>),
    /// The node of a place gets an occurrence.
    Occur(u64, Given),
    /// The moment ends, and one begins at `[n]`.
    Next(u64),
}
