ghost use Rattle.std.specs.Prelude.{◌≡◌};

/// A link, or one that was removed and may come back.
#[derive(Clone, Copy, Debug)]
pub struct Edge {
    /// The place that it leads from.
    pub from: u64,
    /// The place that it leads to.
    pub to: u64,
    /// Whether it is a link now.
    pub live: bool,
    /// One more than the number of the edge before it that leads to the same place, or 0.
    pub earlier_in: u64,
    /// One more than the number of the edge before it that leads from the same place, or 0.
    pub earlier_out: u64,
}

impl Edge {
    /// The same edge, a link or not.
    pub fn with_live(self, live: bool) -> Edge
        ensures { result ≡ record self { live = live } }
    {
        Edge {
            from: self.from,
            to: self.to,
            live,
            earlier_in: self.earlier_in,
            earlier_out: self.earlier_out,
        }
    }
}
