ghost use Rattle.std.specs.Prelude.{◌≡◌};
ghost use Rattle.frp_graph.specs.Limits.{program_limits};

/// What a core and a program bear at most: moments of one transaction, live nodes, entries of a history, senders, workers,
/// and sends of one sender.
#[derive(Clone, Copy, Debug, PartialEq, Eq)]
pub struct Limits {
    pub moments: u64,
    pub nodes: u64,
    pub entries: u64,
    pub senders: u64,
    pub workers: u64,
    pub sends: u64,
}

impl Limits {
    /// The limits of the program.
    pub fn program() -> Limits
        ensures { result ≡ program_limits }
    {
        Limits {
            moments: 4096,
            nodes: 65536,
            entries: 1000000,
            senders: 16,
            workers: 16,
            sends: 4096,
        }
    }
}
