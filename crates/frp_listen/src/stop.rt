use frp_base::Memory;

/// Why nothing is due to a caller under a key.
#[derive(Clone, Copy, Debug, PartialEq, Eq)]
pub enum DueStop {
    /// No listener has the key.
    NoKey,
    /// Another caller joined the listener.
    NotYours,
    /// Memory is wanting.
    Memory,
}

impl From<Memory> for DueStop {
    ghost use Rattle.std.specs.Prelude.{◌≡◌};
    ghost use Rattle.frp_listen.specs.declared.stop.DueStop.TheVariants as stop;

    ghost from_gives = { λ _ e. e ≡ stop.Memory };

    fn from(_error: Memory) -> DueStop {
        DueStop::Memory
    }
}
