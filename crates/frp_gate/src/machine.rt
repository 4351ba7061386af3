ghost use Rattle.std.specs.Prelude.{◌≡◌, ℕ, List, [], ◌∷◌, ◌++◌, length, IfOk, IfErr, OnErr};

/// What a room lets its callers call, one at a time.
pub trait Machine {
    ghost use Rattle.frp_gate.specs.declared.entry.Entry.{Entry};
    ghost use Rattle.frp_gate.specs.Entries.{entry};

    /// What a caller asks for.
    type Cmd;
    /// What a call that is entered is answered with.
    type Reply;
    /// Why a call is not entered.
    type Stop;
    /// What a call needs of its caller beside the command, such as a handle for threads.
    type Hand;
    /// What no call changes.
    type Fixed;

    /// The calls that were entered, in order.
    ghost history: { Self → List (Entry Self.Cmd Self.Reply) };

    /// The part that no call changes.
    ghost fixed: { Self → Self.Fixed };

    /// Whether this stop may come, by the fixed part and the length of the history.
    ghost may_stop: { Self.Stop → Self.Fixed → ℕ → Type 0 };

    /// Enters the call, or stops, and then hands the command back.
    fn step(
        &mut self,
        hand: &Self::Hand,
        caller: u32,
        cmd: Self::Cmd,
    ) -> Result<Self::Reply, (Self::Stop, Self::Cmd)>
        ensures entered { IfOk result (λ reply. history self.new ≡ history self.old ++ entry caller cmd reply ∷ []) }
        ensures stopped { OnErr result (history self.new ≡ history self.old) }
        ensures back { IfErr result (λ e. e.1 ≡ cmd) }
        ensures allowed { IfErr result (λ e. may_stop e.0 (fixed self.old) (length (history self.old))) }
        ensures fixed { fixed self.new ≡ fixed self.old };

    /// The length of the history.
    fn entries(&self) -> u64
        ensures { result ≡ length (history self.now) };
}
