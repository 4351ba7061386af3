ghost use Rattle.std.specs.Prelude.{◌≡◌, ◌<◌, ◌≤◌, ℕ, List, Option, length, take, IfOk, OnErr};
ghost use Rattle.frp_io.specs.Outside.{HasCause, Gave};

use crate::Failed;

/// A place that bytes go to.
pub trait Sink {
    /// The bytes that it holds, where it tells them.
    ghost held: { Self → Option (List ℕ) };

    /// How often it has failed.
    ghost faults: { Self → ℕ };

    /// Takes some bytes from the front of the piece, and says how many.
    ///
    /// After an error it has taken none, where it tells what it holds, and the call may be made again.
    fn write(&mut self, piece: &[u8]) -> Result<usize, Failed>
        requires { 0 < length piece.now }
        ensures some { IfOk result (λ n. 0 < n) }
        ensures bound { IfOk result (λ n. n ≤ length piece.now) }
        ensures bytes { IfOk result (λ n. Gave (held self.old) (held self.new) (take n piece.now)) }
        ensures err { OnErr result (held self.new ≡ held self.old) }
        ensures cause { HasCause (faults self.old) (faults self.new) result };
}
