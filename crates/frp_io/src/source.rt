ghost use Rattle.std.specs.Prelude.{◌≡◌, ◌<◌, ◌≤◌, ℕ, List, Option, length, take, IfOk, OnErr};
ghost use Rattle.frp_io.specs.Outside.{HasCause, Took, ZeroAtEnd};

use crate::Failed;

/// A place that bytes come from.
pub trait Source {
    /// The bytes that are left, where it tells them.
    ghost rest: { Self → Option (List ℕ) };

    /// How often it has failed.
    ghost faults: { Self → ℕ };

    /// Fills the front of the buffer, and says with how many bytes.
    ///
    /// At 0 the source has ended. After an error no byte is lost, where it tells what is left, and the call may be made again.
    fn read(&mut self, buf: &mut [u8]) -> Result<usize, Failed>
        requires { 0 < length buf.old }
        ensures bound { IfOk result (λ n. n ≤ length buf.old) }
        ensures bytes { IfOk result (λ n. Took (rest self.old) (rest self.new) (take n buf.new)) }
        ensures end { IfOk result (λ n. ZeroAtEnd (rest self.old) n) }
        ensures err { OnErr result (rest self.new ≡ rest self.old) }
        ensures cause { HasCause (faults self.old) (faults self.new) result };
}
