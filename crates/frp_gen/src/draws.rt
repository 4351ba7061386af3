ghost use Rattle.std.specs.Prelude.{◌≡◌, ◌<◌};
ghost use Rattle.frp_gen.specs.Generated.{draw};

/// A sequence of numbers that its state determines: a linear congruential generator modulo 2^31.
#[derive(Drop)]
pub struct Draws {
    pub state: u64,
}

impl Draws {
    /// The next number, below `k`. The lowest 16 bits of a state are not used, since they repeat soon.
    #[tactic(auto, using(crate::proofs::Modulus::next_state_of_remainder))]
    pub fn below(&mut self, k: u64) -> u64
        requires { 0 < k }
        ensures state { self.new.state ≡ (draw k self.old.state).0 }
        ensures value { result ≡ (draw k self.old.state).1 }
    {
        self.state = (self.state % 2147483648 * 1103515245 + 12345) % 2147483648;
        self.state / 65536 % k
    }
}
