ghost use Rattle.std.proofs.Props.{props};
ghost use Rattle.frp_gate.specs.Calls.{IsResting};

use crate::gate::PassSeat;

/// The token of one caller: who has it calls the room, as the caller of its number.
#[derive(Drop)]
pub struct Pass<M> {
    pub(crate) seat: PassSeat<M>,
    pub(crate) number: u32,
    ghost rests: { IsResting number seat.me } by { Prim.hlevel props },
}

impl<M> Pass<M> {
    ghost use Rattle.std.specs.Prelude.{◌≡◌};
    ghost use Rattle.frp_gate.specs.Passes.{number};

    /// The caller's number.
    pub fn caller(&self) -> u32
        ensures { result ≡ number self.now }
    {
        self.number
    }
}
