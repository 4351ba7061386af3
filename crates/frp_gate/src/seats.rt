// The passes of a room: their seats are cut from one, and joined again.
ghost use Rattle.std.specs.Prelude.{◌≡◌, ◌<◌, ◌≤◌, [], length, All};
ghost use Rattle.frp_gate.specs.Calls.{first_state};
ghost use Rattle.frp_gate.specs.Passes.{AreNumbered};
ghost use Rattle.frp_gate.specs.Seats.{IsFresh, AreJoined};

use crate::gate::{Gate, PassSeat};
use crate::rule::NextPass;
use crate::{Machine, Pass};

/// Makes a pass of each number below `callers`, into a list with room for them.
pub(crate) fn passes_of<M: Machine>(
    gate: &Gate<M>,
    mut seat: PassSeat<M>,
    callers: u32,
    mut passes: Vec<Pass<M>>,
) -> Vec<Pass<M>>
    requires seat { seat.table_id ≡ gate.now.table_id }
    requires words { gate.now.table_id.words ≡ 3 }
    requires some { 0 < callers }
    requires empty { passes.items ≡ [] }
    requires room { callers ≤ passes.cap }
    requires first { seat.me ≡ first_state M.history gate.now.key 0 callers }
    ensures count { length result.items ≡ callers }
    ensures numbers { AreNumbered result.items }
    ensures seats { All (λ pass. pass.seat.table_id ≡ gate.now.table_id) result.items }
    ensures fresh { All (IsFresh M.history gate.now.key) result.items }
{
    for number in 0..callers - 1 {
        let one = gate.split_seat::<NextPass>(&mut seat);
        passes.push_reserved(Pass { seat: one, number });
    }
    passes.push_reserved(Pass {
        seat,
        number: callers - 1,
    });
    passes
}

/// Joins all passes into the seat of the last one.
pub(crate) fn gather<M: Machine>(gate: &Gate<M>, mut passes: Vec<Pass<M>>) -> PassSeat<M>
    requires words { gate.now.table_id.words ≡ 3 }
    requires some { 0 < length passes.items }
    requires seats { All (λ pass. pass.seat.table_id ≡ gate.now.table_id) passes.items }
    ensures seat { result.table_id ≡ gate.now.table_id }
    ensures joined { AreJoined passes.items result.me }
{
    let Some(last) = passes.pop() else {
        unreachable!()
    };
    let Pass {
        mut seat,
        number: _,
    } = last;
    while let Some(next) = passes.pop() {
        let Pass {
            seat: other,
            number: _,
        } = next;
        gate.join_seat::<NextPass>(&mut seat, other);
    }
    passes.destroy_empty();
    seat
}
