// A call's turn, by its steps on the room's words and slot.
ghost use Rattle.std.specs.Prelude.{◌≡◌, ℕ, [], ◌∷◌, IfOk, IfErr};
ghost use Rattle.frp_gate.specs.Entries.{entry};
ghost use Rattle.frp_gate.specs.Calls.{Rests, Enters, Runs, HasEntered, HasStopped, Holds, Leaves, Enlists, Stops};

use crate::Machine;
use crate::gate::{FRONT, Gate, MACHINE, PassSeat, SERVING, TICKET};
use crate::rule::{Draw, Look, PassOn, Publish, PutBack, Read, Take};
use crossbeam_utils::Backoff;
use std::sync::Wait;

/// Draws a ticket and waits until it is served. The ticket comes back.
fn enter<M: Machine, R: Wait>(rt: &R, gate: &Gate<M>, seat: &mut PassSeat<M>) -> u64
    requires seat { seat.old.table_id ≡ gate.now.table_id }
    requires words { gate.now.table_id.words ≡ 3 }
    requires slots { gate.now.table_id.slots ≡ 1 }
    requires rests { (number : ℕ) × Rests number seat.old.me }
    ensures seat { seat.new.table_id ≡ seat.old.table_id }
    ensures turn { Enters result seat.old.me seat.new.me }
{
    let ticket = gate.fetch_add::<Draw<M>>(seat, TICKET, 1);
    let backoff = Backoff::new();
    for _ in rt.forever() {
        let serving = gate.load::<Look<M>>(seat, SERVING);
        if serving == ticket {
            return ticket;
        }
        backoff.snooze();
    }
    unreachable!()
}

/// Lets the machine in hand make one step. The length of its history comes back too.
fn run<M: Machine>(
    gate: &Gate<M>,
    seat: &mut PassSeat<M>,
    hand: &M::Hand,
    caller: u32,
    cmd: M::Cmd,
) -> (Result<M::Reply, (M::Stop, M::Cmd)>, u64)
    requires seat { seat.old.table_id ≡ gate.now.table_id }
    requires held { (y : M) × (seat.old.me.1 ≡ (0, y) ∷ []) }
    ensures seat { (seat.new.table_id ≡ seat.old.table_id) × (seat.new.id ≡ seat.old.id) }
    ensures entered { IfOk result.0 (λ reply. Runs seat.old.me seat.new.me (HasEntered M.history M.fixed (entry caller cmd reply) result.1)) }
    ensures stopped { IfErr result.0 (λ e. Runs seat.old.me seat.new.me (HasStopped M.history M.fixed (M.may_stop e.0))) }
    ensures back { IfErr result.0 (λ e. e.1 ≡ cmd) }
{
    let machine = seat.slot_mut(gate, MACHINE);
    let answer = machine.step(hand, caller, cmd);
    let length = machine.entries();
    (answer, length)
}

/// Puts the machine back and passes the turn on.
fn leave<M: Machine>(gate: &Gate<M>, seat: &mut PassSeat<M>, ticket: u64)
    requires seat { seat.old.table_id ≡ gate.now.table_id }
    requires words { gate.now.table_id.words ≡ 3 }
    requires slots { gate.now.table_id.slots ≡ 1 }
    requires held { Holds M.history M.fixed ticket seat.old.me }
    ensures seat { seat.new.table_id ≡ seat.old.table_id }
    ensures left { Leaves seat.old.me seat.new.me }
{
    gate.load::<PutBack<M>>(seat, SERVING);
    gate.store::<PassOn<M>>(seat, SERVING, ticket.wrapping_add(1));
}

/// A whole call, by the seat of a resting pass. The length of the history that the call saw comes back too.
pub(crate) fn turn<M: Machine, R: Wait>(
    rt: &R,
    gate: &Gate<M>,
    seat: &mut PassSeat<M>,
    hand: &M::Hand,
    number: u32,
    cmd: M::Cmd,
) -> (Result<M::Reply, (M::Stop, M::Cmd)>, u64)
    requires seat { seat.old.table_id ≡ gate.now.table_id }
    requires words { gate.now.table_id.words ≡ 3 }
    requires slots { gate.now.table_id.slots ≡ 1 }
    requires rests { Rests number seat.old.me }
    ensures seat { seat.new.table_id ≡ seat.old.table_id }
    ensures entered { IfOk result.0 (λ reply. Enlists M.history (entry number cmd reply) result.1 seat.old.me seat.new.me) }
    ensures stopped { IfErr result.0 (λ e. Stops M.history M.fixed (M.may_stop e.0) result.1 seat.old.me seat.new.me) }
    ensures back { IfErr result.0 (λ e. e.1 ≡ cmd) }
{
    let ticket = enter(rt, gate, seat);
    gate.load::<Take<M>>(seat, SERVING);
    let (answer, length) = run(gate, seat, hand, number, cmd);
    match answer {
        Ok(reply) => {
            gate.store::<Publish<M>>(seat, FRONT, length);
            leave(gate, seat, ticket);
            (Ok(reply), length)
        }
        Err(stop) => {
            let length = gate.load::<Read<M>>(seat, FRONT);
            leave(gate, seat, ticket);
            (Err(stop), length)
        }
    }
}
