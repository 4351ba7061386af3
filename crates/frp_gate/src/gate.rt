// The words and the slot that the callers of a room share.
ghost use Rattle.std.specs.Prelude.{◌≡◌, ◌<◌, IfOk, IfErr};
ghost use Rattle.frp_gate.specs.Calls.{first_state};

use crate::Machine;
use crate::rule::Law;
use crate::view::{PassView, Start};
use atomic_table::{Refused, Seat, Shared, Table};
use std::alloc::Global;
use std::snapshot::Snapshot;

/// The word that tickets are drawn from.
pub(crate) const TICKET: usize = 0;

/// The word with the ticket that is served.
pub(crate) const SERVING: usize = 1;

/// The word with the length of the history.
pub(crate) const FRONT: usize = 2;

/// The slot of the machine.
pub(crate) const MACHINE: usize = 0;

/// What a pass steps with.
pub(crate) type PassSeat<M> = Seat<M, Option<PassView<M>>>;

/// The words and the slot, as callers share them.
pub(crate) type Gate<M> = Shared<M, Option<PassView<M>>, Start<M>, Law<M>>;

/// The words and the slot, with their memory.
pub(crate) type GateTable<M> = Table<M, Option<PassView<M>>, Start<M>, Law<M>, Global>;

/// A gate before this machine, with the seat that all numbers below `callers` have. Where memory is wanting, the
/// machine comes back.
pub(crate) fn gate_of<M: Machine>(
    alloc: Global,
    machine: M,
    callers: u32,
) -> Result<(GateTable<M>, PassSeat<M>), M>
    ensures words { IfOk result (λ made. made.0.shared.table_id.words ≡ 3) }
    ensures slots { IfOk result (λ made. made.0.shared.table_id.slots ≡ 1) }
    ensures seat { IfOk result (λ made. made.1.table_id ≡ made.0.shared.table_id) }
    ensures state { IfOk result (λ made. made.1.me ≡ first_state M.history made.0.shared.key 0 callers) }
    ensures callers { IfOk result (λ made. made.0.shared.key.callers ≡ callers) }
    ensures machine { IfOk result (λ made. made.0.shared.key.machine.value ≡ machine) }
    ensures back { IfErr result (λ back. back ≡ machine) }
{
    let Ok(mut slots) = Vec::with_capacity(alloc, 1) else {
        return Err(machine);
    };
    let start = Start {
        callers,
        machine: Snapshot::of(&machine),
    };
    let words = [0, 0, machine.entries()];
    slots.push_reserved(machine);
    match Table::new(alloc, &words, slots, &start) {
        Ok((table, seat)) => Ok((table, seat)),
        Err(Refused { mut slots }) => {
            let machine = slots.pop().unwrap();
            slots.destroy_empty();
            Err(machine)
        }
    }
}
