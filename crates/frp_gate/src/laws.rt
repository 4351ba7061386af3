ghost use Rattle.frp_gate.specs.Laws.{OwnEntriesStand};

use crate::Machine;

/// The entries of a caller, with their places, are those of its number in the history, each at its place.
pub fn own_entries_stand<M: Machine>()
    ensures { OwnEntriesStand M.Cmd M.Reply }
{}
