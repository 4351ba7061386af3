// The rule of the room's table, and each kind of step on it. No value of these types is made.
ghost use Rattle.frp_gate.specs.Rule.{Kept};
ghost use Rattle.frp_gate.specs.Steps.{Draws, Looks, Takes, Publishes, PutsBack, PassesOn, Reads};
ghost use Rattle.frp_gate.specs.Views.{fresh_view, other_passes, first_pass, both_of};
ghost use Rattle.std.specs.Prelude.{Some, None, length};

use crate::Machine;
use crate::view::{PassView, Start};
use atomic_table::{Join, Play, Split, TableRule};
use std::marker::PhantomData;

/// What holds between any two steps.
pub struct Law<M> {
    machine: PhantomData<M>,
}

impl<M: Machine> TableRule<M, Option<PassView<M>>, Start<M>> for Law<M> {
    ghost holds = { λ start. Kept M.history M.fixed start };

    ghost first = { λ start. Some (fresh_view 0 start.callers start.machine.value (length (M.history start.machine.value))) };
}

/// Draws a ticket.
pub struct Draw<M> {
    machine: PhantomData<M>,
}

impl<M: Machine> Play<M, Option<PassView<M>>> for Draw<M> {
    ghost then = { Draws };
}

/// Looks which ticket is served.
pub struct Look<M> {
    machine: PhantomData<M>,
}

impl<M: Machine> Play<M, Option<PassView<M>>> for Look<M> {
    ghost then = { Looks };
}

/// Takes the machine out of the slot.
pub struct Take<M> {
    machine: PhantomData<M>,
}

impl<M: Machine> Play<M, Option<PassView<M>>> for Take<M> {
    ghost then = { Takes M.history M.fixed };
}

/// Publishes the new length of the history: here the call is entered.
pub struct Publish<M> {
    machine: PhantomData<M>,
}

impl<M: Machine> Play<M, Option<PassView<M>>> for Publish<M> {
    ghost then = { Publishes };
}

/// Puts the machine back into the slot.
pub struct PutBack<M> {
    machine: PhantomData<M>,
}

impl<M: Machine> Play<M, Option<PassView<M>>> for PutBack<M> {
    ghost then = { PutsBack };
}

/// Serves the next ticket.
pub struct PassOn<M> {
    machine: PhantomData<M>,
}

impl<M: Machine> Play<M, Option<PassView<M>>> for PassOn<M> {
    ghost then = { PassesOn };
}

/// Reads the published length.
pub struct Read<M> {
    machine: PhantomData<M>,
}

impl<M: Machine> Play<M, Option<PassView<M>>> for Read<M> {
    ghost then = { Reads M.history };
}

/// A pass is made of the first number of a block; a pass is joined into another, which keeps what it knew.
pub struct NextPass;

impl<M: Machine> Split<Option<PassView<M>>> for NextPass {
    ghost left = { other_passes };

    ghost right = { first_pass };
}

impl<M: Machine> Join<Option<PassView<M>>> for NextPass {
    ghost both = { both_of };

    ghost spent = { None };
}
