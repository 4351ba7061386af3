ghost use Rattle.std.specs.Prelude.{◌≡◌, ◌<◌};

use crate::gate::{FRONT, GateTable, MACHINE, gate_of};
use crate::rule::Read;
use crate::seats::{gather, passes_of};
use crate::turn::turn;
use crate::{Machine, Outcome, Pass, Receipt};
use frp_base::Memory;
use std::alloc::Global;
use std::sync::Wait;

/// A machine that its passes call one at a time.
#[derive(Drop)]
pub struct Room<M: Machine> {
    table: GateTable<M>,
    callers: u32,
    ghost sized: { (table.shared.table_id.words ≡ 3) × (table.shared.table_id.slots ≡ 1) },
    ghost some: { 0 < callers },
    ghost numbered: { callers ≡ table.shared.key.callers },
}

impl<M: Machine> Room<M> {
    ghost use Rattle.std.specs.Prelude.{◌≡◌, ◌≢◌, ◌↔◌, ◌<◌, ◌≤◌, length, All, IsErr, IfOk, IfErr};
    ghost use Rattle.frp_gate.specs.Entries.{AreCalledBelow};
    ghost use Rattle.frp_gate.specs.Outcomes.{IfEntered, IfNotEntered};
    ghost use Rattle.frp_gate.specs.Passes.{number, seen, mine, Gains, OwnsAllOf};
    ghost use Rattle.frp_gate.specs.Passes.{pass_count, first_machine, first_length, IsPassOf, AreNumbered, IsFirst};
    ghost use Rattle.frp_gate.specs.Seats.{HandsOut};

    /// A room over this machine, with as many passes as there are callers, of the numbers from 0 on.
    ///
    /// The machine comes back where memory is wanting.
    pub fn new(
        alloc: Global,
        machine: M,
        callers: u32,
    ) -> Result<(Room<M>, Vec<Pass<M>>), (Memory, M)>
        requires { 0 < callers }
        ensures over { IfOk result (λ made. first_machine made.0 ≡ machine) }
        ensures callers { IfOk result (λ made. pass_count made.0 ≡ callers) }
        ensures count { IfOk result (λ made. length made.1.items ≡ callers) }
        ensures numbers { IfOk result (λ made. AreNumbered made.1.items) }
        ensures passes { IfOk result (λ made. All (IsPassOf made.0) made.1.items) }
        ensures first { IfOk result (λ made. All (IsFirst M.history machine) made.1.items) }
        ensures back { IfErr result (λ e. e.1 ≡ machine) }
    {
        let Ok(passes) = Vec::with_capacity(alloc, callers as usize) else {
            return Err((Memory, machine));
        };
        match gate_of(alloc, machine, callers) {
            Ok((table, seat)) => {
                let passes = passes_of(&table.shared, seat, callers, passes);
                Ok((Room { table, callers }, passes))
            }
            Err(machine) => {
                passes.destroy_empty();
                Err((Memory, machine))
            }
        }
    }

    /// Calls the machine, once it is this call's turn.
    ///
    /// The pass comes back. Where the call is entered, its entry stands at the receipt's place. Where it isn't, the
    /// machine's stop and the command come back.
    pub fn call<R: Wait>(
        &self,
        rt: &R,
        hand: &M::Hand,
        pass: Pass<M>,
        cmd: M::Cmd,
    ) -> (Pass<M>, Outcome<M>)
        requires pass { IsPassOf self.now pass }
        ensures pass { IsPassOf self.now result.0 }
        ensures number { number result.0 ≡ number pass }
        ensures above { IfEntered result.1 (λ receipt _. seen pass < receipt.place) }
        ensures place { IfEntered result.1 (λ receipt _. seen result.0 ≡ receipt.place) }
        ensures entered { IfEntered result.1 (λ receipt reply. Gains M.history pass result.0 receipt.place cmd reply) }
        ensures unentered { IfNotEntered result.1 (λ _ _. mine M.history result.0 ≡ mine M.history pass) }
        ensures back { IfNotEntered result.1 (λ _ back. back ≡ cmd) }
        ensures saw { IfNotEntered result.1 (λ _ _. seen pass ≤ seen result.0) }
        ensures allowed { IfNotEntered result.1 (λ stop _. M.may_stop stop (M.fixed (first_machine self.now)) (seen result.0)) }
    {
        let Pass { mut seat, number } = pass;
        let (answer, place) = turn(rt, &self.table.shared, &mut seat, hand, number, cmd);
        match answer {
            Ok(reply) => (
                Pass { seat, number },
                Outcome::Entered(Receipt { place }, reply),
            ),
            Err((stop, cmd)) => (Pass { seat, number }, Outcome::NotEntered(stop, cmd)),
        }
    }

    /// A length of the history, at least what the pass had seen. The pass has then seen it.
    pub fn front(&self, pass: &mut Pass<M>) -> u64
        requires pass { IsPassOf self.now pass.old }
        ensures pass { IsPassOf self.now pass.new }
        ensures number { number pass.new ≡ number pass.old }
        ensures later { seen pass.old ≤ result }
        ensures seen { seen pass.new ≡ result }
        ensures mine { mine M.history pass.new ≡ mine M.history pass.old }
    {
        self.table.shared.load::<Read<M>>(&mut pass.seat, FRONT)
    }

    /// Closes the room, once all its passes are back, and hands out its machine.
    ///
    /// Where passes are missing, the room and the passes come back. At `Ok` each pass's own entries are exactly those
    /// of its number in the machine's history.
    pub fn close(self, passes: Vec<Pass<M>>) -> Result<M, (Room<M>, Vec<Pass<M>>)>
        requires { All (IsPassOf self) passes.items }
        ensures missing { IsErr result ↔ (length passes.items ≢ pass_count self) }
        ensures room { IfErr result (λ back. back.0 ≡ self) }
        ensures passes { IfErr result (λ back. back.1.items ≡ passes.items) }
        ensures mine { IfOk result (λ machine. All (OwnsAllOf M.history machine) passes.items) }
        ensures seen { IfOk result (λ machine. All (λ pass. seen pass ≤ length (M.history machine)) passes.items) }
        ensures callers { IfOk result (λ machine. AreCalledBelow (pass_count self) (first_length M.history self) (M.history machine)) }
        ensures fixed { IfOk result (λ machine. M.fixed machine ≡ M.fixed (first_machine self)) }
    {
        if passes.len() != self.callers as usize {
            return Err((self, passes));
        }
        Ok(self.take_out(passes))
    }

    /// Joins all passes and takes the machine out.
    fn take_out(self, passes: Vec<Pass<M>>) -> M
        requires passes { All (IsPassOf self) passes.items }
        requires all { length passes.items ≡ pass_count self }
        ensures { HandsOut M.history M.fixed self.table.shared.key passes.items result }
    {
        let Room { table, callers: _ } = self;
        let seat = gather(&table.shared, passes);
        let mut closed = table.close_with(seat);
        let machine = closed.take(MACHINE);
        closed.free();
        machine
    }
}
