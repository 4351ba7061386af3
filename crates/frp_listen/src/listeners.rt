ghost use Rattle.std.specs.Prelude.{◌≡◌, ◌↔◌, ◌≤◌, ◌++◌, [], ◌∷◌, List, take, drop, length, map, None, Some, Err, is_some, option_map, IsTrue, IfOk, IfErr, OnOk, OnErr, false};
ghost use Rattle.std.specs.List.{AllByRecursion};
ghost use Rattle.frp_graph.specs.declared.trace.Moment.{Moment as MomentSpec};
ghost use Rattle.frp_history.specs.declared.history.Key.{Key as KeySpec};
ghost use Rattle.frp_history.specs.Listeners.{key_eq};
ghost use Rattle.frp_history.specs.Windows.{window};
ghost use Rattle.frp_graph.specs.Trace.{value_after};
ghost use Rattle.frp_listen.specs.Listeners.{held, left_of, who, Changes, IsFree, AreReached, is_of_another, joined, AreBefore, AreAfter};
ghost use Rattle.frp_listen.specs.declared.stop.DueStop.TheVariants as stop;
ghost use Rattle.std.specs.Option.{option_copied};

use crate::passing::items_due;
use crate::state::ListenerState;
use crate::stop::DueStop;
use frp_base::{Memory, Name, Seq, Val};
use frp_graph::Moment;
use frp_history::{Delivered, Key};
use slab::Slab;
use std::alloc::Global;
use std::marker::Model;

/// The listeners that are held, each under a key.
///
/// Contracts see the listener or none of each slot.
#[derive(Drop)]
pub struct Listeners {
    slots: Slab<ListenerState>,
}

impl Model for Listeners {
    ghost use Rattle.std.specs.Prelude.{List, Option, true};
    ghost use Rattle.std.specs.Coded.{coded_list, coded_option};
    ghost use Rattle.frp_listen.specs.declared.state.ListenerState.{ListenerState};
    ghost use Rattle.frp_listen.specs.contracts.state.ListenerState.{the_row};

    ghost Value = { List (Option ListenerState) };

    ghost coded = { coded_list (coded_option the_row.coded) };

    ghost view = { λ l. l.slots.slots };
}

impl Listeners {
    /// No listeners. It takes no memory.
    pub fn new(alloc: Global) -> Listeners
        ensures empty { result ≡ [] }
        ensures reached { (now : List MomentSpec) → AreReached now result }
    {
        Listeners {
            slots: Slab::new(alloc),
        }
    }

    /// A listener of a caller joins a node at a place of the history, after the moments of a trace: `first` is the node's value then, where it is a cell.
    ///
    /// The window of the listener is what it is to be given.
    pub fn join(
        &mut self,
        trace: &[Moment],
        caller: u32,
        node: Name,
        place: u64,
        first: Option<Val>,
    ) -> Result<Key, (Memory, Name)>
        ensures place { IfOk result (λ key. key.place ≡ place) }
        ensures free { IfOk result (λ key. IsFree self.old key.slot) }
        ensures joined { IfOk result (λ key. Changes self.old self.new key (Some (joined caller node place first (length trace.now)))) }
        ensures window { IfOk result (λ key. first ≡ value_after trace.now node → AreBefore place trace.now → (later : List MomentSpec) → AreAfter place later → left_of (trace.now ++ later) (held self.new key) ≡ window (trace.now ++ later) node place) }
        ensures reached { (now : List MomentSpec) → length trace.now ≤ length now → AreReached now self.old → AreReached now self.new }
        ensures err { OnErr result (self.new ≡ self.old) }
        ensures back { IfErr result (λ e. e.1 ≡ node) }
    {
        let passed = trace.len() as u64;
        match self.put(ListenerState {
            caller,
            node,
            place,
            first,
            passed,
        }) {
            Ok(key) => Ok(key),
            Err(node) => Err((Memory, node)),
        }
    }

    /// Holds a listener, or gives its node back.
    fn put(&mut self, state: ListenerState) -> Result<Key, Name>
        ensures place { IfOk result (λ key. key.place ≡ state.place) }
        ensures free { IfOk result (λ key. IsFree self.old key.slot) }
        ensures held { IfOk result (λ key. held self.new key ≡ Some state) }
        ensures changed { IfOk result (λ key. Changes self.old self.new key (Some state)) }
        ensures err { OnErr result (self.new ≡ self.old) }
        ensures back { IfErr result (λ node. node ≡ state.node) }
    {
        let place = state.place;
        match self.slots.insert(state) {
            Ok(slot) => Ok(Key {
                slot: slot as u64,
                place,
            }),
            Err(failed) => Err(node_of(failed.value)),
        }
    }

    /// The next items of a caller's listener, at most `max`.
    pub fn due(
        &self,
        alloc: Global,
        trace: &[Moment],
        caller: u32,
        key: &Key,
        max: u64,
    ) -> Result<Seq<Delivered>, DueStop>
        requires { AreReached trace.now self.now }
        ensures items { IfOk result (λ items. items ≡ take max (left_of trace.now (held self.now key.now))) }
        ensures held { OnOk result (IsTrue (is_some (held self.now key.now))) }
        ensures no_key { (result ≡ Err stop.NoKey) ↔ (held self.now key.now ≡ None) }
        ensures not_yours { (result ≡ Err stop.NotYours) ↔ IsTrue (is_of_another caller (held self.now key.now)) }
    {
        match self.held(key) {
            Some(state) if state.caller == caller => Ok(items_due(alloc, trace, state, max)?),
            Some(_) => Err(DueStop::NotYours),
            None => Err(DueStop::NoKey),
        }
    }

    /// The next items are given to the listener with this key. It takes no memory.
    pub fn given(&mut self, trace: &[Moment], key: &Key, count: u64)
        requires held { IsTrue (is_some (held self.old key.now)) }
        requires few { count ≤ length (left_of trace.now (held self.old key.now)) }
        requires reached { AreReached trace.now self.old }
        ensures left { (later : List MomentSpec) → left_of (trace.now ++ later) (held self.new key.now) ≡ drop count (left_of (trace.now ++ later) (held self.old key.now)) }
        ensures who { option_map who (held self.new key.now) ≡ option_map who (held self.old key.now) }
        ensures others { (other : KeySpec) → key_eq other key.now ≡ false → held self.new other ≡ held self.old other }
        ensures reached { AreReached trace.now self.new }
    {
        match self.slots.get_mut(key.slot as usize) {
            Some(state) => state.pass(trace, count),
            None => unreachable!(),
        }
    }

    /// The listener with this key leaves. It takes no memory.
    pub fn leave(&mut self, key: &Key)
        requires { IsTrue (is_some (held self.old key.now)) }
        ensures left { Changes self.old self.new key.now None }
        ensures reached { (now : List MomentSpec) → AreReached now self.old → AreReached now self.new }
    {
        self.slots.remove(key.slot as usize);
    }

    /// The listener with a key.
    pub fn held(&self, key: &Key) -> Option<&ListenerState>
        ensures { option_copied result ≡ held self.now key.now }
    {
        match self.slots.get(key.slot as usize) {
            Some(state) if state.place == key.place => Some(state),
            _ => None,
        }
    }
}

/// The node of a listener.
fn node_of(state: ListenerState) -> Name
    ensures { result ≡ state.node }
{
    state.node
}
