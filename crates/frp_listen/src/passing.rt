ghost use Rattle.std.specs.Prelude.{◌≡◌, ◌≤◌, ◌++◌, [], ◌∷◌, List, drop, take, length, IfOk, OnOk, min};
ghost use Rattle.std.specs.Option.{option_copied};
ghost use Rattle.frp_graph.specs.Trace.{occ, fact_in};
ghost use Rattle.frp_graph.specs.declared.trace.Moment.{Moment as MomentSpec};
ghost use Rattle.frp_history.specs.Windows.{delivered};
ghost use Rattle.frp_listen.specs.Listeners.{happened, left, IsReached};

use crate::state::ListenerState;
use frp_base::{Memory, Name, Seq, Time, Val};
use frp_graph::{Fact, Moment};
use frp_history::Delivered;
use std::alloc::Global;

/// The next items of a listener, at most `max`.
pub fn items_due(
    alloc: Global,
    trace: &[Moment],
    state: &ListenerState,
    max: u64,
) -> Result<Seq<Delivered>, Memory>
    requires { IsReached trace.now state.now }
    ensures { IfOk result (λ items. items ≡ take max (left trace.now state.now)) }
{
    let mut items = Seq::new(alloc);
    if max == 0 {
        return Ok(items);
    }
    push_first(alloc, state, &mut items)?;
    push_all(
        alloc,
        &trace[state.passed as usize..],
        &state.node,
        max,
        &mut items,
    )?;
    Ok(items)
}

/// Adds the value of a cell as the listener joined, where it is still to be given.
fn push_first(
    alloc: Global,
    state: &ListenerState,
    items: &mut Seq<Delivered>,
) -> Result<(), Memory>
    ensures { OnOk result (items.new ≡ items.old ++ delivered (state.now.place ∷ []) state.now.first) }
{
    if let Some(value) = &state.first {
        items.add(Delivered {
            time: Time::top(alloc, state.place),
            value: value.copy(alloc)?,
        })?;
    }
    Ok(())
}

/// Adds what happened at a node at each moment, until there are `max` items.
fn push_all(
    alloc: Global,
    moments: &[Moment],
    node: &Name,
    max: u64,
    items: &mut Seq<Delivered>,
) -> Result<(), Memory>
    requires { length items.old ≤ max }
    ensures { OnOk result (items.new ≡ take max (items.old ++ happened node.now moments.now)) }
{
    for moment in moments {
        if items.as_slice().len() as u64 == max {
            return Ok(());
        }
        push_one(alloc, moment, node, items)?;
    }
    Ok(())
}

/// Adds what happened at a node at a moment.
fn push_one(
    alloc: Global,
    moment: &Moment,
    node: &Name,
    items: &mut Seq<Delivered>,
) -> Result<(), Memory>
    ensures { OnOk result (items.new ≡ items.old ++ delivered moment.now.time (occ moment.now node.now)) }
{
    if let Some(value) = occurrence(moment, node) {
        items.add(Delivered {
            time: moment.time.copy()?,
            value: value.copy(alloc)?,
        })?;
    }
    Ok(())
}

/// How many moments lie before what a node's listener is still to be given: `from` of them before the next `count` items are given.
pub fn passed_by(trace: &[Moment], node: &Name, from: usize, count: u64) -> usize
    requires reached { from ≤ length trace.now }
    requires few { count ≤ length (happened node.now (drop from trace.now)) }
    ensures reached { result ≤ length trace.now }
    ensures left { happened node.now (drop result trace.now) ≡ drop count (happened node.now (drop from trace.now)) }
{
    let mut passed = from;
    let mut more = count;
    while passed < trace.len() {
        if occurrence(&trace[passed], node).is_some() {
            if more == 0 {
                return passed;
            }
            more -= 1;
        }
        passed += 1;
    }
    passed
}

/// What happened at a node at a moment.
fn occurrence<'a>(moment: &'a Moment, node: &Name) -> Option<&'a Val>
    ensures { option_copied result ≡ occ moment.now node.now }
{
    for fact in moment.fired.as_slice() {
        if fact.node.is(node) {
            return Some(&fact.value);
        }
    }
    None
}
