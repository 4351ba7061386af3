//! The windows of listeners.

ghost use Rattle.std.specs.Prelude.{◌≡◌, [], ◌∷◌, ◌++◌, IfOk, OnOk};
ghost use Rattle.std.specs.Option.{option_copied};
ghost use Rattle.frp_graph.specs.Trace.{node_in, fact_in, moments_before, value_after, value_at, pre_from};
ghost use Rattle.frp_history.specs.Windows.{window, first_item, item_after, items_after};

use frp_base::{Memory, Name, Seq, Time, Val};
use frp_graph::{Fact, Moment, Node};
use frp_history::Delivered;
use std::alloc::Global;

/// What a listener of a node that joined at place `from` is given.
pub fn window_of(
    alloc: Global,
    trace: &[Moment],
    name: &Name,
    from: u64,
) -> Result<Seq<Delivered>, Memory>
    ensures { IfOk result (λ items. items ≡ window trace.now name.now from) }
{
    let start = Time::top(alloc, from);
    let mut items = Seq::new(alloc);
    push_first(alloc, trace, name, &start, &mut items)?;
    push_all_after(alloc, trace, name, &start, &mut items)?;
    Ok(items)
}

/// Adds what happened at a node after a time.
fn push_all_after(
    alloc: Global,
    trace: &[Moment],
    name: &Name,
    start: &Time,
    items: &mut Seq<Delivered>,
) -> Result<(), Memory>
    ensures { OnOk result (items.new ≡ items.old ++ items_after start.now name.now trace.now) }
{
    for moment in trace {
        push_after(alloc, moment, name, start, items)?;
    }
    Ok(())
}

/// Adds the value of a cell before a time, as an item of that time.
fn push_first(
    alloc: Global,
    trace: &[Moment],
    name: &Name,
    start: &Time,
    items: &mut Seq<Delivered>,
) -> Result<(), Memory>
    ensures { OnOk result (items.new ≡ items.old ++ first_item trace.now name.now start.now) }
{
    if let Some(value) = value_before(trace, name, start) {
        items.add(Delivered {
            time: start.copy()?,
            value: value.copy(alloc)?,
        })?;
    }
    Ok(())
}

/// Adds what happened at a node at a moment, where that is after a time.
fn push_after(
    alloc: Global,
    moment: &Moment,
    name: &Name,
    start: &Time,
    items: &mut Seq<Delivered>,
) -> Result<(), Memory>
    ensures { OnOk result (items.new ≡ items.old ++ item_after start.now name.now moment.now) }
{
    if *start < moment.time {
        if let Some(value) = fact_of(moment.fired.as_slice(), name) {
            items.add(Delivered {
                time: moment.time.copy()?,
                value: value.copy(alloc)?,
            })?;
        }
    }
    Ok(())
}

/// A cell's value after the moments before a time.
fn value_before<'a>(trace: &'a [Moment], name: &Name, time: &Time) -> Option<&'a Val>
    ensures { option_copied result ≡ value_after (moments_before time.now trace.now) name.now }
{
    let mut value = None;
    for moment in trace {
        if moment.time < *time {
            value = value_at(value, moment, name);
        }
    }
    value
}

/// A cell's value after a moment, where it had this one before it.
fn value_at<'a>(earlier: Option<&'a Val>, moment: &'a Moment, name: &Name) -> Option<&'a Val>
    ensures { option_copied result ≡ value_at (option_copied earlier.entry) moment.now name.now }
{
    let before = pre_from(earlier, moment, name);
    match before {
        Some(value) => Some(fact_of(moment.fired.as_slice(), name).unwrap_or(value)),
        None => None,
    }
}

/// A cell's value before a moment: its first value where it is born then, else the earlier one.
fn pre_from<'a>(earlier: Option<&'a Val>, moment: &'a Moment, name: &Name) -> Option<&'a Val>
    ensures { option_copied result ≡ pre_from (option_copied earlier.entry) moment.now name.now }
{
    if let Some(node) = node_in(moment.born.as_slice(), name) {
        if let Some(value) = &node.first {
            return Some(value);
        }
    }
    earlier
}

/// The value of the node's fact.
fn fact_of<'a>(facts: &'a [Fact], name: &Name) -> Option<&'a Val>
    ensures { option_copied result ≡ fact_in facts.now name.now }
{
    for fact in facts {
        if fact.node.is(name) {
            return Some(&fact.value);
        }
    }
    None
}

/// The node of a name among these.
pub fn node_in<'a>(nodes: &'a [Node], name: &Name) -> Option<&'a Node>
    ensures { option_copied result ≡ node_in nodes.now name.now }
{
    for node in nodes {
        if node.name.is(name) {
            return Some(node);
        }
    }
    None
}
