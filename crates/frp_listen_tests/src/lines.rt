ghost use Rattle.std.specs.Prelude.{◌≤◌, length, OnOk};
ghost use Rattle.frp_listen.specs.Listeners.{AreReached};

use frp_base::{Memory, Name, Seq, Text, Time, Val};
use frp_graph::{Fact, Moment};
use frp_history::{Delivered, Key};
use frp_listen::{DueStop, Listeners};
use std::alloc::Global;

/// What a caller does. A key is that of a listener's slot, and of the place at which it joined.
#[derive(Clone, Copy)]
pub enum Line {
    /// It joins the node of an item at a place, with the node's value then.
    Join {
        caller: u32,
        item: u64,
        place: u64,
        first: Option<i64>,
    },
    /// It takes the next items of a listener, at most so many.
    Take {
        caller: u32,
        key: Key,
        max: u64,
    },
    /// It is given all that is left, and the listener is gone.
    Leave {
        caller: u32,
        key: Key,
    },
}

/// A moment at `[place]`, at which the nodes of two items have this value.
fn moment(alloc: Global, place: u64, value: i64) -> Result<Moment, Memory> {
    let mut fired = Seq::new(alloc);
    for item in 0..2 {
        fired.add(Fact {
            node: Name::declared(alloc, item)?,
            value: Val::Int(value),
        })?;
    }
    Ok(Moment {
        time: Time::top(alloc, place),
        born: Seq::new(alloc),
        fired,
    })
}

/// Moments at which the nodes of two items have a value each: `[2]` with 1, `[4]` with 2, and `[6]` with 3.
pub fn moments(alloc: Global) -> Result<Seq<Moment>, Memory> {
    let mut moments = Seq::new(alloc);
    for number in 1..4 {
        moments.add(moment(alloc, 2 * number, number as i64)?)?;
    }
    Ok(moments)
}

/// Shows what each line is answered, where all moments are over.
pub fn shown(alloc: Global, moments: &[Moment], lines: &[Line]) -> Result<Text, Memory> {
    let mut listeners = Listeners::new(alloc);
    let mut text = Text::new(alloc);
    for line in lines {
        step(alloc, moments, &mut listeners, *line, &mut text)?;
        text.push_str(";")?;
    }
    Ok(text)
}

fn step(
    alloc: Global,
    moments: &[Moment],
    listeners: &mut Listeners,
    line: Line,
    text: &mut Text,
) -> Result<(), Memory>
    requires { AreReached moments.now listeners.old }
    ensures { OnOk result (AreReached moments.now listeners.new) }
{
    match line {
        Line::Join {
            caller,
            item,
            place,
            first,
        } => join(alloc, moments, listeners, caller, item, place, first, text),
        Line::Take { caller, key, max } => take(alloc, moments, listeners, caller, key, max, text),
        Line::Leave { caller, key } => leave(alloc, moments, listeners, caller, key, text),
    }
}

/// A caller joins the node of an item, after the moments before its place. Its key is shown.
fn join(
    alloc: Global,
    moments: &[Moment],
    listeners: &mut Listeners,
    caller: u32,
    item: u64,
    place: u64,
    first: Option<i64>,
    text: &mut Text,
) -> Result<(), Memory>
    requires { AreReached moments.now listeners.old }
    ensures { OnOk result (AreReached moments.now listeners.new) }
{
    let count = count_before(alloc, moments, place);
    let first = first.map(Val::Int);
    let node = Name::declared(alloc, item)?;
    match listeners.join(&moments[..count], caller, node, place, first) {
        Ok(key) => show_key(alloc, key, text),
        Err(_) => Err(Memory),
    }
}

/// How many moments are before a place.
fn count_before(alloc: Global, moments: &[Moment], place: u64) -> usize
    ensures { result ≤ length moments.now }
{
    let time = Time::top(alloc, place);
    moments.partition_point(|moment| moment.time < time)
}

/// A caller takes the next items of a listener.
fn take(
    alloc: Global,
    moments: &[Moment],
    listeners: &mut Listeners,
    caller: u32,
    key: Key,
    max: u64,
    text: &mut Text,
) -> Result<(), Memory>
    requires { AreReached moments.now listeners.old }
    ensures { OnOk result (AreReached moments.now listeners.new) }
{
    match listeners.due(alloc, moments, caller, &key, max) {
        Ok(items) => {
            listeners.given(moments, &key, items.as_slice().len() as u64);
            show_items(alloc, items.as_slice(), text)
        }
        Err(stop) => show_stop(stop, text),
    }
}

/// A caller is given all that is left for a listener, which leaves.
fn leave(
    alloc: Global,
    moments: &[Moment],
    listeners: &mut Listeners,
    caller: u32,
    key: Key,
    text: &mut Text,
) -> Result<(), Memory>
    requires { AreReached moments.now listeners.old }
    ensures { OnOk result (AreReached moments.now listeners.new) }
{
    match listeners.due(alloc, moments, caller, &key, u64::MAX) {
        Ok(items) => {
            listeners.leave(&key);
            show_items(alloc, items.as_slice(), text)
        }
        Err(stop) => show_stop(stop, text),
    }
}

fn show_key(alloc: Global, key: Key, text: &mut Text) -> Result<(), Memory> {
    text.push_str(" key ")?;
    text.push_str(key.slot.to_string(alloc)?.as_str())?;
    text.push_str(" ")?;
    text.push_str(key.place.to_string(alloc)?.as_str())
}

fn show_items(alloc: Global, items: &[Delivered], text: &mut Text) -> Result<(), Memory> {
    for item in items {
        text.push_str(" ")?;
        item.time.show(text)?;
        text.push_str(" ")?;
        item.value.show(alloc, text)?;
    }
    Ok(())
}

fn show_stop(stop: DueStop, text: &mut Text) -> Result<(), Memory> {
    match stop {
        DueStop::NoKey => text.push_str(" no key"),
        DueStop::NotYours => text.push_str(" not yours"),
        DueStop::Memory => Err(Memory),
    }
}
