use frp_base::{Memory, Name, Place, Text, Val};
use frp_graph::{Moment, View};
use frp_store::Store;
use std::alloc::Global;

/// All that a store shows, but for its trace.
pub fn shown(alloc: Global, store: &Store) -> Result<Text, Memory> {
    let mut text = Text::new(alloc);
    store.time().show(&mut text)?;
    show_number(alloc, " moments ", store.trace().len() as u64, &mut text)?;
    for number in 0..store.count() {
        show_node(alloc, store, Place(number), &mut text)?;
    }
    Ok(text)
}

fn show_node(alloc: Global, store: &Store, place: Place, text: &mut Text) -> Result<(), Memory> {
    if place.0 >= store.live() {
        return Ok(());
    }
    let name = &store.nth(place.0).name;
    text.push_str("; ")?;
    name.show(text)?;
    show_values(alloc, store, name, text)?;
    show_edges(alloc, store, place, text)
}

fn show_values(alloc: Global, store: &Store, name: &Name, text: &mut Text) -> Result<(), Memory> {
    show_value(alloc, " occ ", store.occ(name), text)?;
    if store.before(name).is_some() {
        show_value(alloc, " before ", Some(store.pre(name)), text)?;
        show_value(alloc, " after ", Some(store.post(name)), text)?;
    }
    show_value(alloc, " above ", store.above(name), text)
}

fn show_edges(alloc: Global, store: &Store, place: Place, text: &mut Text) -> Result<(), Memory> {
    if place.0 >= store.count() {
        return Ok(());
    }
    if let Some(target) = store.target(place) {
        show_number(alloc, " to ", target.0, text)?;
    }
    show_places(alloc, " < ", store.dependents(place), text)?;
    show_places(alloc, " ~ ", store.watchers(place), text)
}

fn show_places(alloc: Global, word: &str, places: &[Place], text: &mut Text) -> Result<(), Memory> {
    for place in places {
        show_number(alloc, word, place.0, text)?;
    }
    Ok(())
}

fn show_number(alloc: Global, word: &str, number: u64, text: &mut Text) -> Result<(), Memory> {
    text.push_str(word)?;
    text.push_str(number.to_string(alloc)?.as_str())
}

fn show_value(
    alloc: Global,
    word: &str,
    value: Option<&Val>,
    text: &mut Text,
) -> Result<(), Memory> {
    if let Some(value) = value {
        text.push_str(word)?;
        value.show(alloc, text)?;
    }
    Ok(())
}

/// The births and the facts of a moment, in their order.
pub fn shown_moment(alloc: Global, moment: &Moment) -> Result<Text, Memory> {
    let mut text = Text::new(alloc);
    moment.time.show(&mut text)?;
    for node in moment.born.as_slice() {
        text.push_str(" + ")?;
        node.name.show(&mut text)?;
    }
    for fact in moment.fired.as_slice() {
        text.push_str(" ")?;
        fact.node.show(&mut text)?;
        show_value(alloc, " ", Some(&fact.value), &mut text)?;
    }
    Ok(text)
}
