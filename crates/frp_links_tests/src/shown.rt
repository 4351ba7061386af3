use frp_base::{Memory, Name, Text};
use frp_fixture::{Line, can_read, empty, play};
use frp_graph::{Phase, View};
use frp_links::{chain, links_of};
use frp_store::Store;
use std::alloc::Global;

/// Whether the chain of a phase, or that there is none, is shown as this text after these lines, each of which can be done.
pub fn answers(alloc: Global, lines: &[Line], phase: Phase, text: &str) -> Result<bool, Memory> {
    let mut store = empty(alloc);
    is_answered(alloc, &mut store, lines, phase, text)
}

fn is_answered(
    alloc: Global,
    store: &mut Store,
    lines: &[Line],
    phase: Phase,
    text: &str,
) -> Result<bool, Memory> {
    let is_played = play(alloc, store, lines)?;
    Ok(is_played && shown_chain(alloc, store, phase)?.as_str() == text)
}

fn shown_chain(alloc: Global, store: &Store, phase: Phase) -> Result<Text, Memory> {
    let mut text = Text::new(alloc);
    if !can_read(store) {
        text.push_str("links can't be read")?;
        return Ok(text);
    }
    match chain(alloc, store, phase)? {
        Some(names) => show_names(names.as_slice(), &mut text)?,
        None => text.push_str("none")?,
    }
    Ok(text)
}

/// Whether the links of the live nodes in a phase are shown as this text after these lines, each of which can be done.
pub fn leads(alloc: Global, lines: &[Line], phase: Phase, text: &str) -> Result<bool, Memory> {
    let mut store = empty(alloc);
    is_leading(alloc, &mut store, lines, phase, text)
}

fn is_leading(
    alloc: Global,
    store: &mut Store,
    lines: &[Line],
    phase: Phase,
    text: &str,
) -> Result<bool, Memory> {
    let is_played = play(alloc, store, lines)?;
    Ok(is_played && shown_links(alloc, store, phase)?.as_str() == text)
}

fn shown_links(alloc: Global, store: &Store, phase: Phase) -> Result<Text, Memory> {
    let mut text = Text::new(alloc);
    if !can_read(store) {
        text.push_str("links can't be read")?;
        return Ok(text);
    }
    for number in 0..store.live() {
        let links = links_of(alloc, store, store.nth(number), phase)?;
        text.push_str(";")?;
        show_names(links.as_slice(), &mut text)?;
    }
    Ok(text)
}

fn show_names(names: &[Name], text: &mut Text) -> Result<(), Memory> {
    for name in names {
        text.push_str(" ")?;
        name.show(text)?;
    }
    Ok(())
}
