use frp_base::Memory;
use frp_fixture::{Called, Kind, Line, play};
use frp_store::Store;
use std::alloc::Global;

/// A graph that grows with a number.
#[derive(Clone, Copy)]
pub enum Graph {
    /// So many maps, each of the next, and the last of the first.
    Ring,
    /// So many rungs of two merges, each of both merges of the rung before.
    Ladder,
}

impl Graph {
    /// What is measured, in words.
    pub fn word(self) -> &'static str {
        match self {
            Graph::Ring => "a ring",
            Graph::Ladder => "a ladder",
        }
    }
}

/// Makes the graph of a number, of at least one, and answers whether it could be made.
pub fn fill(alloc: Global, store: &mut Store, graph: Graph, count: u64) -> Result<bool, Memory> {
    match graph {
        Graph::Ring => ring(alloc, store, count),
        Graph::Ladder => ladder(alloc, store, count),
    }
}

fn ring(alloc: Global, store: &mut Store, count: u64) -> Result<bool, Memory> {
    for item in 0..count {
        let next = if item + 1 < count { item + 1 } else { 0 };
        let line = Line::Stream(Called::Declared(item), Kind::Map(Called::Declared(next)));
        if !play(alloc, store, &[line])? {
            return Ok(false);
        }
    }
    Ok(true)
}

fn ladder(alloc: Global, store: &mut Store, rungs: u64) -> Result<bool, Memory> {
    let mut last = (Called::Declared(0), Called::Declared(1));
    let sinks = [
        Line::Stream(last.0, Kind::Sink),
        Line::Stream(last.1, Kind::Sink),
    ];
    if !play(alloc, store, &sinks)? {
        return Ok(false);
    }
    for item in 1..=rungs.min(1_000_000) {
        let rung = (Called::Declared(2 * item), Called::Declared(2 * item + 1));
        let merge = Kind::Merge(last.0, last.1);
        if !play(
            alloc,
            store,
            &[Line::Stream(rung.0, merge), Line::Stream(rung.1, merge)],
        )? {
            return Ok(false);
        }
        last = rung;
    }
    Ok(true)
}
