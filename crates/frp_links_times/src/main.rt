//! Prints how long it takes to find a closed chain of a thousand nodes, and that a ladder of a thousand rungs has none, and the
//! same for two thousand. It does so only where it is given a word, as `times`, since the numbers differ from run to run.
#![tactic(auto)]

mod graphs;

use frp_fixture::{can_read, empty};
use frp_graph::Phase;
use frp_links::chain;
use frp_store::Store;
use graphs::{Graph, fill};
use std::time::Instant;
use std::{env, io};

fn main(rt: HostRuntime) -> io::Result<()> {
    if env::args(&rt)?.count() < 2 {
        return Ok(());
    }
    measure(&rt, Graph::Ring, 1000)?;
    measure(&rt, Graph::Ring, 2000)?;
    measure(&rt, Graph::Ladder, 1000)?;
    measure(&rt, Graph::Ladder, 2000)
}

/// Measures how long it takes to look for a chain in a graph of so many nodes or rungs, and prints the time.
fn measure(rt: &HostRuntime, graph: Graph, count: u64) -> io::Result<()> {
    let mut store = empty(rt.alloc());
    measure_in(rt, &mut store, graph, count)
}

fn measure_in(rt: &HostRuntime, store: &mut Store, graph: Graph, count: u64) -> io::Result<()> {
    let is_filled = fill(rt.alloc(), store, graph, count).unwrap_or(false);
    if !is_filled || !can_read(store) {
        return println!(rt; "{} of {count}: the graph could not be made", graph.word());
    }
    let start = Instant::now(rt)?;
    let length = match chain(rt.alloc(), store, Phase::During) {
        Ok(Some(names)) => names.as_slice().len(),
        Ok(None) => 0,
        Err(_) => return println!(rt; "{} of {count}: no memory", graph.word()),
    };
    let taken = start.elapsed(rt)?.as_micros();
    println!(rt;
        "{} of {count}: {taken} microseconds, a chain of {length}",
        graph.word()
    )
}
