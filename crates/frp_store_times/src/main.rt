//! Prints how long a thousand moments take in each of which one node has an occurrence, over a thousand nodes and over ten; and then
//! those of a thousand nodes that all have one, which leave a million facts. It does so only where it is given a word, as `times`, since
//! the numbers differ from run to run.
#![tactic(auto)]

mod moments;

use frp_store::Store;
use moments::{empty, fill, pass};
use std::time::Instant;
use std::{env, io};

fn main(rt: HostRuntime) -> io::Result<()> {
    if env::args(&rt)?.count() < 2 {
        return Ok(());
    }
    measure(&rt, 1000, 1)?;
    measure(&rt, 10, 1)?;
    measure(&rt, 1000, 1000)
}

/// Measures a thousand moments over so many nodes, of which so many have an occurrence at each, and prints the time.
fn measure(rt: &HostRuntime, nodes: u64, fired: u64) -> io::Result<()> {
    let mut store = empty(rt.alloc());
    measure_in(rt, &mut store, nodes, fired)
}

fn measure_in(rt: &HostRuntime, store: &mut Store, nodes: u64, fired: u64) -> io::Result<()> {
    if !fill(rt.alloc(), store, nodes).unwrap_or(false) {
        return println!(rt; "{nodes} nodes: the store could not be filled");
    }
    let start = Instant::now(rt)?;
    let is_done = pass(rt.alloc(), store, fired).unwrap_or(false);
    let taken = start.elapsed(rt)?.as_micros();
    println!(rt; "{nodes} nodes, {fired} of them fire: {taken} microseconds, done: {is_done}")
}
