//! Runs the graphs of the folder `examples` by both modes, a graph of as many nodes as the limit allows, and one of a node
//! more, and compares what is written with what is expected.
#![tactic(auto)]

mod limit;

use frp_io::{MemSink, PlainSource};
use frp_run::frp_plain;
use std::alloc::Global;
use std::{fs, io};

/// The examples: `NAME.frp` is a graph file, `NAME.report` its report, and `NAME.check` its canonical text with the table of its
/// names.
const NAMES: [&str; 4] = ["fridge", "kiosk", "thermostat", "till"];

/// The most bytes of an output.
const ROOM: usize = 16_777_216;

fn main(rt: HostRuntime) -> io::Result<()> {
    let alloc = rt.alloc();
    for name in &NAMES {
        for (mode, kind) in [("replay", "report"), ("check", "check")] {
            let input = fs::read(&rt, format!(in alloc; "{name}.frp")?)?;
            let expected = fs::read(&rt, format!(in alloc; "{name}.{kind}")?)?;
            let is_right = gives(alloc, mode, input, 0, expected.as_slice())?;
            println!(rt; "{name} by {mode}: {}", word(is_right))?;
        }
    }
    let input = limit::graph_at_it(alloc, "")?.into_bytes();
    let expected = limit::report_at_it(alloc)?;
    let is_right = gives(alloc, "replay", input, 0, expected.as_bytes())?;
    println!(rt; "65,536 nodes: {}", word(is_right))?;
    let input = limit::graph_at_it(alloc, "(sink more Int)")?.into_bytes();
    let is_right = gives(alloc, "replay", input, 6, b"refused build 5\n")?;
    println!(rt; "65,537 nodes: {}", word(is_right))?;
    Ok(())
}

/// Whether a mode answers an input with this status, and writes this.
fn gives(
    alloc: Global,
    mode: &str,
    input: Vec<u8>,
    status: u8,
    expected: &[u8],
) -> io::Result<bool> {
    let words = vec![in alloc; String::from_str(alloc, mode)?]?;
    let mut source = PlainSource::new(input);
    let Ok(mut sink) = MemSink::new(alloc, 4096, ROOM, Vec::new(alloc)) else {
        return Ok(false);
    };
    let answered = frp_plain(alloc, words.as_slice(), &mut source, &mut sink);
    Ok(answered == status && sink.bytes() == expected)
}

/// What is said of an output.
fn word(is_right: bool) -> &'static str {
    if is_right {
        "as expected"
    } else {
        "another output"
    }
}
