//! Tries the cases of standard input, one a line. A line begins with the kind of what its input must come to:
//!
//! - `ok (graph)(listen a) = (graph)\n(listen a)\n` is a file and its canonical text. Where that is the input and a line feed,
//!   it is left out: `ok (graph)`.
//! - `typed (graph (sink a Int)) = #0 a (Stream Int)` is a file of core items without a fault, and the labels of its nodes
//!   between commas. Where there are none, they and ` = ` are left out: `typed (graph)`.
//! - `expected (graph ^sink)` is an input with a first fault of the kind `expected` at the mark `^`, which is taken out before
//!   the input is read. Names and types are looked at only where the kind is `typed` or a fault of theirs.
//!
//! In the input and the canonical text `\n` is a line feed, `\\` is a backslash, and `\*32*ab*` is `ab`, 32 times; no repetition
//! and no `*` stands within it. Any number of senders is read; where the line begins with `replay `, one alone. A line that
//! begins with `#` is a heading. Each case that comes out otherwise is printed with what came instead, and at the end how many
//! cases of each kind there are and how many came out as expected.
#![tactic(auto)]

mod case;
mod counts;
mod found;
mod input;

use case::case_of;
use counts::{Counts, KINDS};
use found::found;
use frp_base::{Memory, Text};
use std::alloc::Global;
use std::io;

fn main(rt: HostRuntime) -> io::Result<()> {
    let alloc = rt.alloc();
    let mut counts = Counts::none();
    for line in rt.lines(alloc) {
        let line = line?;
        if line.starts_with('#') {
            continue;
        }
        match other(alloc, &mut counts, line.as_str()) {
            Ok(None) => {}
            Ok(Some(found)) => println!(rt; "{line}, but it came out as {}", found.as_str())?,
            Err(Memory) => println!(rt; "{line}, for which memory is wanting")?,
        }
    }
    for (i, kind) in KINDS.iter().enumerate() {
        println!(rt; "{kind} {}", counts.of_kinds[i])?;
    }
    println!(rt; "{} as expected", counts.right)
}

/// What comes of a line's input, where that is not as the line says. Counts the line.
fn other(alloc: Global, counts: &mut Counts, line: &str) -> Result<Option<Text>, Memory> {
    let case = case_of(alloc, line)?;
    counts.count(case.kind);
    let found = found(alloc, &case)?;
    if found.as_str().as_bytes() == case.wanted.as_slice() {
        counts.right = counts.right.wrapping_add(1);
        return Ok(None);
    }
    Ok(Some(found))
}
