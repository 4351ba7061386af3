//! The limit on the number of nodes.

use std::alloc::Global;
use std::io;

/// The most nodes that a program may have.
const MOST: u64 = 65_536;

/// A letter from `a` to `p`, by the last digit of a number of base 16.
fn letter(number: u64) -> char {
    (b'a' + (number % 16) as u8) as char
}

/// A graph of as many inputs as the limit allows, each with a name of its own of four letters, and of these items behind them.
pub fn graph_at_it(alloc: Global, more: &str) -> io::Result<String> {
    let mut text = String::from_str(alloc, "(graph")?;
    for i in 0..MOST {
        let (a, b, c, d) = (letter(i), letter(i / 16), letter(i / 256), letter(i / 4096));
        text.push_str(format!(in alloc; "(sink {a}{b}{c}{d} Int)")?.as_str())?;
    }
    text.push_str(more)?;
    text.push_str(")")?;
    Ok(text)
}

/// The report of that graph with no more items.
pub fn report_at_it(alloc: Global) -> io::Result<String> {
    let mut text = format!(in alloc; "at [0] born {MOST} fired 0\n")?;
    for i in 0..MOST {
        text.push_str(format!(in alloc; "  + #{i} sink\n")?.as_str())?;
    }
    text.push_str("end 0\n")?;
    Ok(text)
}
