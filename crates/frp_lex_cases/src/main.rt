//! Tries the cases of standard input, one a line: an input, and what it must come to. There are two kinds of line:
//!
//! - `` `(a  -1)` : left 0, name 1 `a`, num 4 `-1`, right 6 = `(a -1)` `` is an input, its tokens with their places, and the
//!   line that they are spelled on.
//! - `` `(a #)` ! byte 3 `` is an input with a first fault of the kind `byte` at place 3.
//!
//! Bytes are written as themselves between two `` ` ``, but for these:
//!
//! - `\x0a` is the byte 0a, and `\\` is a backslash. A byte that is not from the space to the tilde, a backslash and `` ` ``
//!   are written so, and behind a backslash also `*` and `[`.
//! - `\*32*ab*` is `ab`, 32 times. No repetition and no `*` stands within it.
//! - `\[61-7a]` stands for each byte from 61 to 7a in turn. What comes out must be the same for each, with `\[61-7a]` for that
//!   byte again.
//!
//! Of a text of more than 64 bytes only how many bytes it has is written, and of more than 64 tokens how many there are. A line
//! that begins with `#` is a heading. Each case that comes out otherwise is printed with what came instead, and at the end how
//! many cases there are and how many came out as expected.
#![tactic(auto)]

mod answer;
mod bytes;
mod input;

use answer::answer;
use bytes::Any;
use frp_base::{Memory, Text};
use input::{input_of, range_of};
use std::alloc::Global;
use std::io;

fn main(rt: HostRuntime) -> io::Result<()> {
    let alloc = rt.alloc();
    let mut count = 0u64;
    let mut expected = 0u64;
    for line in rt.lines(alloc) {
        let line = line?;
        if line.starts_with('#') {
            continue;
        }
        count = count.wrapping_add(1);
        match first_other(alloc, line.as_str()) {
            Ok(None) => expected = expected.wrapping_add(1),
            Ok(Some(found)) => println!(rt; "{line}, but it came out as {}", found.as_str())?,
            Err(Memory) => println!(rt; "{line}, for which memory is wanting")?,
        }
    }
    println!(rt; "{count} cases, {expected} as expected")
}

/// What comes of a line, at the first byte of its range for which that is not as the line says.
fn first_other(alloc: Global, line: &str) -> Result<Option<Text>, Memory> {
    let written = written(line);
    let range = range_of(written);
    let (low, high) = range.unwrap_or((0, 0));
    for byte in low..=high {
        let any = Any { range, byte };
        let found = outcome(alloc, written, any)?;
        if found.as_str() != line {
            return Ok(Some(found));
        }
    }
    Ok(None)
}

/// The input of a line, as it is written.
fn written(line: &str) -> &str {
    let Some(behind) = line.strip_prefix('`') else {
        return line;
    };
    match behind.split_once("` ") {
        Some((written, _)) => written,
        None => behind,
    }
}

/// A line as it ought to be: its input, and what that comes to.
fn outcome(alloc: Global, written: &str, any: Any) -> Result<Text, Memory> {
    let input = input_of(alloc, written, any.byte)?;
    let mut found = Text::new(alloc);
    found.push_str("`")?;
    found.push_str(written)?;
    found.push_str("`")?;
    answer(alloc, &input, any, &mut found)?;
    Ok(found)
}
