//! Tries the cases of standard input, one a line: an expression as a graph file has it, in the cases' scope, and what it must
//! come to. The scope and its values are those of `scope.rt`. There are two kinds of line:
//!
//! - `(add a 3) : Int uses 0 = 13` is an expression of type `Int` that uses entry 0 of the scope, and has the value 13 on
//!   the scope's values. The entries, from 0, are in the order of first use; where there are none, `uses` is left out.
//! - `(add b 1) ! type 5` is an expression with a first fault of the kind `type` at byte 5 of its text, from 0.
//!
//! Types and values are written as `show` writes them. An expression holds no ` : ` and no ` ! `. A line that begins with `#`
//! is a heading. Each case that comes out otherwise is printed with what came instead, and at the end how many cases there
//! are and how many came out as expected.
#![tactic(auto)]

mod answer;
mod reader;
mod scope;

use answer::answer;
use frp_base::Memory;
use scope::{Setting, make_setting};
use std::alloc::{AllocError, Global};
use std::io;

fn main(rt: HostRuntime) -> io::Result<()> {
    let alloc = rt.alloc();
    let Ok(setting) = make_setting(alloc) else {
        return println!(rt; "out of memory");
    };
    let mut count = 0u64;
    let mut expected = 0u64;
    for line in rt.lines(alloc) {
        let line = line?;
        if line.starts_with('#') {
            continue;
        }
        count = count.wrapping_add(1);
        let found = outcome(alloc, &setting, line.as_str())?;
        if found.as_str() == line.as_str() {
            expected = expected.wrapping_add(1);
        } else {
            println!(rt; "{line}, but it came out as {found}")?;
        }
    }
    println!(rt; "{count} cases, {expected} as expected")
}

/// A line as it ought to be: the text of its expression, and what that comes to.
fn outcome(alloc: Global, setting: &Setting, line: &str) -> Result<String, AllocError> {
    let text = expression(line);
    match answer(alloc, setting, text) {
        Ok(Some(found)) => format!(in alloc; "{text} {}", found.as_str()),
        Ok(None) => format!(in alloc; "{text}, which is no expression"),
        Err(Memory) => format!(in alloc; "{text}, for which memory is wanting"),
    }
}

/// The text of a line's expression.
fn expression(line: &str) -> &str {
    if let Some((text, _)) = line.split_once(" : ") {
        return text;
    }
    match line.split_once(" ! ") {
        Some((text, _)) => text,
        None => line,
    }
}
