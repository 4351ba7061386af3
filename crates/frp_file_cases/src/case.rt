//! Cases as the lines have them.

use crate::input::push_written;
use frp_base::Memory;
use frp_form::Reading;
use std::alloc::Global;

/// A case: how its input is read, the kind of what it must come to, the input, and what it must come to.
#[derive(Drop)]
pub struct Case<'a> {
    pub how: Reading,
    pub kind: &'a str,
    pub input: Vec<u8>,
    pub wanted: Vec<u8>,
}

/// The case of a line.
pub fn case_of(alloc: Global, line: &str) -> Result<Case<'_>, Memory> {
    let (one_sender, rest) = match line.strip_prefix("replay ") {
        Some(rest) => (true, rest),
        None => (false, line),
    };
    let (kind, written) = rest.split_once(' ').unwrap_or((rest, ""));
    let mut case = Case {
        how: Reading { one_sender },
        kind,
        input: Vec::new(alloc),
        wanted: Vec::new(alloc),
    };
    match kind {
        "ok" => read_file(&mut case, written)?,
        "typed" => read_typed(&mut case, written)?,
        _ => read_fault(alloc, &mut case, written)?,
    }
    Ok(case)
}

/// A file, and its canonical text, which is the text of the file and a line feed where none is written.
fn read_file(case: &mut Case<'_>, written: &str) -> Result<(), Memory> {
    match written.split_once(" = ") {
        Some((text, canonical)) => {
            push_written(&mut case.input, text)?;
            push_written(&mut case.wanted, canonical)
        }
        None => {
            push_written(&mut case.input, written)?;
            push_written(&mut case.wanted, written)?;
            push_written(&mut case.wanted, "\\n")
        }
    }
}

/// A file, and the labels of its nodes.
fn read_typed(case: &mut Case<'_>, written: &str) -> Result<(), Memory> {
    let (text, labels) = written.split_once(" = ").unwrap_or((written, ""));
    push_written(&mut case.input, text)?;
    push_written(&mut case.wanted, labels)
}

/// A text with a mark at its fault, and the kind and the place of that.
fn read_fault(alloc: Global, case: &mut Case<'_>, written: &str) -> Result<(), Memory> {
    let (before, behind) = written.split_once('^').unwrap_or((written, ""));
    push_written(&mut case.input, before)?;
    let place = case.input.len();
    push_written(&mut case.input, behind)?;
    let fault = format!(in alloc; "{} {place}", case.kind)?;
    for byte in fault.as_str().as_bytes() {
        case.wanted.push(*byte)?;
    }
    Ok(())
}
