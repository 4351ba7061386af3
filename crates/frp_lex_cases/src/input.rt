//! Reads inputs as the lines have them.

use crate::bytes::byte_of;
use frp_base::Memory;
use std::alloc::Global;

/// The range of bytes that a written input has, where it has one.
pub fn range_of(written: &str) -> Option<(u8, u8)> {
    let (_, behind) = written.split_once("\\[")?;
    match behind.as_bytes() {
        [a, b, b'-', c, d, b']', ..] => Some((byte_of(*a, *b), byte_of(*c, *d))),
        _ => None,
    }
}

/// The bytes of a written input, with this byte for a range.
pub fn input_of(alloc: Global, written: &str, any: u8) -> Result<Vec<u8>, Memory> {
    let mut input = Vec::new(alloc);
    let mut rest = written;
    for _ in 0..written.len() {
        let Some((plain, behind)) = rest.split_once("\\*") else {
            break;
        };
        push_units(&mut input, plain.as_bytes(), any)?;
        let Some((count, behind)) = behind.split_once('*') else {
            break;
        };
        let Some((part, more)) = behind.split_once('*') else {
            break;
        };
        push_times(
            &mut input,
            part.as_bytes(),
            any,
            count.parse::<u32>().unwrap_or(0),
        )?;
        rest = more;
    }
    push_units(&mut input, rest.as_bytes(), any)?;
    Ok(input)
}

/// Adds the bytes that are written so, some times over.
fn push_times(input: &mut Vec<u8>, part: &[u8], any: u8, times: u32) -> Result<(), Memory> {
    for _ in 0..times {
        push_units(input, part, any)?;
    }
    Ok(())
}

/// Adds the bytes that are written so.
fn push_units(input: &mut Vec<u8>, written: &[u8], any: u8) -> Result<(), Memory> {
    let mut rest = written;
    for _ in 0..written.len() {
        let Some((byte, more)) = unit(rest, any) else {
            break;
        };
        input.push(byte)?;
        rest = more;
    }
    Ok(())
}

/// The first of the bytes that are written so, and how the others are written.
fn unit(written: &[u8], any: u8) -> Option<(u8, &[u8])> {
    match written {
        [b'\\', b'x', a, b, rest @ ..] => Some((byte_of(*a, *b), rest)),
        [b'\\', b'[', _, _, b'-', _, _, b']', rest @ ..] => Some((any, rest)),
        [b'\\', b'\\', rest @ ..] => Some((b'\\', rest)),
        [byte, rest @ ..] => Some((*byte, rest)),
        [] => None,
    }
}
