//! Reads inputs as the lines have them.

use frp_base::Memory;

/// Adds the bytes that are written so.
pub fn push_written(input: &mut Vec<u8>, written: &str) -> Result<(), Memory> {
    let mut rest = written;
    for _ in 0..written.len() {
        let Some((plain, behind)) = rest.split_once("\\*") else {
            break;
        };
        push_units(input, plain.as_bytes())?;
        let Some((count, behind)) = behind.split_once('*') else {
            break;
        };
        let Some((part, more)) = behind.split_once('*') else {
            break;
        };
        push_times(input, part.as_bytes(), count.parse::<u32>().unwrap_or(0))?;
        rest = more;
    }
    push_units(input, rest.as_bytes())
}

/// Adds the bytes that are written so, some times over.
fn push_times(input: &mut Vec<u8>, part: &[u8], times: u32) -> Result<(), Memory> {
    for _ in 0..times {
        push_units(input, part)?;
    }
    Ok(())
}

/// Adds the bytes that are written so.
fn push_units(input: &mut Vec<u8>, written: &[u8]) -> Result<(), Memory> {
    let mut rest = written;
    for _ in 0..written.len() {
        let Some((byte, more)) = unit(rest) else {
            break;
        };
        input.push(byte)?;
        rest = more;
    }
    Ok(())
}

/// The first of the bytes that are written so, and how the others are written.
fn unit(written: &[u8]) -> Option<(u8, &[u8])> {
    match written {
        [b'\\', b'n', rest @ ..] => Some((b'\n', rest)),
        [b'\\', b'\\', rest @ ..] => Some((b'\\', rest)),
        [byte, rest @ ..] => Some((*byte, rest)),
        [] => None,
    }
}
