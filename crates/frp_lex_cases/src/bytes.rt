//! Bytes as the lines have them.

use frp_base::{Memory, Text};
use std::alloc::Global;

/// The most bytes that are written out.
const MOST: usize = 64;

/// The range of a line, where it has one, and the byte of it that is tried.
#[derive(Clone, Copy)]
pub struct Any {
    pub range: Option<(u8, u8)>,
    pub byte: u8,
}

/// The byte that two hexadecimal digits write.
pub fn byte_of(high: u8, low: u8) -> u8 {
    digit_of(high).wrapping_mul(16).wrapping_add(digit_of(low))
}

/// The number that a hexadecimal digit writes.
fn digit_of(digit: u8) -> u8 {
    match digit {
        b'0'..=b'9' => digit.wrapping_sub(b'0'),
        _ => digit.wrapping_sub(b'a').wrapping_add(10),
    }
}

/// Appends bytes between quotes, or how many there are where there are many.
pub fn show(alloc: Global, bytes: &[u8], any: Any, out: &mut Text) -> Result<(), Memory> {
    if bytes.len() > MOST {
        out.push_str(bytes.len().to_string(alloc)?.as_str())?;
        return out.push_str(" bytes");
    }
    out.push_str("`")?;
    for byte in bytes {
        show_byte(alloc, *byte, any, out)?;
    }
    out.push_str("`")
}

/// Appends a byte, or the range where it is the byte that is tried of it.
fn show_byte(alloc: Global, byte: u8, any: Any, out: &mut Text) -> Result<(), Memory> {
    if let Some((low, high)) = any.range {
        if byte == any.byte {
            return out.push_str(format!(in alloc; "\\[{low:02x}-{high:02x}]")?.as_str());
        }
    }
    match byte {
        b'\\' => out.push_str("\\\\"),
        b'`' => out.push_str("\\x60"),
        b' '..=b'~' => out.push(char::from(byte)),
        _ => out.push_str(format!(in alloc; "\\x{byte:02x}")?.as_str()),
    }
}
