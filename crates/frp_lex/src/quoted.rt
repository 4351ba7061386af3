//! Texts in quotes, from the byte behind the opening quote on.

ghost use Rattle.std.specs.Prelude.{◌≡◌, ◌≤◌, ◌<◌, ◌+◌, length, false, IfOk, IfSome};
ghost use Rattle.std.specs.Str.{IsAscii};
ghost use Rattle.frp_lex.specs.Quoted as spec;
ghost use Rattle.frp_lex.specs.Tokens.{text};
ghost use Rattle.frp_lex.specs.Gives.{LexGives};

use crate::atom::stop;
use crate::bytes::{is_escaped, is_in_text};
use crate::fault::{LexKind, LexStop};
use crate::token::Kind;
use frp_base::{Memory, Text};
use std::alloc::Global;

/// The most bytes of a text's value.
const MOST: usize = 1024;

/// How many bytes stand before the closing quote, where there is one.
fn closing(bytes: &[u8]) -> Option<usize>
    ensures value { result ≡ spec.closing_quote false 0 bytes.now }
    ensures within { IfSome result (λ n. n < length bytes.now) }
{
    let mut escaped = false;
    for (i, b) in bytes.iter().enumerate() {
        let b = *b;
        if escaped {
            escaped = false;
        } else {
            if b == b'"' {
                return Some(i);
            }
            escaped = b == b'\\';
        }
    }
    None
}

/// The place of the first byte that a text cannot have, where there is one.
fn first_bad(bytes: &[u8]) -> Option<usize>
    ensures value { result ≡ spec.first_bad false 0 bytes.now }
    ensures within { IfSome result (λ n. n < length bytes.now) }
{
    let mut escaped = false;
    for (i, b) in bytes.iter().enumerate() {
        if escaped {
            if !is_escaped(*b) {
                return Some(i - 1);
            }
            escaped = false;
        } else {
            if !is_in_text(*b) {
                return Some(i);
            }
            escaped = *b == b'\\';
        }
    }
    None
}

/// The bytes without the backslashes that stand before others.
fn unescaped(alloc: Global, bytes: &[u8]) -> Result<Text, Memory>
    requires { IsAscii bytes.now }
    ensures { IfOk result (λ t. t ≡ spec.unescaped false bytes.now) }
{
    let mut text = Text::new(alloc);
    let mut escaped = false;
    for b in bytes {
        if !escaped && *b == b'\\' {
            escaped = true;
        } else {
            text.push(char::from(*b))?;
            escaped = false;
        }
    }
    Ok(text)
}

/// The text whose opening quote stands before the bytes, and its length with both quotes.
#[tactic(auto, using(crate::proofs::Ascii::good_is_ascii), unfolding(crate::specs::Tokens::text))]
pub fn quoted(alloc: Global, at: usize, bytes: &[u8]) -> Result<(Option<Kind>, usize), LexStop>
    requires { at + length bytes.now ≤ usize.MAX }
    ensures value { LexGives (λ c. c) result (text at bytes.now) }
    ensures within { IfOk result (λ c. (1 ≤ c.1) × (c.1 ≤ length bytes.now + 1)) }
{
    let n = match closing(bytes) {
        None => return stop(at, LexKind::Unclosed),
        Some(n) => n,
    };
    let inside = &bytes[..n];
    if let Some(bad) = first_bad(inside) {
        return stop(at + 1 + bad, LexKind::Byte);
    }
    let text = unescaped(alloc, inside)?;
    if text.as_str().len() > MOST {
        return stop(at, LexKind::LongText);
    }
    Ok((Some(Kind::Str(text)), inside.len() + 2))
}
