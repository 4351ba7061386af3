//! What an input comes to, as the lines have it.

use crate::bytes::{Any, show};
use frp_base::{Memory, Text};
use frp_lex::{Kind, Lex, LexKind, LexStop, Token, lex, spell};
use std::alloc::Global;

/// The most tokens that are written out.
const MOST: usize = 64;

/// Appends what an input comes to.
pub fn answer(alloc: Global, input: &[u8], any: Any, out: &mut Text) -> Result<(), Memory> {
    match lex(alloc, input) {
        Ok(tokens) => {
            out.push_str(" : ")?;
            show_tokens(alloc, tokens.as_slice(), any, out)?;
            out.push_str(" = ")?;
            let line = spell(alloc, tokens.as_slice())?;
            show(alloc, line.as_str().as_bytes(), any, out)
        }
        Err(LexStop::Fault(fault)) => show_fault(alloc, fault, out),
        Err(LexStop::Memory) => Err(Memory),
    }
}

/// Appends tokens, or how many there are where there are many.
fn show_tokens(alloc: Global, tokens: &[Token], any: Any, out: &mut Text) -> Result<(), Memory> {
    if tokens.is_empty() {
        return out.push_str("nothing");
    }
    if tokens.len() > MOST {
        out.push_str(tokens.len().to_string(alloc)?.as_str())?;
        return out.push_str(" tokens");
    }
    for (i, token) in tokens.iter().enumerate() {
        if i > 0 {
            out.push_str(", ")?;
        }
        show_token(alloc, token, any, out)?;
    }
    Ok(())
}

/// Appends a token's kind, its place, and what it holds.
fn show_token(alloc: Global, token: &Token, any: Any, out: &mut Text) -> Result<(), Memory> {
    out.push_str(kind(&token.kind))?;
    out.push_str(" ")?;
    out.push_str(token.at.to_string(alloc)?.as_str())?;
    match &token.kind {
        Kind::Left | Kind::Right => Ok(()),
        Kind::Name(text) | Kind::Word(text) | Kind::Str(text) => {
            out.push_str(" ")?;
            show(alloc, text.as_str().as_bytes(), any, out)
        }
        Kind::Num(n) => {
            out.push_str(" ")?;
            show(alloc, n.to_string(alloc)?.as_str().as_bytes(), any, out)
        }
    }
}

/// The word for a kind of token.
fn kind(kind: &Kind) -> &'static str {
    match kind {
        Kind::Left => "left",
        Kind::Right => "right",
        Kind::Name(_) => "name",
        Kind::Word(_) => "word",
        Kind::Num(_) => "num",
        Kind::Str(_) => "str",
    }
}

/// Appends the kind and the place of a fault.
fn show_fault(alloc: Global, fault: Lex, out: &mut Text) -> Result<(), Memory> {
    out.push_str(" ! ")?;
    out.push_str(fault_kind(fault.kind))?;
    out.push_str(" ")?;
    out.push_str(fault.place.to_string(alloc)?.as_str())
}

/// The word for a kind of fault.
fn fault_kind(kind: LexKind) -> &'static str {
    match kind {
        LexKind::Byte => "byte",
        LexKind::Unclosed => "unclosed",
        LexKind::LongText => "long-text",
        LexKind::Number => "number",
        LexKind::Name => "name",
        LexKind::LongName => "long-name",
    }
}
