//! Atoms.

ghost use Rattle.std.specs.Prelude.{◌≡◌, ◌<◌, length, IfOk};
ghost use Rattle.std.specs.Str.{IsAscii};
ghost use Rattle.frp_lex.specs.Atoms as spec;
ghost use Rattle.frp_lex.specs.Tokens.{atom};
ghost use Rattle.frp_lex.specs.Gives.{LexGives, lex_fault};

use crate::bytes::{are_in_name, are_letters, is_digit, is_lower, is_upper};
use crate::fault::{Lex, LexKind, LexStop};
use crate::number::atom_number;
use crate::token::Kind;
use frp_base::{Memory, Text};
use std::alloc::Global;

/// The most bytes of a name.
const MOST: usize = 32;

/// The fault of a kind at a place.
pub fn stop<T>(at: usize, kind: LexKind) -> Result<T, LexStop>
    ensures { result ≡ Err (LexStop.Fault (record { place = at; kind = kind })) }
{
    let place = at as u64;
    Err(LexStop::Fault(Lex { place, kind }))
}

/// Whether the bytes are a name, its length aside.
fn is_name(bytes: &[u8]) -> bool
    ensures { result ≡ spec.is_name bytes.now }
{
    match bytes {
        [] => false,
        [b, rest @ ..] => is_lower(*b) && are_in_name(rest),
    }
}

/// Whether the bytes are a word.
fn is_word(bytes: &[u8]) -> bool
    ensures { result ≡ spec.is_word bytes.now }
{
    match bytes {
        [] => false,
        [b, rest @ ..] => is_upper(*b) && are_letters(rest),
    }
}

/// A text of these bytes.
#[tactic(auto, using(std::proofs::lemmas::Str::encode_ascii))]
pub fn text_of(alloc: Global, bytes: &[u8]) -> Result<Text, Memory>
    requires { IsAscii bytes.now }
    ensures { IfOk result (λ t. t ≡ bytes.now) }
{
    let mut text = Text::new(alloc);
    for b in bytes {
        text.push(char::from(*b))?;
    }
    Ok(text)
}

/// What an atom is.
#[tactic(auto, using(crate::proofs::Ascii::name_is_ascii, crate::proofs::Ascii::word_is_ascii), unfolding(crate::specs::Tokens::atom_from))]
pub fn atom_of(alloc: Global, at: usize, bytes: &[u8]) -> Result<Kind, LexStop>
    requires { 0 < length bytes.now }
    ensures { LexGives (λ k. k) result (atom at bytes.now) }
{
    let b = bytes[0];
    if is_digit(b) || b == b'-' {
        return match atom_number(bytes) {
            None => stop(at, LexKind::Number),
            Some(n) => Ok(Kind::Num(n)),
        };
    }
    if is_name(bytes) {
        if bytes.len() > MOST {
            return stop(at, LexKind::LongName);
        }
        return Ok(Kind::Name(text_of(alloc, bytes)?));
    }
    if is_word(bytes) {
        return Ok(Kind::Word(text_of(alloc, bytes)?));
    }
    stop(at, LexKind::Name)
}
