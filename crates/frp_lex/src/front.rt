//! What stands at the front of bytes.

ghost use Rattle.std.specs.Prelude.{◌≡◌, ◌≤◌, ◌+◌, length, drop, IfOk, slice_index};
ghost use Rattle.std.specs.List.{prefix_len};
ghost use Rattle.frp_lex.specs.Bytes as spec;
ghost use Rattle.frp_lex.specs.Tokens.{front};
ghost use Rattle.frp_lex.specs.Gives.{LexGives};

use crate::atom::{atom_of, stop};
use crate::bytes::is_in_atom;
use crate::fault::{LexKind, LexStop};
use crate::quoted::quoted;
use crate::token::Kind;
use std::alloc::Global;

/// How many bytes of an atom stand at the front.
fn atom_len(bytes: &[u8]) -> usize
    ensures value { result ≡ prefix_len spec.is_in_atom bytes.now }
    ensures within { result ≤ length bytes.now }
{
    for (i, b) in bytes.iter().enumerate() {
        if !is_in_atom(*b) {
            return i;
        }
    }
    bytes.len()
}

/// How many bytes stand before the first line feed, or before the end.
fn comment_len(bytes: &[u8]) -> usize
    ensures value { result ≡ prefix_len spec.is_in_comment bytes.now }
    ensures within { result ≤ length bytes.now }
{
    for (i, b) in bytes.iter().enumerate() {
        if *b == b'\n' {
            return i;
        }
    }
    bytes.len()
}

/// The kind of the token at the front, or none where a blank or a comment stands there, and how many bytes it has.
#[tactic(auto, unfolding(crate::specs::Tokens::front))]
pub fn front_of(alloc: Global, at: usize, bytes: &[u8]) -> Result<(Option<Kind>, usize), LexStop>
    requires some { 1 ≤ length bytes.now }
    requires within { at + length bytes.now ≤ usize.MAX }
    ensures value { LexGives (λ c. c) result (front at (slice_index bytes.now 0) (drop 1 bytes.now)) }
    ensures within { IfOk result (λ c. (1 ≤ c.1) × (c.1 ≤ length bytes.now)) }
{
    match bytes[0] {
        b' ' | b'\t' | b'\n' | b'\r' => Ok((None, 1)),
        b';' => Ok((None, 1 + comment_len(&bytes[1..]))),
        b'(' => Ok((Some(Kind::Left), 1)),
        b')' => Ok((Some(Kind::Right), 1)),
        b'"' => quoted(alloc, at, &bytes[1..]),
        b => {
            if !is_in_atom(b) {
                return stop(at, LexKind::Byte);
            }
            let len = atom_len(bytes);
            Ok((Some(atom_of(alloc, at, &bytes[..len])?), len))
        }
    }
}
