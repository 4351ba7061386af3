//! Bytes to tokens.

ghost use Rattle.std.specs.Prelude.{◌≡◌, OnOk};
ghost use Rattle.frp_lex.specs.Tokens as spec;
ghost use Rattle.frp_lex.specs.Gives.{LexGives};

use crate::fault::LexStop;
use crate::front::front_of;
use crate::token::{Kind, Token};
use frp_base::{Memory, Seq};
use std::alloc::Global;

/// Adds the token of this kind, where there is one.
fn add(tokens: &mut Seq<Token>, at: usize, kind: Option<Kind>) -> Result<(), Memory>
    ensures { OnOk result (tokens.new ≡ spec.added tokens.old at kind) }
{
    if let Some(kind) = kind {
        let at = at as u64;
        tokens.add(Token { at, kind })?;
    }
    Ok(())
}

/// The tokens of the bytes, with their places from 0, or the first fault. The bytes may be any. It takes time in proportion to
/// how many they are.
pub fn lex(alloc: Global, bytes: &[u8]) -> Result<Seq<Token>, LexStop>
    ensures { LexGives (λ ts. ts) result (spec.tokens bytes.now) }
{
    let mut tokens = Seq::new(alloc);
    let mut at = 0;
    while at < bytes.len() {
        let (kind, len) = front_of(alloc, at, &bytes[at..])?;
        add(&mut tokens, at, kind)?;
        at += len;
    }
    Ok(tokens)
}
