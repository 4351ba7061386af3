//! Types.

ghost use Rattle.std.specs.Prelude.{◌≡◌, List, ℕ, IfOk};
ghost use Rattle.frp_form.specs.Gives.{FormGives};
ghost use Rattle.frp_form.specs.Types as spec;

use crate::fault::FormStop;
use crate::tokens::{right, too_deep, unexpected};
use crate::ty_word::{TyWord, atom_ty, binary_ty, ty_word, unary_ty};
use frp_base::{Boxed, Memory};
use frp_expr::{RawTy, TyForm};
use frp_lex::{Kind, Token};
use std::alloc::Global;

/// A written type at its place.
fn ty_at(alloc: Global, at: u64, form: TyForm) -> Result<Boxed<RawTy>, Memory>
    ensures { IfOk result (λ b. b ≡ spec.raw_ty at form) }
{
    Boxed::new(alloc, RawTy { at, form })
}

/// The parts and the right parenthesis of a form that begins at this place; `tokens` are from its head word on.
#[cycle(ty)]
#[tactic(auto, unfolding(crate::specs::Types::ty_parts))]
fn ty_parts<'a>(
    alloc: Global,
    end: u64,
    room: usize,
    at: u64,
    tokens: &'a [Token],
    word: Option<TyWord>,
    rest: &'a [Token],
) -> Result<(Boxed<RawTy>, &'a [Token]), FormStop>
    ensures { FormGives (λ x. (x.0, x.1.now)) result (spec.ty_parts end (spec.ty_at end room) at tokens.now word rest.now) }
{
    match word {
        Some(TyWord::Unary(op)) => {
            let (x, rest) = ty(alloc, end, room, rest)?;
            let rest = right(end, rest)?;
            Ok((ty_at(alloc, at, unary_ty(op, x))?, rest))
        }
        Some(TyWord::Binary(op)) => {
            let (x, rest) = ty(alloc, end, room, rest)?;
            let (y, rest) = ty(alloc, end, room, rest)?;
            let rest = right(end, rest)?;
            Ok((ty_at(alloc, at, binary_ty(op, x, y))?, rest))
        }
        _ => unexpected(end, tokens),
    }
}

/// What follows the left parenthesis at this place.
#[cycle(ty)]
#[tactic(auto, unfolding(crate::specs::Types::ty_form))]
fn ty_form(
    alloc: Global,
    end: u64,
    room: usize,
    at: u64,
    tokens: &[Token],
) -> Result<(Boxed<RawTy>, &[Token]), FormStop>
    ensures { FormGives (λ x. (x.0, x.1.now)) result (spec.ty_form end (spec.ty_at end room) at tokens.now) }
{
    match tokens {
        [head, rest @ ..] => match &head.kind {
            Kind::Word(word) => {
                let word = ty_word(word.as_str());
                ty_parts(alloc, end, room, at, tokens, word, rest)
            }
            _ => unexpected(end, tokens),
        },
        _ => unexpected(end, tokens),
    }
}

/// A type of at most so many levels.
#[cycle(ty)]
#[tactic(auto, unfolding(crate::specs::Types::ty_layer))]
pub fn ty(
    alloc: Global,
    end: u64,
    room: usize,
    tokens: &[Token],
) -> Result<(Boxed<RawTy>, &[Token]), FormStop>
    ensures { FormGives (λ x. (x.0, x.1.now)) result (spec.ty_at end room tokens.now) }
{
    if room == 0 {
        return too_deep(end, tokens);
    }
    match tokens {
        [first, rest @ ..] => match &first.kind {
            Kind::Left => ty_form(alloc, end, room - 1, first.at, rest),
            Kind::Word(word) => match ty_word(word.as_str()) {
                Some(TyWord::Atom(op)) => Ok((ty_at(alloc, first.at, atom_ty(op))?, rest)),
                _ => unexpected(end, tokens),
            },
            _ => unexpected(end, tokens),
        },
        _ => unexpected(end, tokens),
    }
}

/// The most levels of a type or an expression.
pub const LEVELS: usize = 16;

/// A type.
#[tactic(auto, unfolding(crate::specs::Types::whole_ty))]
pub fn whole_ty(
    alloc: Global,
    end: u64,
    tokens: &[Token],
) -> Result<(Boxed<RawTy>, &[Token]), FormStop>
    ensures { FormGives (λ x. (x.0, x.1.now)) result (spec.whole_ty end tokens.now) }
{
    ty(alloc, end, LEVELS, tokens)
}
