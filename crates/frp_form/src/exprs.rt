//! Expressions.

ghost use Rattle.std.specs.Prelude.{◌≡◌, List, ℕ, [], ◌∷◌, IfOk, Err};
ghost use Rattle.frp_form.specs.Gives.{FormGives};
ghost use Rattle.frp_form.specs.Tokens.{head as head_at};
ghost use Rattle.frp_form.specs.Heads as forms;
ghost use Rattle.frp_form.specs.Lists.{behind};
ghost use Rattle.frp_form.specs.Types.{ty_at};
ghost use Rattle.frp_form.specs.Exprs as spec;
ghost use Rattle.frp_form.specs.Exprs.{expr_at};

use crate::fault::{FormKind, FormStop};
use crate::heads::{
    Binary, Head, Ternary, Unary, binary_form, head_of, name_form, ternary_form, unary_form,
};
use crate::tokens::{after_right, right, spot, stop, too_deep, unexpected};
use crate::types::{LEVELS, ty};
use frp_base::{Boxed, Memory, Seq};
use frp_expr::{Raw, RawForm};
use frp_lex::{Kind, Token};
use std::alloc::Global;

/// Whether an expression can begin with a token.
fn begins_expr(kind: &Kind) -> bool
    ensures { result ≡ spec.begins_expr kind.now }
{
    !matches!(kind, Kind::Right | Kind::Word(_))
}

/// Stops where a list has all the items that it may have and does not end.
fn too_many<T>(end: u64, tokens: &[Token]) -> Result<T, FormStop>
    ensures { result ≡ Err (FormStop.Fault (spec.too_many end tokens.now)) }
{
    match tokens {
        [] => stop(end, FormKind::End),
        [first, ..] => {
            let kind = if begins_expr(&first.kind) {
                FormKind::Many
            } else {
                FormKind::Expected
            };
            stop(first.at, kind)
        }
    }
}

/// The head word at the front of a form, and the tokens behind it.
#[tactic(auto, unfolding(crate::specs::Tokens::head))]
fn head(end: u64, tokens: &[Token]) -> Result<(Head, &[Token]), FormStop>
    ensures { FormGives (λ x. (x.0, x.1.now)) result (head_at end forms.head_of tokens.now) }
{
    match tokens {
        [first, rest @ ..] => match &first.kind {
            Kind::Name(name) => match head_of(name.as_str()) {
                Some(op) => Ok((op, rest)),
                None => unexpected(end, tokens),
            },
            _ => unexpected(end, tokens),
        },
        _ => unexpected(end, tokens),
    }
}

/// A written expression at its place.
fn raw_at(alloc: Global, at: u64, form: RawForm) -> Result<Boxed<Raw>, Memory>
    ensures { IfOk result (λ b. b ≡ forms.raw_at at form) }
{
    Boxed::new(alloc, Raw { at, form })
}

/// At most so many expressions and a right parenthesis, behind those found.
#[cycle(expr)]
fn expr_list<'a>(
    alloc: Global,
    end: u64,
    room: usize,
    found: Seq<Raw>,
    limit: usize,
    tokens: &'a [Token],
) -> Result<(Seq<Raw>, &'a [Token]), FormStop>
    ensures { FormGives (λ x. (x.0, x.1.now)) result (behind found (spec.expr_list end (expr_at end room) limit tokens.now)) }
{
    let mut all = found;
    let mut rest = tokens;
    for _ in 0..limit {
        if let Some(after) = after_right(rest) {
            return Ok((all, after));
        }
        let (item, after) = expr(alloc, end, room, rest)?;
        all.add(item.into_inner())?;
        rest = after;
    }
    match after_right(rest) {
        Some(after) => Ok((all, after)),
        None => too_many(end, rest),
    }
}

/// The part of a form of one part.
#[cycle(expr)]
#[tactic(auto, unfolding(crate::specs::Exprs::unary_at))]
fn unary(
    alloc: Global,
    end: u64,
    room: usize,
    at: u64,
    op: Unary,
    tokens: &[Token],
) -> Result<(Boxed<Raw>, &[Token]), FormStop>
    ensures { FormGives (λ x. (x.0, x.1.now)) result (spec.unary_at end (expr_at end room) at op tokens.now) }
{
    let (x, rest) = expr(alloc, end, room, tokens)?;
    let rest = right(end, rest)?;
    Ok((raw_at(alloc, at, unary_form(op, x))?, rest))
}

/// The parts of a form of two parts.
#[cycle(expr)]
#[tactic(auto, unfolding(crate::specs::Exprs::binary_at))]
fn binary(
    alloc: Global,
    end: u64,
    room: usize,
    at: u64,
    op: Binary,
    tokens: &[Token],
) -> Result<(Boxed<Raw>, &[Token]), FormStop>
    ensures { FormGives (λ x. (x.0, x.1.now)) result (spec.binary_at end (expr_at end room) at op tokens.now) }
{
    let (x, rest) = expr(alloc, end, room, tokens)?;
    let (y, rest) = expr(alloc, end, room, rest)?;
    let rest = right(end, rest)?;
    Ok((raw_at(alloc, at, binary_form(op, x, y))?, rest))
}

/// The parts of a form of three parts.
#[cycle(expr)]
#[tactic(auto, unfolding(crate::specs::Exprs::ternary_at))]
fn ternary(
    alloc: Global,
    end: u64,
    room: usize,
    at: u64,
    op: Ternary,
    tokens: &[Token],
) -> Result<(Boxed<Raw>, &[Token]), FormStop>
    ensures { FormGives (λ x. (x.0, x.1.now)) result (spec.ternary_at end (expr_at end room) at op tokens.now) }
{
    let (x, rest) = expr(alloc, end, room, tokens)?;
    let (y, rest) = expr(alloc, end, room, rest)?;
    let (z, rest) = expr(alloc, end, room, rest)?;
    let rest = right(end, rest)?;
    Ok((raw_at(alloc, at, ternary_form(op, x, y, z))?, rest))
}

/// The name and the parts of `let`.
#[cycle(expr)]
#[tactic(auto, unfolding(crate::specs::Exprs::let_at))]
fn let_of(
    alloc: Global,
    end: u64,
    room: usize,
    at: u64,
    tokens: &[Token],
) -> Result<(Boxed<Raw>, &[Token]), FormStop>
    ensures { FormGives (λ x. (x.0, x.1.now)) result (spec.let_at end (expr_at end room) at tokens.now) }
{
    let (name, rest) = spot(end, tokens)?;
    let (x, rest) = expr(alloc, end, room, rest)?;
    let (y, rest) = expr(alloc, end, room, rest)?;
    let rest = right(end, rest)?;
    Ok((raw_at(alloc, at, RawForm::Let(name, x, y))?, rest))
}

/// A list of this item.
fn list_from(alloc: Global, first: Boxed<Raw>) -> Result<Seq<Raw>, Memory>
    ensures { IfOk result (λ s. s ≡ first ∷ []) }
{
    let mut found = Seq::new(alloc);
    found.add(first.into_inner())?;
    Ok(found)
}

/// The items of `list`: one or more.
#[cycle(expr)]
#[tactic(auto, unfolding(crate::specs::Exprs::list_at))]
fn list_of(
    alloc: Global,
    end: u64,
    room: usize,
    at: u64,
    tokens: &[Token],
) -> Result<(Boxed<Raw>, &[Token]), FormStop>
    ensures { FormGives (λ x. (x.0, x.1.now)) result (spec.list_at end (expr_at end room) at tokens.now) }
{
    let (first, rest) = expr(alloc, end, room, tokens)?;
    let found = list_from(alloc, first)?;
    let (all, rest) = expr_list(alloc, end, room, found, 1023, rest)?;
    Ok((raw_at(alloc, at, RawForm::List(all))?, rest))
}

/// The type of `nil`.
#[tactic(auto, unfolding(crate::specs::Exprs::nil_at))]
fn nil_of(
    alloc: Global,
    end: u64,
    room: usize,
    at: u64,
    tokens: &[Token],
) -> Result<(Boxed<Raw>, &[Token]), FormStop>
    ensures { FormGives (λ x. (x.0, x.1.now)) result (spec.nil_at end (expr_at end room) (ty_at end room) at tokens.now) }
{
    let (item, rest) = ty(alloc, end, room, tokens)?;
    let rest = right(end, rest)?;
    Ok((raw_at(alloc, at, RawForm::Nil(item.into_inner()))?, rest))
}

/// The name and the kept values of `close`.
#[cycle(expr)]
#[tactic(auto, unfolding(crate::specs::Exprs::close_at))]
fn close_of(
    alloc: Global,
    end: u64,
    room: usize,
    at: u64,
    tokens: &[Token],
) -> Result<(Boxed<Raw>, &[Token]), FormStop>
    ensures { FormGives (λ x. (x.0, x.1.now)) result (spec.close_at end (expr_at end room) at tokens.now) }
{
    let (name, rest) = spot(end, tokens)?;
    let (kept, rest) = expr_list(alloc, end, room, Seq::new(alloc), rest.len(), rest)?;
    Ok((raw_at(alloc, at, RawForm::Close(name, kept))?, rest))
}

/// The parts and the right parenthesis of a form that begins at this place.
#[cycle(expr)]
fn parts(
    alloc: Global,
    end: u64,
    room: usize,
    at: u64,
    head: Head,
    tokens: &[Token],
) -> Result<(Boxed<Raw>, &[Token]), FormStop>
    ensures { FormGives (λ x. (x.0, x.1.now)) result (spec.parts_at end (expr_at end room) (ty_at end room) at head tokens.now) }
{
    match head {
        Head::Unary(op) => unary(alloc, end, room, at, op, tokens),
        Head::Binary(op) => binary(alloc, end, room, at, op, tokens),
        Head::Ternary(op) => ternary(alloc, end, room, at, op, tokens),
        Head::Let => let_of(alloc, end, room, at, tokens),
        Head::List => list_of(alloc, end, room, at, tokens),
        Head::Nil => nil_of(alloc, end, room, at, tokens),
        Head::Close => close_of(alloc, end, room, at, tokens),
    }
}

/// What follows the left parenthesis at this place.
#[cycle(expr)]
#[tactic(auto, unfolding(crate::specs::Exprs::form_at))]
fn form(
    alloc: Global,
    end: u64,
    room: usize,
    at: u64,
    tokens: &[Token],
) -> Result<(Boxed<Raw>, &[Token]), FormStop>
    ensures { FormGives (λ x. (x.0, x.1.now)) result (spec.form_at end (expr_at end room) (ty_at end room) at tokens.now) }
{
    let (op, rest) = head(end, tokens)?;
    parts(alloc, end, room, at, op, rest)
}

/// An expression of at most so many levels.
#[cycle(expr)]
#[tactic(auto, unfolding(crate::specs::Exprs::expr_layer))]
fn expr(
    alloc: Global,
    end: u64,
    room: usize,
    tokens: &[Token],
) -> Result<(Boxed<Raw>, &[Token]), FormStop>
    ensures { FormGives (λ x. (x.0, x.1.now)) result (expr_at end room tokens.now) }
{
    if room == 0 {
        return too_deep(end, tokens);
    }
    match tokens {
        [first, rest @ ..] => {
            let at = first.at;
            match &first.kind {
                Kind::Left => form(alloc, end, room - 1, at, rest),
                Kind::Num(n) => Ok((raw_at(alloc, at, RawForm::Int(*n))?, rest)),
                Kind::Str(text) => Ok((raw_at(alloc, at, RawForm::Text(text.copy()?))?, rest)),
                Kind::Name(name) => Ok((raw_at(alloc, at, name_form(name.copy()?))?, rest)),
                _ => unexpected(end, tokens),
            }
        }
        _ => unexpected(end, tokens),
    }
}

/// An expression.
#[tactic(auto, unfolding(crate::specs::Exprs::whole_expr))]
pub fn whole_expr(
    alloc: Global,
    end: u64,
    tokens: &[Token],
) -> Result<(Boxed<Raw>, &[Token]), FormStop>
    ensures { FormGives (λ x. (x.0, x.1.now)) result (spec.whole_expr end tokens.now) }
{
    expr(alloc, end, LEVELS, tokens)
}

/// The kept values of a function or a template and a right parenthesis.
#[tactic(auto, unfolding(crate::specs::Exprs::kept_exprs), using(crate::proofs::ListLemmas::behind_none))]
pub fn kept_exprs(
    alloc: Global,
    end: u64,
    tokens: &[Token],
) -> Result<(Seq<Raw>, &[Token]), FormStop>
    ensures { FormGives (λ x. (x.0, x.1.now)) result (spec.kept_exprs end tokens.now) }
{
    expr_list(alloc, end, LEVELS, Seq::new(alloc), tokens.len(), tokens)
}
