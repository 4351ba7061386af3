//! Items of bodies.

ghost use Rattle.std.specs.Prelude.{◌≡◌};
ghost use Rattle.frp_form.specs.Gives.{FormGives};
ghost use Rattle.frp_form.specs.Tokens.{head as head_at};
ghost use Rattle.frp_form.specs.Items.{body_head as meaning};
ghost use Rattle.frp_form.specs.Items as spec;

use crate::exprs::whole_expr;
use crate::fault::FormStop;
use crate::item_heads::{ItemHead, body_head};
use crate::shapes::shape;
use crate::tokens::{left, right, spot, unexpected};
use crate::types::whole_ty;
use frp_file::{Item, ItemForm};
use frp_lex::{Kind, Token};
use std::alloc::Global;

/// The name and the type of `sink`.
#[tactic(auto, unfolding(crate::specs::Items::sink_at))]
fn sink(alloc: Global, end: u64, at: u64, tokens: &[Token]) -> Result<(Item, &[Token]), FormStop>
    ensures { FormGives (λ x. (x.0, x.1.now)) result (spec.sink_at end at tokens.now) }
{
    let (name, rest) = spot(end, tokens)?;
    let (ty, rest) = whole_ty(alloc, end, rest)?;
    let rest = right(end, rest)?;
    let form = ItemForm::Sink { name, ty };
    Ok((Item { at, form }, rest))
}

/// The names, the type and the first value of `cellsink`.
#[tactic(auto, unfolding(crate::specs::Items::cellsink_at))]
fn cellsink(
    alloc: Global,
    end: u64,
    at: u64,
    tokens: &[Token],
) -> Result<(Item, &[Token]), FormStop>
    ensures { FormGives (λ x. (x.0, x.1.now)) result (spec.cellsink_at end at tokens.now) }
{
    let (sink, rest) = spot(end, tokens)?;
    let (cell, rest) = spot(end, rest)?;
    let (ty, rest) = whole_ty(alloc, end, rest)?;
    let (first, rest) = whole_expr(alloc, end, rest)?;
    let rest = right(end, rest)?;
    let form = ItemForm::Cellsink {
        sink,
        cell,
        ty,
        first,
    };
    Ok((Item { at, form }, rest))
}

/// The name and the shape of `let`.
#[tactic(auto, unfolding(crate::specs::Items::let_at))]
fn let_item(
    alloc: Global,
    end: u64,
    at: u64,
    tokens: &[Token],
) -> Result<(Item, &[Token]), FormStop>
    ensures { FormGives (λ x. (x.0, x.1.now)) result (spec.let_at end at tokens.now) }
{
    let (name, rest) = spot(end, tokens)?;
    let (shape, rest) = shape(alloc, end, rest)?;
    let rest = right(end, rest)?;
    let form = ItemForm::Let { name, shape };
    Ok((Item { at, form }, rest))
}

/// The names of `tie`.
#[tactic(auto, unfolding(crate::specs::Items::tie_at))]
fn tie(alloc: Global, end: u64, at: u64, tokens: &[Token]) -> Result<(Item, &[Token]), FormStop>
    ensures { FormGives (λ x. (x.0, x.1.now)) result (spec.tie_at end at tokens.now) }
{
    let (from, rest) = spot(end, tokens)?;
    let (to, rest) = spot(end, rest)?;
    let rest = right(end, rest)?;
    let form = ItemForm::Tie { from, to };
    Ok((Item { at, form }, rest))
}

/// The name and the cell of `get`.
#[tactic(auto, unfolding(crate::specs::Items::get_at))]
fn get(alloc: Global, end: u64, at: u64, tokens: &[Token]) -> Result<(Item, &[Token]), FormStop>
    ensures { FormGives (λ x. (x.0, x.1.now)) result (spec.get_at end at tokens.now) }
{
    let (name, rest) = spot(end, tokens)?;
    let (cell, rest) = whole_expr(alloc, end, rest)?;
    let rest = right(end, rest)?;
    let form = ItemForm::Get { name, cell };
    Ok((Item { at, form }, rest))
}

/// The parts and the right parenthesis of an item that begins at this place.
pub fn item_parts(
    alloc: Global,
    end: u64,
    at: u64,
    head: ItemHead,
    tokens: &[Token],
) -> Result<(Item, &[Token]), FormStop>
    ensures { FormGives (λ x. (x.0, x.1.now)) result (spec.item_parts end at head tokens.now) }
{
    match head {
        ItemHead::Sink => sink(alloc, end, at, tokens),
        ItemHead::Cellsink => cellsink(alloc, end, at, tokens),
        ItemHead::Let => let_item(alloc, end, at, tokens),
        ItemHead::Tie => tie(alloc, end, at, tokens),
        ItemHead::Get => get(alloc, end, at, tokens),
    }
}

/// The head word at the front of an item of a template, and the tokens behind it.
#[tactic(auto, unfolding(crate::specs::Tokens::head))]
fn head(end: u64, tokens: &[Token]) -> Result<(ItemHead, &[Token]), FormStop>
    ensures { FormGives (λ x. (x.0, x.1.now)) result (head_at end meaning tokens.now) }
{
    match tokens {
        [first, rest @ ..] => match &first.kind {
            Kind::Name(name) => match body_head(name.as_str()) {
                Some(op) => Ok((op, rest)),
                None => unexpected(end, tokens),
            },
            _ => unexpected(end, tokens),
        },
        _ => unexpected(end, tokens),
    }
}

/// An item of the body of a template.
#[tactic(auto, unfolding(crate::specs::Items::body_item))]
pub fn body_item(alloc: Global, end: u64, tokens: &[Token]) -> Result<(Item, &[Token]), FormStop>
    ensures { FormGives (λ x. (x.0, x.1.now)) result (spec.body_item end tokens.now) }
{
    let (at, rest) = left(end, tokens)?;
    let (op, rest) = head(end, rest)?;
    item_parts(alloc, end, at, op, rest)
}
