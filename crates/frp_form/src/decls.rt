//! Declarations of the graph.

ghost use Rattle.std.specs.Prelude.{◌≡◌};
ghost use Rattle.std.specs.Option.{option_copied};
ghost use Rattle.frp_form.specs.Gives.{FormGives};
ghost use Rattle.frp_form.specs.Tokens.{head as head_at};
ghost use Rattle.frp_form.specs.Decls.{decl_head as meaning};
ghost use Rattle.frp_form.specs.Decls as spec;

use crate::exprs::whole_expr;
use crate::fault::FormStop;
use crate::item_heads::{DeclHead, decl_head};
use crate::items::{body_item, item_parts};
use crate::lists::{Rule, many};
use crate::shapes::{boxed_param, param};
use crate::tokens::{after_right, begins, left, opened, right, spot, unexpected};
use frp_base::{Boxed, Seq};
use frp_file::{Decl, Function, Give, Item, Param, Template};
use frp_lex::{Kind, Token};
use std::alloc::Global;

impl Rule for Param {
    ghost use Rattle.frp_form.specs.Tokens.{after_right as ends};
    ghost use Rattle.frp_form.specs.Shapes.{param as one};

    ghost ending = { ends };

    ghost reading = { one };

    fn end(tokens: &[Token]) -> Option<&[Token]> {
        after_right(tokens)
    }

    fn item(alloc: Global, end: u64, tokens: &[Token]) -> Result<(Param, &[Token]), FormStop> {
        param(alloc, end, tokens)
    }
}

impl Rule for Item {
    ghost use Rattle.frp_form.specs.Decls.{before_give as ends};
    ghost use Rattle.frp_form.specs.Items.{body_item as one};

    ghost ending = { ends };

    ghost reading = { one };

    fn end(tokens: &[Token]) -> Option<&[Token]> {
        before_give(tokens)
    }

    fn item(alloc: Global, end: u64, tokens: &[Token]) -> Result<(Item, &[Token]), FormStop> {
        body_item(alloc, end, tokens)
    }
}

/// The items of a template end where what it gives begins.
fn before_give(tokens: &[Token]) -> Option<&[Token]>
    ensures { option_copied result ≡ spec.before_give tokens.now }
{
    if begins("give", tokens) {
        Some(tokens)
    } else {
        None
    }
}

/// Names and their types in parentheses.
#[tactic(auto, unfolding(crate::specs::Decls::params))]
fn params(alloc: Global, end: u64, tokens: &[Token]) -> Result<(Seq<Param>, &[Token]), FormStop>
    ensures { FormGives (λ x. (x.0, x.1.now)) result (spec.params end tokens.now) }
{
    let (_, rest) = left(end, tokens)?;
    many(alloc, end, rest)
}

/// What a template gives.
#[tactic(auto, unfolding(crate::specs::Decls::give))]
fn give(alloc: Global, end: u64, tokens: &[Token]) -> Result<(Boxed<Give>, &[Token]), FormStop>
    ensures { FormGives (λ x. (x.0, x.1.now)) result (spec.give end tokens.now) }
{
    let (at, rest) = opened(end, "give", tokens)?;
    let (e, rest) = whole_expr(alloc, end, rest)?;
    let rest = right(end, rest)?;
    let give = Give { at, e };
    Ok((Boxed::new(alloc, give)?, rest))
}

/// The parts of `template`.
#[tactic(auto, unfolding(crate::specs::Decls::template_at))]
fn template(
    alloc: Global,
    end: u64,
    at: u64,
    tokens: &[Token],
) -> Result<(Template, &[Token]), FormStop>
    ensures { FormGives (λ x. (x.0, x.1.now)) result (spec.template_at end at tokens.now) }
{
    let (name, rest) = spot(end, tokens)?;
    let (param, rest) = boxed_param(alloc, end, rest)?;
    let (kept, rest) = params(alloc, end, rest)?;
    let (items, rest) = many(alloc, end, rest)?;
    let (give, rest) = give(alloc, end, rest)?;
    let rest = right(end, rest)?;
    let template = Template {
        at,
        name,
        param,
        kept,
        items,
        give,
    };
    Ok((template, rest))
}

/// The parts of `fun`.
#[tactic(auto, unfolding(crate::specs::Decls::function_at))]
fn function(
    alloc: Global,
    end: u64,
    at: u64,
    tokens: &[Token],
) -> Result<(Function, &[Token]), FormStop>
    ensures { FormGives (λ x. (x.0, x.1.now)) result (spec.function_at end at tokens.now) }
{
    let (name, rest) = spot(end, tokens)?;
    let (kept, rest) = params(alloc, end, rest)?;
    let (arg, rest) = boxed_param(alloc, end, rest)?;
    let (e, rest) = whole_expr(alloc, end, rest)?;
    let rest = right(end, rest)?;
    let function = Function {
        at,
        name,
        kept,
        arg,
        e,
    };
    Ok((function, rest))
}

/// The parts and the right parenthesis of a declaration that begins at this place.
fn parts(
    alloc: Global,
    end: u64,
    at: u64,
    head: DeclHead,
    tokens: &[Token],
) -> Result<(Decl, &[Token]), FormStop>
    ensures { FormGives (λ x. (x.0, x.1.now)) result (spec.decl_parts end at head tokens.now) }
{
    match head {
        DeclHead::Template => {
            let (x, rest) = template(alloc, end, at, tokens)?;
            Ok((Decl::Template(x), rest))
        }
        DeclHead::Function => {
            let (x, rest) = function(alloc, end, at, tokens)?;
            Ok((Decl::Function(x), rest))
        }
        DeclHead::Item(op) => {
            let (x, rest) = item_parts(alloc, end, at, op, tokens)?;
            Ok((Decl::Item(x), rest))
        }
    }
}

/// The head word at the front of a declaration, and the tokens behind it.
#[tactic(auto, unfolding(crate::specs::Tokens::head))]
fn head(end: u64, tokens: &[Token]) -> Result<(DeclHead, &[Token]), FormStop>
    ensures { FormGives (λ x. (x.0, x.1.now)) result (head_at end meaning tokens.now) }
{
    match tokens {
        [first, rest @ ..] => match &first.kind {
            Kind::Name(name) => match decl_head(name.as_str()) {
                Some(op) => Ok((op, rest)),
                None => unexpected(end, tokens),
            },
            _ => unexpected(end, tokens),
        },
        _ => unexpected(end, tokens),
    }
}

/// A declaration.
#[tactic(auto, unfolding(crate::specs::Decls::decl))]
pub fn decl(alloc: Global, end: u64, tokens: &[Token]) -> Result<(Decl, &[Token]), FormStop>
    ensures { FormGives (λ x. (x.0, x.1.now)) result (spec.decl end tokens.now) }
{
    let (at, rest) = left(end, tokens)?;
    let (op, rest) = head(end, rest)?;
    parts(alloc, end, at, op, rest)
}
