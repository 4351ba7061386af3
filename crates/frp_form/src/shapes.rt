//! Shapes.

ghost use Rattle.std.specs.Prelude.{◌≡◌, IfOk};
ghost use Rattle.frp_form.specs.Gives.{FormGives};
ghost use Rattle.frp_form.specs.Tokens.{head as head_at};
ghost use Rattle.frp_form.specs.ShapeHeads.{shape_head as meaning};
ghost use Rattle.frp_form.specs.Shapes as spec;

use crate::exprs::{kept_exprs, whole_expr};
use crate::fault::FormStop;
use crate::shape_heads::{
    BinaryShape, FoldShape, JoinShape, MapShape, ShapeHead, TyShape, UnaryShape, binary_shape,
    fold_shape, join_shape, map_shape, shape_head, typed_shape, unary_shape,
};
use crate::tokens::{left, right, spot, two_names, unexpected};
use crate::types::whole_ty;
use frp_base::{Boxed, Memory};
use frp_expr::Raw;
use frp_file::{Param, RawShape, ShapeForm};
use frp_lex::{Kind, Token};
use std::alloc::Global;

/// A name and its type.
#[tactic(auto, unfolding(crate::specs::Shapes::param))]
pub fn param(alloc: Global, end: u64, tokens: &[Token]) -> Result<(Param, &[Token]), FormStop>
    ensures { FormGives (λ x. (x.0, x.1.now)) result (spec.param end tokens.now) }
{
    let (at, rest) = left(end, tokens)?;
    let (name, rest) = spot(end, rest)?;
    let (ty, rest) = whole_ty(alloc, end, rest)?;
    let rest = right(end, rest)?;
    Ok((Param { at, name, ty }, rest))
}

/// A name and its type, at a place of its own.
#[tactic(auto, unfolding(crate::specs::Shapes::param))]
pub fn boxed_param(
    alloc: Global,
    end: u64,
    tokens: &[Token],
) -> Result<(Boxed<Param>, &[Token]), FormStop>
    ensures { FormGives (λ x. (x.0, x.1.now)) result (spec.param end tokens.now) }
{
    let (p, rest) = param(alloc, end, tokens)?;
    Ok((Boxed::new(alloc, p)?, rest))
}

/// A shape at its place.
fn shape_at(alloc: Global, at: u64, form: ShapeForm) -> Result<Boxed<RawShape>, Memory>
    ensures { IfOk result (λ b. b ≡ spec.shape_at at form) }
{
    Boxed::new(alloc, RawShape { at, form })
}

/// The type of a shape that has a type alone.
#[tactic(auto, unfolding(crate::specs::Shapes::typed_at))]
fn typed(
    alloc: Global,
    end: u64,
    at: u64,
    op: TyShape,
    tokens: &[Token],
) -> Result<(Boxed<RawShape>, &[Token]), FormStop>
    ensures { FormGives (λ x. (x.0, x.1.now)) result (spec.typed_at end at op tokens.now) }
{
    let (ty, rest) = whole_ty(alloc, end, tokens)?;
    let rest = right(end, rest)?;
    let form = typed_shape(op, ty);
    Ok((shape_at(alloc, at, form)?, rest))
}

/// The operand of a shape of one operand.
#[tactic(auto, unfolding(crate::specs::Shapes::unary_at))]
fn unary(
    alloc: Global,
    end: u64,
    at: u64,
    op: UnaryShape,
    tokens: &[Token],
) -> Result<(Boxed<RawShape>, &[Token]), FormStop>
    ensures { FormGives (λ x. (x.0, x.1.now)) result (spec.unary_at end at op tokens.now) }
{
    let (a, rest) = whole_expr(alloc, end, tokens)?;
    let rest = right(end, rest)?;
    let form = unary_shape(op, a);
    Ok((shape_at(alloc, at, form)?, rest))
}

/// The operands of a shape of two operands.
#[tactic(auto, unfolding(crate::specs::Shapes::binary_at))]
fn binary(
    alloc: Global,
    end: u64,
    at: u64,
    op: BinaryShape,
    tokens: &[Token],
) -> Result<(Boxed<RawShape>, &[Token]), FormStop>
    ensures { FormGives (λ x. (x.0, x.1.now)) result (spec.binary_at end at op tokens.now) }
{
    let (a, rest) = whole_expr(alloc, end, tokens)?;
    let (b, rest) = whole_expr(alloc, end, rest)?;
    let rest = right(end, rest)?;
    let form = binary_shape(op, a, b);
    Ok((shape_at(alloc, at, form)?, rest))
}

/// The variable, the operand and the expression of a shape of one operand.
#[tactic(auto, unfolding(crate::specs::Shapes::map_at))]
fn mapping(
    alloc: Global,
    end: u64,
    at: u64,
    op: MapShape,
    tokens: &[Token],
) -> Result<(Boxed<RawShape>, &[Token]), FormStop>
    ensures { FormGives (λ x. (x.0, x.1.now)) result (spec.map_at end at op tokens.now) }
{
    let (x, rest) = spot(end, tokens)?;
    let (a, rest) = whole_expr(alloc, end, rest)?;
    let (e, rest) = whole_expr(alloc, end, rest)?;
    let rest = right(end, rest)?;
    let form = map_shape(op, x, a, e);
    Ok((shape_at(alloc, at, form)?, rest))
}

/// Three expressions.
#[tactic(auto, unfolding(crate::specs::Shapes::three_exprs))]
fn three_exprs(
    alloc: Global,
    end: u64,
    tokens: &[Token],
) -> Result<((Boxed<Raw>, Boxed<Raw>, Boxed<Raw>), &[Token]), FormStop>
    ensures { FormGives (λ x. (x.0, x.1.now)) result (spec.three_exprs end tokens.now) }
{
    let (a, rest) = whole_expr(alloc, end, tokens)?;
    let (b, rest) = whole_expr(alloc, end, rest)?;
    let (c, rest) = whole_expr(alloc, end, rest)?;
    Ok(((a, b, c), rest))
}

/// The variables, the operands and the expression of a shape of two operands.
#[tactic(auto, unfolding(crate::specs::Shapes::join_at))]
fn joining(
    alloc: Global,
    end: u64,
    at: u64,
    op: JoinShape,
    tokens: &[Token],
) -> Result<(Boxed<RawShape>, &[Token]), FormStop>
    ensures { FormGives (λ x. (x.0, x.1.now)) result (spec.join_at end at op tokens.now) }
{
    let ((x, y), rest) = two_names(end, tokens)?;
    let ((a, b, e), rest) = three_exprs(alloc, end, rest)?;
    let rest = right(end, rest)?;
    let form = join_shape(op, x, y, a, b, e);
    Ok((shape_at(alloc, at, form)?, rest))
}

/// The state's type, the variables, the operands and the expression of a shape that folds.
#[tactic(auto, unfolding(crate::specs::Shapes::fold_at))]
fn folding(
    alloc: Global,
    end: u64,
    at: u64,
    op: FoldShape,
    tokens: &[Token],
) -> Result<(Boxed<RawShape>, &[Token]), FormStop>
    ensures { FormGives (λ x. (x.0, x.1.now)) result (spec.fold_at end at op tokens.now) }
{
    let (ty, rest) = whole_ty(alloc, end, tokens)?;
    let ((x, y), rest) = two_names(end, rest)?;
    let ((s, o, e), rest) = three_exprs(alloc, end, rest)?;
    let rest = right(end, rest)?;
    let form = fold_shape(op, ty, x, y, s, o, e);
    Ok((shape_at(alloc, at, form)?, rest))
}

/// The variables with their types, the operands and the expression of `lift2`.
#[tactic(auto, unfolding(crate::specs::Shapes::lift_at))]
fn lift(
    alloc: Global,
    end: u64,
    at: u64,
    tokens: &[Token],
) -> Result<(Boxed<RawShape>, &[Token]), FormStop>
    ensures { FormGives (λ x. (x.0, x.1.now)) result (spec.lift_at end at tokens.now) }
{
    let (x, rest) = boxed_param(alloc, end, tokens)?;
    let (y, rest) = boxed_param(alloc, end, rest)?;
    let ((ca, cb, e), rest) = three_exprs(alloc, end, rest)?;
    let rest = right(end, rest)?;
    let form = ShapeForm::Lift2 { x, y, ca, cb, e };
    Ok((shape_at(alloc, at, form)?, rest))
}

/// The stream, the template's name and the kept values of `execute`.
#[tactic(auto, unfolding(crate::specs::Shapes::execute_at))]
fn execute(
    alloc: Global,
    end: u64,
    at: u64,
    tokens: &[Token],
) -> Result<(Boxed<RawShape>, &[Token]), FormStop>
    ensures { FormGives (λ x. (x.0, x.1.now)) result (spec.execute_at end at tokens.now) }
{
    let (s, rest) = whole_expr(alloc, end, tokens)?;
    let (template, rest) = spot(end, rest)?;
    let (kept, rest) = kept_exprs(alloc, end, rest)?;
    let form = ShapeForm::Execute { s, template, kept };
    Ok((shape_at(alloc, at, form)?, rest))
}

/// The parts and the right parenthesis of a shape that begins at this place.
fn parts(
    alloc: Global,
    end: u64,
    at: u64,
    head: ShapeHead,
    tokens: &[Token],
) -> Result<(Boxed<RawShape>, &[Token]), FormStop>
    ensures { FormGives (λ x. (x.0, x.1.now)) result (spec.shape_parts end at head tokens.now) }
{
    match head {
        ShapeHead::Typed(op) => typed(alloc, end, at, op, tokens),
        ShapeHead::Unary(op) => unary(alloc, end, at, op, tokens),
        ShapeHead::Binary(op) => binary(alloc, end, at, op, tokens),
        ShapeHead::Mapping(op) => mapping(alloc, end, at, op, tokens),
        ShapeHead::Joining(op) => joining(alloc, end, at, op, tokens),
        ShapeHead::Folding(op) => folding(alloc, end, at, op, tokens),
        ShapeHead::Lift2 => lift(alloc, end, at, tokens),
        ShapeHead::Execute => execute(alloc, end, at, tokens),
    }
}

/// The head word at the front of a shape, and the tokens behind it.
#[tactic(auto, unfolding(crate::specs::Tokens::head))]
fn head(end: u64, tokens: &[Token]) -> Result<(ShapeHead, &[Token]), FormStop>
    ensures { FormGives (λ x. (x.0, x.1.now)) result (head_at end meaning tokens.now) }
{
    match tokens {
        [first, rest @ ..] => match &first.kind {
            Kind::Name(name) => match shape_head(name.as_str()) {
                Some(op) => Ok((op, rest)),
                None => unexpected(end, tokens),
            },
            _ => unexpected(end, tokens),
        },
        _ => unexpected(end, tokens),
    }
}

/// A shape.
#[tactic(auto, unfolding(crate::specs::Shapes::shape))]
pub fn shape(
    alloc: Global,
    end: u64,
    tokens: &[Token],
) -> Result<(Boxed<RawShape>, &[Token]), FormStop>
    ensures { FormGives (λ x. (x.0, x.1.now)) result (spec.shape end tokens.now) }
{
    let (at, rest) = left(end, tokens)?;
    let (op, rest) = head(end, rest)?;
    parts(alloc, end, at, op, rest)
}
