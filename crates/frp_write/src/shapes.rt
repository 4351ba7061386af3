//! Shapes as tokens.

ghost use Rattle.std.specs.Prelude.{◌≡◌, [], ◌∷◌, ◌++◌, map, OnOk, codes};
ghost use Rattle.frp_lex.specs.declared.token.Kind.{Kind};
ghost use Rattle.frp_write.specs.Writing.{form, run_together, spot_kind, ty_kinds, expr_kinds, param_kinds, shape_kinds};

use crate::exprs::{write_expr, write_exprs, write_last};
use crate::tokens::{write_head, write_joint, write_left, write_named, write_right, write_spot};
use crate::types::write_ty;
use frp_base::{Memory, Seq};
use frp_expr::{Raw, RawTy, Spot};
use frp_file::{Param, RawShape, ShapeForm};
use frp_lex::Kind;
use std::alloc::Global;

/// Appends a shape over a type.
fn typed(alloc: Global, head: &str, ty: &RawTy, out: &mut Seq<Kind>) -> Result<(), Memory>
    ensures { OnOk result (out.new ≡ out.old ++ form head.now (ty_kinds ty.now)) }
{
    write_head(alloc, head, out)?;
    write_ty(alloc, ty, out)?;
    write_right(out)
}

/// Appends a shape over one expression.
fn unary(alloc: Global, head: &str, a: &Raw, out: &mut Seq<Kind>) -> Result<(), Memory>
    ensures { OnOk result (out.new ≡ out.old ++ form head.now (expr_kinds a.now)) }
{
    write_head(alloc, head, out)?;
    write_last(alloc, a, out)
}

/// Appends a shape over two expressions.
fn binary(alloc: Global, head: &str, a: &Raw, b: &Raw, out: &mut Seq<Kind>) -> Result<(), Memory>
    ensures { OnOk result (out.new ≡ out.old ++ form head.now (expr_kinds a.now ++ expr_kinds b.now)) }
{
    write_head(alloc, head, out)?;
    write_expr(alloc, a, out)?;
    write_last(alloc, b, out)
}

/// Appends a shape of one variable.
fn mapping(
    alloc: Global,
    head: &str,
    x: &Spot,
    a: &Raw,
    e: &Raw,
    out: &mut Seq<Kind>,
) -> Result<(), Memory>
    ensures { OnOk result (out.new ≡ out.old ++ form head.now (spot_kind x.now ∷ expr_kinds a.now ++ expr_kinds e.now)) }
{
    write_named(alloc, head, x, out)?;
    write_expr(alloc, a, out)?;
    write_last(alloc, e, out)
}

/// Appends two names.
fn two_names(alloc: Global, x: &Spot, y: &Spot, out: &mut Seq<Kind>) -> Result<(), Memory>
    ensures { OnOk result (out.new ≡ out.old ++ spot_kind x.now ∷ spot_kind y.now ∷ []) }
{
    write_spot(alloc, x, out)?;
    write_spot(alloc, y, out)
}

/// Appends three expressions and a right parenthesis.
fn last_three(alloc: Global, a: &Raw, b: &Raw, c: &Raw, out: &mut Seq<Kind>) -> Result<(), Memory>
    ensures { OnOk result (out.new ≡ out.old ++ expr_kinds a.now ++ expr_kinds b.now ++ expr_kinds c.now ++ Kind.Right ∷ []) }
{
    write_expr(alloc, a, out)?;
    write_expr(alloc, b, out)?;
    write_last(alloc, c, out)
}

/// Appends a shape of two variables.
fn joining(
    alloc: Global,
    head: &str,
    x: &Spot,
    y: &Spot,
    a: &Raw,
    b: &Raw,
    e: &Raw,
    out: &mut Seq<Kind>,
) -> Result<(), Memory>
    ensures { OnOk result (out.new ≡ out.old ++ form head.now (spot_kind x.now ∷ spot_kind y.now ∷ expr_kinds a.now ++ expr_kinds b.now ++ expr_kinds e.now)) }
{
    write_joint(alloc, head, x, y, out)?;
    last_three(alloc, a, b, e, out)
}

/// Appends `execute`.
fn execute(
    alloc: Global,
    s: &Raw,
    template: &Spot,
    kept: &[Raw],
    out: &mut Seq<Kind>,
) -> Result<(), Memory>
    ensures { OnOk result (out.new ≡ out.old ++ form (codes "execute") (expr_kinds s.now ++ spot_kind template.now ∷ run_together (map expr_kinds kept.now))) }
{
    write_head(alloc, "execute", out)?;
    write_expr(alloc, s, out)?;
    write_spot(alloc, template, out)?;
    write_exprs(alloc, kept, out)?;
    write_right(out)
}

/// Appends a name and its type.
pub fn write_param(alloc: Global, param: &Param, out: &mut Seq<Kind>) -> Result<(), Memory>
    ensures { OnOk result (out.new ≡ out.old ++ param_kinds param.now) }
{
    write_left(out)?;
    write_spot(alloc, &param.name, out)?;
    write_ty(alloc, param.ty.get(), out)?;
    write_right(out)
}

/// Appends a shape.
pub fn write_shape(alloc: Global, shape: &RawShape, out: &mut Seq<Kind>) -> Result<(), Memory>
    ensures { OnOk result (out.new ≡ out.old ++ shape_kinds shape.now) }
{
    match &shape.form {
        ShapeForm::Never { ty } => typed(alloc, "never", ty.get(), out),
        ShapeForm::Constant { o } => unary(alloc, "constant", o.get(), out),
        ShapeForm::Map { x, s, e } => mapping(alloc, "map", x, s.get(), e.get(), out),
        ShapeForm::Mapc { x, c, e } => mapping(alloc, "mapc", x, c.get(), e.get(), out),
        ShapeForm::Filter { x, s, e } => mapping(alloc, "filter", x, s.get(), e.get(), out),
        ShapeForm::Merge { x, y, a, b, e } => joining(
            alloc,
            "merge",
            x,
            y,
            a.get(),
            b.get(),
            e.get(),
            out,
        ),
        ShapeForm::Snapshot { x, y, s, c, e } => {
            joining(alloc, "snapshot", x, y, s.get(), c.get(), e.get(), out)
        }
        ShapeForm::Split { s } => unary(alloc, "split", s.get(), out),
        ShapeForm::Updates { c } => unary(alloc, "updates", c.get(), out),
        ShapeForm::Value { c } => unary(alloc, "value", c.get(), out),
        ShapeForm::Loops { ty } => typed(alloc, "loops", ty.get(), out),
        ShapeForm::Loopc { ty } => typed(alloc, "loopc", ty.get(), out),
        ShapeForm::Hold { o, s } => binary(alloc, "hold", o.get(), s.get(), out),
        ShapeForm::Apply { cf, ca } => binary(alloc, "apply", cf.get(), ca.get(), out),
        ShapeForm::Switchs { c } => unary(alloc, "switchs", c.get(), out),
        ShapeForm::Switchc { c } => unary(alloc, "switchc", c.get(), out),
        ShapeForm::Execute { s, template, kept } => {
            execute(alloc, s.get(), template, kept.as_slice(), out)
        }
        ShapeForm::Orelse { a, b } => binary(alloc, "orelse", a.get(), b.get(), out),
        ShapeForm::Gate { s, c } => binary(alloc, "gate", s.get(), c.get(), out),
        ShapeForm::Once { s } => unary(alloc, "once", s.get(), out),
        ShapeForm::Accum { ty, x, y, s, o, e } => {
            write_head(alloc, "accum", out)?;
            write_ty(alloc, ty.get(), out)?;
            two_names(alloc, x, y, out)?;
            last_three(alloc, s.get(), o.get(), e.get(), out)
        }
        ShapeForm::Collect { ty, x, y, s, o, e } => {
            write_head(alloc, "collect", out)?;
            write_ty(alloc, ty.get(), out)?;
            two_names(alloc, x, y, out)?;
            last_three(alloc, s.get(), o.get(), e.get(), out)
        }
        ShapeForm::Lift2 { x, y, ca, cb, e } => {
            write_head(alloc, "lift2", out)?;
            write_param(alloc, x.get(), out)?;
            write_param(alloc, y.get(), out)?;
            last_three(alloc, ca.get(), cb.get(), e.get(), out)
        }
        ShapeForm::Defer { s } => unary(alloc, "defer", s.get(), out),
    }
}
