//! Expressions as tokens.

ghost use Rattle.std.specs.Prelude.{◌≡◌, [], ◌∷◌, ◌++◌, map, OnOk, if◌then◌else◌, codes};
ghost use Rattle.frp_lex.specs.declared.token.Kind.{Kind};
ghost use Rattle.frp_write.specs.Writing.{form, run_together, spot_kind, ty_kinds, expr_kinds};

use crate::tokens::{write_head, write_name, write_right, write_spot};
use crate::types::write_ty;
use frp_base::{Memory, Seq, Text};
use frp_expr::{Raw, RawForm, RawTy, Spot};
use frp_lex::Kind;
use std::alloc::Global;

/// Appends what a form begins with and its first part.
#[cycle(write_expr)]
fn first(alloc: Global, head: &str, a: &Raw, out: &mut Seq<Kind>) -> Result<(), Memory>
    ensures { OnOk result (out.new ≡ out.old ++ Kind.Left ∷ Kind.Name head.now ∷ expr_kinds a.now) }
{
    write_head(alloc, head, out)?;
    write_expr(alloc, a, out)
}

/// Appends the last part of a form and its right parenthesis.
#[cycle(write_expr)]
pub fn write_last(alloc: Global, a: &Raw, out: &mut Seq<Kind>) -> Result<(), Memory>
    ensures { OnOk result (out.new ≡ out.old ++ expr_kinds a.now ++ Kind.Right ∷ []) }
{
    write_expr(alloc, a, out)?;
    write_right(out)
}

/// Appends a form of one part.
#[cycle(write_expr)]
fn unary(alloc: Global, head: &str, a: &Raw, out: &mut Seq<Kind>) -> Result<(), Memory>
    ensures { OnOk result (out.new ≡ out.old ++ form head.now (expr_kinds a.now)) }
{
    write_head(alloc, head, out)?;
    write_last(alloc, a, out)
}

/// Appends what `let` begins with, its name and its first part.
#[cycle(write_expr)]
fn let_first(alloc: Global, name: &Spot, a: &Raw, out: &mut Seq<Kind>) -> Result<(), Memory>
    ensures { OnOk result (out.new ≡ out.old ++ Kind.Left ∷ Kind.Name (codes "let") ∷ spot_kind name.now ∷ expr_kinds a.now) }
{
    write_head(alloc, "let", out)?;
    write_spot(alloc, name, out)?;
    write_expr(alloc, a, out)
}

/// Appends `list`.
#[cycle(write_expr)]
fn list_of(alloc: Global, items: &[Raw], out: &mut Seq<Kind>) -> Result<(), Memory>
    ensures { OnOk result (out.new ≡ out.old ++ form (codes "list") (run_together (map expr_kinds items.now))) }
{
    write_head(alloc, "list", out)?;
    write_exprs(alloc, items, out)?;
    write_right(out)
}

/// Appends `nil`.
fn nil_of(alloc: Global, ty: &RawTy, out: &mut Seq<Kind>) -> Result<(), Memory>
    ensures { OnOk result (out.new ≡ out.old ++ form (codes "nil") (ty_kinds ty.now)) }
{
    write_head(alloc, "nil", out)?;
    write_ty(alloc, ty, out)?;
    write_right(out)
}

/// Appends `close`.
#[cycle(write_expr)]
fn close_of(alloc: Global, name: &Spot, kept: &[Raw], out: &mut Seq<Kind>) -> Result<(), Memory>
    ensures { OnOk result (out.new ≡ out.old ++ form (codes "close") (spot_kind name.now ∷ run_together (map expr_kinds kept.now))) }
{
    write_head(alloc, "close", out)?;
    write_spot(alloc, name, out)?;
    write_exprs(alloc, kept, out)?;
    write_right(out)
}

/// Appends `true` or `false`.
fn bool_of(alloc: Global, b: bool, out: &mut Seq<Kind>) -> Result<(), Memory>
    ensures { OnOk result (out.new ≡ out.old ++ Kind.Name (if b then codes "true" else codes "false") ∷ []) }
{
    write_name(alloc, if b { "true" } else { "false" }, out)
}

/// Appends a text in quotes.
fn text_of(text: &Text, out: &mut Seq<Kind>) -> Result<(), Memory>
    ensures { OnOk result (out.new ≡ out.old ++ Kind.Str text.now ∷ []) }
{
    out.add(Kind::Str(text.copy()?))
}

/// Appends the tokens of several expressions, in order.
#[cycle(write_expr)]
pub fn write_exprs(alloc: Global, exprs: &[Raw], out: &mut Seq<Kind>) -> Result<(), Memory>
    ensures { OnOk result (out.new ≡ out.old ++ run_together (map expr_kinds exprs.now)) }
{
    for expr in exprs {
        write_expr(alloc, expr, out)?;
    }
    Ok(())
}

/// Appends an expression.
#[cycle(write_expr)]
pub fn write_expr(alloc: Global, expr: &Raw, out: &mut Seq<Kind>) -> Result<(), Memory>
    ensures { OnOk result (out.new ≡ out.old ++ expr_kinds expr.now) }
{
    match &expr.form {
        RawForm::Int(n) => out.add(Kind::Num(*n)),
        RawForm::Bool(b) => bool_of(alloc, *b, out),
        RawForm::Text(text) => text_of(text, out),
        RawForm::Name(name) => write_name(alloc, name.as_str(), out),
        RawForm::Neg(a) => unary(alloc, "neg", a.get(), out),
        RawForm::Not(a) => unary(alloc, "not", a.get(), out),
        RawForm::First(a) => unary(alloc, "first", a.get(), out),
        RawForm::Second(a) => unary(alloc, "second", a.get(), out),
        RawForm::Len(a) => unary(alloc, "len", a.get(), out),
        RawForm::Show(a) => unary(alloc, "show", a.get(), out),
        RawForm::Let(name, a, b) => {
            let_first(alloc, name, a.get(), out)?;
            write_last(alloc, b.get(), out)
        }
        RawForm::Add(a, b) => {
            first(alloc, "add", a.get(), out)?;
            write_last(alloc, b.get(), out)
        }
        RawForm::Sub(a, b) => {
            first(alloc, "sub", a.get(), out)?;
            write_last(alloc, b.get(), out)
        }
        RawForm::Mul(a, b) => {
            first(alloc, "mul", a.get(), out)?;
            write_last(alloc, b.get(), out)
        }
        RawForm::Div(a, b) => {
            first(alloc, "div", a.get(), out)?;
            write_last(alloc, b.get(), out)
        }
        RawForm::Rem(a, b) => {
            first(alloc, "rem", a.get(), out)?;
            write_last(alloc, b.get(), out)
        }
        RawForm::Lt(a, b) => {
            first(alloc, "lt", a.get(), out)?;
            write_last(alloc, b.get(), out)
        }
        RawForm::Eq(a, b) => {
            first(alloc, "eq", a.get(), out)?;
            write_last(alloc, b.get(), out)
        }
        RawForm::And(a, b) => {
            first(alloc, "and", a.get(), out)?;
            write_last(alloc, b.get(), out)
        }
        RawForm::Or(a, b) => {
            first(alloc, "or", a.get(), out)?;
            write_last(alloc, b.get(), out)
        }
        RawForm::Pair(a, b) => {
            first(alloc, "pair", a.get(), out)?;
            write_last(alloc, b.get(), out)
        }
        RawForm::Append(a, b) => {
            first(alloc, "append", a.get(), out)?;
            write_last(alloc, b.get(), out)
        }
        RawForm::Cat(a, b) => {
            first(alloc, "cat", a.get(), out)?;
            write_last(alloc, b.get(), out)
        }
        RawForm::If(a, b, c) => {
            first(alloc, "if", a.get(), out)?;
            write_expr(alloc, b.get(), out)?;
            write_last(alloc, c.get(), out)
        }
        RawForm::At(a, b, c) => {
            first(alloc, "at", a.get(), out)?;
            write_expr(alloc, b.get(), out)?;
            write_last(alloc, c.get(), out)
        }
        RawForm::List(items) => list_of(alloc, items.as_slice(), out),
        RawForm::Nil(ty) => nil_of(alloc, ty, out),
        RawForm::Close(name, kept) => close_of(alloc, name, kept.as_slice(), out),
    }
}
