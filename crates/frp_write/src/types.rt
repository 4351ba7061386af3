//! Types as tokens.

ghost use Rattle.std.specs.Prelude.{◌≡◌, [], ◌∷◌, ◌++◌, OnOk};
ghost use Rattle.frp_lex.specs.declared.token.Kind.{Kind};
ghost use Rattle.frp_write.specs.Writing.{ty_kinds};

use crate::tokens::{write_left, write_right, write_word};
use frp_base::{Memory, Seq};
use frp_expr::{RawTy, TyForm};
use frp_lex::Kind;
use std::alloc::Global;

/// Appends what a form of types begins with and its first part.
#[cycle(write_ty)]
fn first(alloc: Global, word: &str, x: &RawTy, out: &mut Seq<Kind>) -> Result<(), Memory>
    ensures { OnOk result (out.new ≡ out.old ++ Kind.Left ∷ Kind.Word word.now ∷ ty_kinds x.now) }
{
    write_left(out)?;
    write_word(alloc, word, out)?;
    write_ty(alloc, x, out)
}

/// Appends the last part of a form and its right parenthesis.
#[cycle(write_ty)]
fn last(alloc: Global, x: &RawTy, out: &mut Seq<Kind>) -> Result<(), Memory>
    ensures { OnOk result (out.new ≡ out.old ++ ty_kinds x.now ++ Kind.Right ∷ []) }
{
    write_ty(alloc, x, out)?;
    write_right(out)
}

/// Appends a type.
#[cycle(write_ty)]
pub fn write_ty(alloc: Global, ty: &RawTy, out: &mut Seq<Kind>) -> Result<(), Memory>
    ensures { OnOk result (out.new ≡ out.old ++ ty_kinds ty.now) }
{
    match &ty.form {
        TyForm::Int => write_word(alloc, "Int", out),
        TyForm::Bool => write_word(alloc, "Bool", out),
        TyForm::Text => write_word(alloc, "Text", out),
        TyForm::Pair(x, y) => {
            first(alloc, "Pair", x.get(), out)?;
            last(alloc, y.get(), out)
        }
        TyForm::List(x) => {
            first(alloc, "List", x.get(), out)?;
            write_right(out)
        }
        TyForm::Stream(x) => {
            first(alloc, "Stream", x.get(), out)?;
            write_right(out)
        }
        TyForm::Cell(x) => {
            first(alloc, "Cell", x.get(), out)?;
            write_right(out)
        }
        TyForm::Fun(x, y) => {
            first(alloc, "Fun", x.get(), out)?;
            last(alloc, y.get(), out)
        }
    }
}
