//! The words of types.

ghost use Rattle.std.specs.Prelude.{◌≡◌};
ghost use Rattle.frp_form.specs.Types as spec;

use frp_base::Boxed;
use frp_expr::{RawTy, TyForm};

/// A type without parts.
#[derive(Clone, Copy)]
pub enum AtomTy {
    Int,
    Bool,
    Text,
}

/// The head of a type of one part.
#[derive(Clone, Copy)]
pub enum UnaryTy {
    List,
    Stream,
    Cell,
}

/// The head of a type of two parts.
#[derive(Clone, Copy)]
pub enum BinaryTy {
    Pair,
    Fun,
}

/// A word of types.
#[derive(Clone, Copy)]
pub enum TyWord {
    Atom(AtomTy),
    Unary(UnaryTy),
    Binary(BinaryTy),
}

/// What a word means.
pub fn ty_word(word: &str) -> Option<TyWord>
    ensures { result ≡ spec.ty_word word.now }
{
    if word == "Int" {
        Some(TyWord::Atom(AtomTy::Int))
    } else if word == "Bool" {
        Some(TyWord::Atom(AtomTy::Bool))
    } else if word == "Text" {
        Some(TyWord::Atom(AtomTy::Text))
    } else if word == "List" {
        Some(TyWord::Unary(UnaryTy::List))
    } else if word == "Stream" {
        Some(TyWord::Unary(UnaryTy::Stream))
    } else if word == "Cell" {
        Some(TyWord::Unary(UnaryTy::Cell))
    } else if word == "Pair" {
        Some(TyWord::Binary(BinaryTy::Pair))
    } else if word == "Fun" {
        Some(TyWord::Binary(BinaryTy::Fun))
    } else {
        None
    }
}

/// The type that a word is.
pub fn atom_ty(op: AtomTy) -> TyForm
    ensures { result ≡ spec.atom_ty op }
{
    match op {
        AtomTy::Int => TyForm::Int,
        AtomTy::Bool => TyForm::Bool,
        AtomTy::Text => TyForm::Text,
    }
}

/// The type of this head and part.
pub fn unary_ty(op: UnaryTy, x: Boxed<RawTy>) -> TyForm
    ensures { result ≡ spec.unary_ty op x }
{
    match op {
        UnaryTy::List => TyForm::List(x),
        UnaryTy::Stream => TyForm::Stream(x),
        UnaryTy::Cell => TyForm::Cell(x),
    }
}

/// The type of this head and parts.
pub fn binary_ty(op: BinaryTy, x: Boxed<RawTy>, y: Boxed<RawTy>) -> TyForm
    ensures { result ≡ spec.binary_ty op x y }
{
    match op {
        BinaryTy::Pair => TyForm::Pair(x, y),
        BinaryTy::Fun => TyForm::Fun(x, y),
    }
}
