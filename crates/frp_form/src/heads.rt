//! The words that forms of expressions begin with.

ghost use Rattle.std.specs.Prelude.{◌≡◌};
ghost use Rattle.frp_form.specs.Heads as spec;

use frp_base::{Boxed, Text};
use frp_expr::{Raw, RawForm};

/// The head of a form of one part.
#[derive(Clone, Copy)]
pub enum Unary {
    Neg,
    Not,
    First,
    Second,
    Len,
    Show,
}

/// The head of a form of two parts.
#[derive(Clone, Copy)]
pub enum Binary {
    Add,
    Sub,
    Mul,
    Div,
    Rem,
    Lt,
    Eq,
    And,
    Or,
    Pair,
    Append,
    Cat,
}

/// The head of a form of three parts.
#[derive(Clone, Copy)]
pub enum Ternary {
    If,
    At,
}

/// The head of a form.
#[derive(Clone, Copy)]
pub enum Head {
    Unary(Unary),
    Binary(Binary),
    Ternary(Ternary),
    Let,
    List,
    Nil,
    Close,
}

/// What a head word of expressions means.
pub fn head_of(word: &str) -> Option<Head>
    ensures { result ≡ spec.head_of word.now }
{
    if word == "neg" {
        Some(Head::Unary(Unary::Neg))
    } else if word == "not" {
        Some(Head::Unary(Unary::Not))
    } else if word == "first" {
        Some(Head::Unary(Unary::First))
    } else if word == "second" {
        Some(Head::Unary(Unary::Second))
    } else if word == "len" {
        Some(Head::Unary(Unary::Len))
    } else if word == "show" {
        Some(Head::Unary(Unary::Show))
    } else {
        binary_head(word)
    }
}

/// What a head word of a form of more than one part means.
fn binary_head(word: &str) -> Option<Head>
    ensures { result ≡ spec.binary_head word.now }
{
    if word == "add" {
        Some(Head::Binary(Binary::Add))
    } else if word == "sub" {
        Some(Head::Binary(Binary::Sub))
    } else if word == "mul" {
        Some(Head::Binary(Binary::Mul))
    } else if word == "div" {
        Some(Head::Binary(Binary::Div))
    } else if word == "rem" {
        Some(Head::Binary(Binary::Rem))
    } else if word == "lt" {
        Some(Head::Binary(Binary::Lt))
    } else if word == "eq" {
        Some(Head::Binary(Binary::Eq))
    } else if word == "and" {
        Some(Head::Binary(Binary::And))
    } else if word == "or" {
        Some(Head::Binary(Binary::Or))
    } else if word == "pair" {
        Some(Head::Binary(Binary::Pair))
    } else if word == "append" {
        Some(Head::Binary(Binary::Append))
    } else if word == "cat" {
        Some(Head::Binary(Binary::Cat))
    } else {
        other_head(word)
    }
}

/// What a head word of a form of three parts, or of other parts than expressions, means.
fn other_head(word: &str) -> Option<Head>
    ensures { result ≡ spec.other_head word.now }
{
    if word == "if" {
        Some(Head::Ternary(Ternary::If))
    } else if word == "at" {
        Some(Head::Ternary(Ternary::At))
    } else if word == "let" {
        Some(Head::Let)
    } else if word == "list" {
        Some(Head::List)
    } else if word == "nil" {
        Some(Head::Nil)
    } else if word == "close" {
        Some(Head::Close)
    } else {
        None
    }
}

/// The form of this head and part.
pub fn unary_form(op: Unary, x: Boxed<Raw>) -> RawForm
    ensures { result ≡ spec.unary_form op x }
{
    match op {
        Unary::Neg => RawForm::Neg(x),
        Unary::Not => RawForm::Not(x),
        Unary::First => RawForm::First(x),
        Unary::Second => RawForm::Second(x),
        Unary::Len => RawForm::Len(x),
        Unary::Show => RawForm::Show(x),
    }
}

/// The form of this head and parts.
pub fn binary_form(op: Binary, x: Boxed<Raw>, y: Boxed<Raw>) -> RawForm
    ensures { result ≡ spec.binary_form op x y }
{
    match op {
        Binary::Add => RawForm::Add(x, y),
        Binary::Sub => RawForm::Sub(x, y),
        Binary::Mul => RawForm::Mul(x, y),
        Binary::Div => RawForm::Div(x, y),
        Binary::Rem => RawForm::Rem(x, y),
        Binary::Lt => RawForm::Lt(x, y),
        Binary::Eq => RawForm::Eq(x, y),
        Binary::And => RawForm::And(x, y),
        Binary::Or => RawForm::Or(x, y),
        Binary::Pair => RawForm::Pair(x, y),
        Binary::Append => RawForm::Append(x, y),
        Binary::Cat => RawForm::Cat(x, y),
    }
}

/// The form of this head and parts.
pub fn ternary_form(op: Ternary, x: Boxed<Raw>, y: Boxed<Raw>, z: Boxed<Raw>) -> RawForm
    ensures { result ≡ spec.ternary_form op x y z }
{
    match op {
        Ternary::If => RawForm::If(x, y, z),
        Ternary::At => RawForm::At(x, y, z),
    }
}

/// A name as an expression: `true` and `false` are literals.
pub fn name_form(name: Text) -> RawForm
    ensures { result ≡ spec.name_form name }
{
    if name.as_str() == "true" {
        RawForm::Bool(true)
    } else if name.as_str() == "false" {
        RawForm::Bool(false)
    } else {
        RawForm::Name(name)
    }
}
