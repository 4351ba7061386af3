//! Tokens to text.

ghost use Rattle.std.specs.Prelude.{◌≡◌, ◌++◌, IfOk, OnOk};
ghost use Rattle.frp_lex.specs.Spelling as spec;

use crate::token::{Kind, Token};
use frp_base::{Memory, Text, Val};
use std::alloc::Global;

/// Appends the spelling of a token. A text in quotes is that of a text value.
fn write(alloc: Global, kind: &Kind, line: &mut Text) -> Result<(), Memory>
    ensures { OnOk result (line.new ≡ line.old ++ spec.spelled kind.now) }
{
    match kind {
        Kind::Left => line.push_str("("),
        Kind::Right => line.push_str(")"),
        Kind::Name(text) | Kind::Word(text) => line.push_str(text.as_str()),
        Kind::Num(n) => Val::Int(*n).show(alloc, line),
        Kind::Str(text) => Val::Text(text.copy()?).show(alloc, line),
    }
}

/// Whether nothing stands between two tokens.
fn are_tight(before: &Kind, kind: &Kind) -> bool
    ensures { result ≡ spec.are_tight before.now kind.now }
{
    matches!(before, Kind::Left) || matches!(kind, Kind::Right)
}

/// Appends what stands between two tokens and the second of them.
fn follow(alloc: Global, before: &Kind, kind: &Kind, line: &mut Text) -> Result<(), Memory>
    ensures { OnOk result (line.new ≡ line.old ++ (spec.gap before.now kind.now ++ spec.spelled kind.now)) }
{
    if !are_tight(before, kind) {
        line.push_str(" ")?;
    }
    write(alloc, kind, line)
}

/// The tokens on one line: one space between two tokens, none after `(` and none before `)`, and no line feed at the end.
/// It spells any tokens, also those that no input has.
pub fn spell(alloc: Global, tokens: &[Token]) -> Result<Text, Memory>
    ensures { IfOk result (λ t. t ≡ spec.spelling (spec.kinds tokens.now)) }
{
    let mut line = Text::new(alloc);
    let [first, rest @ ..] = tokens else {
        return Ok(line);
    };
    write(alloc, &first.kind, &mut line)?;
    let mut before = &first.kind;
    for token in rest {
        follow(alloc, before, &token.kind, &mut line)?;
        before = &token.kind;
    }
    Ok(line)
}
