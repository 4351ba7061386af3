//! Steps over tokens. `end` is the length of the input, where it ends.

ghost use Rattle.std.specs.Prelude.{◌≡◌, Err};
ghost use Rattle.std.specs.Option.{option_copied};
ghost use Rattle.frp_form.specs.Gives.{FormGives};
ghost use Rattle.frp_form.specs.Tokens as spec;

use crate::fault::{FormFault, FormKind, FormStop};
use frp_expr::Spot;
use frp_lex::{Kind, Token};

/// Stops at a fault.
pub fn stop<T>(place: u64, kind: FormKind) -> Result<T, FormStop>
    ensures { result ≡ Err (FormStop.Fault (record { place = place; kind = kind })) }
{
    Err(FormStop::Fault(FormFault { place, kind }))
}

/// The fault where nothing that the grammar allows stands at the front.
pub fn fault_here(end: u64, tokens: &[Token]) -> FormFault
    ensures { result ≡ spec.unexpected end tokens.now }
{
    match tokens {
        [] => FormFault {
            place: end,
            kind: FormKind::End,
        },
        [first, ..] => FormFault {
            place: first.at,
            kind: FormKind::Expected,
        },
    }
}

/// Stops where nothing that the grammar allows stands at the front.
pub fn unexpected<T>(end: u64, tokens: &[Token]) -> Result<T, FormStop>
    ensures { result ≡ Err (FormStop.Fault (spec.unexpected end tokens.now)) }
{
    Err(FormStop::Fault(fault_here(end, tokens)))
}

/// Stops where what stands at the front is nested too deep.
pub fn too_deep<T>(end: u64, tokens: &[Token]) -> Result<T, FormStop>
    ensures { result ≡ Err (FormStop.Fault (spec.too_deep end tokens.now)) }
{
    match tokens {
        [] => stop(end, FormKind::End),
        [first, ..] => match &first.kind {
            Kind::Right => stop(first.at, FormKind::Expected),
            _ => stop(first.at, FormKind::Deep),
        },
    }
}

/// Whether a token is this name.
fn is_name(word: &str, kind: &Kind) -> bool
    ensures { result ≡ spec.is_named word.now kind.now }
{
    match kind {
        Kind::Name(name) => name.as_str() == word,
        _ => false,
    }
}

/// Whether a name is `true` or `false`.
pub fn is_literal(name: &str) -> bool
    ensures { result ≡ spec.is_literal name.now }
{
    name == "true" || name == "false"
}

/// Whether a form of this head word stands at the front.
pub fn begins(word: &str, tokens: &[Token]) -> bool
    ensures { result ≡ spec.begins word.now tokens.now }
{
    match tokens {
        [first, second, ..] => matches!(&first.kind, Kind::Left) && is_name(word, &second.kind),
        _ => false,
    }
}

/// The place of a left parenthesis, and what stands behind it.
#[tactic(auto, unfolding(crate::specs::Tokens::left))]
pub fn left(end: u64, tokens: &[Token]) -> Result<(u64, &[Token]), FormStop>
    ensures { FormGives (λ x. (x.0, x.1.now)) result (spec.left end tokens.now) }
{
    match tokens {
        [first, rest @ ..] => match &first.kind {
            Kind::Left => Ok((first.at, rest)),
            _ => unexpected(end, tokens),
        },
        _ => unexpected(end, tokens),
    }
}

/// What stands behind a right parenthesis.
#[tactic(auto, unfolding(crate::specs::Tokens::right))]
pub fn right(end: u64, tokens: &[Token]) -> Result<&[Token], FormStop>
    ensures { FormGives (λ x. x.now) result (spec.right end tokens.now) }
{
    match tokens {
        [first, rest @ ..] => match &first.kind {
            Kind::Right => Ok(rest),
            _ => unexpected(end, tokens),
        },
        _ => unexpected(end, tokens),
    }
}

/// What stands behind a right parenthesis, where one is at the front.
pub fn after_right(tokens: &[Token]) -> Option<&[Token]>
    ensures { option_copied result ≡ spec.after_right tokens.now }
{
    match tokens {
        [first, rest @ ..] => match &first.kind {
            Kind::Right => Some(rest),
            _ => None,
        },
        _ => None,
    }
}

/// What stands behind this name.
#[tactic(auto, unfolding(crate::specs::Tokens::word))]
fn word<'a>(end: u64, word: &str, tokens: &'a [Token]) -> Result<&'a [Token], FormStop>
    ensures { FormGives (λ x. x.now) result (spec.word end word.now tokens.now) }
{
    match tokens {
        [first, rest @ ..] => {
            if is_name(word, &first.kind) {
                Ok(rest)
            } else {
                unexpected(end, tokens)
            }
        }
        _ => unexpected(end, tokens),
    }
}

/// The place of a form of this head word, and what stands behind that.
#[tactic(auto, unfolding(crate::specs::Tokens::opened))]
pub fn opened<'a>(end: u64, head: &str, tokens: &'a [Token]) -> Result<(u64, &'a [Token]), FormStop>
    ensures { FormGives (λ x. (x.0, x.1.now)) result (spec.opened end head.now tokens.now) }
{
    let (at, rest) = left(end, tokens)?;
    let rest = word(end, head, rest)?;
    Ok((at, rest))
}

/// The fault of a form of this head word that is one too many, or of what stands there in its place.
#[tactic(auto, unfolding(crate::specs::Tokens::opened, crate::specs::Tokens::left, crate::specs::Tokens::word))]
pub fn extra(end: u64, kind: FormKind, head: &str, tokens: &[Token]) -> FormFault
    ensures { result ≡ spec.extra kind (spec.opened end head.now tokens.now) }
{
    match tokens {
        [first, rest @ ..] => match &first.kind {
            Kind::Left => match rest {
                [second, ..] => {
                    if is_name(head, &second.kind) {
                        return FormFault {
                            place: first.at,
                            kind,
                        };
                    }
                    fault_here(end, rest)
                }
                _ => fault_here(end, rest),
            },
            _ => fault_here(end, tokens),
        },
        _ => fault_here(end, tokens),
    }
}

/// A name of the user, with its place.
#[tactic(auto, unfolding(crate::specs::Tokens::spot))]
pub fn spot(end: u64, tokens: &[Token]) -> Result<(Spot, &[Token]), FormStop>
    ensures { FormGives (λ x. (x.0, x.1.now)) result (spec.spot end tokens.now) }
{
    match tokens {
        [first, rest @ ..] => match &first.kind {
            Kind::Name(name) => {
                if is_literal(name.as_str()) {
                    return unexpected(end, tokens);
                }
                let text = name.copy()?;
                Ok((Spot { at: first.at, text }, rest))
            }
            _ => unexpected(end, tokens),
        },
        _ => unexpected(end, tokens),
    }
}

/// Two names of the user.
#[tactic(auto, unfolding(crate::specs::Tokens::two_names))]
pub fn two_names(end: u64, tokens: &[Token]) -> Result<((Spot, Spot), &[Token]), FormStop>
    ensures { FormGives (λ x. (x.0, x.1.now)) result (spec.two_names end tokens.now) }
{
    let (x, rest) = spot(end, tokens)?;
    let (y, rest) = spot(end, rest)?;
    Ok(((x, y), rest))
}
