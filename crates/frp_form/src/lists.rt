//! Rules that stand any number of times one after the other.

ghost use Rattle.std.specs.Prelude.{◌≡◌, List, ℕ, Option};
ghost use Rattle.std.specs.Option.{option_copied};
ghost use Rattle.frp_lex.specs.declared.token.Token.{Token};
ghost use Rattle.frp_form.specs.Gives.{FormGives, Parser};
ghost use Rattle.frp_form.specs.Lists as spec;

use crate::fault::{FormFault, FormKind, FormStop};
use crate::over::Over;
use crate::tokens::{extra, fault_here};
use frp_base::Seq;
use frp_lex::Token;
use std::alloc::Global;

/// A rule that stands any number of times one after the other.
pub trait Rule: Drop {
    /// What stands behind a list where it ends.
    ghost ending: { List Token → Option (List Token) };
    /// One item.
    ghost reading: { ℕ → Parser Self };

    /// What stands behind a list, where it ends here.
    fn end(tokens: &[Token]) -> Option<&[Token]>
        ensures { option_copied result ≡ ending tokens.now };

    /// One item.
    fn item(alloc: Global, end: u64, tokens: &[Token]) -> Result<(Self, &[Token]), FormStop>
        ensures { FormGives (λ x. (x.0, x.1.now)) result (reading end tokens.now) };
}

/// The fault of a list that goes on past its limit.
fn over_at(end: u64, over: Over, tokens: &[Token]) -> FormFault
    ensures { result ≡ spec.over_at end over tokens.now }
{
    match over {
        Over::End => fault_here(end, tokens),
        Over::Send => extra(end, FormKind::Many, "send", tokens),
        Over::Sender(kind) => extra(end, kind, "sender", tokens),
    }
}

/// At most so many items, to the end of their list.
pub fn items<T: Rule>(
    alloc: Global,
    end: u64,
    limit: usize,
    past: Over,
    tokens: &[Token],
) -> Result<(Seq<T>, &[Token]), FormStop>
    ensures { FormGives (λ x. (x.0, x.1.now)) result (spec.items T.ending (spec.over_at end past) (T.reading end) limit tokens.now) }
{
    let mut all = Seq::new(alloc);
    let mut rest = tokens;
    for _ in 0..limit {
        if let Some(after) = T::end(rest) {
            return Ok((all, after));
        }
        let (item, after) = T::item(alloc, end, rest)?;
        all.add(item)?;
        rest = after;
    }
    match T::end(rest) {
        Some(after) => Ok((all, after)),
        None => Err(FormStop::Fault(over_at(end, past, rest))),
    }
}

/// As many items as there are.
#[tactic(auto, unfolding(crate::specs::Lists::many))]
pub fn many<T: Rule>(
    alloc: Global,
    end: u64,
    tokens: &[Token],
) -> Result<(Seq<T>, &[Token]), FormStop>
    ensures { FormGives (λ x. (x.0, x.1.now)) result (spec.many end T.ending (T.reading end) tokens.now) }
{
    items(alloc, end, tokens.len(), Over::End, tokens)
}
