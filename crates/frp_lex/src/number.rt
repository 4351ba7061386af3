//! Numbers.

ghost use Rattle.std.specs.Prelude.{◌≡◌, ◌^◌};
ghost use Rattle.frp_lex.specs.Atoms as spec;

use crate::bytes::are_digits;

/// One more than the greatest number, which is what the least one has behind its minus.
const LIMIT: u64 = 9_223_372_036_854_775_808;

/// The number that the digits write, where it is at most 2^63.
fn value(digits: &[u8]) -> Option<u64>
    ensures { result ≡ spec.at_most (2 ^ 63) (spec.value digits.now) }
{
    let mut n: u64 = 0;
    for b in digits {
        if n > LIMIT / 10 {
            return None;
        }
        n = 10 * n + u64::from((*b).saturating_sub(b'0'));
    }
    if n <= LIMIT { Some(n) } else { None }
}

/// Whether the bytes are digits of which the first isn't 0.
fn is_plain(bytes: &[u8]) -> bool
    ensures { result ≡ spec.is_plain_numeral bytes.now }
{
    match bytes {
        [] => false,
        [b, ..] => *b != b'0' && are_digits(bytes),
    }
}

/// The number of an atom without a minus.
#[tactic(auto, unfolding(crate::specs::Atoms::positive))]
fn positive(bytes: &[u8]) -> Option<i64>
    ensures { result ≡ spec.positive bytes.now }
{
    if !(bytes == b"0".as_slice() || is_plain(bytes)) {
        return None;
    }
    let n = value(bytes)?;
    if n == LIMIT { None } else { Some(n as i64) }
}

/// The number of an atom, from the byte behind its minus on.
#[tactic(auto, using(crate::proofs::Numbers::negated), unfolding(crate::specs::Atoms::negative))]
fn negative(bytes: &[u8]) -> Option<i64>
    ensures { result ≡ spec.negative bytes.now }
{
    if !is_plain(bytes) {
        return None;
    }
    let n = value(bytes)?;
    if n == LIMIT {
        return Some(i64::MIN);
    }
    Some(-(n as i64))
}

/// The number that an atom is, where it is one.
pub fn atom_number(bytes: &[u8]) -> Option<i64>
    ensures { result ≡ spec.atom_number bytes.now }
{
    match bytes {
        [] => None,
        [b'-', rest @ ..] => negative(rest),
        _ => positive(bytes),
    }
}
