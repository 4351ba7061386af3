//! Names in a scope.

ghost use Rattle.std.specs.Prelude.{◌≡◌, ◌<◌, ◌^◌, ◌++◌, map, length, None, Some, slice_get, MatchOption, IfSome, if◌then◌else◌};
ghost use Rattle.frp_expr.specs.Scope.{place_of, number_of, names_of, types_of, fun_names};

use frp_base::{Seq, Text, Ty};

/// The position of the last entry of this name.
pub fn place_of(names: &[(Text, Ty)], name: &Text) -> Option<usize>
    ensures place { result ≡ place_of name.now (names_of names.now) }
    ensures within { IfSome result (λ i. i < length names.now) }
{
    let mut found = None;
    for (i, entry) in names.iter().enumerate() {
        found = newer(found, i, entry.0 == *name);
    }
    found
}

/// This position where the name is here, else the one that was found.
fn newer(found: Option<usize>, i: usize, here: bool) -> Option<usize>
    ensures { result ≡ (if here then Some i else found) }
{
    if here { Some(i) } else { found }
}

/// The number that a name stands for among these names and those that `let` has bound, and its type; none where there is
/// no such name.
pub fn named<'a>(
    names: &'a [(Text, Ty)],
    bound: &'a [(Text, Ty)],
    name: &Text,
) -> Option<(usize, &'a Ty)>
    ensures { MatchOption result
        (slice_get (types_of (names.now ++ bound.now)) (number_of name.now (names_of (names.now ++ bound.now))) ≡ None)
        (λ r. (number_of name.now (names_of (names.now ++ bound.now)) ≡ r.0) × (slice_get (types_of (names.now ++ bound.now)) r.0 ≡ Some r.1.now)) }
{
    if let Some(j) = place_of(bound, name) {
        return Some((names.len() + j, &bound[j].1));
    }
    match place_of(names, name) {
        Some(i) => Some((i, &names[i].1)),
        None => None,
    }
}

/// The position of the last function of this name.
pub fn fun_named(funs: &[(Text, Seq<Ty>, Ty, Ty)], name: &Text) -> Option<usize>
    ensures { MatchOption result (slice_get funs.now (number_of name.now (fun_names funs.now)) ≡ None) (λ i. (number_of name.now (fun_names funs.now) ≡ i) × (i < length funs.now)) }
{
    let mut found = None;
    for (i, entry) in funs.iter().enumerate() {
        found = newer(found, i, entry.0 == *name);
    }
    found
}

/// The position of the last of these names.
fn place_among(names: &[Text], name: &Text) -> Option<usize>
    ensures place { result ≡ place_of name.now names.now }
    ensures within { IfSome result (λ i. i < length names.now) }
{
    let mut found = None;
    for (i, entry) in names.iter().enumerate() {
        found = newer(found, i, *entry == *name);
    }
    found
}

/// The number that a name stands for among these names and those that `let` has bound; one past the end where there is no
/// such name.
pub fn number(names: &[(Text, Ty)], bound: &[Text], name: &Text) -> u64
    ensures { result ≡ number_of name.now (names_of names.now ++ bound.now) }
{
    if let Some(j) = place_among(bound, name) {
        return (names.len() + j) as u64;
    }
    match place_of(names, name) {
        Some(i) => i as u64,
        None => (names.len() + bound.len()) as u64,
    }
}

/// The number of the last function of this name; one past the end where there is no such function.
pub fn fun_number(funs: &[(Text, Seq<Ty>, Ty, Ty)], name: &Text) -> u32
    requires { length funs.now < 2 ^ 32 }
    ensures { result ≡ number_of name.now (fun_names funs.now) }
{
    match fun_named(funs, name) {
        Some(f) => f as u32,
        None => funs.len() as u32,
    }
}
