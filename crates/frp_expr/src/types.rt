//! What is looked at in types.

ghost use Rattle.std.specs.Prelude.{◌≡◌};
ghost use Rattle.frp_expr.specs.Types.{is_plain, is_list, is_comparable, first_type, second_type, item_type, has_length};

use frp_base::Ty;

/// Whether a type is plain: Int, Bool, Text, a pair of plain types or an option of one.
pub fn is_plain(ty: &Ty) -> bool
    ensures { result ≡ is_plain ty.now }
{
    match ty {
        Ty::Int | Ty::Bool | Ty::Text => true,
        Ty::Pair(a, b) => is_plain(a.get()) && is_plain(b.get()),
        Ty::Option(a) => is_plain(a.get()),
        Ty::List(_) | Ty::Stream(_) | Ty::Cell(_) | Ty::Fun(_, _) => false,
    }
}

/// Whether a type is one of lists.
pub fn is_list(ty: &Ty) -> bool
    ensures { result ≡ is_list ty.now }
{
    if let Ty::List(_) = ty { true } else { false }
}

/// Whether the values of a type can be compared: of a plain type, and lists.
pub fn is_comparable(ty: &Ty) -> bool
    ensures { result ≡ is_comparable ty.now }
{
    is_plain(ty) || is_list(ty)
}

/// Whether the values of a type have a length: lists and texts.
pub fn has_length(ty: &Ty) -> bool
    ensures { result ≡ has_length ty.now }
{
    match ty {
        Ty::List(_) => true,
        Ty::Text => true,
        _ => false,
    }
}

/// The type of the first part of a pair.
pub fn first_type(ty: Ty) -> Option<Ty>
    ensures { result ≡ first_type ty }
{
    match ty {
        Ty::Pair(a, _) => Some(a.into_inner()),
        _ => None,
    }
}

/// The type of the second part of a pair.
pub fn second_type(ty: Ty) -> Option<Ty>
    ensures { result ≡ second_type ty }
{
    match ty {
        Ty::Pair(_, b) => Some(b.into_inner()),
        _ => None,
    }
}

/// The type of the items of a list.
pub fn item_type(ty: Ty) -> Option<Ty>
    ensures { result ≡ item_type ty }
{
    match ty {
        Ty::List(a) => Some(a.into_inner()),
        _ => None,
    }
}
