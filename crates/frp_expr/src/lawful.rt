//! Which written expressions are lawful.

ghost use Rattle.std.specs.Prelude.{◌≡◌, map};
ghost use Rattle.std.specs.List.{list_all};
ghost use Rattle.frp_expr.specs.Raw.{is_lawful};
ghost use Rattle.frp_expr.specs.Types.{fits, is_printable, is_text};

use crate::raw::{Raw, RawForm};
use frp_base::Text;

/// The most items of a list form, and the most bytes of a literal text.
const MOST: usize = 1024;

/// Whether each literal text is printable and has at most 1,024 bytes, and each list form has 1 to 1,024 items: what
/// `type_of` asks for.
#[cycle(lawful)]
pub fn is_lawful(raw: &Raw) -> bool
    ensures { result ≡ is_lawful raw.now }
{
    match &raw.form {
        RawForm::Int(n) => fits(*n),
        RawForm::Text(text) => is_text(text),
        RawForm::Bool(_) | RawForm::Name(_) | RawForm::Nil(_) => true,
        RawForm::Neg(a)
        | RawForm::Not(a)
        | RawForm::First(a)
        | RawForm::Second(a)
        | RawForm::Len(a)
        | RawForm::Show(a) => is_lawful(a.get()),
        RawForm::Let(_, a, b)
        | RawForm::Add(a, b)
        | RawForm::Sub(a, b)
        | RawForm::Mul(a, b)
        | RawForm::Div(a, b)
        | RawForm::Rem(a, b)
        | RawForm::Lt(a, b)
        | RawForm::Eq(a, b)
        | RawForm::And(a, b)
        | RawForm::Or(a, b)
        | RawForm::Pair(a, b)
        | RawForm::Append(a, b)
        | RawForm::Cat(a, b) => is_lawful(a.get()) && is_lawful(b.get()),
        RawForm::If(a, b, c) | RawForm::At(a, b, c) => {
            is_lawful(a.get()) && is_lawful(b.get()) && is_lawful(c.get())
        }
        RawForm::List(items) => {
            let items = items.as_slice();
            are_lawful(items) && !items.is_empty() && items.len() <= MOST
        }
        RawForm::Close(_, kept) => are_lawful(kept.as_slice()),
    }
}

/// Whether all of these are lawful.
#[cycle(lawful)]
fn are_lawful(parts: &[Raw]) -> bool
    ensures { result ≡ list_all (λ b. b) (map is_lawful parts.now) }
{
    for part in parts {
        if !is_lawful(part) {
            return false;
        }
    }
    true
}

/// Every number has 64 bits.
#[tactic(auto, using(crate::proofs::NumberLemmas::fits_mag))]
fn fits(n: i64) -> bool
    ensures { result ≡ fits n }
{
    let _n = n;
    true
}

/// Whether a text is printable and has at most 1,024 bytes, as each text value has.
pub fn is_text(text: &Text) -> bool
    ensures { result ≡ is_text text.now }
{
    let text = text.as_str();
    is_printable(text) && text.len() <= MOST
}

fn is_printable(text: &str) -> bool
    ensures { result ≡ list_all is_printable text.now }
{
    text.bytes().all(|b| 32 <= b && b <= 126)
}
