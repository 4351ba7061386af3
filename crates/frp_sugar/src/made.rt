//! What the expansion itself makes.

ghost use Rattle.std.specs.Prelude.{◌≡◌, ◌+◌, ◌++◌, IfOk};
ghost use Rattle.std.specs.Fmt.{decimal};
ghost use Rattle.frp_expr.specs.declared.raw.Raw.{roll-Raw};
ghost use Rattle.frp_sugar.specs.Made as spec;

use frp_base::{Boxed, Memory, Seq, Text};
use frp_expr::{Raw, RawForm, Spot};
use std::alloc::Global;

/// A written expression at its place.
fn raw_at(alloc: Global, at: u64, form: RawForm) -> Result<Boxed<Raw>, Memory>
    ensures { IfOk result (λ r. r ≡ roll-Raw (record { at = at; form = form })) }
{
    Boxed::new(alloc, Raw { at, form })
}

/// A text of these characters.
fn text(alloc: Global, chars: &str) -> Result<Text, Memory>
    ensures { IfOk result (λ t. t ≡ chars.now) }
{
    let mut text = Text::new(alloc);
    text.push_str(chars)?;
    Ok(text)
}

/// A text of these characters, and then a number.
fn numbered(alloc: Global, chars: &str, n: u64) -> Result<Text, Memory>
    ensures { IfOk result (λ t. t ≡ chars.now ++ decimal n) }
{
    let mut text = text(alloc, chars)?;
    text.push_str(n.to_string(alloc)?.as_str())?;
    Ok(text)
}

/// The name of the hidden item whose number is past n by this much. A number past 64 bits counts as want of memory.
pub fn hidden_item(alloc: Global, at: u64, n: u64, past: u64) -> Result<Spot, Memory>
    ensures { IfOk result (λ s. s ≡ spec.spot at (spec.hidden_item (n + past))) }
{
    match n.checked_add(past) {
        Some(number) => Ok(Spot {
            at,
            text: numbered(alloc, "%", number)?,
        }),
        None => Err(Memory),
    }
}

/// The name of a hidden function.
pub fn hidden_function(alloc: Global, at: u64, m: u64) -> Result<Spot, Memory>
    ensures { IfOk result (λ s. s ≡ spec.spot at (spec.hidden_function m)) }
{
    Ok(Spot {
        at,
        text: numbered(alloc, "%f", m)?,
    })
}

/// A variable of these characters.
pub fn variable(alloc: Global, at: u64, chars: &str) -> Result<Spot, Memory>
    ensures { IfOk result (λ s. s ≡ spec.spot at chars.now) }
{
    Ok(Spot {
        at,
        text: text(alloc, chars)?,
    })
}

/// The same name at this place.
pub fn moved(at: u64, name: &Spot) -> Result<Spot, Memory>
    ensures { IfOk result (λ s. s ≡ spec.spot at name.now.text) }
{
    Ok(Spot {
        at,
        text: name.text.copy()?,
    })
}

/// A name as an expression.
pub fn the(alloc: Global, at: u64, name: &Spot) -> Result<Boxed<Raw>, Memory>
    ensures { IfOk result (λ r. r ≡ spec.name at name.now.text) }
{
    raw_at(alloc, at, RawForm::Name(name.text.copy()?))
}

/// A truth value.
pub fn bool(alloc: Global, at: u64, b: bool) -> Result<Boxed<Raw>, Memory>
    ensures { IfOk result (λ r. r ≡ spec.bool at b) }
{
    raw_at(alloc, at, RawForm::Bool(b))
}

/// The pair of two names.
pub fn pair(alloc: Global, at: u64, x: &Spot, y: &Spot) -> Result<Boxed<Raw>, Memory>
    ensures { IfOk result (λ r. r ≡ spec.pair at (spec.name at x.now.text) (spec.name at y.now.text)) }
{
    let x = the(alloc, at, x)?;
    let y = the(alloc, at, y)?;
    raw_at(alloc, at, RawForm::Pair(x, y))
}

/// The first part of what a name stands for.
pub fn first(alloc: Global, at: u64, x: &Spot) -> Result<Boxed<Raw>, Memory>
    ensures { IfOk result (λ r. r ≡ spec.first at (spec.name at x.now.text)) }
{
    let x = the(alloc, at, x)?;
    raw_at(alloc, at, RawForm::First(x))
}

/// The second part of what a name stands for.
pub fn second(alloc: Global, at: u64, x: &Spot) -> Result<Boxed<Raw>, Memory>
    ensures { IfOk result (λ r. r ≡ spec.second at (spec.name at x.now.text)) }
{
    let x = the(alloc, at, x)?;
    raw_at(alloc, at, RawForm::Second(x))
}

/// The list of what a name stands for.
pub fn list(alloc: Global, at: u64, x: &Spot) -> Result<Boxed<Raw>, Memory>
    ensures { IfOk result (λ r. r ≡ spec.list at (spec.name at x.now.text)) }
{
    let x = the(alloc, at, x)?;
    let mut items = Seq::new(alloc);
    items.add(x.into_inner())?;
    raw_at(alloc, at, RawForm::List(items))
}

/// A function closed over what a name stands for.
pub fn close(alloc: Global, at: u64, f: Spot, x: &Spot) -> Result<Boxed<Raw>, Memory>
    ensures { f.at ≡ at → IfOk result (λ r. r ≡ spec.close at f.text (spec.name at x.now.text)) }
{
    let x = the(alloc, at, x)?;
    let mut kept = Seq::new(alloc);
    kept.add(x.into_inner())?;
    raw_at(alloc, at, RawForm::Close(f, kept))
}
