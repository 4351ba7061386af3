//! Tokens that forms are written with.

ghost use Rattle.std.specs.Prelude.{◌≡◌, [], ◌∷◌, ◌++◌, map, List, IfOk, OnOk};
ghost use Rattle.frp_lex.specs.declared.token.Kind.{Kind};
ghost use Rattle.frp_write.specs.Writing.{run_together, spot_kind};

use frp_base::{Memory, Seq, Text};
use frp_expr::Spot;
use frp_lex::Kind;
use std::alloc::Global;

/// A rule of the grammar that is written as tokens.
pub trait Written {
    /// Its tokens.
    ghost tokens: { Self → List Kind };

    /// Appends its tokens.
    fn write(alloc: Global, form: &Self, out: &mut Seq<Kind>) -> Result<(), Memory>
        ensures { OnOk result (out.new ≡ out.old ++ tokens form.now) };
}

/// Appends the tokens of each of these, in order.
#[tactic(auto, using(std::proofs::Common::append_assoc))]
pub fn write_each<T: Written>(alloc: Global, forms: &[T], out: &mut Seq<Kind>) -> Result<(), Memory>
    ensures { OnOk result (out.new ≡ out.old ++ run_together (map T.tokens forms.now)) }
{
    for form in forms {
        T::write(alloc, form, out)?;
    }
    Ok(())
}

/// A text of these characters.
fn text_of(alloc: Global, chars: &str) -> Result<Text, Memory>
    ensures { IfOk result (λ t. t ≡ chars.now) }
{
    let mut text = Text::new(alloc);
    text.push_str(chars)?;
    Ok(text)
}

/// Appends a word of types.
pub fn write_word(alloc: Global, word: &str, out: &mut Seq<Kind>) -> Result<(), Memory>
    ensures { OnOk result (out.new ≡ out.old ++ Kind.Word word.now ∷ []) }
{
    let text = text_of(alloc, word)?;
    out.add(Kind::Word(text))
}

/// Appends a name.
pub fn write_name(alloc: Global, name: &str, out: &mut Seq<Kind>) -> Result<(), Memory>
    ensures { OnOk result (out.new ≡ out.old ++ Kind.Name name.now ∷ []) }
{
    let text = text_of(alloc, name)?;
    out.add(Kind::Name(text))
}

/// Appends a name of the user.
pub fn write_spot(alloc: Global, spot: &Spot, out: &mut Seq<Kind>) -> Result<(), Memory>
    ensures { OnOk result (out.new ≡ out.old ++ spot_kind spot.now ∷ []) }
{
    write_name(alloc, spot.text.as_str(), out)
}

/// Appends a left parenthesis.
pub fn write_left(out: &mut Seq<Kind>) -> Result<(), Memory>
    ensures { OnOk result (out.new ≡ out.old ++ Kind.Left ∷ []) }
{
    out.add(Kind::Left)
}

/// Appends a right parenthesis.
pub fn write_right(out: &mut Seq<Kind>) -> Result<(), Memory>
    ensures { OnOk result (out.new ≡ out.old ++ Kind.Right ∷ []) }
{
    out.add(Kind::Right)
}

/// Appends what a form begins with.
pub fn write_head(alloc: Global, head: &str, out: &mut Seq<Kind>) -> Result<(), Memory>
    ensures { OnOk result (out.new ≡ out.old ++ Kind.Left ∷ Kind.Name head.now ∷ []) }
{
    write_left(out)?;
    write_name(alloc, head, out)
}

/// Appends what a form begins with and a name of the user.
pub fn write_named(
    alloc: Global,
    head: &str,
    name: &Spot,
    out: &mut Seq<Kind>,
) -> Result<(), Memory>
    ensures { OnOk result (out.new ≡ out.old ++ Kind.Left ∷ Kind.Name head.now ∷ spot_kind name.now ∷ []) }
{
    write_head(alloc, head, out)?;
    write_spot(alloc, name, out)
}

/// Appends what a form begins with and two names of the user.
pub fn write_joint(
    alloc: Global,
    head: &str,
    x: &Spot,
    y: &Spot,
    out: &mut Seq<Kind>,
) -> Result<(), Memory>
    ensures { OnOk result (out.new ≡ out.old ++ Kind.Left ∷ Kind.Name head.now ∷ spot_kind x.now ∷ spot_kind y.now ∷ []) }
{
    write_named(alloc, head, x, out)?;
    write_spot(alloc, y, out)
}
