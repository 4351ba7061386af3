//! Files as text.

ghost use Rattle.std.specs.Prelude.{◌≡◌, [], ◌∷◌, ◌++◌, map, IfOk, OnOk};
ghost use Rattle.frp_lex.specs.Spelling.{spelling, kinds as kinds_of};
ghost use Rattle.frp_write.specs.Writing.{lines, canonical};

use crate::exprs::write_last;
use crate::tokens::{Written, write_each, write_head, write_named, write_right};
use frp_base::{Memory, Seq, Text};
use frp_file::{File, Graph, Listen, RawSend, Sender};
use frp_lex::{Kind, Token, spell};
use std::alloc::Global;

impl Written for Graph {
    ghost use Rattle.frp_write.specs.Writing.{graph_kinds};

    ghost tokens = { graph_kinds };

    fn write(alloc: Global, form: &Graph, out: &mut Seq<Kind>) -> Result<(), Memory> {
        write_head(alloc, "graph", out)?;
        write_each(alloc, form.decls.as_slice(), out)?;
        write_right(out)
    }
}

impl Written for Listen {
    ghost use Rattle.frp_write.specs.Writing.{listen_kinds};

    ghost tokens = { listen_kinds };

    fn write(alloc: Global, form: &Listen, out: &mut Seq<Kind>) -> Result<(), Memory> {
        write_named(alloc, "listen", &form.name, out)?;
        write_right(out)
    }
}

impl Written for RawSend {
    ghost use Rattle.frp_write.specs.Writing.{send_kinds};

    ghost tokens = { send_kinds };

    fn write(alloc: Global, form: &RawSend, out: &mut Seq<Kind>) -> Result<(), Memory> {
        write_named(alloc, "send", &form.name, out)?;
        write_last(alloc, form.value.get(), out)
    }
}

impl Written for Sender {
    ghost use Rattle.frp_write.specs.Writing.{sender_kinds};

    ghost tokens = { sender_kinds };

    fn write(alloc: Global, form: &Sender, out: &mut Seq<Kind>) -> Result<(), Memory> {
        write_head(alloc, "sender", out)?;
        write_each(alloc, form.sends.as_slice(), out)?;
        write_right(out)
    }
}

/// Tokens of these kinds, whose places say nothing.
fn tokens_of(alloc: Global, kinds: Seq<Kind>) -> Result<Seq<Token>, Memory>
    ensures { IfOk result (λ ts. kinds_of ts ≡ kinds) }
{
    let mut tokens = Seq::new(alloc);
    for kind in kinds.into_vec() {
        tokens.add(Token { at: 0, kind })?;
    }
    Ok(tokens)
}

/// Appends the line of a form.
fn write_line<T: Written>(alloc: Global, form: &T, text: &mut Text) -> Result<(), Memory>
    ensures { OnOk result (text.new ≡ text.old ++ spelling (T.tokens form.now) ++ 10 ∷ []) }
{
    let mut kinds = Seq::new(alloc);
    T::write(alloc, form, &mut kinds)?;
    let tokens = tokens_of(alloc, kinds)?;
    let line = spell(alloc, tokens.as_slice())?;
    text.push_str(line.as_str())?;
    text.push_str("\n")
}

/// Appends the lines of several forms, in order.
fn write_lines<T: Written>(alloc: Global, forms: &[T], text: &mut Text) -> Result<(), Memory>
    ensures { OnOk result (text.new ≡ text.old ++ lines (map T.tokens forms.now)) }
{
    for form in forms {
        write_line(alloc, form, text)?;
    }
    Ok(())
}

/// The canonical text of a file: each form at its top on a line of its own.
pub fn write(alloc: Global, file: &File) -> Result<Text, Memory>
    ensures { IfOk result (λ t. t ≡ canonical file.now) }
{
    let mut text = Text::new(alloc);
    write_line(alloc, &file.graph, &mut text)?;
    write_lines(alloc, file.listens.as_slice(), &mut text)?;
    write_lines(alloc, file.senders.as_slice(), &mut text)?;
    Ok(text)
}
