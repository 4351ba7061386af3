//! The lines that the program writes where it writes no output, and the table of names.

ghost use Rattle.std.specs.Prelude.{◌≡◌, ◌++◌, IfOk, OnOk};
ghost use Rattle.std.specs.Fmt.{decimal};
ghost use Rattle.frp_run.specs.Lines as spec;

use crate::refused::Fault;
use frp_base::{Memory, Text};
use frp_expr::TypeKind;
use frp_file::File;
use frp_form::FormKind;
use frp_lex::LexKind;
use frp_type::Label;
use frp_write::write;
use std::alloc::Global;

/// The line of a fault.
pub fn fault_line(alloc: Global, fault: Fault) -> Result<Text, Memory>
    ensures { IfOk result (λ line. line ≡ spec.fault_line fault) }
{
    match fault {
        Fault::Token(x) => place_and_kind(alloc, x.place, lex_word(x.kind)),
        Fault::Form(x) => place_and_kind(alloc, x.place, form_word(x.kind)),
        Fault::Type(x) => place_and_kind(alloc, x.place, type_word(x.kind)),
    }
}

/// The line of a fault of this kind.
fn place_and_kind(alloc: Global, place: u64, word: &str) -> Result<Text, Memory>
    ensures { IfOk result (λ line. line ≡ spec.place_and_kind place word.now) }
{
    let mut line = Text::new(alloc);
    line.push_str("refused text ")?;
    show_number(alloc, place, &mut line)?;
    line.push_str(" ")?;
    line.push_str(word)?;
    line.push_str("\n")?;
    Ok(line)
}

/// Appends a number in decimal.
fn show_number(alloc: Global, number: u64, out: &mut Text) -> Result<(), Memory>
    ensures { OnOk result (out.new ≡ out.old ++ decimal number) }
{
    out.push_str(number.to_string(alloc)?.as_str())
}

fn lex_word(kind: LexKind) -> &'static str
    ensures { result.now ≡ spec.lex_word kind }
{
    match kind {
        LexKind::Byte => "byte",
        LexKind::Unclosed => "unclosed",
        LexKind::LongText => "long-text",
        LexKind::Number => "number",
        LexKind::Name => "name",
        LexKind::LongName => "long-name",
    }
}

fn form_word(kind: FormKind) -> &'static str
    ensures { result.now ≡ spec.form_word kind }
{
    match kind {
        FormKind::End => "end",
        FormKind::Deep => "deep",
        FormKind::Many => "many",
        FormKind::Senders => "senders",
        FormKind::Expected => "expected",
    }
}

fn type_word(kind: TypeKind) -> &'static str
    ensures { result.now ≡ spec.type_word kind }
{
    match kind {
        TypeKind::Unknown => "unknown",
        TypeKind::Twice => "twice",
        TypeKind::Arity => "arity",
        TypeKind::Templates => "templates",
        TypeKind::Sample => "sample",
        TypeKind::Tied => "tied",
        TypeKind::Type => "type",
        TypeKind::Untied => "untied",
    }
}

/// The canonical text of a file, and the table of its names.
pub fn file_and_table(alloc: Global, file: &File, labels: &[Label]) -> Result<Text, Memory>
    ensures { IfOk result (λ text. text ≡ spec.file_and_table file.now labels.now) }
{
    let mut text = write(alloc, file)?;
    show_table(alloc, labels, &mut text)?;
    Ok(text)
}

/// Appends the table of the names of nodes.
fn show_table(alloc: Global, labels: &[Label], out: &mut Text) -> Result<(), Memory>
    ensures { OnOk result (out.new ≡ out.old ++ spec.table labels.now) }
{
    for label in labels {
        show_label(alloc, label, out)?;
    }
    Ok(())
}

/// Appends the line of a node's name.
fn show_label(alloc: Global, label: &Label, out: &mut Text) -> Result<(), Memory>
    ensures { OnOk result (out.new ≡ out.old ++ spec.label_line label.now) }
{
    out.push_str("; ")?;
    label.name.show(out)?;
    out.push_str(" ")?;
    out.push_str(label.text.as_str())?;
    out.push_str(" ")?;
    label.ty.show(alloc, out)?;
    out.push_str("\n")
}
