//! What an input comes to.

use crate::case::Case;
use frp_base::{Memory, Text};
use frp_expr::TypeKind;
use frp_file::File;
use frp_form::{FormKind, FormStop, read};
use frp_lex::{LexStop, Token, lex};
use frp_type::{CheckStop, Label, check, is_core};
use frp_write::write;
use std::alloc::Global;

/// What the input of a case comes to: the canonical text of a file, the labels of its nodes, or a fault.
pub fn found(alloc: Global, case: &Case<'_>) -> Result<Text, Memory> {
    match lex(alloc, case.input.as_slice()) {
        Ok(tokens) => form(alloc, tokens.as_slice(), case),
        Err(LexStop::Fault(fault)) => fault_at(alloc, "no token", fault.place),
        Err(LexStop::Memory) => Err(Memory),
    }
}

/// What tokens come to.
fn form(alloc: Global, tokens: &[Token], case: &Case<'_>) -> Result<Text, Memory> {
    match read(alloc, tokens, case.input.len() as u64, case.how) {
        Ok(file) if is_of_types(case.kind) => checked(alloc, &file),
        Ok(file) => write(alloc, &file),
        Err(FormStop::Fault(fault)) => fault_at(alloc, form_word(fault.kind), fault.place),
        Err(FormStop::Memory) => Err(Memory),
    }
}

/// Whether names and types are looked at in cases of this kind.
fn is_of_types(kind: &str) -> bool {
    !matches!(
        kind,
        "ok" | "end" | "deep" | "many" | "senders" | "expected"
    )
}

/// The labels of a file, or its fault.
fn checked(alloc: Global, file: &File) -> Result<Text, Memory> {
    if !is_core(file) {
        return Ok(Text::of(format!(in alloc; "no file of core items")?));
    }
    match check(alloc, file) {
        Ok(typed) => show_labels(alloc, typed.labels.as_slice()),
        Err(CheckStop::Fault(fault)) => fault_at(alloc, type_word(fault.kind), fault.place),
        Err(CheckStop::Memory) => Err(Memory),
    }
}

/// The labels of nodes, between commas.
fn show_labels(alloc: Global, labels: &[Label]) -> Result<Text, Memory> {
    let mut all = Text::new(alloc);
    for (i, label) in labels.iter().enumerate() {
        if i > 0 {
            all.push_str(", ")?;
        }
        label.name.show(&mut all)?;
        all.push_str(" ")?;
        all.push_str(label.text.as_str())?;
        all.push_str(" ")?;
        label.ty.show(alloc, &mut all)?;
    }
    Ok(all)
}

/// A fault of this kind at this place.
fn fault_at(alloc: Global, kind: &str, place: u64) -> Result<Text, Memory> {
    Ok(Text::of(format!(in alloc; "{kind} {place}")?))
}

/// The word for a kind of fault of forms.
fn form_word(kind: FormKind) -> &'static str {
    match kind {
        FormKind::End => "end",
        FormKind::Deep => "deep",
        FormKind::Many => "many",
        FormKind::Senders => "senders",
        FormKind::Expected => "expected",
    }
}

/// The word for a kind of fault of names and types.
fn type_word(kind: TypeKind) -> &'static str {
    match kind {
        TypeKind::Unknown => "unknown",
        TypeKind::Twice => "twice",
        TypeKind::Arity => "arity",
        TypeKind::Templates => "templates",
        TypeKind::Sample => "sample",
        TypeKind::Tied => "tied",
        TypeKind::Type => "type",
        TypeKind::Untied => "untied",
    }
}
