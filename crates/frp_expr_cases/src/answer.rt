//! What an expression's text comes to, as the lines have it.

use crate::reader::{file_of, operand, place_in_text};
use crate::scope::Setting;
use frp_base::{Memory, Text};
use frp_expr::{ExprStop, TypeFault, TypeKind, Typing, eval, is_lawful, type_of};
use frp_file::File;
use std::alloc::Global;

/// One more than the most functions that a scope of `type_of` may have.
const MANY: usize = 4_294_967_296;

/// What an expression's text comes to: nothing where it is no expression.
pub fn answer(alloc: Global, setting: &Setting, text: &str) -> Result<Option<Text>, Memory> {
    match file_of(alloc, text)? {
        Some(file) => of_file(alloc, setting, &file),
        None => Ok(None),
    }
}

/// What the operand of a file's constant comes to: nothing where there is none.
fn of_file(alloc: Global, setting: &Setting, file: &File) -> Result<Option<Text>, Memory> {
    let Some(raw) = operand(file) else {
        return Ok(None);
    };
    if !is_lawful(raw) || setting.scope.funs.as_slice().len() >= MANY {
        return Ok(None);
    }
    match type_of(alloc, raw, &setting.scope) {
        Ok(typing) => Ok(Some(typed(alloc, setting, &typing)?)),
        Err(ExprStop::Fault(fault)) => Ok(Some(faulty(alloc, fault)?)),
        Err(ExprStop::Memory) => Err(Memory),
    }
}

/// The type of an expression, the entries of the scope that it uses, and its value.
fn typed(alloc: Global, setting: &Setting, typing: &Typing) -> Result<Text, Memory> {
    let mut text = Text::new(alloc);
    text.push_str(": ")?;
    typing.ty.show(alloc, &mut text)?;
    show_used(alloc, typing.used.as_slice(), &mut text)?;
    text.push_str(" = ")?;
    let value = eval(alloc, &typing.expr, setting.values.as_slice())?;
    value.show(alloc, &mut text)?;
    Ok(text)
}

/// Appends the entries that are used, where there are some.
fn show_used(alloc: Global, used: &[u64], text: &mut Text) -> Result<(), Memory> {
    if used.is_empty() {
        return Ok(());
    }
    text.push_str(" uses")?;
    for entry in used {
        text.push_str(" ")?;
        text.push_str(entry.to_string(alloc)?.as_str())?;
    }
    Ok(())
}

/// The kind of a fault, and its place in the expression's text.
fn faulty(alloc: Global, fault: TypeFault) -> Result<Text, Memory> {
    let mut text = Text::new(alloc);
    text.push_str("! ")?;
    text.push_str(kind(fault.kind))?;
    text.push_str(" ")?;
    text.push_str(place_in_text(fault.place).to_string(alloc)?.as_str())?;
    Ok(text)
}

/// The word for a kind of fault.
fn kind(kind: TypeKind) -> &'static str {
    match kind {
        TypeKind::Unknown => "unknown",
        TypeKind::Twice => "twice",
        TypeKind::Arity => "arity",
        TypeKind::Templates => "templates",
        TypeKind::Sample => "sample",
        TypeKind::Tied => "tied",
        TypeKind::Type => "type",
        TypeKind::Untied => "untied",
    }
}
