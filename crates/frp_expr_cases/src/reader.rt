//! Reads an expression as it stands in a graph file.

use frp_base::Memory;
use frp_expr::Raw;
use frp_file::{Decl, File, ItemForm, ShapeForm};
use frp_form::{FormStop, Reading, read};
use frp_lex::{LexStop, Token, lex};
use std::alloc::Global;

/// What stands before the expression in its file.
const BEFORE: &str = "(graph (let it (constant ";

/// The file whose one item is the constant of an expression's text. There is none where the text is no expression.
pub fn file_of(alloc: Global, text: &str) -> Result<Option<File>, Memory> {
    let input = format!(in alloc; "{BEFORE}{text})))")?;
    let bytes = input.as_str().as_bytes();
    match lex(alloc, bytes) {
        Ok(tokens) => file_of_tokens(alloc, tokens.as_slice(), bytes.len() as u64),
        Err(LexStop::Fault(_)) => Ok(None),
        Err(LexStop::Memory) => Err(Memory),
    }
}

/// The file of the tokens of an input of this length, where they have one.
fn file_of_tokens(alloc: Global, tokens: &[Token], length: u64) -> Result<Option<File>, Memory> {
    match read(alloc, tokens, length, Reading { one_sender: true }) {
        Ok(file) => Ok(Some(file)),
        Err(FormStop::Fault(_)) => Ok(None),
        Err(FormStop::Memory) => Err(Memory),
    }
}

/// The operand of a file's one item, where that is a constant.
pub fn operand(file: &File) -> Option<&Raw> {
    let [Decl::Item(item)] = file.graph.decls.as_slice() else {
        return None;
    };
    let ItemForm::Let { shape, .. } = &item.form else {
        return None;
    };
    match &shape.get().form {
        ShapeForm::Constant { o } => Some(o.get()),
        _ => None,
    }
}

/// The place in the expression's text, from 0, of a place in its file.
pub fn place_in_text(place: u64) -> u64 {
    place.wrapping_sub(BEFORE.len() as u64)
}
