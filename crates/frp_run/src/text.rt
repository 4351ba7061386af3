//! What a text means, by three passes.

ghost use Rattle.std.specs.Prelude.{◌≡◌, IsTrue, Ok, length};
ghost use Rattle.std.specs.List.{list_all};
ghost use Rattle.frp_lex.specs.Tokens.{tokens as tokens_of};
ghost use Rattle.frp_form.specs.File.{file_of};
ghost use Rattle.frp_sugar.specs.Expanding.{expanded};
ghost use Rattle.frp_type.specs.Core.{is_core};
ghost use Rattle.frp_run.specs.Gives.{TextGives};
ghost use Rattle.frp_run.specs.Texts as spec;
ghost use Rattle.frp_run.specs.declared.refused.Fault.TheVariants as f;

use crate::modes::Mode;
use crate::refused::{Fault, Refused, TextStop};
use crate::understood::Understood;
use frp_base::{Boxed, Seq};
use frp_expr::ExprStop;
use frp_file::{Decl, File, ItemForm, ShapeForm};
use frp_form::{FormStop, Reading, read};
use frp_lex::{LexStop, Token, lex};
use frp_sugar::expand;
use frp_type::{Typed, check};
use std::alloc::Global;

/// The file of a text, and what it means; or why the text has no program.
#[tactic(auto, using(crate::proofs::Runnable::core_of))]
pub fn understand(alloc: Global, mode: Mode, bytes: &[u8]) -> Result<Understood, TextStop>
    ensures { TextGives result (spec.understood mode bytes.now) }
{
    let file = file(alloc, mode, bytes)?;
    let core = expand(alloc, &file)?;
    let typed = typed(alloc, &core)?;
    Ok(Understood { file, typed })
}

/// The file of a text, or the text's first fault.
fn file(alloc: Global, mode: Mode, bytes: &[u8]) -> Result<File, TextStop>
    ensures { TextGives result (spec.file_in mode bytes.now) }
{
    let tokens = tokens(alloc, bytes)?;
    match read(alloc, tokens.as_slice(), bytes.len() as u64, reading(mode)) {
        Ok(file) => Ok(file),
        Err(FormStop::Fault(fault)) => Err(TextStop::Refused(Refused::Fault(Fault::Form(fault)))),
        Err(FormStop::Memory) => Err(TextStop::Memory),
    }
}

/// The tokens of a text, or its first fault.
fn tokens(alloc: Global, bytes: &[u8]) -> Result<Seq<Token>, TextStop>
    ensures { TextGives result (spec.with_fault f.Token (tokens_of bytes.now)) }
{
    match lex(alloc, bytes) {
        Ok(tokens) => Ok(tokens),
        Err(LexStop::Fault(fault)) => Err(TextStop::Refused(Refused::Fault(Fault::Token(fault)))),
        Err(LexStop::Memory) => Err(TextStop::Memory),
    }
}

/// How a file is read in a mode.
fn reading(mode: Mode) -> Reading
    ensures { result ≡ spec.reading mode }
{
    match mode {
        Mode::Replay => Reading { one_sender: true },
        Mode::Check => Reading { one_sender: false },
    }
}

/// What a file of core items means, or why it has no program.
fn typed(alloc: Global, core: &File) -> Result<Boxed<Typed>, TextStop>
    requires { IsTrue (spec.is_built_file core.now) → IsTrue (is_core core.now) }
    ensures { TextGives result (spec.typed_file core.now) }
{
    if !is_built_file(core) {
        return Err(TextStop::Refused(Refused::Unbuilt));
    }
    match check(alloc, core) {
        Ok(typed) => Ok(Boxed::new(alloc, typed)?),
        Err(ExprStop::Fault(fault)) => Err(TextStop::Refused(Refused::Fault(Fault::Type(fault)))),
        Err(ExprStop::Memory) => Err(TextStop::Memory),
    }
}

/// Whether core items can be run yet.
fn is_built_file(file: &File) -> bool
    ensures { result ≡ spec.is_built_file file.now }
{
    are_built(file.graph.decls.as_slice())
}

/// Whether all of these declarations can be run yet.
fn are_built(decls: &[Decl]) -> bool
    ensures { result ≡ list_all spec.is_built_decl decls.now }
{
    for decl in decls {
        if !is_built_decl(decl) {
            return false;
        }
    }
    true
}

/// Whether a declaration is a function, a sink, or a shape that is built.
fn is_built_decl(decl: &Decl) -> bool
    ensures { result ≡ spec.is_built_decl decl.now }
{
    match decl {
        Decl::Function(_) => true,
        Decl::Item(item) => match &item.form {
            ItemForm::Sink { .. } => true,
            ItemForm::Let { shape, .. } => is_built_form(&shape.get().form),
            _ => false,
        },
        Decl::Template(_) => false,
    }
}

/// Whether a shape is built.
fn is_built_form(form: &ShapeForm) -> bool
    ensures { result ≡ spec.is_built_form form.now }
{
    match form {
        ShapeForm::Never { .. }
        | ShapeForm::Map { .. }
        | ShapeForm::Filter { .. }
        | ShapeForm::Hold { .. } => true,
        _ => false,
    }
}
