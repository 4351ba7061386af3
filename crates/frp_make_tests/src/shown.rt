//! The nodes that a file makes, as a text.
ghost use Rattle.std.specs.Prelude.{◌≡◌, Some, IfOk};
ghost use Rattle.frp_graph.specs.declared.prog.Prog.{Prog};
ghost use Rattle.frp_graph.specs.TypedProg.{IsTypedProg};

use frp_base::{Boxed, Memory, Name, Text, Time};
use frp_expr::ExprStop;
use frp_file::File;
use frp_form::{Reading, read};
use frp_graph::{Node, Prog};
use frp_lex::lex;
use frp_make::{FirstOut, first_nodes};
use frp_store::Store;
use frp_type::{check, is_core};
use std::alloc::Global;

/// The nodes that the file of a text makes, each with its first value, where it has one, and after them the names of a closed
/// chain, where they have one; nothing where the text has a fault.
pub fn shown(alloc: Global, text: &str) -> Result<Text, Memory> {
    match program(alloc, text)? {
        Some(prog) => built(alloc, prog.into_inner()),
        None => Ok(Text::new(alloc)),
    }
}

/// The program of a text that has core items alone and no fault.
fn program(alloc: Global, text: &str) -> Result<Option<Boxed<Prog>>, Memory>
    ensures { IfOk result (λ o. (p : Prog) → o ≡ Some p → IsTypedProg p) }
{
    let how = Reading { one_sender: false };
    match lex(alloc, text.as_bytes()) {
        Ok(tokens) => match read(alloc, tokens.as_slice(), text.len() as u64, how) {
            Ok(file) => typed(alloc, &file),
            Err(_) => Ok(None),
        },
        Err(_) => Ok(None),
    }
}

fn typed(alloc: Global, file: &File) -> Result<Option<Boxed<Prog>>, Memory>
    ensures { IfOk result (λ o. (p : Prog) → o ≡ Some p → IsTypedProg p) }
{
    if !is_core(file) {
        return Ok(None);
    }
    match check(alloc, file) {
        Ok(typed) => Ok(Some(Boxed::new(alloc, typed.prog)?)),
        Err(ExprStop::Fault(_)) => Ok(None),
        Err(ExprStop::Memory) => Err(Memory),
    }
}

/// The nodes of a program at the build.
fn built(alloc: Global, prog: Prog) -> Result<Text, Memory>
    requires { IsTypedProg prog }
{
    let mut store = Store::new(alloc, prog);
    store.begin(&Time::top(alloc, 0))?;
    let mut text = Text::new(alloc);
    match first_nodes(alloc, &store)? {
        FirstOut::Made(nodes) => show_nodes(alloc, nodes.as_slice(), &mut text)?,
        FirstOut::Chain(nodes, names) => {
            show_nodes(alloc, nodes.as_slice(), &mut text)?;
            show_chain(names.as_slice(), &mut text)?;
        }
    }
    Ok(text)
}

fn show_nodes(alloc: Global, nodes: &[Node], out: &mut Text) -> Result<(), Memory> {
    for node in nodes {
        node.name.show(out)?;
        if let Some(first) = &node.first {
            out.push_str(" ")?;
            first.show(alloc, out)?;
        }
        out.push_str("; ")?;
    }
    Ok(())
}

fn show_chain(names: &[Name], out: &mut Text) -> Result<(), Memory> {
    out.push_str("chain")?;
    for name in names {
        out.push_str(" ")?;
        name.show(out)?;
    }
    Ok(())
}
