//! Which files the checker takes.

ghost use Rattle.std.specs.Prelude.{◌≡◌};
ghost use Rattle.std.specs.List.{list_all};
ghost use Rattle.frp_expr.specs.Raw.{is_lawful};
ghost use Rattle.frp_type.specs.Core.{is_core, is_core_decl, is_core_item, is_core_shape, is_core_sender};

use frp_expr::is_lawful;
use frp_file::{Decl, File, ItemForm, RawSend, Sender, ShapeForm};

/// Whether a file has core items alone, no templates, and lawful written expressions: what `check` asks for.
pub fn is_core(file: &File) -> bool
    ensures { result ≡ is_core file.now }
{
    are_core_decls(file.graph.decls.as_slice()) && are_core_senders(file.senders.as_slice())
}

/// Whether all of these are core declarations.
fn are_core_decls(decls: &[Decl]) -> bool
    ensures { result ≡ list_all is_core_decl decls.now }
{
    for d in decls {
        if !is_core_decl(d) {
            return false;
        }
    }
    true
}

/// Whether a declaration is a function or a core item.
fn is_core_decl(decl: &Decl) -> bool
    ensures { result ≡ is_core_decl decl.now }
{
    match decl {
        Decl::Function(f) => is_lawful(f.e.get()),
        Decl::Item(i) => is_core_item(&i.form),
        Decl::Template(_) => false,
    }
}

/// Whether an item is a sink, a core shape with its name, or a tie.
fn is_core_item(item: &ItemForm) -> bool
    ensures { result ≡ is_core_item item.now }
{
    match item {
        ItemForm::Sink { .. } => true,
        ItemForm::Let { shape, .. } => is_core_shape(&shape.get().form),
        ItemForm::Tie { .. } => true,
        _ => false,
    }
}

/// Whether a shape is a core one with lawful operands.
fn is_core_shape(shape: &ShapeForm) -> bool
    ensures { result ≡ is_core_shape shape.now }
{
    match shape {
        ShapeForm::Never { .. } => true,
        ShapeForm::Constant { o } => is_lawful(o.get()),
        ShapeForm::Map { s, e, .. } => is_lawful(s.get()) && is_lawful(e.get()),
        ShapeForm::Mapc { c, e, .. } => is_lawful(c.get()) && is_lawful(e.get()),
        ShapeForm::Filter { s, e, .. } => is_lawful(s.get()) && is_lawful(e.get()),
        ShapeForm::Merge { a, b, e, .. } => is_lawful(a.get())
            && is_lawful(b.get())
            && is_lawful(e.get()),
        ShapeForm::Snapshot { s, c, e, .. } => is_lawful(s.get())
            && is_lawful(c.get())
            && is_lawful(e.get()),
        ShapeForm::Split { s } => is_lawful(s.get()),
        ShapeForm::Updates { c } => is_lawful(c.get()),
        ShapeForm::Value { c } => is_lawful(c.get()),
        ShapeForm::Loops { .. } => true,
        ShapeForm::Loopc { .. } => true,
        ShapeForm::Hold { o, s } => is_lawful(o.get()) && is_lawful(s.get()),
        ShapeForm::Apply { cf, ca } => is_lawful(cf.get()) && is_lawful(ca.get()),
        ShapeForm::Switchs { c } => is_lawful(c.get()),
        ShapeForm::Switchc { c } => is_lawful(c.get()),
        ShapeForm::Execute { s, .. } => is_lawful(s.get()),
        _ => false,
    }
}

/// Whether all of these senders send lawful expressions.
fn are_core_senders(senders: &[Sender]) -> bool
    ensures { result ≡ list_all is_core_sender senders.now }
{
    for s in senders {
        if !are_lawful_sends(s.sends.as_slice()) {
            return false;
        }
    }
    true
}

/// Whether all of these send lawful expressions.
fn are_lawful_sends(sends: &[RawSend]) -> bool
    ensures { result ≡ list_all (λ x. is_lawful x.value) sends.now }
{
    for s in sends {
        if !is_lawful(s.value.get()) {
            return false;
        }
    }
    true
}
