//! The expansion of files, declarations and bodies.

ghost use Rattle.std.specs.Prelude.{◌≡◌, ◌+◌, ◌++◌, map, IfOk, OnOk};
ghost use Rattle.frp_file.specs.declared.file.Decl.TheVariants as decl;
ghost use Rattle.frp_sugar.specs.Expanding as spec;

use crate::items::item;
use crate::site::Next;
use frp_base::{Memory, Seq};
use frp_file::{Decl, File, Graph, Item, Template, copy_listens, copy_params, copy_senders};
use std::alloc::Global;

/// The core file that a file stands for: core items stand in the place of each derived form.
pub fn expand(alloc: Global, file: &File) -> Result<File, Memory>
    ensures { IfOk result (λ f. f ≡ spec.expanded file.now) }
{
    let decls = expanded_decls(alloc, file.graph.decls.as_slice())?;
    let listens = copy_listens(alloc, file.listens.as_slice())?;
    let senders = copy_senders(alloc, file.senders.as_slice())?;
    Ok(File {
        graph: Graph {
            at: file.graph.at,
            decls,
        },
        listens,
        senders,
    })
}

/// The declarations that stand for those of the graph.
fn expanded_decls(alloc: Global, decls: &[Decl]) -> Result<Seq<Decl>, Memory>
    ensures { IfOk result (λ ds. ds ≡ spec.graph_decls 0 0 decls.now) }
{
    let mut next = Next {
        items: 0,
        functions: 0,
    };
    let mut out = Seq::new(alloc);
    for d in decls {
        decl(alloc, d, &mut next, &mut out)?;
    }
    Ok(out)
}

/// Adds what stands for a declaration.
fn decl(alloc: Global, d: &Decl, next: &mut Next, out: &mut Seq<Decl>) -> Result<(), Memory>
    ensures decls { OnOk result (out.new ≡ out.old ++ spec.decl_decls next.old.items next.old.functions d.now) }
    ensures items { OnOk result (next.new.items ≡ next.old.items + spec.decl_hidden d.now) }
    ensures functions { OnOk result (next.new.functions ≡ next.old.functions + spec.decl_hidden_functions d.now) }
{
    match d {
        Decl::Template(t) => template(alloc, t, next, out),
        Decl::Function(f) => out.add(Decl::Function(f.copy(alloc)?)),
        Decl::Item(i) => graph_item(alloc, i, next, out),
    }
}

/// Adds what stands for an item of the graph: its hidden functions, and its items.
fn graph_item(alloc: Global, i: &Item, next: &mut Next, out: &mut Seq<Decl>) -> Result<(), Memory>
    ensures decls { OnOk result (out.new ≡ out.old ++ spec.decl_decls next.old.items next.old.functions (decl.Item i.now)) }
    ensures items { OnOk result (next.new.items ≡ next.old.items + spec.form_hidden i.now.form) }
    ensures functions { OnOk result (next.new.functions ≡ next.old.functions + spec.form_hidden_functions i.now.form) }
{
    let mut items = Seq::new(alloc);
    item(alloc, i, next, out, &mut items)?;
    add_items(items, out)
}

/// Adds items as declarations.
fn add_items(items: Seq<Item>, out: &mut Seq<Decl>) -> Result<(), Memory>
    ensures { OnOk result (out.new ≡ out.old ++ map decl.Item items) }
{
    for i in items.into_vec() {
        out.add(Decl::Item(i))?;
    }
    Ok(())
}

/// Adds what stands for a template: the hidden functions of its body, and the template with the body that stands for its own.
fn template(alloc: Global, t: &Template, next: &mut Next, out: &mut Seq<Decl>) -> Result<(), Memory>
    ensures decls { OnOk result (out.new ≡ out.old ++ spec.decl_decls next.old.items next.old.functions (decl.Template t.now)) }
    ensures items { OnOk result (next.new.items ≡ next.old.items) }
    ensures functions { OnOk result (next.new.functions ≡ next.old.functions + spec.body_hidden_functions t.now.items) }
{
    let items = body(alloc, t.items.as_slice(), &mut next.functions, out)?;
    let name = t.name.copy()?;
    let param = t.param.get().boxed(alloc)?;
    let kept = copy_params(alloc, t.kept.as_slice())?;
    let give = t.give.get().boxed(alloc)?;
    out.add(Decl::Template(Template {
        at: t.at,
        name,
        param,
        kept,
        items,
        give,
    }))
}

/// The items that stand for those of a template's body. Their hidden functions are added to the declarations.
fn body(
    alloc: Global,
    items: &[Item],
    functions: &mut u64,
    out: &mut Seq<Decl>,
) -> Result<Seq<Item>, Memory>
    ensures items { IfOk result (λ is. is ≡ spec.body_items 0 functions.old items.now) }
    ensures decls { OnOk result (out.new ≡ out.old ++ map decl.Function (spec.body_functions functions.old items.now)) }
    ensures functions { OnOk result (functions.new ≡ functions.old + spec.body_hidden_functions items.now) }
{
    let mut next = Next {
        items: 0,
        functions: *functions,
    };
    let mut all = Seq::new(alloc);
    for i in items {
        item(alloc, i, &mut next, out, &mut all)?;
    }
    *functions = next.functions;
    Ok(all)
}
