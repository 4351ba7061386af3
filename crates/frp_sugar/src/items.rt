//! The expansion of items.

ghost use Rattle.std.specs.Prelude.{◌≡◌, ◌+◌, [], ◌∷◌, ◌++◌, map, IsTrue, IfOk, OnOk};
ghost use Rattle.frp_file.specs.declared.file.Decl.TheVariants as decl;
ghost use Rattle.frp_file.specs.declared.file.ItemForm.TheVariants as form;
ghost use Rattle.frp_sugar.specs.Derived.{is_derived};
ghost use Rattle.frp_sugar.specs.Table as table;
ghost use Rattle.frp_sugar.specs.Expanding as spec;

use crate::made::the;
use crate::rows::{Lift, Step, accum, collect, defer, gate, lift2, lifted, once, orelse};
use crate::shapes::is_derived;
use crate::site::{Next, Site};
use frp_base::{Boxed, Memory, Seq};
use frp_expr::{Raw, RawTy, Spot};
use frp_file::{Decl, Item, ItemForm, RawShape, ShapeForm};
use std::alloc::Global;

/// Adds what stands for an item, and its hidden functions to the declarations.
pub fn item(
    alloc: Global,
    i: &Item,
    next: &mut Next,
    out: &mut Seq<Decl>,
    items: &mut Seq<Item>,
) -> Result<(), Memory>
    ensures items { OnOk result (items.new ≡ items.old ++ spec.form_items i.now.at next.old.items next.old.functions i.now.form) }
    ensures decls { OnOk result (out.new ≡ out.old ++ map decl.Function (spec.form_functions next.old.functions i.now.form)) }
    ensures hidden { OnOk result (next.new.items ≡ next.old.items + spec.form_hidden i.now.form) }
    ensures functions { OnOk result (next.new.functions ≡ next.old.functions + spec.form_hidden_functions i.now.form) }
{
    match &i.form {
        ItemForm::Sink { name, ty } => sink(alloc, i.at, name, ty.get(), items),
        ItemForm::Cellsink {
            sink,
            cell,
            ty,
            first,
        } => cellsink(alloc, i.at, sink, cell, ty.get(), first.get(), items),
        ItemForm::Let { name, shape } => bound(alloc, i.at, name, shape.get(), next, out, items),
        ItemForm::Tie { from, to } => tie(i.at, from, to, items),
        ItemForm::Get { name, cell } => get(alloc, i.at, name, cell.get(), items),
    }
}

/// Adds an input.
fn sink(
    alloc: Global,
    at: u64,
    name: &Spot,
    ty: &RawTy,
    items: &mut Seq<Item>,
) -> Result<(), Memory>
    ensures { OnOk result (items.new ≡ items.old ++ record { at = at; form = form.Sink name.now ty.now } ∷ []) }
{
    let name = name.copy()?;
    let ty = ty.boxed(alloc)?;
    items.add(Item {
        at,
        form: ItemForm::Sink { name, ty },
    })
}

/// Adds a loop that is tied.
fn tie(at: u64, from: &Spot, to: &Spot, items: &mut Seq<Item>) -> Result<(), Memory>
    ensures { OnOk result (items.new ≡ items.old ++ record { at = at; form = form.Tie from.now to.now } ∷ []) }
{
    let from = from.copy()?;
    let to = to.copy()?;
    items.add(Item {
        at,
        form: ItemForm::Tie { from, to },
    })
}

/// Adds the value of a cell.
fn get(alloc: Global, at: u64, name: &Spot, cell: &Raw, items: &mut Seq<Item>) -> Result<(), Memory>
    ensures { OnOk result (items.new ≡ items.old ++ record { at = at; form = form.Get name.now cell.now } ∷ []) }
{
    let name = name.copy()?;
    let cell = cell.boxed(alloc)?;
    items.add(Item {
        at,
        form: ItemForm::Get { name, cell },
    })
}

/// `(cellsink s c T o)`: an input, and a cell of what was last sent to it, and of a value before.
fn cellsink(
    alloc: Global,
    at: u64,
    input: &Spot,
    cell: &Spot,
    ty: &RawTy,
    o: &Raw,
    items: &mut Seq<Item>,
) -> Result<(), Memory>
    ensures { OnOk result (items.new ≡ items.old ++ spec.form_items at 0 0 (form.Cellsink input.now cell.now ty.now o.now)) }
{
    sink(alloc, at, input, ty, items)?;
    let name = cell.copy()?;
    let o = o.boxed(alloc)?;
    let s = the(alloc, at, input)?;
    let form = ShapeForm::Hold { o, s };
    let shape = Boxed::new(alloc, RawShape { at, form })?;
    items.add(Item {
        at,
        form: ItemForm::Let { name, shape },
    })
}

/// Adds what stands for the item `(let x shape)`, and its hidden functions to the declarations.
fn bound(
    alloc: Global,
    at: u64,
    x: &Spot,
    shape: &RawShape,
    next: &mut Next,
    out: &mut Seq<Decl>,
    items: &mut Seq<Item>,
) -> Result<(), Memory>
    ensures items { OnOk result (items.new ≡ items.old ++ table.let_items at x.now shape.now.at next.old.items next.old.functions shape.now.form) }
    ensures decls { OnOk result (out.new ≡ out.old ++ map decl.Function (table.shape_functions shape.now.at next.old.functions shape.now.form)) }
    ensures hidden { OnOk result (next.new.items ≡ next.old.items + table.shape_hidden shape.now.form) }
    ensures functions { OnOk result (next.new.functions ≡ next.old.functions + table.shape_hidden_functions shape.now.form) }
{
    let k = Site {
        item: at,
        form: shape.at,
        items: next.items,
        functions: next.functions,
    };
    count(next, &shape.form)?;
    if is_derived(&shape.form) {
        functions(alloc, k, &shape.form, out)?;
        row(alloc, k, x, &shape.form, items)
    } else {
        core(alloc, at, x, shape, items)
    }
}

/// Counts the hidden items and functions of a form. A count past 64 bits counts as want of memory.
fn count(next: &mut Next, form: &ShapeForm) -> Result<(), Memory>
    ensures items { OnOk result (next.new.items ≡ next.old.items + table.shape_hidden form.now) }
    ensures functions { OnOk result (next.new.functions ≡ next.old.functions + table.shape_hidden_functions form.now) }
{
    next.items = sum(next.items, hidden(form))?;
    next.functions = sum(next.functions, hidden_functions(form))?;
    Ok(())
}

/// The sum of two counts.
fn sum(a: u64, b: u64) -> Result<u64, Memory>
    ensures { IfOk result (λ r. r ≡ a + b) }
{
    match a.checked_add(b) {
        Some(r) => Ok(r),
        None => Err(Memory),
    }
}

/// How many hidden items a form has.
fn hidden(form: &ShapeForm) -> u64
    ensures { result ≡ table.shape_hidden form.now }
{
    match form {
        ShapeForm::Gate { .. } => 2,
        ShapeForm::Once { .. } => 4,
        ShapeForm::Accum { .. } => 2,
        ShapeForm::Collect { .. } => 4,
        ShapeForm::Lift2 { .. } => 1,
        ShapeForm::Defer { .. } => 1,
        _ => 0,
    }
}

/// How many hidden functions a form has.
fn hidden_functions(form: &ShapeForm) -> u64
    ensures { result ≡ table.shape_hidden_functions form.now }
{
    match form {
        ShapeForm::Lift2 { .. } => 1,
        _ => 0,
    }
}

/// Adds the hidden functions of a form to the declarations.
fn functions(alloc: Global, k: Site, form: &ShapeForm, out: &mut Seq<Decl>) -> Result<(), Memory>
    ensures { OnOk result (out.new ≡ out.old ++ map decl.Function (table.shape_functions k.form k.functions form.now)) }
{
    match form {
        ShapeForm::Lift2 { x, y, ca, cb, e } => lifted(
            alloc,
            k,
            &Lift {
                x: x.get(),
                y: y.get(),
                ca: ca.get(),
                cb: cb.get(),
                e: e.get(),
            },
            out,
        ),
        _ => Ok(()),
    }
}

/// Adds the items of a derived form.
fn row(
    alloc: Global,
    k: Site,
    x: &Spot,
    form: &ShapeForm,
    items: &mut Seq<Item>,
) -> Result<(), Memory>
    requires { IsTrue (is_derived form.now) }
    ensures { OnOk result (items.new ≡ items.old ++ table.let_items k.item x.now k.form k.items k.functions form.now) }
{
    match form {
        ShapeForm::Orelse { a, b } => orelse(alloc, k, x, a.get(), b.get(), items),
        ShapeForm::Gate { s, c } => gate(alloc, k, x, s.get(), c.get(), items),
        ShapeForm::Once { s } => once(alloc, k, x, s.get(), items),
        ShapeForm::Accum {
            ty,
            x: y,
            y: z,
            s,
            o,
            e,
        } => {
            accum(
                alloc,
                k,
                x,
                ty.get(),
                &Step {
                    x: y,
                    y: z,
                    s: s.get(),
                    e: e.get(),
                },
                o.get(),
                items,
            )
        }
        ShapeForm::Collect {
            ty,
            x: y,
            y: z,
            s,
            o,
            e,
        } => {
            collect(
                alloc,
                k,
                x,
                ty.get(),
                &Step {
                    x: y,
                    y: z,
                    s: s.get(),
                    e: e.get(),
                },
                o.get(),
                items,
            )
        }
        ShapeForm::Lift2 {
            x: y,
            y: z,
            ca,
            cb,
            e,
        } => {
            lift2(
                alloc,
                k,
                x,
                &Lift {
                    x: y.get(),
                    y: z.get(),
                    ca: ca.get(),
                    cb: cb.get(),
                    e: e.get(),
                },
                items,
            )
        }
        ShapeForm::Defer { s } => defer(alloc, k, x, s.get(), items),
        _ => unreachable!(),
    }
}

/// Adds an item of a core shape.
fn core(
    alloc: Global,
    at: u64,
    x: &Spot,
    shape: &RawShape,
    items: &mut Seq<Item>,
) -> Result<(), Memory>
    ensures { OnOk result (items.new ≡ items.old ++ record { at = at; form = form.Let x.now shape.now } ∷ []) }
{
    let name = x.copy()?;
    let shape = shape.boxed(alloc)?;
    items.add(Item {
        at,
        form: ItemForm::Let { name, shape },
    })
}
