//! Declarations as tokens.

ghost use Rattle.std.specs.Prelude.{◌≡◌, [], ◌∷◌, ◌++◌, map, OnOk, codes};
ghost use Rattle.frp_lex.specs.declared.token.Kind.{Kind};
ghost use Rattle.frp_write.specs.Writing.{form, spot_kind, ty_kinds, expr_kinds, param_kinds, params_kinds, shape_kinds, item_kinds, template_kinds, function_kinds, decl_kinds};

use crate::exprs::write_last;
use crate::shapes::{write_param, write_shape};
use crate::tokens::{
    Written, write_each, write_head, write_joint, write_left, write_named, write_right,
};
use crate::types::write_ty;
use frp_base::{Memory, Seq};
use frp_expr::{Raw, RawTy, Spot};
use frp_file::{Decl, Function, Give, Item, ItemForm, Param, RawShape, Template};
use frp_lex::Kind;
use std::alloc::Global;

impl Written for Param {
    ghost use Rattle.frp_write.specs.Writing.{param_kinds};

    ghost tokens = { param_kinds };

    fn write(alloc: Global, form: &Param, out: &mut Seq<Kind>) -> Result<(), Memory> {
        write_param(alloc, form, out)
    }
}

impl Written for Item {
    ghost use Rattle.frp_write.specs.Writing.{item_kinds};

    ghost tokens = { item_kinds };

    fn write(alloc: Global, form: &Item, out: &mut Seq<Kind>) -> Result<(), Memory> {
        write_item(alloc, form, out)
    }
}

impl Written for Decl {
    ghost use Rattle.frp_write.specs.Writing.{decl_kinds};

    ghost tokens = { decl_kinds };

    fn write(alloc: Global, form: &Decl, out: &mut Seq<Kind>) -> Result<(), Memory> {
        match form {
            Decl::Template(template) => write_template(alloc, template, out),
            Decl::Function(function) => write_function(alloc, function, out),
            Decl::Item(item) => write_item(alloc, item, out),
        }
    }
}

/// Appends `sink`.
fn sink(alloc: Global, name: &Spot, ty: &RawTy, out: &mut Seq<Kind>) -> Result<(), Memory>
    ensures { OnOk result (out.new ≡ out.old ++ form (codes "sink") (spot_kind name.now ∷ ty_kinds ty.now)) }
{
    write_named(alloc, "sink", name, out)?;
    write_ty(alloc, ty, out)?;
    write_right(out)
}

/// Appends `cellsink`.
fn cellsink(
    alloc: Global,
    sink: &Spot,
    cell: &Spot,
    ty: &RawTy,
    first: &Raw,
    out: &mut Seq<Kind>,
) -> Result<(), Memory>
    ensures { OnOk result (out.new ≡ out.old ++ form (codes "cellsink") (spot_kind sink.now ∷ spot_kind cell.now ∷ ty_kinds ty.now ++ expr_kinds first.now)) }
{
    write_joint(alloc, "cellsink", sink, cell, out)?;
    write_ty(alloc, ty, out)?;
    write_last(alloc, first, out)
}

/// Appends `let`.
fn let_of(alloc: Global, name: &Spot, shape: &RawShape, out: &mut Seq<Kind>) -> Result<(), Memory>
    ensures { OnOk result (out.new ≡ out.old ++ form (codes "let") (spot_kind name.now ∷ shape_kinds shape.now)) }
{
    write_named(alloc, "let", name, out)?;
    write_shape(alloc, shape, out)?;
    write_right(out)
}

/// Appends `tie`.
fn tie(alloc: Global, from: &Spot, to: &Spot, out: &mut Seq<Kind>) -> Result<(), Memory>
    ensures { OnOk result (out.new ≡ out.old ++ form (codes "tie") (spot_kind from.now ∷ spot_kind to.now ∷ [])) }
{
    write_joint(alloc, "tie", from, to, out)?;
    write_right(out)
}

/// Appends `get`.
fn get(alloc: Global, name: &Spot, cell: &Raw, out: &mut Seq<Kind>) -> Result<(), Memory>
    ensures { OnOk result (out.new ≡ out.old ++ form (codes "get") (spot_kind name.now ∷ expr_kinds cell.now)) }
{
    write_named(alloc, "get", name, out)?;
    write_last(alloc, cell, out)
}

/// Appends an item.
fn write_item(alloc: Global, item: &Item, out: &mut Seq<Kind>) -> Result<(), Memory>
    ensures { OnOk result (out.new ≡ out.old ++ item_kinds item.now) }
{
    match &item.form {
        ItemForm::Sink { name, ty } => sink(alloc, name, ty.get(), out),
        ItemForm::Cellsink {
            sink,
            cell,
            ty,
            first,
        } => cellsink(alloc, sink, cell, ty.get(), first.get(), out),
        ItemForm::Let { name, shape } => let_of(alloc, name, shape.get(), out),
        ItemForm::Tie { from, to } => tie(alloc, from, to, out),
        ItemForm::Get { name, cell } => get(alloc, name, cell.get(), out),
    }
}

/// Appends names and their types in parentheses.
fn write_params(alloc: Global, params: &[Param], out: &mut Seq<Kind>) -> Result<(), Memory>
    ensures { OnOk result (out.new ≡ out.old ++ params_kinds params.now) }
{
    write_left(out)?;
    write_each(alloc, params, out)?;
    write_right(out)
}

/// Appends what an instance gives.
fn write_give(alloc: Global, give: &Give, out: &mut Seq<Kind>) -> Result<(), Memory>
    ensures { OnOk result (out.new ≡ out.old ++ form (codes "give") (expr_kinds give.now.e)) }
{
    write_head(alloc, "give", out)?;
    write_last(alloc, give.e.get(), out)
}

/// Appends what a template begins with: its name, its parameter and its kept names.
fn template_first(alloc: Global, template: &Template, out: &mut Seq<Kind>) -> Result<(), Memory>
    ensures { OnOk result (out.new ≡ out.old ++ Kind.Left ∷ Kind.Name (codes "template") ∷ spot_kind template.now.name ∷ param_kinds template.now.param ++ params_kinds template.now.kept) }
{
    write_named(alloc, "template", &template.name, out)?;
    write_param(alloc, template.param.get(), out)?;
    write_params(alloc, template.kept.as_slice(), out)
}

/// Appends a template.
fn write_template(alloc: Global, template: &Template, out: &mut Seq<Kind>) -> Result<(), Memory>
    ensures { OnOk result (out.new ≡ out.old ++ template_kinds template.now) }
{
    template_first(alloc, template, out)?;
    write_each(alloc, template.items.as_slice(), out)?;
    write_give(alloc, template.give.get(), out)?;
    write_right(out)
}

/// Appends a function.
fn write_function(alloc: Global, function: &Function, out: &mut Seq<Kind>) -> Result<(), Memory>
    ensures { OnOk result (out.new ≡ out.old ++ function_kinds function.now) }
{
    write_named(alloc, "fun", &function.name, out)?;
    write_params(alloc, function.kept.as_slice(), out)?;
    write_param(alloc, function.arg.get(), out)?;
    write_last(alloc, function.e.get(), out)
}
