//! The lines of core shapes: each shape's type and its line, in which a loop is tied to itself.

ghost use Rattle.std.specs.Prelude.{◌≡◌, ◌<◌, ◌^◌, ◌++◌, [], ◌∷◌, length, IsTrue, IfOk, OnOk, IsErr, Ok, Err};
ghost use Rattle.frp_base.specs.declared.ty.Ty.TheVariants as t;
ghost use Rattle.frp_expr.specs.Gives.{ExprGives};
ghost use Rattle.frp_expr.specs.Raw.{is_lawful, type_written};
ghost use Rattle.frp_file.specs.declared.file.ShapeForm.TheVariants as form;
ghost use Rattle.frp_type.specs.Core.{is_core_shape};
ghost use Rattle.frp_expr.specs.Raw.{◌>>=◌ as ◌>>!◌};
ghost use Rattle.frp_graph.specs.declared.prog.LineShape.TheVariants as line;
ghost use Rattle.frp_graph.specs.TypedProg.{stream_item};
ghost use Rattle.frp_type.specs.Known.{operand_seen, shape_typing, lam_in};
ghost use Rattle.frp_type.specs.Meaning.{line_shape, code_in};
ghost use Rattle.frp_type.specs.States.{here};

use crate::lams::{lam_one, lam_two};
use crate::operands::{cell, operand, operand_of, same_type, stream};
use crate::types::{
    boxed_type, copied, held_cell_item, held_fun_parts, held_stream_item, split_type, stream_type,
};
use frp_base::{Boxed, Seq, Ty};
use frp_expr::{Expr, ExprStop, Raw, RawTy, Scope, Spot, TypeKind, stop};
use frp_file::ShapeForm;
use frp_graph::LineShape;
use std::alloc::Global;

/// The type of the node that a line makes, and the line's shape.
#[derive(Drop)]
pub struct Line {
    pub ty: Ty,
    pub shape: LineShape,
}

/// A cell that never steps.
fn constant(alloc: Global, scope: &Scope, o: &Raw) -> Result<Line, ExprStop>
    requires o { IsTrue (is_lawful o.now) }
    requires funs { length scope.now.funs < 2 ^ 32 }
    ensures ty { ExprGives (λ r. r.ty) result (shape_typing scope.now.funs scope.now.names (form.Constant o.now)) }
    ensures stands { IfOk result (λ r. r.shape ≡ line_shape [] (here scope.now []) (form.Constant o.now)) }
{
    let (o, a) = operand(alloc, scope, o)?;
    Ok(Line {
        ty: Ty::Cell(a),
        shape: LineShape::Constant { o },
    })
}

/// What an expression makes of each occurrence.
fn map(
    alloc: Global,
    scope: &mut Scope,
    codes: &mut Seq<Expr>,
    x: &Spot,
    s: &Raw,
    e: &Raw,
) -> Result<Line, ExprStop>
    requires s { IsTrue (is_lawful s.now) }
    requires e { IsTrue (is_lawful e.now) }
    requires funs { length scope.old.funs < 2 ^ 32 }
    requires codes { length codes.old < 2 ^ 32 }
    ensures ty { ExprGives (λ r. r.ty) result (shape_typing scope.old.funs scope.old.names (form.Map x.now s.now e.now)) }
    ensures stands { IfOk result (λ r. r.shape ≡ line_shape [] (here scope.old codes.old) (form.Map x.now s.now e.now)) }
    ensures codes { OnOk result (codes.new ≡ codes.old ++ code_in (here scope.old codes.old) (lam_in (form.Map x.now s.now e.now))) }
    ensures scope { OnOk result (scope.new ≡ scope.old) }
{
    let (s, a) = stream(alloc, scope, s)?;
    let (f, b) = lam_one(alloc, scope, codes, &x.text, a, e)?;
    Ok(Line {
        ty: Ty::Stream(b),
        shape: LineShape::Map { f, s },
    })
}

/// What an expression makes of each value.
fn mapc(
    alloc: Global,
    scope: &mut Scope,
    codes: &mut Seq<Expr>,
    x: &Spot,
    c: &Raw,
    e: &Raw,
) -> Result<Line, ExprStop>
    requires c { IsTrue (is_lawful c.now) }
    requires e { IsTrue (is_lawful e.now) }
    requires funs { length scope.old.funs < 2 ^ 32 }
    requires codes { length codes.old < 2 ^ 32 }
    ensures ty { ExprGives (λ r. r.ty) result (shape_typing scope.old.funs scope.old.names (form.Mapc x.now c.now e.now)) }
    ensures stands { IfOk result (λ r. r.shape ≡ line_shape [] (here scope.old codes.old) (form.Mapc x.now c.now e.now)) }
    ensures codes { OnOk result (codes.new ≡ codes.old ++ code_in (here scope.old codes.old) (lam_in (form.Mapc x.now c.now e.now))) }
    ensures scope { OnOk result (scope.new ≡ scope.old) }
{
    let (c, a) = cell(alloc, scope, c)?;
    let (f, b) = lam_one(alloc, scope, codes, &x.text, a, e)?;
    Ok(Line {
        ty: Ty::Cell(b),
        shape: LineShape::Mapc { f, c },
    })
}

/// The occurrences for which an expression is true.
fn filter(
    alloc: Global,
    scope: &mut Scope,
    codes: &mut Seq<Expr>,
    x: &Spot,
    s: &Raw,
    e: &Raw,
) -> Result<Line, ExprStop>
    requires s { IsTrue (is_lawful s.now) }
    requires e { IsTrue (is_lawful e.now) }
    requires funs { length scope.old.funs < 2 ^ 32 }
    requires codes { length codes.old < 2 ^ 32 }
    ensures ty { ExprGives (λ r. r.ty) result (shape_typing scope.old.funs scope.old.names (form.Filter x.now s.now e.now)) }
    ensures stands { IfOk result (λ r. r.shape ≡ line_shape [] (here scope.old codes.old) (form.Filter x.now s.now e.now)) }
    ensures codes { OnOk result (codes.new ≡ codes.old ++ code_in (here scope.old codes.old) (lam_in (form.Filter x.now s.now e.now))) }
    ensures scope { OnOk result (scope.new ≡ scope.old) }
{
    let (s, a) = stream(alloc, scope, s)?;
    let item = copied(alloc, &a)?;
    let (f, b) = lam_one(alloc, scope, codes, &x.text, a, e)?;
    same_type(b.get(), &Ty::Bool, e.at)?;
    Ok(Line {
        ty: Ty::Stream(item),
        shape: LineShape::Filter { f, s },
    })
}

/// The occurrences of two streams.
fn merge(
    alloc: Global,
    scope: &mut Scope,
    codes: &mut Seq<Expr>,
    x: &Spot,
    y: &Spot,
    one: &Raw,
    other: &Raw,
    e: &Raw,
) -> Result<Line, ExprStop>
    requires one { IsTrue (is_lawful one.now) }
    requires other { IsTrue (is_lawful other.now) }
    requires e { IsTrue (is_lawful e.now) }
    requires funs { length scope.old.funs < 2 ^ 32 }
    requires codes { length codes.old < 2 ^ 32 }
    ensures ty { ExprGives (λ r. r.ty) result (shape_typing scope.old.funs scope.old.names (form.Merge x.now y.now one.now other.now e.now)) }
    ensures stands { IfOk result (λ r. r.shape ≡ line_shape [] (here scope.old codes.old) (form.Merge x.now y.now one.now other.now e.now)) }
    ensures codes { OnOk result (codes.new ≡ codes.old ++ code_in (here scope.old codes.old) (lam_in (form.Merge x.now y.now one.now other.now e.now))) }
    ensures scope { OnOk result (scope.new ≡ scope.old) }
{
    let (one, a) = stream(alloc, scope, one)?;
    let ty = stream_type(alloc, &a)?;
    let other = operand_of(alloc, scope, other, ty.get())?;
    let left = copied(alloc, &a)?;
    let right = copied(alloc, &a)?;
    let (f, c) = lam_two(alloc, scope, codes, &x.text, left, &y.text, right, e)?;
    same_type(c.get(), a.get(), e.at)?;
    Ok(Line {
        ty: ty.into_inner(),
        shape: LineShape::Merge {
            f,
            a: one,
            b: other,
        },
    })
}

/// What an expression makes of each occurrence and a cell's value before it.
fn snapshot(
    alloc: Global,
    scope: &mut Scope,
    codes: &mut Seq<Expr>,
    x: &Spot,
    y: &Spot,
    s: &Raw,
    c: &Raw,
    e: &Raw,
) -> Result<Line, ExprStop>
    requires s { IsTrue (is_lawful s.now) }
    requires c { IsTrue (is_lawful c.now) }
    requires e { IsTrue (is_lawful e.now) }
    requires funs { length scope.old.funs < 2 ^ 32 }
    requires codes { length codes.old < 2 ^ 32 }
    ensures ty { ExprGives (λ r. r.ty) result (shape_typing scope.old.funs scope.old.names (form.Snapshot x.now y.now s.now c.now e.now)) }
    ensures stands { IfOk result (λ r. r.shape ≡ line_shape [] (here scope.old codes.old) (form.Snapshot x.now y.now s.now c.now e.now)) }
    ensures codes { OnOk result (codes.new ≡ codes.old ++ code_in (here scope.old codes.old) (lam_in (form.Snapshot x.now y.now s.now c.now e.now))) }
    ensures scope { OnOk result (scope.new ≡ scope.old) }
{
    let (s, a) = stream(alloc, scope, s)?;
    let (c, b) = cell(alloc, scope, c)?;
    let (f, d) = lam_two(alloc, scope, codes, &x.text, a, &y.text, b, e)?;
    Ok(Line {
        ty: Ty::Stream(d),
        shape: LineShape::Snapshot { f, s, c },
    })
}

/// The items of each occurrence.
fn split(alloc: Global, scope: &Scope, s: &Raw) -> Result<Line, ExprStop>
    requires s { IsTrue (is_lawful s.now) }
    requires funs { length scope.now.funs < 2 ^ 32 }
    ensures ty { ExprGives (λ r. r.ty) result (shape_typing scope.now.funs scope.now.names (form.Split s.now)) }
    ensures stands { IfOk result (λ r. r.shape ≡ line_shape [] (here scope.now []) (form.Split s.now)) }
{
    let at = s.at;
    let (s, ty) = operand(alloc, scope, s)?;
    let a = split_type(ty.into_inner(), at)?;
    Ok(Line {
        ty: Ty::Stream(a),
        shape: LineShape::Split { s },
    })
}

/// The steps of a cell.
fn updates(alloc: Global, scope: &Scope, c: &Raw) -> Result<Line, ExprStop>
    requires c { IsTrue (is_lawful c.now) }
    requires funs { length scope.now.funs < 2 ^ 32 }
    ensures ty { ExprGives (λ r. r.ty) result (shape_typing scope.now.funs scope.now.names (form.Updates c.now)) }
    ensures stands { IfOk result (λ r. r.shape ≡ line_shape [] (here scope.now []) (form.Updates c.now)) }
{
    let (c, a) = cell(alloc, scope, c)?;
    Ok(Line {
        ty: Ty::Stream(a),
        shape: LineShape::Updates { c },
    })
}

/// The steps of a cell, and its value at the birth.
fn value(alloc: Global, scope: &Scope, c: &Raw) -> Result<Line, ExprStop>
    requires c { IsTrue (is_lawful c.now) }
    requires funs { length scope.now.funs < 2 ^ 32 }
    ensures ty { ExprGives (λ r. r.ty) result (shape_typing scope.now.funs scope.now.names (form.Value c.now)) }
    ensures stands { IfOk result (λ r. r.shape ≡ line_shape [] (here scope.now []) (form.Value c.now)) }
{
    let (c, a) = cell(alloc, scope, c)?;
    Ok(Line {
        ty: Ty::Stream(a),
        shape: LineShape::Value { c },
    })
}

/// The cell of the last occurrence.
fn hold(alloc: Global, scope: &Scope, o: &Raw, s: &Raw) -> Result<Line, ExprStop>
    requires o { IsTrue (is_lawful o.now) }
    requires s { IsTrue (is_lawful s.now) }
    requires funs { length scope.now.funs < 2 ^ 32 }
    ensures ty { ExprGives (λ r. r.ty) result (shape_typing scope.now.funs scope.now.names (form.Hold o.now s.now)) }
    ensures stands { IfOk result (λ r. r.shape ≡ line_shape [] (here scope.now []) (form.Hold o.now s.now)) }
{
    let (o, a) = operand(alloc, scope, o)?;
    let ty = stream_type(alloc, &a)?;
    let s = operand_of(alloc, scope, s, ty.get())?;
    Ok(Line {
        ty: Ty::Cell(a),
        shape: LineShape::Hold { o, s },
    })
}

/// A function in a cell on a value in a cell.
fn apply(alloc: Global, scope: &Scope, cf: &Raw, ca: &Raw) -> Result<Line, ExprStop>
    requires cf { IsTrue (is_lawful cf.now) }
    requires ca { IsTrue (is_lawful ca.now) }
    requires funs { length scope.now.funs < 2 ^ 32 }
    ensures ty { ExprGives (λ r. r.ty) result (shape_typing scope.now.funs scope.now.names (form.Apply cf.now ca.now)) }
    ensures stands { IfOk result (λ r. r.shape ≡ line_shape [] (here scope.now []) (form.Apply cf.now ca.now)) }
{
    let at = cf.at;
    let (cf, ty) = operand(alloc, scope, cf)?;
    let (a, b) = held_fun_parts(ty.into_inner(), at)?;
    let ty = Boxed::new(alloc, Ty::Cell(a))?;
    let ca = operand_of(alloc, scope, ca, ty.get())?;
    Ok(Line {
        ty: Ty::Cell(b),
        shape: LineShape::Apply { cf, ca },
    })
}

/// The stream that a cell holds.
fn switchs(alloc: Global, scope: &Scope, c: &Raw) -> Result<Line, ExprStop>
    requires c { IsTrue (is_lawful c.now) }
    requires funs { length scope.now.funs < 2 ^ 32 }
    ensures ty { ExprGives (λ r. r.ty) result (shape_typing scope.now.funs scope.now.names (form.Switchs c.now)) }
    ensures stands { IfOk result (λ r. r.shape ≡ line_shape [] (here scope.now []) (form.Switchs c.now)) }
{
    let at = c.at;
    let (c, ty) = operand(alloc, scope, c)?;
    let a = held_stream_item(ty.into_inner(), at)?;
    Ok(Line {
        ty: Ty::Stream(a),
        shape: LineShape::Switchs { c },
    })
}

/// The cell that a cell holds.
fn switchc(alloc: Global, scope: &Scope, c: &Raw) -> Result<Line, ExprStop>
    requires c { IsTrue (is_lawful c.now) }
    requires funs { length scope.now.funs < 2 ^ 32 }
    ensures ty { ExprGives (λ r. r.ty) result (shape_typing scope.now.funs scope.now.names (form.Switchc c.now)) }
    ensures stands { IfOk result (λ r. r.shape ≡ line_shape [] (here scope.now []) (form.Switchc c.now)) }
{
    let at = c.at;
    let (c, ty) = operand(alloc, scope, c)?;
    let a = held_cell_item(ty.into_inner(), at)?;
    Ok(Line {
        ty: Ty::Cell(a),
        shape: LineShape::Switchc { c },
    })
}

/// A stream that never fires.
fn never(alloc: Global, ty: &RawTy) -> Result<Line, ExprStop>
    ensures ty { ExprGives (λ r. r.ty) result (type_written ty.now >>! λ a. Ok (t.Stream a)) }
    ensures stands { IfOk result (λ r. r.shape ≡ line.Never) }
{
    let a = boxed_type(alloc, ty)?;
    Ok(Line {
        ty: Ty::Stream(a),
        shape: LineShape::Never,
    })
}

/// A loop of a stream, which is tied to itself until its tie comes.
fn stream_loop(alloc: Global, scope: &Scope, ty: &RawTy) -> Result<Line, ExprStop>
    ensures ty { ExprGives (λ r. r.ty) result (type_written ty.now >>! λ a. Ok (t.Stream a)) }
    ensures stands { IfOk result (λ r. r.shape ≡ line.Loop (length scope.now.names)) }
{
    let a = boxed_type(alloc, ty)?;
    let to = scope.names.as_slice().len() as u64;
    Ok(Line {
        ty: Ty::Stream(a),
        shape: LineShape::Loop { to },
    })
}

/// A loop of a cell, which is tied to itself until its tie comes.
fn cell_loop(alloc: Global, scope: &Scope, ty: &RawTy) -> Result<Line, ExprStop>
    ensures ty { ExprGives (λ r. r.ty) result (type_written ty.now >>! λ a. Ok (t.Cell a)) }
    ensures stands { IfOk result (λ r. r.shape ≡ line.Loop (length scope.now.names)) }
{
    let a = boxed_type(alloc, ty)?;
    let to = scope.names.as_slice().len() as u64;
    Ok(Line {
        ty: Ty::Cell(a),
        shape: LineShape::Loop { to },
    })
}

/// An instance of a template at each occurrence. No template is declared yet.
fn execute(alloc: Global, scope: &Scope, s: &Raw, template: &Spot) -> Result<Line, ExprStop>
    requires s { IsTrue (is_lawful s.now) }
    requires funs { length scope.now.funs < 2 ^ 32 }
    ensures ty { ExprGives (λ r. r.ty) result (operand_seen scope.now.funs scope.now.names stream_item s.now >>! λ _. Err (record { place = template.now.at; kind = TypeKind.Unknown })) }
    ensures stands { IsErr result }
{
    let _ = stream(alloc, scope, s)?;
    stop(template.at, TypeKind::Unknown)
}

/// A core shape's type and its line; its expression, where it has one, becomes the next of the program.
pub fn shape_line(
    alloc: Global,
    scope: &mut Scope,
    codes: &mut Seq<Expr>,
    shape: &ShapeForm,
) -> Result<Line, ExprStop>
    requires core { IsTrue (is_core_shape shape.now) }
    requires funs { length scope.old.funs < 2 ^ 32 }
    requires codes { length codes.old < 2 ^ 32 }
    ensures ty { ExprGives (λ r. r.ty) result (shape_typing scope.old.funs scope.old.names shape.now) }
    ensures stands { IfOk result (λ r. r.shape ≡ line_shape [] (here scope.old codes.old) shape.now) }
    ensures codes { OnOk result (codes.new ≡ codes.old ++ code_in (here scope.old codes.old) (lam_in shape.now)) }
    ensures scope { OnOk result (scope.new ≡ scope.old) }
{
    match shape {
        ShapeForm::Never { ty } => never(alloc, ty.get()),
        ShapeForm::Constant { o } => constant(alloc, scope, o.get()),
        ShapeForm::Map { x, s, e } => map(alloc, scope, codes, x, s.get(), e.get()),
        ShapeForm::Mapc { x, c, e } => mapc(alloc, scope, codes, x, c.get(), e.get()),
        ShapeForm::Filter { x, s, e } => filter(alloc, scope, codes, x, s.get(), e.get()),
        ShapeForm::Merge { x, y, a, b, e } => merge(
            alloc,
            scope,
            codes,
            x,
            y,
            a.get(),
            b.get(),
            e.get(),
        ),
        ShapeForm::Snapshot { x, y, s, c, e } => snapshot(
            alloc,
            scope,
            codes,
            x,
            y,
            s.get(),
            c.get(),
            e.get(),
        ),
        ShapeForm::Split { s } => split(alloc, scope, s.get()),
        ShapeForm::Updates { c } => updates(alloc, scope, c.get()),
        ShapeForm::Value { c } => value(alloc, scope, c.get()),
        ShapeForm::Loops { ty } => stream_loop(alloc, scope, ty.get()),
        ShapeForm::Loopc { ty } => cell_loop(alloc, scope, ty.get()),
        ShapeForm::Hold { o, s } => hold(alloc, scope, o.get(), s.get()),
        ShapeForm::Apply { cf, ca } => apply(alloc, scope, cf.get(), ca.get()),
        ShapeForm::Switchs { c } => switchs(alloc, scope, c.get()),
        ShapeForm::Switchc { c } => switchc(alloc, scope, c.get()),
        ShapeForm::Execute { s, template, .. } => execute(alloc, scope, s.get(), template),
        _ => unreachable!(),
    }
}
