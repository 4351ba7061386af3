//! Copies of shapes.

ghost use Rattle.std.specs.Prelude.{◌≡◌, IfOk};
ghost use Rattle.frp_file.specs.declared.file.ShapeForm.TheVariants as shape;

use crate::file::{Param, ShapeForm};
use frp_base::Memory;
use frp_expr::{Raw, RawTy, Spot, copy_raws};
use std::alloc::Global;

/// A shape's form equal to this one, with its places.
pub fn copy_form(alloc: Global, form: &ShapeForm) -> Result<ShapeForm, Memory>
    ensures { IfOk result (λ f. f ≡ form.now) }
{
    match form {
        ShapeForm::Never { ty } => copy_never(alloc, ty.get()),
        ShapeForm::Constant { o } => copy_constant(alloc, o.get()),
        ShapeForm::Map { x, s, e } => copy_map(alloc, x, s.get(), e.get()),
        ShapeForm::Mapc { x, c, e } => copy_mapc(alloc, x, c.get(), e.get()),
        ShapeForm::Filter { x, s, e } => copy_filter(alloc, x, s.get(), e.get()),
        ShapeForm::Merge { x, y, a, b, e } => copy_merge(alloc, x, y, a.get(), b.get(), e.get()),
        ShapeForm::Snapshot { x, y, s, c, e } => copy_snapshot(
            alloc,
            x,
            y,
            s.get(),
            c.get(),
            e.get(),
        ),
        ShapeForm::Split { s } => copy_split(alloc, s.get()),
        ShapeForm::Updates { c } => copy_updates(alloc, c.get()),
        ShapeForm::Value { c } => copy_value(alloc, c.get()),
        ShapeForm::Loops { ty } => copy_loops(alloc, ty.get()),
        ShapeForm::Loopc { ty } => copy_loopc(alloc, ty.get()),
        ShapeForm::Hold { o, s } => copy_hold(alloc, o.get(), s.get()),
        ShapeForm::Apply { cf, ca } => copy_apply(alloc, cf.get(), ca.get()),
        ShapeForm::Switchs { c } => copy_switchs(alloc, c.get()),
        ShapeForm::Switchc { c } => copy_switchc(alloc, c.get()),
        ShapeForm::Execute { s, template, kept } => copy_execute(
            alloc,
            s.get(),
            template,
            kept.as_slice(),
        ),
        ShapeForm::Orelse { a, b } => copy_orelse(alloc, a.get(), b.get()),
        ShapeForm::Gate { s, c } => copy_gate(alloc, s.get(), c.get()),
        ShapeForm::Once { s } => copy_once(alloc, s.get()),
        ShapeForm::Accum { ty, x, y, s, o, e } => copy_accum(
            alloc,
            ty.get(),
            x,
            y,
            s.get(),
            o.get(),
            e.get(),
        ),
        ShapeForm::Collect { ty, x, y, s, o, e } => copy_collect(
            alloc,
            ty.get(),
            x,
            y,
            s.get(),
            o.get(),
            e.get(),
        ),
        ShapeForm::Lift2 { x, y, ca, cb, e } => copy_lift2(
            alloc,
            x.get(),
            y.get(),
            ca.get(),
            cb.get(),
            e.get(),
        ),
        ShapeForm::Defer { s } => copy_defer(alloc, s.get()),
    }
}

/// A copy of a stream that never fires.
fn copy_never(alloc: Global, ty: &RawTy) -> Result<ShapeForm, Memory>
    ensures { IfOk result (λ f. f ≡ shape.Never ty.now) }
{
    let ty = ty.boxed(alloc)?;
    Ok(ShapeForm::Never { ty })
}

/// A copy of a cell that never steps.
fn copy_constant(alloc: Global, o: &Raw) -> Result<ShapeForm, Memory>
    ensures { IfOk result (λ f. f ≡ shape.Constant o.now) }
{
    let o = o.boxed(alloc)?;
    Ok(ShapeForm::Constant { o })
}

/// A copy of a map of a stream.
fn copy_map(alloc: Global, x: &Spot, s: &Raw, e: &Raw) -> Result<ShapeForm, Memory>
    ensures { IfOk result (λ f. f ≡ shape.Map x.now s.now e.now) }
{
    let x = x.copy()?;
    let s = s.boxed(alloc)?;
    let e = e.boxed(alloc)?;
    Ok(ShapeForm::Map { x, s, e })
}

/// A copy of a map of a cell.
fn copy_mapc(alloc: Global, x: &Spot, c: &Raw, e: &Raw) -> Result<ShapeForm, Memory>
    ensures { IfOk result (λ f. f ≡ shape.Mapc x.now c.now e.now) }
{
    let x = x.copy()?;
    let c = c.boxed(alloc)?;
    let e = e.boxed(alloc)?;
    Ok(ShapeForm::Mapc { x, c, e })
}

/// A copy of a filter.
fn copy_filter(alloc: Global, x: &Spot, s: &Raw, e: &Raw) -> Result<ShapeForm, Memory>
    ensures { IfOk result (λ f. f ≡ shape.Filter x.now s.now e.now) }
{
    let x = x.copy()?;
    let s = s.boxed(alloc)?;
    let e = e.boxed(alloc)?;
    Ok(ShapeForm::Filter { x, s, e })
}

/// A copy of a merge.
fn copy_merge(
    alloc: Global,
    x: &Spot,
    y: &Spot,
    a: &Raw,
    b: &Raw,
    e: &Raw,
) -> Result<ShapeForm, Memory>
    ensures { IfOk result (λ f. f ≡ shape.Merge x.now y.now a.now b.now e.now) }
{
    let x = x.copy()?;
    let y = y.copy()?;
    let a = a.boxed(alloc)?;
    let b = b.boxed(alloc)?;
    let e = e.boxed(alloc)?;
    Ok(ShapeForm::Merge { x, y, a, b, e })
}

/// A copy of a snapshot.
fn copy_snapshot(
    alloc: Global,
    x: &Spot,
    y: &Spot,
    s: &Raw,
    c: &Raw,
    e: &Raw,
) -> Result<ShapeForm, Memory>
    ensures { IfOk result (λ f. f ≡ shape.Snapshot x.now y.now s.now c.now e.now) }
{
    let x = x.copy()?;
    let y = y.copy()?;
    let s = s.boxed(alloc)?;
    let c = c.boxed(alloc)?;
    let e = e.boxed(alloc)?;
    Ok(ShapeForm::Snapshot { x, y, s, c, e })
}

/// A copy of a split.
fn copy_split(alloc: Global, s: &Raw) -> Result<ShapeForm, Memory>
    ensures { IfOk result (λ f. f ≡ shape.Split s.now) }
{
    let s = s.boxed(alloc)?;
    Ok(ShapeForm::Split { s })
}

/// A copy of the updates of a cell.
fn copy_updates(alloc: Global, c: &Raw) -> Result<ShapeForm, Memory>
    ensures { IfOk result (λ f. f ≡ shape.Updates c.now) }
{
    let c = c.boxed(alloc)?;
    Ok(ShapeForm::Updates { c })
}

/// A copy of the value of a cell.
fn copy_value(alloc: Global, c: &Raw) -> Result<ShapeForm, Memory>
    ensures { IfOk result (λ f. f ≡ shape.Value c.now) }
{
    let c = c.boxed(alloc)?;
    Ok(ShapeForm::Value { c })
}

/// A copy of a loop of streams.
fn copy_loops(alloc: Global, ty: &RawTy) -> Result<ShapeForm, Memory>
    ensures { IfOk result (λ f. f ≡ shape.Loops ty.now) }
{
    let ty = ty.boxed(alloc)?;
    Ok(ShapeForm::Loops { ty })
}

/// A copy of a loop of cells.
fn copy_loopc(alloc: Global, ty: &RawTy) -> Result<ShapeForm, Memory>
    ensures { IfOk result (λ f. f ≡ shape.Loopc ty.now) }
{
    let ty = ty.boxed(alloc)?;
    Ok(ShapeForm::Loopc { ty })
}

/// A copy of a hold.
fn copy_hold(alloc: Global, o: &Raw, s: &Raw) -> Result<ShapeForm, Memory>
    ensures { IfOk result (λ f. f ≡ shape.Hold o.now s.now) }
{
    let o = o.boxed(alloc)?;
    let s = s.boxed(alloc)?;
    Ok(ShapeForm::Hold { o, s })
}

/// A copy of an application of a cell of functions.
fn copy_apply(alloc: Global, cf: &Raw, ca: &Raw) -> Result<ShapeForm, Memory>
    ensures { IfOk result (λ f. f ≡ shape.Apply cf.now ca.now) }
{
    let cf = cf.boxed(alloc)?;
    let ca = ca.boxed(alloc)?;
    Ok(ShapeForm::Apply { cf, ca })
}

/// A copy of a switch of streams.
fn copy_switchs(alloc: Global, c: &Raw) -> Result<ShapeForm, Memory>
    ensures { IfOk result (λ f. f ≡ shape.Switchs c.now) }
{
    let c = c.boxed(alloc)?;
    Ok(ShapeForm::Switchs { c })
}

/// A copy of a switch of cells.
fn copy_switchc(alloc: Global, c: &Raw) -> Result<ShapeForm, Memory>
    ensures { IfOk result (λ f. f ≡ shape.Switchc c.now) }
{
    let c = c.boxed(alloc)?;
    Ok(ShapeForm::Switchc { c })
}

/// A copy of an execute.
fn copy_execute(alloc: Global, s: &Raw, template: &Spot, kept: &[Raw]) -> Result<ShapeForm, Memory>
    ensures { IfOk result (λ f. f ≡ shape.Execute s.now template.now kept.now) }
{
    let s = s.boxed(alloc)?;
    let template = template.copy()?;
    let kept = copy_raws(alloc, kept)?;
    Ok(ShapeForm::Execute { s, template, kept })
}

/// A copy of an `orelse`.
fn copy_orelse(alloc: Global, a: &Raw, b: &Raw) -> Result<ShapeForm, Memory>
    ensures { IfOk result (λ f. f ≡ shape.Orelse a.now b.now) }
{
    let a = a.boxed(alloc)?;
    let b = b.boxed(alloc)?;
    Ok(ShapeForm::Orelse { a, b })
}

/// A copy of a gate.
fn copy_gate(alloc: Global, s: &Raw, c: &Raw) -> Result<ShapeForm, Memory>
    ensures { IfOk result (λ f. f ≡ shape.Gate s.now c.now) }
{
    let s = s.boxed(alloc)?;
    let c = c.boxed(alloc)?;
    Ok(ShapeForm::Gate { s, c })
}

/// A copy of a `once`.
fn copy_once(alloc: Global, s: &Raw) -> Result<ShapeForm, Memory>
    ensures { IfOk result (λ f. f ≡ shape.Once s.now) }
{
    let s = s.boxed(alloc)?;
    Ok(ShapeForm::Once { s })
}

/// A copy of an accumulation.
fn copy_accum(
    alloc: Global,
    ty: &RawTy,
    x: &Spot,
    y: &Spot,
    s: &Raw,
    o: &Raw,
    e: &Raw,
) -> Result<ShapeForm, Memory>
    ensures { IfOk result (λ f. f ≡ shape.Accum ty.now x.now y.now s.now o.now e.now) }
{
    let ty = ty.boxed(alloc)?;
    let x = x.copy()?;
    let y = y.copy()?;
    let s = s.boxed(alloc)?;
    let o = o.boxed(alloc)?;
    let e = e.boxed(alloc)?;
    Ok(ShapeForm::Accum { ty, x, y, s, o, e })
}

/// A copy of a collection.
fn copy_collect(
    alloc: Global,
    ty: &RawTy,
    x: &Spot,
    y: &Spot,
    s: &Raw,
    o: &Raw,
    e: &Raw,
) -> Result<ShapeForm, Memory>
    ensures { IfOk result (λ f. f ≡ shape.Collect ty.now x.now y.now s.now o.now e.now) }
{
    let ty = ty.boxed(alloc)?;
    let x = x.copy()?;
    let y = y.copy()?;
    let s = s.boxed(alloc)?;
    let o = o.boxed(alloc)?;
    let e = e.boxed(alloc)?;
    Ok(ShapeForm::Collect { ty, x, y, s, o, e })
}

/// A copy of a lift of two cells.
fn copy_lift2(
    alloc: Global,
    x: &Param,
    y: &Param,
    ca: &Raw,
    cb: &Raw,
    e: &Raw,
) -> Result<ShapeForm, Memory>
    ensures { IfOk result (λ f. f ≡ shape.Lift2 x.now y.now ca.now cb.now e.now) }
{
    let x = x.boxed(alloc)?;
    let y = y.boxed(alloc)?;
    let ca = ca.boxed(alloc)?;
    let cb = cb.boxed(alloc)?;
    let e = e.boxed(alloc)?;
    Ok(ShapeForm::Lift2 { x, y, ca, cb, e })
}

/// A copy of a defer.
fn copy_defer(alloc: Global, s: &Raw) -> Result<ShapeForm, Memory>
    ensures { IfOk result (λ f. f ≡ shape.Defer s.now) }
{
    let s = s.boxed(alloc)?;
    Ok(ShapeForm::Defer { s })
}
