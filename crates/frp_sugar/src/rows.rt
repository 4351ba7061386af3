//! The core items of each derived form: a function for each row of the table.

ghost use Rattle.std.specs.Prelude.{◌≡◌, ◌+◌, [], ◌∷◌, ◌++◌, false, true, map, IfOk, OnOk};
ghost use Rattle.frp_file.specs.declared.file.Decl.TheVariants as decl;
ghost use Rattle.frp_file.specs.declared.file.ShapeForm.TheVariants as shape;
ghost use Rattle.frp_sugar.specs.Made as made;
ghost use Rattle.frp_sugar.specs.Shapes as spec;
ghost use Rattle.frp_sugar.specs.Table.{let_items, shape_functions};

use crate::made::{
    bool, close, first, hidden_function, hidden_item, list, moved, pair, second, the, variable,
};
use crate::site::Site;
use frp_base::{Boxed, Memory, Seq};
use frp_expr::{Raw, RawTy, Spot};
use frp_file::{Decl, Function, Item, ItemForm, Param, RawShape, ShapeForm};
use std::alloc::Global;

/// The name of the form's first hidden item, or of the one so many after it.
fn hidden(alloc: Global, k: Site, past: u64) -> Result<Spot, Memory>
    ensures { IfOk result (λ s. s ≡ made.spot k.form (made.hidden_item (k.items + past))) }
{
    hidden_item(alloc, k.form, k.items, past)
}

/// The form's first hidden item as an expression, or the one so many after it.
fn the_hidden(alloc: Global, k: Site, past: u64) -> Result<Boxed<Raw>, Memory>
    ensures { IfOk result (λ r. r ≡ made.name k.form (made.hidden_item (k.items + past))) }
{
    let name = hidden(alloc, k, past)?;
    the(alloc, k.form, &name)
}

/// Adds the item `(let name form)`.
pub fn bind(
    alloc: Global,
    k: Site,
    name: Spot,
    form: ShapeForm,
    out: &mut Seq<Item>,
) -> Result<(), Memory>
    ensures { OnOk result (out.new ≡ out.old ++ made.bound k.item k.form name form ∷ []) }
{
    let shape = Boxed::new(alloc, RawShape { at: k.form, form })?;
    out.add(Item {
        at: k.item,
        form: ItemForm::Let { name, shape },
    })
}

/// Adds the item that ties a loop to what this name stands for.
fn tie(k: Site, from: Spot, to: &Spot, out: &mut Seq<Item>) -> Result<(), Memory>
    ensures { OnOk result (out.new ≡ out.old ++ made.tied k.item k.form from to.now ∷ []) }
{
    let to = moved(k.form, to)?;
    out.add(Item {
        at: k.item,
        form: ItemForm::Tie { from, to },
    })
}

/// Adds the pairs of a stream's occurrences and a cell's values.
fn pairs(
    alloc: Global,
    k: Site,
    name: Spot,
    s: Boxed<Raw>,
    c: Boxed<Raw>,
    out: &mut Seq<Item>,
) -> Result<(), Memory>
    ensures { OnOk result (out.new ≡ out.old ++ made.bound k.item k.form name (spec.pairs k.form s c) ∷ []) }
{
    let x = variable(alloc, k.form, "%u")?;
    let y = variable(alloc, k.form, "%v")?;
    let e = pair(alloc, k.form, &x, &y)?;
    let form = ShapeForm::Snapshot { x, y, s, c, e };
    bind(alloc, k, name, form, out)
}

/// Adds those pairs of a stream whose second part is true.
fn passing(
    alloc: Global,
    k: Site,
    name: Spot,
    s: Boxed<Raw>,
    out: &mut Seq<Item>,
) -> Result<(), Memory>
    ensures { OnOk result (out.new ≡ out.old ++ made.bound k.item k.form name (spec.passing k.form s) ∷ []) }
{
    let x = variable(alloc, k.form, "%w")?;
    let e = second(alloc, k.form, &x)?;
    let form = ShapeForm::Filter { x, s, e };
    bind(alloc, k, name, form, out)
}

/// Adds the first parts of a stream of pairs.
fn firsts(
    alloc: Global,
    k: Site,
    name: Spot,
    s: Boxed<Raw>,
    out: &mut Seq<Item>,
) -> Result<(), Memory>
    ensures { OnOk result (out.new ≡ out.old ++ made.bound k.item k.form name (spec.firsts k.form s) ∷ []) }
{
    let x = variable(alloc, k.form, "%w")?;
    let e = first(alloc, k.form, &x)?;
    let form = ShapeForm::Map { x, s, e };
    bind(alloc, k, name, form, out)
}

/// Adds the second parts of a stream of pairs.
fn seconds(
    alloc: Global,
    k: Site,
    name: Spot,
    s: Boxed<Raw>,
    out: &mut Seq<Item>,
) -> Result<(), Memory>
    ensures { OnOk result (out.new ≡ out.old ++ made.bound k.item k.form name (spec.seconds k.form s) ∷ []) }
{
    let x = variable(alloc, k.form, "%w")?;
    let e = second(alloc, k.form, &x)?;
    let form = ShapeForm::Map { x, s, e };
    bind(alloc, k, name, form, out)
}

/// Adds a loop that is a cell.
fn loopc(alloc: Global, k: Site, name: Spot, ty: &RawTy, out: &mut Seq<Item>) -> Result<(), Memory>
    ensures { OnOk result (out.new ≡ out.old ++ made.bound k.item k.form name (shape.Loopc ty.now) ∷ []) }
{
    let ty = ty.boxed(alloc)?;
    let form = ShapeForm::Loopc { ty };
    bind(alloc, k, name, form, out)
}

/// Adds a cell of what a stream gave last, and of a value before.
fn hold(
    alloc: Global,
    k: Site,
    name: Spot,
    o: Boxed<Raw>,
    s: Boxed<Raw>,
    out: &mut Seq<Item>,
) -> Result<(), Memory>
    ensures { OnOk result (out.new ≡ out.old ++ made.bound k.item k.form name (shape.Hold o s) ∷ []) }
{
    let form = ShapeForm::Hold { o, s };
    bind(alloc, k, name, form, out)
}

/// What a step of `accum` or `collect` makes of an occurrence and the state.
#[derive(Clone, Copy)]
pub struct Step<'a> {
    pub x: &'a Spot,
    pub y: &'a Spot,
    pub s: &'a Raw,
    pub e: &'a Raw,
}

/// Adds what the steps make of a stream's occurrences and the state, which is the form's first hidden item.
fn steps(alloc: Global, k: Site, name: Spot, step: &Step, out: &mut Seq<Item>) -> Result<(), Memory>
    ensures { OnOk result (out.new ≡ out.old ++ made.bound k.item k.form name (shape.Snapshot step.now.x.now step.now.y.now step.now.s.now (made.name k.form (made.hidden_item k.items)) step.now.e.now) ∷ []) }
{
    let x = step.x.copy()?;
    let y = step.y.copy()?;
    let s = step.s.boxed(alloc)?;
    let c = the_hidden(alloc, k, 0)?;
    let e = step.e.boxed(alloc)?;
    let form = ShapeForm::Snapshot { x, y, s, c, e };
    bind(alloc, k, name, form, out)
}

/// `(orelse a b)`: where both streams occur, what the left one gives.
pub fn orelse(
    alloc: Global,
    k: Site,
    x: &Spot,
    a: &Raw,
    b: &Raw,
    out: &mut Seq<Item>,
) -> Result<(), Memory>
    ensures { OnOk result (out.new ≡ out.old ++ let_items k.item x.now k.form k.items k.functions (shape.Orelse a.now b.now)) }
{
    let u = variable(alloc, k.form, "%u")?;
    let v = variable(alloc, k.form, "%v")?;
    let a = a.boxed(alloc)?;
    let b = b.boxed(alloc)?;
    let e = the(alloc, k.form, &u)?;
    let name = x.copy()?;
    let form = ShapeForm::Merge {
        x: u,
        y: v,
        a,
        b,
        e,
    };
    bind(alloc, k, name, form, out)
}

/// Adds what a stream gives while a cell is true, under two hidden names and that of the item.
fn gated(
    alloc: Global,
    k: Site,
    x: &Spot,
    a: &Spot,
    b: &Spot,
    s: Boxed<Raw>,
    c: Boxed<Raw>,
    out: &mut Seq<Item>,
) -> Result<(), Memory>
    ensures { OnOk result (out.new ≡ out.old ++ made.bound k.item k.form a.now (spec.pairs k.form s c) ∷ made.bound k.item k.form b.now (spec.passing k.form (made.name k.form a.now.text)) ∷ made.bound k.item k.form x.now (spec.firsts k.form (made.name k.form b.now.text)) ∷ []) }
{
    pairs(alloc, k, a.copy()?, s, c, out)?;
    passing(alloc, k, b.copy()?, the(alloc, k.form, a)?, out)?;
    firsts(alloc, k, x.copy()?, the(alloc, k.form, b)?, out)
}

/// `(gate s c)`: what s gives while c is true.
pub fn gate(
    alloc: Global,
    k: Site,
    x: &Spot,
    s: &Raw,
    c: &Raw,
    out: &mut Seq<Item>,
) -> Result<(), Memory>
    ensures { OnOk result (out.new ≡ out.old ++ let_items k.item x.now k.form k.items k.functions (shape.Gate s.now c.now)) }
{
    let s = s.boxed(alloc)?;
    let c = c.boxed(alloc)?;
    let a = hidden(alloc, k, 0)?;
    let b = hidden(alloc, k, 1)?;
    gated(alloc, k, x, &a, &b, s, c, out)
}

/// Adds an item that gives false whenever a stream occurs.
fn falses(alloc: Global, k: Site, name: Spot, s: &Raw, out: &mut Seq<Item>) -> Result<(), Memory>
    ensures { OnOk result (out.new ≡ out.old ++ made.bound k.item k.form name (shape.Map (made.u k.form) s.now (made.bool k.form false)) ∷ []) }
{
    let x = variable(alloc, k.form, "%u")?;
    let s = s.boxed(alloc)?;
    let e = bool(alloc, k.form, false)?;
    let form = ShapeForm::Map { x, s, e };
    bind(alloc, k, name, form, out)
}

/// Adds a cell that is true until a stream occurs.
fn unused(alloc: Global, k: Site, s: &Raw, out: &mut Seq<Item>) -> Result<(), Memory>
    ensures { OnOk result (out.new ≡ out.old ++ made.bound k.item k.form (made.spot k.form (made.hidden_item k.items)) (shape.Map (made.u k.form) s.now (made.bool k.form false)) ∷ made.bound k.item k.form (made.spot k.form (made.hidden_item (k.items + 1))) (shape.Hold (made.bool k.form true) (made.name k.form (made.hidden_item k.items))) ∷ []) }
{
    falses(alloc, k, hidden(alloc, k, 0)?, s, out)?;
    let name = hidden(alloc, k, 1)?;
    let o = bool(alloc, k.form, true)?;
    let s = the_hidden(alloc, k, 0)?;
    hold(alloc, k, name, o, s, out)
}

/// `(once s)`: what s gives first.
pub fn once(alloc: Global, k: Site, x: &Spot, s: &Raw, out: &mut Seq<Item>) -> Result<(), Memory>
    ensures { OnOk result (out.new ≡ out.old ++ let_items k.item x.now k.form k.items k.functions (shape.Once s.now)) }
{
    unused(alloc, k, s, out)?;
    let s = s.boxed(alloc)?;
    let c = the_hidden(alloc, k, 1)?;
    let a = hidden(alloc, k, 2)?;
    let b = hidden(alloc, k, 3)?;
    gated(alloc, k, x, &a, &b, s, c, out)
}

/// Adds the loop of the state, and what the steps make of a stream's occurrences and the state.
fn stepped(
    alloc: Global,
    k: Site,
    ty: &RawTy,
    step: &Step,
    out: &mut Seq<Item>,
) -> Result<(), Memory>
    ensures { OnOk result (out.new ≡ out.old ++ made.bound k.item k.form (made.spot k.form (made.hidden_item k.items)) (shape.Loopc ty.now) ∷ made.bound k.item k.form (made.spot k.form (made.hidden_item (k.items + 1))) (shape.Snapshot step.now.x.now step.now.y.now step.now.s.now (made.name k.form (made.hidden_item k.items)) step.now.e.now) ∷ []) }
{
    loopc(alloc, k, hidden(alloc, k, 0)?, ty, out)?;
    steps(alloc, k, hidden(alloc, k, 1)?, step, out)
}

/// Adds the cell of the second parts of what the steps give, and of a value before.
fn states(alloc: Global, k: Site, o: &Raw, out: &mut Seq<Item>) -> Result<(), Memory>
    ensures { OnOk result (out.new ≡ out.old ++ made.bound k.item k.form (made.spot k.form (made.hidden_item (k.items + 2))) (spec.seconds k.form (made.name k.form (made.hidden_item (k.items + 1)))) ∷ made.bound k.item k.form (made.spot k.form (made.hidden_item (k.items + 3))) (shape.Hold o.now (made.name k.form (made.hidden_item (k.items + 2)))) ∷ []) }
{
    seconds(
        alloc,
        k,
        hidden(alloc, k, 2)?,
        the_hidden(alloc, k, 1)?,
        out,
    )?;
    let name = hidden(alloc, k, 3)?;
    let o = o.boxed(alloc)?;
    let s = the_hidden(alloc, k, 2)?;
    hold(alloc, k, name, o, s, out)
}

/// `accum`: a cell of the state.
pub fn accum(
    alloc: Global,
    k: Site,
    x: &Spot,
    ty: &RawTy,
    step: &Step,
    o: &Raw,
    out: &mut Seq<Item>,
) -> Result<(), Memory>
    ensures { OnOk result (out.new ≡ out.old ++ let_items k.item x.now k.form k.items k.functions (shape.Accum ty.now step.now.x.now step.now.y.now step.now.s.now o.now step.now.e.now)) }
{
    stepped(alloc, k, ty, step, out)?;
    hold(
        alloc,
        k,
        x.copy()?,
        o.boxed(alloc)?,
        the_hidden(alloc, k, 1)?,
        out,
    )?;
    tie(k, hidden(alloc, k, 0)?, x, out)
}

/// `collect`: a stream of the first parts of what the steps give; the second parts are the state.
pub fn collect(
    alloc: Global,
    k: Site,
    x: &Spot,
    ty: &RawTy,
    step: &Step,
    o: &Raw,
    out: &mut Seq<Item>,
) -> Result<(), Memory>
    ensures { OnOk result (out.new ≡ out.old ++ let_items k.item x.now k.form k.items k.functions (shape.Collect ty.now step.now.x.now step.now.y.now step.now.s.now o.now step.now.e.now)) }
{
    stepped(alloc, k, ty, step, out)?;
    states(alloc, k, o, out)?;
    firsts(alloc, k, x.copy()?, the_hidden(alloc, k, 1)?, out)?;
    let state = hidden(alloc, k, 3)?;
    tie(k, hidden(alloc, k, 0)?, &state, out)
}

/// Adds the cell of a form's hidden function, closed over the values of a cell.
fn closures(
    alloc: Global,
    k: Site,
    name: Spot,
    y: &Spot,
    ca: &Raw,
    out: &mut Seq<Item>,
) -> Result<(), Memory>
    ensures { OnOk result (out.new ≡ out.old ++ made.bound k.item k.form name (shape.Mapc y.now ca.now (made.close k.form (made.hidden_function k.functions) (made.name k.form y.now.text))) ∷ []) }
{
    let function = hidden_function(alloc, k.form, k.functions)?;
    let e = close(alloc, k.form, function, y)?;
    let x = y.copy()?;
    let c = ca.boxed(alloc)?;
    let form = ShapeForm::Mapc { x, c, e };
    bind(alloc, k, name, form, out)
}

/// The parts of `lift2`: the names of the values of two cells, the cells, and the expression over the names.
#[derive(Clone, Copy)]
pub struct Lift<'a> {
    pub x: &'a Param,
    pub y: &'a Param,
    pub ca: &'a Raw,
    pub cb: &'a Raw,
    pub e: &'a Raw,
}

/// `lift2`: a cell of what the form's hidden function makes of the values of two cells.
pub fn lift2(
    alloc: Global,
    k: Site,
    x: &Spot,
    lift: &Lift,
    out: &mut Seq<Item>,
) -> Result<(), Memory>
    ensures { OnOk result (out.new ≡ out.old ++ let_items k.item x.now k.form k.items k.functions (shape.Lift2 lift.now.x.now lift.now.y.now lift.now.ca.now lift.now.cb.now lift.now.e.now)) }
{
    closures(alloc, k, hidden(alloc, k, 0)?, &lift.x.name, lift.ca, out)?;
    let name = x.copy()?;
    let cf = the_hidden(alloc, k, 0)?;
    let ca = lift.cb.boxed(alloc)?;
    let form = ShapeForm::Apply { cf, ca };
    bind(alloc, k, name, form, out)
}

/// Adds the hidden function of `lift2`.
pub fn lifted(alloc: Global, k: Site, lift: &Lift, out: &mut Seq<Decl>) -> Result<(), Memory>
    ensures { OnOk result (out.new ≡ out.old ++ map decl.Function (shape_functions k.form k.functions (shape.Lift2 lift.now.x.now lift.now.y.now lift.now.ca.now lift.now.cb.now lift.now.e.now))) }
{
    let name = hidden_function(alloc, k.form, k.functions)?;
    let mut kept = Seq::new(alloc);
    let x = lift.x.boxed(alloc)?;
    kept.add(x.into_inner())?;
    let y = lift.y.boxed(alloc)?;
    let e = lift.e.boxed(alloc)?;
    out.add(Decl::Function(Function {
        at: k.form,
        name,
        kept,
        arg: y,
        e,
    }))
}

/// `(defer s)`: what s gives, as the one item of a list that is split.
pub fn defer(alloc: Global, k: Site, x: &Spot, s: &Raw, out: &mut Seq<Item>) -> Result<(), Memory>
    ensures { OnOk result (out.new ≡ out.old ++ let_items k.item x.now k.form k.items k.functions (shape.Defer s.now)) }
{
    let name = hidden(alloc, k, 0)?;
    let u = variable(alloc, k.form, "%u")?;
    let s = s.boxed(alloc)?;
    let e = list(alloc, k.form, &u)?;
    let form = ShapeForm::Map { x: u, s, e };
    bind(alloc, k, name, form, out)?;
    let name = x.copy()?;
    let s = the_hidden(alloc, k, 0)?;
    bind(alloc, k, name, ShapeForm::Split { s }, out)
}
