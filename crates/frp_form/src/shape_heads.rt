//! The words that shapes begin with.

ghost use Rattle.std.specs.Prelude.{◌≡◌};
ghost use Rattle.frp_form.specs.ShapeHeads as spec;

use frp_base::Boxed;
use frp_expr::{Raw, RawTy, Spot};
use frp_file::ShapeForm;

/// The head of a shape that has a type alone.
#[derive(Clone, Copy)]
pub enum TyShape {
    Never,
    Loops,
    Loopc,
}

/// The head of a shape of one operand.
#[derive(Clone, Copy)]
pub enum UnaryShape {
    Constant,
    Split,
    Updates,
    Value,
    Switchs,
    Switchc,
    Once,
    Defer,
}

/// The head of a shape of two operands.
#[derive(Clone, Copy)]
pub enum BinaryShape {
    Hold,
    Apply,
    Orelse,
    Gate,
}

/// The head of a shape of one operand and an expression over its value.
#[derive(Clone, Copy)]
pub enum MapShape {
    Map,
    Mapc,
    Filter,
}

/// The head of a shape of two operands and an expression over their values.
#[derive(Clone, Copy)]
pub enum JoinShape {
    Merge,
    Snapshot,
}

/// The head of a shape that folds a stream's occurrences into a state.
#[derive(Clone, Copy)]
pub enum FoldShape {
    Accum,
    Collect,
}

/// The head of a shape.
#[derive(Clone, Copy)]
pub enum ShapeHead {
    Typed(TyShape),
    Unary(UnaryShape),
    Binary(BinaryShape),
    Mapping(MapShape),
    Joining(JoinShape),
    Folding(FoldShape),
    Lift2,
    Execute,
}

/// What a head word of shapes means.
pub fn shape_head(word: &str) -> Option<ShapeHead>
    ensures { result ≡ spec.shape_head word.now }
{
    if word == "never" {
        Some(ShapeHead::Typed(TyShape::Never))
    } else if word == "loops" {
        Some(ShapeHead::Typed(TyShape::Loops))
    } else if word == "loopc" {
        Some(ShapeHead::Typed(TyShape::Loopc))
    } else {
        unary_shape_head(word)
    }
}

/// What a head word of a shape of one operand or more means.
fn unary_shape_head(word: &str) -> Option<ShapeHead>
    ensures { result ≡ spec.unary_shape_head word.now }
{
    if word == "constant" {
        Some(ShapeHead::Unary(UnaryShape::Constant))
    } else if word == "split" {
        Some(ShapeHead::Unary(UnaryShape::Split))
    } else if word == "updates" {
        Some(ShapeHead::Unary(UnaryShape::Updates))
    } else if word == "value" {
        Some(ShapeHead::Unary(UnaryShape::Value))
    } else if word == "switchs" {
        Some(ShapeHead::Unary(UnaryShape::Switchs))
    } else if word == "switchc" {
        Some(ShapeHead::Unary(UnaryShape::Switchc))
    } else if word == "once" {
        Some(ShapeHead::Unary(UnaryShape::Once))
    } else if word == "defer" {
        Some(ShapeHead::Unary(UnaryShape::Defer))
    } else {
        binary_shape_head(word)
    }
}

/// What a head word of a shape of two operands, or of an expression over values, means.
fn binary_shape_head(word: &str) -> Option<ShapeHead>
    ensures { result ≡ spec.binary_shape_head word.now }
{
    if word == "hold" {
        Some(ShapeHead::Binary(BinaryShape::Hold))
    } else if word == "apply" {
        Some(ShapeHead::Binary(BinaryShape::Apply))
    } else if word == "orelse" {
        Some(ShapeHead::Binary(BinaryShape::Orelse))
    } else if word == "gate" {
        Some(ShapeHead::Binary(BinaryShape::Gate))
    } else {
        other_shape_head(word)
    }
}

/// What a head word of a shape of an expression over values, or of a template, means.
fn other_shape_head(word: &str) -> Option<ShapeHead>
    ensures { result ≡ spec.other_shape_head word.now }
{
    if word == "map" {
        Some(ShapeHead::Mapping(MapShape::Map))
    } else if word == "mapc" {
        Some(ShapeHead::Mapping(MapShape::Mapc))
    } else if word == "filter" {
        Some(ShapeHead::Mapping(MapShape::Filter))
    } else if word == "merge" {
        Some(ShapeHead::Joining(JoinShape::Merge))
    } else if word == "snapshot" {
        Some(ShapeHead::Joining(JoinShape::Snapshot))
    } else if word == "accum" {
        Some(ShapeHead::Folding(FoldShape::Accum))
    } else if word == "collect" {
        Some(ShapeHead::Folding(FoldShape::Collect))
    } else if word == "lift2" {
        Some(ShapeHead::Lift2)
    } else if word == "execute" {
        Some(ShapeHead::Execute)
    } else {
        None
    }
}

/// The shape of this head and these parts.
pub fn typed_shape(op: TyShape, ty: Boxed<RawTy>) -> ShapeForm
    ensures { result ≡ spec.typed_shape op ty }
{
    match op {
        TyShape::Never => ShapeForm::Never { ty },
        TyShape::Loops => ShapeForm::Loops { ty },
        TyShape::Loopc => ShapeForm::Loopc { ty },
    }
}

/// The shape of this head and these parts.
pub fn unary_shape(op: UnaryShape, a: Boxed<Raw>) -> ShapeForm
    ensures { result ≡ spec.unary_shape op a }
{
    match op {
        UnaryShape::Constant => ShapeForm::Constant { o: a },
        UnaryShape::Split => ShapeForm::Split { s: a },
        UnaryShape::Updates => ShapeForm::Updates { c: a },
        UnaryShape::Value => ShapeForm::Value { c: a },
        UnaryShape::Switchs => ShapeForm::Switchs { c: a },
        UnaryShape::Switchc => ShapeForm::Switchc { c: a },
        UnaryShape::Once => ShapeForm::Once { s: a },
        UnaryShape::Defer => ShapeForm::Defer { s: a },
    }
}

/// The shape of this head and these parts.
pub fn binary_shape(op: BinaryShape, a: Boxed<Raw>, b: Boxed<Raw>) -> ShapeForm
    ensures { result ≡ spec.binary_shape op a b }
{
    match op {
        BinaryShape::Hold => ShapeForm::Hold { o: a, s: b },
        BinaryShape::Apply => ShapeForm::Apply { cf: a, ca: b },
        BinaryShape::Orelse => ShapeForm::Orelse { a, b },
        BinaryShape::Gate => ShapeForm::Gate { s: a, c: b },
    }
}

/// The shape of this head and these parts.
pub fn map_shape(op: MapShape, x: Spot, a: Boxed<Raw>, e: Boxed<Raw>) -> ShapeForm
    ensures { result ≡ spec.map_shape op x a e }
{
    match op {
        MapShape::Map => ShapeForm::Map { x, s: a, e },
        MapShape::Mapc => ShapeForm::Mapc { x, c: a, e },
        MapShape::Filter => ShapeForm::Filter { x, s: a, e },
    }
}

/// The shape of this head and these parts.
pub fn join_shape(
    op: JoinShape,
    x: Spot,
    y: Spot,
    a: Boxed<Raw>,
    b: Boxed<Raw>,
    e: Boxed<Raw>,
) -> ShapeForm
    ensures { result ≡ spec.join_shape op x y a b e }
{
    match op {
        JoinShape::Merge => ShapeForm::Merge { x, y, a, b, e },
        JoinShape::Snapshot => ShapeForm::Snapshot {
            x,
            y,
            s: a,
            c: b,
            e,
        },
    }
}

/// The shape of this head and these parts.
pub fn fold_shape(
    op: FoldShape,
    ty: Boxed<RawTy>,
    x: Spot,
    y: Spot,
    s: Boxed<Raw>,
    o: Boxed<Raw>,
    e: Boxed<Raw>,
) -> ShapeForm
    ensures { result ≡ spec.fold_shape op ty x y s o e }
{
    match op {
        FoldShape::Accum => ShapeForm::Accum { ty, x, y, s, o, e },
        FoldShape::Collect => ShapeForm::Collect { ty, x, y, s, o, e },
    }
}
