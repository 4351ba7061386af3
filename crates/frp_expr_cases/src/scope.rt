//! The scope of the cases, and its values.

use frp_base::{Boxed, Memory, Name, Seq, Text, Ty, Val};
use frp_expr::Scope;
use std::alloc::Global;

/// How many items `k` has.
const ITEMS: u64 = 1023;

/// How many bytes `w` has.
const BYTES: u64 = 1024;

/// A scope, and a value for each of its names.
#[derive(Drop)]
pub struct Setting {
    pub scope: Scope,
    pub values: Seq<Val>,
}

/// The scope of the cases. Its names are:
///
/// - 0 `a`, an Int, 10
/// - 1 `b`, a Bool, true
/// - 2 `t`, a Text, "ab"
/// - 3 `p`, a (Pair Int Text), (pair 1 "x")
/// - 4 `l`, a (List Int), (list 4 5)
/// - 5 `s`, a (Stream Int), (stream #1)
/// - 6 `c`, a (Cell Bool), (cell #2)
/// - 7 `f`, a (Fun Int Bool), (fun 1)
/// - 8 `n`, an Int, 8, which the next hides
/// - 9 `n`, a Bool, false
/// - 10 `m`, a (List Text), (list "u")
/// - 11 `k`, a (List Int), 1,023 items 1
/// - 12 `w`, a Text, 1,024 bytes `a`
///
/// Its functions are:
///
/// - 0 `f`, with kept Int and Text, from Bool to Text
/// - 1 `g`, with nothing kept, from Int to Bool
/// - 2 `h`, with kept (List Int) and (Stream Int), from Int to (Pair Int Bool)
pub fn make_setting(alloc: Global) -> Result<Setting, Memory> {
    let mut names = Seq::new(alloc);
    add_plain_names(alloc, &mut names)?;
    add_more_names(alloc, &mut names)?;
    let mut values = Seq::new(alloc);
    add_plain_values(alloc, &mut values)?;
    add_more_values(alloc, &mut values)?;
    let scope = Scope {
        names,
        funs: funs(alloc)?,
    };
    Ok(Setting { scope, values })
}

/// Adds names 0 to 4.
fn add_plain_names(alloc: Global, names: &mut Seq<(Text, Ty)>) -> Result<(), Memory> {
    add_name(alloc, names, "a", Ty::Int)?;
    add_name(alloc, names, "b", Ty::Bool)?;
    add_name(alloc, names, "t", Ty::Text)?;
    let pair = Ty::Pair(Boxed::new(alloc, Ty::Int)?, Boxed::new(alloc, Ty::Text)?);
    add_name(alloc, names, "p", pair)?;
    add_name(alloc, names, "l", list(alloc, Ty::Int)?)
}

/// Adds the other names.
fn add_more_names(alloc: Global, names: &mut Seq<(Text, Ty)>) -> Result<(), Memory> {
    add_name(alloc, names, "s", Ty::Stream(Boxed::new(alloc, Ty::Int)?))?;
    add_name(alloc, names, "c", Ty::Cell(Boxed::new(alloc, Ty::Bool)?))?;
    let fun = Ty::Fun(Boxed::new(alloc, Ty::Int)?, Boxed::new(alloc, Ty::Bool)?);
    add_name(alloc, names, "f", fun)?;
    add_name(alloc, names, "n", Ty::Int)?;
    add_name(alloc, names, "n", Ty::Bool)?;
    add_name(alloc, names, "m", list(alloc, Ty::Text)?)?;
    add_name(alloc, names, "k", list(alloc, Ty::Int)?)?;
    add_name(alloc, names, "w", Ty::Text)
}

/// Adds a name.
fn add_name(alloc: Global, names: &mut Seq<(Text, Ty)>, name: &str, ty: Ty) -> Result<(), Memory> {
    names.add((text(alloc, name, 1)?, ty))
}

/// The type of a list.
fn list(alloc: Global, item: Ty) -> Result<Ty, Memory> {
    Ok(Ty::List(Boxed::new(alloc, item)?))
}

/// The functions.
fn funs(alloc: Global) -> Result<Seq<(Text, Seq<Ty>, Ty, Ty)>, Memory> {
    let mut funs = Seq::new(alloc);
    let mut kept = Seq::new(alloc);
    kept.add(Ty::Int)?;
    kept.add(Ty::Text)?;
    funs.add((text(alloc, "f", 1)?, kept, Ty::Bool, Ty::Text))?;
    let kept = Seq::new(alloc);
    funs.add((text(alloc, "g", 1)?, kept, Ty::Int, Ty::Bool))?;
    let mut kept = Seq::new(alloc);
    kept.add(list(alloc, Ty::Int)?)?;
    kept.add(Ty::Stream(Boxed::new(alloc, Ty::Int)?))?;
    let pair = Ty::Pair(Boxed::new(alloc, Ty::Int)?, Boxed::new(alloc, Ty::Bool)?);
    funs.add((text(alloc, "h", 1)?, kept, Ty::Int, pair))?;
    Ok(funs)
}

/// Adds the values of names 0 to 4.
fn add_plain_values(alloc: Global, values: &mut Seq<Val>) -> Result<(), Memory> {
    values.add(Val::Int(10))?;
    values.add(Val::Bool(true))?;
    values.add(Val::Text(text(alloc, "ab", 1)?))?;
    let x = Val::Text(text(alloc, "x", 1)?);
    values.add(Val::Pair(Boxed::new(alloc, Val::Int(1))?, Boxed::new(alloc, x)?))?;
    let mut items = Seq::new(alloc);
    items.add(Val::Int(4))?;
    items.add(Val::Int(5))?;
    values.add(Val::List(items))
}

/// Adds the values of the other names.
fn add_more_values(alloc: Global, values: &mut Seq<Val>) -> Result<(), Memory> {
    values.add(Val::Stream(Name::declared(alloc, 1)?))?;
    values.add(Val::Cell(Name::declared(alloc, 2)?))?;
    values.add(Val::Fun(1, Seq::new(alloc)))?;
    values.add(Val::Int(8))?;
    values.add(Val::Bool(false))?;
    let mut items = Seq::new(alloc);
    items.add(Val::Text(text(alloc, "u", 1)?))?;
    values.add(Val::List(items))?;
    let mut items = Seq::new(alloc);
    for _ in 0..ITEMS {
        items.add(Val::Int(1))?;
    }
    values.add(Val::List(items))?;
    values.add(Val::Text(text(alloc, "a", BYTES)?))
}

/// The text of these characters some times over.
fn text(alloc: Global, chars: &str, times: u64) -> Result<Text, Memory> {
    let mut text = Text::new(alloc);
    for _ in 0..times {
        text.push_str(chars)?;
    }
    Ok(text)
}
