ghost use Rattle.std.specs.Prelude.{◌≡◌, Some, IsTrue};
ghost use Rattle.frp_base.specs.Name.{birth};

use crate::line::{Called, Given, Kind, Line};
use frp_base::{Boxed, Memory, Name, Place, Seq, Time, Ty, Val};
use frp_graph::{Body, Lam, Node, Prog, Shape};
use frp_store::Store;
use std::alloc::Global;

/// A store without nodes, of a program without expressions.
pub fn empty(alloc: Global) -> Store {
    Store::new(
        alloc,
        Prog {
            codes: Seq::new(alloc),
            funs: Seq::new(alloc),
            templates: Seq::new(alloc),
            body: Body {
                param: None,
                kept: Seq::new(alloc),
                lines: Seq::new(alloc),
                give: None,
            },
            joins: Seq::new(alloc),
        },
    )
}

/// Does what the lines say, and answers whether each of them could be done. Where no moment is begun, one begins at `[0]`.
/// Nodes are of the types `Stream Int` and `Cell Int`.
pub fn play(alloc: Global, store: &mut Store, lines: &[Line]) -> Result<bool, Memory> {
    if store.begun().is_none() && !begin(store, &Time::top(alloc, 0))? {
        return Ok(false);
    }
    for line in lines {
        if !step(alloc, store, *line)? {
            return Ok(false);
        }
    }
    Ok(true)
}

/// Does what a line says, and answers whether it could be done.
fn step(alloc: Global, store: &mut Store, line: Line) -> Result<bool, Memory> {
    match line {
        Line::Stream(called, kind) => add(store, stream(alloc, called, kind)?),
        Line::Cell(called, kind, first) => add(store, cell(alloc, called, kind, first)?),
        Line::Occur(place, given) => occur(store, Place(place), value(alloc, given)?),
        Line::Next(n) => Ok(end(store)? && begin(store, &Time::top(alloc, n))?),
    }
}

fn begin(store: &mut Store, time: &Time) -> Result<bool, Memory> {
    if store.begun().is_some() || !store.is_after(time) {
        return Ok(false);
    }
    store.begin(time)?;
    Ok(true)
}

fn end(store: &mut Store) -> Result<bool, Memory> {
    if store.begun().is_none() {
        return Ok(false);
    }
    store.end_moment()?;
    Ok(true)
}

fn add(store: &mut Store, node: Node) -> Result<bool, Memory> {
    if store.place(&node.name).is_some() || !is_born(store, &node.name) {
        return Ok(false);
    }
    match store.add_node(node) {
        Ok(_) => Ok(true),
        Err((memory, _)) => Err(memory),
    }
}

/// Whether the birth of a name is the time of the moment that is begun.
fn is_born(store: &Store, name: &Name) -> bool
    ensures { IsTrue result → store.now.now.begun ≡ Some (birth name.now) }
{
    match store.begun() {
        Some(time) => name.birth().is(time),
        None => false,
    }
}

fn occur(store: &mut Store, place: Place, value: Val) -> Result<bool, Memory> {
    if store.begun().is_none() || place.0 >= store.count() || store.occ_at(place).is_some() {
        return Ok(false);
    }
    store.set_occ(place, Some(value))?;
    Ok(true)
}

fn stream(alloc: Global, called: Called, kind: Kind) -> Result<Node, Memory> {
    let name = name(alloc, called)?;
    let ty = Ty::Stream(Boxed::new(alloc, Ty::Int)?);
    let shape = shape(alloc, kind)?;
    Ok(Node {
        name,
        shape,
        ty,
        first: None,
    })
}

fn cell(alloc: Global, called: Called, kind: Kind, first: Option<Given>) -> Result<Node, Memory> {
    let name = name(alloc, called)?;
    let ty = Ty::Cell(Boxed::new(alloc, Ty::Int)?);
    let first = first_value(alloc, first)?;
    let shape = shape(alloc, kind)?;
    Ok(Node {
        name,
        shape,
        ty,
        first,
    })
}

fn first_value(alloc: Global, first: Option<Given>) -> Result<Option<Val>, Memory> {
    match first {
        Some(given) => Ok(Some(value(alloc, given)?)),
        None => Ok(None),
    }
}

fn value(alloc: Global, given: Given) -> Result<Val, Memory> {
    match given {
        Given::Int(n) => Ok(Val::Int(n)),
        Given::Stream(called) => Ok(Val::Stream(name(alloc, called)?)),
        Given::Cell(called) => Ok(Val::Cell(name(alloc, called)?)),
    }
}

fn name(alloc: Global, called: Called) -> Result<Name, Memory> {
    match called {
        Called::Declared(item) => Name::declared(alloc, item),
        Called::Made { by, at, item } => {
            Name::declared(alloc, by)?.made(&Time::top(alloc, at), item)
        }
    }
}

fn shape(alloc: Global, kind: Kind) -> Result<Shape, Memory> {
    match kind {
        Kind::Sink => Ok(Shape::Sink),
        Kind::Constant => Ok(Shape::Constant),
        Kind::Map(s) => Ok(Shape::Map {
            f: lam(alloc),
            s: name(alloc, s)?,
        }),
        Kind::Merge(a, b) => merge(alloc, a, b),
        Kind::Snapshot(s, c) => snapshot(alloc, s, c),
        Kind::Loop(to) => Ok(Shape::Loop {
            to: name(alloc, to)?,
        }),
        Kind::Hold(s) => Ok(Shape::Hold { s: name(alloc, s)? }),
        Kind::Mapc(c) => Ok(Shape::Mapc {
            f: lam(alloc),
            c: name(alloc, c)?,
        }),
        Kind::Switchs(c) => Ok(Shape::Switchs { c: name(alloc, c)? }),
        Kind::Switchc(c) => Ok(Shape::Switchc { c: name(alloc, c)? }),
    }
}

fn merge(alloc: Global, a: Called, b: Called) -> Result<Shape, Memory> {
    let a = name(alloc, a)?;
    let b = name(alloc, b)?;
    let f = lam(alloc);
    Ok(Shape::Merge { f, a, b })
}

fn snapshot(alloc: Global, s: Called, c: Called) -> Result<Shape, Memory> {
    let s = name(alloc, s)?;
    let c = name(alloc, c)?;
    let f = lam(alloc);
    Ok(Shape::Snapshot { f, s, c })
}

/// The first expression, without kept values.
fn lam(alloc: Global) -> Lam {
    Lam {
        code: 0,
        kept: Seq::new(alloc),
    }
}
