ghost use Rattle.std.specs.Prelude.{◌≡◌, Some, IsTrue};
ghost use Rattle.frp_base.specs.Name.{birth};

use frp_base::{Memory, Name, Place, Seq, Time, Ty, Val};
use frp_graph::{Body, Node, Prog, Shape};
use frp_store::Store;
use std::alloc::Global;

/// A name.
#[derive(Clone, Copy)]
pub enum Called {
    Declared(u64),
    /// That of an item which the declared node `by` made at `[at]`.
    Made { by: u64, at: u64, item: u64 },
}

/// A shape, and of a cell its first value.
#[derive(Clone, Copy)]
pub enum Kind {
    Sink,
    Never,
    Split(Called),
    Loop(Called),
    Hold(Called, i64),
    Switchs(Called),
    Switchc(Called, i64),
}

/// What is done to a store.
#[derive(Clone, Copy)]
pub enum Line {
    /// A moment is begun at `[n]`.
    Begin(u64),
    /// A moment is begun at `[n, i]`.
    Below(u64, u64),
    Add(Called, Kind),
    /// The node of a place gets an occurrence.
    Occur(u64, i64),
    /// The node of a place is turned to that of another one, or to none.
    Turn(u64, Option<u64>),
    End,
    Commit,
    Back,
}

/// A program without expressions. What nodes are added is up to the lines.
pub fn program(alloc: Global) -> Prog {
    Prog {
        codes: Seq::new(alloc),
        funs: Seq::new(alloc),
        templates: Seq::new(alloc),
        body: Body {
            param: None,
            kept: Seq::new(alloc),
            lines: Seq::new(alloc),
            give: None,
        },
        joins: Seq::new(alloc),
    }
}

/// Does what the lines say, and answers whether each of them could be done.
pub fn play(alloc: Global, store: &mut Store, lines: &[Line]) -> Result<bool, Memory> {
    for line in lines {
        if !step(alloc, store, *line)? {
            return Ok(false);
        }
    }
    Ok(true)
}

/// Does what a line says, and answers whether it could be done.
fn step(alloc: Global, store: &mut Store, line: Line) -> Result<bool, Memory> {
    match line {
        Line::Begin(n) => begin(store, &Time::top(alloc, n)),
        Line::Below(n, i) => begin(store, &Time::top(alloc, n).child(i)?),
        Line::Add(called, kind) => add(alloc, store, called, kind),
        Line::Occur(place, value) => occur(store, Place(place), value),
        Line::Turn(place, to) => turn(store, Place(place), to),
        Line::End => end(store),
        Line::Commit => {
            store.commit();
            Ok(true)
        }
        Line::Back => {
            store.roll_back();
            Ok(true)
        }
    }
}

fn begin(store: &mut Store, time: &Time) -> Result<bool, Memory> {
    if store.begun().is_some() || !store.is_after(time) {
        return Ok(false);
    }
    store.begin(time)?;
    Ok(true)
}

fn add(alloc: Global, store: &mut Store, called: Called, kind: Kind) -> Result<bool, Memory> {
    add_node(store, node(alloc, called, kind)?)
}

fn add_node(store: &mut Store, node: Node) -> Result<bool, Memory> {
    if store.place(&node.name).is_some() || !is_born(store, &node.name) {
        return Ok(false);
    }
    match store.add_node(node) {
        Ok(_) => Ok(true),
        Err((memory, _)) => Err(memory),
    }
}

/// Whether the birth of a name is the time of the moment that is begun.
fn is_born(store: &Store, name: &Name) -> bool
    ensures { IsTrue result → store.now.now.begun ≡ Some (birth name.now) }
{
    match store.begun() {
        Some(time) => name.birth().is(time),
        None => false,
    }
}

fn occur(store: &mut Store, place: Place, value: i64) -> Result<bool, Memory> {
    if store.begun().is_none() || place.0 >= store.count() || store.occ_at(place).is_some() {
        return Ok(false);
    }
    store.set_occ(place, Some(Val::Int(value)))?;
    Ok(true)
}

fn turn(store: &mut Store, place: Place, to: Option<u64>) -> Result<bool, Memory> {
    let count = store.count();
    if place.0 >= count {
        return Ok(false);
    }
    match to {
        Some(to) if to >= count => Ok(false),
        Some(to) => {
            store.rewire(place, Some(Place(to)))?;
            Ok(true)
        }
        None => {
            store.rewire(place, None)?;
            Ok(true)
        }
    }
}

fn end(store: &mut Store) -> Result<bool, Memory> {
    if store.begun().is_none() {
        return Ok(false);
    }
    store.end_moment()?;
    Ok(true)
}

fn name(alloc: Global, called: Called) -> Result<Name, Memory> {
    match called {
        Called::Declared(item) => Name::declared(alloc, item),
        Called::Made { by, at, item } => {
            Name::declared(alloc, by)?.made(&Time::top(alloc, at), item)
        }
    }
}

fn node(alloc: Global, called: Called, kind: Kind) -> Result<Node, Memory> {
    let name = name(alloc, called)?;
    let first = first_value(kind);
    let shape = shape(alloc, kind)?;
    Ok(Node {
        name,
        shape,
        ty: Ty::Int,
        first,
    })
}

fn first_value(kind: Kind) -> Option<Val> {
    match kind {
        Kind::Hold(_, first) => Some(Val::Int(first)),
        Kind::Switchc(_, first) => Some(Val::Int(first)),
        Kind::Sink => None,
        Kind::Never => None,
        Kind::Split(_) => None,
        Kind::Loop(_) => None,
        Kind::Switchs(_) => None,
    }
}

fn shape(alloc: Global, kind: Kind) -> Result<Shape, Memory> {
    match kind {
        Kind::Sink => Ok(Shape::Sink),
        Kind::Never => Ok(Shape::Never),
        Kind::Split(s) => Ok(Shape::Split { s: name(alloc, s)? }),
        Kind::Loop(to) => Ok(Shape::Loop {
            to: name(alloc, to)?,
        }),
        Kind::Hold(s, _) => Ok(Shape::Hold { s: name(alloc, s)? }),
        Kind::Switchs(c) => Ok(Shape::Switchs { c: name(alloc, c)? }),
        Kind::Switchc(c, _) => Ok(Shape::Switchc { c: name(alloc, c)? }),
    }
}
