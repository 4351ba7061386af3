ghost use Rattle.std.specs.Prelude.{◌≡◌, Some, IsTrue};
ghost use Rattle.frp_base.specs.Name.{birth};

use frp_base::{Memory, Name, Place, Seq, Time, Ty, Val};
use frp_graph::{Body, Node, Prog, Shape};
use frp_store::Store;
use std::alloc::Global;

/// A store without nodes.
pub fn empty(alloc: Global) -> Store {
    Store::new(alloc, program(alloc))
}

/// Adds so many sinks at the build, and answers whether they could be added.
pub fn fill(alloc: Global, store: &mut Store, nodes: u64) -> Result<bool, Memory> {
    Ok(begin(store, &Time::top(alloc, 0))? && add_all(alloc, store, nodes)? && end(store)?)
}

/// A thousand moments, each committed, and in each of them the first so many nodes have an occurrence. It answers whether they could
/// be made.
pub fn pass(alloc: Global, store: &mut Store, fired: u64) -> Result<bool, Memory> {
    for number in 1..1001 {
        if !moment(alloc, store, number, fired)? {
            return Ok(false);
        }
    }
    Ok(true)
}

fn moment(alloc: Global, store: &mut Store, number: u64, fired: u64) -> Result<bool, Memory> {
    Ok(begin(store, &Time::top(alloc, number))? && occur_all(store, fired)? && end(store)?)
}

fn occur_all(store: &mut Store, fired: u64) -> Result<bool, Memory> {
    for place in 0..fired {
        if !occur(store, Place(place), 5)? {
            return Ok(false);
        }
    }
    Ok(true)
}

fn program(alloc: Global) -> Prog {
    Prog {
        codes: Seq::new(alloc),
        funs: Seq::new(alloc),
        templates: Seq::new(alloc),
        body: Body {
            param: None,
            kept: Seq::new(alloc),
            lines: Seq::new(alloc),
            give: None,
        },
        joins: Seq::new(alloc),
    }
}

fn begin(store: &mut Store, time: &Time) -> Result<bool, Memory> {
    if store.begun().is_some() || !store.is_after(time) {
        return Ok(false);
    }
    store.begin(time)?;
    Ok(true)
}

fn add_all(alloc: Global, store: &mut Store, nodes: u64) -> Result<bool, Memory> {
    for item in 0..nodes {
        let node = Node {
            name: Name::declared(alloc, item)?,
            shape: Shape::Sink,
            ty: Ty::Int,
            first: None,
        };
        if !add(store, node)? {
            return Ok(false);
        }
    }
    Ok(true)
}

fn add(store: &mut Store, node: Node) -> Result<bool, Memory> {
    if store.place(&node.name).is_some() || !is_born(store, &node.name) {
        return Ok(false);
    }
    match store.add_node(node) {
        Ok(_) => Ok(true),
        Err((memory, _)) => Err(memory),
    }
}

/// Whether the birth of a name is the time of the moment that is begun.
fn is_born(store: &Store, name: &Name) -> bool
    ensures { IsTrue result → store.now.now.begun ≡ Some (birth name.now) }
{
    match store.begun() {
        Some(time) => name.birth().is(time),
        None => false,
    }
}

fn occur(store: &mut Store, place: Place, value: i64) -> Result<bool, Memory> {
    if store.begun().is_none() || place.0 >= store.count() || store.occ_at(place).is_some() {
        return Ok(false);
    }
    store.set_occ(place, Some(Val::Int(value)))?;
    Ok(true)
}

/// Ends the moment that is begun, and commits.
fn end(store: &mut Store) -> Result<bool, Memory> {
    if store.begun().is_none() {
        return Ok(false);
    }
    store.end_moment()?;
    store.commit();
    Ok(true)
}
