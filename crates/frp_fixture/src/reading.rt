ghost use Rattle.std.specs.Prelude.{◌≡◌, is_some, IsTrue};
ghost use Rattle.std.specs.Option.{option_copied};
ghost use Rattle.frp_graph.specs.Trace.{post_in};
ghost use Rattle.frp_store.specs.State.{sight, pre_in};
ghost use Rattle.frp_links.specs.References.{is_reference_or_none, Refers, SwitchRefers, SwitchesRefer};
ghost use Rattle.frp_links.specs.Chains.{AreNamed, HaveBefores};

use frp_base::{Name, Val};
use frp_graph::{Node, Shape, View};
use frp_store::Store;

/// Whether the links of all nodes of a store can be read: each node has a value before exactly where it has a first value, and the
/// cells of switches refer to nodes.
pub fn can_read(store: &Store) -> bool
    ensures named { AreNamed (sight store.now.now) }
    ensures befores { IsTrue result → HaveBefores (sight store.now.now) }
    ensures switches { IsTrue result → SwitchesRefer (sight store.now.now) }
{
    for place in 0..store.live() {
        let node = store.nth(place);
        if !has_before(store, node) || !switch_refers(store, &node.shape) {
            return false;
        }
    }
    true
}

/// Whether a node has a value before exactly where it has a first value.
fn has_before(store: &Store, node: &Node) -> bool
    ensures { IsTrue result → is_some (pre_in store.now.now node.now.name) ≡ is_some node.now.first }
{
    store.before(&node.name).is_some() == node.first.is_some()
}

/// Whether the cell of a switch refers to a node.
fn switch_refers(store: &Store, shape: &Shape) -> bool
    ensures { IsTrue result → SwitchRefers (sight store.now.now) shape.now }
{
    match shape {
        Shape::Switchs { c } | Shape::Switchc { c } => refers(store, c),
        _ => true,
    }
}

/// Whether a cell is live, and refers to a node.
fn refers(store: &Store, c: &Name) -> bool
    ensures { IsTrue result → Refers (sight store.now.now) c.now }
{
    store.node(c).is_some() && is_reference(store.before(c)) && is_reference(after(store, c))
}

/// A cell's value after the time.
fn after<'a>(store: &'a Store, c: &Name) -> Option<&'a Val>
    ensures { option_copied result ≡ post_in (sight store.now.now) c.now }
{
    match store.occ(c) {
        Some(value) => Some(value),
        None => store.before(c),
    }
}

/// Whether a value refers to a node, where there is one.
fn is_reference(value: Option<&Val>) -> bool
    ensures { result ≡ is_reference_or_none (option_copied value.entry) }
{
    match value {
        Some(value) => matches!(value, Val::Stream(_) | Val::Cell(_)),
        None => true,
    }
}
