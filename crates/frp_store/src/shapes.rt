ghost use Rattle.std.specs.Prelude.{◌≡◌, slice_get};
ghost use Rattle.std.specs.Option.{option_copied};
ghost use Rattle.std.specs.List.{list_any};
ghost use Rattle.frp_store.specs.Dependents.{own_links, watched, is_linked_to, is_watching};

use frp_base::Name;
use frp_graph::Shape;

/// The first node that a shape is linked to whatever a cell's value.
pub fn first_link(shape: &Shape) -> Option<&Name>
    ensures { option_copied result ≡ slice_get (own_links shape.now) 0 }
{
    match shape {
        Shape::Sink | Shape::Never | Shape::Constant => None,
        Shape::Split { .. } | Shape::Switchs { .. } => None,
        Shape::Map { s, .. } => Some(s),
        Shape::Filter { s, .. } => Some(s),
        Shape::Filteropt { s } => Some(s),
        Shape::Merge { a, .. } => Some(a),
        Shape::Snapshot { s, .. } => Some(s),
        Shape::Updates { c } => Some(c),
        Shape::Value { c } => Some(c),
        Shape::Loop { to } => Some(to),
        Shape::Hold { s } => Some(s),
        Shape::Mapc { c, .. } => Some(c),
        Shape::Apply { cf, .. } => Some(cf),
        Shape::Switchc { c } => Some(c),
        Shape::Execute { s, .. } => Some(s),
    }
}

/// The second node that a shape is linked to whatever a cell's value.
pub fn second_link(shape: &Shape) -> Option<&Name>
    ensures { option_copied result ≡ slice_get (own_links shape.now) 1 }
{
    match shape {
        Shape::Merge { b, .. } => Some(b),
        Shape::Apply { ca, .. } => Some(ca),
        _ => None,
    }
}

/// The node that a shape watches.
pub fn watched_node(shape: &Shape) -> Option<&Name>
    ensures { option_copied result ≡ slice_get (watched shape.now) 0 }
{
    match shape {
        Shape::Split { s } => Some(s),
        Shape::Switchs { c } => Some(c),
        _ => None,
    }
}

/// Whether a shape is linked to the node of this name whatever a cell's value. It takes no memory.
pub fn is_linked_to(shape: &Shape, name: &Name) -> bool
    ensures { result ≡ is_linked_to shape.now name.now }
{
    match shape {
        Shape::Sink | Shape::Never | Shape::Constant => false,
        Shape::Split { .. } | Shape::Switchs { .. } => false,
        Shape::Map { s, .. } => s.is(name),
        Shape::Filter { s, .. } => s.is(name),
        Shape::Filteropt { s } => s.is(name),
        Shape::Merge { a, b, .. } => a.is(name) || b.is(name),
        Shape::Snapshot { s, .. } => s.is(name),
        Shape::Updates { c } => c.is(name),
        Shape::Value { c } => c.is(name),
        Shape::Loop { to } => to.is(name),
        Shape::Hold { s } => s.is(name),
        Shape::Mapc { c, .. } => c.is(name),
        Shape::Apply { cf, ca } => cf.is(name) || ca.is(name),
        Shape::Switchc { c } => c.is(name),
        Shape::Execute { s, .. } => s.is(name),
    }
}

/// Whether a shape watches the node of this name. It takes no memory.
pub fn is_watching(shape: &Shape, name: &Name) -> bool
    ensures { result ≡ is_watching shape.now name.now }
{
    match shape {
        Shape::Split { s } => s.is(name),
        Shape::Switchs { c } => c.is(name),
        _ => false,
    }
}
