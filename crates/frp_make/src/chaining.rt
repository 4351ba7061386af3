//! A closed chain of a ring of names.
ghost use Rattle.std.specs.Prelude.{◌≡◌, ◌<◌, Bool, true, length};
ghost use Rattle.frp_base.specs.declared.name.Name.{Name};
ghost use Rattle.frp_graph.specs.Links.{is_closed_chain};
ghost use Rattle.frp_make.specs.Told.{IsNameRing, IsLeast};

use frp_base::{Name, Seq};

/// The names of a ring, turned to begin with the least.
pub fn closed_chain(mut ring: Vec<Name>) -> Seq<Name>
    requires some { 0 < length ring.items }
    ensures { (linked : Name → Name → Bool) → IsNameRing linked ring.items → is_closed_chain linked result ≡ true }
{
    let least = number_of_least(ring.as_slice());
    ring.rotate_left(least);
    Seq::of(ring)
}

/// Where the least of the names stands.
fn number_of_least(names: &[Name]) -> usize
    requires { 0 < length names.now }
    ensures inside { result < length names.now }
    ensures least { IsLeast names.now result }
{
    let mut best = 0;
    for (i, name) in names.iter().enumerate() {
        if name.cmp(&names[best]).is_lt() {
            best = i;
        }
    }
    best
}
